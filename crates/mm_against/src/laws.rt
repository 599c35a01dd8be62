//! What is found and written of two databases is what the definitions say, stated as a law.

ghost use Rattle.mm_against.specs.Found.{FoundAreDifferences};

/// The lists that `list_only_in` and `list_shifts` find, written by `write_differences`, are the
/// differences of the definitions: marks stand for chains of citations.
pub fn found_differences_are_defined()
    ensures { FoundAreDifferences }
{}

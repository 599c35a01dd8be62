//! The lines of the statements.

ghost use Rattle.mm_laws.specs.Laws.Told.{LinesTellAssertions, ReadIsSpelled};

/// Two databases whose lines of the statements are the same have the same assertions, in the same
/// order: the same labels, kinds and places, the same mandatory hypotheses, the same conditions of
/// distinct variables with their dummy variables, and the same formulas, all as words. For this,
/// labels and names of symbols have neither line feeds, spaces nor `$`, and labels have no `:`. So
/// it is with all that is read of a text.
pub fn lines_tell_assertions()
    ensures same_lines_same_assertions { LinesTellAssertions }
    ensures read_is_spelled { ReadIsSpelled }
{}

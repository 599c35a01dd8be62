//! The one output of a text.

ghost use Rattle.mm_laws.specs.Laws.LongTexts.{LongTextsAreRefused, FrontsDecide};
ghost use Rattle.mm_laws.specs.Laws.SomeOutput.{OutputExists};
ghost use Rattle.mm_laws.specs.Laws.UniqueOutput.{OutputIsUnique};

/// Each text has at most one output for each request.
pub fn output_is_unique()
    ensures { OutputIsUnique }
{}

/// Each text has an output for each request.
pub fn output_exists()
    ensures { OutputExists }
{}

/// A text that is longer than the limit is refused at its first byte, as too long, whatever its
/// bytes are. So the output of a text is that of its first bytes, however many more there are, if
/// these first ones are more than the limit.
pub fn long_texts_have_one_output()
    ensures long_texts_are_refused { LongTextsAreRefused }
    ensures fronts_decide { FrontsDecide }
{}

//! Frames.

ghost use Rattle.mm_laws.specs.Laws.Read.{WhereRead};
ghost use Rattle.mm_laws.specs.Laws.Frames.{FramesAreComplete, VariablesAreTyped};
ghost use Rattle.mm_laws.specs.Laws.Frames.{VariablesAreMandatory};

/// Each variable in the frame of an assertion that is read has a `$f` among the frame's mandatory
/// hypotheses: lawful statements have an active `$f` for each variable of their formulas. The first
/// clause says this of what a label refers to, where a hypothesis is recognised only by its form;
/// the second says it of statements. The third says that the mandatory variables are the variables
/// of the frame: those of the formula, of the mandatory hypotheses and of the mandatory pairs.
pub fn lawful_statements_have_complete_frames()
    ensures frames_are_complete { WhereRead FramesAreComplete }
    ensures variables_are_typed { WhereRead VariablesAreTyped }
    ensures variables_are_mandatory { WhereRead VariablesAreMandatory }
{}

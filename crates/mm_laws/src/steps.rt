//! The steps that the words of a proof name.

ghost use Rattle.mm_laws.specs.Laws.Read.{WhereRead};
ghost use Rattle.mm_laws.specs.Laws.NamedSteps.{StepsAreNamed, NamedStepsAreUnique, StepsAreLabels};

/// The steps of a compressed proof are what its numbers name: hypotheses, labels in brackets, and
/// marked steps. Those of a normal proof are its labels.
pub fn steps_are_what_is_named()
    ensures steps_are_named { WhereRead StepsAreNamed }
    ensures steps_are_unique { NamedStepsAreUnique }
    ensures steps_are_labels { WhereRead StepsAreLabels }
{}

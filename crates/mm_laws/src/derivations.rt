//! Derivations and their labels.

ghost use Rattle.mm_laws.specs.Laws.Read.{WhereRead};
ghost use Rattle.mm_laws.specs.Laws.Derivations.{LabelsDetermine, ProofIsUnique};

/// The labels in postfix order determine a derivation, and a theorem has at most one proof.
pub fn labels_determine_a_derivation()
    ensures labels_determine { WhereRead LabelsDetermine }
    ensures proof_is_unique { WhereRead ProofIsUnique }
{}

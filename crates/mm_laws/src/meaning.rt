//! Proofs that are well formed, and what their words say.

ghost use Rattle.mm_laws.specs.Laws.Read.{WhereRead};
ghost use Rattle.mm_laws.specs.Laws.WellFormed.{CompressedIsExact, NormalIsExact};
ghost use Rattle.mm_laws.specs.Laws.Meaning.{ValidIsProved};

/// Reading finds no fault in exactly the proofs that are well formed.
pub fn well_formed_proofs_are_read()
    ensures compressed_is_exact { WhereRead CompressedIsExact }
    ensures normal_is_exact { WhereRead NormalIsExact }
{}

/// A theorem is valid if the words of its proof are well formed and say steps that expand to a
/// derivation of its formula, and otherwise not. What the words say is stated in terms of what
/// letters spell and labels name: the law names no reading from left to right.
pub fn valid_theorems_are_those_proved()
    ensures { WhereRead ValidIsProved }
{}

//! Valid theorems and faulty ones.

ghost use Rattle.mm_laws.specs.Laws.Read.{WhereRead};
ghost use Rattle.mm_laws.specs.Laws.Faults.{IsValidOrFaulty, ValidHasNoFault, FaultIsUnique};

/// Each theorem is valid, or its proof has a fault, but never both; and it has at most one fault.
pub fn theorems_are_valid_or_faulty()
    ensures one_holds { WhereRead IsValidOrFaulty }
    ensures never_both { WhereRead ValidHasNoFault }
    ensures one_fault { WhereRead FaultIsUnique }
{}

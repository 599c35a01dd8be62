//! The letters of compressed proofs, and the numbers that they spell.

ghost use Rattle.mm_laws.specs.Laws.Letters.{PartsAreUnique, SpellingIsUnique, ProofsAreSpelled};
ghost use Rattle.mm_laws.specs.Laws.Numerals.{NumbersHaveOneSpelling, BookNumbers};

/// The words of a compressed proof split into labels and letters in only one way. Letters spell at
/// most one row of numbers and marks, and if reading finds no fault in a compressed proof, its
/// letters spell one.
pub fn letters_spell_one_list()
    ensures parts_are_unique { PartsAreUnique }
    ensures spelling_is_unique { SpellingIsUnique }
    ensures proofs_are_spelled { ProofsAreSpelled }
{}

/// Each number from 1 on is spelled by one list of letters: 1 by `A`, 20 by `T`, 21 by `UA`, as in
/// the book.
pub fn numbers_have_one_spelling()
    ensures one_spelling { NumbersHaveOneSpelling }
    ensures book_numbers { BookNumbers }
{}

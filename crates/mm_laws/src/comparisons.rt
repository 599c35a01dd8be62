//! What the definitions mean, stated as laws: each function has an empty body, and its contract is
//! the law.

ghost use Rattle.mm_laws.specs.Laws.Comparisons.{HasAllOfItself, RestsOnNothingMore};
ghost use Rattle.mm_laws.specs.Laws.Comparisons.{SayTheSameInWords};
ghost use Rattle.mm_laws.specs.Laws.Comparisons.{ExchangedTextsExchangeSections, IsThereOrListed};
ghost use Rattle.mm_laws.specs.Laws.Comparisons.{RestsOnNothingThatIsNotGained};

/// A database compared with itself gives nothing: neither assertions nor marks.
pub fn statements_are_there_in_themselves()
    ensures nothing_is_listed { HasAllOfItself }
    ensures nothing_is_gained { RestsOnNothingMore }
{}

/// Each assertion of the one database is in the other, or is listed: so a new axiom is told.
pub fn assertions_are_there_or_listed()
    ensures { IsThereOrListed }
{}

/// Assertions that say the same are the same word for word, whatever numbers their symbols have.
pub fn same_assertions_have_the_same_words()
    ensures { SayTheSameInWords }
{}

/// With the two texts exchanged, the sections are exchanged: `new` with `gone`, `gained` with
/// `lost`.
pub fn exchanged_texts_exchange_sections()
    ensures { ExchangedTextsExchangeSections }
{}

/// A theorem rests on nothing that it hasn't gained, unless it did before: so if no theorem gained
/// an axiom that is watched, then none rests on it that didn't.
pub fn theorems_rest_on_nothing_that_is_not_gained()
    ensures { RestsOnNothingThatIsNotGained }
{}

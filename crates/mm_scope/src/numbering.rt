//! The symbols of all statements by their numbers, found before any statement is judged. The names
//! before a statement are the first of all names that the `$c` and `$v` of the text declare. So the
//! number of a symbol among all of them is its number from its declaration on. Several threads can
//! number the symbols of a stretch of the statements each.

ghost use Rattle.std.specs.Prelude.{◌≡◌, ◌<◌, ◌≤◌, ◌+◌, ◌^◌, ◌++◌, [], ℕ, List, All, IfOk, OnOk};
ghost use Rattle.std.specs.Prelude.{length, take};
ghost use Rattle.mm_spec.specs.Text.{words};
ghost use Rattle.mm_spec.specs.Statement.{symbols_of};
ghost use Rattle.mm_spec.specs.Frame.{first_occurrences, symbol_names};
ghost use Rattle.mm_outline.specs.Parts.{AreWithin, IsOutline, between, statement_of};
ghost use Rattle.mm_outline.specs.Statements.{statements};
ghost use Rattle.mm_database.specs.Names.{names_of};
ghost use Rattle.mm_scope.specs.Formulas.{AreNumbersOf, numbers_by, numbers_in};
ghost use Rattle.mm_scope.specs.Numbering.{AreNumbersBefore, IsNumberedStretch, numbers_up_to};
ghost use Rattle.mm_scope.specs.Scopes.{IsOutlineAmong, declared_words};

use mm_database::name_map::NameMap;
use mm_database::text_keyed::TextKeyed;
use mm_outline::parts::{Kind, Outline};
use mm_outline::symbol::Sym;
use mm_spec::Word;
use mm_stretches::Stretches;
use std::alloc::{AllocError, Allocator};
use std::thread::{self, Threads};

/// The maximum number of stretches: as many as there can be workers.
const MAX_STRETCHES: u32 = 64;

/// The numbers of the symbols of the first statements, one statement after the other.
#[derive(Drop)]
pub(crate) struct NumbersBefore<A: Allocator> {
    numbers: Vec<Sym, A>,
    /// How many statements these are.
    count: u32,
}

/// The numbers of the symbols of a stretch of the statements.
#[derive(Drop)]
pub(crate) struct StretchNumbers<A: Allocator> {
    numbers: Vec<Sym, A>,
    /// The index of the first of these statements.
    from: u32,
    /// The index behind the last of them.
    to: u32,
}

/// Adds the words of the tokens from `from` up to `to` to the names.
fn add_words<'a, A: Allocator + Copy>(
    names: &mut NameMap<'a, u32, A>,
    text: &'a [u8],
    tokens: &[Word],
    from: u32,
    to: u32,
) -> Result<(), AllocError>
    requires tokens_within { AreWithin text.now tokens.now }
    requires from_le_to { from ≤ to }
    requires to_le_length { to ≤ length tokens.now }
    ensures { OnOk result
        ((d : List (List ℕ)) → names_of names.old ≡ first_occurrences [] d
        → names_of names.new
        ≡ first_occurrences [] (d ++ words (between text.now tokens.now from to))) }
{
    for token_index in from..to {
        let token = tokens[token_index as usize];
        names.insert(token.bytes(text), 0)?;
    }
    Ok(())
}

/// Adds the names that a statement declares, be it lawful or not.
fn add_declared<'a, A: Allocator + Copy>(
    names: &mut NameMap<'a, u32, A>,
    text: &'a [u8],
    tokens: &[Word],
    outline: Outline,
) -> Result<(), AllocError>
    requires is_among_tokens { IsOutlineAmong text.now tokens.now outline }
    ensures { OnOk result
        ((d : List (List ℕ)) → names_of names.old ≡ first_occurrences [] d
        → names_of names.new
        ≡ first_occurrences [] (d ++ declared_words (statement_of text.now tokens.now outline))) }
{
    match outline.kind {
        Kind::Constants => add_words(names, text, tokens, outline.keyword + 1, outline.middle),
        Kind::Variables => add_words(names, text, tokens, outline.keyword + 1, outline.middle),
        _ => Ok(()),
    }
}

/// Returns the names that the statements declare, be they lawful or not, each once and in order.
fn declared_names<'a, A: Allocator + Copy>(
    alloc: A,
    keys: TextKeyed,
    text: &'a [u8],
    tokens: &[Word],
    outlines: &[Outline],
) -> Result<NameMap<'a, u32, A>, AllocError>
    requires tokens_within { AreWithin text.now tokens.now }
    requires are_outlines { All (λ o. IsOutline o × (o.end < length tokens.now)) outlines.now }
    ensures { IfOk result
        (λ names. names_of names ≡ symbol_names (statements text.now tokens.now outlines.now)) }
{
    let mut names = NameMap::new(alloc, keys);
    for outline in outlines {
        add_declared(&mut names, text, tokens, *outline)?;
    }
    Ok(names)
}

/// Appends the numbers of the words of the tokens from `from` up to `to`.
fn number_words<'a, A: Allocator + Copy>(
    names: &NameMap<'a, u32, A>,
    text: &[u8],
    tokens: &[Word],
    from: u32,
    to: u32,
    numbers: &mut Vec<Sym, A>,
) -> Result<(), AllocError>
    requires tokens_within { AreWithin text.now tokens.now }
    requires from_le_to { from ≤ to }
    requires to_le_length { to ≤ length tokens.now }
    requires few_names { length (names_of names.now) < 2 ^ 31 }
    ensures { OnOk result
        (numbers.new.items
        ≡ numbers.old.items
        ++ numbers_in (names_of names.now) (between text.now tokens.now from to)) }
{
    for token_index in from..to {
        let word = tokens[token_index as usize];
        let (number, _) = names.get_full(word.bytes(text));
        numbers.push(Sym::new(number as u32))?;
    }
    Ok(())
}

/// Appends the numbers of the symbols of a statement.
fn number_statement<'a, A: Allocator + Copy>(
    names: &NameMap<'a, u32, A>,
    text: &[u8],
    tokens: &[Word],
    outline: Outline,
    numbers: &mut Vec<Sym, A>,
) -> Result<(), AllocError>
    requires is_among_tokens { IsOutlineAmong text.now tokens.now outline }
    requires few_tokens { length tokens.now < 2 ^ 31 }
    requires few_names { length (names_of names.now) < 2 ^ 31 }
    ensures { OnOk result
        (numbers.new.items
        ≡ numbers.old.items
        ++ numbers_in (names_of names.now)
        (symbols_of (statement_of text.now tokens.now outline))) }
{
    let from = outline.keyword + 1;
    match outline.kind {
        Kind::Open => Ok(()),
        Kind::Close => Ok(()),
        _ => number_words(names, text, tokens, from, outline.middle, numbers),
    }
}

/// Appends the numbers of the symbols of the statements from `from` up to `to`.
fn number_between<'a, A: Allocator + Copy>(
    names: &NameMap<'a, u32, A>,
    text: &[u8],
    tokens: &[Word],
    outlines: &[Outline],
    from: u32,
    to: u32,
    numbers: &mut Vec<Sym, A>,
) -> Result<(), AllocError>
    requires tokens_within { AreWithin text.now tokens.now }
    requires are_outlines { All (λ o. IsOutline o × (o.end < length tokens.now)) outlines.now }
    requires few_tokens { length tokens.now < 2 ^ 31 }
    requires few_names { length (names_of names.now) < 2 ^ 31 }
    requires from_le_to { from ≤ to }
    requires to_le_length { to ≤ length outlines.now }
    ensures { OnOk result
        ((before : List ℕ)
        → before ++ numbers.old.items
        ≡ numbers_up_to (names_of names.now) text.now tokens.now outlines.now from
        → before ++ numbers.new.items
        ≡ numbers_up_to (names_of names.now) text.now tokens.now outlines.now to) }
{
    for index in from..to {
        let outline = outlines[index as usize];
        number_statement(names, text, tokens, outline, numbers)?;
    }
    Ok(())
}

/// Numbers the symbols of the stretch of the statements with this index.
fn numbers_at<'a, A: Allocator + Copy>(
    alloc: A,
    names: &NameMap<'a, u32, A>,
    text: &[u8],
    tokens: &[Word],
    outlines: &[Outline],
    stretches: &Stretches,
    index: u32,
) -> Result<StretchNumbers<A>, AllocError>
    requires tokens_within { AreWithin text.now tokens.now }
    requires are_outlines { All (λ o. IsOutline o × (o.end < length tokens.now)) outlines.now }
    requires few_tokens { length tokens.now < 2 ^ 31 }
    requires few_names { length (names_of names.now) < 2 ^ 31 }
    requires all_are_cut { stretches.now.count ≡ length outlines.now }
    ensures { IfOk result
        (IsNumberedStretch (numbers_up_to (names_of names.now) text.now tokens.now outlines.now)
        (length outlines.now)) }
{
    let (from, to) = stretches.range(index);
    let mut numbers = Vec::new(alloc);
    number_between(names, text, tokens, outlines, from, to, &mut numbers)?;
    Ok(StretchNumbers { numbers, from, to })
}

/// Numbers the symbols of each stretch of the statements, in order. They are numbered in parallel.
fn numbers_by_stretch<'a, R: Threads + Sync, A: Allocator + Copy + Send + Sync>(
    rt: &R,
    alloc: A,
    names: &NameMap<'a, u32, A>,
    text: &[u8],
    tokens: &[Word],
    outlines: &[Outline],
    stretches: &Stretches,
) -> Result<Vec<Result<StretchNumbers<A>, AllocError>, A>, AllocError>
    requires tokens_within { AreWithin text.now tokens.now }
    requires are_outlines { All (λ o. IsOutline o × (o.end < length tokens.now)) outlines.now }
    requires few_tokens { length tokens.now < 2 ^ 31 }
    requires few_names { length (names_of names.now) < 2 ^ 31 }
    requires all_are_cut { stretches.now.count ≡ length outlines.now }
    ensures { IfOk result
        (λ v. All (λ r. IfOk r
        (IsNumberedStretch (numbers_up_to (names_of names.now) text.now tokens.now outlines.now)
        (length outlines.now))) v.items) }
{
    thread::map_indices(
        rt,
        alloc,
        stretches.len() as usize,
        &|index| {
            numbers_at(
                alloc,
                names,
                text,
                tokens,
                outlines,
                stretches,
                index as u32,
            )
        },
    )
}

/// Appends the numbers of a stretch if it begins behind the statements that are numbered.
fn with_stretch<A: Allocator>(
    before: NumbersBefore<A>,
    stretch: StretchNumbers<A>,
) -> Result<NumbersBefore<A>, AllocError>
    ensures { IfOk result
        (λ both. (wanted : ℕ → List ℕ) (len : ℕ) → AreNumbersBefore wanted len before
        → IsNumberedStretch wanted len stretch → AreNumbersBefore wanted len both) }
{
    let mut both = before;
    if stretch.from == both.count {
        both.numbers.extend_from_slice(&stretch.numbers)?;
        both.count = stretch.to;
    }
    Ok(both)
}

/// How many symbols the statements have together.
fn symbol_total(outlines: &[Outline]) -> usize {
    let mut count = 0usize;
    for outline in outlines {
        let after_keyword = outline.middle.saturating_sub(outline.keyword);
        count = count.saturating_add(after_keyword.saturating_sub(1) as usize);
    }
    count
}

/// Puts the numbers of the stretches together, of which there are at most so many.
fn joined_numbers<A: Allocator + Copy>(
    alloc: A,
    count: usize,
    found: Vec<Result<StretchNumbers<A>, AllocError>, A>,
) -> Result<NumbersBefore<A>, AllocError>
    ensures { IfOk result
        (λ joined. (wanted : ℕ → List ℕ) (len : ℕ) → wanted 0 ≡ []
        → All (λ r. IfOk r (IsNumberedStretch wanted len)) found.items
        → AreNumbersBefore wanted len joined) }
{
    let mut unjoined = found;
    let mut joined = NumbersBefore {
        numbers: Vec::with_capacity(alloc, count)?,
        count: 0,
    };
    'joining: while !unjoined.is_empty() {
        let next = unjoined.remove(0)?;
        joined = with_stretch(joined, next)?;
    }
    Ok(joined)
}

/// Numbers the symbols of the statements behind those that are numbered.
fn numbers_onward<'a, A: Allocator + Copy>(
    names: &NameMap<'a, u32, A>,
    text: &[u8],
    tokens: &[Word],
    outlines: &[Outline],
    before: NumbersBefore<A>,
) -> Result<Vec<Sym, A>, AllocError>
    requires tokens_within { AreWithin text.now tokens.now }
    requires are_outlines { All (λ o. IsOutline o × (o.end < length tokens.now)) outlines.now }
    requires few_tokens { length tokens.now < 2 ^ 31 }
    requires few_outlines { length outlines.now < 2 ^ 31 }
    requires few_names { length (names_of names.now) < 2 ^ 31 }
    requires are_before { AreNumbersBefore
        (numbers_up_to (names_of names.now) text.now tokens.now outlines.now)
        (length outlines.now) before }
    ensures { IfOk result
        (λ v. v.items
        ≡ numbers_by (names_of names.now) (statements text.now tokens.now outlines.now)) }
{
    let NumbersBefore { mut numbers, count } = before;
    number_between(
        names,
        text,
        tokens,
        outlines,
        count,
        outlines.len() as u32,
        &mut numbers,
    )?;
    Ok(numbers)
}

/// Numbers the symbols of all statements, lawful or not, on the calling thread alone. A symbol's
/// number is its index among all names that the statements declare, or their count if none declares
/// it. Fails only if out of memory.
pub fn numbers_of<'a, A: Allocator + Copy>(
    alloc: A,
    keys: TextKeyed,
    text: &'a [u8],
    tokens: &[Word],
    outlines: &[Outline],
) -> Result<Vec<Sym, A>, AllocError>
    requires tokens_within { AreWithin text.now tokens.now }
    requires are_outlines { All (λ o. IsOutline o × (o.end < length tokens.now)) outlines.now }
    requires few_tokens { length tokens.now < 2 ^ 31 }
    requires few_outlines { length outlines.now < 2 ^ 31 }
    requires few_names { length (symbol_names (statements text.now tokens.now outlines.now))
        < 2 ^ 31 }
    ensures { IfOk result
        (λ v. AreNumbersOf (statements text.now tokens.now outlines.now) v.items) }
{
    let names = declared_names(alloc, keys, text, tokens, outlines)?;
    let none = NumbersBefore {
        numbers: Vec::with_capacity(alloc, symbol_total(outlines))?,
        count: 0,
    };
    numbers_onward(&names, text, tokens, outlines, none)
}

/// The same as [`numbers_of`], but a thread for each worker numbers the symbols of a stretch of the
/// statements.
pub fn numbers_in_stretches<'a, R: Threads + Sync, A: Allocator + Copy + Send + Sync>(
    rt: &R,
    alloc: A,
    keys: TextKeyed,
    text: &'a [u8],
    tokens: &[Word],
    outlines: &[Outline],
    workers: u32,
) -> Result<Vec<Sym, A>, AllocError>
    requires tokens_within { AreWithin text.now tokens.now }
    requires are_outlines { All (λ o. IsOutline o × (o.end < length tokens.now)) outlines.now }
    requires few_tokens { length tokens.now < 2 ^ 31 }
    requires few_outlines { length outlines.now < 2 ^ 31 }
    requires few_names { length (symbol_names (statements text.now tokens.now outlines.now))
        < 2 ^ 31 }
    requires some_workers { 0 < workers }
    ensures { IfOk result
        (λ v. AreNumbersOf (statements text.now tokens.now outlines.now) v.items) }
{
    let names = declared_names(alloc, keys, text, tokens, outlines)?;
    let stretches = Stretches::new(outlines.len() as u32, workers.min(MAX_STRETCHES), 1);
    let found = numbers_by_stretch(rt, alloc, &names, text, tokens, outlines, &stretches)?;
    let joined = joined_numbers(alloc, symbol_total(outlines), found)?;
    numbers_onward(&names, text, tokens, outlines, joined)
}

//! The reading of statements, one by one.

ghost use Rattle.std.specs.Prelude.{◌≡◌, ◌<◌, ◌^◌, ◌∷◌, ◌++◌, [], ℕ, List, None, length, take};
ghost use Rattle.std.specs.Prelude.{◌≤◌, OnOk, IfOk, slice_range};
ghost use Rattle.mm_spec.specs.Statement.{symbols_of};
ghost use Rattle.mm_spec.specs.Frame.{symbol_names};
ghost use Rattle.mm_spec.specs.declared.Word.{Word};
ghost use Rattle.mm_spec.specs.Output.{IsRead};
ghost use Rattle.mm_spec.specs.Lexed.{tokens_of};
ghost use Rattle.mm_lists.specs.Lists.{AreBounds, with_end};
ghost use Rattle.mm_database.specs.ParsedStatements.{AreParsedStatements};
ghost use Rattle.mm_outline.specs.Parts.{AreWithin, IsOutline, statement_of};
ghost use Rattle.mm_outline.specs.Tokens.{AreTokens};
ghost use Rattle.mm_outline.specs.Statements.{end_fault_of, lexed, statements};
ghost use Rattle.mm_scope.specs.Formulas.{AreNumbersOf, AreNumbersOnward};
ghost use Rattle.mm_scope.specs.Scopes.{AreKnown, IsOutlineAmong, IsScopeAfter, names_in};
ghost use Rattle.mm_scope.specs.ReadSoFar.{HasReadNext, IsReadSoFar, MayTake, formulas_of};
ghost use Rattle.mm_scope.specs.ReadSoFar.{read_so_far, read_with, reading_of};
ghost use Rattle.mm_scope.specs.Outlines.{AreOutlinesFrom};

use crate::outlines::{Rest, depth_after, label_count};
use crate::scope::Scope;
use mm_database::names::no_names;
use mm_database::reading::Reading;
use mm_database::statements::Statements;
use mm_database::text_keyed::TextKeyed;
use mm_lists::Lists;
use mm_outline::blocks::no_blocks;
use mm_outline::parts::{Kind, Outline, Part};
use mm_outline::symbol::Sym;
use mm_spec::{Code, Fault, Word};
use std::alloc::{AllocError, Allocator};

/// The lawful statements of a text as outlines, the names after them, their symbols by number,
/// concatenated, with the places where those of each end, as [`end_list`] notes them, and the fault
/// that stopped the reading, if any.
pub struct Outlined<'a, A: Allocator> {
    pub outlines: Vec<Outline, A>,
    pub scope: Scope<'a, A>,
    pub symbols: Vec<Sym, A>,
    pub ends: Vec<u32, A>,
    pub fault: Option<Fault>,
}

/// Dropped in one call: docs/PROOFS.md, "What a check costs".
impl<'a, A: Allocator> Drop for Outlined<'a, A> {
    fn drop(self) {
        let Self {
            outlines: _,
            scope: _,
            symbols: _,
            ends: _,
            fault: _,
        } = self;
    }
}

impl<'a, A: Allocator> Outlined<'a, A> {
    /// Returns what was read of the text, the names by themselves. `variables` says for each symbol
    /// whether it is a variable.
    pub fn into_reading(self, text: &'a [u8], variables: Vec<bool, A>) -> Reading<'a, A>
        requires are_places { AreBounds self.ends.items (length self.symbols.items) }
        requires are_parsed_statements { AreParsedStatements
            (statements text.now (tokens_of text.now) self.outlines.items) self.scope.blocks
            (formulas_of self) variables.items }
        ensures { result ≡ reading_of text.now self.entry }
    {
        let Outlined {
            outlines,
            scope,
            symbols,
            ends,
            fault,
        } = self;
        let Scope {
            names,
            known: _,
            blocks,
        } = scope;
        let formulas = Lists::from_ends(symbols, ends);
        Reading {
            statements: Statements::new(text, outlines, blocks, formulas, variables),
            names,
            fault,
        }
    }
}

/// Returns the names and blocks before the first statement: none. There is room for so many labels.
fn no_scope<'a, A: Allocator + Copy>(
    alloc: A,
    keys: TextKeyed,
    labels: usize,
) -> Result<Scope<'a, A>, AllocError>
    ensures is_scope_after_none { IfOk result
        (λ s. IsScopeAfter [] s) }
    ensures has_no_names { IfOk result (λ s. names_in s ≡ []) }
    ensures none_is_known { IfOk result AreKnown }
{
    let blocks = no_blocks(alloc)?;
    Ok(Scope {
        names: no_names(alloc, keys, labels)?,
        known: Vec::new(alloc),
        blocks,
    })
}

/// Returns the fault at the end of a text.
fn end_fault(lexical: Option<Fault>, text: &[u8], part: Part, depth: u32) -> Option<Fault>
    requires few_bytes { lexical ≡ None → length text.now < 2 ^ 31 }
    ensures { result ≡ end_fault_of lexical (length text.now) part depth }
{
    match lexical {
        Some(fault) => Some(fault),
        None => match part {
            Part::Start => {
                if depth == 0 {
                    None
                } else {
                    Some(Fault {
                        at: text.len() as u32,
                        code: Code::OpenBlock,
                    })
                }
            }
            _ => Some(Fault {
                at: text.len() as u32,
                code: Code::OpenStatement,
            }),
        },
    }
}

/// Returns what there is before the first statement is read, with room for so many labels.
fn nothing_read<'a, A: Allocator + Copy>(
    alloc: A,
    keys: TextKeyed,
    labels: usize,
) -> Result<Outlined<'a, A>, AllocError>
    ensures { IfOk result
        (λ r. (r.outlines.items ≡ []) × (r.fault ≡ None) × AreKnown r.scope
        × IsReadSoFar [] (read_with [] r)) }
{
    let scope = no_scope(alloc, keys, labels)?;
    Ok(Outlined {
        outlines: Vec::new(alloc),
        scope,
        symbols: Vec::new(alloc),
        ends: Vec::new(alloc),
        fault: None,
    })
}

/// Notes that the symbols of a statement end there, and if it is the first one, that they begin at
/// 0. Fails only if out of memory, or if there are 2^32 symbols or more.
fn add_end<A: Allocator>(ends: &mut Vec<u32, A>, end: usize) -> Result<(), AllocError>
    ensures { OnOk result (ends.new.items ≡ with_end ends.old.items end) }
{
    let Ok(end) = u32::try_from(end) else {
        return Err(AllocError);
    };
    if ends.is_empty() {
        ends.push(0)?;
    }
    ends.push(end)?;
    Ok(())
}

/// Returns how many symbols a statement has.
fn symbol_count(outline: Outline) -> u32
    requires { IsOutline outline }
    ensures { (text : List ℕ) (tokens : List Word) → outline.end < length tokens
        → result ≡ length (symbols_of (statement_of text tokens outline)) }
{
    match outline.kind {
        Kind::Open => 0,
        Kind::Close => 0,
        _ => outline.middle - outline.keyword - 1,
    }
}

impl<'a, A: Allocator + Copy> Outlined<'a, A> {
    /// Adds the next statement if it is lawful. Otherwise notes its fault and changes nothing else.
    /// `numbers` has the numbers of its symbols from `first` up to `end`.
    fn add_if_lawful(
        &mut self,
        alloc: A,
        text: &'a [u8],
        tokens: &[Word],
        depth: u32,
        outline: Outline,
        numbers: &[Sym],
        first: usize,
        end: usize,
    ) -> Result<(), AllocError>
        requires is_among_tokens { IsOutlineAmong text.now tokens.now outline }
        requires few_tokens { length tokens.now < 2 ^ 31 }
        requires no_fault { self.old.fault ≡ None }
        requires are_known { AreKnown self.old.scope }
        requires is_read_so_far { IsReadSoFar
            (statements text.now tokens.now self.old.outlines.items)
            (read_with (take first numbers.now) self.old) }
        requires may_take { MayTake (statements text.now tokens.now self.old.outlines.items) depth
            (statement_of text.now tokens.now outline) }
        requires first_le_end { first ≤ end }
        requires end_le_count { end ≤ length numbers.now }
        requires are_numbers { AreNumbersOnward
            (symbol_names (statements text.now tokens.now self.old.outlines.items
            ++ statement_of text.now tokens.now outline ∷ []))
            (symbols_of (statement_of text.now tokens.now outline))
            (slice_range numbers.now first end) }
        ensures are_known { OnOk result (AreKnown self.new.scope) }
        ensures is_read { OnOk result
            (HasReadNext text.now tokens.now self.old.outlines.items depth outline numbers.now
            first end self.new) }
    {
        let own_numbers = &numbers[first..end];
        self.fault = self
            .scope
            .fault(alloc, text, tokens, depth, outline, own_numbers)?;
        if self.fault.is_some() {
            return Ok(());
        }
        self.scope.add(text, tokens, outline, own_numbers)?;
        add_end(&mut self.ends, end)?;
        self.outlines.push(outline)?;
        Ok(())
    }

    /// The same with the first so many of these numbers as the symbols.
    fn with_symbols(self, numbers: Vec<Sym, A>, count: usize) -> Self
        requires { count ≤ length numbers.items }
        ensures outlines_stay { result.outlines ≡ self.entry.outlines }
        ensures fault_stays { result.fault ≡ self.entry.fault }
        ensures is_read { read_so_far result ≡ read_with (take count numbers.items) self.entry }
    {
        let Outlined {
            outlines,
            scope,
            symbols: _,
            ends,
            fault,
        } = self;
        let mut symbols = numbers;
        symbols.truncate(count);
        Outlined {
            outlines,
            scope,
            symbols,
            ends,
            fault,
        }
    }
}

/// Reads the statements up to the first fault of words, shape, symbols, labels or scope. `outlines`
/// and `rest` are what is found of all statements by their shapes alone, and `numbers` has the
/// numbers of their symbols. The maps of names hash with these keys.
pub fn read_outlines<'a, A: Allocator + Copy>(
    alloc: A,
    keys: TextKeyed,
    text: &'a [u8],
    tokens: &[Word],
    lexical: Option<Fault>,
    outlines: &[Outline],
    rest: Rest,
    numbers: Vec<Sym, A>,
) -> Result<Outlined<'a, A>, AllocError>
    requires tokens_within { AreWithin text.now tokens.now }
    requires are_tokens { AreTokens text.now tokens.now }
    requires few_tokens { length tokens.now < 2 ^ 31 }
    requires few_bytes { lexical ≡ None → length text.now < 2 ^ 31 }
    requires are_found { AreOutlinesFrom text.now tokens.now 0 0 outlines.now rest }
    requires are_numbers { AreNumbersOf (statements text.now tokens.now outlines.now)
        numbers.items }
    ensures few_outlines { IfOk result (λ d. length d.outlines.items < 2 ^ 31) }
    ensures are_first { IfOk result
        (λ d. d.outlines.items ≡ take (length d.outlines.items) outlines.now) }
    ensures is_read_so_far { IfOk result
        (λ d. IsReadSoFar (statements text.now tokens.now d.outlines.items) (read_so_far d)) }
    ensures fault_is_read { IfOk result
        (λ d. IsRead (length text.now) (lexed text.now tokens.now lexical)
        (statements text.now tokens.now d.outlines.items) d.fault) }
{
    let mut read = nothing_read(alloc, keys, label_count(outlines))?;
    let mut depth = 0;
    let mut first = 0usize;
    for outline in outlines {
        let end = first + symbol_count(*outline) as usize;
        read.add_if_lawful(alloc, text, tokens, depth, *outline, &numbers, first, end)?;
        if read.fault.is_some() {
            return Ok(read.with_symbols(numbers, first));
        }
        first = end;
        depth = depth_after(outline.kind, depth);
    }
    match rest {
        Rest::Stopped(fault) => {
            read.fault = Some(fault);
            Ok(read.with_symbols(numbers, first))
        }
        Rest::Ended(part) => {
            read.fault = end_fault(lexical, text, part, depth);
            Ok(read.with_symbols(numbers, first))
        }
    }
}

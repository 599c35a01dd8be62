//! The statements of a text as they were read, with their blocks and the numbers of their symbols.
//! Here `at` is the number of the statement at which something is active, not a place of the text.

ghost use Rattle.std.specs.Prelude.{◌≡◌, ◌<◌, ◌≤◌, ◌^◌, All, Some, length, slice_get};
ghost use Rattle.std.specs.List.{list_any};
ghost use Rattle.std.specs.Option.{option_map};
ghost use Rattle.mm_spec.specs.Lexed.{tokens_of};
ghost use Rattle.mm_spec.specs.Scope.{statement_at, is_block_open, active_at};
ghost use Rattle.mm_spec.specs.Frame.{symbol_names, is_variable_number, is_disjoint_statement};
ghost use Rattle.mm_spec.specs.Frame.{is_floating, formula_at};
ghost use Rattle.mm_spec.specs.Citation.{is_assertion};
ghost use Rattle.mm_outline.specs.Blocks.{IsBlocks};
ghost use Rattle.mm_outline.specs.Statements.{statements, is_active_kind};
ghost use Rattle.mm_database.specs.Kinds.{kind_of, is_floating_kind};
ghost use Rattle.mm_database.specs.Kinds.{is_disjoint_kind, is_assertion_kind};
ghost use Rattle.mm_database.specs.ParsedStatements.{parsed_statements, AreParsedStatements};
ghost use Rattle.mm_database.specs.ParsedStatements.{IsSound, typed_variable_at};

use mm_lists::Lists;
use mm_outline::blocks::Blocks;
use mm_outline::parts::{Kind, Outline};
use mm_outline::symbol::Sym;
use std::alloc::Allocator;
use std::marker::Model;

/// The lawful statements of a text up to its first fault, as they were read.
pub struct Statements<'a, A: Allocator> {
    text: &'a [u8],
    outlines: Vec<Outline, A>,
    blocks: Blocks<A>,
    /// The symbols of each statement by their numbers.
    formulas: Lists<Sym, A>,
    /// For each symbol whether it is a variable.
    variable_flags: Vec<bool, A>,
}

/// Dropped in one call: docs/PROOFS.md, "What a check costs".
impl<'a, A: Allocator> Drop for Statements<'a, A> {
    fn drop(self) {
        let Self {
            text: _,
            outlines: _,
            blocks: _,
            formulas: _,
            variable_flags: _,
        } = self;
    }
}

impl<'a, A: Allocator> Model for Statements<'a, A> {
    ghost use Rattle.mm_spec.specs.Lexed.{tokens_of};
    ghost use Rattle.mm_outline.specs.Statements.{statements};
    ghost use Rattle.mm_database.specs.ParsedStatements.{ParsedStatements, parsed_statements};
    ghost use Rattle.mm_database.specs.ParsedStatements.{AreParsedStatements};

    ghost Value = { ParsedStatements };

    ghost view = { λ s. parsed_statements s.text.now
        (statements s.text.now (tokens_of s.text.now) s.outlines.items) s.blocks };

    ghost invariant = { λ s. AreParsedStatements
        (statements s.text.now (tokens_of s.text.now) s.outlines.items) s.blocks s.formulas
        s.variable_flags.items };
}

impl<'a, A: Allocator> Statements<'a, A> {
    /// Returns the statements of these outlines, with what was found of them. `variable_flags` says
    /// for each symbol whether it is a variable.
    pub fn new(
        text: &'a [u8],
        outlines: Vec<Outline, A>,
        blocks: Blocks<A>,
        formulas: Lists<Sym, A>,
        variable_flags: Vec<bool, A>,
    ) -> Statements<'a, A>
        requires { AreParsedStatements (statements text.now (tokens_of text.now) outlines.items)
            blocks
            formulas variable_flags.items }
        ensures { result
            ≡ parsed_statements text.now (statements text.now (tokens_of text.now) outlines.items)
            blocks }
    {
        Statements {
            text,
            outlines,
            blocks,
            formulas,
            variable_flags,
        }
    }

    /// Returns the text.
    pub fn text(&self) -> &'a [u8]
        ensures { result.now ≡ self.now.text }
    {
        self.text
    }

    /// Returns the blocks in which the statements are.
    #[inline(always)]
    pub fn blocks(&self) -> &Blocks<A>
        ensures blocks_are { result.now ≡ self.now.blocks }
        ensures are_blocks { IsBlocks self.now.list self.now.blocks }
    {
        &self.blocks
    }

    /// Returns the number of statements.
    #[inline(always)]
    pub fn len(&self) -> u32
        ensures len { result ≡ length self.now.list }
        ensures is_sound { IsSound self.now.list }
    {
        self.outlines.len() as u32
    }

    /// Returns the number of symbols.
    #[inline(always)]
    pub fn symbol_count(&self) -> u32
        ensures count_is { result ≡ length (symbol_names self.now.list) }
        ensures count_lt_2_31 { result < 2 ^ 31 }
    {
        self.variable_flags.len() as u32
    }

    /// Returns which of the nine shapes a statement has.
    #[inline(always)]
    pub fn kind(&self, statement: u32) -> Kind
        requires { statement < length self.now.list }
        ensures { option_map kind_of (slice_get self.now.list statement) ≡ Some result }
    {
        self.outlines[statement as usize].kind
    }

    /// Whether a statement is a `$d`.
    #[inline(always)]
    pub fn is_disjoint(&self, statement: u32) -> bool
        requires { statement < length self.now.list }
        ensures { result
            ≡ list_any is_disjoint_statement (statement_at self.now.list statement) }
    {
        is_disjoint_kind(self.kind(statement))
    }

    /// Whether a statement is a `$f`.
    #[inline(always)]
    fn is_floating(&self, statement: u32) -> bool
        requires { statement < length self.now.list }
        ensures { result ≡ list_any is_floating (statement_at self.now.list statement) }
    {
        is_floating_kind(self.kind(statement))
    }

    /// Whether a statement is an `$a` or a `$p`.
    #[inline(always)]
    pub fn is_assertion(&self, statement: u32) -> bool
        requires { statement < length self.now.list }
        ensures { result ≡ list_any is_assertion (statement_at self.now.list statement) }
    {
        is_assertion_kind(self.kind(statement))
    }

    /// Returns the symbols of a statement.
    #[inline(always)]
    pub fn formula(&self, statement: u32) -> &[Sym]
        requires { statement < length self.now.list }
        ensures formula { result.now ≡ formula_at self.now.list statement }
        ensures symbols_lt_count { All (λ s. s < length (symbol_names self.now.list)) result.now }
        ensures length_lt_2_32 { length result.now < 2 ^ 32 }
    {
        self.formulas.get(statement as usize)
    }

    /// Returns the variable that a `$f` types, or `None` if the statement isn't a `$f`.
    pub fn typed_variable(&self, statement: u32) -> Option<Sym>
        requires { statement < length self.now.list }
        ensures { result ≡ typed_variable_at self.now.list statement }
    {
        if self.is_floating(statement) {
            self.formula(statement).get(1).copied()
        } else {
            None
        }
    }

    /// Whether a symbol is a variable.
    #[inline(always)]
    pub fn is_variable(&self, symbol: Sym) -> bool
        requires { symbol < length (symbol_names self.now.list) }
        ensures { result ≡ is_variable_number self.now.list symbol }
    {
        self.variable_flags[symbol.number() as usize]
    }

    /// Whether the block of a statement is still open before a later one.
    #[inline(always)]
    pub fn is_block_open(&self, statement: u32, at: u32) -> bool
        requires statement_lt_at { statement < at }
        requires at_le_length { at ≤ length self.now.list }
        ensures { result ≡ is_block_open self.now.list statement at }
    {
        self.blocks.is_block_open(statement, at)
    }

    /// Whether a statement is active at the statement `at`, or at the end, which is `len()`.
    #[inline(always)]
    pub fn active_at(&self, statement: u32, at: u32) -> bool
        requires statement_lt_length { statement < length self.now.list }
        requires at_le_length { at ≤ length self.now.list }
        ensures { result ≡ active_at self.now.list statement at }
    {
        let kind = self.outlines[statement as usize].kind;
        statement < at && is_active_kind(kind, self.blocks.is_block_open(statement, at))
    }
}

fn is_floating_kind(kind: Kind) -> bool
    ensures { result ≡ is_floating_kind kind }
{
    match kind {
        Kind::Floating => true,
        _ => false,
    }
}

fn is_disjoint_kind(kind: Kind) -> bool
    ensures { result ≡ is_disjoint_kind kind }
{
    match kind {
        Kind::Disjoint => true,
        _ => false,
    }
}

fn is_assertion_kind(kind: Kind) -> bool
    ensures { result ≡ is_assertion_kind kind }
{
    match kind {
        Kind::Axiom | Kind::Theorem => true,
        _ => false,
    }
}

/// Whether a statement of this kind is active. `is_block_open` says whether its block is.
fn is_active_kind(kind: Kind, is_block_open: bool) -> bool
    ensures { result ≡ is_active_kind kind is_block_open }
{
    match kind {
        Kind::Constants | Kind::Axiom | Kind::Theorem => true,
        Kind::Open | Kind::Close => false,
        _ => is_block_open,
    }
}

//! What a walk over the statements knows of each symbol: its last `$f`, and how long it may be in
//! an active `$d`.

ghost use Rattle.std.specs.Prelude.{◌≡◌, ◌<◌, ◌≤◌, ◌+◌, ℕ, All, IfOk, length, slice_index, true};
ghost use Rattle.mm_spec.specs.Derivation.{is_member};
ghost use Rattle.mm_database.specs.ParsedStatements.{IsSound};
ghost use Rattle.mm_frame.specs.Hypotheses.{AreLastFloats};
ghost use Rattle.mm_frame.specs.SymbolFacts.{AreDisjointEnds, AreSymbolFacts};

use crate::neighbours::filled;
use mm_database::statements::Statements;
use mm_outline::blocks::NEVER;
use mm_outline::symbol::Sym;
use std::alloc::{AllocError, Allocator};

/// What is known of each symbol before a statement.
pub(crate) struct SymbolFacts<A: Allocator> {
    /// The last `$f` that types it, or `NEVER`.
    pub(crate) last_floats: Vec<u32, A>,
    /// The last of the ends of the blocks of all `$d` that have it, or 0. From there on none of
    /// these `$d` is active.
    pub(crate) disjoint_ends: Vec<u32, A>,
}

/// Dropped in one call: docs/PROOFS.md, "What a check costs".
impl<A: Allocator> Drop for SymbolFacts<A> {
    fn drop(self) {
        let Self {
            last_floats: _,
            disjoint_ends: _,
        } = self;
    }
}

/// Makes the statement the last `$f` of its variable, if it is a `$f`.
fn set_last_float<A: Allocator>(
    statements: &Statements<A>,
    statement: u32,
    last_floats: &mut Vec<u32, A>,
)
    requires is_sound { IsSound statements.now.list }
    requires statement_lt_length { statement < length statements.now.list }
    requires are_last_floats { AreLastFloats statements.now.list statement last_floats.old.items }
    ensures { AreLastFloats statements.now.list (statement + 1) last_floats.new.items }
{
    if let Some(variable) = statements.typed_variable(statement) {
        last_floats[variable.number() as usize] = statement;
    }
}

/// Moves the ends of the symbols to `end`, where they are earlier.
fn move_ends<A: Allocator>(symbols: &[Sym], end: u32, ends: &mut Vec<u32, A>)
    requires { All (λ s. s < length ends.old.items) symbols.now }
    ensures count_stays { length ends.new.items ≡ length ends.old.items }
    ensures none_is_earlier { (x : ℕ)
        → slice_index ends.old.items x ≤ slice_index ends.new.items x }
    ensures end_is_reached { (x : ℕ)
        → is_member symbols.now x ≡ true → end ≤ slice_index ends.new.items x }
{
    for symbol in symbols {
        let index = symbol.number() as usize;
        if ends[index] < end {
            ends[index] = end;
        }
    }
}

/// Moves the disjoint ends of the symbols of the statement, if it is a `$d`, to the end of its
/// block.
fn move_disjoint_ends<A: Allocator>(
    statements: &Statements<A>,
    statement: u32,
    disjoint_ends: &mut Vec<u32, A>,
)
    requires statement_lt_length { statement < length statements.now.list }
    requires are_disjoint_ends { AreDisjointEnds statements.now.list statements.now.blocks statement
        disjoint_ends.old.items }
    ensures { AreDisjointEnds statements.now.list statements.now.blocks (statement + 1)
        disjoint_ends.new.items }
{
    if statements.is_disjoint(statement) {
        let end = statements.blocks().end_of(statement);
        move_ends(statements.formula(statement), end, disjoint_ends);
    }
}

/// Adds what the statement says of its symbols.
pub(crate) fn add_symbol_facts<A: Allocator>(
    statements: &Statements<A>,
    statement: u32,
    facts: &mut SymbolFacts<A>,
)
    requires is_sound { IsSound statements.now.list }
    requires statement_lt_length { statement < length statements.now.list }
    requires are_facts { AreSymbolFacts statements.now.list statements.now.blocks statement
        facts.old }
    ensures { AreSymbolFacts statements.now.list statements.now.blocks (statement + 1) facts.new }
{
    set_last_float(statements, statement, &mut facts.last_floats);
    move_disjoint_ends(statements, statement, &mut facts.disjoint_ends);
}

/// Returns what is known of each symbol before the statement `at`.
pub(crate) fn symbol_facts_before<A: Allocator + Copy>(
    alloc: A,
    statements: &Statements<A>,
    at: u32,
) -> Result<SymbolFacts<A>, AllocError>
    requires is_sound { IsSound statements.now.list }
    requires at_le_length { at ≤ length statements.now.list }
    ensures { IfOk result
        (λ f. AreSymbolFacts statements.now.list statements.now.blocks at f) }
{
    let last_floats = filled(alloc, NEVER, statements.symbol_count())?;
    let disjoint_ends = filled(alloc, 0, statements.symbol_count())?;
    let mut facts = SymbolFacts {
        last_floats,
        disjoint_ends,
    };
    for statement in 0..at {
        add_symbol_facts(statements, statement, &mut facts);
    }
    Ok(facts)
}

//! The frames of the assertions in a stretch of statements.

ghost use Rattle.std.specs.Prelude.{◌≡◌, ◌≢◌, ◌<◌, ◌≤◌, ◌+◌, ◌^◌, ◌++◌, ◌∷◌, [], ℕ, List, IfOk};
ghost use Rattle.std.specs.Prelude.{OnOk, IsSome, Some, None, length, slice_index, get_or, map};
ghost use Rattle.std.specs.Prelude.{true};
ghost use Rattle.std.specs.List.{list_any};
ghost use Rattle.mm_spec.specs.Statement.{Statement};
ghost use Rattle.mm_spec.specs.Scope.{statement_at};
ghost use Rattle.mm_spec.specs.Derivation.{is_member, pair};
ghost use Rattle.mm_spec.specs.Citation.{is_assertion};
ghost use Rattle.mm_spec.specs.Frame.{symbol_names};
ghost use Rattle.mm_outline.specs.Blocks.{never};
ghost use Rattle.mm_database.specs.Frames.{frame_or_none, frames_between, mandatory};
ghost use Rattle.mm_database.specs.Frames.{mandatory_at};
ghost use Rattle.mm_frame.specs.Sources.{AreSources};
ghost use Rattle.mm_frame.specs.Hypotheses.{IsFresh};
ghost use Rattle.mm_frame.specs.SymbolFacts.{AreSymbolFacts};
ghost use Rattle.mm_frame.specs.Neighbours.{AreEssentialLists, IsReady, is_further, index_from};

use crate::disjoint::{list_disjoint_variables, list_pairs, symbol_pairs};
use crate::hypotheses::{list_further_variables, list_hypotheses, list_mandatory_variables};
use crate::neighbours::{EssentialLists, filled, is_same_scope, list_essentials};
use crate::sources::FrameSources;
use crate::symbol_facts::{SymbolFacts, add_symbol_facts, symbol_facts_before};
use mm_database::frames::{Frame, Frames};
use mm_database::statements::Statements;
use mm_outline::blocks::NEVER;
use mm_outline::symbol::Sym;
use std::alloc::{AllocError, Allocator};

/// What an assertion's frame is made of, in lists whose memory is used again for the next one.
struct FrameLists<A: Allocator> {
    /// For each symbol 1 more than the last assertion for which it is a mandatory variable, or 0.
    stamps: Vec<u32, A>,
    /// The mandatory variables.
    variables: Vec<Sym, A>,
    /// Those of them that may be in an active `$d`.
    disjoint_variables: Vec<Sym, A>,
    /// The mandatory hypotheses.
    hypotheses: Vec<u32, A>,
    /// The active wide `$d` of the mandatory variables, each paired with those of them that it has.
    variables_by_statement: Vec<(u32, u32), A>,
    /// The pairs of mandatory variables that are in one active `$d`.
    pairs: Vec<(u32, u32), A>,
}

/// Dropped in one call: docs/PROOFS.md, "What a check costs".
impl<A: Allocator> Drop for FrameLists<A> {
    fn drop(self) {
        let Self {
            stamps: _,
            variables: _,
            disjoint_variables: _,
            hypotheses: _,
            variables_by_statement: _,
            pairs: _,
        } = self;
    }
}

/// What is kept from one assertion to the next.
struct Scratch<A: Allocator> {
    /// The last assertion before, or `NEVER`.
    previous: u32,
    /// Its active `$e`.
    essential_lists: EssentialLists<A>,
    /// The variables of its formula that aren't in these `$e`, in ascending order.
    previous_further: Vec<u32, A>,
    /// Those of the assertion that is at hand.
    further: Vec<u32, A>,
    lists: FrameLists<A>,
}

/// Dropped in one call: docs/PROOFS.md, "What a check costs".
impl<A: Allocator> Drop for Scratch<A> {
    fn drop(self) {
        let Self {
            previous: _,
            essential_lists: _,
            previous_further: _,
            further: _,
            lists: _,
        } = self;
    }
}

impl<A: Allocator + Copy> FrameLists<A> {
    /// Returns the lists before the first assertion.
    fn new(alloc: A, symbol_count: u32) -> Result<FrameLists<A>, AllocError>
        ensures { IfOk result (λ s. (at : ℕ) → IsFresh symbol_count at s.stamps.items) }
    {
        let stamps = filled(alloc, 0, symbol_count)?;
        Ok(FrameLists {
            stamps,
            variables: Vec::new(alloc),
            disjoint_variables: Vec::new(alloc),
            hypotheses: Vec::new(alloc),
            variables_by_statement: Vec::new(alloc),
            pairs: Vec::new(alloc),
        })
    }
}

impl<A: Allocator + Copy> Scratch<A> {
    /// Returns what there is before the first assertion of a stretch.
    fn new(alloc: A, symbol_count: u32) -> Result<Scratch<A>, AllocError>
        ensures { IfOk result
            (λ s. (db : List Statement) (from : ℕ) → length (symbol_names db) ≡ symbol_count
            → IsReady db from from s) }
    {
        let essential_lists = EssentialLists::new(alloc, symbol_count)?;
        let lists = FrameLists::new(alloc, symbol_count)?;
        Ok(Scratch {
            previous: NEVER,
            essential_lists,
            previous_further: Vec::new(alloc),
            further: Vec::new(alloc),
            lists,
        })
    }
}

/// Returns the numbers in a list without spare capacity.
fn copied<A: Allocator + Copy>(alloc: A, numbers: &[u32]) -> Result<Vec<u32, A>, AllocError>
    ensures { IfOk result (λ v. v.items ≡ numbers.now) }
{
    let mut list = Vec::with_capacity(alloc, numbers.len())?;
    list.extend_from_slice(numbers)?;
    Ok(list)
}

/// Lists what is mandatory for an assertion, by its active `$e`. Replaces what the lists have.
fn list_frame<A: Allocator>(
    sources: &FrameSources<A>,
    facts: &SymbolFacts<A>,
    assertion: u32,
    essential_lists: &EssentialLists<A>,
    lists: &mut FrameLists<A>,
) -> Result<(), AllocError>
    requires are_sources { AreSources sources.now }
    requires assertion_lt_length { assertion < length sources.now.statements.now.list }
    requires are_facts { AreSymbolFacts sources.now.statements.now.list
        sources.now.statements.now.blocks assertion facts.now }
    requires are_fresh { IsFresh
        (length (symbol_names sources.now.statements.now.list)) assertion lists.old.stamps.items }
    requires are_essential { AreEssentialLists sources.now.statements.now.list assertion
        essential_lists.now }
    ensures are_fresh { OnOk result
        (IsFresh (length (symbol_names sources.now.statements.now.list)) (assertion + 1)
        lists.new.stamps.items) }
    ensures are_mandatory { OnOk result
        (mandatory lists.new.hypotheses.items (map (λ p. pair p.0 p.1) lists.new.pairs.items)
        ≡ mandatory_at sources.now.statements.now.list assertion) }
{
    list_mandatory_variables(
        sources.statements,
        &essential_lists.variables,
        assertion,
        &mut lists.stamps,
        &mut lists.variables,
    )?;
    list_hypotheses(
        sources.statements,
        &facts.last_floats,
        assertion,
        &essential_lists.essentials,
        &lists.variables,
        &mut lists.hypotheses,
    )?;
    list_disjoint_variables(
        &facts.disjoint_ends,
        &lists.variables,
        assertion,
        &mut lists.disjoint_variables,
    )?;
    list_pairs(
        sources,
        &lists.variables,
        &lists.disjoint_variables,
        &lists.stamps,
        assertion,
        &mut lists.variables_by_statement,
        &mut lists.pairs,
    )
}

/// Whether these are the pairs of the symbols.
fn are_pairs(symbols: &[(Sym, Sym)], pairs: &[(u32, u32)]) -> bool
    ensures { result ≡ true
        → map (λ p. pair p.0 p.1) symbols.now ≡ map (λ p. pair p.0 p.1) pairs.now }
{
    if symbols.len() != pairs.len() {
        return false;
    }
    for index in 0..pairs.len() {
        let (low, high) = symbols[index];
        if low.number() != pairs[index].0 || high.number() != pairs[index].1 {
            return false;
        }
    }
    true
}

/// Whether the numbers are the same.
fn are_same(first: &[u32], second: &[u32]) -> bool
    ensures { result ≡ true → first.now ≡ second.now }
{
    first == second
}

/// Adds an assertion with what was listed for it. If the assertion before it has the same, they
/// share one frame. `previous` is the index of the assertion before, among the statements that have
/// been added, or `NEVER`.
fn add_listed<A: Allocator + Copy>(
    alloc: A,
    previous: u32,
    lists: &FrameLists<A>,
    frames: &mut Frames<A>,
) -> Result<(), AllocError>
    requires few_frames { length frames.old < 2 ^ 31 }
    requires has_frame { previous ≢ never → IsSome (get_or frames.old previous None) }
    ensures { OnOk result
        (frames.new
        ≡ frames.old
        ++ Some (mandatory lists.now.hypotheses.items
        (map (λ p. pair p.0 p.1) lists.now.pairs.items)) ∷ []) }
{
    if previous != NEVER {
        let frame = frames.of(previous);
        if are_same(&frame.hyps, &lists.hypotheses) && are_pairs(&frame.pairs, &lists.pairs) {
            return frames.add_shared(previous);
        }
    }
    let hyps = copied(alloc, &lists.hypotheses)?;
    let pairs = symbol_pairs(alloc, &lists.pairs)?;
    frames.add(Frame { hyps, pairs })
}

/// Returns the index of a statement among those from `from` on, or `NEVER` if it is that.
fn index_from(from: u32, statement: u32) -> u32
    requires { statement ≢ never → from ≤ statement }
    ensures { result ≡ index_from from statement }
{
    if statement == NEVER {
        NEVER
    } else {
        statement - from
    }
}

/// Lists the active `$e` of an assertion, unless the same ones are listed already, and its
/// further variables.
fn list_further<A: Allocator>(
    sources: &FrameSources<A>,
    assertion: u32,
    is_same_scope: bool,
    essential_lists: &mut EssentialLists<A>,
    further: &mut Vec<u32, A>,
) -> Result<(), AllocError>
    requires are_sources { AreSources sources.now }
    requires assertion_lt_length { assertion < length sources.now.statements.now.list }
    requires are_fresh { IsFresh
        (length (symbol_names sources.now.statements.now.list)) assertion
        essential_lists.old.stamps.items }
    requires same_are_essential { is_same_scope ≡ true
        → AreEssentialLists sources.now.statements.now.list assertion essential_lists.old }
    ensures are_essential { OnOk result
        (AreEssentialLists sources.now.statements.now.list assertion essential_lists.new) }
    ensures same_stay { OnOk result
        (is_same_scope ≡ true → essential_lists.new ≡ essential_lists.old) }
    ensures are_further { OnOk result
        ((x : ℕ)
        → is_member further.new.items x
        ≡ is_further sources.now.statements.now.list assertion essential_lists.new.variables.items
        x) }
{
    if !is_same_scope {
        list_essentials(sources, assertion, essential_lists)?;
    }
    list_further_variables(
        sources.statements,
        sources.statements.formula(assertion),
        essential_lists.stamp,
        &essential_lists.stamps,
        further,
    )
}

/// Adds an assertion with its frame. If the same `$d`, `$e` and `$f` are active as at the assertion
/// before it, and it has the same further variables, it has the same frame, which isn't made again.
fn add_assertion<A: Allocator + Copy>(
    alloc: A,
    sources: &FrameSources<A>,
    facts: &SymbolFacts<A>,
    from: u32,
    assertion: u32,
    scratch: &mut Scratch<A>,
    frames: &mut Frames<A>,
) -> Result<(), AllocError>
    requires are_sources { AreSources sources.now }
    requires assertion_lt_length { assertion < length sources.now.statements.now.list }
    requires from_le_assertion { from ≤ assertion }
    requires is_assertion { list_any is_assertion
        (statement_at sources.now.statements.now.list assertion) ≡ true }
    requires are_facts { AreSymbolFacts sources.now.statements.now.list
        sources.now.statements.now.blocks assertion facts.now }
    requires is_ready { IsReady sources.now.statements.now.list from assertion scratch.old }
    requires are_frames { frames.old
        ≡ frames_between sources.now.statements.now.list from assertion }
    requires few_frames { length frames.old < 2 ^ 31 }
    ensures is_ready { OnOk result
        (IsReady sources.now.statements.now.list from (assertion + 1) scratch.new) }
    ensures frame_is_added { OnOk result
        (frames.new
        ≡ frames.old ++ Some (mandatory_at sources.now.statements.now.list assertion) ∷ []) }
{
    let is_same_scope = is_same_scope(sources, scratch.previous, assertion);
    list_further(
        sources,
        assertion,
        is_same_scope,
        &mut scratch.essential_lists,
        &mut scratch.further,
    )?;
    let previous = index_from(from, scratch.previous);
    if is_same_scope && are_same(&scratch.further, &scratch.previous_further) {
        scratch.previous = assertion;
        return frames.add_shared(previous);
    }
    list_frame(
        sources,
        facts,
        assertion,
        &scratch.essential_lists,
        &mut scratch.lists,
    )?;
    add_listed(alloc, previous, &scratch.lists, frames)?;
    std::mem::swap(&mut scratch.further, &mut scratch.previous_further);
    scratch.previous = assertion;
    Ok(())
}

/// Adds a statement, with its frame if it is an assertion.
fn add_frame<A: Allocator + Copy>(
    alloc: A,
    sources: &FrameSources<A>,
    facts: &SymbolFacts<A>,
    from: u32,
    statement: u32,
    scratch: &mut Scratch<A>,
    frames: &mut Frames<A>,
) -> Result<(), AllocError>
    requires are_sources { AreSources sources.now }
    requires statement_lt_length { statement < length sources.now.statements.now.list }
    requires from_le_statement { from ≤ statement }
    requires are_facts { AreSymbolFacts sources.now.statements.now.list
        sources.now.statements.now.blocks statement facts.now }
    requires is_ready { IsReady sources.now.statements.now.list from statement scratch.old }
    requires are_frames { frames.old
        ≡ frames_between sources.now.statements.now.list from statement }
    requires few_frames { length frames.old < 2 ^ 31 }
    ensures is_ready { OnOk result
        (IsReady sources.now.statements.now.list from (statement + 1) scratch.new) }
    ensures frame_is_added { OnOk result
        (frames.new
        ≡ frames.old ++ frame_or_none sources.now.statements.now.list statement ∷ []) }
{
    if sources.statements.is_assertion(statement) {
        add_assertion(alloc, sources, facts, from, statement, scratch, frames)
    } else {
        frames.add_none()
    }
}

/// Returns the frames of the assertions among the statements from `from` up to `to`.
pub(crate) fn frames_between<A: Allocator + Copy>(
    alloc: A,
    sources: &FrameSources<A>,
    from: u32,
    to: u32,
) -> Result<Frames<A>, AllocError>
    requires are_sources { AreSources sources.now }
    requires from_le_to { from ≤ to }
    requires to_le_length { to ≤ length sources.now.statements.now.list }
    ensures { IfOk result
        (λ v. v ≡ frames_between sources.now.statements.now.list from to) }
{
    let statements = sources.statements;
    let mut facts = symbol_facts_before(alloc, statements, from)?;
    let mut scratch = Scratch::new(alloc, statements.symbol_count())?;
    let mut frames = Frames::none(alloc, (to - from) as usize);
    for statement in from..to {
        add_frame(
            alloc,
            sources,
            &facts,
            from,
            statement,
            &mut scratch,
            &mut frames,
        )?;
        add_symbol_facts(statements, statement, &mut facts);
    }
    Ok(frames)
}

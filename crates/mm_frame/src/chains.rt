//! The wide `$d` of each symbol, found without a sort: a walk over the statements from the
//! last to the first puts each `$d` in front of the chains of its symbols. So each chain is in
//! ascending order. These chains are no chains of citations.

ghost use Rattle.std.specs.Prelude.{◌≡◌, ◌≢◌, ◌<◌, ◌≤◌, ◌-◌, ◌++◌, ℕ, IfOk, OnOk};
ghost use Rattle.std.specs.Prelude.{◌&&◌, All, List, length, map, get_or, nat_eq, nat_lt, true};
ghost use Rattle.std.specs.Prelude.{false};
ghost use Rattle.mm_spec.specs.Derivation.{is_member};
ghost use Rattle.mm_spec.specs.Frame.{symbol_names};
ghost use Rattle.mm_frame.specs.Chains.{AddsInFront, AreChains, AreLinked, IsChainOf};
ghost use Rattle.mm_database.specs.DisjointIndex.{is_disjoint_by_width, has_symbol_by_width};
ghost use Rattle.mm_database.specs.Pairs.{has_pair, AreRising};

use mm_database::disjoint_index::is_narrow;
use mm_database::statements::Statements;
use mm_outline::symbol::Sym;
use std::alloc::{AllocError, Allocator};

/// For each symbol `$d` statements, in ascending order.
pub(crate) struct Chains<A: Allocator> {
    /// For each symbol the number of its first link, or 0 if it has none.
    heads: Vec<usize, A>,
    /// Each link is a statement and the number of the next link of its chain, which is 0 if there
    /// is none. The number of a link is its index plus 1.
    links: Vec<(u32, usize), A>,
}

/// Dropped in one call: docs/PROOFS.md, "What a check costs".
impl<A: Allocator> Drop for Chains<A> {
    fn drop(self) {
        let Self { heads: _, links: _ } = self;
    }
}

/// Whether the chain from the link with the number `link` on begins with the statement.
fn begins_with(links: &[(u32, usize)], link: usize, statement: u32) -> bool
    requires { link ≤ length links.now }
    ensures begins_if_true { result ≡ true
        → (0 < link) × ((get_or links.now (link - 1) (0, 0)).0 ≡ statement) }
    ensures differs_if_false { result ≡ false → 0 < link
        → (get_or links.now (link - 1) (0, 0)).0 ≢ statement }
{
    link > 0 && links[link - 1].0 == statement
}

/// Puts the statement in front of the symbol's chain, unless it is there already.
fn add_link<A: Allocator>(
    symbol: Sym,
    statement: u32,
    chains: &mut Chains<A>,
) -> Result<(), AllocError>
    requires symbol_lt_count { symbol < length chains.old.heads.items }
    requires are_linked { AreLinked chains.old.heads.items chains.old.links.items }
    ensures head_count_stays { OnOk result
        (length chains.new.heads.items ≡ length chains.old.heads.items) }
    ensures are_linked { OnOk result (AreLinked chains.new.heads.items chains.new.links.items) }
    ensures adds_in_front { OnOk result
        (AddsInFront (λ x. nat_eq x symbol) statement chains.old chains.new) }
{
    let index = symbol.number() as usize;
    let first_link = chains.heads[index];
    if !begins_with(&chains.links, first_link, statement) {
        chains.links.push((statement, first_link))?;
        chains.heads[index] = chains.links.len();
    }
    Ok(())
}

/// Puts the statement in front of the chain of each of these symbols.
fn add_links<A: Allocator>(
    symbols: &[Sym],
    statement: u32,
    chains: &mut Chains<A>,
) -> Result<(), AllocError>
    requires symbols_lt_count { All (λ s. s < length chains.old.heads.items) symbols.now }
    requires are_linked { AreLinked chains.old.heads.items chains.old.links.items }
    ensures head_count_stays { OnOk result
        (length chains.new.heads.items ≡ length chains.old.heads.items) }
    ensures are_linked { OnOk result (AreLinked chains.new.heads.items chains.new.links.items) }
    ensures adds_in_front { OnOk result
        (AddsInFront (λ x. is_member symbols.now x) statement chains.old chains.new) }
{
    for symbol in symbols {
        add_link(*symbol, statement, chains)?;
    }
    Ok(())
}

/// Whether a statement is a narrow `$d`, or a wide one.
pub(crate) fn is_disjoint_by_width<A: Allocator>(
    statements: &Statements<A>,
    statement: u32,
    narrow: bool,
) -> bool
    requires { statement < length statements.now.list }
    ensures { result ≡ is_disjoint_by_width statements.now.list narrow statement }
{
    if !statements.is_disjoint(statement) {
        return false;
    }
    let formula_is_narrow = is_narrow(statements.formula(statement));
    if narrow {
        formula_is_narrow
    } else {
        !formula_is_narrow
    }
}

/// Returns the wide `$d` of each symbol.
pub(crate) fn chains_of<A: Allocator + Copy>(
    alloc: A,
    statements: &Statements<A>,
) -> Result<Chains<A>, AllocError>
    ensures head_count_is { IfOk result
        (λ c. length c.heads.items ≡ length (symbol_names statements.now.list)) }
    ensures symbols_have_heads { IfOk result
        (λ c. (x j : ℕ) → has_symbol_by_width statements.now.list false x j ≡ true
        → x < length c.heads.items) }
    ensures are_linked { IfOk result (λ c. AreLinked c.heads.items c.links.items) }
    ensures are_chains { IfOk result
        (λ c. AreChains (has_symbol_by_width statements.now.list false) 0 c.heads.items
        c.links.items) }
{
    let heads = vec![in alloc; 0; statements.symbol_count() as usize]?;
    let mut chains = Chains {
        heads,
        links: Vec::new(alloc),
    };
    let mut statement = statements.len();
    while statement > 0 {
        statement -= 1;
        if is_disjoint_by_width(statements, statement, false) {
            add_links(statements.formula(statement), statement, &mut chains)?;
        }
    }
    Ok(chains)
}

/// Appends the symbol with each statement of its chain, in order.
pub(crate) fn add_chain<A: Allocator>(
    chains: &Chains<A>,
    symbol: u32,
    by_symbol: &mut Vec<(u32, u32), A>,
) -> Result<(), AllocError>
    requires symbol_lt_count { symbol < length chains.now.heads.items }
    requires are_linked { AreLinked chains.now.heads.items chains.now.links.items }
    ensures { OnOk result
        ((statements : List ℕ) → IsChainOf chains.now symbol statements
        → by_symbol.new.items ≡ by_symbol.old.items ++ map (λ j. (symbol, j)) statements) }
{
    let mut link = chains.heads[symbol as usize];
    while link > 0 {
        let (statement, next) = chains.links[link - 1];
        by_symbol.push((symbol, statement))?;
        link = next;
    }
    Ok(())
}

/// Returns for each symbol and each wide `$d` that has it the two, the symbol first, in ascending
/// order.
pub(crate) fn pairs_by_symbol<A: Allocator + Copy>(
    alloc: A,
    statements: &Statements<A>,
) -> Result<Vec<(u32, u32), A>, AllocError>
    ensures rising { IfOk result (λ v. AreRising v.items) }
    ensures members_are { IfOk result (λ v. (x j : ℕ) → has_pair v.items x j
        ≡ has_symbol_by_width statements.now.list false x j) }
    ensures symbols_have_numbers { IfOk result (λ v. (x j : ℕ) → has_pair v.items x j ≡ true
        → x < length (symbol_names statements.now.list)) }
{
    let chains = chains_of(alloc, statements)?;
    let mut by_symbol = Vec::with_capacity(alloc, chains.links.len())?;
    for symbol in 0..statements.symbol_count() {
        add_chain(&chains, symbol, &mut by_symbol)?;
    }
    Ok(by_symbol)
}

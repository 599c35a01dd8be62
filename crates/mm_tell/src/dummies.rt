//! The dummy variables of theorems.

ghost use Rattle.std.specs.Prelude.{◌≡◌, ◌<◌, ◌+◌, ℕ, IfOk, OnOk, length, map, slice_index_or, []};
ghost use Rattle.std.specs.Prelude.{None, false, true};
ghost use Rattle.std.specs.List.{list_any};
ghost use Rattle.mm_spec.specs.Scope.{statement_at};
ghost use Rattle.mm_spec.specs.Citation.{is_assertion};
ghost use Rattle.mm_spec.specs.Derivation.{pair};
ghost use Rattle.mm_spec.specs.Assertion.{dummies, dummy_pairs, is_told};
ghost use Rattle.std.specs.Option.{option_copied};
ghost use Rattle.mm_tell.specs.Dummies.{DummyLists, dummies_before};
ghost use Rattle.mm_tell.specs.Dummies.{told_dummies, told_dummy_pairs};

use crate::pairs::list_pairs;
use crate::variables::{list_dummies, list_used};
use mm_database::{Database, has_chosen_typecode};
use mm_lists::Lists;
use mm_outline::parts::Kind;
use mm_outline::symbol::Sym;
use std::alloc::{AllocError, Allocator};
use std::marker::Model;

/// For each statement of a database that is told its dummy variables, and the pairs of variables,
/// one of which is a dummy, that an active `$d` has. Only a theorem has some. Where a typecode is
/// chosen, theorems with another one aren't told, and nothing is listed for them.
pub struct Dummies<A: Allocator> {
    variables: Lists<u32, A>,
    pairs: Lists<(Sym, Sym), A>,
}

/// Dropped in one call: docs/PROOFS.md, "What a check costs".
impl<A: Allocator> Drop for Dummies<A> {
    fn drop(self) {
        let Self {
            variables: _,
            pairs: _,
        } = self;
    }
}

impl<A: Allocator> Model for Dummies<A> {
    ghost use Rattle.std.specs.Prelude.{map};
    ghost use Rattle.mm_spec.specs.Derivation.{pair};
    ghost use Rattle.mm_tell.specs.Dummies.{DummyLists};

    ghost Value = { DummyLists };

    ghost view = { λ d. record {
      variables = d.variables;
      pairs = map (map (λ p. pair p.0 p.1)) d.pairs;
    } };
}

/// Whether a statement is a theorem that is told.
fn is_told_theorem<D: Allocator>(
    database: &Database<'_, D>,
    only: Option<&[u8]>,
    statement: u32,
) -> bool
    requires { statement < length database.now.statements }
    ensures is_told_if_true { result ≡ true
        → is_told database.now.statements (option_copied only.entry) statement ≡ true }
    ensures has_none_if_false { result ≡ false
        → told_dummies database.now.statements (option_copied only.entry) statement ≡ [] }
{
    match database.kind(statement) {
        Kind::Theorem => has_chosen_typecode(database, only, statement),
        _ => false,
    }
}

/// Lists that are kept from one theorem to the next, so that their memory is reused.
struct Scratch<A: Allocator> {
    dummies: Vec<u32, A>,
    used: Vec<u32, A>,
    pairs: Vec<(Sym, Sym), A>,
}

/// Dropped in one call: docs/PROOFS.md, "What a check costs".
impl<A: Allocator> Drop for Scratch<A> {
    fn drop(self) {
        let Self {
            dummies: _,
            used: _,
            pairs: _,
        } = self;
    }
}

impl<A: Allocator> Scratch<A> {
    /// Lists the dummy variables of a theorem, and the pairs with these.
    fn list_theorem<D: Allocator>(
        &mut self,
        database: &Database<'_, D>,
        theorem: u32,
    ) -> Result<(), AllocError>
        requires { list_any is_assertion (statement_at database.now.statements theorem) ≡ true }
        ensures dummies_are { OnOk result
            (self.new.dummies.items ≡ dummies database.now.statements theorem) }
        ensures pairs_are { OnOk result
            (map (λ p. pair p.0 p.1) self.new.pairs.items
            ≡ dummy_pairs database.now.statements theorem) }
    {
        let hypotheses = &database.frame(theorem).hyps;
        list_dummies(database, theorem, hypotheses, &mut self.dummies)?;
        if self.dummies.is_empty() {
            self.pairs.clear();
            return Ok(());
        }
        list_used(database, theorem, hypotheses, &self.dummies, &mut self.used)?;
        list_pairs(
            database,
            theorem,
            &self.dummies,
            &self.used,
            &mut self.pairs,
        )
    }

    /// Lists the dummy variables of a statement, and the pairs with these, if it is a theorem that
    /// is told.
    fn list<D: Allocator>(
        &mut self,
        database: &Database<'_, D>,
        only: Option<&[u8]>,
        statement: u32,
    ) -> Result<(), AllocError>
        requires { statement < length database.now.statements }
        ensures dummies_are { OnOk result
            (self.new.dummies.items
            ≡ told_dummies database.now.statements (option_copied only.entry) statement) }
        ensures pairs_are { OnOk result
            (map (λ p. pair p.0 p.1) self.new.pairs.items
            ≡ told_dummy_pairs database.now.statements (option_copied only.entry) statement) }
    {
        if is_told_theorem(database, only, statement) {
            return self.list_theorem(database, statement);
        }
        self.dummies.clear();
        self.pairs.clear();
        Ok(())
    }
}

impl<A: Allocator + Copy> Dummies<A> {
    /// Those of no statement.
    pub fn none(alloc: A) -> Dummies<A>
        ensures { result ≡ dummies_before [] None 0 }
    {
        Dummies {
            variables: Lists::new(alloc),
            pairs: Lists::new(alloc),
        }
    }

    /// Finds the dummy variables of all statements of a database that are told, and the pairs with
    /// these; `only` is the typecode that is chosen, if one is. Fails only if out of memory, or if
    /// there are 2^32 of them or more.
    pub fn new<D: Allocator>(
        alloc: A,
        database: &Database<'_, D>,
        only: Option<&[u8]>,
    ) -> Result<Dummies<A>, AllocError>
        ensures { IfOk result (λ d. d
            ≡ dummies_before database.now.statements (option_copied only.entry)
            (length database.now.statements)) }
    {
        let mut dummies = Dummies {
            variables: Lists::new(alloc),
            pairs: Lists::new(alloc),
        };
        let mut scratch = Scratch {
            dummies: Vec::new(alloc),
            used: Vec::new(alloc),
            pairs: Vec::new(alloc),
        };
        for statement in 0..database.len() {
            scratch.list(database, only, statement)?;
            dummies.variables.push(&scratch.dummies)?;
            dummies.pairs.push(&scratch.pairs)?;
        }
        Ok(dummies)
    }
}

impl<A: Allocator> Dummies<A> {
    /// Returns the dummy variables of a statement, in ascending order.
    pub fn variables(&self, statement: u32) -> &[u32]
        requires { statement < length self.now.variables }
        ensures { result.now ≡ slice_index_or self.now.variables statement [] }
    {
        self.variables.get(statement as usize)
    }

    /// Returns the pairs of variables of a statement, one of which is a dummy, that an active `$d`
    /// has: the lower first, in ascending order.
    pub fn pairs(&self, statement: u32) -> &[(Sym, Sym)]
        requires { statement < length self.now.pairs }
        ensures { map (λ p. pair p.0 p.1) result.now ≡ slice_index_or self.now.pairs statement [] }
    {
        self.pairs.get(statement as usize)
    }
}

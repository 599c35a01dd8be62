//! The variables of formulas as bits of masks.

ghost use Rattle.std.specs.Prelude.{◌≡◌, ◌<◌, ◌≤◌, [], All, length, get_or, IfOk, IfSome};
ghost use Rattle.mm_machine.specs.Masks.{AreVariablesOf, IsMasked, AreMasked, owned};
ghost use Rattle.mm_machine.specs.FlagRows.{ExtendsSymbols};

use mm_database::{Database, Sym};
use mm_rule::{empty, put_number};
use std::alloc::{AllocError, Allocator};
use std::marker::Model;

/// How many variables of a proof have a bit of their own, and the index of the bit that stands for
/// all others.
pub const OTHERS: usize = 63;

/// The variables of a proof that have a bit of their own. So which variables two formulas have is
/// compared at once.
pub struct Owners<A: Allocator> {
    /// For each symbol of the database whether it is a variable.
    variables: Vec<bool, A>,
    /// The variables, in the order of their bits.
    symbols: Vec<Sym, A>,
    /// For each symbol the index of the bit that it may have.
    slots: Vec<u32, A>,
}

/// Dropped in one call: docs/PROOFS.md, "What a check costs".
impl<A: Allocator> Drop for Owners<A> {
    fn drop(self) {
        let Self {
            variables: _,
            symbols: _,
            slots: _,
        } = self;
    }
}

impl<A: Allocator> Model for Owners<A> {
    ghost use Rattle.mm_machine.specs.Masks.{Owned, owned};

    ghost Value = { Owned };

    ghost view = { λ o. owned o.variables.items o.symbols.items };
}

/// Lists for each symbol of the database whether it is a variable.
fn list_variable_flags<A: Allocator>(
    alloc: A,
    database: &Database<A>,
) -> Result<Vec<bool, A>, AllocError>
    ensures { IfOk result (λ v. AreVariablesOf database.now.statements v.items) }
{
    let mut variables = Vec::new(alloc);
    for number in 0..database.symbol_count() {
        variables.push(database.is_variable(Sym::new(number)))?;
    }
    Ok(variables)
}

impl<A: Allocator> Owners<A> {
    /// No variables with bits, for the symbols of a database.
    pub fn new(alloc: A, database: &Database<A>) -> Result<Self, AllocError>
    where
        A: Copy,
        ensures are_variables { IfOk result
            (λ o. AreVariablesOf database.now.statements o.variable_flags) }
        ensures no_owners { IfOk result (λ o. o.symbols ≡ []) }
    {
        Ok(Owners {
            variables: list_variable_flags(alloc, database)?,
            symbols: Vec::new(alloc),
            slots: vec![in alloc; 0; database.symbol_count() as usize]?,
        })
    }

    /// Takes all bits from their variables.
    pub fn clear(&mut self)
        ensures { self.new ≡ owned self.old.variable_flags [] }
    {
        empty(&mut self.symbols);
    }

    /// The variables that have a bit of their own, in the order of their bits.
    #[inline(always)]
    pub fn symbols(&self) -> &[Sym]
        ensures { result.now ≡ self.now.symbols }
    {
        &self.symbols
    }

    /// The index of the bit that a variable has.
    #[inline(always)]
    fn find(&self, symbol: Sym) -> Option<usize>
        ensures index_lt_others { IfSome result (λ n. n < OTHERS) }
        ensures index_lt_length { IfSome result (λ n. n < length self.now.symbols) }
        ensures is_owner { IfSome result (λ n. get_or self.now.symbols n 0 ≡ symbol) }
    {
        let slot = symbol.number() as usize;
        if slot >= self.slots.len() {
            return None;
        }
        let index = self.slots[slot] as usize;
        if index >= OTHERS {
            return None;
        }
        if index < self.symbols.len() && self.symbols[index] == symbol {
            Some(index)
        } else {
            None
        }
    }

    /// Gives a variable a bit, if one is left and there is memory. Returns the index of its bit.
    fn add(&mut self, symbol: Sym) -> usize
        ensures variables_stay { self.new.variable_flags ≡ self.old.variable_flags }
        ensures extends { ExtendsSymbols self.old.symbols self.new.symbols }
        ensures stay_in_range { symbol < length self.old.variable_flags
            → All (λ s. s < length self.old.variable_flags) self.old.symbols
            → All (λ s. s < length self.old.variable_flags) self.new.symbols }
        ensures index_le_others { result ≤ OTHERS }
        ensures index_lt_length { result < OTHERS → result < length self.new.symbols }
        ensures is_owner { result < OTHERS → get_or self.new.symbols result 0 ≡ symbol }
    {
        let index = self.symbols.len();
        if index >= OTHERS {
            return OTHERS;
        }
        match self.symbols.push(symbol) {
            Ok(()) => {
                put_number(&mut self.slots, symbol.number() as usize, index);
                index
            }
            Err(_) => OTHERS,
        }
    }

    /// The mask of a symbol.
    #[inline(always)]
    pub fn mask_of_symbol(&mut self, symbol: Sym) -> u64
        requires { symbol < length self.old.variable_flags }
        ensures variables_stay { self.new.variable_flags ≡ self.old.variable_flags }
        ensures extends { ExtendsSymbols self.old.symbols self.new.symbols }
        ensures stay_in_range { All (λ s. s < length self.old.variable_flags) self.old.symbols
            → All (λ s. s < length self.old.variable_flags) self.new.symbols }
        ensures is_masked { IsMasked self.old.variable_flags self.new.symbols result symbol }
    {
        if !self.variables[symbol.number() as usize] {
            return 0;
        }
        match self.find(symbol) {
            Some(index) => 1u64 << index,
            None => 1u64 << self.add(symbol),
        }
    }

    /// The mask of a formula.
    pub fn mask_of(&mut self, formula: &[Sym]) -> u64
        requires { All (λ s. s < length self.old.variable_flags) formula.now }
        ensures variables_stay { self.new.variable_flags ≡ self.old.variable_flags }
        ensures extends { ExtendsSymbols self.old.symbols self.new.symbols }
        ensures stay_in_range { All (λ s. s < length self.old.variable_flags) self.old.symbols
            → All (λ s. s < length self.old.variable_flags) self.new.symbols }
        ensures are_masked { AreMasked self.old.variable_flags self.new.symbols result formula.now }
    {
        let mut mask = 0u64;
        for symbol in formula {
            mask |= self.mask_of_symbol(*symbol);
        }
        mask
    }
}

//! Rows of flags that say which symbols are known to be disjoint.

ghost use Rattle.std.specs.Prelude.{◌≡◌, ◌<◌, ◌≤◌, ◌⊎◌, ◌∷◌, [], ℕ, length, get_or, true, IfSome};
ghost use Rattle.mm_bits.specs.Bits.{is_bit};
ghost use Rattle.mm_machine.specs.FlagRows.{flag_rows, AreColumnsOf, HasFlags, ExtendsSymbols};
ghost use Rattle.mm_machine.specs.FlagRows.{StayDisjoint, StayDisjointWith};

use mm_bits::{has_all, set};
use mm_database::Sym;
use mm_rule::{empty, put_number};
use std::alloc::Allocator;
use std::marker::Model;

/// How many symbols have a row at most, and how many flags a row has.
pub const ROW_LENGTH: usize = 4_096;

/// How many words the flags of a row take: a flag is a bit.
pub const ROW_WORDS: usize = 64;

/// A row of flags for each of some symbols. A flag says that the symbol of its row is disjoint from
/// the symbol of its column. So what is known of a symbol and of many others is asked at once.
pub struct FlagRows<A: Allocator> {
    /// The symbols that have a row and a column.
    symbols: Vec<Sym, A>,
    /// For each symbol the index at which it may be in `symbols`.
    slots: Vec<u32, A>,
    /// The rows, one after the other.
    flags: Vec<u64, A>,
}

/// Dropped in one call: docs/PROOFS.md, "What a check costs".
impl<A: Allocator> Drop for FlagRows<A> {
    fn drop(self) {
        let Self {
            symbols: _,
            slots: _,
            flags: _,
        } = self;
    }
}

impl<A: Allocator> Model for FlagRows<A> {
    ghost use Rattle.mm_machine.specs.FlagRows.{RowsOfFlags, flag_rows};

    ghost Value = { RowsOfFlags };

    ghost view = { λ r. flag_rows r.symbols.items r.flags.items };
}

impl<A: Allocator> FlagRows<A> {
    /// No rows.
    pub fn new(alloc: A) -> Self
    where
        A: Copy,
        ensures { result ≡ flag_rows [] [] }
    {
        FlagRows {
            symbols: Vec::new(alloc),
            slots: Vec::new(alloc),
            flags: Vec::new(alloc),
        }
    }

    /// Removes all rows, and frees the memory of many.
    pub fn clear(&mut self)
        ensures { self.new ≡ flag_rows [] [] }
    {
        empty(&mut self.symbols);
        empty(&mut self.flags);
    }

    /// The index of a symbol that has a row.
    fn find(&self, symbol: Sym) -> Option<usize>
        ensures index_lt_length { IfSome result (λ n. n < length self.now.symbols) }
        ensures index_lt_row_length { IfSome result (λ n. n < ROW_LENGTH) }
        ensures finds_symbol { IfSome result (λ n. get_or self.now.symbols n 0 ≡ symbol) }
    {
        let slot = symbol.number() as usize;
        if slot >= self.slots.len() {
            return None;
        }
        let index = self.slots[slot] as usize;
        if index >= ROW_LENGTH {
            return None;
        }
        if index < self.symbols.len() && self.symbols[index] == symbol {
            Some(index)
        } else {
            None
        }
    }

    /// Adds a row without flags, and returns its index; `None` if there is no room for it.
    fn add(&mut self, symbol: Sym) -> Option<usize>
        ensures stay_disjoint { StayDisjoint self.old self.new }
        ensures extends { ExtendsSymbols self.old.symbols self.new.symbols }
        ensures index_lt_length { IfSome result (λ n. n < length self.new.symbols) }
        ensures index_lt_row_length { IfSome result (λ n. n < ROW_LENGTH) }
        ensures adds_symbol { IfSome result (λ n. get_or self.new.symbols n 0 ≡ symbol) }
    {
        let index = self.symbols.len();
        if index >= ROW_LENGTH {
            return None;
        }
        add_row(
            symbol,
            index,
            &mut self.symbols,
            &mut self.slots,
            &mut self.flags,
        )
    }

    /// The index of a symbol, which gets a row if it has none; `None` if there is no room for it.
    fn find_or_add(&mut self, symbol: Sym) -> Option<usize>
        ensures stay_disjoint { StayDisjoint self.old self.new }
        ensures extends { ExtendsSymbols self.old.symbols self.new.symbols }
        ensures index_lt_length { IfSome result (λ n. n < length self.new.symbols) }
        ensures index_lt_row_length { IfSome result (λ n. n < ROW_LENGTH) }
        ensures finds_symbol { IfSome result (λ n. get_or self.new.symbols n 0 ≡ symbol) }
    {
        match self.find(symbol) {
            Some(index) => Some(index),
            None => self.add(symbol),
        }
    }

    /// Sets `columns` to the bits of the columns of symbols, and returns whether each has one.
    pub fn list_columns(&mut self, symbols: &[Sym], columns: &mut Vec<u64, A>) -> bool
        ensures stay_disjoint { StayDisjoint self.old self.new }
        ensures are_columns { result ≡ true
            → AreColumnsOf self.new.symbols columns.new.items symbols.now }
    {
        columns.clear();
        for symbol in symbols {
            let column = match self.find_or_add(*symbol) {
                None => return false,
                Some(column) => column,
            };
            if !add_column(column, columns) {
                return false;
            }
        }
        true
    }

    /// Whether a symbol's row has a flag in each of the columns.
    pub fn has_flags(&self, symbol: Sym, columns: &[u64]) -> bool
        ensures { result ≡ true → HasFlags self.now symbol columns.now }
    {
        match self.find(symbol) {
            None => false,
            Some(row) => {
                let start = row * ROW_WORDS;
                let end = start + ROW_WORDS;
                if end > self.flags.len() || columns.len() > ROW_WORDS {
                    return false;
                }
                has_all(&self.flags[start..end], columns)
            }
        }
    }

    /// Sets the flags of a symbol and others, from which it is disjoint, as far as there is room.
    pub fn insert(&mut self, symbol: Sym, others: &[Sym])
        ensures stay_disjoint { StayDisjointWith symbol others.now self.old self.new }
        ensures extends { ExtendsSymbols self.old.symbols self.new.symbols }
    {
        match self.find_or_add(symbol) {
            None => {}
            Some(row) => self.insert_in_row(row, symbol, others),
        }
    }

    /// Sets the flags of others in the row of a symbol that is disjoint from them.
    fn insert_in_row(&mut self, row: usize, _symbol: Sym, others: &[Sym])
        requires row_lt_length { row < length self.old.symbols }
        requires row_lt_row_length { row < ROW_LENGTH }
        requires is_row_of { get_or self.old.symbols row 0 ≡ _symbol }
        ensures stay_disjoint { StayDisjointWith _symbol others.now self.old self.new }
        ensures symbols_stay { self.new.symbols ≡ self.old.symbols }
    {
        for other in others {
            self.insert_flag(row, _symbol, *other);
        }
    }

    /// Sets the flag of a symbol in the row of one that is disjoint from it, if it has a column.
    fn insert_flag(&mut self, row: usize, _symbol: Sym, other: Sym)
        requires row_lt_length { row < length self.old.symbols }
        requires row_lt_row_length { row < ROW_LENGTH }
        requires is_row_of { get_or self.old.symbols row 0 ≡ _symbol }
        ensures stay_disjoint { StayDisjointWith _symbol (other ∷ []) self.old self.new }
        ensures symbols_stay { self.new.symbols ≡ self.old.symbols }
    {
        match self.find(other) {
            None => {}
            Some(column) => set_flag(&mut self.flags, row * ROW_LENGTH + column),
        }
    }
}

/// Adds a row without flags behind the others, and returns its index; `None` if memory runs out.
fn add_row<A: Allocator>(
    symbol: Sym,
    index: usize,
    symbols: &mut Vec<Sym, A>,
    slots: &mut Vec<u32, A>,
    flags: &mut Vec<u64, A>,
) -> Option<usize>
    requires index_is { index ≡ length symbols.old.items }
    requires index_lt_row_length { index < ROW_LENGTH }
    ensures stay_disjoint { StayDisjoint (flag_rows symbols.old.items flags.old.items)
        (flag_rows symbols.new.items flags.new.items) }
    ensures extends { ExtendsSymbols symbols.old.items symbols.new.items }
    ensures index_lt_length { IfSome result (λ n. n < length symbols.new.items) }
    ensures index_lt_row_length { IfSome result (λ n. n < ROW_LENGTH) }
    ensures adds_symbol { IfSome result (λ n. get_or symbols.new.items n 0 ≡ symbol) }
{
    let slot = symbol.number() as usize;
    if slot >= slots.len() && slots.resize(slot + 1, 0).is_err() {
        return None;
    }
    if flags.resize((index + 1) * ROW_WORDS, 0).is_err() {
        return None;
    }
    if symbols.push(symbol).is_err() {
        return None;
    }
    put_number(slots, slot, index);
    Some(index)
}

/// Sets a flag, if there is one at the index.
fn set_flag(flags: &mut [u64], index: usize)
    ensures { (k : ℕ) → is_bit flags.new k ≡ true → (is_bit flags.old k ≡ true) ⊎ (k ≡ index) }
{
    if index / 64 < flags.len() {
        set(flags, index);
    }
}

/// Sets the bit of a column, and returns whether there was memory for it.
fn add_column<A: Allocator>(column: usize, columns: &mut Vec<u64, A>) -> bool
    requires column_lt { column < ROW_LENGTH }
    requires length_le { length columns.old.items ≤ ROW_WORDS }
    ensures length_le { length columns.new.items ≤ ROW_WORDS }
    ensures has_column { result ≡ true → is_bit columns.new.items column ≡ true }
    ensures columns_stay { (k : ℕ) → is_bit columns.old.items k ≡ true
        → is_bit columns.new.items k ≡ true }
{
    let least = column / 64 + 1;
    if least > columns.len() && columns.resize(least, 0).is_err() {
        return false;
    }
    set(columns, column);
    true
}

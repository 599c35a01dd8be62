//! Pairs of symbols that are known to be disjoint at a theorem.

ghost use Rattle.std.specs.Prelude.{◌≡◌, ◌⊎◌, [], ℕ, List, true, IfOk};
ghost use Rattle.mm_machine.specs.FlagRows.{flag_rows, AreColumnsOf, HasFlags, ExtendsSymbols};
ghost use Rattle.mm_spec.specs.Statement.{Statement};
ghost use Rattle.mm_spec.specs.Derivation.{is_disjoint_from};
ghost use Rattle.mm_spec.specs.Citation.{context_at};
ghost use Rattle.mm_machine.specs.DisjointCache.{AreDisjointAt, HasPair, MayInsertPair};
ghost use Rattle.mm_machine.specs.DisjointCache.{known_pairs};
ghost use Rattle.mm_rule.specs.Assertions.{is_assertion_at};

use crate::flag_rows::FlagRows;
use mm_database::{Database, Sym};
use mm_rule::{pairs, put_number};
use std::alloc::{AllocError, Allocator};
use std::marker::Model;

/// How many pairs the cache has at most, and the number of slots that say where a pair is.
const PAIR_SLOTS: usize = 1_024;

/// Pairs of symbols that are disjoint at a theorem, the lower symbol first: those of its frame, and
/// those that were looked up. Those of long lists of symbols are in rows.
#[derive(Drop)]
pub struct DisjointCache<A: Allocator> {
    pairs: Vec<(Sym, Sym), A>,
    /// For each slot the index at which its pair may be in `pairs`.
    slots: Vec<u32, A>,
    /// The pairs of long lists.
    rows: FlagRows<A>,
}

impl<A: Allocator> Model for DisjointCache<A> {
    ghost use Rattle.mm_machine.specs.DisjointCache.{KnownPairs, known_pairs};

    ghost Value = { KnownPairs };

    ghost view = { λ a. known_pairs a.pairs.items a.rows };
}

/// The slot of a pair. The factor is prime to the number of slots, so pairs of one high symbol and
/// neighbouring low ones have different slots.
fn slot_of(low: Sym, high: Sym) -> usize {
    (low.number() as usize * 61 + high.number() as usize) % PAIR_SLOTS
}

impl<A: Allocator> DisjointCache<A> {
    /// No pairs.
    pub fn new(alloc: A) -> Result<Self, AllocError>
    where
        A: Copy,
        ensures { IfOk result (λ a. a ≡ known_pairs [] (flag_rows [] [])) }
    {
        Ok(DisjointCache {
            pairs: Vec::new(alloc),
            slots: vec![in alloc; 0; PAIR_SLOTS]?,
            rows: FlagRows::new(alloc),
        })
    }

    /// Whether the pair, with the lower symbol first, is in `pairs` where its slot says.
    #[inline(always)]
    fn has_pair(&self, low: Sym, high: Sym) -> bool
        ensures { result ≡ true → HasPair self.now.pairs low high }
    {
        let slot = slot_of(low, high);
        if slot >= self.slots.len() {
            return false;
        }
        let index = self.slots[slot] as usize;
        index < self.pairs.len() && self.pairs[index].0 == low && self.pairs[index].1 == high
    }

    /// Whether two symbols are known to be disjoint: in one order or the other they are a pair.
    #[inline(always)]
    pub fn has(&self, first: Sym, second: Sym) -> bool
        ensures { result ≡ true → HasPair self.now.pairs first second
            ⊎ HasPair self.now.pairs second first }
    {
        if first.number() < second.number() {
            self.has_pair(first, second)
        } else {
            self.has_pair(second, first)
        }
    }

    /// Adds a pair of disjoint symbols, the lower first, if there is room for it.
    fn insert_pair(&mut self, low: Sym, high: Sym)
        ensures inserts_pair { MayInsertPair self.old.pairs low high self.new.pairs }
        ensures rows_stay { self.new.rows ≡ self.old.rows }
    {
        let index = self.pairs.len();
        if index < PAIR_SLOTS {
            match self.pairs.push((low, high)) {
                Ok(()) => put_number(&mut self.slots, slot_of(low, high), index),
                Err(_) => {}
            }
        }
    }

    /// Adds a pair of disjoint symbols, given in either order, if there is room for it.
    pub fn insert(&mut self, first: Sym, second: Sym)
        ensures inserts_pair { MayInsertPair self.old.pairs first second self.new.pairs
            ⊎ MayInsertPair self.old.pairs second first self.new.pairs }
        ensures rows_stay { self.new.rows ≡ self.old.rows }
    {
        if first.number() < second.number() {
            self.insert_pair(first, second);
        } else {
            self.insert_pair(second, first);
        }
    }

    /// Removes all pairs, then adds those of a theorem's frame, as far as there is room. The others
    /// aren't looked at: a frame that many theorems share can have many.
    pub fn restart(&mut self, database: &Database<A>, theorem: u32)
        requires { is_assertion_at database.now.statements theorem ≡ true }
        ensures { AreDisjointAt database.now.statements theorem self.new }
    {
        self.pairs.clear();
        self.rows.clear();
        let of_frame = pairs(database, theorem);
        for pair in &of_frame[..of_frame.len().min(PAIR_SLOTS)] {
            self.insert_pair(pair.0, pair.1);
        }
    }

    /// Sets `columns` to the bits of the columns that symbols have in the rows, and returns whether
    /// each has one.
    pub fn list_columns(&mut self, symbols: &[Sym], columns: &mut Vec<u64, A>) -> bool
        ensures stay_disjoint { (db : List Statement) (t : ℕ) → AreDisjointAt db t self.old
            → AreDisjointAt db t self.new }
        ensures are_columns { result ≡ true
            → AreColumnsOf self.new.rows.symbols columns.new.items symbols.now }
    {
        self.rows.list_columns(symbols, columns)
    }

    /// Whether a symbol is known to be disjoint from those that have these columns.
    pub fn has_flags(&self, symbol: Sym, columns: &[u64]) -> bool
        ensures { result ≡ true → HasFlags self.now.rows symbol columns.now }
    {
        self.rows.has_flags(symbol, columns)
    }

    /// Adds the pairs of a symbol and others, from which it is disjoint, to the rows, as far as
    /// there is room.
    pub fn insert_in_rows(&mut self, symbol: Sym, others: &[Sym])
        ensures stay_disjoint { (db : List Statement) (t : ℕ)
            → is_disjoint_from (context_at db t) symbol others.now ≡ true
            → AreDisjointAt db t self.old → AreDisjointAt db t self.new }
        ensures extends { ExtendsSymbols self.old.rows.symbols self.new.rows.symbols }
    {
        self.rows.insert(symbol, others);
    }
}

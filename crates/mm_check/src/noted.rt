//! The assertions that were noted as cited.

ghost use Rattle.std.specs.Prelude.{◌≡◌, ◌==◌, ◌&&◌, ◌||◌, ℕ, [], length, true, IfOk, OnOk};
ghost use Rattle.std.specs.List.Sorted.{IsStrictlyIncreasing};
ghost use Rattle.mm_spec.specs.Derivation.{is_member};
ghost use Rattle.mm_steps.specs.TheoremSteps.{as_step};
ghost use Rattle.mm_rule.specs.Assertions.{is_assertion_at};
ghost use Rattle.mm_check.specs.Contract.{IsLabelBelow, is_labelled_step};

use mm_database::Database;
use mm_rule::{empty, is_assertion, put_number};
use mm_steps::Step;
use std::alloc::{AllocError, Allocator};
use std::marker::Model;

/// How many slots at most say where assertions are noted. They take 64 kB, and so stay in the
/// processor's caches, where one for each statement of a large database wouldn't. The slot of an
/// assertion is the number of its statement modulo this. Where two assertions of a proof have one
/// slot, they may be noted again and again.
const NOTED_SLOTS: usize = 16_384;

/// The assertions that were noted as cited, by the numbers of their statements. It is kept from
/// proof to proof so that its memory is reused.
#[derive(Drop)]
pub struct NotedAssertions<A: Allocator> {
    /// The statement numbers of the assertions, in the order in which they were noted.
    numbers: Vec<u32, A>,
    /// For each slot the index at which its assertion may be in `numbers`.
    slots: Vec<u32, A>,
}

impl<A: Allocator> Model for NotedAssertions<A> {
    ghost use Rattle.std.specs.Prelude.{ℕ, List};

    ghost Value = { List ℕ };

    ghost view = { λ n. n.numbers.items };
}

impl<A: Allocator> NotedAssertions<A> {
    /// No assertions. `count` is the number of statements of the database, for which no more slots
    /// are needed.
    pub fn new(alloc: A, count: usize) -> Result<Self, AllocError>
    where
        A: Copy,
        ensures { IfOk result (λ n. n ≡ []) }
    {
        Ok(NotedAssertions {
            numbers: Vec::new(alloc),
            slots: vec![in alloc; 0; count.min(NOTED_SLOTS)]?,
        })
    }

    /// Removes all, and keeps the memory, except that of a long list.
    pub fn clear(&mut self)
        ensures { self.new ≡ [] }
    {
        empty(&mut self.numbers);
    }

    /// Whether `statement` is in `numbers` at the index that its slot gives. If it isn't, it may
    /// still be in `numbers`.
    fn has(&self, statement: u32) -> bool
        ensures { result ≡ true → is_member self.now statement ≡ true }
    {
        let slot = statement as usize % NOTED_SLOTS;
        if slot >= self.slots.len() {
            return false;
        }
        let number_index = self.slots[slot] as usize;
        number_index < self.numbers.len() && self.numbers[number_index] == statement
    }

    /// Adds a statement, unless it is in `numbers` at the index that its slot gives.
    #[inline(always)]
    pub fn add(&mut self, statement: u32) -> Result<(), AllocError>
        ensures { OnOk result
            ((a : ℕ) → is_member self.new a ≡ (is_member self.old a || (a == statement))) }
    {
        if !self.has(statement) {
            let slot = statement as usize % NOTED_SLOTS;
            put_number(&mut self.slots, slot, self.numbers.len());
            self.numbers.push(statement)?;
        }
        Ok(())
    }

    /// Adds the assertion that a step applies, if it applies one.
    pub fn add_applied(&mut self, database: &Database<A>, step: Step) -> Result<(), AllocError>
        requires label_is_below { IsLabelBelow (as_step step) (length database.now.statements) }
        ensures { OnOk result
            ((a : ℕ)
            → is_member self.new a
            ≡ (is_member self.old a
            || (is_labelled_step (as_step step) a && is_assertion_at database.now.statements a))) }
    {
        if let Step::Label(statement) = step {
            if is_assertion(database, statement) {
                self.add(statement)?;
            }
        }
        Ok(())
    }

    /// The noted assertions in ascending order, each once.
    pub fn sorted(&mut self, alloc: A) -> Result<Vec<u32, A>, AllocError>
        ensures cites_rise { IfOk result (λ cites. IsStrictlyIncreasing cites.items) }
        ensures members_stay { IfOk result
            (λ cites. (a : ℕ) → is_member cites.items a ≡ is_member self.old a) }
    {
        self.numbers.sort_unstable();
        self.numbers.dedup();
        let cites = self.numbers.to_vec(alloc)?;
        Ok(cites)
    }
}

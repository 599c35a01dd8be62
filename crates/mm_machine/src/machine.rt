//! The entries of a proof in progress, and the steps on them.

ghost use Rattle.std.specs.Prelude.{◌≡◌, ◌<◌, ◌≤◌, ◌++◌, ◌∷◌, [], All, length, get_or, true, false};
ghost use Rattle.std.specs.Prelude.{IfOk, OnOk, ◌==◌};
ghost use Rattle.std.specs.List.{Contains};
ghost use Rattle.mm_spec.specs.Limits.{formula_limit};
ghost use Rattle.mm_spec.specs.Frame.{symbol_names};
ghost use Rattle.mm_nodes.specs.Strings.{first_node};
ghost use Rattle.mm_rule.specs.Rule.{IsCompiled};
ghost use Rattle.mm_machine.specs.DisjointCache.{AreDisjointAt};
ghost use Rattle.mm_machine.specs.State.{machine_state, with_mark, Repeats, IsRising};
ghost use Rattle.mm_machine.specs.Applied.{AnswersStep};
ghost use Rattle.mm_machine.specs.Masks.{AreVariablesOf};

use crate::disjoint_cache::DisjointCache;
use crate::distinct::DistinctVariables;
use crate::entry::Entry;
use crate::entry_match::has_symbols;
use crate::entry_stack::{for_itself, for_top, replace_by_pair, replace_by_symbols};
use crate::owners::Owners;
use crate::reason::{Reason, StepRefused};
use crate::rule_step::apply_rule;
use crate::symbol_lists::{SymbolLists, list_symbols};
use mm_database::{Database, Sym};
use mm_nodes::{Body, Nodes};
use mm_rule::{Rule, empty, formula, put_number};
use mm_spec::FORMULA_LIMIT;
use std::alloc::{AllocError, Allocator};
use std::marker::Model;

/// How many slots say where marks are; they take 16 kB. The slot of a mark is the index of its step
/// modulo this.
const MARK_SLOTS: usize = 4_096;

/// The entries, and the formulas of the marked steps so far. A node stays as long as a marked step,
/// the stack or the step that is performed needs it, and all nodes before it stay as well.
pub struct Machine<A: Allocator> {
    nodes: Nodes<A>,
    /// The entries, from bottom to top.
    stack: Vec<Entry, A>,
    /// The indices of the marked steps so far.
    marks: Vec<usize, A>,
    /// For each of these steps the entry with which it ended.
    marked: Vec<Entry, A>,
    /// How many nodes the marked entries need.
    floor: usize,
    /// For each slot the index at which its mark may be in `marks`.
    slots: Vec<u32, A>,
    /// Where the bodies of a formula are written.
    buffer: Vec<Body, A>,
    /// Where formulas are listed.
    lists: SymbolLists<A>,
    /// The variables of the premises of a step, if their formulas are long.
    distinct: DistinctVariables<A>,
    /// The variables of which the masks of the entries speak.
    owners: Owners<A>,
}

/// Dropped in one call: docs/PROOFS.md, "What a check costs".
impl<A: Allocator> Drop for Machine<A> {
    fn drop(self) {
        let Self {
            nodes: _,
            stack: _,
            marks: _,
            marked: _,
            floor: _,
            slots: _,
            buffer: _,
            lists: _,
            distinct: _,
            owners: _,
        } = self;
    }
}

impl<A: Allocator> Model for Machine<A> {
    ghost use Rattle.mm_machine.specs.Entries.{entry_formulas};
    ghost use Rattle.mm_machine.specs.State.{MachineState, machine_state, IsMaskedMachine};

    ghost Value = { MachineState };

    ghost view = { λ m. machine_state (entry_formulas m.nodes m.stack.items) m.marks.items
        (entry_formulas m.nodes m.marked.items) m.owners.variable_flags };

    ghost invariant = { λ m. IsMaskedMachine m.nodes m.stack.items m.marks.items m.marked.items
        m.floor m.owners };
}

/// The index of `mark` among `marks`, which are in ascending order: where the slots say, or
/// otherwise by binary search.
fn index_of_mark(marks: &[usize], mark: usize, slots: &[u32]) -> usize
    requires marks_rise { IsRising marks.now }
    requires has_mark { Contains marks.now mark }
    ensures index_lt_length { result < length marks.now }
    ensures finds_mark { get_or marks.now result 0 ≡ mark }
{
    let slot = mark % MARK_SLOTS;
    if slot < slots.len() {
        let index = slots[slot] as usize;
        if index < marks.len() && marks[index] == mark {
            return index;
        }
    }
    match marks.binary_search(&mark) {
        Ok(found) => found,
        Err(gap) => gap,
    }
}

impl<A: Allocator> Machine<A> {
    /// A machine without entries, for the symbols of a database.
    pub fn new(alloc: A, database: &Database<A>) -> Result<Self, AllocError>
    where
        A: Copy,
        ensures is_empty { IfOk result (λ m. m ≡ machine_state [] [] [] m.variable_flags) }
        ensures are_variables { IfOk result
            (λ m. AreVariablesOf database.now.statements m.variable_flags) }
    {
        let slots = vec![in alloc; 0; MARK_SLOTS]?;
        Ok(Machine {
            nodes: Nodes::new(alloc),
            stack: Vec::new(alloc),
            marks: Vec::new(alloc),
            marked: Vec::new(alloc),
            floor: 0,
            slots,
            buffer: Vec::new(alloc),
            lists: SymbolLists::new(alloc),
            distinct: DistinctVariables::new(alloc, database.symbol_count() as usize)?,
            owners: Owners::new(alloc, database)?,
        })
    }

    /// Removes all entries and marks, and keeps the memory of the lists, except that of long ones.
    pub fn restart(&mut self)
        ensures { self.new ≡ machine_state [] [] [] self.old.variable_flags }
    {
        self.nodes.clear();
        empty(&mut self.stack);
        empty(&mut self.marks);
        empty(&mut self.marked);
        self.floor = 0;
        empty(&mut self.buffer);
        self.lists.empty();
        self.distinct.empty();
        self.owners.clear();
    }

    /// Pushes a formula, which may have as many symbols as the limit.
    #[inline(always)]
    pub fn push(&mut self, formula: &[Sym]) -> Result<(), AllocError>
        requires in_range { All (λ s. s < length self.old.variable_flags) formula.now }
        requires length_le_limit { length formula.now ≤ formula_limit }
        ensures pushes_formula { OnOk result
            (self.new
            ≡ machine_state (self.old.stack ++ formula.now ∷ []) self.old.marks self.old.formulas
            self.old.variable_flags) }
        ensures variables_stay { self.new.variable_flags ≡ self.old.variable_flags }
    {
        if formula.len() == 2 {
            let both = self.owners.mask_of(formula);
            let below = self.stack.len();
            let typecode = Body::symbol(formula[0].number());
            let symbol = Body::symbol(formula[1].number());
            return replace_by_pair(&self.nodes, &mut self.stack, below, typecode, symbol, both);
        }
        self.push_new(formula)
    }

    /// Makes a formula and pushes it.
    #[inline(always)]
    fn push_new(&mut self, formula: &[Sym]) -> Result<(), AllocError>
        requires in_range { All (λ s. s < length self.old.variable_flags) formula.now }
        requires length_le_limit { length formula.now ≤ formula_limit }
        ensures pushes_formula { OnOk result
            (self.new
            ≡ machine_state (self.old.stack ++ formula.now ∷ []) self.old.marks self.old.formulas
            self.old.variable_flags) }
        ensures variables_stay { self.new.variable_flags ≡ self.old.variable_flags }
    {
        let mask = self.owners.mask_of(formula);
        let below = self.stack.len();
        list_symbols(formula, &mut self.lists.bodies)?;
        let keep = self.nodes.count();
        let symbols = &self.lists.bodies;
        replace_by_symbols(&mut self.nodes, &mut self.stack, below, keep, symbols, mask)
    }

    /// Pushes the formula of the earlier, marked step again.
    pub fn repeat(&mut self, step: u32) -> Result<(), AllocError>
        requires { Contains self.old.marks step }
        ensures repeats_step { OnOk result (Repeats step self.old self.new) }
        ensures variables_stay { self.new.variable_flags ≡ self.old.variable_flags }
    {
        let index = index_of_mark(&self.marks, step as usize, &self.slots);
        self.push_marked(index)
    }

    /// Pushes the formula of the marked step with this index among them again.
    #[inline(always)]
    pub fn push_marked(&mut self, index: usize) -> Result<(), AllocError>
        requires { index < length self.old.marks }
        ensures pushes_formula { OnOk result
            (self.new
            ≡ machine_state (self.old.stack ++ get_or self.old.formulas index [] ∷ [])
            self.old.marks self.old.formulas self.old.variable_flags) }
        ensures formula_is_there { index < length self.old.formulas }
        ensures variables_stay { self.new.variable_flags ≡ self.old.variable_flags }
    {
        let entry = for_top(&self.nodes, self.marked[index]);
        self.stack.push(entry)?;
        Ok(())
    }

    /// How many steps are marked.
    pub fn mark_count(&self) -> usize
        ensures count_is { result ≡ length self.now.marks }
    {
        self.marks.len()
    }

    /// Adds the top formula, with which this step ended, to those of the marked steps.
    #[inline(always)]
    pub fn mark(&mut self, step: usize) -> Result<(), AllocError>
        requires has_entry { 0 < length self.old.stack }
        requires marks_lt_step { All (λ j. j < step) self.old.marks }
        ensures marks_step { OnOk result (self.new ≡ with_mark true step self.old) }
        ensures variables_stay { self.new.variable_flags ≡ self.old.variable_flags }
    {
        let top = self.stack[self.stack.len() - 1];
        let entry = for_itself(&self.nodes, top);
        self.floor = self.floor.max(entry.needed as usize);
        self.marked.push(entry)?;
        put_number(&mut self.slots, step % MARK_SLOTS, self.marks.len());
        self.marks.push(step)?;
        Ok(())
    }

    /// Performs the step of an assertion.
    #[inline(always)]
    pub fn apply(
        &mut self,
        database: &Database<A>,
        theorem: u32,
        rule: &Rule,
        cache: &mut DisjointCache<A>,
    ) -> Result<(), StepRefused>
        requires theorem_lt_length { theorem < length database.now.statements }
        requires is_compiled { IsCompiled database.now.statements rule.now }
        requires are_variables { AreVariablesOf database.now.statements self.old.variable_flags }
        requires cached_are_disjoint { AreDisjointAt database.now.statements theorem cache.old }
        ensures cached_are_disjoint { AreDisjointAt database.now.statements theorem cache.new }
        ensures is_applied { AnswersStep database.now.statements theorem rule.now.assertion self.old
            self.new
            result }
    {
        if rule.hypotheses().is_empty() {
            self.apply_alone(database, theorem, rule)
        } else {
            self.apply_to_premises(database, theorem, rule, cache)
        }
    }

    /// Performs the step of an assertion without hypotheses: it only pushes the formula.
    #[inline(always)]
    fn apply_alone(
        &mut self,
        database: &Database<A>,
        _theorem: u32,
        rule: &Rule,
    ) -> Result<(), StepRefused>
        requires is_compiled { IsCompiled database.now.statements rule.now }
        requires no_hypotheses { length rule.now.hypotheses ≡ 0 }
        requires are_variables { AreVariablesOf database.now.statements self.old.variable_flags }
        ensures is_applied { AnswersStep database.now.statements _theorem
            rule.now.assertion self.old self.new result }
    {
        let symbols = formula(database, rule.assertion());
        if symbols.len() > FORMULA_LIMIT {
            return Err(StepRefused::Fault(Reason::TooLong));
        }
        match self.push(symbols) {
            Ok(()) => Ok(()),
            Err(_) => Err(StepRefused::Memory),
        }
    }

    /// Performs the step of an assertion on the entries that are its premises.
    #[inline(always)]
    fn apply_to_premises(
        &mut self,
        database: &Database<A>,
        theorem: u32,
        rule: &Rule,
        cache: &mut DisjointCache<A>,
    ) -> Result<(), StepRefused>
        requires theorem_lt_length { theorem < length database.now.statements }
        requires is_compiled { IsCompiled database.now.statements rule.now }
        requires are_variables { AreVariablesOf database.now.statements self.old.variable_flags }
        requires cached_are_disjoint { AreDisjointAt database.now.statements theorem cache.old }
        ensures cached_are_disjoint { AreDisjointAt database.now.statements theorem cache.new }
        ensures is_applied { AnswersStep database.now.statements theorem rule.now.assertion self.old
            self.new
            result }
    {
        apply_rule(
            database,
            theorem,
            rule,
            self.floor,
            &mut self.nodes,
            &mut self.stack,
            &mut self.buffer,
            &mut self.lists,
            &mut self.distinct,
            &self.owners,
            cache,
        )
    }

    /// Whether there is exactly one entry.
    pub fn has_one_entry(&self) -> bool
        ensures { result ≡ (length self.now.stack == 1) }
    {
        self.stack.len() == 1
    }

    /// Whether the only entry has this formula, which may have as many symbols as the limit.
    pub fn is_only(&mut self, formula: &[Sym]) -> Result<bool, AllocError>
        requires one_entry { length self.old.stack ≡ 1 }
        requires in_range { All (λ s. s < length self.old.variable_flags) formula.now }
        ensures is_unchanged { self.new ≡ self.old }
        ensures is_only_entry { IfOk result (λ r. r ≡ true → self.old.stack ≡ formula.now ∷ []) }
        ensures is_other { IfOk result
            (λ r. r ≡ false → self.old.stack ≡ formula.now ∷ [] → ⊥) }
    {
        let entry = self.stack[0];
        if formula.len() > FORMULA_LIMIT {
            return Ok(false);
        }
        list_symbols(formula, &mut self.lists.bodies)?;
        has_symbols(&mut self.nodes, &entry, &self.lists.bodies)
    }
}

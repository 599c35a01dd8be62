//! The rules of the assertions of a database.

ghost use Rattle.std.specs.Prelude.{◌≡◌, ◌<◌, ◌+◌, ◌^◌, ◌++◌, [], List, length, get_or, min, true};
ghost use Rattle.std.specs.Prelude.{◌≤◌, OnOk, IfOk, IfSome};
ghost use Rattle.mm_spec.specs.Statement.{Statement};
ghost use Rattle.mm_spec.specs.Frame.{symbol_names};
ghost use Rattle.mm_spec.specs.Laws.Complete.{AreComplete};
ghost use Rattle.mm_rule.specs.Rule.{IsCompiled};
ghost use Rattle.mm_rule.specs.Assertions.{is_assertion_at};
ghost use Rattle.mm_rules.specs.Rules.{AreRules, IsRuleIndex, IsIndexRange, rule_lists, no_ranges};
ghost use Rattle.mm_rules.specs.Rules.{elements_in, rule_size, lists_size, most_usize};

use crate::compile::RuleCompiler;
use mm_database::Database;
use mm_rule::{
    Hypothesis, PackedPart, Rule, is_assertion, is_essential_hypothesis, mandatory_hypotheses,
    pairs, put_number,
};
use std::alloc::{AllocError, Allocator};
use std::marker::Model;

/// The elements of rules are their hypotheses, pairs and symbols. As many of them as this may be
/// held whatever the length of the text.
const MIN_LIMIT: usize = 8_388_608;

/// In a long text, one element may be held for so many bytes. Databases as they are written have
/// one for some 16 bytes, so all of theirs are held.
const BYTES_FOR_ONE_ELEMENT: usize = 8;

/// The greatest end of a range. A rule whose ranges would end after it isn't held, so 32 bits are
/// enough for an index.
const MAX_INDEX: usize = 4_294_967_295;

/// A range of a list: from index `start` up to, but not including, index `end`.
#[derive(Clone, Copy, Drop)]
pub struct IndexRange {
    pub start: u32,
    pub end: u32,
}

/// The ranges of a rule in the lists of all rules.
#[derive(Clone, Copy, Drop)]
pub struct RuleRanges {
    /// The assertion whose rule this is.
    pub assertion: u32,
    pub hypotheses: IndexRange,
    pub pairs: IndexRange,
    pub parts: IndexRange,
    pub formula: IndexRange,
}

/// The rules of the assertions of a database, as far as they are held. The workers share them.
pub struct Rules<A: Allocator> {
    /// The ranges of each rule in the lists below, which all rules share.
    ranges: Vec<RuleRanges, A>,
    hypotheses: Vec<Hypothesis, A>,
    pairs: Vec<(u32, u32), A>,
    /// The symbols of hypotheses and of formulas.
    parts: Vec<PackedPart, A>,
    /// For each statement an index in `ranges` at which its rule may be; `find` verifies it.
    rule_indices: Vec<u32, A>,
}

/// Dropped in one call: docs/PROOFS.md, "What a check costs".
impl<A: Allocator> Drop for Rules<A> {
    fn drop(self) {
        let Self {
            ranges: _,
            hypotheses: _,
            pairs: _,
            parts: _,
            rule_indices: _,
        } = self;
    }
}

impl<A: Allocator> Model for Rules<A> {
    ghost use Rattle.mm_rules.specs.Rules.{RuleLists, rule_lists};

    ghost Value = { RuleLists };

    ghost view = { λ r. rule_lists r.ranges.items r.hypotheses.items r.pairs.items r.parts.items };
}

/// How many elements may be held: once there are so many, no more rules are held. So frames that
/// are much longer than the text aren't all held.
pub(crate) fn element_limit<A: Allocator>(database: &Database<A>) -> usize {
    MIN_LIMIT.max(database.text().len() / BYTES_FOR_ONE_ELEMENT)
}

/// About how long the lists of all rules will be, so that they needn't be moved as they grow.
#[derive(Drop)]
struct Lengths {
    rules: usize,
    hypotheses: usize,
    pairs: usize,
    parts: usize,
}

impl Lengths {
    /// No rules.
    fn none() -> Self {
        Lengths {
            rules: 0,
            hypotheses: 0,
            pairs: 0,
            parts: 0,
        }
    }

    /// The lengths of the lists of the rules of the assertions from statement `from` up to, but not
    /// including, `to`, without those that come after the limit.
    fn between<A: Allocator>(database: &Database<A>, from: u32, to: u32, limit: usize) -> Self
        requires { to ≤ length database.now.statements }
    {
        let mut lengths = Self::none();
        for statement in from..to {
            if is_assertion(database, statement) && lengths.element_count() < limit {
                lengths.add(database, statement);
            }
        }
        lengths
    }

    /// The lengths of the lists of stretches that are put together.
    fn of_stretches<A: Allocator>(stretches: &[Result<Rules<A>, AllocError>]) -> Self {
        let mut lengths = Self::none();
        for stretch in stretches {
            if let Ok(rules) = stretch {
                lengths.rules = lengths.rules.saturating_add(rules.ranges.len());
                lengths.hypotheses = lengths.hypotheses.saturating_add(rules.hypotheses.len());
                lengths.pairs = lengths.pairs.saturating_add(rules.pairs.len());
                lengths.parts = lengths.parts.saturating_add(rules.parts.len());
            }
        }
        lengths
    }

    /// How many elements there are.
    fn element_count(&self) -> usize {
        self.hypotheses
            .saturating_add(self.pairs)
            .saturating_add(self.parts)
    }

    /// Adds the lengths of the rule of an assertion. Each `$f` counts as the first of its variable.
    fn add<A: Allocator>(&mut self, database: &Database<A>, assertion: u32)
        requires { is_assertion_at database.now.statements assertion ≡ true }
    {
        let mandatory = mandatory_hypotheses(database, assertion);
        self.rules = self.rules.saturating_add(1);
        self.hypotheses = self.hypotheses.saturating_add(mandatory.len());
        self.pairs = self.pairs.saturating_add(pairs(database, assertion).len());
        self.parts = self.parts.saturating_add(database.formula(assertion).len());
        for hypothesis in mandatory {
            if is_essential_hypothesis(database, *hypothesis) {
                self.parts = self
                    .parts
                    .saturating_add(database.formula(*hypothesis).len());
            }
        }
    }
}

/// How many elements a rule has.
fn elements_of(rule: &Rule) -> usize
    ensures { result ≡ min (rule_size rule.now) most_usize }
{
    let hypotheses_and_pairs = rule.hypotheses.len().saturating_add(rule.pairs.len());
    hypotheses_and_pairs
        .saturating_add(rule.parts.len())
        .saturating_add(rule.formula.len())
}

/// The elements of a range.
#[inline(always)]
fn elements<T>(list: &[T], range: IndexRange) -> &[T]
    requires { IsIndexRange (length list.now) range }
    ensures { result.now ≡ elements_in list.now range }
{
    &list[range.start as usize..range.end as usize]
}

/// Appends elements to a list and returns their range.
fn append_range<T: Copy, A: Allocator>(
    list: &mut Vec<T, A>,
    elements: &[T],
) -> Result<IndexRange, AllocError>
    requires { length list.old.items + length elements.now < 2 ^ 32 }
    ensures appends_elements { OnOk result (list.new.items ≡ list.old.items ++ elements.now) }
    ensures start_is { IfOk result (λ s. s.start ≡ length list.old.items) }
    ensures end_is { IfOk result (λ s. s.end ≡ length list.new.items) }
{
    let start = list.len();
    list.extend_from_slice(elements)?;
    Ok(IndexRange {
        start: start as u32,
        end: list.len() as u32,
    })
}

impl<A: Allocator> Rules<A> {
    /// No rules.
    pub fn none(alloc: A) -> Self
    where
        A: Copy,
        ensures { result ≡ rule_lists [] [] [] [] }
    {
        Rules {
            ranges: Vec::new(alloc),
            hypotheses: Vec::new(alloc),
            pairs: Vec::new(alloc),
            parts: Vec::new(alloc),
            rule_indices: Vec::new(alloc),
        }
    }

    /// No rules, in lists with such capacities. `statement_count` is how many statements there are
    /// whose rules are to be found.
    fn with_capacity(
        alloc: A,
        lengths: &Lengths,
        statement_count: usize,
    ) -> Result<Self, AllocError>
    where
        A: Copy,
        ensures { IfOk result (λ r. r ≡ rule_lists [] [] [] []) }
    {
        Ok(Rules {
            ranges: Vec::with_capacity(alloc, lengths.rules)?,
            hypotheses: Vec::with_capacity(alloc, lengths.hypotheses)?,
            pairs: Vec::with_capacity(alloc, lengths.pairs)?,
            parts: Vec::with_capacity(alloc, lengths.parts)?,
            rule_indices: vec![in alloc; 0; statement_count]?,
        })
    }

    /// No rules of a database, in lists with capacity for the rules of the stretches.
    pub(crate) fn with_room_for(
        alloc: A,
        database: &Database<A>,
        stretches: &[Result<Rules<A>, AllocError>],
    ) -> Result<Self, AllocError>
    where
        A: Copy,
        ensures { IfOk result (AreRules database.now.statements) }
    {
        let lengths = Lengths::of_stretches(stretches);
        Self::with_capacity(alloc, &lengths, database.len() as usize)
    }

    /// The rules of the assertions of a database. Fails only if out of memory.
    pub fn new(alloc: A, database: &Database<A>) -> Result<Self, AllocError>
    where
        A: Copy,
        ensures { IfOk result (λ r. AreRules database.now.statements r) }
    {
        let count = database.len();
        let limit = element_limit(database);
        let lengths = Lengths::between(database, 0, count, limit);
        let mut rules = Self::with_capacity(alloc, &lengths, count as usize)?;
        rules.hold_between(alloc, database, 0, count, limit)?;
        Ok(rules)
    }

    /// The rules of a stretch of a database's statements, from `from` up to, but not including,
    /// `to`. They can't be found by their assertions yet.
    pub(crate) fn of_stretch(
        alloc: A,
        database: &Database<A>,
        from: u32,
        to: u32,
        limit: usize,
    ) -> Result<Self, AllocError>
    where
        A: Copy,
        requires are_complete { AreComplete database.now.statements }
        requires to_le_length { to ≤ length database.now.statements }
        ensures { IfOk result (λ r. AreRules database.now.statements r) }
    {
        let lengths = Lengths::between(database, from, to, limit);
        let mut rules = Self::with_capacity(alloc, &lengths, 0)?;
        rules.hold_between(alloc, database, from, to, limit)?;
        Ok(rules)
    }

    /// Compiles and holds the rules from statement `from` up to, but not including, `to`, as far as
    /// the limit permits.
    fn hold_between(
        &mut self,
        alloc: A,
        database: &Database<A>,
        from: u32,
        to: u32,
        limit: usize,
    ) -> Result<(), AllocError>
    where
        A: Copy,
        requires are_complete { AreComplete database.now.statements }
        requires to_le_length { to ≤ length database.now.statements }
        requires are_rules { AreRules database.now.statements self.old }
        ensures are_rules { OnOk result (AreRules database.now.statements self.new) }
    {
        let mut compiler = RuleCompiler::new(alloc, database)?;
        for statement in from..to {
            self.hold_rule(database, statement, limit, &mut compiler)?;
        }
        Ok(())
    }

    /// Adds rules of the same database. Those for whose indices 32 bits aren't enough are left out.
    pub(crate) fn append(
        &mut self,
        database: &Database<A>,
        more: Rules<A>,
    ) -> Result<(), AllocError>
        requires are_rules { AreRules database.now.statements self.old }
        requires more_are_rules { AreRules database.now.statements more }
        ensures are_rules { OnOk result (AreRules database.now.statements self.new) }
    {
        for rule_index in 0..more.ranges.len() {
            let rule = more.rule(database, rule_index);
            if self.fits(&rule) {
                self.add(rule)?;
            }
        }
        Ok(())
    }

    /// Compiles the rule of a statement and holds it, if this is an assertion and the limit
    /// permits.
    fn hold_rule(
        &mut self,
        database: &Database<A>,
        statement: u32,
        limit: usize,
        compiler: &mut RuleCompiler<A>,
    ) -> Result<(), AllocError>
        requires statement_lt_length { statement < length database.now.statements }
        requires are_complete { AreComplete database.now.statements }
        requires symbol_count_is { compiler.old.symbol_count
            ≡ length (symbol_names database.now.statements) }
        requires are_rules { AreRules database.now.statements self.old }
        ensures symbol_count_stays { compiler.new.symbol_count ≡ compiler.old.symbol_count }
        ensures are_rules { OnOk result (AreRules database.now.statements self.new) }
    {
        if !is_assertion(database, statement) {
            return Ok(());
        }
        if self.element_count() >= limit {
            return Ok(());
        }
        compiler.compile(database, statement)?;
        let rule = compiler.rule();
        if !self.fits(&rule) {
            return Ok(());
        }
        self.add(rule)
    }

    /// How many elements are held.
    fn element_count(&self) -> usize
        ensures { result ≡ min (lists_size self.now) most_usize }
    {
        let hypotheses_and_pairs = self.hypotheses.len().saturating_add(self.pairs.len());
        hypotheses_and_pairs.saturating_add(self.parts.len())
    }

    /// Whether 32 bits are enough for an index once one more rule is held.
    fn fits(&self, rule: &Rule) -> bool
        ensures { result ≡ true → lists_size self.now + rule_size rule.now < 2 ^ 32 }
    {
        self.element_count().saturating_add(elements_of(rule)) <= MAX_INDEX
    }

    /// Adds a rule. If the rules are those of a database, and this is one of them, they still are.
    fn add(&mut self, rule: Rule) -> Result<(), AllocError>
        requires { lists_size self.old + rule_size rule < 2 ^ 32 }
        ensures { OnOk result
            ((db : List Statement)
            → AreRules db self.old → IsCompiled db rule.entry → AreRules db self.new) }
    {
        let rule_index = self.ranges.len();
        let hypotheses = append_range(&mut self.hypotheses, rule.hypotheses)?;
        let pairs = append_range(&mut self.pairs, rule.pairs)?;
        let parts = append_range(&mut self.parts, rule.parts)?;
        let formula = append_range(&mut self.parts, rule.formula)?;
        self.ranges.push(RuleRanges {
            assertion: rule.assertion,
            hypotheses,
            pairs,
            parts,
            formula,
        })?;
        put_number(&mut self.rule_indices, rule.assertion as usize, rule_index);
        Ok(())
    }

    /// The index of an assertion's rule in `ranges`; `None` if the rule isn't held.
    pub fn find(&self, assertion: u32) -> Option<usize>
        ensures { IfSome result (λ rule_index. IsRuleIndex self.now rule_index assertion) }
    {
        let index = assertion as usize;
        if index >= self.rule_indices.len() {
            return None;
        }
        let rule_index = self.rule_indices[index] as usize;
        if rule_index < self.ranges.len() && self.ranges[rule_index].assertion == assertion {
            Some(rule_index)
        } else {
            None
        }
    }

    /// The rule with this index.
    pub fn rule(&self, _database: &Database<A>, rule_index: usize) -> Rule<'_>
        requires are_rules { AreRules _database.now.statements self.now }
        requires index_lt_count { rule_index < length self.now.ranges }
        ensures assertion_is { result.assertion
            ≡ (get_or self.now.ranges rule_index no_ranges).assertion }
        ensures is_compiled { IsCompiled _database.now.statements result }
    {
        let ranges = self.ranges[rule_index];
        Rule {
            assertion: ranges.assertion,
            hypotheses: elements(&self.hypotheses, ranges.hypotheses),
            pairs: elements(&self.pairs, ranges.pairs),
            parts: elements(&self.parts, ranges.parts),
            formula: elements(&self.parts, ranges.formula),
        }
    }
}

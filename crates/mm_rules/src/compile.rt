//! Compiling the rule of an assertion.

ghost use Rattle.std.specs.Prelude.{◌≡◌, ◌<◌, ◌^◌, ◌++◌, ◌∷◌, [], ℕ, All, length, map};
ghost use Rattle.std.specs.Prelude.{nat_eq, get_or, slice_set, true, false, IfSome, IfNone, OnOk};
ghost use Rattle.std.specs.Prelude.{IfOk};
ghost use Rattle.mm_spec.specs.Frame.{symbol_names, formula_at, frame_at};
ghost use Rattle.mm_spec.specs.Laws.Complete.{binds, IsComplete, variables_context};
ghost use Rattle.mm_rule.specs.Assertions.{is_assertion_at};
ghost use Rattle.mm_rule.specs.Rule.{IsCompiled};
ghost use Rattle.mm_rule.specs.declared.rule.RulePart.TheVariants.{Constant, Variable};
ghost use Rattle.mm_rules.specs.Rules.{AreCovered, AreFloatingIndices, AreCompiled, indexed_part};
ghost use Rattle.mm_rules.specs.Rules.{indexed_parts, indexed_pairs, AreShortIndices};

use mm_database::{Database, Sym};
use mm_rule::{Hypothesis, PackedPart, Rule, empty, mandatory_hypotheses, pairs};
use std::alloc::{AllocError, Allocator};
use std::marker::Model;

/// The variable of a hypothesis that has the form of a `$f`: a constant and a variable. `None` for
/// any other hypothesis.
fn bound_variable<A: Allocator>(database: &Database<A>, hypothesis: u32) -> Option<Sym>
    requires { hypothesis < length database.now.statements }
    ensures binds_variable { IfSome result
        (λ y. (y < length (symbol_names database.now.statements))
        × ((x : ℕ)
        → binds (variables_context database.now.statements) x
        (formula_at database.now.statements hypothesis)
        ≡ nat_eq x y)) }
    ensures binds_nothing { IfNone result
        ((x : ℕ)
        → binds (variables_context database.now.statements) x
        (formula_at database.now.statements hypothesis) ≡ false) }
{
    let formula = database.formula(hypothesis);
    if formula.len() == 2 && !database.is_variable(formula[0]) && database.is_variable(formula[1]) {
        Some(formula[1])
    } else {
        None
    }
}

/// Sets the index of a variable's `$f`.
fn set_index(indices: &mut [u32], variable: Sym, index: u32)
    requires { variable < length indices.old }
    ensures { indices.new ≡ slice_set indices.old variable index }
{
    indices[variable.number() as usize] = index;
}

/// The index of a variable's `$f`.
fn index_of_floating(indices: &[u32], variable: Sym) -> u32
    requires { variable < length indices.now }
    ensures { result ≡ get_or indices.now variable 0 }
{
    indices[variable.number() as usize]
}

/// Sets the index of each variable that has a `$f` to that of its first one in `mandatory`.
fn index_variables<A: Allocator>(database: &Database<A>, mandatory: &[u32], indices: &mut [u32])
    requires symbol_count_is { length indices.old ≡ length (symbol_names database.now.statements) }
    requires hypotheses_lt_length { All (λ h. h < length database.now.statements) mandatory.now }
    requires count_lt_2_31 { length mandatory.now < 2 ^ 31 }
    requires indices_fit { AreShortIndices indices.old }
    ensures indices_fit { AreShortIndices indices.new }
    ensures indices_are { AreFloatingIndices database.now.statements
        (map (formula_at database.now.statements) mandatory.now)
        indices.new }
{
    let mut j = mandatory.len();
    while 0 < j {
        j -= 1;
        match bound_variable(database, mandatory[j]) {
            Some(variable) => set_index(indices, variable, j as u32),
            None => {}
        }
    }
}

/// A symbol as a part of a rule: a variable is given by the index of its `$f`.
fn compile_symbol<A: Allocator>(database: &Database<A>, indices: &[u32], symbol: Sym) -> PackedPart
    requires symbol_count_is { length indices.now ≡ length (symbol_names database.now.statements) }
    requires indices_fit { AreShortIndices indices.now }
    requires is_symbol { symbol < length (symbol_names database.now.statements) }
    ensures { result ≡ indexed_part database.now.statements indices.now symbol }
{
    if database.is_variable(symbol) {
        PackedPart::variable(index_of_floating(indices, symbol))
    } else {
        PackedPart::constant(symbol)
    }
}

/// Appends the symbols of a formula to `parts`.
fn compile_formula<A: Allocator>(
    database: &Database<A>,
    indices: &[u32],
    formula: &[Sym],
    parts: &mut Vec<PackedPart, A>,
) -> Result<(), AllocError>
    requires symbol_count_is { length indices.now ≡ length (symbol_names database.now.statements) }
    requires indices_fit { AreShortIndices indices.now }
    requires symbols_in_range { All (λ symbol. symbol < length (symbol_names
        database.now.statements)) formula.now }
    ensures { OnOk result
        (parts.new.items
        ≡ parts.old.items ++ indexed_parts database.now.statements indices.now formula.now) }
{
    for symbol in formula {
        parts.push(compile_symbol(database, indices, *symbol))?;
    }
    Ok(())
}

/// Whether a formula is a constant and a variable for which `indices` has `index`. If it is the
/// formula of the hypothesis with this index, that is the first `$f` of the variable.
fn is_first_floating<A: Allocator>(
    database: &Database<A>,
    indices: &[u32],
    index: usize,
    formula: &[Sym],
) -> bool
    requires symbol_count_is { length indices.now ≡ length (symbol_names database.now.statements) }
    requires symbols_in_range { All (λ s. s < length (symbol_names database.now.statements))
        formula.now }
    ensures { result ≡ true
        → (0 < length formula.now)
        × (indexed_parts database.now.statements indices.now formula.now
        ≡ Constant (get_or formula.now 0 0) ∷ Variable index ∷ []) }
{
    formula.len() == 2
        && !database.is_variable(formula[0])
        && database.is_variable(formula[1])
        && index_of_floating(indices, formula[1]) as usize == index
}

/// Builds what the hypotheses require, in lists that are emptied first.
fn compile_hypotheses<A: Allocator>(
    database: &Database<A>,
    mandatory: &[u32],
    indices: &[u32],
    hypotheses: &mut Vec<Hypothesis, A>,
    parts: &mut Vec<PackedPart, A>,
) -> Result<(), AllocError>
    requires symbol_count_is { length indices.now ≡ length (symbol_names database.now.statements) }
    requires indices_fit { AreShortIndices indices.now }
    requires indices_are { AreFloatingIndices database.now.statements
        (map (formula_at database.now.statements) mandatory.now) indices.now }
    requires hypotheses_lt_length { All (λ hypothesis. hypothesis < length database.now.statements)
        mandatory.now }
    requires variables_are_bound { All
        (λ hypothesis. AreCovered database.now.statements
        (map (formula_at database.now.statements) mandatory.now)
        (formula_at database.now.statements hypothesis)) mandatory.now }
    ensures { OnOk result
        (AreCompiled database.now.statements mandatory.now hypotheses.new.items parts.new.items) }
{
    empty(hypotheses);
    empty(parts);
    for index in 0..mandatory.len() {
        let hypothesis = mandatory[index];
        let formula = database.formula(hypothesis);
        if is_first_floating(database, indices, index, formula) {
            hypotheses.push(Hypothesis::Floating(formula[0]))?;
        } else {
            compile_formula(database, indices, formula, parts)?;
            hypotheses.push(Hypothesis::Essential(formula.len() as u32))?;
        }
    }
    Ok(())
}

/// Builds the mandatory pairs of disjoint variables, each by the indices of their `$f`, in a list
/// that is emptied first.
fn compile_pairs<A: Allocator>(
    indices: &[u32],
    symbol_pairs: &[(Sym, Sym)],
    pairs: &mut Vec<(u32, u32), A>,
) -> Result<(), AllocError>
    requires { All (λ (pair : ℕ × ℕ). (pair.0 < length indices.now) × (pair.1 < length indices.now))
        symbol_pairs.now }
    ensures { OnOk result (pairs.new.items ≡ indexed_pairs indices.now symbol_pairs.now) }
{
    empty(pairs);
    for pair in symbol_pairs {
        let low = index_of_floating(indices, pair.0);
        let high = index_of_floating(indices, pair.1);
        pairs.push((low, high))?;
    }
    Ok(())
}

/// Compiles rules, one at a time. It reuses the memory of the rules that it compiled before.
pub struct RuleCompiler<A: Allocator> {
    /// The assertion of the rule that was compiled last. The lists are those of this rule.
    assertion: u32,
    hypotheses: Vec<Hypothesis, A>,
    pairs: Vec<(u32, u32), A>,
    parts: Vec<PackedPart, A>,
    formula: Vec<PackedPart, A>,
    /// For each variable of the rule the index of its first `$f` among the mandatory hypotheses.
    /// What other symbols have here means nothing.
    indices: Vec<u32, A>,
}

/// Dropped in one call: docs/PROOFS.md, "What a check costs".
impl<A: Allocator> Drop for RuleCompiler<A> {
    fn drop(self) {
        let Self {
            assertion: _,
            hypotheses: _,
            pairs: _,
            parts: _,
            formula: _,
            indices: _,
        } = self;
    }
}

impl<A: Allocator> Model for RuleCompiler<A> {
    ghost use Rattle.std.specs.Prelude.{length};
    ghost use Rattle.mm_rules.specs.Rules.{AreShortIndices, CompilerState, compiler_state};
    ghost use Rattle.mm_rule.specs.Rule.{compiled_rule};

    ghost Value = { CompilerState };

    ghost view = { λ m. compiler_state (length m.indices.items)
        (compiled_rule m.assertion m.hypotheses.items m.pairs.items
        m.parts.items m.formula.items) };

    ghost invariant = { λ m. AreShortIndices m.indices.items };
}

impl<A: Allocator> RuleCompiler<A> {
    /// A compiler for the rules of a database.
    pub fn new(alloc: A, database: &Database<A>) -> Result<Self, AllocError>
    where
        A: Copy,
        ensures { IfOk result
            (λ m. m.symbol_count ≡ length (symbol_names database.now.statements)) }
    {
        Ok(RuleCompiler {
            assertion: 0,
            hypotheses: Vec::new(alloc),
            pairs: Vec::new(alloc),
            parts: Vec::new(alloc),
            formula: Vec::new(alloc),
            indices: vec![in alloc; 0; database.symbol_count() as usize]?,
        })
    }

    /// The rule that was compiled last.
    pub fn rule(&self) -> Rule<'_>
        ensures { result ≡ self.now.rule }
    {
        Rule {
            assertion: self.assertion,
            hypotheses: &self.hypotheses,
            pairs: &self.pairs,
            parts: &self.parts,
            formula: &self.formula,
        }
    }

    /// Compiles the rule of an assertion.
    pub fn compile(&mut self, database: &Database<A>, assertion: u32) -> Result<(), AllocError>
        requires is_assertion { is_assertion_at database.now.statements assertion ≡ true }
        requires is_complete { IsComplete (variables_context database.now.statements)
            (frame_at database.now.statements assertion) }
        requires symbol_count_is { self.old.symbol_count
            ≡ length (symbol_names database.now.statements) }
        ensures symbol_count_stays { self.new.symbol_count ≡ self.old.symbol_count }
        ensures assertion_is { OnOk result (self.new.rule.assertion ≡ assertion) }
        ensures is_compiled { OnOk result (IsCompiled database.now.statements self.new.rule) }
    {
        let mandatory = mandatory_hypotheses(database, assertion);
        self.assertion = assertion;
        index_variables(database, mandatory, &mut self.indices);
        compile_hypotheses(
            database,
            mandatory,
            &self.indices,
            &mut self.hypotheses,
            &mut self.parts,
        )?;
        compile_pairs(&self.indices, pairs(database, assertion), &mut self.pairs)?;
        empty(&mut self.formula);
        compile_formula(
            database,
            &self.indices,
            database.formula(assertion),
            &mut self.formula,
        )
    }
}

//! What an assertion requires and what it yields, in terms of the indices of its hypotheses.

ghost use Rattle.std.specs.Prelude.{◌≡◌, ◌<◌, ◌^◌};
ghost use Rattle.mm_rule.specs.declared.rule.RulePart.TheVariants.{Constant, Variable};
ghost use Rattle.mm_rule.specs.Packed.{first_variable};
ghost use Rattle.mm_rule.specs.Rule.{IsConstantBelow};

use mm_database::Sym;
use std::marker::Model;

/// A symbol of a formula of a frame, as a part of a rule.
#[derive(Clone, Copy, Drop)]
pub enum RulePart {
    /// A constant.
    Constant(Sym),
    /// A variable, by the index of its `$f` among the mandatory hypotheses.
    Variable(u32),
}

/// A number from here on stands for a variable, and a smaller one for a constant.
const FIRST_VARIABLE: u32 = 2_147_483_648;

/// A [`RulePart`] in four bytes: the number of a constant, or 2^31 and the index of a `$f`.
/// Rules have millions of parts, and each step reads those of a rule.
#[derive(Clone, Copy, Drop)]
pub struct PackedPart(u32);

impl Model for PackedPart {
    ghost use Rattle.mm_rule.specs.declared.rule.RulePart.{RulePart};
    ghost use Rattle.mm_rule.specs.declared.rule.RulePart.TheVariants.{Constant, Variable};
    ghost use Rattle.mm_rule.specs.Packed.{first_variable, packed, unpacked};
    ghost use Rattle.std.proofs.Common.{◌≡◌, ◌-◌, true, false, nat_lt, cond, refl, arith};
    ghost use Rattle.std.proofs.lemmas.Bool.{ltb-false};

    ghost Value = { RulePart };

    ghost view = { λ s. unpacked s.0 };

    ghost inverse = { λ s. record { 0 = packed s } };

    ghost inverse_ok = { λ s h i. record {
      0 = (elim (nat_lt s.0 first_variable) as (λ b. nat_lt s.0 first_variable ≡ b
          → packed (cond b (Constant s.0) (Variable (s.0 - first_variable))) ≡ s.0)
          [ true ↦ λ e. refl | false ↦ λ e. omega (arith, ltb-false s.0 first_variable e) ]
          refl) i;
    } };
}

impl PackedPart {
    /// A constant.
    pub fn constant(symbol: Sym) -> PackedPart
        requires { symbol < 2 ^ 31 }
        ensures { result ≡ Constant symbol }
    {
        PackedPart(symbol.number())
    }

    /// A variable, by the index of its `$f`.
    pub fn variable(floating_index: u32) -> PackedPart
        requires { floating_index < 2 ^ 31 }
        ensures { result ≡ Variable floating_index }
    {
        PackedPart(FIRST_VARIABLE + floating_index)
    }

    /// The part that it stands for. A constant's number is below 2^31.
    #[inline(always)]
    pub fn to_part(self) -> RulePart
        ensures part_is { result ≡ self }
        ensures constant_is_below { IsConstantBelow first_variable result }
    {
        if self.0 < FIRST_VARIABLE {
            RulePart::Constant(Sym::new(self.0))
        } else {
            RulePart::Variable(self.0 - FIRST_VARIABLE)
        }
    }
}

/// What a mandatory hypothesis requires of its premise.
#[derive(Clone, Copy, Drop)]
pub enum Hypothesis {
    /// The typecode, if the hypothesis is the first `$f` of its variable.
    Floating(Sym),
    /// Otherwise the number of its parts. They stand in the rule's parts, after those of the
    /// hypotheses before it.
    Essential(u32),
}

/// What an assertion requires and yields: its frame, with each variable given by the index of its
/// `$f` among the mandatory hypotheses.
#[derive(Drop)]
pub struct Rule<'a> {
    /// The number of the assertion's statement.
    pub assertion: u32,
    /// The mandatory hypotheses, in order.
    pub hypotheses: &'a [Hypothesis],
    /// The mandatory pairs of disjoint variables, each by the indices of their `$f`.
    pub pairs: &'a [(u32, u32)],
    /// The parts of those hypotheses that aren't the first `$f` of a variable.
    pub parts: &'a [PackedPart],
    /// The parts of the assertion's formula.
    pub formula: &'a [PackedPart],
}

impl<'a> Model for Rule<'a> {
    ghost use Rattle.mm_rule.specs.Rule.{CompiledRule, compiled_rule};

    ghost Value = { CompiledRule };

    ghost view = { λ r. compiled_rule r.assertion r.hypotheses.now r.pairs.now r.parts.now
        r.formula.now };
}

impl<'a> Rule<'a> {
    /// The number of the assertion's statement.
    pub fn assertion(&self) -> u32
        ensures { result ≡ self.now.assertion }
    {
        self.assertion
    }

    /// What the mandatory hypotheses require, in order.
    pub fn hypotheses(&self) -> &'a [Hypothesis]
        ensures { result.now ≡ self.now.hypotheses }
    {
        self.hypotheses
    }

    /// The mandatory pairs of disjoint variables.
    pub fn pairs(&self) -> &'a [(u32, u32)]
        ensures { result.now ≡ self.now.pairs }
    {
        self.pairs
    }

    /// The parts of the assertion's formula.
    pub fn formula(&self) -> &'a [PackedPart]
        ensures { result.now ≡ self.now.formula }
    {
        self.formula
    }
}

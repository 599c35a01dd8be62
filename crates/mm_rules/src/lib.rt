//! The rules of a database's assertions. This layer compiles a frame to a rule, and keeps the rules
//! of all assertions in a few flat lists, which the workers share. Rules are held up to a
//! limit, because frames can be much longer than the text. A rule that isn't held is compiled for
//! each step that asks for it. The layer promises that a rule is that of its assertion
//! (`IsRuleOf` in `Rattle.mm_rules.specs.Rules`).
//!
//! A caller makes the rules once, by [`Rules::new`] or in several threads by [`rules_of`], asks
//! [`Rules::find`] and [`Rules::rule`] for the rule of an assertion, and otherwise has a
//! [`RuleCompiler`] of its own compile it.
//!
//! A parameter whose name begins with `_` is used only by the contracts.
#![tactic(auto)]

mod compile;
mod rules;
mod stretches;

pub use compile::RuleCompiler;
pub use rules::Rules;
pub use stretches::rules_of;

//! What an assertion requires of a proof that applies it, and what it yields. This layer knows the
//! rule of an assertion: its frame, in which a variable is the index of its `$f` among the
//! mandatory hypotheses. So what replaces a variable is the entry that the step takes for that
//! `$f`, and no table by symbols is needed. This layer also asks the database what a step asks most
//! often: whether a statement is an assertion, and which hypotheses and pairs its frame has.
//! `IsCompiled` in `Rattle.mm_rule.specs.Rule` says when a rule is that of an assertion. Rules are
//! compiled in `mm_rules` and applied in `mm_machine`, which are proved side by side.
#![tactic(auto)]

mod referents;
mod reused_lists;
mod rule;

pub use referents::{formula, is_assertion, is_essential_hypothesis, mandatory_hypotheses, pairs};
pub use reused_lists::{empty, put_number};
pub use rule::{Hypothesis, PackedPart, Rule, RulePart};

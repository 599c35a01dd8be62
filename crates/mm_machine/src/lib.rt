//! The entries of a proof in progress. This layer holds the formula of an entry as a typecode and a
//! string of nodes, so what replaces a variable isn't copied. It holds the nodes that the stack
//! and the marked steps need, and gives up the others. It performs a step: it pushes the formula
//! of a hypothesis, repeats a marked one, or applies a rule, whose premises it tests and takes
//! away. It promises that the entries after a step are those of the definitions
//! (`Rattle.mm_machine.specs.State`), and that it refuses a step only for the reason for which the
//! definitions refuse it.
//!
//! A caller makes a [`Machine`] once, and begins each proof with [`Machine::restart`] and
//! [`DisjointCache::restart`].
#![tactic(auto)]

mod disjoint_cache;
mod distinct;
mod entry;
mod entry_match;
mod entry_stack;
mod flag_rows;
mod machine;
mod owners;
mod reason;
mod rule_conditions;
mod rule_step;
mod symbol_lists;

pub use disjoint_cache::DisjointCache;
pub use machine::Machine;
pub use reason::{Reason, StepRefused};

//! A comparison: from the bytes of two databases, OLD and NEW, to what the one has and the other
//! hasn't, or to the refusal of the first that has a fault. If the plan asks for it, the report on
//! NEW stands behind that. This layer has both texts read and judged by the layers below, and only
//! then writes anything. `run_against` promises that the bytes written are those that the two texts
//! and the plan define (`IsAnswer` in `specs/Answered.antt`, by `IsComparison` in
//! `Rattle.mm_spec.specs.Comparison` and by `IsOutput`, the output of a run), for every lawful plan
//! and whatever the readers give.
#![tactic(auto)]

ghost use Rattle.mm_plan.specs.Plans.{IsLawfulPlan, request_of};
ghost use Rattle.mm_against.specs.Answered.{EndsAnswer};

mod comparison;
mod found;
mod judged_both;
mod laws;
mod table;
mod write;

pub use crate::comparison::write_comparison;
use crate::judged_both::answer_against;
pub use crate::laws::found_differences_are_defined;
use mm_plan::Plan;
use mm_run::{ReadRefused, read_all};
pub use mm_spec::ComparisonEnd;
use std::alloc::Allocator;
use std::io::{Read, Write};
use std::sync::Wait;
use std::thread::Threads;

/// Reads two texts to their ends, first OLD and then NEW, and writes what was asked of both: the
/// refusal of OLD for its first fault; or if it has none, that of NEW; or if neither has a fault,
/// their differences, and behind them the report on NEW if the plan has `and_report`. Without that
/// the plan's sections and form are not used. Reading a text stops once it is too long. On
/// `ReadFailed` and `NoMemory` nothing was written; on `WriteFailed` a prefix was.
pub fn run_against<
    R: Threads + Wait + Sync,
    A: Allocator + Copy + Send + Sync,
    I: Read,
    J: Read,
    O: Write,
>(rt: &R, alloc: A, plan: &Plan<A>, old: &mut I, new: &mut J, to: &mut O) -> ComparisonEnd
    requires { IsLawfulPlan plan.now }
    ensures { EndsAnswer plan.now.and_report result (request_of plan.now) (I.remaining old.old)
        (I.remaining old.new) (J.remaining new.old) (J.remaining new.new) (O.contents to.old)
        (O.contents to.new) }
{
    let mut old_text = Vec::new(alloc);
    match read_all(old, &mut old_text) {
        Ok(()) => {}
        Err(ReadRefused::Failed) => return ComparisonEnd::ReadFailed,
        Err(ReadRefused::Memory) => return ComparisonEnd::NoMemory,
    }
    let mut new_text = Vec::new(alloc);
    match read_all(new, &mut new_text) {
        Ok(()) => answer_against(rt, alloc, &old_text, &new_text, plan, to),
        Err(ReadRefused::Failed) => ComparisonEnd::ReadFailed,
        Err(ReadRefused::Memory) => ComparisonEnd::NoMemory,
    }
}

//! Two texts judged, one after the other.

ghost use Rattle.std.specs.Prelude.{◌≤◌, length};
ghost use Rattle.mm_spec.specs.Ends.{reading_limit};
ghost use Rattle.mm_run.specs.Judging.{IsJudgedText};
ghost use Rattle.mm_plan.specs.Plans.{IsLawfulPlan, request_of};
ghost use Rattle.mm_against.specs.Answered.{WroteAnswer};

use crate::comparison::{refuse_old, write_answer};
use mm_plan::Plan;
use mm_run::{JudgedText, judge};
use mm_spec::ComparisonEnd;
use std::alloc::Allocator;
use std::io::Write;
use std::sync::Wait;
use std::thread::Threads;

/// Judges NEW, and writes what was asked of it and of OLD, which was judged.
fn answer_with<'a, R: Threads + Wait + Sync, A: Allocator + Copy + Send + Sync, W: Write>(
    rt: &R,
    alloc: A,
    old_text: &[u8],
    old: &JudgedText<'a, A>,
    new_text: &'a [u8],
    plan: &Plan<A>,
    to: &mut W,
) -> ComparisonEnd
    requires length_le_limit { length new_text.now ≤ reading_limit }
    requires is_lawful { IsLawfulPlan plan.now }
    requires old_is_judged { IsJudgedText old_text.now plan.now.essential plan.now.with_open
        old.now }
    ensures { WroteAnswer plan.now.and_report result old_text.now new_text.now
        (request_of plan.now) (W.contents to.old) (W.contents to.new) }
{
    let Ok(new) = judge(rt, alloc, new_text, plan) else {
        return ComparisonEnd::NoMemory;
    };
    write_answer(
        alloc,
        &plan.request(),
        plan.and_report,
        old_text,
        old,
        new_text,
        &new,
        to,
    )
}

/// Writes what was asked of two texts: the refusal of OLD for its first fault; or if it has none,
/// that of NEW; or if neither has a fault, their differences, and behind them the report on NEW if
/// the plan asks for it. If OLD has a fault, then NEW isn't judged.
pub(crate) fn answer_against<R: Threads + Wait + Sync, A: Allocator + Copy + Send + Sync, W: Write>(
    rt: &R,
    alloc: A,
    old_text: &[u8],
    new_text: &[u8],
    plan: &Plan<A>,
    to: &mut W,
) -> ComparisonEnd
    requires old_le_limit { length old_text.now ≤ reading_limit }
    requires new_le_limit { length new_text.now ≤ reading_limit }
    requires is_lawful { IsLawfulPlan plan.now }
    ensures { WroteAnswer plan.now.and_report result old_text.now new_text.now
        (request_of plan.now) (W.contents to.old) (W.contents to.new) }
{
    let Ok(old) = judge(rt, alloc, old_text, plan) else {
        return ComparisonEnd::NoMemory;
    };
    match &old {
        JudgedText::Faulty(fault) => refuse_old(old_text, *fault, to),
        JudgedText::Sound(_, _) => answer_with(rt, alloc, old_text, &old, new_text, plan, to),
    }
}

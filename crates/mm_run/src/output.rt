//! What is written for a text: its report or its refusal.

ghost use Rattle.std.specs.Prelude.{◌≡◌, ◌<◌, ◌≤◌, ◌^◌, ℕ, List, IfOk, length};
ghost use Rattle.mm_spec.specs.Request.{Request};
ghost use Rattle.mm_spec.specs.Lexed.{lexed_of};
ghost use Rattle.mm_spec.specs.Output.{FirstFault};
ghost use Rattle.mm_spec.specs.Ends.{Wrote, reading_limit};
ghost use Rattle.mm_work.specs.Judged.{IsJudgement};
ghost use Rattle.mm_run.specs.Judging.{IsFaultless, IsJudgedText, IsReadFrom};
ghost use Rattle.mm_plan.specs.Plans.{IsLawfulPlan, request_of};

use crate::RunEnd;
use crate::cuts::cuts_of;
use crate::judged_text::{JudgedText, judged_text};
use crate::prepared::{prepare, write_prepared};
use mm_database::Database;
use mm_lex::lex;
use mm_plan::Plan;
use mm_report::{Request, write_refusal};
use mm_spec::Fault;
use mm_stmt::read_owned;
use mm_work::{Citations, Judged, Open, check_all, check_alone};
use std::alloc::{AllocError, Allocator};
use std::io::Write;
use std::sync::Wait;
use std::thread::Threads;

/// Writes the refusal of the text for its first fault.
fn refuse<W: Write>(text: &[u8], fault: Fault, to: &mut W) -> RunEnd
    ensures { (request : Request) → FirstFault (length text.now) (lexed_of text.now)
        request.with_open fault
        → Wrote result text.now request (W.contents to.old) (W.contents to.new) }
{
    match write_refusal(to, text, &fault) {
        Ok(()) => RunEnd::Refused(fault),
        Err(_) => RunEnd::WriteFailed,
    }
}

/// Writes the report of a database without a fault.
fn report<'a, A: Allocator + Copy, W: Write>(
    alloc: A,
    request: &Request<'_>,
    database: &Database<'a, A>,
    citations: &Citations<A>,
    to: &mut W,
) -> RunEnd
    requires is_faultless { IsFaultless request.now.essential request.now.with_open database.now
        citations.now }
    ensures { Wrote result database.now.text request.now (W.contents to.old)
        (W.contents to.new) }
{
    let Ok(prepared) = prepare(alloc, request, database, citations) else {
        return RunEnd::NoMemory;
    };
    match write_prepared(to, request, database, citations, &prepared) {
        Ok(()) => RunEnd::Accepted,
        Err(_) => RunEnd::WriteFailed,
    }
}

/// Writes the output of a judged text: the refusal for its first fault, or the report that is
/// requested. `text` is the text that was judged, and the request has the flags `essential` and
/// `with_open` with which it was judged. One judged text serves any number of such requests.
pub fn write_judged<'a, A: Allocator + Copy, W: Write>(
    alloc: A,
    text: &[u8],
    request: &Request<'_>,
    judged: &JudgedText<'a, A>,
    to: &mut W,
) -> RunEnd
    requires is_judged { IsJudgedText text.now request.now.essential request.now.with_open
        judged.now }
    ensures { Wrote result text.now request.now (W.contents to.old) (W.contents to.new) }
{
    match judged {
        JudgedText::Faulty(fault) => refuse(text, *fault, to),
        JudgedText::Sound(database, citations) => {
            report(alloc, request, database, citations, to)
        }
    }
}

/// Cuts a text as the plan says, lexes and reads it. Fails only if out of memory.
fn database_of<'a, R: Threads + Sync, A: Allocator + Copy + Send + Sync>(
    rt: &R,
    alloc: A,
    text: &'a [u8],
    plan: &Plan<A>,
) -> Result<Database<'a, A>, AllocError>
    requires length_le_limit { length text.now ≤ reading_limit }
    requires is_lawful { IsLawfulPlan plan.now }
    ensures { IfOk result (IsReadFrom text.now plan.now.with_open) }
{
    let cuts = cuts_of(&plan.cuts, alloc, text.len())?;
    let lexed = lex(rt, alloc, text, &cuts)?;
    read_owned(rt, alloc, text, lexed, plan.with_open, plan.workers)
}

/// Checks all proofs of a database: on the calling thread alone, if the plan has one worker. Fails
/// only if out of memory.
fn check<'a, R: Threads + Wait + Sync, A: Allocator + Copy + Send + Sync>(
    rt: &R,
    alloc: A,
    database: &Database<'a, A>,
    plan: &Plan<A>,
) -> Result<Judged<A>, AllocError>
    requires is_lawful { IsLawfulPlan plan.now }
    ensures { IfOk result (λ judged. IsJudgement database.now.statements plan.now.essential
        judged) }
{
    if plan.workers == 1 {
        check_alone(alloc, database, plan.essential)
    } else {
        check_all(rt, alloc, database, plan.workers, plan.essential, &Open)
    }
}

/// Cuts a text as the plan says, reads it, and checks all its proofs. Fails only if out of memory.
pub fn judge<'a, R: Threads + Wait + Sync, A: Allocator + Copy + Send + Sync>(
    rt: &R,
    alloc: A,
    text: &'a [u8],
    plan: &Plan<A>,
) -> Result<JudgedText<'a, A>, AllocError>
    requires length_le_limit { length text.now ≤ reading_limit }
    requires is_lawful { IsLawfulPlan plan.now }
    ensures { IfOk result (IsJudgedText text.now plan.now.essential plan.now.with_open) }
{
    let database = database_of(rt, alloc, text, plan)?;
    let judged = check(rt, alloc, &database, plan)?;
    Ok(judged_text(database, judged))
}

/// Writes the output of a text: the refusal for its first fault, or the report that the plan
/// requests.
pub fn answer<R: Threads + Wait + Sync, A: Allocator + Copy + Send + Sync, W: Write>(
    rt: &R,
    alloc: A,
    text: &[u8],
    plan: &Plan<A>,
    to: &mut W,
) -> RunEnd
    requires length_le_limit { length text.now ≤ reading_limit }
    requires is_lawful { IsLawfulPlan plan.now }
    ensures { Wrote result text.now (request_of plan.now) (W.contents to.old)
        (W.contents to.new) }
{
    let Ok(judged) = judge(rt, alloc, text, plan) else {
        return RunEnd::NoMemory;
    };
    write_judged(alloc, text, &plan.request(), &judged, to)
}

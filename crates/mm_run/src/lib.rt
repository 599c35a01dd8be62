//! A run: from the bytes of a database to its report or its refusal. This layer calls the layers
//! below it in order: it reads the text to its end, cuts and lexes it, reads its statements and
//! checks their proofs, and only then writes anything. `run` promises that the bytes written are
//! those that the text and the request define (`IsOutput` in `Rattle.mm_spec.specs.Output`), for
//! every lawful plan and whatever the reader gives.
#![tactic(auto)]

mod alone;
mod cuts;
mod input;
mod judged_text;
mod output;
mod prepared;

ghost use Rattle.mm_plan.specs.Plans.{IsLawfulPlan, request_of};
ghost use Rattle.mm_spec.specs.Ends.{Ends};

pub use crate::alone::judge_alone;
pub use crate::input::{ReadRefused, read_all};
pub use crate::judged_text::JudgedText;
use crate::output::answer;
pub use crate::output::{judge, write_judged};
pub use crate::prepared::{MarksFor, Prepared, prepare, write_prepared};
use mm_plan::Plan;
pub use mm_spec::RunEnd;
use std::alloc::Allocator;
use std::io::{Read, Write};
use std::sync::Wait;
use std::thread::Threads;

/// Reads a text to its end and writes its output: the refusal for its first fault, or the report
/// that the plan requests. Reading stops once the text is too long. On `ReadFailed` and `NoMemory`
/// nothing was written; on `WriteFailed` a prefix of the output was.
pub fn run<R: Threads + Wait + Sync, A: Allocator + Copy + Send + Sync, I: Read, O: Write>(
    rt: &R,
    alloc: A,
    plan: &Plan<A>,
    from: &mut I,
    to: &mut O,
) -> RunEnd
    requires { IsLawfulPlan plan.now }
    ensures { Ends result (request_of plan.now) (I.remaining from.old) (I.remaining from.new)
        (O.contents to.old) (O.contents to.new) }
{
    let mut text = Vec::new(alloc);
    match read_all(from, &mut text) {
        Ok(()) => answer(rt, alloc, &text, plan, to),
        Err(ReadRefused::Failed) => RunEnd::ReadFailed,
        Err(ReadRefused::Memory) => RunEnd::NoMemory,
    }
}

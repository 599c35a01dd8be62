//! The output of a text, at the front of memory.

ghost use Rattle.std.specs.Prelude.{◌≡◌, ◌≤◌, ℕ, List, ◌++◌, IfOk, OnOk, length};
ghost use Rattle.mm_spec.specs.Ends.{reading_limit};
ghost use Rattle.mm_spec.specs.Output.{IsOutput};
ghost use Rattle.mm_run.specs.Judging.{IsJudgedText};
ghost use Rattle.mm_library.specs.Calls.{HasVerdict, WritingEnds, report_of};

use crate::front::Front;
use crate::status::Status;
use mm_run::{JudgedText, RunEnd, judge_alone, write_judged};
use mm_spec::Request;
use std::alloc::Allocator;

/// An output wasn't written whole, because there was no memory to write it.
#[derive(Drop)]
pub(crate) struct NotWritten;

/// Writes the output of a judged text behind what was written before. Returns the verdict.
fn write_output<'a, A: Allocator + Copy>(
    alloc: A,
    text: &[u8],
    request: &Request<'_>,
    judged: &JudgedText<'a, A>,
    to: &mut Front<'_>,
) -> Result<Status, NotWritten>
    requires is_judged { IsJudgedText text.now request.now.essential request.now.with_open
        judged.now }
    ensures name_stays { OnOk result (to.new.out.ghost_name ≡ to.old.out.ghost_name) }
    ensures before_stays { OnOk result (to.new.before.bytes ≡ to.old.before.bytes) }
    ensures appends_output { IfOk result (λ status.
        HasVerdict status (report_of text.now) request.now.with_open
        × ((bytes : List ℕ) × IsOutput text.now request.now bytes
        × (to.new.written.bytes ≡ to.old.written.bytes ++ bytes))) }
{
    match write_judged(alloc, text, request, judged, to) {
        RunEnd::Accepted => Ok(Status::Accepted),
        RunEnd::Refused(_) => Ok(Status::Refused),
        RunEnd::ReadFailed | RunEnd::WriteFailed | RunEnd::NoMemory => Err(NotWritten),
    }
}

/// Writes the output of a judged text to the front of `out`. Returns how that ended, and the length
/// of the output in bytes.
fn write_to_front<'a, A: Allocator + Copy>(
    alloc: A,
    text: &[u8],
    request: &Request<'_>,
    judged: &JudgedText<'a, A>,
    out: &mut [u8],
) -> (Status, usize)
    requires is_judged { IsJudgedText text.now request.now.essential request.now.with_open
        judged.now }
    ensures { WritingEnds result.0 request.now (report_of text.now) result.1 out.old out.new }
{
    let mut to = Front::new(out);
    match write_output(alloc, text, request, judged, &mut to) {
        Ok(verdict) => (to.status(verdict), to.len),
        Err(NotWritten) => (Status::RoomTooSmall, 0),
    }
}

/// Reads a text, checks all its proofs, and writes its output to the front of `out`. Returns how
/// that ended, and the length of the output in bytes.
pub(crate) fn output<A: Allocator + Copy>(
    alloc: A,
    text: &[u8],
    request: &Request<'_>,
    out: &mut [u8],
) -> (Status, usize)
    requires length_le_limit { length text.now ≤ reading_limit }
    ensures { WritingEnds result.0 request.now (report_of text.now) result.1 out.old out.new }
{
    match judge_alone(alloc, text, request.essential, request.with_open) {
        Ok(judged) => write_to_front(alloc, text, request, &judged, out),
        Err(_) => (Status::RoomTooSmall, 0),
    }
}

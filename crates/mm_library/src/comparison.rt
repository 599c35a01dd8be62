//! What was asked of two texts, at the front of memory.

ghost use Rattle.std.specs.Prelude.{◌≡◌, ◌≤◌, ℕ, List, ◌++◌, IfOk, OnOk, length};
ghost use Rattle.mm_spec.specs.Ends.{reading_limit};
ghost use Rattle.mm_spec.specs.Comparison.{IsComparison};
ghost use Rattle.mm_run.specs.Judging.{IsJudgedText};
ghost use Rattle.mm_library.specs.Calls.{HasVerdict, WritingEnds, comparison_of};

use crate::front::Front;
use crate::report::NotWritten;
use crate::status::Status;
use mm_against::write_comparison;
use mm_run::{JudgedText, judge_alone};
use mm_spec::{ComparisonEnd, Request};
use std::alloc::Allocator;

/// Writes what was asked of two judged texts behind what was written before. Returns the verdict.
fn write_output<'a, A: Allocator + Copy>(
    alloc: A,
    old_text: &[u8],
    old: &JudgedText<'a, A>,
    new_text: &[u8],
    new: &JudgedText<'a, A>,
    request: &Request<'_>,
    to: &mut Front<'_>,
) -> Result<Status, NotWritten>
    requires old_is_judged { IsJudgedText old_text.now request.now.essential request.now.with_open
        old.now }
    requires new_is_judged { IsJudgedText new_text.now request.now.essential request.now.with_open
        new.now }
    ensures name_stays { OnOk result (to.new.out.ghost_name ≡ to.old.out.ghost_name) }
    ensures before_stays { OnOk result (to.new.before.bytes ≡ to.old.before.bytes) }
    ensures appends_output { IfOk result
        (λ status. HasVerdict status (comparison_of old_text.now new_text.now)
        request.now.with_open
        × ((bytes : List ℕ) × IsComparison old_text.now new_text.now request.now bytes
        × (to.new.written.bytes ≡ to.old.written.bytes ++ bytes))) }
{
    match write_comparison(alloc, request, old_text, old, new_text, new, to) {
        ComparisonEnd::Compared => Ok(Status::Accepted),
        ComparisonEnd::OldRefused(_) => Ok(Status::Refused),
        ComparisonEnd::NewRefused(_) => Ok(Status::Refused),
        ComparisonEnd::ReadFailed | ComparisonEnd::WriteFailed | ComparisonEnd::NoMemory => {
            Err(NotWritten)
        }
    }
}

/// Writes what was asked of two judged texts to the front of `out`. Returns how that ended, and the
/// length of the output in bytes.
fn write_to_front<'a, A: Allocator + Copy>(
    alloc: A,
    old_text: &[u8],
    old: &JudgedText<'a, A>,
    new_text: &[u8],
    new: &JudgedText<'a, A>,
    request: &Request<'_>,
    out: &mut [u8],
) -> (Status, usize)
    requires old_is_judged { IsJudgedText old_text.now request.now.essential request.now.with_open
        old.now }
    requires new_is_judged { IsJudgedText new_text.now request.now.essential request.now.with_open
        new.now }
    ensures { WritingEnds result.0 request.now (comparison_of old_text.now new_text.now) result.1
        out.old out.new }
{
    let mut to = Front::new(out);
    match write_output(alloc, old_text, old, new_text, new, request, &mut to) {
        Ok(verdict) => (to.status(verdict), to.len),
        Err(NotWritten) => (Status::RoomTooSmall, 0),
    }
}

/// Judges NEW, and writes what was asked of it and of OLD, which was judged.
fn compare_with<'a, A: Allocator + Copy>(
    alloc: A,
    old_text: &[u8],
    old: &JudgedText<'a, A>,
    new_text: &'a [u8],
    request: &Request<'_>,
    out: &mut [u8],
) -> (Status, usize)
    requires length_le_limit { length new_text.now ≤ reading_limit }
    requires old_is_judged { IsJudgedText old_text.now request.now.essential request.now.with_open
        old.now }
    ensures { WritingEnds result.0 request.now (comparison_of old_text.now new_text.now) result.1
        out.old out.new }
{
    match judge_alone(alloc, new_text, request.essential, request.with_open) {
        Ok(new) => write_to_front(alloc, old_text, old, new_text, &new, request, out),
        Err(_) => (Status::RoomTooSmall, 0),
    }
}

/// Reads two texts, checks all proofs of both, and writes what was asked of them to the front of
/// `out`. Returns how that ended, and the length of the output in bytes.
pub(crate) fn compare<A: Allocator + Copy>(
    alloc: A,
    old_text: &[u8],
    new_text: &[u8],
    request: &Request<'_>,
    out: &mut [u8],
) -> (Status, usize)
    requires old_le_limit { length old_text.now ≤ reading_limit }
    requires new_le_limit { length new_text.now ≤ reading_limit }
    ensures { WritingEnds result.0 request.now (comparison_of old_text.now new_text.now) result.1
        out.old out.new }
{
    match judge_alone(alloc, old_text, request.essential, request.with_open) {
        Ok(old) => compare_with(alloc, old_text, &old, new_text, request, out),
        Err(_) => (Status::RoomTooSmall, 0),
    }
}

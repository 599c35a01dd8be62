//! The differences between two databases, as they are written.

ghost use Rattle.std.specs.Prelude.{◌≡◌, ◌<◌, ◌^◌, ℕ, List, OnOk, OnErr, take, length};
ghost use Rattle.std.specs.Io.KnownBytes.{Appends};
ghost use Rattle.mm_spec.specs.Request.{Request as SpecRequest};
ghost use Rattle.mm_spec.specs.Output.{theorems};
ghost use Rattle.mm_spec.specs.Comparison.{AreDifferences};
ghost use Rattle.mm_shifts.specs.Resting.{Resting, side_in};
ghost use Rattle.mm_against.specs.Found.{AreItsCitations};
ghost use Rattle.mm_against.specs.Lists.{AreListsOf};

use crate::found::Found;
use mm_report::{Difference, Request, WriteFailed, write_differences};
use mm_shifts::Marked;
use std::alloc::Allocator;
use std::io::Write;

/// Writes the differences between two databases without a fault, by what was found of them. The
/// citations of both were found as the request says. Returns `WriteFailed` if a write failed; then
/// a prefix of the differences has been written.
pub fn write_found<'s, 'a, W: Write, A: Allocator, D: Allocator>(
    to: &mut W,
    request: &Request<'_>,
    old: &'s Marked<'s, 'a, A, D>,
    gone: &'s Found<A>,
    new: &'s Marked<'s, 'a, A, D>,
    added: &'s Found<A>,
) -> Result<(), WriteFailed>
    requires old_citations { AreItsCitations request.now.essential old.now }
    requires new_citations { AreItsCitations request.now.essential new.now }
    requires gone_is_found { AreListsOf old.now new.now request.now.only gone.now.own.items
        gone.now.dummy_lists gone.now.shifts }
    requires added_is_found { AreListsOf new.now old.now request.now.only added.now.own.items
        added.now.dummy_lists added.now.shifts }
    ensures differences_are_written { OnOk result
        ((bytes : List ℕ)
        × AreDifferences request.now (side_in old.now) (side_in new.now) bytes
        × Appends (W.contents to.old) (W.contents to.new) bytes) }
    ensures prefix_is_written { OnErr result
        ((bytes : List ℕ) × (k : ℕ)
        × AreDifferences request.now (side_in old.now) (side_in new.now) bytes
        × Appends (W.contents to.old) (W.contents to.new) (take k bytes)) }
{
    let _ = new.theorems().len();
    let _ = old.theorems().len();
    let new_difference = Difference {
        database: new.database(),
        own: &added.own,
        dummy_lists: &added.dummy_lists,
        shifts: &added.shifts,
    };
    let old_difference = Difference {
        database: old.database(),
        own: &gone.own,
        dummy_lists: &gone.dummy_lists,
        shifts: &gone.shifts,
    };
    write_differences(to, &new_difference, &old_difference)
}

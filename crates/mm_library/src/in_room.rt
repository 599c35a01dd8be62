//! The output for a text or for two, made in memory that is lent.

ghost use Rattle.std.specs.Prelude.{◌≡◌, ◌⊎◌};
ghost use Rattle.mm_library.specs.Calls.{Call, CallEnds, IsAnswer, WritingEnds};
ghost use Rattle.mm_library.specs.Texts.{asked_of};
ghost use Rattle.mm_library.specs.declared.status.Status.TheVariants.{RoomTooSmall};

use crate::status::Status;
use crate::texts::{Texts, output_of};
use mm_room::{Lender, Reusing, Room};
use mm_spec::Request;
use std::alloc::Allocator;
use std::mem::replace;

/// The call `output_of` in an arena, with freed blocks used again.
fn output_in_arena<A: Allocator + Copy>(
    arena: A,
    texts: Texts<'_>,
    request: &Request<'_>,
    out: &mut [u8],
) -> (Status, usize)
    ensures { WritingEnds result.0 request.now (asked_of texts.entry) result.1 out.old out.new }
{
    match Reusing::new(arena) {
        Ok(alloc) => output_of(&alloc, texts, request, out),
        Err(_) => (Status::RoomTooSmall, 0),
    }
}

/// The call `output_of` in a room. If a block of the room was leaked, the room is lost, and the
/// room counts as too small.
fn output_in_room(
    room: &mut Room,
    texts: Texts<'_>,
    request: &Request<'_>,
    out: &mut [u8],
) -> (Status, usize)
    ensures room_comes_back { (room.new.units ≡ room.old.units)
        ⊎ ((result.0 ≡ RoomTooSmall) × (room.new.units ≡ 0)) }
    ensures writes_output { WritingEnds result.0 request.now (asked_of texts.entry) result.1 out.old
        out.new }
{
    let lender = Lender::new(replace(room, Room::none()));
    let ended = match lender.arena() {
        Ok(arena) => output_in_arena(&arena, texts, request, out),
        Err(_) => (Status::RoomTooSmall, 0),
    };
    match lender.into_room() {
        Some(whole_room) => {
            *room = whole_room;
            ended
        }
        None => (Status::RoomTooSmall, 0),
    }
}

/// Writes the output for a request to the front of `out`, if there is a request. Returns how the
/// call ends, and the length of the output in bytes.
pub(crate) fn output_if_asked(
    room: &mut Room,
    texts: Texts<'_>,
    request: Result<Request<'_>, Status>,
    out: &mut [u8],
) -> (Status, usize)
    ensures room_comes_back { (room.new.units ≡ room.old.units)
        ⊎ ((result.0 ≡ RoomTooSmall) × (room.new.units ≡ 0)) }
    ensures call_ends { (call : Call) → IsAnswer call request.entry
        → CallEnds result.0 call (asked_of texts.entry) result.1 out.old out.new }
{
    match request {
        Ok(request) => output_in_room(room, texts, &request, out),
        Err(status) => (status, 0),
    }
}

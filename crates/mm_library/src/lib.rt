//! The proved core as a library for C: calls that work on the calling thread alone, in memory that
//! the caller lends. It starts no thread, calls nothing of the caller's, and keeps nothing between
//! calls. C passes a slice as a pointer and a length in bytes. The pointer is never null; if the
//! length is 0, it may be dangling.
#![tactic(auto)]

ghost use Rattle.std.specs.Prelude.{◌≡◌, ◌⊎◌, drop, length};
ghost use Rattle.mm_library.specs.Calls.{CallEnds, call_of, comparison_of, part_of, report_of};
ghost use Rattle.mm_library.specs.Calls.{status_number};
ghost use Rattle.mm_library.specs.Fronts.{IsAtFront};
ghost use Rattle.mm_library.specs.declared.status.Status.{Status};
ghost use Rattle.mm_library.specs.declared.status.Status.TheVariants.{RoomTooSmall};
ghost use Rattle.mm_library.specs.declared.TheConstants.{ANY_FORM, ANY_SECTIONS};
ghost use Rattle.mm_version.specs.declared.TheConstants.{VERSION};

mod comparison;
mod front;
mod ghost_bytes;
mod in_room;
mod report;
mod request;
mod status;
#[cfg(test)]
mod tests;
mod texts;

use crate::front::copy_behind;
use crate::in_room::output_if_asked;
use crate::request::request;
pub use crate::status::Status;
use crate::texts::Texts;
pub use mm_room::Room;
use mm_version::VERSION;

/// Verifies the proofs of a text, a Metamath database, and writes the report that is requested, or
/// the refusal for the text's first fault, to the front of `out`.
///
/// - `room`: memory to work in, which comes back whole: an address that is a multiple of 16, and a
///   number of units of 16 bytes. Only with status 4 it may come back with no unit, and then it is
///   lost. Nothing of it is read.
/// - `text`: the database. Of a text of more than 2,147,483,648 bytes only these are read, and they
///   are refused.
/// - `only`: the typecode of the axioms that are columns, and of the citations and the statements
///   that are listed, as UTF-8, if `has_only`. Otherwise it isn't read.
/// - `sections`: the sections, as bits of which at least one is set: 1 the matrix, 2 the counts, 4
///   the usage, 8 the citations, 32 the proofs, 16 the statements. They are written in this order.
/// - `form`: how the matrix is written: 1 a digit for each column, 2 a hexadecimal digit for every
///   four.
/// - `essential`: whether a theorem cites only by the essential nodes of its proof.
/// - `with_open`: whether open theorems count as axioms.
/// - `out`: memory for the output, in bytes. It keeps what is behind the output.
/// - `written`: gets the length of the output in bytes, with status 0, 1 and 3, and otherwise 0.
///
/// The result is a status. 0: `out` begins with the report. 1: `out` begins with the refusal. 2:
/// `only` isn't UTF-8. 3: `out` is too short, and has as much of the output as it holds; a second
/// call with `written` bytes has room for it. 4: the room is too small. 5: `sections` has no
/// bit, or another one, or no form has the number `form`. With 2 and 5 `out` stays as it was. With
/// 4 its bytes are not to be read.
#[unsafe(no_mangle)]
pub extern "C" fn mmdepend_report(
    room: &mut Room,
    text: &[u8],
    only: &[u8],
    has_only: bool,
    sections: u32,
    form: u32,
    essential: bool,
    with_open: bool,
    out: &mut [u8],
    written: &mut usize,
) -> u32
    ensures room_comes_back { (room.new.units ≡ room.old.units)
        ⊎ ((result ≡ status_number RoomTooSmall) × (room.new.units ≡ 0)) }
    ensures call_ends { (status : Status) × (result ≡ status_number status)
        × CallEnds status (call_of has_only only.now sections form essential with_open)
        (report_of (part_of text.now)) written.new out.old out.new }
{
    let request = request(only, has_only, sections, form, essential, with_open);
    told(
        output_if_asked(room, Texts::One(text), request, out),
        written,
    )
}

/// Tells the length of the output in bytes, and returns the number of the status.
fn told(ended: (Status, usize), written: &mut usize) -> u32
    ensures status_is { result ≡ status_number ended.0 }
    ensures length_is { written.new ≡ ended.1 }
{
    let (status, len) = ended;
    *written = len;
    status.number()
}

/// The sections and the form of a request whose sections and form aren't used.
const ANY_SECTIONS: u32 = 7;

const ANY_FORM: u32 = 1;

/// Verifies the proofs of two texts, the Metamath databases OLD and NEW, and writes what the one
/// has and the other hasn't to the front of `out`; or if a text has a fault, the refusal of the
/// first that has one, after the word `old` or `new`.
///
/// - `old_text`, `new_text`: the databases, each read as the text of `mmdepend_report` is.
/// - `room`, `only`, `has_only`, `essential`, `with_open`, `out`, `written`: as there. `only`
///   chooses the assertions and the axioms that are told, of both.
///
/// The result is a status, as there, but never 5.
#[unsafe(no_mangle)]
pub extern "C" fn mmdepend_against(
    room: &mut Room,
    old_text: &[u8],
    new_text: &[u8],
    only: &[u8],
    has_only: bool,
    essential: bool,
    with_open: bool,
    out: &mut [u8],
    written: &mut usize,
) -> u32
    ensures room_comes_back { (room.new.units ≡ room.old.units)
        ⊎ ((result ≡ status_number RoomTooSmall) × (room.new.units ≡ 0)) }
    ensures call_ends { (status : Status) × (result ≡ status_number status)
        × CallEnds status (call_of has_only only.now ANY_SECTIONS ANY_FORM essential with_open)
        (comparison_of (part_of old_text.now) (part_of new_text.now)) written.new out.old out.new }
{
    let request = request(only, has_only, ANY_SECTIONS, ANY_FORM, essential, with_open);
    told(
        output_if_asked(room, Texts::Two(old_text, new_text), request, out),
        written,
    )
}

/// Puts the version's text, as the program prints it after its name, at the front of `out`, as much
/// of it as `out` holds. What is behind it stays as it was. Returns the length of the whole text in
/// bytes.
#[unsafe(no_mangle)]
pub extern "C" fn mmdepend_version(out: &mut [u8]) -> usize
    ensures version_is { (result ≡ length VERSION.now) × IsAtFront VERSION.now out.new }
    ensures rest_stays { drop (length VERSION.now) out.new ≡ drop (length VERSION.now) out.old }
{
    copy_behind(out, 0, VERSION.as_bytes());
    VERSION.len()
}

//! The texts that a call is about.

ghost use Rattle.std.specs.Prelude.{◌≡◌, ◌≤◌, length};
ghost use Rattle.mm_spec.specs.Ends.{reading_limit};
ghost use Rattle.mm_library.specs.Calls.{WritingEnds, part_of};
ghost use Rattle.mm_library.specs.Texts.{asked_of};

use crate::comparison::compare;
use crate::report::output;
use crate::status::Status;
use mm_spec::{Request, TEXT_LIMIT};
use std::alloc::Allocator;

/// The texts that a call is about: one, whose report is asked for, or two, OLD and NEW, which are
/// compared.
#[derive(Clone, Copy)]
pub(crate) enum Texts<'a> {
    One(&'a [u8]),
    Two(&'a [u8], &'a [u8]),
}

/// The part of a text that is read: its beginning, up to one byte more than a text may have.
fn read_part(text: &[u8]) -> &[u8]
    ensures part_is { result.now ≡ part_of text.now }
    ensures length_le_limit { length result.now ≤ reading_limit }
{
    &text[..(TEXT_LIMIT + 1).min(text.len())]
}

/// The call for one text or two, on the parts of them that are read.
pub(crate) fn output_of<A: Allocator + Copy>(
    alloc: A,
    texts: Texts<'_>,
    request: &Request<'_>,
    out: &mut [u8],
) -> (Status, usize)
    ensures { WritingEnds result.0 request.now (asked_of texts.entry) result.1 out.old out.new }
{
    match texts {
        Texts::One(text) => output(alloc, read_part(text), request, out),
        Texts::Two(old, new) => compare(alloc, read_part(old), read_part(new), request, out),
    }
}

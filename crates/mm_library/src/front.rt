//! A writer to the front of a slice.

ghost use Rattle.std.specs.Prelude.{◌≡◌, ◌+◌, ℕ, List, [], ◌∷◌, ◌++◌, Some, nat_lt};
ghost use Rattle.std.specs.Prelude.{if◌then◌else◌, drop, length, take};
ghost use Rattle.mm_library.specs.Fronts.{front_contents};
ghost use Rattle.mm_library.specs.declared.status.Status.TheVariants.{OutTooShort};

use crate::ghost_bytes::GhostBytes;
use crate::status::Status;
use std::io::{self, ErrorKind, Write};

/// A writer that puts its bytes at the front of a slice, leaves what is behind them as it was, and
/// counts those that find no place.
#[derive(Drop)]
pub(crate) struct Front<'a> {
    /// The slice.
    pub(crate) out: &'a mut [u8],
    /// How many bytes were written, whether or not they found a place.
    pub(crate) len: usize,
    /// What was in the slice before.
    pub(crate) before: GhostBytes,
    /// What was written.
    pub(crate) written: GhostBytes,
    ghost len_is: { len ≡ length written.bytes },
    ghost is_at_front: { take len out.now ≡ take (length out.now) written.bytes },
    ghost rest_stays: { drop len out.now ≡ drop len before.bytes },
}

impl<'a> Front<'a> {
    /// A writer that has written nothing yet.
    pub(crate) fn new(out: &'a mut [u8]) -> Front<'a>
        ensures name_stays { result.out.ghost_name ≡ out.entry.ghost_name }
        ensures before_is { result.before.bytes ≡ out.old }
        ensures nothing_written { result.written.bytes ≡ [] }
        ensures length_stays { length result.out.now ≡ length out.old }
    {
        let mut before = GhostBytes::none();
        before.add(out);
        Front {
            out,
            len: 0,
            before,
            written: GhostBytes::none(),
        }
    }

    /// The verdict, if all bytes have found a place.
    pub(crate) fn status(&self, verdict: Status) -> Status
        ensures { result ≡ (if nat_lt (length self.now.out.now) self.now.len then OutTooShort
            else verdict) }
    {
        if self.out.len() < self.len {
            Status::OutTooShort
        } else {
            verdict
        }
    }
}

/// Copies bytes behind the first `len` bytes of `out`, as many of them as fit. What is behind them
/// stays as it was.
pub(crate) fn copy_behind(out: &mut [u8], len: usize, bytes: &[u8])
    ensures front_stays { take len out.new ≡ take len out.old }
    ensures length_stays { length out.new ≡ length out.old }
    ensures bytes_follow_front { take (len + length bytes.now) out.new
        ≡ take (length out.old) (take len out.old ++ bytes.now) }
    ensures rest_stays { drop (len + length bytes.now) out.new
        ≡ drop (len + length bytes.now) out.old }
{
    if len < out.len() {
        let count = bytes.len().min(out.len() - len);
        out[len..len + count].copy_from_slice(&bytes[..count]);
    }
}

/// A caller that writes knows which slice it is, what was in it before, and what was written.
impl<'a> Write for Front<'a> {
    ghost contents = { λ f. Some (front_contents f.out.ghost_name f.before.bytes
        f.written.bytes) };

    fn write(&mut self, bytes: &[u8]) -> io::Result<usize> {
        let Some(len) = self.len.checked_add(bytes.len()) else {
            return Err(io::Error::from(ErrorKind::FileTooLarge));
        };
        copy_behind(self.out, self.len, bytes);
        self.written.add(bytes);
        self.len = len;
        Ok(bytes.len())
    }

    fn flush(&mut self) -> io::Result<()> {
        Ok(())
    }
}

//! Reading a text.

ghost use Rattle.std.specs.Prelude.{◌≡◌, ◌≤◌, ◌<◌, OnOk, vec_len, length};
ghost use Rattle.mm_spec.specs.Ends.{Gave, reading_limit};

use std::alloc::{AllocError, Allocator};
use std::io::Read;

/// The most bytes that are read: `reading_limit` of the definitions, which is one more than a text
/// may have, so that a text that is too long is recognised.
pub const READING_LIMIT: usize = 2_147_483_648;

/// How many bytes are requested of a reader at a time.
const CHUNK_LEN: usize = 65536;

/// Why a text was not read: a read failed, or out of memory.
#[derive(Clone, Copy)]
pub enum ReadRefused {
    Failed,
    Memory,
}

impl From<AllocError> for ReadRefused {
    ghost use Rattle.std.specs.Prelude.{◌≡◌};
    ghost use Rattle.mm_run.specs.declared.input.ReadRefused.TheVariants.{Memory};

    ghost from_gives = { λ _ e. e ≡ Memory };

    fn from(_: AllocError) -> ReadRefused {
        ReadRefused::Memory
    }
}

/// Reads into `text`, which is empty, up to the end or to the limit. A read that returns an error
/// of any kind is a failure, and isn't repeated.
pub fn read_all<R: Read, A: Allocator>(
    from: &mut R,
    text: &mut Vec<u8, A>,
) -> Result<(), ReadRefused>
    requires { vec_len text.old ≡ 0 }
    ensures gave_text { OnOk result
        (Gave (R.remaining from.old) (R.remaining from.new) text.new.items) }
    ensures length_le_limit { OnOk result (length text.new.items ≤ reading_limit) }
{
    let mut chunk = [0u8; CHUNK_LEN];
    while text.len() < READING_LIMIT {
        let wanted = (READING_LIMIT - text.len()).min(CHUNK_LEN);
        match from.read(&mut chunk[..wanted]) {
            Ok(0) => return Ok(()),
            Ok(count) => text.extend_from_slice(&chunk[..count])?,
            Err(_) => return Err(ReadRefused::Failed),
        }
    }
    Ok(())
}

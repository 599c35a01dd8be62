//! Malicious texts.

use crate::calls::{PIECES, run_on};
use crate::texts::BEGINNING;
use mm_plan::Cutting;
use mm_run::RunEnd;
use mm_spec::{Code, Fault};
use std::alloc::{AllocError, Global};
use std::fmt::Write;
use std::sync::Wait;
use std::thread::Threads;

/// These bytes, the given number of spaces, and a byte that no text may have.
fn with_bad_byte(alloc: Global, front: &[u8], spaces: u32) -> Result<Vec<u8>, AllocError> {
    let mut text = front.to_vec(alloc)?;
    for _ in 0..spaces {
        text.push(b' ')?;
    }
    text.push(0x80)?;
    Ok(text)
}

/// Whether a bad byte after the given number of spaces is refused at its place, with cuts before
/// and after it.
fn is_bad_byte_refused<R: Threads + Wait + Sync>(
    rt: &R,
    alloc: Global,
    front: &[u8],
    spaces: u32,
    place: u32,
) -> Result<bool, AllocError> {
    let text = with_bad_byte(alloc, front, spaces)?;
    let cuts = vec![in alloc; place, place.saturating_add(1)]?;
    let (end, written) = run_on(rt, alloc, Cutting::Places(cuts), &text);
    let line = format!(in alloc; "refused 1:{} E01\n", place.saturating_add(1))?;
    let fault = Fault {
        at: place,
        code: Code::BadByte,
    };
    Ok(end == Some(RunEnd::Refused(fault)) && written.as_slice() == line.as_bytes())
}

/// Up to so many spaces, less one, stand before a bad byte. They are more than two blocks of 64
/// bytes, so the bad byte is at each place of a block.
const MOST_SPACES: u32 = 130;

#[test]
fn a_bad_byte_after_spaces(rt: HostRuntime) -> Result<(), AllocError> {
    for spaces in 0..MOST_SPACES {
        let is_right = is_bad_byte_refused(&rt, rt.alloc(), b"", spaces, spaces)?
            && is_bad_byte_refused(&rt, rt.alloc(), b"$( ", spaces, spaces + 3)?;
        assert!(&rt; is_right, "{spaces} spaces");
    }
    Ok(())
}

/// A theorem with a hypothesis, in line 8, up to the letters of its proof.
const LETTERS: &[u8] =
    b"${ min $e |- p $. maj $e |- ( p -> q ) $. ax-mp $a |- q $. $}\n${ h $e |- p $. a1i $p |- ( q -> p ) $= ( wi ax-1 ax-mp ) ";

/// That theorem with a thousand letters `U` in its proof, and these after them.
fn thousand_letters(alloc: Global, end: &[u8]) -> Result<Vec<u8>, AllocError> {
    let mut text = BEGINNING.to_vec(alloc)?;
    text.extend_from_slice(LETTERS)?;
    for _ in 0..1000 {
        text.push(b'U')?;
    }
    text.extend_from_slice(end)?;
    Ok(text)
}

#[test]
fn a_number_of_a_thousand_letters(rt: HostRuntime) -> Result<(), AllocError> {
    let rows: [(&[u8], &[u8]); 2] = [
        (b"A $. $}\n", b"refused 8:59 E45\n"),
        (b" $. $}\n", b"refused 8:1060 E43\n"),
    ];
    for (end, output) in rows {
        let text = thousand_letters(rt.alloc(), end)?;
        let (_, written) = run_on(&rt, rt.alloc(), Cutting::Count(PIECES), &text);
        assert!(&rt; written.as_slice() == output);
    }
    Ok(())
}

/// A proof in which each formula is twice as long as the one before it. The next one would be too
/// long.
const DOUBLING: &[u8] =
    b"big $p wff p $= ( wi ) AABZCBZDBZEBZFBZGBZHBZIBZJBZKBZLBZMBZNBZOBZPBZQBZRBZSBZ";

#[test]
fn the_nineteenth_doubling_is_too_long(rt: HostRuntime) -> Result<(), AllocError> {
    let alloc = rt.alloc();
    let mut text = BEGINNING.to_vec(alloc)?;
    text.extend_from_slice(DOUBLING)?;
    for _ in 0..100 {
        text.extend_from_slice(b"TBZ")?;
    }
    text.extend_from_slice(b" $.\n")?;
    let (_, written) = run_on(&rt, alloc, Cutting::Count(PIECES), &text);
    assert!(&rt; written.as_slice() == b"refused 7:80 E39\n".as_slice());
    Ok(())
}

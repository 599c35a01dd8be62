//! The keys of the maps of names.

ghost use Rattle.std.specs.Prelude.{◌<◌};

use mm_database::text_keyed::TextKeyed;
use mm_outline::parts::{Kind, Outline};
use mm_spec::Word;
use sha2::{Digest, Sha512};
use std::alloc::{AllocError, Allocator};
use std::thread::{self, Threads};

/// Feeds the bytes of a text from `from` up to `to`.
fn feed(state: &mut Sha512, text: &[u8], from: usize, to: usize) {
    if let Some(bytes) = text.get(from..to) {
        state.update(bytes);
    }
}

/// The number of bytes that a list has at least if its words are kept in a map: more than 16 words,
/// each with a byte after it (`MAX_WORDS_COMPARED`). Most `$d` are shorter.
const MIN_LIST_BYTES: usize = 34;

/// Feeds the names that a statement can bring: its label, with what stands between that and the
/// keyword, or the list of a `$c` or `$v`, or a long one of a `$d`.
fn feed_names(state: &mut Sha512, text: &[u8], tokens: &[Word], outline: Outline) {
    let (Some(keyword), Some(end)) = (
        tokens.get(outline.keyword as usize),
        tokens.get(outline.end as usize),
    ) else {
        return;
    };
    let (start, end) = (keyword.start as usize, end.start as usize);
    match outline.kind {
        Kind::Floating | Kind::Essential | Kind::Axiom | Kind::Theorem => {
            if outline.keyword > 0 {
                if let Some(label) = tokens.get(outline.keyword as usize - 1) {
                    feed(state, text, label.start as usize, start);
                }
            }
        }
        Kind::Constants | Kind::Variables => feed(state, text, start, end),
        Kind::Disjoint => {
            if end >= start && end - start >= MIN_LIST_BYTES {
                feed(state, text, start, end);
            }
        }
        Kind::Open | Kind::Close => {}
    }
}

/// Returns the SHA-512 of the names that these statements can bring.
fn digest_of(text: &[u8], tokens: &[Word], outlines: &[Outline]) -> [u8; 64] {
    let mut state = Sha512::new();
    for outline in outlines {
        feed_names(&mut state, text, tokens, *outline);
    }
    state.finalize()
}

/// Returns the two keys: the first bytes of the SHA-512 of these digests.
fn keys_from<A: Allocator>(digests: &Vec<[u8; 64], A>) -> TextKeyed {
    let mut state = Sha512::new();
    for digest in digests {
        state.update(digest.as_slice());
    }
    let digest = state.finalize();
    let keys = match digest.first_chunk::<16>() {
        Some(bytes) => u128::from_le_bytes(*bytes),
        None => 0,
    };
    TextKeyed {
        key0: (keys & 0xFFFF_FFFF_FFFF_FFFF) as u64,
        key1: (keys >> 64) as u64,
    }
}

/// Returns the keys of a text's maps of names: by the SHA-512 of the labels of the text, each with
/// what stands between it and its keyword, and of the lists of `$c` and `$v` and the long ones of
/// `$d`. These have all words that a map of names can get. So whoever chooses the names chooses the
/// keys with them, and can't choose names by what these keys make of them. SHA-512 takes fewer
/// steps for a byte than SHA-256 where a word of the machine has 64 bits.
pub fn keys_of<A: Allocator + Copy>(
    alloc: A,
    text: &[u8],
    tokens: &[Word],
    outlines: &[Outline],
) -> Result<TextKeyed, AllocError> {
    let mut digests = Vec::new(alloc);
    digests.push(digest_of(text, tokens, outlines))?;
    Ok(keys_from(&digests))
}

/// Returns keys as [`keys_of`] does, by the digests of as many stretches as there are workers, each
/// made by a thread. They differ with the number of workers, which changes no answer.
pub fn keys_in_stretches<R: Threads + Sync, A: Allocator + Copy + Send + Sync>(
    rt: &R,
    alloc: A,
    text: &[u8],
    tokens: &[Word],
    outlines: &[Outline],
    workers: u32,
) -> Result<TextKeyed, AllocError>
    requires { 0 < workers }
{
    let size = outlines.len() / workers as usize + 1;
    let digests = thread::map_chunks(
        rt,
        alloc,
        outlines,
        size,
        &|_, stretch: &[Outline]| { digest_of(text, tokens, stretch) },
    )?;
    Ok(keys_from(&digests))
}

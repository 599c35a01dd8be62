//! How fast a text is read as tokens: `lexing FILE PIECES` writes the number of bytes, of tokens
//! that `lex` finds, and of words that a simple loop over the bytes keeps; then the nanoseconds of
//! the loop and of `lex`. The text is read in PIECES equal pieces. `lex` isn't called if PIECES is
//! 0, and the loop runs only if it is 1. Without arguments the program does nothing. `bench/lexing`
//! runs it. It isn't part of `mmdepend`, and promises nothing.
#![tactic(auto)]

use anyhow::Result;
use mm_lex::{Cuts, Word, lex};
use std::alloc::{AllocError, Global};
use std::thread::Threads;
use std::time::{Duration, Instant};
use std::{env, fs};

fn is_white(b: u8) -> bool {
    matches!(b, b'\t' | b'\n' | 0x0C | b'\r' | b' ')
}

/// The words of a text, found byte by byte; no words if the text is longer than `lex` reads.
fn words(alloc: Global, text: &[u8]) -> Result<Vec<Word>, AllocError> {
    let mut words = Vec::new(alloc);
    if text.len() > 0x7FFF_FFFF {
        return Ok(words);
    }
    let mut start = None;
    for (i, b) in text.iter().enumerate() {
        match (start, is_white(*b)) {
            (None, false) => start = Some(i as u32),
            (Some(from), true) => {
                words.push(Word {
                    start: from,
                    end: i as u32,
                })?;
                start = None;
            }
            _ => {}
        }
    }
    Ok(words)
}

/// The number of tokens of a text that is read in the given number of pieces.
fn tokens<R: Threads + Sync>(
    rt: &R,
    alloc: Global,
    text: &[u8],
    pieces: u32,
) -> Result<usize, AllocError> {
    // `Cuts::equal` cuts at most 2,147,483,648 bytes, into 1 to 65,536 pieces.
    let cuts = Cuts::equal(alloc, text.len().min(2_147_483_648), pieces.clamp(1, 65536))?;
    Ok(lex(rt, alloc, text, &cuts)?.tokens.len())
}

fn nanoseconds(time: Option<Duration>) -> u128 {
    time.map_or(0, |time| time.as_nanos())
}

fn main(rt: HostRuntime) -> Result<()> {
    let alloc = rt.alloc();
    let given = env::args(&rt)?.collect::<Vec<String>>(alloc)?;
    let (Some(name), Some(pieces)) = (given.as_slice().get(1), given.as_slice().get(2)) else {
        return Ok(());
    };
    let pieces = pieces.parse::<u32>().unwrap_or(1);
    let text = fs::read(&rt, name.as_str())?;
    let begun = Instant::now(&rt)?;
    let word_count = if pieces == 1 {
        words(alloc, &text)?.len()
    } else {
        0
    };
    let between = Instant::now(&rt)?;
    let token_count = if pieces == 0 {
        0
    } else {
        tokens(&rt, alloc, &text, pieces)?
    };
    let ended = Instant::now(&rt)?;
    let loop_time = nanoseconds(between.checked_duration_since(begun));
    let lex_time = nanoseconds(ended.checked_duration_since(between));
    println!(rt;
        "{} {token_count} {word_count} {loop_time} {lex_time}",
        text.len()
    )?;
    Ok(())
}

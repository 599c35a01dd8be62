//! The words, tokens and comments of a Metamath text. This layer knows bytes and where a text is
//! cut. It promises the tokens before the first lexical fault, as places in the text, and that
//! fault (`Rattle.mm_spec.specs.Lexed`), the same for every way of cutting.
#![tactic(auto)]

ghost use Rattle.std.specs.Prelude.{◌≡◌, ◌<◌, ◌≤◌, ◌+◌, ℕ, List, length, IfOk, is_some};
ghost use Rattle.mm_spec.specs.Lexed.{fault_in, lexical_fault, tokens_of};

mod batches;
mod cuts;
mod ends;
mod masks;
mod modes;
mod pieces;
mod roles;
mod scanner;

use crate::batches::read_text;
use crate::pieces::lex_piece_with_capacity;
pub use cuts::{Cuts, CutsFault};
use mm_spec::TEXT_LIMIT;
pub use mm_spec::{Code, Fault, Lexed, Word};
pub use pieces::{Piece, join, lex_piece};
use std::alloc::{AllocError, Allocator};
use std::thread::Threads;

/// For how many bytes of a text `lex_alone` reserves memory for one token at first. Memory that is
/// reserved and not used is not given back, and most texts, which have comments, have fewer tokens.
const BYTES_PER_TOKEN: usize = 8;

/// The result for a text that is longer than the limit.
fn lexed_too_long<A: Allocator>(alloc: A) -> Lexed<A>
    ensures tokens_are { (text : List ℕ) → TEXT_LIMIT < length text
        → result.tokens.items ≡ tokens_of text }
    ensures fault_is { (text : List ℕ) → TEXT_LIMIT < length text
        → result.fault ≡ lexical_fault text }
{
    Lexed {
        tokens: Vec::new(alloc),
        fault: Some(Fault {
            at: 0,
            code: Code::TextTooLong,
        }),
    }
}

/// The tokens and the first lexical fault of a text (Metamath book, "Preliminaries" and
/// "Preprocessing"). The cuts must be made for the text's length if that is within the limit; they
/// don't change the result. Fails only if out of memory.
pub fn lex<R: Threads + Sync, A: Allocator + Copy + Send + Sync>(
    rt: &R,
    alloc: A,
    text: &[u8],
    cuts: &Cuts<A>,
) -> Result<Lexed<A>, AllocError>
    requires cuts_fit_text { length text.now ≤ TEXT_LIMIT → cuts.now.len ≡ length text.now }
    ensures tokens_are { IfOk result (λ lexed. lexed.tokens.items ≡ tokens_of text.now) }
    ensures fault_is { IfOk result (λ lexed. lexed.fault ≡ lexical_fault text.now) }
{
    if text.len() > TEXT_LIMIT {
        return Ok(lexed_too_long(alloc));
    }
    let whole = read_text(rt, alloc, text, cuts.places())?;
    Ok(whole.into_lexed())
}

/// Splits a text into tokens, as [`lex`] does, on the calling thread alone, which reads the text as
/// one piece. Fails only if out of memory.
pub fn lex_alone<A: Allocator + Copy>(alloc: A, text: &[u8]) -> Result<Lexed<A>, AllocError>
    ensures tokens_are { IfOk result (λ lexed. lexed.tokens.items ≡ tokens_of text.now) }
    ensures fault_is { IfOk result (λ lexed. lexed.fault ≡ lexical_fault text.now) }
{
    if text.len() > TEXT_LIMIT {
        return Ok(lexed_too_long(alloc));
    }
    let capacity = text.len() / BYTES_PER_TOKEN + 1;
    let whole = lex_piece_with_capacity(alloc, text, 0, text.len(), capacity)?;
    Ok(whole.into_lexed())
}

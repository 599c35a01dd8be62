//! Where the statements of a text are, found by several threads. Each goes over a stretch of the
//! tokens. It begins behind the first `$.` there, where a statement can begin. It doesn't know how
//! many blocks are open at that place. That matters for a `$}` alone, so it reads as if enough
//! blocks were open, and counts those that are closed in its stretch and were opened before it.
//! Then the stretches are put together in their order. One is taken if it begins where the
//! statements before it end, and if no more blocks are closed in it than are open there. What
//! follows the last statement that was taken is read as by one thread.

ghost use Rattle.std.specs.Prelude.{◌≡◌, ◌<◌, ◌≤◌, ◌+◌, ◌^◌, IfOk, IfSome, length};
ghost use Rattle.std.specs.List.{All, AllPairs};
ghost use Rattle.mm_outline.specs.Tokens.{AreTokens};
ghost use Rattle.mm_scope.specs.Outlines.{AreOutlinesBefore, AreOutlinesFrom};
ghost use Rattle.mm_scope.specs.Stretches.{IsStretch, blocks_with};

use crate::outlines::{OutlinesBefore, Rest, outlines_onward};
use mm_outline::parts::{Kind, NextStatement, Outline, next_statement};
use mm_spec::Word;
use mm_stretches::Stretches;
use std::alloc::{AllocError, Allocator};
use std::thread::{self, Threads};

/// The maximum number of stretches: as many as there can be workers.
const MAX_STRETCHES: u32 = 64;

/// What the statements of a stretch do to blocks.
#[derive(Clone, Copy)]
pub(crate) struct StretchBlocks {
    /// How many blocks are open before the stretch and closed in it.
    closed: u32,
    /// How many blocks are opened in it and still open behind it.
    opened: u32,
}

/// The statements that were found in a stretch of the tokens, one after the other.
#[derive(Drop)]
pub(crate) struct StretchOutlines<A: Allocator> {
    outlines: Vec<Outline, A>,
    blocks: StretchBlocks,
    /// The token at which the first statement begins.
    from: u32,
    /// The token behind the last statement.
    to: u32,
}

/// What the statements of a stretch do to blocks, with one more of this kind.
fn blocks_with(blocks: StretchBlocks, kind: Kind) -> StretchBlocks
    requires few_closed { blocks.closed < 2 ^ 31 }
    requires few_opened { blocks.opened < 2 ^ 31 }
    ensures { result ≡ blocks_with blocks kind }
{
    let StretchBlocks { closed, opened } = blocks;
    match kind {
        Kind::Open => StretchBlocks {
            closed,
            opened: opened + 1,
        },
        Kind::Close => {
            if opened == 0 {
                StretchBlocks {
                    closed: closed + 1,
                    opened: 0,
                }
            } else {
                StretchBlocks {
                    closed,
                    opened: opened - 1,
                }
            }
        }
        _ => blocks,
    }
}

/// Whether a statement of this kind ends with a `$.`.
fn ends_with_dot(kind: Kind) -> bool {
    !matches!(kind, Kind::Open | Kind::Close)
}

/// The token behind the first `$.` in a stretch of the tokens, if there is one.
fn behind_first_dot(text: &[u8], tokens: &[Word], first: u32, end: u32) -> Option<u32>
    requires are_tokens { AreTokens text.now tokens.now }
    requires end_le_count { end ≤ length tokens.now }
    ensures { IfSome result (λ index. index ≤ length tokens.now) }
{
    for token_index in first..end {
        let token = tokens[token_index as usize];
        if token.bytes(text) == b"$.".as_slice() {
            return Some(token_index + 1);
        }
    }
    None
}

/// Finds statements from the token `from` on, up to the first `$.` at or behind the token `end`,
/// where the next stretch begins.
fn outlines_from<A: Allocator + Copy>(
    alloc: A,
    text: &[u8],
    tokens: &[Word],
    from: u32,
    end: u32,
) -> Result<StretchOutlines<A>, AllocError>
    requires are_tokens { AreTokens text.now tokens.now }
    requires tokens_rise { AllPairs (λ v w. v.end ≤ w.start) tokens.now }
    requires few_tokens { length tokens.now < 2 ^ 31 }
    requires from_le_count { from ≤ length tokens.now }
    ensures { IfOk result (IsStretch text.now tokens.now) }
{
    let mut outlines = Vec::new(alloc);
    let mut blocks = StretchBlocks {
        closed: 0,
        opened: 0,
    };
    let mut to = from;
    'statements: while let NextStatement::Whole(outline) = next_statement(
        text,
        tokens,
        blocks.opened + 1,
        to,
    ) {
        outlines.push(outline)?;
        blocks = blocks_with(blocks, outline.kind);
        to = outline.end + 1;
        if outline.end >= end && ends_with_dot(outline.kind) {
            break;
        }
    }
    Ok(StretchOutlines {
        outlines,
        blocks,
        from,
        to,
    })
}

/// Finds the statements of the stretch with this index. The first one begins at the first token.
fn outlines_at<A: Allocator + Copy>(
    alloc: A,
    text: &[u8],
    tokens: &[Word],
    stretches: &Stretches,
    index: u32,
) -> Result<StretchOutlines<A>, AllocError>
    requires are_tokens { AreTokens text.now tokens.now }
    requires tokens_rise { AllPairs (λ v w. v.end ≤ w.start) tokens.now }
    requires few_tokens { length tokens.now < 2 ^ 31 }
    requires all_are_cut { stretches.now.count ≡ length tokens.now }
    ensures { IfOk result (IsStretch text.now tokens.now) }
{
    let (first, end) = stretches.range(index);
    if index == 0 {
        return outlines_from(alloc, text, tokens, 0, end);
    }
    match behind_first_dot(text, tokens, first, end) {
        Some(from) => outlines_from(alloc, text, tokens, from, end),
        None => Ok(no_outlines(alloc, text, tokens, end)),
    }
}

/// No statements, at this token.
fn no_outlines<A: Allocator>(
    alloc: A,
    _text: &[u8],
    _tokens: &[Word],
    token_index: u32,
) -> StretchOutlines<A>
    requires { token_index ≤ length _tokens.now }
    ensures { IsStretch _text.now _tokens.now result }
{
    StretchOutlines {
        outlines: Vec::new(alloc),
        blocks: StretchBlocks {
            closed: 0,
            opened: 0,
        },
        from: token_index,
        to: token_index,
    }
}

/// Finds the statements of each stretch, in order. They are found in parallel.
fn outlines_by_stretch<R: Threads + Sync, A: Allocator + Copy + Send + Sync>(
    rt: &R,
    alloc: A,
    text: &[u8],
    tokens: &[Word],
    stretches: &Stretches,
) -> Result<Vec<Result<StretchOutlines<A>, AllocError>, A>, AllocError>
    requires are_tokens { AreTokens text.now tokens.now }
    requires tokens_rise { AllPairs (λ v w. v.end ≤ w.start) tokens.now }
    requires few_tokens { length tokens.now < 2 ^ 31 }
    requires all_are_cut { stretches.now.count ≡ length tokens.now }
    ensures { IfOk result (λ v. All (λ r. IfOk r (IsStretch text.now tokens.now)) v.items) }
{
    thread::map_indices(
        rt,
        alloc,
        stretches.len() as usize,
        &|index| { outlines_at(alloc, text, tokens, stretches, index as u32) },
    )
}

/// Appends the statements of a stretch if it begins where those before it end, and if no more
/// blocks are closed in it than are open there. Otherwise nothing is appended.
fn with_stretch<A: Allocator>(
    _text: &[u8],
    _tokens: &[Word],
    before: OutlinesBefore<A>,
    stretch: StretchOutlines<A>,
) -> Result<OutlinesBefore<A>, AllocError>
    requires few_tokens { length _tokens.now < 2 ^ 31 }
    requires are_before { AreOutlinesBefore _text.now _tokens.now before }
    requires is_stretch { IsStretch _text.now _tokens.now stretch }
    ensures { IfOk result (AreOutlinesBefore _text.now _tokens.now) }
{
    let mut both = before;
    let blocks = stretch.blocks;
    if stretch.from == both.token_index && blocks.closed <= both.depth {
        both.outlines.extend_from_slice(&stretch.outlines)?;
        both.depth = both.depth - blocks.closed + blocks.opened;
        both.token_index = stretch.to;
    }
    Ok(both)
}

/// Puts the statements of the stretches together, as far as they follow one on the other.
fn joined_outlines<A: Allocator + Copy>(
    alloc: A,
    text: &[u8],
    tokens: &[Word],
    found: Vec<Result<StretchOutlines<A>, AllocError>, A>,
) -> Result<OutlinesBefore<A>, AllocError>
    requires few_tokens { length tokens.now < 2 ^ 31 }
    requires are_stretches { All (λ r. IfOk r (IsStretch text.now tokens.now)) found.items }
    ensures { IfOk result (AreOutlinesBefore text.now tokens.now) }
{
    let mut unjoined = found;
    let mut joined = OutlinesBefore {
        outlines: Vec::new(alloc),
        depth: 0,
        token_index: 0,
    };
    'joining: while !unjoined.is_empty() {
        let next = unjoined.remove(0)?;
        joined = with_stretch(text, tokens, joined, next)?;
    }
    Ok(joined)
}

/// The same as [`outlines_of`](crate::outlines::outlines_of), but a thread for each worker goes
/// over a stretch of the tokens.
pub fn outlines_in_stretches<R: Threads + Sync, A: Allocator + Copy + Send + Sync>(
    rt: &R,
    alloc: A,
    text: &[u8],
    tokens: &[Word],
    workers: u32,
) -> Result<(Vec<Outline, A>, Rest), AllocError>
    requires are_tokens { AreTokens text.now tokens.now }
    requires tokens_rise { AllPairs (λ v w. v.end ≤ w.start) tokens.now }
    requires few_tokens { length tokens.now < 2 ^ 31 }
    requires some_workers { 0 < workers }
    ensures { IfOk result (λ r. AreOutlinesFrom text.now tokens.now 0 0 r.0.items r.1) }
{
    let stretches = Stretches::new(tokens.len() as u32, workers.min(MAX_STRETCHES), 1);
    let found = outlines_by_stretch(rt, alloc, text, tokens, &stretches)?;
    let joined = joined_outlines(alloc, text, tokens, found)?;
    outlines_onward(text, tokens, joined)
}

//! A text read in batches of adjacent pieces, each batch on a thread.

ghost use Rattle.std.specs.Prelude.{◌≡◌, ◌<◌, ◌≤◌, ◌+◌, ℕ, length, vec_len, slice_index_or, IfOk};
ghost use Rattle.std.specs.Prelude.{Result};
ghost use Rattle.mm_lex.specs.Cuts.{cut_place, batch_start, IsBatch, IsBatchOf};
ghost use Rattle.mm_lex.specs.Pieces.{IsSummary, Stretch};
ghost use Rattle.mm_lex.specs.Places.{cut_text, IsCutText};

use crate::TEXT_LIMIT;
use crate::pieces::{Piece, join, lex_piece};
use std::alloc::{AllocError, Allocator};
use std::thread::{self, Threads};

/// The maximum number of batches into which the pieces of a text are grouped: as many as there can
/// be workers.
const MAX_BATCHES: usize = 64;

/// Where piece `index` begins, and the one before it ends.
fn cut_place(text: &[u8], places: &[u32], index: usize) -> usize
    ensures { result ≡ cut_place text.now places.now index }
{
    match index.checked_sub(1) {
        None => 0,
        Some(before) => places
            .get(before)
            .map_or(text.len(), |place| *place as usize),
    }
}

/// The first piece of batch `index`, if `count` pieces are grouped into `batch_count` batches, the
/// longer ones first.
fn batch_start(count: usize, batch_count: usize, index: usize) -> usize
    requires some_batches { 0 < batch_count }
    requires index_le_batches { index ≤ batch_count }
    ensures { result ≡ batch_start count batch_count index }
{
    index * (count / batch_count) + index.min(count % batch_count)
}

/// The summary of the pieces from `first` up to `after`, which are read and joined one by one.
fn read_batch<A: Allocator + Copy>(
    alloc: A,
    text: &[u8],
    places: &[u32],
    first: usize,
    after: usize,
) -> Result<Piece<A>, AllocError>
    requires text_fits_limit { length text.now ≤ TEXT_LIMIT }
    requires are_cuts { IsCutText (cut_text places.now (length text.now)) }
    requires first_lt_after { first < after }
    requires after_le_count { after ≤ length places.now + 1 }
    ensures { IfOk result (IsBatch text.now places.now first after) }
{
    let mut batch = lex_piece(
        alloc,
        text,
        cut_place(text, places, first),
        cut_place(text, places, first + 1),
    )?;
    for index in first + 1..after {
        let to = cut_place(text, places, index + 1);
        let next = lex_piece(alloc, text, batch.to() as usize, to)?;
        batch = join(alloc, text, batch, next)?;
    }
    Ok(batch)
}

/// The summary of batch `index` of `batch_count`.
fn batch_at<A: Allocator + Copy>(
    alloc: A,
    text: &[u8],
    places: &[u32],
    batch_count: usize,
    index: usize,
) -> Result<Piece<A>, AllocError>
    requires text_fits_limit { length text.now ≤ TEXT_LIMIT }
    requires are_cuts { IsCutText (cut_text places.now (length text.now)) }
    requires batches_le_pieces { batch_count ≤ length places.now + 1 }
    requires index_lt_batches { index < batch_count }
    ensures { IfOk result (IsBatchOf text.now places.now batch_count index) }
{
    let count = places.len() + 1;
    let first = batch_start(count, batch_count, index);
    let after = batch_start(count, batch_count, index + 1);
    read_batch(alloc, text, places, first, after)
}

/// The summaries of the batches, in order.
fn read_batches<R: Threads + Sync, A: Allocator + Copy + Send + Sync>(
    rt: &R,
    alloc: A,
    text: &[u8],
    places: &[u32],
    batch_count: usize,
) -> Result<Vec<Result<Piece<A>, AllocError>, A>, AllocError>
    requires text_fits_limit { length text.now ≤ TEXT_LIMIT }
    requires are_cuts { IsCutText (cut_text places.now (length text.now)) }
    requires some_batches { 0 < batch_count }
    requires batches_le_pieces { batch_count ≤ length places.now + 1 }
    ensures count_is_batches { IfOk result (λ batches. vec_len batches ≡ batch_count) }
    ensures each_is_batch { IfOk result
        (λ batches. (i : ℕ) (d : Result Stretch AllocError)
        → i < batch_count
        → IfOk (slice_index_or batches.items i d) (IsBatchOf text.now places.now batch_count i)) }
{
    thread::map_indices(
        rt,
        alloc,
        batch_count,
        &|index| { batch_at(alloc, text, places, batch_count, index) },
    )
}

/// The summary of a text that is cut at the given places.
pub fn read_text<R: Threads + Sync, A: Allocator + Copy + Send + Sync>(
    rt: &R,
    alloc: A,
    text: &[u8],
    places: &[u32],
) -> Result<Piece<A>, AllocError>
    requires text_fits_limit { length text.now ≤ TEXT_LIMIT }
    requires are_cuts { IsCutText (cut_text places.now (length text.now)) }
    ensures from_is { IfOk result (λ piece. piece.from ≡ 0) }
    ensures to_is { IfOk result (λ piece. piece.to ≡ length text.now) }
    ensures is_summary { IfOk result (IsSummary text.now) }
{
    let batch_count = (places.len() + 1).min(MAX_BATCHES);
    let mut batches = read_batches(rt, alloc, text, places, batch_count)?;
    let mut whole = batches.remove(0)?;
    'joining: while !batches.is_empty() {
        let batch = batches.remove(0)?;
        whole = join(alloc, text, whole, batch)?;
    }
    Ok(whole)
}

//! The frames of all assertions. The frame of an assertion needs the statements and what is found
//! of all of them before the first frame is made, but no other frame. So the statements are cut
//! into stretches, and the frames of several stretches are made side by side.

ghost use Rattle.std.specs.Prelude.{◌≡◌, ◌<◌, IfOk, length};
ghost use Rattle.std.specs.List.{AllZip, range_with_len};
ghost use Rattle.mm_database.specs.Frames.{frames_before};
ghost use Rattle.mm_database.specs.FrameTables.{AreFrameTables};
ghost use Rattle.mm_frame.specs.Sources.{AreSources};
ghost use Rattle.mm_frame.specs.Stretches.{AreStretchFrames};
ghost use Rattle.mm_stretches.specs.Stretches.{stretch_count};

use crate::active::latest_parts;
use crate::disjoint_index::disjoint_index_of;
use crate::frames::frames_between;
use crate::sources::FrameSources;
use mm_database::frames::{FrameTables, Frames};
use mm_database::statements::Statements;
use mm_stretches::Stretches;
use rayon::prelude::*;
use std::alloc::{AllocError, Allocator};
use std::thread::Threads;

/// Returns the frames of one stretch of the statements.
fn frames_of_stretch<A: Allocator + Copy>(
    alloc: A,
    sources: &FrameSources<A>,
    stretches: &Stretches,
    index: u32,
) -> Result<Frames<A>, AllocError>
    requires are_sources { AreSources sources.now }
    requires all_are_cut { stretches.now.count
        ≡ length sources.now.statements.now.list }
    ensures { IfOk result
        (AreStretchFrames sources.now.statements.now.list stretches.now.size index) }
{
    let (from, to) = stretches.range(index);
    frames_between(alloc, sources, from, to)
}

/// Returns the frames of each stretch of the statements, in order. They are made in parallel.
fn frames_by_stretch<R: Threads + Sync, A: Allocator + Copy + Send + Sync>(
    rt: &R,
    alloc: A,
    sources: &FrameSources<A>,
    stretches: &Stretches,
) -> Result<Vec<Result<Frames<A>, AllocError>, A>, AllocError>
    requires are_sources { AreSources sources.now }
    requires all_are_cut { stretches.now.count
        ≡ length sources.now.statements.now.list }
    ensures { IfOk result
        (λ v. AllZip
        (λ i r. IfOk r (AreStretchFrames sources.now.statements.now.list stretches.now.size i))
        (range_with_len 0 (stretch_count stretches.now.size stretches.now.count)) v.items) }
{
    (0..stretches.len())
        .into_par_iter()
        .map(
            |index: u32| -> Result<Frames<A>, AllocError>
                requires are_sources { AreSources sources.now }
                requires all_are_cut { stretches.now.count
                    ≡ length sources.now.statements.now.list }
                ensures { IfOk result
                    (AreStretchFrames sources.entry.now.statements.now.list stretches.entry.now.size
                    index) }
            { frames_of_stretch(alloc, sources, stretches, index) },
        )
        .with_min_len(1)
        .collect(rt, alloc)
}

/// Puts the frames of the stretches one behind the other.
fn joined_frames<A: Allocator + Copy>(
    alloc: A,
    statements: &Statements<A>,
    stretches: &Stretches,
    made: Vec<Result<Frames<A>, AllocError>, A>,
) -> Result<Frames<A>, AllocError>
    requires all_are_cut { stretches.now.count ≡ length statements.now.list }
    requires are_stretches { AllZip
        (λ i r. IfOk r (AreStretchFrames statements.now.list stretches.now.size i))
        (range_with_len 0 (stretch_count stretches.now.size stretches.now.count)) made.items }
    ensures { IfOk result
        (λ f. f ≡ frames_before statements.now.list (length statements.now.list)) }
{
    let mut unjoined = made;
    let mut frames = Frames::none(alloc, statements.len() as usize);
    'joining: while !unjoined.is_empty() {
        let next = unjoined.remove(0)?;
        frames = frames.joined(next)?;
    }
    Ok(frames)
}

/// Returns the frames of all assertions, made in these stretches of the statements.
fn frames_in_stretches<R: Threads + Sync, A: Allocator + Copy + Send + Sync>(
    rt: &R,
    alloc: A,
    sources: &FrameSources<A>,
    stretches: &Stretches,
) -> Result<Frames<A>, AllocError>
    requires are_sources { AreSources sources.now }
    requires all_are_cut { stretches.now.count
        ≡ length sources.now.statements.now.list }
    ensures { IfOk result
        (λ f. f
        ≡ frames_before sources.now.statements.now.list
        (length sources.now.statements.now.list)) }
{
    let made = frames_by_stretch(rt, alloc, sources, stretches)?;
    joined_frames(alloc, sources.statements, stretches, made)
}

/// Returns the frames of lawful statements, and the index of their `$d`. The frames are made in a
/// stretch of the statements for each worker, side by side.
pub fn frame_tables_of<R: Threads + Sync, A: Allocator + Copy + Send + Sync>(
    rt: &R,
    alloc: A,
    statements: &Statements<A>,
    workers: u32,
) -> Result<FrameTables<A>, AllocError>
    requires { 0 < workers }
    ensures { IfOk result
        (λ b. AreFrameTables statements.now.list statements.now.blocks b) }
{
    let disjoint_index = disjoint_index_of(alloc, statements)?;
    let essentials = latest_parts(alloc, statements, true)?;
    let frame_parts = latest_parts(alloc, statements, false)?;
    let sources = FrameSources {
        statements,
        essentials: &essentials,
        frame_parts: &frame_parts,
        disjoint_index: &disjoint_index,
    };
    // The frames of a stretch begin with lists of all symbols.
    let stretches = Stretches::new(statements.len(), workers, statements.symbol_count());
    let frames = frames_in_stretches(rt, alloc, &sources, &stretches)?;
    Ok(FrameTables {
        disjoint_index,
        frames,
    })
}

/// The same as [`frame_tables_of`], in one stretch, on the calling thread.
pub fn frame_tables_alone<A: Allocator + Copy>(
    alloc: A,
    statements: &Statements<A>,
) -> Result<FrameTables<A>, AllocError>
    ensures { IfOk result
        (λ b. AreFrameTables statements.now.list statements.now.blocks b) }
{
    let disjoint_index = disjoint_index_of(alloc, statements)?;
    let essentials = latest_parts(alloc, statements, true)?;
    let frame_parts = latest_parts(alloc, statements, false)?;
    let sources = FrameSources {
        statements,
        essentials: &essentials,
        frame_parts: &frame_parts,
        disjoint_index: &disjoint_index,
    };
    let frames = frames_between(alloc, &sources, 0, statements.len())?;
    Ok(FrameTables {
        disjoint_index,
        frames,
    })
}

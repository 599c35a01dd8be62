//! The rules of stretches of a database's statements, compiled side by side. A rule needs the
//! database, and no other rule.

ghost use Rattle.std.specs.Prelude.{◌≡◌, ◌<◌, All, IfOk, length};
ghost use Rattle.mm_spec.specs.Laws.Complete.{AreComplete};
ghost use Rattle.mm_rules.specs.Rules.{AreRules};

use crate::rules::{Rules, element_limit};
use mm_database::Database;
use mm_stretches::Stretches;
use rayon::prelude::*;
use std::alloc::{AllocError, Allocator};
use std::thread::Threads;

/// The greatest number of stretches. Each may hold its share of what all rules together may have.
const MAX_STRETCHES: u32 = 8;

/// Returns the rules of one stretch of the statements, which hold at most `limit` elements, or
/// those of one rule more.
fn rules_of_stretch<A: Allocator + Copy>(
    alloc: A,
    database: &Database<A>,
    stretches: &Stretches,
    limit: usize,
    index: u32,
) -> Result<Rules<A>, AllocError>
    requires are_complete { AreComplete database.now.statements }
    requires all_are_cut { stretches.now.count ≡ length database.now.statements }
    ensures { IfOk result (AreRules database.now.statements) }
{
    let (from, to) = stretches.range(index);
    Rules::of_stretch(alloc, database, from, to, limit)
}

/// Returns the rules of each stretch of the statements, in order. They are compiled in parallel.
fn rules_by_stretch<R: Threads + Sync, A: Allocator + Copy + Send + Sync>(
    rt: &R,
    alloc: A,
    database: &Database<A>,
    stretches: &Stretches,
    limit: usize,
) -> Result<Vec<Result<Rules<A>, AllocError>, A>, AllocError>
    requires are_complete { AreComplete database.now.statements }
    requires all_are_cut { stretches.now.count ≡ length database.now.statements }
    ensures { IfOk result
        (λ v. All (λ r. IfOk r (AreRules database.now.statements)) v.items) }
{
    (0..stretches.len())
        .into_par_iter()
        .map(
            |index: u32| -> Result<Rules<A>, AllocError>
                requires are_complete { AreComplete database.now.statements }
                requires all_are_cut { stretches.now.count ≡ length database.now.statements }
                ensures { IfOk result (AreRules database.entry.now.statements) }
            { rules_of_stretch(alloc, database, stretches, limit, index) },
        )
        .with_min_len(1)
        .collect(rt, alloc)
}

/// Puts the rules of the stretches together.
fn joined_rules<A: Allocator + Copy>(
    alloc: A,
    database: &Database<A>,
    made: Vec<Result<Rules<A>, AllocError>, A>,
) -> Result<Rules<A>, AllocError>
    requires { All (λ r. IfOk r (AreRules database.now.statements)) made.items }
    ensures { IfOk result (AreRules database.now.statements) }
{
    let mut rules = Rules::with_room_for(alloc, database, &made)?;
    let mut unjoined = made;
    'joining: while !unjoined.is_empty() {
        let next = unjoined.remove(0)?;
        rules.append(database, next)?;
    }
    Ok(rules)
}

/// Returns the rules of the assertions of a database, compiled in a stretch of its statements for
/// each worker, side by side. With one worker it is the same as [`Rules::new`]. Fails only if out
/// of memory.
pub fn rules_of<R: Threads + Sync, A: Allocator + Copy + Send + Sync>(
    rt: &R,
    alloc: A,
    database: &Database<A>,
    workers: u32,
) -> Result<Rules<A>, AllocError>
    requires { 0 < workers }
    ensures { IfOk result (AreRules database.now.statements) }
{
    if workers == 1 {
        return Rules::new(alloc, database);
    }
    // A compiler begins with a list of all symbols.
    let stretches = Stretches::new(
        database.len(),
        workers.min(MAX_STRETCHES),
        database.symbol_count(),
    );
    let limit = element_limit(database) / stretches.len() as usize;
    let made = rules_by_stretch(rt, alloc, database, &stretches, limit)?;
    joined_rules(alloc, database, made)
}

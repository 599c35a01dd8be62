//! A text that is in memory judged on the calling thread alone.

ghost use Rattle.std.specs.Prelude.{◌≤◌, IfOk, length};
ghost use Rattle.mm_spec.specs.Ends.{reading_limit};
ghost use Rattle.mm_run.specs.Judging.{IsJudgedText};

use crate::judged_text::{JudgedText, judged_text};
use mm_lex::lex_alone;
use mm_stmt::read_alone;
use mm_work::check_alone;
use std::alloc::{AllocError, Allocator};

/// Reads a text and checks all its proofs on the calling thread alone. What its theorems cite is
/// found by the essential nodes of proofs only, if `essential`; open theorems count as axioms, if
/// `with_open`. Fails only if out of memory.
pub fn judge_alone<'a, A: Allocator + Copy>(
    alloc: A,
    text: &'a [u8],
    essential: bool,
    with_open: bool,
) -> Result<JudgedText<'a, A>, AllocError>
    requires length_le_limit { length text.now ≤ reading_limit }
    ensures { IfOk result (IsJudgedText text.now essential with_open) }
{
    let lexed = lex_alone(alloc, text)?;
    let database = read_alone(alloc, text, lexed, with_open)?;
    let judged = check_alone(alloc, &database, essential)?;
    Ok(judged_text(database, judged))
}

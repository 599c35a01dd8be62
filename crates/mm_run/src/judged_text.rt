//! What judging a text comes to.

ghost use Rattle.std.specs.Prelude.{Bool, List, ℕ};
ghost use Rattle.mm_work.specs.Judged.{IsJudgement};
ghost use Rattle.mm_run.specs.Judging.{IsJudgedText, IsReadFrom};

use mm_database::Database;
use mm_spec::Fault;
use mm_work::{Citations, Judged};
use std::alloc::Allocator;

/// What judging a text comes to: its reading and the checking of all its proofs.
#[derive(Drop)]
pub enum JudgedText<'a, A: Allocator> {
    /// The first faulty statement of the text has this fault.
    Faulty(Fault),
    /// The text has no fault. This is its database, and what its theorems cite.
    Sound(Database<'a, A>, Citations<A>),
}

/// What judging a text comes to, given its database and what checking all proofs found. The fault
/// of a proof is the first of the text, since reading stops at a fault: all proofs are before it.
pub(crate) fn judged_text<'a, A: Allocator>(
    database: Database<'a, A>,
    judged: Judged<A>,
) -> JudgedText<'a, A>
    ensures { (text : List ℕ) → (essential with_open : Bool)
        → IsReadFrom text with_open database.entry
        → IsJudgement database.entry.statements essential judged
        → IsJudgedText text essential with_open result }
{
    match judged {
        Judged::Faulty(fault) => JudgedText::Faulty(fault),
        Judged::Valid(citations) => match database.fault() {
            Some(fault) => JudgedText::Faulty(fault),
            None => JudgedText::Sound(database, citations),
        },
    }
}

//! Where the head of a stretch ends and its tail begins. Whole blocks of 64 bytes without white
//! space are skipped.

ghost use Rattle.std.specs.Prelude.{◌≡◌, ◌<◌, ◌≤◌, ◌+◌, true, ℕ, length, MatchOption};
ghost use Rattle.mm_lex.specs.Stretches.{NoWhite, IsBroken, IsUnbroken};
ghost use Rattle.mm_spec.specs.Words.{white_at};

use crate::scanner::classes_of;
use mm_bytes::is_white;

/// The place of the first white-space byte from `from` on, or `to` if there is none before it.
#[tactic(auto, unfolding(mm_spec::specs::Words::white_at))]
fn first_white(text: &[u8], from: usize, to: usize) -> usize
    requires from_le_to { from ≤ to }
    requires to_le_length { to ≤ length text.now }
    ensures from_le_place { from ≤ result }
    ensures place_le_to { result ≤ to }
    ensures no_white { NoWhite text.now from result }
    ensures ends_at_white { result < to → white_at text.now result ≡ true }
{
    let mut place = from;
    while 64 <= to - place && classes_of(&text[place..]).white == 0 {
        place += 64;
    }
    while place < to && !is_white(text[place]) {
        place += 1;
    }
    place
}

/// The place after the last white-space byte before `to`, or `from` if there is none from there on.
#[tactic(auto, unfolding(mm_spec::specs::Words::white_at))]
fn after_white(text: &[u8], from: usize, to: usize) -> usize
    requires from_le_to { from ≤ to }
    requires to_le_length { to ≤ length text.now }
    ensures from_le_place { from ≤ result }
    ensures place_le_to { result ≤ to }
    ensures no_white { NoWhite text.now result to }
    ensures begins_after_white { (i : ℕ) → i + 1 ≡ result → from ≤ i → white_at text.now i ≡ true }
{
    let mut place = to;
    while 64 <= place - from && classes_of(&text[place - 64..]).white == 0 {
        place -= 64;
    }
    while place > from && !is_white(text[place - 1]) {
        place -= 1;
    }
    place
}

/// The places between which the words of a stretch are known: the end of its head and the beginning
/// of its tail. `None` if the stretch is unbroken.
pub fn head_and_tail(text: &[u8], from: usize, to: usize) -> Option<(usize, usize)>
    requires from_le_to { from ≤ to }
    requires to_le_length { to ≤ length text.now }
    ensures { MatchOption result (IsUnbroken text.now from to)
        (λ b. IsBroken text.now from to b.0 b.1) }
{
    let head = if from == 0 {
        0
    } else {
        first_white(text, from, to)
    };
    if from > 0 && to < text.len() && head == to {
        return None;
    }
    let tail = if to == text.len() {
        to
    } else {
        after_white(text, from, to)
    };
    Some((head, tail))
}

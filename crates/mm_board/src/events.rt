//! The rule of the board, and the kinds of step that touch a word or a view.
use crate::views::View;
use atomic_table::{Join, Play, Split, TableRule};

/// The rule of the three words and the views of all seats. The table's key is the count of the
/// board's numbers.
pub struct RuledTable;

impl TableRule<(), View, u32> for RuledTable {
    ghost use Rattle.mm_board.specs.Records.{first_view};
    ghost use Rattle.mm_board.specs.Table.{MeetsRule};

    ghost holds = { MeetsRule };

    ghost first = { first_view };
}

/// Adds 1 to the claim word.
pub struct ClaimEvent;

impl Play<(), View> for ClaimEvent {
    ghost use Rattle.mm_board.specs.Events.{IsClaimWord, after_claim};
    ghost use Rattle.mm_board.specs.Table.{StepTells};

    ghost then = { StepTells IsClaimWord after_claim };
}

/// Reads the floor word.
pub struct LookEvent;

impl Play<(), View> for LookEvent {
    ghost use Rattle.mm_board.specs.Events.{IsFloorWord, after_look};
    ghost use Rattle.mm_board.specs.Table.{StepTells};

    ghost then = { StepTells IsFloorWord after_look };
}

/// Adds 1 to the settled word.
pub struct SettleEvent;

impl Play<(), View> for SettleEvent {
    ghost use Rattle.mm_board.specs.Events.{IsSettledWord, after_settle};
    ghost use Rattle.mm_board.specs.Table.{StepTells};

    ghost then = { StepTells IsSettledWord after_settle };
}

/// Lowers the floor word to a number, if the word is above it.
pub struct ReportEvent;

impl Play<(), View> for ReportEvent {
    ghost use Rattle.mm_board.specs.Events.{IsFloorWord, after_report};
    ghost use Rattle.mm_board.specs.Table.{StepTells};

    ghost then = { StepTells IsFloorWord after_report };
}

/// Splits a seat of share 1 off another.
pub struct SplitEvent;

impl Split<View> for SplitEvent {
    ghost use Rattle.mm_board.specs.Events.{after_split, new_seat_view};

    ghost left = { after_split };

    ghost right = { new_seat_view };
}

/// Joins two seats into one.
pub struct JoinEvent;

impl Join<View> for JoinEvent {
    ghost use Rattle.mm_board.specs.Events.{after_join, spent_view};

    ghost both = { after_join };

    ghost spent = { spent_view };
}

/// Reads the claim word and leaves the view as it is. A joined seat learns from it what the rule
/// says of the two records together, since a join itself says nothing.
pub struct JoinedRead;

impl Play<(), View> for JoinedRead {
    ghost use Rattle.mm_board.specs.Events.{IsClaimWord};
    ghost use Rattle.mm_board.specs.Table.{StepTells, unchanged_view};

    ghost then = { StepTells IsClaimWord unchanged_view };
}

//! What a command line says.

use mm_plan::Plan;
use std::alloc::{AllocError, Global};

/// What the words of a command line say: what the run is requested to do, the file with which its
/// file is compared, if it is (`-`: standard input), and the file that it reads (`None` or `-`:
/// standard input).
pub struct Line {
    pub plan: Plan<Global>,
    pub against: Option<String>,
    pub file: Option<String>,
}

/// Dropped in one call: docs/PROOFS.md, "What a check costs".
impl Drop for Line {
    fn drop(self) {
        let Self {
            plan: _,
            against: _,
            file: _,
        } = self;
    }
}

/// Why there is no line.
#[derive(Drop)]
pub enum LineRefused {
    /// Help or the version is requested, and this is its text.
    Help(String),
    /// The words have a fault, and this text says which.
    Bad(String),
    /// Out of memory.
    Memory,
}

impl From<AllocError> for LineRefused {
    ghost use Rattle.std.specs.Prelude.{◌≡◌};
    ghost use Rattle.mm_line.specs.declared.command_line.LineRefused.TheVariants.{Memory};

    ghost from_gives = { λ _ e. e ≡ Memory };

    fn from(_: AllocError) -> LineRefused {
        LineRefused::Memory
    }
}

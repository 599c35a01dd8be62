//! Why a step is refused.

use std::alloc::AllocError;

/// Why a step isn't a step of a derivation.
#[derive(Clone, Copy, Drop)]
pub enum Reason {
    /// There are fewer entries than hypotheses.
    TooFew,
    /// An entry isn't what its hypothesis requires.
    Unmatched,
    /// Two variables that have to be disjoint aren't.
    NotDisjoint,
    /// The formula of the step has more symbols than the limit.
    TooLong,
}

/// Why a step wasn't performed.
#[derive(Drop)]
pub enum StepRefused {
    /// The step isn't one of a derivation, for this reason.
    Fault(Reason),
    /// Out of memory.
    Memory,
}

impl From<AllocError> for StepRefused {
    ghost use Rattle.std.specs.Prelude.{◌≡◌};
    ghost use Rattle.mm_machine.specs.declared.reason.StepRefused.TheVariants.{Memory};

    ghost from_gives = { λ _ e. e ≡ Memory };

    fn from(_e: AllocError) -> StepRefused {
        StepRefused::Memory
    }
}

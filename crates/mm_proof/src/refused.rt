//! Why a proof is refused.

ghost use Rattle.std.specs.Prelude.{◌≡◌};
ghost use Rattle.mm_spec.specs.Text.{fault};
ghost use Rattle.mm_proof.specs.declared.refused.ProofRefused.TheVariants.{Fault as Faulty};

use mm_database::{Code, Fault};
use std::alloc::{AllocError, AllocFailed};

/// Why no steps were read from a proof.
#[derive(Drop)]
pub enum ProofRefused {
    /// The first fault of reading the proof.
    Fault(Fault),
    /// Out of memory.
    Memory,
}

impl From<AllocError> for ProofRefused {
    ghost use Rattle.std.specs.Prelude.{◌≡◌};
    ghost use Rattle.mm_proof.specs.declared.refused.ProofRefused.TheVariants.{Memory};

    ghost from_gives = { λ _ e. e ≡ Memory };

    fn from(_e: AllocError) -> ProofRefused {
        ProofRefused::Memory
    }
}

impl<T: Drop> From<AllocFailed<T>> for ProofRefused {
    ghost use Rattle.std.specs.Prelude.{◌≡◌};
    ghost use Rattle.mm_proof.specs.declared.refused.ProofRefused.TheVariants.{Memory};

    ghost from_gives = { λ _ e. e ≡ Memory };

    fn from(_e: AllocFailed<T>) -> ProofRefused {
        ProofRefused::Memory
    }
}

/// The refusal for a fault at a place.
pub(crate) fn refused(at: u32, code: Code) -> ProofRefused
    ensures { result ≡ Faulty (fault at code) }
{
    ProofRefused::Fault(Fault { at, code })
}

//! Bytes that are known in proofs alone.

ghost use Rattle.std.specs.Prelude.{◌≡◌, ℕ, List, [], ◌++◌};
ghost use base.Fml.{ftrue};

use std::marker::Model;

/// Bytes that a proof knows and no memory holds.
#[derive(Drop)]
pub(crate) struct GhostBytes {
    ghost bytes: { List ℕ },
}

impl Model for GhostBytes {
    ghost use base.Fml.{ftrue};

    ghost also_owns = { λ _. ftrue };
}

impl GhostBytes {
    /// No byte.
    pub(crate) fn none() -> GhostBytes
        ensures { result.bytes ≡ [] }
    {
        GhostBytes {}
    }

    /// Adds these bytes behind the others.
    pub(crate) fn add(&mut self, _bytes: &[u8])
        ensures { self.new.bytes ≡ self.old.bytes ++ _bytes.now }
    {}
}

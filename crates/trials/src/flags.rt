//! Names for the truth values that calls take.

/// A theorem cites by all nodes of its proof.
pub(crate) const BY_ALL_NODES: bool = false;

/// A theorem cites only by the essential nodes of its proof.
pub(crate) const BY_ESSENTIAL_NODES: bool = true;

/// Open theorems don't count as axioms.
pub(crate) const WITHOUT_OPEN: bool = false;

/// Open theorems count as axioms.
pub(crate) const WITH_OPEN: bool = true;

/// A comment is open after the head of a piece.
pub(crate) const INSIDE_COMMENT: bool = true;

/// No comment is open after the head of a piece.
pub(crate) const OUTSIDE_COMMENT: bool = false;

//! Where bodies are.

/// Where the bodies of a node are, and how many symbols its string has.
#[derive(Clone, Copy, Drop)]
pub struct Head {
    /// The index of the first body.
    pub start: u32,
    /// The index after the last body.
    pub end: u32,
    /// The number of symbols.
    pub length: u32,
}

/// A segment of a list: from index `start` up to, but not including, `end`.
#[derive(Clone, Copy, Drop)]
pub struct Segment {
    /// The index of the first element.
    pub start: usize,
    /// The index after the last element.
    pub end: usize,
}

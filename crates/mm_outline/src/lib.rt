//! The outlines of statements. This layer knows the nine shapes: it reads complete statements from
//! the tokens, one by one, and keeps for each its kind and the numbers of three of its tokens. It
//! also knows the blocks in which statements are. It promises that what it finds is the one longest
//! list of complete statements, or what stops it there
//! (`Rattle.mm_outline.specs.NextStatement.IsNextStatement`), and that the end of a block says
//! whether a statement in it is still active (`Rattle.mm_outline.specs.Blocks.IsBlocks`). It
//! doesn't know which statements are lawful.
#![tactic(auto)]

pub mod blocks;
pub mod parts;
pub mod symbol;
pub mod words;

pub use parts::Kind;
pub use symbol::Sym;

//! Memory that a caller lends for a while, and the allocators over it. A `Room` is such memory. A
//! `Lender` gives it whole to one block at a time, so that an arena of the crate `bumpalo` lies in
//! it (`Lender::arena`). `Reusing` over the arena uses freed blocks again. All give everything back
//! at their end, so the room comes back whole, except where a block was leaked: then the room is
//! leaked too. None of this starts a thread or asks the system for memory.
#![tactic(auto)]

mod block;
mod free_list;
mod lender;
mod memory;
mod reuse;
mod room;

pub use lender::Lender;
pub use reuse::Reusing;
pub use room::Room;

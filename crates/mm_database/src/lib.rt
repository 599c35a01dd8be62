//! The database: what is kept of the statements of a text, and the calls that read it. This layer
//! knows names by number, blocks, frames and `$d` by variables; it reads no text and makes none of
//! these lists. It promises that each call of a `Database` returns what the definitions say of the
//! statements (`Rattle.mm_database.specs.Database.IsDatabase`).
#![tactic(auto)]

pub mod capacity;
mod chosen_typecode;
pub mod database;
pub mod disjoint_index;
pub mod frames;
pub mod name;
pub mod name_map;
pub mod names;
mod near;
pub mod reading;
pub mod statement_lists;
pub mod statements;
pub mod tables;
pub mod text_keyed;

pub use chosen_typecode::has_chosen_typecode;
pub use database::Database;
pub use frames::Frame;
pub use mm_outline::{Kind, Sym};
pub use mm_spec::{Code, Fault, Word};

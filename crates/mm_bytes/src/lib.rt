//! The classes of bytes, and counts of them, 64 at a time by lanes. This layer knows bytes, not
//! texts. It promises that the masks, the first bad byte and the number of line feeds agree with
//! their plain definitions (`Rattle.mm_bytes.specs.Masks`) for every length. It allocates no
//! memory, and none of its calls fails.
#![tactic(auto)]

mod classes;
mod lanes;
mod slices;

pub use classes::{
    Classes, class_block, class_tail, dollars_block, dollars_tail, is_printable, is_white,
};
pub use slices::{count_lf, first_bad};

#[cfg(test)]
mod tests;

//! Tests of what can go wrong: allocations that are refused, reads and writes that fail, truncated
//! and malicious texts. Apart from an allocator that refuses allocations, this crate has only
//! tests, which use public calls. It isn't part of the program, and promises nothing.
#![tactic(auto)]

#[cfg(test)]
mod calls;
#[cfg(test)]
mod failing;
#[cfg(test)]
mod growth;
pub mod heap;
#[cfg(test)]
mod malicious;
#[cfg(test)]
mod readers_and_writers;
#[cfg(test)]
mod texts;
#[cfg(test)]
mod truncated;

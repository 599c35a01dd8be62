//! Tests of the layers below the program, of runs and of command lines, through their public calls.
//! They are in a crate of their own, since a crate with tests is proved a second time with them.
//! This crate isn't part of the program, and promises nothing.
#![tactic(auto)]

#[cfg(test)]
mod bytes;
#[cfg(test)]
mod citations;
#[cfg(test)]
mod comparisons;
#[cfg(test)]
mod databases;
#[cfg(test)]
mod examples;
#[cfg(test)]
mod flags;
#[cfg(test)]
mod frames;
#[cfg(test)]
mod lexing;
#[cfg(test)]
mod lines;
#[cfg(test)]
mod numbers;
#[cfg(test)]
mod rows;
#[cfg(test)]
mod runs;
#[cfg(test)]
mod statements;
#[cfg(test)]
mod surface;
#[cfg(test)]
mod texts;
#[cfg(test)]
mod workers;

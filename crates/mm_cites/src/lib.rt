//! What each theorem of a database cites, as lists. This layer knows the statements of the
//! theorems, in file order, and for each the statements that it cites, all before its own. It
//! promises that it returns the lists that it was given. The layer that checks proofs builds them,
//! and promises that they are what the proofs of a database cite. The rows are computed from the
//! lists, so the layer that computes them doesn't depend on the crates that check proofs.
//!
//! A caller that reads citations uses [`Citations::rows`], [`Citations::theorem`],
//! [`Citations::of`] and [`Citations::theorems`]. The layer that checks proofs calls
//! [`Citations::new`].
#![tactic(auto)]

mod citations;

pub use citations::Citations;

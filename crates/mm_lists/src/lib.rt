//! Lists, one after the other in one list. This layer knows nothing of databases. It promises that
//! it returns the lists that it was given.
//!
//! A caller either appends whole lists, with [`Lists::new`] or [`Lists::with_expected_capacity`]
//! and [`Lists::push`]; or it concatenates them itself, notes with [`end_list`] where each ends,
//! and then calls [`Lists::from_ends`]. It reads them with [`Lists::get`], [`Lists::between`] and
//! [`Lists::item_count`].
#![tactic(auto)]

mod lists;

pub use lists::{Lists, end_list};

//! The numbers of symbols. The rest of this crate doesn't use them: they stand here for `mm_scope`,
//! `mm_frame` and `mm_tell`, and `mm_database` passes them on.

ghost use Rattle.std.specs.Prelude.{◌≡◌, ℕ};

use std::marker::Model;

/// A symbol of a database, by its number: symbols are numbered from 0 in the order of their first
/// declarations.
#[derive(Clone, Copy, Debug, PartialEq, Eq, PartialOrd, Ord)]
pub struct Sym(u32);

impl Model for Sym {
    ghost Value = { ℕ };

    ghost view = { λ s. s.0 };

    ghost inverse = { λ n. record { 0 = n } };
}

impl Sym {
    /// The symbol with the given number.
    pub fn new(number: u32) -> Sym
        ensures { result ≡ number }
    {
        Sym(number)
    }

    /// The symbol's number.
    pub fn number(self) -> u32
        ensures { result ≡ self }
    {
        self.0
    }
}

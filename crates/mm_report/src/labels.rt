//! The labels of theorems and of columns.

ghost use Rattle.std.specs.Prelude.{◌≡◌, ◌<◌, ◌≤◌, ◌∷◌, ℕ, Option, List, [], All, length};
ghost use Rattle.std.specs.Prelude.{slice_index_or, slice_range, map, flat_map};
ghost use Rattle.mm_spec.specs.Text.{Bytes};
ghost use Rattle.mm_spec.specs.Assertion.{label_at};
ghost use Rattle.mm_spec.specs.Output.{theorems, columns};

use mm_database::Database;
use mm_rows::Columns;
use std::alloc::Allocator;
use std::marker::Model;

/// The labels of the theorems of a database.
#[derive(Drop)]
pub struct TheoremLabels<'d, 'a, D: Allocator> {
    database: &'d Database<'a, D>,
}

impl<'d, 'a, D: Allocator> Model for TheoremLabels<'d, 'a, D> {
    ghost use Rattle.std.specs.Prelude.{List, ℕ, map};
    ghost use Rattle.mm_spec.specs.Assertion.{label_at};
    ghost use Rattle.mm_spec.specs.Output.{theorems};

    ghost Value = { List (List ℕ) };

    ghost view = { λ l. map (label_at l.database.now.statements)
        (theorems l.database.now.statements) };
}

impl<'d, 'a, D: Allocator> TheoremLabels<'d, 'a, D> {
    /// The labels of the theorems of this database.
    pub fn new(database: &'d Database<'a, D>) -> TheoremLabels<'d, 'a, D>
        ensures { result
            ≡ map (label_at database.entry.now.statements)
            (theorems database.entry.now.statements) }
    {
        TheoremLabels { database }
    }

    /// Returns the number of labels.
    pub fn len(&self) -> usize
        ensures { result ≡ length self.now }
    {
        self.database.theorems().len()
    }

    /// Returns the label of the theorem with this index in file order.
    pub fn label(&self, index: u32) -> &'a [u8]
        requires { index < length self.now }
        ensures { result.now ≡ slice_index_or self.now index [] }
    {
        label_of(self.database, self.database.theorems()[index as usize])
    }

    /// Returns the labels with indices from `from` up to `to`, each after a space.
    pub fn spaced(&self, from: u32, to: u32) -> &'d [u8]
        requires from_le_to { from ≤ to }
        requires to_le_length { to ≤ length self.now }
        ensures labels_are_spaced { result.now
            ≡ flat_map (λ l. 32 ∷ l) (slice_range self.now from to) }
        ensures has_bytes { from < to → 0 < length result.now }
    {
        self.database.spaced_labels(from, to)
    }
}

/// The labels of columns of a database.
#[derive(Drop)]
pub struct ColumnLabels<'d, 'a, D: Allocator> {
    database: &'d Database<'a, D>,
    statements: &'d [u32],
}

impl<'d, 'a, D: Allocator> Model for ColumnLabels<'d, 'a, D> {
    ghost use Rattle.std.specs.Prelude.{List, ℕ, map, All, length, ◌<◌};
    ghost use Rattle.mm_spec.specs.Assertion.{label_at};

    ghost Value = { List (List ℕ) };

    ghost view = { λ l. map (label_at l.database.now.statements) l.statements.now };

    ghost invariant = { λ l. All (λ k. k < length l.database.now.statements) l.statements.now };
}

impl<'d, 'a, D: Allocator> ColumnLabels<'d, 'a, D> {
    /// The labels of these columns of the database.
    pub fn new<A: Allocator>(
        database: &'d Database<'a, D>,
        chosen: &'d Columns<A>,
    ) -> ColumnLabels<'d, 'a, D>
        requires { (only : Option Bytes) × (chosen.now ≡ columns database.now.statements only) }
        ensures { result ≡ map (label_at database.entry.now.statements) chosen.entry.now }
    {
        ColumnLabels {
            database,
            statements: chosen.statements(),
        }
    }

    /// Returns the number of labels.
    pub fn len(&self) -> usize
        ensures { result ≡ length self.now }
    {
        self.statements.len()
    }

    /// Returns the label of the column with this index.
    pub fn label(&self, index: u32) -> &'a [u8]
        requires { index < length self.now }
        ensures { result.now ≡ slice_index_or self.now index [] }
    {
        label_of(self.database, self.statements[index as usize])
    }
}

/// Returns the label of a statement, which is empty if it has none.
pub(crate) fn label_of<'a, D: Allocator>(database: &Database<'a, D>, statement: u32) -> &'a [u8]
    requires { statement < length database.now.statements }
    ensures { result.now ≡ label_at database.now.statements statement }
{
    match database.label(statement) {
        Some(label) => label,
        None => &[],
    }
}

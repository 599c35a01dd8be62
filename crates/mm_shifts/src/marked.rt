//! A database with its marks.

ghost use Rattle.std.specs.Prelude.{◌≡◌, ◌<◌, IfOk, Decides, None, true, length, slice_index};
ghost use Rattle.std.specs.List.{list_any};
ghost use Rattle.mm_spec.specs.Scope.{statement_at};
ghost use Rattle.mm_spec.specs.Output.{is_theorem_at, is_column, theorems, columns};
ghost use Rattle.mm_cites.specs.Citing.{IsStatementList};
ghost use Rattle.mm_shifts.specs.Resting.{IsMarked, IsNextMarked, Resting, Rests, resting};

use mm_cites::Citations;
use mm_database::Database;
use mm_rows::{Columns, MarkedRows, StatementIndices};
use std::alloc::{AllocError, Allocator};
use std::marker::Model;

/// A database, what its theorems cite, and the marks: a row for each theorem and a column for each
/// axiom, whatever its typecode.
#[derive(Drop)]
pub struct Marked<'m, 'a, A: Allocator, D: Allocator> {
    database: &'m Database<'a, D>,
    citations: &'m Citations<D>,
    axioms: &'m Columns<D>,
    marks: &'m MarkedRows<D>,
    rows: StatementIndices<'m, A>,
    columns: StatementIndices<'m, A>,
}

impl<'m, 'a, A: Allocator, D: Allocator> Model for Marked<'m, 'a, A, D> {
    ghost use Rattle.mm_shifts.specs.Resting.{Resting, resting, IsIndexed};

    ghost Value = { Resting };

    ghost view = { λ m. resting m.database.now m.citations.now };

    ghost invariant = { λ m. IsIndexed m.database.now m.citations.now m.axioms.now m.marks.now
        m.rows m.columns };
}

impl<'m, 'a, A: Allocator + Copy, D: Allocator> Marked<'m, 'a, A, D> {
    /// The database with these marks. Fails only if out of memory.
    pub fn new(
        alloc: A,
        database: &'m Database<'a, D>,
        citations: &'m Citations<D>,
        axioms: &'m Columns<D>,
        marks: &'m MarkedRows<D>,
    ) -> Result<Marked<'m, 'a, A, D>, AllocError>
        requires { IsMarked database.now citations.now axioms.now marks.now }
        ensures { IfOk result (λ m. m ≡ resting database.entry.now citations.entry.now) }
    {
        let rows = StatementIndices::new(alloc, citations.theorems())?;
        let columns = StatementIndices::new(alloc, axioms.statements())?;
        Ok(Marked {
            database,
            citations,
            axioms,
            marks,
            rows,
            columns,
        })
    }
}

impl<'m, 'a, A: Allocator, D: Allocator> Marked<'m, 'a, A, D> {
    /// Returns the database.
    pub fn database(&self) -> &'m Database<'a, D>
        ensures { result.now ≡ self.now.contents }
    {
        self.database
    }

    /// Returns all axioms, in file order.
    pub fn axioms(&self) -> &'m [u32]
        ensures axioms_are { result.now ≡ columns self.now.contents.statements None }
        ensures axioms_rise { IsStatementList result.now }
    {
        self.axioms.statements()
    }

    /// Returns the theorems, in file order.
    pub fn theorems(&self) -> &'m [u32]
        ensures theorems_are { result.now ≡ theorems self.now.contents.statements }
        ensures theorems_rise { IsStatementList result.now }
    {
        self.citations.theorems()
    }

    /// Whether a chain of citations leads from the theorem in a row to the axiom in a column.
    pub(crate) fn cell(&self, row: u32, column: u32) -> bool
        requires row_lt_count { row < length (theorems self.now.contents.statements) }
        requires column_lt_count { column < length (columns self.now.contents.statements None) }
        ensures { Decides result
            (Rests self.now (slice_index (theorems self.now.contents.statements) row)
            (slice_index (columns self.now.contents.statements None) column)) }
    {
        self.marks.cell(row, column)
    }

    /// Returns the first column from `from` on to whose axiom a chain of citations leads from the
    /// theorem in a row, or `None` if there is none.
    pub(crate) fn next_marked(&self, row: u32, from: u32) -> Option<u32>
        requires { row < length (theorems self.now.contents.statements) }
        ensures { IsNextMarked self.now row from result }
    {
        self.marks.next_marked(row, from)
    }

    /// Whether a chain of citations leads from a theorem to an axiom.
    pub fn rests_on(&self, theorem: u32, cited: u32) -> bool
        requires is_theorem { is_theorem_at self.now.contents.statements theorem ≡ true }
        requires is_axiom { list_any (is_column None)
            (statement_at self.now.contents.statements cited) ≡ true }
        ensures { Decides result (Rests self.now theorem cited) }
    {
        let Some(row) = self.rows.find(theorem) else {
            unreachable!("each theorem has a row");
        };
        let Some(column) = self.columns.find(cited) else {
            unreachable!("each axiom has a column");
        };
        self.cell(row as u32, column as u32)
    }
}

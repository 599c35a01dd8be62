//! The marks of a database.

ghost use Rattle.std.specs.Prelude.{◌≡◌, IfOk};
ghost use Rattle.mm_spec.specs.Output.{theorems};
ghost use Rattle.mm_shifts.specs.Resting.{IsMarked};

use mm_database::Database;
use mm_rows::{Columns, MarkedRows, marked_rows};
use mm_work::Citations;
use std::alloc::{AllocError, Allocator};

/// All axioms of a database, and for each theorem on which of them it rests.
pub(crate) struct Table<A: Allocator> {
    pub axioms: Columns<A>,
    pub marks: MarkedRows<A>,
}

/// Dropped in one call: docs/PROOFS.md, "What a check costs".
impl<A: Allocator> Drop for Table<A> {
    fn drop(self) {
        let Self {
            axioms: _,
            marks: _,
        } = self;
    }
}

/// Marks for each theorem of a database the axioms on which it rests. Fails only if out of memory.
pub(crate) fn table_of<'a, A: Allocator + Copy>(
    alloc: A,
    database: &Database<'a, A>,
    citations: &Citations<A>,
) -> Result<Table<A>, AllocError>
    requires { citations.now.theorems ≡ theorems database.now.statements }
    ensures { IfOk result (λ t. IsMarked database.now citations.now t.axioms t.marks) }
{
    let axioms = Columns::new(alloc, database, None)?;
    let marks = marked_rows(alloc, citations, &axioms)?;
    Ok(Table { axioms, marks })
}

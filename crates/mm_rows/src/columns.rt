//! The axioms that are columns.

ghost use Rattle.std.specs.Prelude.{◌≡◌, ◌<◌, ◌&&◌, ℕ, List, Option, Some, None, IfOk, length};
ghost use Rattle.std.specs.Prelude.{slice_index};
ghost use Rattle.std.specs.Option.{option_map};
ghost use Rattle.mm_spec.specs.Output.{columns};
ghost use Rattle.mm_cites.specs.Citing.{IsStatementList};

use mm_database::{Database, has_chosen_typecode};
use std::alloc::{AllocError, Allocator};
use std::marker::Model;

/// The statements of the axioms that are columns, in file order.
#[derive(Drop)]
pub struct Columns<A: Allocator> {
    statements: Vec<u32, A>,
}

impl<A: Allocator> Model for Columns<A> {
    ghost Value = { List ℕ };

    ghost view = { λ c. c.statements.items };

    ghost invariant = { λ c. IsStatementList c.statements.items };
}

impl<A: Allocator + Copy> Columns<A> {
    /// Returns the axioms of the database whose typecode is `only`, or all axioms if it is `None`.
    /// A typecode that nothing has gives no columns. Fails only if out of memory.
    pub fn new<'a, D: Allocator>(
        alloc: A,
        database: &Database<'a, D>,
        only: Option<&[u8]>,
    ) -> Result<Columns<A>, AllocError>
        ensures { IfOk result
            (λ c. c ≡ columns database.now.statements (option_map (λ w. w.now) only.entry)) }
    {
        let mut statements = Vec::new(alloc);
        let axioms = database.axioms();
        for statement in axioms {
            if has_chosen_typecode(database, only, *statement) {
                statements.push(*statement)?;
            }
        }
        Ok(Columns { statements })
    }
}

impl<A: Allocator> Columns<A> {
    /// Returns the statements of the columns.
    pub fn statements(&self) -> &[u32]
        ensures statements_are { result.now ≡ self.now }
        ensures statements_rise { IsStatementList self.now }
    {
        self.statements.as_slice()
    }

    /// Returns the number of columns.
    pub fn len(&self) -> u32
        ensures len_is { result ≡ length self.now }
        ensures statements_rise { IsStatementList self.now }
    {
        self.statements.len() as u32
    }

    /// Returns the statement of a column.
    pub fn statement(&self, column: u32) -> u32
        requires { column < length self.now }
        ensures { result ≡ slice_index self.now column }
    {
        self.statements[column as usize]
    }
}

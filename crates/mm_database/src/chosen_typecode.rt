//! The typecode that a report is restricted to.

ghost use Rattle.std.specs.Prelude.{◌≡◌, ◌&&◌, Option, Some, None, true};
ghost use Rattle.std.specs.Option.{option_map};
ghost use Rattle.std.specs.List.{list_any};
ghost use Rattle.mm_spec.specs.Scope.{statement_at};
ghost use Rattle.mm_spec.specs.Citation.{is_assertion};
ghost use Rattle.mm_spec.specs.Assertion.{has_typecode};

use crate::database::Database;
use std::alloc::Allocator;

/// Whether an assertion has the chosen typecode. True if `only` is `None`.
pub fn has_chosen_typecode<'a, D: Allocator>(
    database: &Database<'a, D>,
    only: Option<&[u8]>,
    statement: u32,
) -> bool
    requires { list_any is_assertion (statement_at database.now.statements statement) ≡ true }
    ensures { result
        ≡ list_any (has_typecode (option_map (λ w. w.now) only.entry))
        (statement_at database.now.statements statement) }
{
    match only {
        None => true,
        Some(name) => match database.typecode(statement) {
            Some(typecode) => database.name(typecode) == name,
            None => false,
        },
    }
}

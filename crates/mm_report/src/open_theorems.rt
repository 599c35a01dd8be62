//! The number of columns that are open theorems.

ghost use Rattle.std.specs.Prelude.{◌≡◌, ◌&&◌, count_by, length};
ghost use Rattle.std.specs.List.{list_any};
ghost use Rattle.mm_spec.specs.Opened.{is_open_theorem};
ghost use Rattle.mm_spec.specs.Scope.{statement_at};
ghost use Rattle.mm_report.specs.Reports.{open_theorem_count as spec_open_theorem_count};

use mm_database::Database;
use mm_rows::Columns;
use std::alloc::Allocator;

/// Returns the number of columns that are open theorems, or `None` if `with_open` isn't set.
pub(crate) fn open_theorem_count<A: Allocator, D: Allocator>(
    database: &Database<'_, D>,
    chosen: &Columns<A>,
    with_open: bool,
) -> Option<u64>
    ensures { result ≡ spec_open_theorem_count with_open database.now chosen.now }
{
    if with_open {
        Some(count_open_theorems(database, chosen))
    } else {
        None
    }
}

/// Returns the number of columns that are open theorems.
fn count_open_theorems<A: Allocator, D: Allocator>(
    database: &Database<'_, D>,
    chosen: &Columns<A>,
) -> u64
    ensures { result
        ≡ count_by
        (λ a. database.now.with_open && list_any is_open_theorem (statement_at database.now.read a))
        chosen.now }
{
    let mut count = 0u64;
    for statement in chosen.statements() {
        if database.is_open(*statement) {
            count += 1;
        }
    }
    count
}

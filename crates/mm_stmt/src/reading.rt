//! What was read of a text, with what its names say of its symbols.

ghost use Rattle.std.specs.Prelude.{◌≡◌, ◌<◌, ◌^◌, IfOk, length};
ghost use Rattle.mm_spec.specs.Lexed.{tokens_of};
ghost use Rattle.mm_outline.specs.Statements.{statements};
ghost use Rattle.mm_scope.specs.ReadSoFar.{IsReadSoFar, read_so_far, reading_of};
ghost use Rattle.mm_database.specs.Names.{names_of};
ghost use Rattle.mm_database.specs.ParsedStatements.{IsSound};

use mm_database::reading::Reading;
use mm_scope::reading::Outlined;
use std::alloc::{AllocError, Allocator};

/// Returns what was read, and for each symbol whether it is a variable.
pub(crate) fn reading_of<'a, A: Allocator + Copy>(
    alloc: A,
    text: &'a [u8],
    outlined: Outlined<'a, A>,
) -> Result<Reading<'a, A>, AllocError>
    requires sound { IsSound (statements text.now (tokens_of text.now) outlined.outlines.items) }
    requires is_read_so_far { IsReadSoFar
        (statements text.now (tokens_of text.now) outlined.outlines.items) (read_so_far outlined) }
    requires few_symbols { length (names_of outlined.scope.names.symbols) < 2 ^ 31 }
    ensures { IfOk result (λ r. r ≡ reading_of text.now outlined.entry) }
{
    let variable_flags = outlined.scope.names.variable_flags(alloc)?;
    Ok(outlined.into_reading(text, variable_flags))
}

//! The statements as they count, in lists: the kind of each, the theorems and the axioms.

ghost use Rattle.std.specs.Prelude.{◌<◌, ◌^◌, All, IfOk, length};
ghost use Rattle.mm_spec.specs.Opened.{open_as_axioms};
ghost use Rattle.mm_outline.specs.Parts.{AreWithin, IsOutline};
ghost use Rattle.mm_outline.specs.Statements.{statements};
ghost use Rattle.mm_database.specs.Database.{AreStatementLists};

use crate::kinds::{assertions_of, kinds_of};
use crate::spaced_labels::spaced_labels_of;
use mm_database::statement_lists::StatementLists;
use mm_outline::parts::Outline;
use mm_spec::Word;
use std::alloc::{AllocError, Allocator};

/// Returns the lists of the statements of all outlines. If `with_open` is set, open theorems count
/// as axioms.
pub(crate) fn list_statements<A: Allocator + Copy>(
    alloc: A,
    text: &[u8],
    tokens: &[Word],
    outlines: &[Outline],
    with_open: bool,
) -> Result<StatementLists<A>, AllocError>
    requires tokens_within { AreWithin text.now tokens.now }
    requires are_outlines { All (λ o. IsOutline o × (o.end < length tokens.now)) outlines.now }
    requires few_outlines { length outlines.now < 2 ^ 31 }
    ensures { IfOk result
        (λ l. AreStatementLists
        (open_as_axioms with_open (statements text.now tokens.now outlines.now)) l) }
{
    let kinds = kinds_of(alloc, text, tokens, outlines, with_open)?;
    let (theorems, axioms) = assertions_of(alloc, &kinds)?;
    let spaced_labels = spaced_labels_of(alloc, text, tokens, outlines, &theorems)?;
    Ok(StatementLists {
        kinds,
        theorems,
        axioms,
        spaced_labels,
    })
}

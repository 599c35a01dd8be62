//! The labels of a proof.

ghost use Rattle.std.specs.Prelude.{◌≡◌, ◌<◌, length};
ghost use Rattle.std.specs.Option.{option_to_list};
ghost use Rattle.mm_spec.specs.NormalProof.{usable};

use mm_database::Database;
use std::alloc::Allocator;

/// The statement of a label, if the label is usable in the proof of `theorem`: if it is the label
/// of an active hypothesis or of an earlier assertion.
#[inline(always)]
pub(crate) fn usable_label<A: Allocator>(
    database: &Database<A>,
    theorem: u32,
    label: &[u8],
) -> Option<u32>
    requires { theorem < length database.now.statements }
    ensures { usable database.now.statements theorem label.now ≡ option_to_list result }
{
    match database.find(label) {
        None => None,
        Some(statement) => {
            if database.active_at(statement, theorem) {
                Some(statement)
            } else {
                None
            }
        }
    }
}

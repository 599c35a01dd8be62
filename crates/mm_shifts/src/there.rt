//! What a theorem and the axioms of one database are in another.

ghost use Rattle.std.specs.Prelude.{◌≡◌, ◌<◌, IfOk, Decides, None, true, length};
ghost use Rattle.std.specs.List.{list_any};
ghost use Rattle.mm_spec.specs.Scope.{statement_at};
ghost use Rattle.mm_spec.specs.Output.{columns, is_column};
ghost use Rattle.mm_spec.specs.Comparison.{RestsThere};
ghost use Rattle.mm_compare.specs.Sides.{IsTheSame};
ghost use Rattle.mm_shifts.specs.Resting.{Resting, Rests, side_in};
ghost use Rattle.mm_shifts.specs.Shifted.{AreTheSame, IsNamesake};

use crate::marked::Marked;
use mm_compare::{find_same, label_of};
use mm_database::Kind;
use std::alloc::{AllocError, Allocator};

/// Returns the theorem of the other that has the label of a statement.
pub(crate) fn namesake<A: Allocator, D: Allocator, E: Allocator>(
    this: &Marked<'_, '_, A, D>,
    statement: u32,
    other: &Marked<'_, '_, A, E>,
) -> Option<u32>
    requires { statement < length this.now.contents.statements }
    ensures { IsNamesake (side_in this.now) statement (side_in other.now) result }
{
    let Some(found) = other.database().find(label_of(this.database(), statement)) else {
        return None;
    };
    match other.database().kind(found) {
        Kind::Theorem => Some(found),
        _ => None,
    }
}

/// Returns for each axiom the axiom of the other that is the same.
pub(crate) fn axioms_there<A: Allocator + Copy, D: Allocator, E: Allocator>(
    alloc: A,
    this: &Marked<'_, '_, A, D>,
    other: &Marked<'_, '_, A, E>,
) -> Result<Vec<Option<u32>, A>, AllocError>
    ensures { IfOk result
        (λ v. AreTheSame (side_in this.now) (columns this.now.contents.statements None)
        (side_in other.now) v.items) }
{
    let axioms = this.axioms();
    let mut there = Vec::new(alloc);
    let mut known = None;
    for i in 0..axioms.len() {
        there.push(find_same(this.database(), axioms[i], other.database(), &mut known))?;
    }
    Ok(there)
}

/// Whether a theorem of the other with the label of a theorem rests there on an axiom, by what the
/// two are in the other.
pub(crate) fn rests_there<A: Allocator, D: Allocator, E: Allocator>(
    _this: &Marked<'_, '_, A, D>,
    _theorem: u32,
    _axiom: u32,
    other: &Marked<'_, '_, A, E>,
    theorem_there: Option<u32>,
    axiom_there: Option<u32>,
) -> bool
    requires is_namesake { IsNamesake (side_in _this.now) _theorem (side_in other.now)
        theorem_there }
    requires is_the_same { IsTheSame (side_in _this.now) _axiom (side_in other.now) axiom_there }
    requires is_axiom { list_any (is_column None)
        (statement_at _this.now.contents.statements _axiom) ≡ true }
    ensures { Decides result
        (RestsThere (Rests other.now) (side_in _this.now) _theorem _axiom (side_in other.now)) }
{
    match theorem_there {
        Some(theorem) => match axiom_there {
            Some(axiom) => other.rests_on(theorem, axiom),
            None => false,
        },
        None => false,
    }
}

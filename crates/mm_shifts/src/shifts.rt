//! For each theorem the axioms on which it rests in one database and not in another.

ghost use Rattle.std.specs.Prelude.{◌≡◌, ◌<◌, IfOk, OnOk, Decides, None, length, slice_index};
ghost use Rattle.std.specs.Prelude.{slice_index_or};
ghost use Rattle.std.specs.Option.{option_copied};
ghost use Rattle.mm_spec.specs.Output.{theorems, columns};
ghost use Rattle.mm_compare.specs.Sides.{IsTheSame};
ghost use Rattle.mm_shifts.specs.Resting.{Resting, side_in};
ghost use Rattle.mm_shifts.specs.Shifted.{AreTheSame, IsNamesake, IsShifted, AreShiftedOfFirst};
ghost use Rattle.mm_shifts.specs.Shifted.{AreAllShifted};

use crate::marked::Marked;
use crate::there::{axioms_there, namesake, rests_there};
use mm_database::has_chosen_typecode;
use mm_lists::Lists;
use std::alloc::{AllocError, Allocator};

/// Whether the theorem in a row rests on the axiom in a column, that axiom has the typecode if one
/// is chosen, and no theorem of the other with the label rests on it there.
fn is_shifted<A: Allocator, D: Allocator, E: Allocator>(
    this: &Marked<'_, '_, A, D>,
    row: u32,
    column: u32,
    only: Option<&[u8]>,
    other: &Marked<'_, '_, A, E>,
    theorem_there: Option<u32>,
    axiom_there: Option<u32>,
) -> bool
    requires row_lt_count { row < length (theorems this.now.contents.statements) }
    requires column_lt_count { column < length (columns this.now.contents.statements None) }
    requires is_namesake { IsNamesake (side_in this.now)
        (slice_index (theorems this.now.contents.statements) row) (side_in other.now)
        theorem_there }
    requires is_the_same { IsTheSame (side_in this.now)
        (slice_index (columns this.now.contents.statements None) column) (side_in other.now)
        axiom_there }
    ensures { Decides result
        (IsShifted this.now other.now (option_copied only.entry)
        (slice_index (theorems this.now.contents.statements) row)
        (slice_index (columns this.now.contents.statements None) column)) }
{
    let theorem = this.theorems()[row as usize];
    let axiom = this.axioms()[column as usize];
    this.cell(row, column)
        && has_chosen_typecode(this.database(), only, axiom)
        && !rests_there(this, theorem, axiom, other, theorem_there, axiom_there)
}

/// Lists the axioms of the theorem in a row that are shifted, in file order. Replaces what `into`
/// has. `there` has for each axiom what it is in the other.
fn list_theorem<A: Allocator, D: Allocator, E: Allocator>(
    this: &Marked<'_, '_, A, D>,
    row: u32,
    only: Option<&[u8]>,
    other: &Marked<'_, '_, A, E>,
    there: &[Option<u32>],
    into: &mut Vec<u32, A>,
) -> Result<(), AllocError>
    requires row_lt_count { row < length (theorems this.now.contents.statements) }
    requires are_the_same { AreTheSame (side_in this.now)
        (columns this.now.contents.statements None) (side_in other.now) there.now }
    ensures { OnOk result
        (AreShiftedOfFirst (columns this.now.contents.statements None) this.now other.now
        (option_copied only.entry) (slice_index (theorems this.now.contents.statements) row)
        (length (columns this.now.contents.statements None)) into.new.items) }
{
    into.clear();
    let axioms = this.axioms();
    let theorem_there = namesake(this, this.theorems()[row as usize], other);
    let mut column = 0;
    while let Some(marked) = this.next_marked(row, column) {
        if is_shifted(
            this,
            row,
            marked,
            only,
            other,
            theorem_there,
            there[marked as usize],
        ) {
            into.push(axioms[marked as usize])?;
        }
        column = marked + 1;
    }
    Ok(())
}

/// Lists for each theorem the axioms on which it rests, or those of them that have the typecode if
/// one is chosen, while no theorem of the other with its label rests on the same axiom. Fails only
/// if out of memory, or if there are 2^32 of them or more.
pub fn list_shifts<A: Allocator + Copy, D: Allocator, E: Allocator>(
    alloc: A,
    this: &Marked<'_, '_, A, D>,
    only: Option<&[u8]>,
    other: &Marked<'_, '_, A, E>,
) -> Result<Lists<u32, A>, AllocError>
    ensures { IfOk result
        (λ ls. AreAllShifted this.now other.now (option_copied only.entry)
        (theorems this.now.contents.statements) ls) }
{
    let there = axioms_there(alloc, this, other)?;
    let mut shifted = Vec::new(alloc);
    let mut lists = Lists::new(alloc);
    for row in 0..this.theorems().len() {
        list_theorem(this, row as u32, only, other, &there, &mut shifted)?;
        lists.push(&shifted)?;
    }
    Ok(lists)
}

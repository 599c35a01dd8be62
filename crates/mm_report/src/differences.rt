//! Writes the differences between two databases.

ghost use Rattle.std.specs.Prelude.{◌≡◌, ◌<◌, ◌^◌, ℕ, [], length, map, take, flat_map};
ghost use Rattle.std.specs.Prelude.{slice_index_or, All, OnOk, OnErr};
ghost use Rattle.std.specs.Io.KnownBytes.{Appends};
ghost use Rattle.mm_spec.specs.Assertion.{label_at};
ghost use Rattle.mm_spec.specs.Output.{theorems};
ghost use Rattle.mm_tell.specs.Dummies.{DummyLists, HaveDummies};
ghost use Rattle.mm_spec.specs.Comparison.{shift_line, differences};
ghost use Rattle.mm_report.specs.CitingRows.{AreAssertions};
ghost use Rattle.mm_report.specs.Differences.{lines_of, shift_rows, shift_lines, IsDifference};
ghost use Rattle.mm_report.specs.Differences.{own_section, shift_section};
ghost use Rattle.mm_report.specs.Sent.{Sent};

use crate::assertion::send_assertion;
use crate::citations::send_citation_line;
use crate::labels::TheoremLabels;
use crate::sections::{send_head_line, send_line};
use crate::sink::{Sink, WriteFailed};
use mm_database::Database;
use mm_lists::Lists;
use mm_tell::Dummies;
use std::alloc::Allocator;
use std::io::Write;

/// What one of two databases has and the other hasn't.
#[derive(Drop)]
pub struct Difference<'s, 'a, D: Allocator, A: Allocator> {
    pub database: &'s Database<'a, D>,
    /// The assertions that the other hasn't, in file order.
    pub own: &'s [u32],
    /// The dummy variables of these assertions.
    pub dummy_lists: &'s Dummies<A>,
    /// For each theorem the axioms on which it rests in this database and not in the other one.
    pub shifts: &'s Lists<u32, A>,
}

/// Sends the lines of these assertions.
fn send_assertions<W: Write, D: Allocator, V: Allocator>(
    sink: &mut Sink,
    to: &mut W,
    database: &Database<'_, D>,
    dummy_lists: &Dummies<V>,
    assertions: &[u32],
)
    requires are_assertions { AreAssertions database.now.statements assertions.now }
    requires have_dummies { All (HaveDummies database.now.statements dummy_lists.now)
        assertions.now }
    ensures { Sent (W.contents to.old) (W.contents to.new) sink.old sink.new
        (lines_of database.now assertions.now) }
{
    for statement in assertions {
        let is_open = database.is_open(*statement);
        send_assertion(sink, to, database, dummy_lists, is_open, *statement);
    }
}

/// Sends a theorem's line, if its list has some axiom.
fn send_shift_line<W: Write, D: Allocator>(
    sink: &mut Sink,
    to: &mut W,
    database: &Database<'_, D>,
    label: &[u8],
    axioms: &[u32],
)
    requires { AreAssertions database.now.statements axioms.now }
    ensures { Sent (W.contents to.old) (W.contents to.new) sink.old sink.new
        (shift_line (record {
          label = label.now;
          cited = map (label_at database.now.statements) axioms.now;
        })) }
{
    if !axioms.is_empty() {
        send_citation_line(sink, to, database, None, label, axioms);
    }
}

/// Sends the lines of all theorems whose list has some axiom.
fn send_shift_lines<W: Write, D: Allocator, V: Allocator>(
    sink: &mut Sink,
    to: &mut W,
    database: &Database<'_, D>,
    labels: &TheoremLabels<'_, '_, D>,
    lists: &Lists<u32, V>,
)
    requires as_many_labels { length labels.now ≡ length lists.now }
    requires are_assertions { (i : ℕ) → i < length lists.now
        → AreAssertions database.now.statements (slice_index_or lists.now i []) }
    requires few_lists { length lists.now < 2 ^ 31 }
    ensures { Sent (W.contents to.old) (W.contents to.new) sink.old sink.new
        (flat_map shift_line (shift_rows database.now.statements lists.now labels.now)) }
{
    for row in 0..lists.len() {
        send_shift_line(sink, to, database, labels.label(row as u32), lists.get(row));
    }
}

/// Sends the section of a database's own assertions.
fn send_own<W: Write, D: Allocator, V: Allocator>(
    sink: &mut Sink,
    to: &mut W,
    name: &[u8],
    side: &Difference<'_, '_, D, V>,
)
    requires { IsDifference side.now.database.now side.now.own.now side.now.dummy_lists.now
        side.now.shifts.now }
    ensures { Sent (W.contents to.old) (W.contents to.new) sink.old sink.new
        (own_section name.now side.now.database.now side.now.own.now) }
{
    send_line(sink, to, name);
    send_assertions(sink, to, side.database, side.dummy_lists, side.own);
}

/// Sends the section of what a database's theorems rest on and in the other don't.
fn send_shifts<W: Write, D: Allocator, V: Allocator>(
    sink: &mut Sink,
    to: &mut W,
    name: &[u8],
    side: &Difference<'_, '_, D, V>,
)
    requires { IsDifference side.now.database.now side.now.own.now side.now.dummy_lists.now
        side.now.shifts.now }
    ensures { Sent (W.contents to.old) (W.contents to.new) sink.old sink.new
        (shift_section name.now side.now.database.now side.now.shifts.now) }
{
    send_line(sink, to, name);
    let labels = TheoremLabels::new(side.database);
    send_shift_lines(sink, to, side.database, &labels, side.shifts);
}

/// Writes the differences between two databases. It allocates no memory. Returns `WriteFailed` if a
/// write failed or accepted no byte of a piece that wasn't empty; then a prefix of the differences
/// has been written.
pub fn write_differences<W: Write, D: Allocator, V: Allocator>(
    to: &mut W,
    new: &Difference<'_, '_, D, V>,
    old: &Difference<'_, '_, D, V>,
) -> Result<(), WriteFailed>
    requires new_is_difference { IsDifference new.now.database.now new.now.own.now
        new.now.dummy_lists.now new.now.shifts.now }
    requires old_is_difference { IsDifference old.now.database.now old.now.own.now
        old.now.dummy_lists.now old.now.shifts.now }
    ensures differences_are_written { OnOk result
        (Appends (W.contents to.old) (W.contents to.new)
        (differences (lines_of new.now.database.now new.now.own.now)
        (lines_of old.now.database.now old.now.own.now)
        (shift_lines new.now.database.now new.now.shifts.now)
        (shift_lines old.now.database.now old.now.shifts.now))) }
    ensures prefix_is_written { OnErr result
        ((k : ℕ)
        × Appends (W.contents to.old) (W.contents to.new)
        (take k (differences (lines_of new.now.database.now new.now.own.now)
        (lines_of old.now.database.now old.now.own.now)
        (shift_lines new.now.database.now new.now.shifts.now)
        (shift_lines old.now.database.now old.now.shifts.now)))) }
{
    let mut sink = Sink::new();
    send_head_line(&mut sink, to, b"mmdepend-differences", 1);
    send_own(&mut sink, to, b"new", new);
    send_own(&mut sink, to, b"gone", old);
    send_shifts(&mut sink, to, b"gained", new);
    send_shifts(&mut sink, to, b"lost", old);
    send_line(&mut sink, to, b"end");
    sink.finish(to)
}

//! The line of an assertion.

ghost use Rattle.std.specs.Prelude.{◌≡◌, ◌<◌, ◌+◌, ◌^◌, ◌∷◌, length, true};
ghost use Rattle.std.specs.List.{list_any};
ghost use Rattle.mm_spec.specs.Scope.{statement_at};
ghost use Rattle.mm_spec.specs.Citation.{is_assertion};
ghost use Rattle.mm_spec.specs.Assertion.{kind_letter, kind_keyword, is_axiom_at, start_place};
ghost use Rattle.mm_spec.specs.Assertion.{end_place, front_text, formula_text, assertion_line};
ghost use Rattle.mm_tell.specs.Dummies.{DummyLists, HaveDummies};
ghost use Rattle.mm_report.specs.Sent.{Sent};

use crate::conditions::send_conditions;
use crate::labels::label_of;
use crate::sink::Sink;
use crate::symbols::{send_spaced, send_symbols};
use mm_database::Database;
use mm_outline::parts::Kind;
use mm_tell::Dummies;
use std::alloc::Allocator;
use std::io::Write;

/// Whether a statement counts as a `$a`.
fn is_axiom_at<D: Allocator>(database: &Database<'_, D>, statement: u32) -> bool
    requires { statement < length database.now.statements }
    ensures { result ≡ is_axiom_at database.now.statements statement }
{
    match database.kind(statement) {
        Kind::Axiom => true,
        _ => false,
    }
}

/// Returns `o` for an open theorem that counts as an axiom, `a` for another axiom, and `p` for a
/// theorem.
fn kind_letter(is_open: bool, is_axiom: bool) -> u8
    ensures { result ≡ kind_letter is_open is_axiom }
{
    if is_open {
        b'o'
    } else if is_axiom {
        b'a'
    } else {
        b'p'
    }
}

/// Returns the keyword that an assertion has in the text.
fn kind_keyword(is_open: bool, is_axiom: bool) -> &'static [u8]
    ensures { result.now ≡ kind_keyword is_open is_axiom }
{
    if is_axiom && !is_open {
        b"$a".as_slice()
    } else {
        b"$p".as_slice()
    }
}

/// Returns the place of a statement's label, or 0 if it has none.
fn start_place<D: Allocator>(database: &Database<'_, D>, statement: u32) -> u64
    requires { statement < length database.now.statements }
    ensures { result ≡ start_place database.now.statements statement }
{
    match database.label_place(statement) {
        Some(at) => u64::from(at),
        None => 0,
    }
}

/// Returns the place after the last token of an assertion, its `$.`.
fn end_place<D: Allocator>(database: &Database<'_, D>, statement: u32) -> u64
    requires { statement < length database.now.statements }
    ensures { result ≡ end_place database.now.statements statement }
{
    u64::from(database.end_at(statement)) + 2
}

/// Sends the front of an assertion's line: its label, its kind, the place of its label and the
/// place after its `$.`.
fn send_front<W: Write, D: Allocator>(
    sink: &mut Sink,
    to: &mut W,
    database: &Database<'_, D>,
    is_open: bool,
    assertion: u32,
)
    requires { assertion < length database.now.statements }
    ensures { Sent (W.contents to.old) (W.contents to.new) sink.old sink.new
        (front_text database.now.statements is_open assertion) }
{
    let is_axiom = is_axiom_at(database, assertion);
    sink.send(to, label_of(database, assertion));
    sink.send_byte(to, b':');
    sink.send_byte(to, kind_letter(is_open, is_axiom));
    sink.send_byte(to, b':');
    sink.send_number(to, start_place(database, assertion));
    sink.send_byte(to, b':');
    sink.send_number(to, end_place(database, assertion));
    sink.send_byte(to, b':');
}

/// Sends an assertion's keyword and its formula, and ends the line.
fn send_formula<W: Write, D: Allocator>(
    sink: &mut Sink,
    to: &mut W,
    database: &Database<'_, D>,
    is_open: bool,
    assertion: u32,
)
    requires { assertion < length database.now.statements }
    ensures { Sent (W.contents to.old) (W.contents to.new) sink.old sink.new
        (formula_text database.now.statements is_open assertion) }
{
    let is_axiom = is_axiom_at(database, assertion);
    send_spaced(sink, to, kind_keyword(is_open, is_axiom));
    send_symbols(sink, to, database, database.formula(assertion));
    sink.send_byte(to, b'\n');
}

/// Sends the line of an assertion. `dummy_lists` have its dummy variables.
pub(crate) fn send_assertion<W: Write, D: Allocator, V: Allocator>(
    sink: &mut Sink,
    to: &mut W,
    database: &Database<'_, D>,
    dummy_lists: &Dummies<V>,
    is_open: bool,
    assertion: u32,
)
    requires assertion_lt_length { assertion < length database.now.statements }
    requires is_assertion { list_any is_assertion (statement_at database.now.statements assertion)
        ≡ true }
    requires have_dummies { HaveDummies database.now.statements dummy_lists.now assertion }
    ensures { Sent (W.contents to.old) (W.contents to.new) sink.old sink.new
        (assertion_line database.now.statements is_open assertion) }
{
    send_front(sink, to, database, is_open, assertion);
    send_conditions(sink, to, database, dummy_lists, assertion);
    send_formula(sink, to, database, is_open, assertion);
}

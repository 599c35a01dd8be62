//! The section of the statements.

ghost use Rattle.std.specs.Prelude.{◌≡◌, ◌<◌, ◌∷◌, [], length, flat_map, codes, true};
ghost use Rattle.std.specs.List.{list_any, filter};
ghost use Rattle.std.specs.Option.{option_copied};
ghost use Rattle.mm_spec.specs.Scope.{statement_at};
ghost use Rattle.mm_spec.specs.Citation.{is_assertion};
ghost use Rattle.mm_spec.specs.Report.{section};
ghost use Rattle.mm_spec.specs.Assertion.{is_told, statement_lines, assertion_line};
ghost use Rattle.mm_spec.specs.Output.{is_open_at};
ghost use Rattle.mm_tell.specs.Dummies.{DummyLists, dummies_before};
ghost use Rattle.mm_report.specs.Sent.{Sent};
ghost use Rattle.mm_report.specs.Told.{AreDummiesFor, told_of};

use crate::assertion::send_assertion;
use crate::sections::send_line;
use crate::sink::Sink;
use mm_database::{Database, has_chosen_typecode};
use mm_outline::parts::Kind;
use mm_spec::Request;
use mm_tell::Dummies;
use std::alloc::Allocator;
use std::io::Write;

/// Whether a statement is an assertion.
fn is_assertion<D: Allocator>(database: &Database<'_, D>, statement: u32) -> bool
    requires { statement < length database.now.statements }
    ensures { result ≡ list_any is_assertion (statement_at database.now.statements statement) }
{
    match database.kind(statement) {
        Kind::Axiom | Kind::Theorem => true,
        _ => false,
    }
}

/// Whether a statement has a line: it is an assertion, and has the typecode if one is chosen.
fn is_told<D: Allocator>(database: &Database<'_, D>, only: Option<&[u8]>, statement: u32) -> bool
    requires { statement < length database.now.statements }
    ensures { result
        ≡ is_told database.now.statements (option_copied only.entry) statement }
{
    is_assertion(database, statement) && has_chosen_typecode(database, only, statement)
}

/// Sends the line of a statement, if it has one.
fn send_if_told<W: Write, D: Allocator, V: Allocator>(
    sink: &mut Sink,
    to: &mut W,
    database: &Database<'_, D>,
    dummy_lists: &Dummies<V>,
    only: Option<&[u8]>,
    statement: u32,
)
    requires statement_lt_length { statement < length database.now.statements }
    requires are_dummies { dummy_lists.now
        ≡ dummies_before database.now.statements (option_copied only)
        (length database.now.statements) }
    ensures { Sent (W.contents to.old) (W.contents to.new) sink.old sink.new
        (flat_map (λ k. assertion_line database.now.statements
        (is_open_at database.now.read database.now.with_open k) k)
        (filter (is_told database.now.statements (option_copied only.entry)) (statement ∷ []))) }
{
    if is_told(database, only, statement) {
        let is_open = database.is_open(statement);
        send_assertion(sink, to, database, dummy_lists, is_open, statement);
    }
}

/// Sends the lines of the statements.
fn send_statement_lines<W: Write, D: Allocator, V: Allocator>(
    sink: &mut Sink,
    to: &mut W,
    database: &Database<'_, D>,
    dummy_lists: &Dummies<V>,
    only: Option<&[u8]>,
)
    requires { dummy_lists.now
        ≡ dummies_before database.now.statements (option_copied only)
        (length database.now.statements) }
    ensures { Sent (W.contents to.old) (W.contents to.new) sink.old sink.new
        (told_of database.now (option_copied only.entry)).statements }
{
    for statement in 0..database.len() {
        send_if_told(sink, to, database, dummy_lists, only, statement);
    }
}

/// Sends the section of the statements, if it is wanted. `dummy_lists` are then the dummy variables
/// of the database's statements.
pub(crate) fn send_statements_section<W: Write, D: Allocator, V: Allocator>(
    sink: &mut Sink,
    to: &mut W,
    request: &Request<'_>,
    database: &Database<'_, D>,
    dummy_lists: &Dummies<V>,
)
    requires { AreDummiesFor request.now database.now dummy_lists.now }
    ensures { Sent (W.contents to.old) (W.contents to.new) sink.old sink.new
        (section request.now.sections.statements (codes "statements")
        (told_of database.now request.now.only).statements) }
{
    if request.sections.statements {
        send_line(sink, to, b"statements");
        send_statement_lines(sink, to, database, dummy_lists, request.only);
    }
}

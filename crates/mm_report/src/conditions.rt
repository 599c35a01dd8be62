//! The conditions of an assertion: its mandatory hypotheses, its dummy variables, and which
//! variables have to be distinct.

ghost use Rattle.std.specs.Prelude.{◌≡◌, ◌<◌, All, length, map, flat_map, slice_index_or, []};
ghost use Rattle.std.specs.Prelude.{◌++◌, true};
ghost use Rattle.std.specs.List.{list_any};
ghost use Rattle.mm_spec.specs.Scope.{statement_at};
ghost use Rattle.mm_spec.specs.Citation.{is_assertion};
ghost use Rattle.mm_spec.specs.Derivation.{pair};
ghost use Rattle.mm_spec.specs.Frame.{symbol_names, mandatory_hypotheses, mandatory_pairs};
ghost use Rattle.mm_spec.specs.Assertion.{symbols_text, hypothesis_keyword, hypothesis_text};
ghost use Rattle.mm_spec.specs.Assertion.{pair_text, dummies_text, dummies, dummy_pairs};
ghost use Rattle.mm_spec.specs.Assertion.{conditions_text};
ghost use Rattle.mm_tell.specs.Dummies.{DummyLists, HaveDummies};
ghost use Rattle.mm_report.specs.Sent.{Sent};
ghost use Rattle.mm_report.specs.Told.{ArePairsOf};

use crate::labels::label_of;
use crate::sink::Sink;
use crate::symbols::{send_spaced, send_symbol, send_symbols};
use mm_database::Database;
use mm_outline::parts::Kind;
use mm_outline::symbol::Sym;
use mm_tell::Dummies;
use std::alloc::Allocator;
use std::io::Write;

/// Returns the keyword of a hypothesis.
fn hypothesis_keyword<D: Allocator>(database: &Database<'_, D>, statement: u32) -> &'static [u8]
    requires { statement < length database.now.statements }
    ensures { result.now ≡ hypothesis_keyword database.now.statements statement }
{
    match database.kind(statement) {
        Kind::Floating => b"$f".as_slice(),
        _ => b"$e".as_slice(),
    }
}

/// Sends a hypothesis: its keyword, its label and its symbols.
fn send_hypothesis<W: Write, D: Allocator>(
    sink: &mut Sink,
    to: &mut W,
    database: &Database<'_, D>,
    statement: u32,
)
    requires { statement < length database.now.statements }
    ensures { Sent (W.contents to.old) (W.contents to.new) sink.old sink.new
        (hypothesis_text database.now.statements statement) }
{
    send_spaced(sink, to, hypothesis_keyword(database, statement));
    send_spaced(sink, to, label_of(database, statement));
    send_symbols(sink, to, database, database.formula(statement));
}

/// Sends hypotheses, in order.
fn send_hypotheses<W: Write, D: Allocator>(
    sink: &mut Sink,
    to: &mut W,
    database: &Database<'_, D>,
    statements: &[u32],
)
    requires { All (λ j. j < length database.now.statements) statements.now }
    ensures { Sent (W.contents to.old) (W.contents to.new) sink.old sink.new
        (flat_map (hypothesis_text database.now.statements) statements.now) }
{
    for statement in statements {
        send_hypothesis(sink, to, database, *statement);
    }
}

/// Sends a pair of variables that have to be distinct.
fn send_pair<W: Write, D: Allocator>(
    sink: &mut Sink,
    to: &mut W,
    database: &Database<'_, D>,
    low: Sym,
    high: Sym,
)
    requires low_lt_count { low < length (symbol_names database.now.statements) }
    requires high_lt_count { high < length (symbol_names database.now.statements) }
    ensures { Sent (W.contents to.old) (W.contents to.new) sink.old sink.new
        (pair_text database.now.statements (pair low high)) }
{
    send_spaced(sink, to, b"$d");
    send_symbol(sink, to, database, low);
    send_symbol(sink, to, database, high);
}

/// Sends pairs of variables that have to be distinct.
fn send_pairs<W: Write, D: Allocator>(
    sink: &mut Sink,
    to: &mut W,
    database: &Database<'_, D>,
    pairs: &[(Sym, Sym)],
)
    requires { ArePairsOf database.now.statements (map (λ p. pair p.0 p.1) pairs.now) }
    ensures { Sent (W.contents to.old) (W.contents to.new) sink.old sink.new
        (flat_map (pair_text database.now.statements) (map (λ p. pair p.0 p.1) pairs.now)) }
{
    for variables in pairs {
        send_pair(sink, to, database, variables.0, variables.1);
    }
}

/// Sends the names of variables by their numbers, each after a space.
fn send_variables<W: Write, D: Allocator>(
    sink: &mut Sink,
    to: &mut W,
    database: &Database<'_, D>,
    variables: &[u32],
)
    requires { All (λ v. v < length (symbol_names database.now.statements)) variables.now }
    ensures { Sent (W.contents to.old) (W.contents to.new) sink.old sink.new
        (symbols_text database.now.statements variables.now) }
{
    for variable in variables {
        send_symbol(sink, to, database, Sym::new(*variable));
    }
}

/// Sends the dummy variables, if there are any.
fn send_dummies<W: Write, D: Allocator>(
    sink: &mut Sink,
    to: &mut W,
    database: &Database<'_, D>,
    variables: &[u32],
)
    requires { All (λ v. v < length (symbol_names database.now.statements)) variables.now }
    ensures { Sent (W.contents to.old) (W.contents to.new) sink.old sink.new
        (dummies_text database.now.statements variables.now) }
{
    if variables.is_empty() {
        return;
    }
    send_spaced(sink, to, b"$v");
    send_variables(sink, to, database, variables);
}

/// Sends the mandatory hypotheses of an assertion, and its mandatory pairs.
fn send_frame<W: Write, D: Allocator>(
    sink: &mut Sink,
    to: &mut W,
    database: &Database<'_, D>,
    assertion: u32,
)
    requires { list_any is_assertion (statement_at database.now.statements assertion) ≡ true }
    ensures { Sent (W.contents to.old) (W.contents to.new) sink.old sink.new
        (flat_map (hypothesis_text database.now.statements)
        (mandatory_hypotheses database.now.statements assertion)
        ++ flat_map (pair_text database.now.statements)
        (mandatory_pairs database.now.statements assertion)) }
{
    let frame = database.frame(assertion);
    send_hypotheses(sink, to, database, &frame.hyps);
    send_pairs(sink, to, database, &frame.pairs);
}

/// Sends the mandatory hypotheses and pairs of an assertion, its dummy variables, and the pairs
/// with these.
pub(crate) fn send_conditions<W: Write, D: Allocator, V: Allocator>(
    sink: &mut Sink,
    to: &mut W,
    database: &Database<'_, D>,
    dummy_lists: &Dummies<V>,
    assertion: u32,
)
    requires assertion_lt_length { assertion < length database.now.statements }
    requires is_assertion { list_any is_assertion (statement_at database.now.statements assertion)
        ≡ true }
    requires have_dummies { HaveDummies database.now.statements dummy_lists.now assertion }
    ensures { Sent (W.contents to.old) (W.contents to.new) sink.old sink.new
        (conditions_text database.now.statements assertion) }
{
    send_frame(sink, to, database, assertion);
    send_dummies(sink, to, database, dummy_lists.variables(assertion));
    send_pairs(sink, to, database, dummy_lists.pairs(assertion));
}

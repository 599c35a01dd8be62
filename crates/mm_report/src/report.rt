//! Whole reports: the first lines, the sections that are wanted, and the line that ends them.

ghost use Rattle.std.specs.Prelude.{◌≡◌, ℕ, Option, None, [], length, take, map, OnOk, OnErr};
ghost use Rattle.std.specs.Prelude.{false};
ghost use Rattle.std.specs.Io.KnownBytes.{Appends};
ghost use Rattle.mm_spec.specs.Text.{Bytes};
ghost use Rattle.mm_spec.specs.Assertion.{label_at};
ghost use Rattle.mm_spec.specs.Output.{columns, theorems};
ghost use Rattle.mm_report.specs.Rows.{rows_of};
ghost use Rattle.mm_report.specs.Reports.{marked_part, report_of, text_request, sections_of};
ghost use Rattle.mm_report.specs.CitingRows.{citing_rows_of, AreCitationsOf};
ghost use Rattle.mm_report.specs.Reports.{open_theorem_count as spec_open_theorem_count};
ghost use Rattle.mm_report.specs.Told.{AreDummiesFor, AreStepsFor};
ghost use Rattle.mm_report.specs.Sent.{Sent};

use crate::choices::Choice;
use crate::citations::send_citations_section;
use crate::labels::{ColumnLabels, TheoremLabels};
use crate::open_theorems::open_theorem_count;
use crate::proof_lines::send_proofs_section;
use crate::sections::{send_head, send_line, send_matrix_and_counts, send_usage_section};
use crate::sink::{Sink, WriteFailed};
use crate::statements::send_statements_section;
use mm_cites::Citations;
use mm_database::Database;
use mm_rows::{Columns, MarkedRows, Matrix};
use mm_spec::{Form, Request};
use mm_tell::Told;
use std::alloc::Allocator;
use std::io::Write;

/// Sends the first lines and the sections of marks, which are wanted.
fn send_marked<W: Write, A: Allocator, D: Allocator>(
    sink: &mut Sink,
    to: &mut W,
    request: &Request<'_>,
    database: &Database<'_, D>,
    chosen: &Columns<A>,
    matrix: &Matrix<A>,
    labels: &TheoremLabels<'_, '_, D>,
)
    requires are_columns { (only : Option Bytes)
        × (chosen.now ≡ columns database.now.statements only) }
    requires as_many_columns { length chosen.now ≡ matrix.now.columns }
    requires as_many_labels { length labels.now ≡ matrix.now.rows }
    ensures { Sent (W.contents to.old) (W.contents to.new) sink.old sink.new
        (marked_part request.now
        (spec_open_theorem_count request.now.with_open database.now chosen.now)
        (map (label_at database.now.statements) chosen.now) (rows_of matrix.now labels.now)) }
{
    let columns = ColumnLabels::new(database, chosen);
    let axioms = columns.len() as u64;
    let open_theorems = open_theorem_count(database, chosen, request.with_open);
    let theorems = labels.len() as u64;
    send_head(sink, to, request, axioms, open_theorems, theorems);
    send_matrix_and_counts(sink, to, request, matrix.marked(), labels);
    send_usage_section(sink, to, request, matrix, labels, &columns);
}

/// Writes the report requested of a database, on the columns `chosen`, whose matrix is `matrix`.
/// `citations` are those of this database. `told` has the steps of its proofs if these are
/// requested, and its dummy variables if the statements are. If open theorems count as axioms, the
/// report says how many columns they are. It allocates no memory. Returns `WriteFailed` if a write
/// failed or accepted no byte of a piece that wasn't empty; then a prefix of the report has been
/// written.
pub fn write_requested_report<'a, W: Write, A: Allocator, C: Allocator, V: Allocator, D: Allocator>(
    to: &mut W,
    request: &Request<'_>,
    database: &Database<'a, D>,
    chosen: &Columns<A>,
    matrix: &Matrix<A>,
    citations: &Citations<C>,
    told: &Told<V>,
) -> Result<(), WriteFailed>
    requires are_columns { (only : Option Bytes)
        × (chosen.now ≡ columns database.now.statements only) }
    requires as_many_columns { length chosen.now ≡ matrix.now.columns }
    requires as_many_rows { length (theorems database.now.statements) ≡ matrix.now.rows }
    requires are_citations { AreCitationsOf database.now.statements citations.now }
    requires are_dummies { AreDummiesFor request.now database.now told.now.dummy_lists }
    requires are_steps { AreStepsFor request.now database.now told.now.step_lists }
    ensures report_is_written { OnOk result
        (Appends (W.contents to.old) (W.contents to.new)
        (report_of request.now database.now chosen.now matrix.now
        (citing_rows_of request.now database.now citations.now))) }
    ensures prefix_is_written { OnErr result
        ((k : ℕ)
        × Appends (W.contents to.old) (W.contents to.new)
        (take k (report_of request.now database.now chosen.now matrix.now
        (citing_rows_of request.now database.now citations.now)))) }
{
    let mut sink = Sink::new();
    let labels = TheoremLabels::new(database);
    send_marked(&mut sink, to, request, database, chosen, matrix, &labels);
    send_citations_section(&mut sink, to, request, database, &labels, citations);
    send_proofs_section(&mut sink, to, request, database, &told.step_lists);
    send_statements_section(&mut sink, to, request, database, &told.dummy_lists);
    send_line(&mut sink, to, b"end");
    sink.finish(to)
}

/// Writes the report of a database on the columns `chosen`, whose matrix is `matrix`, in the given
/// form and with the sections of `choice` (`write_citations` writes that of citations). If
/// `with_open` is set, the report says how many columns are open theorems. It allocates no memory.
/// Returns `WriteFailed` if a write failed or accepted no byte of a piece that wasn't empty; then a
/// prefix of the report has been written.
pub fn write_report<'a, W: Write, A: Allocator, D: Allocator>(
    to: &mut W,
    database: &Database<'a, D>,
    chosen: &Columns<A>,
    matrix: &Matrix<A>,
    with_open: bool,
    form: Form,
    choice: Choice,
) -> Result<(), WriteFailed>
    requires are_columns { (only : Option Bytes)
        × (chosen.now ≡ columns database.now.statements only) }
    requires as_many_columns { length chosen.now ≡ matrix.now.columns }
    requires as_many_rows { length (theorems database.now.statements) ≡ matrix.now.rows }
    ensures report_is_written { OnOk result
        (Appends (W.contents to.old) (W.contents to.new)
        (report_of (text_request None with_open form (sections_of choice)) database.now chosen.now
        matrix.now [])) }
    ensures prefix_is_written { OnErr result
        ((k : ℕ)
        × Appends (W.contents to.old) (W.contents to.new)
        (take k (report_of (text_request None with_open form (sections_of choice)) database.now
        chosen.now matrix.now []))) }
{
    let request = Request {
        sections: choice.sections(),
        form,
        with_open,
        ..Request::without_options()
    };
    let mut sink = Sink::new();
    let labels = TheoremLabels::new(database);
    send_marked(&mut sink, to, &request, database, chosen, matrix, &labels);
    send_line(&mut sink, to, b"end");
    sink.finish(to)
}

/// Writes the same as `write_requested_report` for a request without the usage, for which the rows
/// are enough. Returns `WriteFailed` as that call does.
pub fn write_rows<'a, W: Write, A: Allocator, C: Allocator, V: Allocator, D: Allocator>(
    to: &mut W,
    request: &Request<'_>,
    database: &Database<'a, D>,
    chosen: &Columns<A>,
    marked: &MarkedRows<A>,
    citations: &Citations<C>,
    told: &Told<V>,
) -> Result<(), WriteFailed>
    requires no_usage { request.now.sections.usage ≡ false }
    requires as_many_rows { length (theorems database.now.statements) ≡ marked.now.rows }
    requires are_citations { AreCitationsOf database.now.statements citations.now }
    requires are_dummies { AreDummiesFor request.now database.now told.now.dummy_lists }
    requires are_steps { AreStepsFor request.now database.now told.now.step_lists }
    ensures report_is_written { OnOk result
        (Appends (W.contents to.old) (W.contents to.new)
        (report_of request.now database.now chosen.now marked.now
        (citing_rows_of request.now database.now citations.now))) }
    ensures prefix_is_written { OnErr result
        ((k : ℕ)
        × Appends (W.contents to.old) (W.contents to.new)
        (take k (report_of request.now database.now chosen.now marked.now
        (citing_rows_of request.now database.now citations.now)))) }
{
    let mut sink = Sink::new();
    let labels = TheoremLabels::new(database);
    let axioms = chosen.len() as u64;
    let open_theorems = open_theorem_count(database, chosen, request.with_open);
    let theorems = labels.len() as u64;
    send_head(&mut sink, to, request, axioms, open_theorems, theorems);
    send_matrix_and_counts(&mut sink, to, request, marked, &labels);
    send_citations_section(&mut sink, to, request, database, &labels, citations);
    send_proofs_section(&mut sink, to, request, database, &told.step_lists);
    send_statements_section(&mut sink, to, request, database, &told.dummy_lists);
    send_line(&mut sink, to, b"end");
    sink.finish(to)
}

//! The section of direct citations, and reports that have no section of marks.

ghost use Rattle.std.specs.Prelude.{◌≡◌, ℕ, length, take, flat_map, codes, OnOk, OnErr};
ghost use Rattle.std.specs.Option.{option_copied};
ghost use Rattle.std.specs.Io.KnownBytes.{Appends};
ghost use Rattle.mm_spec.specs.Report.{citation_line, separated, list_line, section};
ghost use Rattle.mm_report.specs.CitingRows.{AreAssertions, AreCitationsOf};
ghost use Rattle.mm_report.specs.Reports.{citation_report_of};
ghost use Rattle.mm_report.specs.Rows.{next_label};
ghost use Rattle.mm_report.specs.CitingRows.{citing_rows, listed, listed_labels};
ghost use Rattle.mm_report.specs.CitingRows.{citing_rows_of};
ghost use Rattle.mm_report.specs.Reports.{unmarked_part, unmarked_report_of};
ghost use Rattle.mm_report.specs.Told.{AreDummiesFor, AreStepsFor};
ghost use Rattle.mm_report.specs.Sent.{Sent};

use crate::labels::{TheoremLabels, label_of};
use crate::open_theorems::open_theorem_count;
use crate::proof_lines::send_proofs_section;
use crate::sections::{send_head, send_line};
use crate::sink::{Sink, WriteFailed};
use crate::statements::send_statements_section;
use mm_cites::Citations;
use mm_database::{Database, has_chosen_typecode};
use mm_rows::Columns;
use mm_spec::{Form, Request, Sections};
use mm_tell::Told;
use std::alloc::Allocator;
use std::io::Write;

/// Returns the number of cited assertions that are listed.
fn listed_count<D: Allocator>(database: &Database<'_, D>, only: Option<&[u8]>, cited: &[u32]) -> u64
    requires { AreAssertions database.now.statements cited.now }
    ensures { result
        ≡ length (listed database.now.statements (option_copied only.entry) cited.now) }
{
    let mut count = 0u64;
    for statement in cited {
        if has_chosen_typecode(database, only, *statement) {
            count += 1;
        }
    }
    count
}

/// Sends a label, after a space if others are before it.
fn send_next_label<W: Write>(sink: &mut Sink, to: &mut W, label: &[u8], is_first_label: bool)
    ensures { Sent (W.contents to.old) (W.contents to.new) sink.old sink.new
        (next_label is_first_label label.now) }
{
    if is_first_label {
        sink.send(to, label);
        return;
    }
    sink.send_byte(to, b' ');
    sink.send(to, label);
}

/// Sends the labels of the cited assertions that are listed, with spaces between them.
fn send_cited<W: Write, D: Allocator>(
    sink: &mut Sink,
    to: &mut W,
    database: &Database<'_, D>,
    only: Option<&[u8]>,
    cited: &[u32],
)
    requires { AreAssertions database.now.statements cited.now }
    ensures { Sent (W.contents to.old) (W.contents to.new) sink.old sink.new
        (separated (listed_labels database.now.statements (option_copied only.entry) cited.now)) }
{
    let mut is_first_label = true;
    for statement in cited {
        if has_chosen_typecode(database, only, *statement) {
            send_next_label(sink, to, label_of(database, *statement), is_first_label);
            is_first_label = false;
        }
    }
}

/// Sends a theorem's line.
pub(crate) fn send_citation_line<W: Write, D: Allocator>(
    sink: &mut Sink,
    to: &mut W,
    database: &Database<'_, D>,
    only: Option<&[u8]>,
    label: &[u8],
    cited: &[u32],
)
    requires { AreAssertions database.now.statements cited.now }
    ensures { Sent (W.contents to.old) (W.contents to.new) sink.old sink.new
        (list_line label.now
        (listed_labels database.now.statements (option_copied only.entry) cited.now)) }
{
    sink.send(to, label);
    sink.send_byte(to, b':');
    sink.send_number(to, listed_count(database, only, cited));
    sink.send_byte(to, b':');
    send_cited(sink, to, database, only, cited);
    sink.send_byte(to, b'\n');
}

/// Sends the lines of all theorems.
fn send_citation_lines<W: Write, D: Allocator, C: Allocator>(
    sink: &mut Sink,
    to: &mut W,
    database: &Database<'_, D>,
    only: Option<&[u8]>,
    labels: &TheoremLabels<'_, '_, D>,
    citations: &Citations<C>,
)
    requires as_many_labels { length labels.now ≡ length citations.now.theorems }
    requires are_citations { AreCitationsOf database.now.statements citations.now }
    ensures { Sent (W.contents to.old) (W.contents to.new) sink.old sink.new
        (flat_map citation_line
        (citing_rows database.now.statements (option_copied only.entry) citations.now
        labels.now)) }
{
    for row in 0..citations.rows() {
        let label = labels.label(row);
        send_citation_line(sink, to, database, only, label, citations.of(row));
    }
}

/// Sends the section of the citations, if it is wanted.
pub(crate) fn send_citations_section<W: Write, D: Allocator, C: Allocator>(
    sink: &mut Sink,
    to: &mut W,
    request: &Request<'_>,
    database: &Database<'_, D>,
    labels: &TheoremLabels<'_, '_, D>,
    citations: &Citations<C>,
)
    requires as_many_labels { length labels.now ≡ length citations.now.theorems }
    requires are_citations { AreCitationsOf database.now.statements citations.now }
    ensures { Sent (W.contents to.old) (W.contents to.new) sink.old sink.new
        (section request.now.sections.citations (codes "citations")
        (flat_map citation_line
        (citing_rows database.now.statements request.now.only citations.now labels.now))) }
{
    if request.sections.citations {
        send_line(sink, to, b"citations");
        send_citation_lines(sink, to, database, request.only, labels, citations);
    }
}

/// Sends the first lines of a report that has no section of marks, and the section of the
/// citations, if it is wanted.
fn send_unmarked<W: Write, A: Allocator, C: Allocator, D: Allocator>(
    sink: &mut Sink,
    to: &mut W,
    request: &Request<'_>,
    database: &Database<'_, D>,
    chosen: &Columns<A>,
    citations: &Citations<C>,
)
    requires { AreCitationsOf database.now.statements citations.now }
    ensures { Sent (W.contents to.old) (W.contents to.new) sink.old sink.new
        (unmarked_part request.now database.now chosen.now
        (citing_rows_of request.now database.now citations.now)) }
{
    let labels = TheoremLabels::new(database);
    let axioms = chosen.len() as u64;
    let open_theorems = open_theorem_count(database, chosen, request.with_open);
    let theorems = citations.rows() as u64;
    send_head(sink, to, request, axioms, open_theorems, theorems);
    send_citations_section(sink, to, request, database, &labels, citations);
}

/// Writes the report requested of a database if it has no section of marks, for which no rows are
/// needed: the first lines, the sections of the citations, of the proofs and of the statements if
/// they are requested, and the last line. `chosen` has the columns of the typecode requested,
/// `citations` are those of this database, and `told` has the steps of its proofs if these are
/// requested, and its dummy variables if the statements are. If open theorems count as axioms, the
/// report says how many columns they are. It allocates no memory. Returns `WriteFailed` if a write
/// failed or accepted no byte of a piece that wasn't empty; then a prefix of the report has been
/// written.
pub fn write_without_marks<'a, W: Write, A: Allocator, C: Allocator, V: Allocator, D: Allocator>(
    to: &mut W,
    request: &Request<'_>,
    database: &Database<'a, D>,
    chosen: &Columns<A>,
    citations: &Citations<C>,
    told: &Told<V>,
) -> Result<(), WriteFailed>
    requires are_citations { AreCitationsOf database.now.statements citations.now }
    requires are_dummies { AreDummiesFor request.now database.now told.now.dummy_lists }
    requires are_steps { AreStepsFor request.now database.now told.now.step_lists }
    ensures report_is_written { OnOk result
        (Appends (W.contents to.old) (W.contents to.new)
        (unmarked_report_of request.now database.now chosen.now
        (citing_rows_of request.now database.now citations.now))) }
    ensures prefix_is_written { OnErr result
        ((k : ℕ)
        × Appends (W.contents to.old) (W.contents to.new)
        (take k (unmarked_report_of request.now database.now chosen.now
        (citing_rows_of request.now database.now citations.now)))) }
{
    let mut sink = Sink::new();
    send_unmarked(&mut sink, to, request, database, chosen, citations);
    send_proofs_section(&mut sink, to, request, database, &told.step_lists);
    send_statements_section(&mut sink, to, request, database, &told.dummy_lists);
    send_line(&mut sink, to, b"end");
    sink.finish(to)
}

/// Writes the report of what each theorem of a database cites in its own proof, in file order. If
/// `only` is a typecode, it lists only what has that typecode, axioms and theorems alike. `chosen`
/// has the columns of this typecode, and `citations` are those of this database. If `with_open` is
/// set, the report says how many columns are open theorems. It allocates no memory. Returns
/// `WriteFailed` if a write failed or accepted no byte of a piece that wasn't empty; then a prefix
/// of the report has been written.
pub fn write_citations<'a, W: Write, A: Allocator, C: Allocator, D: Allocator>(
    to: &mut W,
    database: &Database<'a, D>,
    chosen: &Columns<A>,
    citations: &Citations<C>,
    only: Option<&[u8]>,
    with_open: bool,
    form: Form,
) -> Result<(), WriteFailed>
    requires { AreCitationsOf database.now.statements citations.now }
    ensures report_is_written { OnOk result
        (Appends (W.contents to.old) (W.contents to.new)
        (citation_report_of (option_copied only.entry) with_open form database.now chosen.now
        citations.now)) }
    ensures prefix_is_written { OnErr result
        ((k : ℕ)
        × Appends (W.contents to.old) (W.contents to.new)
        (take k (citation_report_of (option_copied only.entry) with_open form database.now
        chosen.now citations.now))) }
{
    let sections = Sections {
        citations: true,
        ..Sections::none()
    };
    let request = Request {
        only,
        sections,
        form,
        with_open,
        ..Request::without_options()
    };
    let mut sink = Sink::new();
    send_unmarked(&mut sink, to, &request, database, chosen, citations);
    send_line(&mut sink, to, b"end");
    sink.finish(to)
}

//! The section of the proofs.

ghost use Rattle.std.specs.Prelude.{◌≡◌, ◌<◌, ◌∷◌, length, map, flat_map, codes};
ghost use Rattle.mm_spec.specs.Report.{list_line, section, separated};
ghost use Rattle.mm_spec.specs.Output.{proof_lines, theorems};
ghost use Rattle.mm_spec.specs.ProofLine.{proof_steps, step_text};
ghost use Rattle.mm_steps.specs.TheoremSteps.{as_step};
ghost use Rattle.mm_report.specs.Rows.{next_label};
ghost use Rattle.mm_report.specs.Sent.{Sent};
ghost use Rattle.mm_report.specs.Told.{AreStepsFor, AreStepsWithin, IsStepWithin};

use crate::labels::label_of;
use crate::sections::send_line;
use crate::sink::Sink;
use mm_database::Database;
use mm_spec::Request;
use mm_steps::Step;
use mm_tell::StepLists;
use std::alloc::Allocator;
use std::io::Write;

/// Sends a step: the label of its statement, or a star and the number of the step that it repeats,
/// counted from 1.
fn send_step<W: Write, D: Allocator>(
    sink: &mut Sink,
    to: &mut W,
    database: &Database<'_, D>,
    step: Step,
)
    requires { IsStepWithin database.now.statements (as_step step) }
    ensures { Sent (W.contents to.old) (W.contents to.new) sink.old sink.new
        (step_text database.now.statements (as_step step)) }
{
    match step {
        Step::Label(statement) => sink.send(to, label_of(database, statement)),
        Step::Marked(earlier) => {
            sink.send_byte(to, b'*');
            sink.send_number(to, earlier as u64 + 1);
        }
    }
}

/// Sends a step, after a space if others are before it.
fn send_next_step<W: Write, D: Allocator>(
    sink: &mut Sink,
    to: &mut W,
    database: &Database<'_, D>,
    step: Step,
    is_first_step: bool,
)
    requires { IsStepWithin database.now.statements (as_step step) }
    ensures { Sent (W.contents to.old) (W.contents to.new) sink.old sink.new
        (next_label is_first_step (step_text database.now.statements (as_step step))) }
{
    if !is_first_step {
        sink.send_byte(to, b' ');
    }
    send_step(sink, to, database, step);
}

/// Sends steps, with spaces between them.
fn send_steps<W: Write, D: Allocator>(
    sink: &mut Sink,
    to: &mut W,
    database: &Database<'_, D>,
    steps: &[Step],
)
    requires { AreStepsWithin database.now.statements (map as_step steps.now) }
    ensures { Sent (W.contents to.old) (W.contents to.new) sink.old sink.new
        (separated (map (step_text database.now.statements) (map as_step steps.now))) }
{
    let mut is_first_step = true;
    for step in steps {
        send_next_step(sink, to, database, *step, is_first_step);
        is_first_step = false;
    }
}

/// Sends a theorem's line.
fn send_proof_line<W: Write, D: Allocator>(
    sink: &mut Sink,
    to: &mut W,
    database: &Database<'_, D>,
    label: &[u8],
    steps: &[Step],
)
    requires { AreStepsWithin database.now.statements (map as_step steps.now) }
    ensures { Sent (W.contents to.old) (W.contents to.new) sink.old sink.new
        (list_line label.now
        (map (step_text database.now.statements) (map as_step steps.now))) }
{
    sink.send(to, label);
    sink.send_byte(to, b':');
    sink.send_number(to, steps.len() as u64);
    sink.send_byte(to, b':');
    send_steps(sink, to, database, steps);
    sink.send_byte(to, b'\n');
}

/// Sends the lines of all theorems.
fn send_proof_lines<W: Write, D: Allocator, V: Allocator>(
    sink: &mut Sink,
    to: &mut W,
    database: &Database<'_, D>,
    step_lists: &StepLists<V>,
)
    requires { step_lists.now
        ≡ map (proof_steps database.now.statements) (theorems database.now.statements) }
    ensures { Sent (W.contents to.old) (W.contents to.new) sink.old sink.new
        (proof_lines database.now.statements) }
{
    let theorems = database.theorems();
    for row in 0..theorems.len() {
        let label = label_of(database, theorems[row]);
        send_proof_line(sink, to, database, label, step_lists.steps(row));
    }
}

/// Sends the section of the proofs, if it is wanted. `step_lists` are then the steps of the
/// database's proofs.
pub(crate) fn send_proofs_section<W: Write, D: Allocator, V: Allocator>(
    sink: &mut Sink,
    to: &mut W,
    request: &Request<'_>,
    database: &Database<'_, D>,
    step_lists: &StepLists<V>,
)
    requires { AreStepsFor request.now database.now step_lists.now }
    ensures { Sent (W.contents to.old) (W.contents to.new) sink.old sink.new
        (section request.now.sections.proofs (codes "proofs")
        (proof_lines database.now.statements)) }
{
    if request.sections.proofs {
        send_line(sink, to, b"proofs");
        send_proof_lines(sink, to, database, step_lists);
    }
}

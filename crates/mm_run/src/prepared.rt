//! What a report needs besides the database: all of it is made before the first byte is written.

ghost use Rattle.std.specs.Prelude.{◌≡◌, ◌<◌, ◌^◌, ℕ, List, IfOk, OnOk, OnErr, length, take};
ghost use Rattle.std.specs.Io.KnownBytes.{Appends};
ghost use Rattle.mm_spec.specs.Output.{AllAreValid, IsOutput, columns};
ghost use Rattle.mm_rows.specs.Marks.{IsMatrix};
ghost use Rattle.mm_report.specs.Told.{AreDummiesFor, AreStepsFor};
ghost use Rattle.mm_run.specs.Judging.{IsFaultless};
ghost use Rattle.mm_run.specs.Prepared.{AreMarksFor, IsPrepared};

use mm_database::Database;
use mm_report::{Request, WriteFailed, write_requested_report, write_rows, write_without_marks};
use mm_rows::{Columns, MarkedRows, Matrix, marked_rows, matrix};
use mm_tell::{Dummies, StepLists, Told};
use mm_work::Citations;
use std::alloc::{AllocError, Allocator};
use std::io::Write;

/// The marks that a report needs.
#[derive(Drop)]
pub enum MarksFor<A: Allocator> {
    /// None: it has no section of marks.
    NoSection,
    /// The rows alone: it hasn't the usage.
    Rows(MarkedRows<A>),
    /// Rows and columns, for the usage.
    Usage(Matrix<A>),
}

/// What a report needs besides the database and its citations, and what takes memory to make: its
/// columns, its marks, and what it tells of proofs.
pub struct Prepared<A: Allocator> {
    pub chosen: Columns<A>,
    pub marks: MarksFor<A>,
    pub told: Told<A>,
}

/// Dropped in one call: docs/PROOFS.md, "What a check costs".
impl<A: Allocator> Drop for Prepared<A> {
    fn drop(self) {
        let Self {
            chosen: _,
            marks: _,
            told: _,
        } = self;
    }
}

/// Makes the marks that are needed for a report on these columns. Fails only if out of memory.
fn marks_for<A: Allocator + Copy>(
    alloc: A,
    request: &Request<'_>,
    citations: &Citations<A>,
    chosen: &Columns<A>,
) -> Result<MarksFor<A>, AllocError>
    ensures { IfOk result (AreMarksFor request.now citations.now chosen.now) }
{
    if !request.sections.has_marks() {
        return Ok(MarksFor::NoSection);
    }
    if request.sections.usage {
        // The rows are made on the calling thread, and so no runtime is lent.
        Ok(MarksFor::Usage(matrix(&(), alloc, citations, chosen)?))
    } else {
        Ok(MarksFor::Rows(marked_rows(alloc, citations, chosen)?))
    }
}

/// Finds the dummy variables of a database's theorems, if the statements are requested, which tell
/// them. Fails only if out of memory, or if there are 2^32 of them or more.
fn dummies_for<'a, A: Allocator + Copy>(
    alloc: A,
    request: &Request<'_>,
    database: &Database<'a, A>,
) -> Result<Dummies<A>, AllocError>
    ensures { IfOk result (AreDummiesFor request.now database.now) }
{
    if request.sections.statements {
        Dummies::new(alloc, database, request.only)
    } else {
        Ok(Dummies::none(alloc))
    }
}

/// Reads the proofs of a database's theorems, which are valid, if their steps are requested. Fails
/// only if out of memory, or if there are 2^32 of them or more.
fn steps_for<'a, A: Allocator + Copy>(
    alloc: A,
    request: &Request<'_>,
    database: &Database<'a, A>,
) -> Result<StepLists<A>, AllocError>
    requires { AllAreValid database.now.statements }
    ensures { IfOk result (AreStepsFor request.now database.now) }
{
    if request.sections.proofs {
        StepLists::new(alloc, database)
    } else {
        Ok(StepLists::none(alloc))
    }
}

/// Makes what the report requested of a database without a fault needs besides it and its
/// citations. The request has the flags `essential` and `with_open` with which it was judged. Fails
/// only if out of memory, or if there are 2^32 dummy variables or steps or more.
pub fn prepare<'a, A: Allocator + Copy>(
    alloc: A,
    request: &Request<'_>,
    database: &Database<'a, A>,
    citations: &Citations<A>,
) -> Result<Prepared<A>, AllocError>
    requires { IsFaultless request.now.essential request.now.with_open database.now citations.now }
    ensures { IfOk result (IsPrepared request.now database.now citations.now) }
{
    let chosen = Columns::new(alloc, database, request.only)?;
    let marks = marks_for(alloc, request, citations, &chosen)?;
    let dummy_lists = dummies_for(alloc, request, database)?;
    let step_lists = steps_for(alloc, request, database)?;
    Ok(Prepared {
        chosen,
        marks,
        told: Told {
            dummy_lists,
            step_lists,
        },
    })
}

/// Writes the report requested of a database without a fault, for which this was prepared. The
/// request has the flags `essential` and `with_open` with which it was judged. It allocates no
/// memory. Returns `WriteFailed` if a write failed; then a prefix of the report has been written.
pub fn write_prepared<'a, A: Allocator, W: Write>(
    to: &mut W,
    request: &Request<'_>,
    database: &Database<'a, A>,
    citations: &Citations<A>,
    prepared: &Prepared<A>,
) -> Result<(), WriteFailed>
    requires is_faultless { IsFaultless request.now.essential request.now.with_open database.now
        citations.now }
    requires is_prepared { IsPrepared request.now database.now citations.now prepared.now }
    ensures report_is_written { OnOk result
        ((bytes : List ℕ)
        × IsOutput database.now.text request.now bytes
        × Appends (W.contents to.old) (W.contents to.new) bytes) }
    ensures prefix_is_written { OnErr result
        ((bytes : List ℕ) × (k : ℕ)
        × IsOutput database.now.text request.now bytes
        × Appends (W.contents to.old) (W.contents to.new) (take k bytes)) }
{
    let chosen = &prepared.chosen;
    let told = &prepared.told;
    match &prepared.marks {
        MarksFor::NoSection => {
            write_without_marks(to, request, database, chosen, citations, told)
        }
        MarksFor::Rows(marked) => write_rows(
            to, request, database, chosen, marked, citations, told,
        ),
        MarksFor::Usage(matrix) => write_requested_report(
            to, request, database, chosen, matrix, citations, told,
        ),
    }
}

//! What a run is requested to do. This crate knows the fields of a plan and which plans a run
//! accepts: where the text is cut into pieces, how many workers check the proofs, and which columns
//! and sections the report has. It promises that `is_lawful` is true for exactly the plans that are
//! lawful by the definitions in `specs/`. It reads no text and allocates no memory.
#![tactic(auto)]

ghost use Rattle.std.specs.Prelude.{◌≡◌, ◌↔◌, IsTrue, false, length};
ghost use Rattle.mm_spec.specs.Request.{without_options};
ghost use Rattle.mm_plan.specs.Plans.{IsLawfulPlan, IsLawfulCutting, AreSortedUpTo, request_of};

use mm_spec::{Form, PIECE_LIMIT, Request, Sections, WORKER_LIMIT};
use std::alloc::Allocator;

/// Where a text is cut into pieces: into the given number of pieces of about the same length, or at
/// the given places, which are byte offsets from 0. Places past the text's end are dropped.
#[derive(Drop)]
pub enum Cutting<A: Allocator> {
    Count(u32),
    Places(Vec<u32, A>),
}

/// What a run is requested to do: how the text is cut, how many workers check the proofs, the
/// typecode of the axioms that are columns (`None`: all axioms), the sections of the report, the
/// form of its matrix, whether only the essential nodes of a proof count as citations, whether open
/// theorems count as axioms, and whether a comparison of two texts writes the report on NEW behind
/// the differences (a run on one text doesn't look at that). The cuts and the workers don't change
/// what is written.
pub struct Plan<A: Allocator> {
    pub cuts: Cutting<A>,
    pub workers: u32,
    pub only: Option<String<A>>,
    pub choice: Sections,
    pub form: Form,
    pub essential: bool,
    pub with_open: bool,
    pub and_report: bool,
}

/// Dropped in one call: docs/PROOFS.md, "What a check costs".
impl<A: Allocator> Drop for Plan<A> {
    fn drop(self) {
        let Self {
            cuts: _,
            workers: _,
            only: _,
            choice: _,
            form: _,
            essential: _,
            with_open: _,
            and_report: _,
        } = self;
    }
}

/// Whether no place is less than the one before it.
fn is_sorted(places: &[u32]) -> bool
    ensures { IsTrue result ↔ AreSortedUpTo places.now (length places.now) }
{
    for i in 1..places.len() {
        if places[i] < places[i - 1] {
            return false;
        }
    }
    true
}

impl<A: Allocator> Cutting<A> {
    fn is_lawful(&self) -> bool
        ensures { IsTrue result ↔ IsLawfulCutting self.now }
    {
        match self {
            Cutting::Count(count) => 1 <= *count && *count <= PIECE_LIMIT,
            Cutting::Places(places) => is_sorted(places),
        }
    }
}

impl<A: Allocator> Plan<A> {
    /// The plan without options: the report with the sections that it has by default, of a text
    /// that is cut in this way, whose proofs this many workers check.
    pub fn without_options(cuts: Cutting<A>, workers: u32) -> Self
        ensures cuts_are { result.cuts ≡ cuts }
        ensures workers_are { result.workers ≡ workers }
        ensures requests_no_option { request_of result ≡ without_options }
        ensures is_no_report_behind { result.and_report ≡ false }
    {
        Plan {
            cuts,
            workers,
            only: None,
            choice: Sections::by_default(),
            form: Form::One,
            essential: false,
            with_open: false,
            and_report: false,
        }
    }

    /// Whether a run accepts the plan: it has 1 to 64 pieces, or places none of which is less than
    /// the one before it, and 1 to 64 workers.
    pub fn is_lawful(&self) -> bool
        ensures { IsTrue result ↔ IsLawfulPlan self.now }
    {
        self.cuts.is_lawful() && 1 <= self.workers && self.workers <= WORKER_LIMIT
    }

    /// What is requested of the report.
    pub fn request(&self) -> Request<'_>
        ensures { result ≡ request_of self.now }
    {
        Request {
            only: match &self.only {
                Some(typecode) => Some(typecode.as_bytes()),
                None => None,
            },
            sections: self.choice,
            form: self.form,
            essential: self.essential,
            with_open: self.with_open,
        }
    }
}

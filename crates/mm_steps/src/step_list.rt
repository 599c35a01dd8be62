//! The steps of a proof, with their places.

ghost use Rattle.std.specs.Prelude.{◌≡◌, ◌<◌, ◌++◌, ◌∷◌, [], length, OnOk, OnErr};
ghost use Rattle.mm_spec.specs.Steps.{placed};
ghost use Rattle.mm_steps.specs.TheoremSteps.{TheoremSteps, theorem_steps, as_step, step_at};
ghost use Rattle.mm_steps.specs.TheoremSteps.{is_marked as marked_in, IsEarlier};

use std::alloc::{AllocError, Allocator};
use std::marker::Model;

/// A step of a proof.
#[derive(Clone, Copy, Debug, PartialEq, Eq)]
pub enum Step {
    /// The label of a hypothesis or an assertion, by the number of its statement.
    Label(u32),
    /// The subproof that an earlier step ended, by the number of that step, counted from 0.
    Marked(u32),
}

/// What the number of a step counts: statements, or steps.
#[derive(Clone, Copy, Drop)]
enum StepKind {
    Label,
    Marked,
}

/// A step with its place, and whether it is marked. The kind of a step and what it refers to are
/// fields of their own, since with a `Step` as a field this would take a third more memory.
#[derive(Clone, Copy, Drop)]
struct Placed {
    at: u32,
    /// The number of a statement or of an earlier step.
    number: u32,
    kind: StepKind,
    is_marked: bool,
}

/// The maximum number of steps for which room is reserved at first. Most proofs have fewer.
const MAX_RESERVED_STEPS: usize = 4096;

/// The steps of a theorem's proof, numbered from 0, each with its place.
#[derive(Drop)]
pub struct Steps<A: Allocator> {
    theorem: u32,
    steps: Vec<Placed, A>,
}

impl<A: Allocator> Model for Steps<A> {
    ghost use Rattle.mm_steps.specs.TheoremSteps.{TheoremSteps, theorem_steps};
    ghost use Rattle.mm_steps.specs.StoredSteps.{placed_steps, TellWhichAreMarked};

    ghost Value = { TheoremSteps };

    ghost view = { λ s. theorem_steps s.theorem (placed_steps s.steps.items) };

    ghost invariant = { λ s. TellWhichAreMarked s.steps.items };
}

impl<A: Allocator> Steps<A> {
    /// No steps yet, of the proof of the statement `theorem`, which has at most `max_steps` steps.
    pub fn none(alloc: A, theorem: u32, max_steps: usize) -> Self
        ensures { result ≡ theorem_steps theorem [] }
    {
        let mut steps = Vec::new(alloc);
        // If there is no memory for the room, the list begins without it and grows as steps come.
        match steps.reserve(max_steps.min(MAX_RESERVED_STEPS)) {
            Ok(()) => {}
            Err(_) => {}
        }
        Steps { theorem, steps }
    }

    /// Appends a step, whose place is a byte offset from 0. If it is `Step::Marked`, it repeats the
    /// subproof of an earlier step, which is then marked. Fails only if out of memory, and then
    /// nothing was appended.
    pub fn push(&mut self, at: u32, step: Step) -> Result<(), AllocError>
        requires { IsEarlier (as_step step) (length self.old.steps) }
        ensures step_is_added { OnOk result
            (self.new
            ≡ theorem_steps self.old.theorem (self.old.steps ++ placed at (as_step step) ∷ [])) }
        ensures nothing_changes { OnErr result (self.new ≡ self.old) }
    {
        match step {
            Step::Label(statement) => self.steps.push(Placed {
                at,
                number: statement,
                kind: StepKind::Label,
                is_marked: false,
            })?,
            Step::Marked(earlier) => {
                self.steps.push(Placed {
                    at,
                    number: earlier,
                    kind: StepKind::Marked,
                    is_marked: false,
                })?;
                self.steps[earlier as usize].is_marked = true;
            }
        }
        Ok(())
    }

    /// The number of the theorem's statement.
    pub fn theorem(&self) -> u32
        ensures { result ≡ self.now.theorem }
    {
        self.theorem
    }

    /// How many steps there are.
    pub fn len(&self) -> usize
        ensures { result ≡ length self.now.steps }
    {
        self.steps.len()
    }

    /// Step `i`.
    pub fn step(&self, i: usize) -> Step
        requires { i < length self.now.steps }
        ensures { as_step result ≡ (step_at self.now.steps i).step }
    {
        let placed = self.steps[i];
        match placed.kind {
            StepKind::Label => Step::Label(placed.number),
            StepKind::Marked => Step::Marked(placed.number),
        }
    }

    /// Whether step `i` is marked: some step repeats the subproof that it ended.
    pub fn is_marked(&self, i: usize) -> bool
        requires { i < length self.now.steps }
        ensures { result ≡ marked_in self.now.steps i }
    {
        self.steps[i].is_marked
    }

    /// The place of step `i`, a byte offset from 0: that of its label, or in a compressed proof
    /// that of its number's first letter.
    pub fn place(&self, i: usize) -> u32
        requires { i < length self.now.steps }
        ensures { result ≡ (step_at self.now.steps i).at }
    {
        self.steps[i].at
    }
}

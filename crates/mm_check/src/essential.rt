//! The assertions that are the labels of essential nodes of a proof.

ghost use Rattle.std.specs.Prelude.{◌≡◌, ◌<◌, ◌++◌, ◌∷◌, ◌||◌, ◌&&◌, [], ℕ, length, replicate};
ghost use Rattle.std.specs.Prelude.{true, false, Decides, OnOk};
ghost use Rattle.std.specs.List.{list_any};
ghost use Rattle.mm_spec.specs.Scope.{statement_at};
ghost use Rattle.mm_spec.specs.Frame.{is_essential as is_essential_statement};
ghost use Rattle.mm_spec.specs.Derivation.{Trees, is_member};
ghost use Rattle.mm_spec.specs.Citation.{IsProof, Cites};
ghost use Rattle.mm_steps.specs.TheoremSteps.{as_step, IsEarlier};
ghost use Rattle.mm_rule.specs.Assertions.{is_assertion_at};
ghost use Rattle.mm_check.specs.Contract.{is_labelled_step, IsLabelBelow};
ghost use Rattle.mm_check.specs.Flags.{child_flags, taken_flags, step_flags_after};
ghost use Rattle.mm_check.specs.Reached.{AreStepsOf};

use crate::noted::NotedAssertions;
use mm_database::Database;
use mm_rule::{empty, is_assertion, is_essential_hypothesis, mandatory_hypotheses};
use mm_steps::{Step, Steps};
use std::alloc::{AllocError, Allocator};

/// Which entries and which steps are essential, during a pass over the steps of a proof from last
/// to first. It is kept from proof to proof so that its memory is reused.
#[derive(Drop)]
pub struct Flags<A: Allocator> {
    /// For each entry on the stack after a step, from bottom to top, whether it is essential.
    entry_flags: Vec<bool, A>,
    /// For each step whether an essential later step repeats the subproof that it ended.
    step_flags: Vec<bool, A>,
}

impl<A: Allocator> Flags<A> {
    /// No flags.
    pub fn new(alloc: A) -> Self
    where
        A: Copy,
    {
        Flags {
            entry_flags: Vec::new(alloc),
            step_flags: Vec::new(alloc),
        }
    }

    /// Leaves in `noted` the assertions that are cited: all, or if `essential` is set only those
    /// that are labels of essential nodes.
    pub fn retain_cited(
        &mut self,
        database: &Database<A>,
        theorem: u32,
        steps: &Steps<A>,
        essential: bool,
        noted: &mut NotedAssertions<A>,
    ) -> Result<(), AllocError>
        requires are_steps { AreStepsOf database.now.statements theorem steps.now.steps }
        requires has_proof { (d : Trees) × IsProof database.now.statements theorem d }
        requires noted_are_cited { (a : ℕ)
            → Decides (is_member noted.old a) (Cites database.now.statements false theorem a) }
        ensures { OnOk result
            ((a : ℕ)
            → Decides (is_member noted.new a)
            (Cites database.now.statements essential theorem a)) }
    {
        if essential {
            note_essential(
                database,
                theorem,
                steps,
                noted,
                &mut self.entry_flags,
                &mut self.step_flags,
            )
        } else {
            Ok(())
        }
    }
}

/// Resets the flags to one entry, which is essential, and `count` steps that no step repeats.
fn reset_flags<A: Allocator>(
    count: usize,
    entry_flags: &mut Vec<bool, A>,
    step_flags: &mut Vec<bool, A>,
) -> Result<(), AllocError>
    ensures root_is_essential { OnOk result (entry_flags.new.items ≡ true ∷ []) }
    ensures no_step_is_set { OnOk result (step_flags.new.items ≡ replicate count false) }
{
    empty(entry_flags);
    empty(step_flags);
    entry_flags.push(true)?;
    step_flags.resize(count, false)
}

/// Pops the top flag.
fn pop_flag<A: Allocator>(entry_flags: &mut Vec<bool, A>) -> bool
    requires { 0 < length entry_flags.old.items }
    ensures { entry_flags.old.items ≡ entry_flags.new.items ++ result ∷ [] }
{
    match entry_flags.pop() {
        Some(flag) => flag,
        None => false,
    }
}

/// Whether the child for a hypothesis is essential: its parent is, and the hypothesis is a `$e`.
fn flag_for<A: Allocator>(database: &Database<A>, hypothesis: u32, is_essential: bool) -> bool
    requires { hypothesis < length database.now.statements }
    ensures { result
        ≡ (is_essential && list_any is_essential_statement
        (statement_at database.now.statements hypothesis)) }
{
    is_essential && is_essential_hypothesis(database, hypothesis)
}

/// Pushes a flag for each child of a node whose label is the assertion. `is_essential` says whether
/// the node is essential.
fn push_flags<A: Allocator>(
    database: &Database<A>,
    assertion: u32,
    is_essential: bool,
    entry_flags: &mut Vec<bool, A>,
) -> Result<(), AllocError>
    requires { is_assertion_at database.now.statements assertion ≡ true }
    ensures { OnOk result
        (entry_flags.new.items ≡ entry_flags.old.items
        ++ child_flags database.now.statements is_essential assertion) }
{
    for hypothesis in mandatory_hypotheses(database, assertion) {
        entry_flags.push(flag_for(database, *hypothesis, is_essential))?;
    }
    Ok(())
}

/// Undoes a step whose own flag was popped: pushes the flags of the entries that the step took. If
/// the step is essential, notes its assertion, or sets `step_flags` for the step whose subproof it
/// repeats.
fn undo_step<A: Allocator>(
    database: &Database<A>,
    step: Step,
    is_essential: bool,
    noted: &mut NotedAssertions<A>,
    entry_flags: &mut Vec<bool, A>,
    step_flags: &mut [bool],
) -> Result<(), AllocError>
    requires label_is_below { IsLabelBelow (as_step step) (length database.now.statements) }
    requires repeats_earlier { IsEarlier (as_step step) (length step_flags.old) }
    ensures notes_applied { OnOk result
        ((a : ℕ)
        → is_member noted.new a
        ≡ (is_member noted.old a
        || (is_essential
        && (is_labelled_step (as_step step) a && is_assertion_at database.now.statements a)))) }
    ensures pushes_taken_flags { OnOk result
        (entry_flags.new.items
        ≡ entry_flags.old.items
        ++ taken_flags database.now.statements is_essential (as_step step)) }
    ensures sets_step_flag { OnOk result
        (step_flags.new ≡ step_flags_after is_essential (as_step step) step_flags.old) }
{
    if is_essential {
        noted.add_applied(database, step)?;
    }
    match step {
        Step::Label(statement) => {
            if is_assertion(database, statement) {
                push_flags(database, statement, is_essential, entry_flags)?;
            }
        }
        Step::Marked(earlier) => {
            if is_essential {
                step_flags[earlier as usize] = true;
            }
        }
    }
    Ok(())
}

/// Notes the assertions of essential nodes, in one pass over the steps from last to first. So when
/// the pass reaches a step, the flags say whether the entry that it pushed is essential, and
/// whether an essential later step repeats its subproof.
fn note_essential<A: Allocator>(
    database: &Database<A>,
    theorem: u32,
    steps: &Steps<A>,
    noted: &mut NotedAssertions<A>,
    entry_flags: &mut Vec<bool, A>,
    step_flags: &mut Vec<bool, A>,
) -> Result<(), AllocError>
    requires are_steps { AreStepsOf database.now.statements theorem steps.now.steps }
    requires has_proof { (d : Trees) × IsProof database.now.statements theorem d }
    ensures { OnOk result
        ((a : ℕ)
        → Decides (is_member noted.new a) (Cites database.now.statements true theorem a)) }
{
    noted.clear();
    reset_flags(steps.len(), entry_flags, step_flags)?;
    for i in (0..steps.len()).rev() {
        let flag = pop_flag(entry_flags);
        let is_essential = flag || step_flags[i];
        undo_step(
            database,
            steps.step(i),
            is_essential,
            noted,
            entry_flags,
            step_flags,
        )?;
    }
    Ok(())
}

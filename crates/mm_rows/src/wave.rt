//! The waves of theorems: how long the longest chain of citations from each of them is.

ghost use Rattle.std.specs.Prelude.{◌≡◌, ◌<◌, ◌≤◌, length, IfOk};
ghost use Rattle.mm_cites.specs.Citing.{HasCitation, theorem_at};
ghost use Rattle.mm_spec.specs.Laws.Chains.{IsLongestChain};
ghost use Rattle.mm_rows.specs.Waves.{IsCitingTheorem, AreWaves};

use crate::indices::StatementIndices;
use mm_cites::Citations;
use std::alloc::{AllocError, Allocator};

/// Returns the wave of a theorem. `waves` has those of the theorems before it.
fn wave_of_theorem<A: Allocator>(
    citations: &Citations<A>,
    theorems: &StatementIndices<A>,
    waves: &[u32],
    theorem_index: u32,
) -> u32
    requires theorems_are { theorems.now ≡ citations.now.theorems }
    requires index_lt_theorems { theorem_index < length citations.now.theorems }
    requires are_waves { AreWaves citations.now theorem_index waves.now }
    ensures is_wave { IsLongestChain (HasCitation citations.now) (IsCitingTheorem citations.now)
        (theorem_at citations.now theorem_index) result }
    ensures wave_le_index { result ≤ theorem_index }
{
    let mut wave = 0u32;
    for statement in citations.of(theorem_index) {
        if let Some(cited_index) = theorems.find(*statement) {
            wave = wave.max(waves[cited_index] + 1);
        }
    }
    wave
}

/// Returns the waves of all theorems. `theorems` has the indices of their statements.
fn waves_of<A: Allocator + Copy>(
    alloc: A,
    citations: &Citations<A>,
    theorems: &StatementIndices<A>,
) -> Result<Vec<u32, A>, AllocError>
    requires { theorems.now ≡ citations.now.theorems }
    ensures { IfOk result (λ v. AreWaves citations.now (length citations.now.theorems) v.items) }
{
    let mut waves = Vec::new(alloc);
    for theorem_index in 0..citations.rows() {
        let wave = wave_of_theorem(citations, theorems, &waves, theorem_index);
        waves.push(wave)?;
    }
    Ok(waves)
}

/// Returns for each theorem the number of citations in the longest chain from it that runs through
/// theorems only.
pub fn waves<A: Allocator + Copy>(
    alloc: A,
    citations: &Citations<A>,
) -> Result<Vec<u32, A>, AllocError>
    ensures { IfOk result (λ v. AreWaves citations.now (length citations.now.theorems) v.items) }
{
    let theorems = StatementIndices::new(alloc, citations.theorems())?;
    waves_of(alloc, citations, &theorems)
}

//! How many variables each unit has.

ghost use Rattle.std.specs.Prelude.{◌≡◌, ◌+◌, ◌/◌, ◌^◌, ◌≤◌, vec_len, IfOk};
ghost use Rattle.dbg_gen.specs.Asked.{AreFew};
ghost use Rattle.dbg_gen.specs.VariableCounts.{state_after, stepped, variable_counts};

use std::alloc::{AllocError, Global};

/// The state of the generator after one step.
#[tactic(auto, using(crate::proofs::CountLaws::step_laws))]
fn stepped(state: u64) -> u64
    ensures { result ≡ stepped state }
{
    state
        .wrapping_mul(6364136223846793005)
        .wrapping_add(1442695040888963407)
}

/// How many variables a unit has: 1 and the highest four bits of the state.
fn variable_count(state: u64) -> u64
    ensures value { result ≡ 1 + state / 2 ^ 60 }
    ensures few { result ≤ 16 }
{
    1 + (state >> 60)
}

/// How many variables each of so many units has.
#[tactic(auto, unfolding(crate::specs::VariableCounts::variable_counts))]
pub(crate) fn variable_counts(alloc: Global, seed: u64, units: u32) -> Result<Vec<u64>, AllocError>
    ensures counts { IfOk result (λ counts. counts.items ≡ variable_counts seed units) }
    ensures many { IfOk result (λ counts. vec_len counts ≡ units) }
    ensures few { IfOk result (λ counts. AreFew counts.items) }
{
    let mut counts = Vec::with_capacity(alloc, units as usize)?;
    let mut state = seed;
    for unit in 0..units {
        let next = stepped(state);
        counts.push(variable_count(next))?;
        state = next;
    }
    Ok(counts)
}

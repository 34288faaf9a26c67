ghost use Rattle.std.specs.Prelude.{◌≡◌, ◌++◌, length, map, replicate, IfOk, OnOk};
ghost use Rattle.merge_model.specs.Merging.{repeated};

use crate::Agent;
use edge::NoMemory;
use std::alloc::Global;

/// Each entry as often as its agent counts, in order; `NoMemory` for want of it.
pub fn full_vector(alloc: Global, vector: &[u32], agents: &[Agent]) -> Result<Vec<u32>, NoMemory>
    requires { length vector.now ≡ length agents.now }
    ensures { IfOk result
        (λ full. full.items ≡ repeated (map (λ agent. agent.times) agents.now) vector.now) }
{
    let mut full = Vec::new(alloc);
    for (i, agent) in agents.iter().enumerate() {
        push_times(&mut full, vector[i], agent.times)?;
    }
    Ok(full)
}

/// Appends the entry so many times.
fn push_times(full: &mut Vec<u32>, entry: u32, times: u32) -> Result<(), NoMemory>
    ensures { OnOk result (full.new.items ≡ full.old.items ++ replicate times entry) }
{
    for _ in 0..times {
        full.push(entry)?;
    }
    Ok(())
}

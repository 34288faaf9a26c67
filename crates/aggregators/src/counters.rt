ghost use Rattle.std.specs.Prelude.{◌≡◌, ◌<◌, ◌++◌, length, replicate, slice_index, All, IfOk};
ghost use Rattle.std.specs.Prelude.{OnOk};
ghost use Rattle.merge_model.specs.Merging.{repeated};
ghost use Rattle.aggregators.specs.Levels.{column};

use edge::NoMemory;
use std::alloc::Global;
use totalizer::Unary;

/// Each counter as often as its number of times says, in order; `NoMemory` for want of it.
pub fn repeated_counters(
    alloc: Global,
    counters: &[Unary],
    times: &[u32],
) -> Result<Vec<Unary>, NoMemory>
    requires { length counters.now ≡ length times.now }
    ensures { IfOk result (λ parts. parts.items ≡ repeated times.now counters.now) }
{
    let mut parts = Vec::new(alloc);
    for (i, counter) in counters.iter().enumerate() {
        push_copies(&mut parts, counter, times[i])?;
    }
    Ok(parts)
}

/// Appends the counter so many times.
fn push_copies(parts: &mut Vec<Unary>, copied: &Unary, times: u32) -> Result<(), NoMemory>
    ensures { OnOk result (parts.new.items ≡ parts.old.items ++ replicate times copied.now) }
{
    for _ in 0..times {
        parts.push(copied.copy()?)?;
    }
    Ok(())
}

/// Output `k`, from 0, of each counter; `NoMemory` for want of it.
pub fn outputs_at(alloc: Global, counters: &[Unary], k: usize) -> Result<Vec<u32>, NoMemory>
    requires { All (λ counter. k < length counter) counters.now }
    ensures { IfOk result (λ outputs. outputs.items ≡ column k counters.now) }
{
    let mut outputs = Vec::new(alloc);
    for counter in counters {
        outputs.push(output(counter, k))?;
    }
    Ok(outputs)
}

/// Output `k`, from 0, of a counter.
fn output(counter: &Unary, k: usize) -> u32
    requires { k < length counter.now }
    ensures { result ≡ slice_index counter.now k }
{
    counter.outputs()[k]
}

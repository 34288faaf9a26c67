ghost use Rattle.std.specs.Prelude.{◌≡◌, ℕ, ◌*◌, map, IfOk, OnOk};
ghost use Rattle.std.specs.List.{range_with_len};
ghost use Rattle.merge_model.specs.declared.problem.Problem.{Problem};
ghost use Rattle.merge_model.specs.Answers.{profile_of};
ghost use Rattle.merge_model.specs.Merging.{LacksModel};
ghost use Rattle.bench_problem.specs.Bench.{agent_count, agent_of, ask_at, ask_count, atom_name};
ghost use Rattle.bench_problem.specs.Bench.{base_size, draws_of, IsBench};
ghost use Rattle.bench_problem.specs.Draws.{state_after};
ghost use Rattle.bench_problem.specs.Planted.{atom_count};

use crate::draws::Draws;
use crate::planted::{ATOMS, ask, planted};
use edge::NoMemory;
use formulas::{Atoms, Formula};
use merge_model::{Agent, Problem, Sequence};
use std::alloc::Global;

/// How many agents there are.
const AGENTS: u32 = 8;

/// How many queries there are.
const ASKS: u32 = 4;

/// How many disjunctions the constraint has.
const CONSTRAINT_SIZE: u32 = 16;

/// How many disjunctions a base has.
const BASE_SIZE: u32 = 10;

/// x0 to x23.
fn atoms(alloc: Global) -> Result<Atoms, NoMemory>
    ensures { IfOk result (λ atoms. atoms ≡ map atom_name (range_with_len 0 atom_count)) }
{
    let mut atoms = Atoms::new(alloc);
    for number in 0..ATOMS {
        let name = format!(in alloc; "x{number}")?;
        atoms.add(name.as_str())?;
    }
    Ok(atoms)
}

/// g1 to g8 with their bases.
fn agents(alloc: Global, draws: &mut Draws) -> Result<Vec<Agent>, NoMemory>
    ensures agents { IfOk result (λ agents. agents.items
        ≡ map (agent_of draws.old) (range_with_len 0 agent_count)) }
    ensures state { OnOk result
        (draws.new ≡ state_after draws.old (draws_of base_size * agent_count)) }
{
    let mut agents = Vec::new(alloc);
    for number in 0..AGENTS {
        let label = number + 1;
        let name = format!(in alloc; "g{label}")?.into_bytes();
        let base = planted(alloc, draws, BASE_SIZE)?;
        agents.push(Agent {
            name: Sequence::from_vec(name),
            times: 1,
            base,
        })?;
    }
    Ok(agents)
}

/// The queries.
fn asks(alloc: Global, draws: &mut Draws) -> Result<Vec<Formula>, NoMemory>
    ensures { IfOk result (λ asks. asks.items
        ≡ map (ask_at draws.old) (range_with_len 0 ask_count)) }
{
    let mut asks = Vec::new(alloc);
    for _ in 0..ASKS {
        asks.push(ask(alloc, draws)?)?;
    }
    Ok(asks)
}

/// The bench problem with this number; `NoMemory` for want of memory.
pub fn bench_problem(alloc: Global, number: u64) -> Result<Problem, NoMemory>
    ensures { IfOk result (λ problem. IsBench number problem) }
{
    let mut draws = Draws::new(number);
    let atoms = atoms(alloc)?;
    let constraint = planted(alloc, &mut draws, CONSTRAINT_SIZE)?;
    let agents = agents(alloc, &mut draws)?;
    let asks = asks(alloc, &mut draws)?;
    Ok(Problem::new(
        atoms,
        constraint,
        Sequence::from_vec(agents),
        Sequence::from_vec(asks),
    ))
}

/// The constraint and each base of a bench problem have a model.
pub fn bench_has_models()
    ensures { (bench : ℕ) (problem : Problem) → IsBench bench problem
        → LacksModel (profile_of problem) → ⊥ }
{}

ghost use Rattle.std.specs.Prelude.{◌≡◌, ◌≤◌, ◌++◌, length, map, All, codes, IfOk, OnOk, OnErr};
ghost use Rattle.formulas.specs.Formulas.{width_of};
ghost use Rattle.formulas.specs.Names.{names_of};
ghost use Rattle.profile_text.specs.ProblemText.{agent_line, ask_line, atoms_line, constraint_line};
ghost use Rattle.profile_text.specs.ProblemText.{lines_text, problem_text};

use crate::lines::{write_agent, write_ask, write_atoms, write_constraint};
use edge::NoMemory;
use formulas::{Atoms, Formula};
use merge_model::{Agent, Problem};
use report_words::write_bytes;
use std::alloc::Global;

/// Appends the canonical text of a problem, or nothing on `NoMemory`.
pub fn write_problem(problem: &Problem, into: &mut Vec<u8>) -> Result<(), NoMemory>
    ensures written { OnOk result (into.new.items ≡ into.old.items ++ problem_text problem.now) }
    ensures kept { OnErr result (into.new.items ≡ into.old.items) }
{
    let text = canonical_text(*into.allocator(), problem)?;
    write_bytes(text.as_slice(), into)
}

/// The canonical text of a problem; `NoMemory` for want of it.
pub fn canonical_text(alloc: Global, problem: &Problem) -> Result<Vec<u8>, NoMemory>
    ensures { IfOk result (λ text. text.items ≡ problem_text problem.now) }
{
    let mut text = Vec::new(alloc);
    write_atoms_line(&problem.atoms, &mut text)?;
    write_constraint_line(&problem.constraint, &problem.atoms, &mut text)?;
    write_agent_lines(problem.agents.as_slice(), &problem.atoms, &mut text)?;
    write_ask_lines(problem.asks.as_slice(), &problem.atoms, &mut text)?;
    Ok(text)
}

/// Appends the line that declares the atoms.
fn write_atoms_line(atoms: &Atoms, into: &mut Vec<u8>) -> Result<(), NoMemory>
    ensures { OnOk result
        (into.new.items ≡ into.old.items ++ (atoms_line atoms.now ++ codes "\n")) }
{
    write_atoms(atoms, 0, into)?;
    write_bytes(b"\n", into)
}

/// Appends the line of the constraint.
fn write_constraint_line(
    constraint: &Formula,
    atoms: &Atoms,
    into: &mut Vec<u8>,
) -> Result<(), NoMemory>
    requires { width_of constraint.now ≤ length atoms.now }
    ensures { OnOk result
        (into.new.items ≡ into.old.items ++
        (constraint_line (names_of atoms.now) constraint.now ++ codes "\n")) }
{
    write_constraint(constraint, atoms, into)?;
    write_bytes(b"\n", into)
}

/// Appends the lines of the agents.
fn write_agent_lines(agents: &[Agent], atoms: &Atoms, into: &mut Vec<u8>) -> Result<(), NoMemory>
    requires { All (λ agent. width_of agent.base ≤ length atoms.now) agents.now }
    ensures { OnOk result
        (into.new.items ≡ into.old.items ++ lines_text
        (map (agent_line (names_of atoms.now)) agents.now)) }
{
    for agent in agents {
        write_agent_line(agent, atoms, into)?;
    }
    Ok(())
}

/// Appends the line of an agent.
fn write_agent_line(agent: &Agent, atoms: &Atoms, into: &mut Vec<u8>) -> Result<(), NoMemory>
    requires { width_of agent.now.base ≤ length atoms.now }
    ensures { OnOk result
        (into.new.items ≡ into.old.items ++
        (agent_line (names_of atoms.now) agent.now ++ codes "\n")) }
{
    write_agent(agent, atoms, into)?;
    write_bytes(b"\n", into)
}

/// Appends the lines of the queries.
fn write_ask_lines(asks: &[Formula], atoms: &Atoms, into: &mut Vec<u8>) -> Result<(), NoMemory>
    requires { All (λ ask. width_of ask ≤ length atoms.now) asks.now }
    ensures { OnOk result
        (into.new.items ≡ into.old.items ++ lines_text
        (map (ask_line (names_of atoms.now)) asks.now)) }
{
    for ask in asks {
        write_ask_line(ask, atoms, into)?;
    }
    Ok(())
}

/// Appends the line of a query.
fn write_ask_line(ask: &Formula, atoms: &Atoms, into: &mut Vec<u8>) -> Result<(), NoMemory>
    requires { width_of ask.now ≤ length atoms.now }
    ensures { OnOk result
        (into.new.items ≡ into.old.items ++ (ask_line (names_of atoms.now) ask.now ++ codes "\n")) }
{
    write_ask(ask, atoms, into)?;
    write_bytes(b"\n", into)
}

ghost use Rattle.std.specs.Prelude.{◌≡◌, ◌≤◌, ◌++◌, drop, length, IfOk, OnOk};
ghost use Rattle.formulas.specs.Formulas.{width_of};
ghost use Rattle.formulas.specs.Names.{names_of};
ghost use Rattle.profile_text.specs.ProblemText.{agent_line, ask_line, atoms_line, constraint_line};
ghost use Rattle.profile_text.specs.ProblemText.{times_text};

use edge::NoMemory;
use formula_text::write_formula;
use formulas::{Atoms, Formula};
use itoa::Buffer;
use merge_model::Agent;
use report_words::write_bytes;
use std::alloc::Global;

/// The line that declares the atoms from a number on; `NoMemory` for want of memory.
pub fn atoms_line(alloc: Global, atoms: &Atoms, from: u32) -> Result<Vec<u8>, NoMemory>
    requires { from ≤ length atoms.now }
    ensures { IfOk result (λ line. line.items ≡ atoms_line (drop from atoms.now)) }
{
    let mut line = Vec::new(alloc);
    write_atoms(atoms, from, &mut line)?;
    Ok(line)
}

/// The line of a constraint over these atoms; `NoMemory` for want of memory.
pub fn constraint_line(
    alloc: Global,
    constraint: &Formula,
    atoms: &Atoms,
) -> Result<Vec<u8>, NoMemory>
    requires { width_of constraint.now ≤ length atoms.now }
    ensures { IfOk result
        (λ line. line.items ≡ constraint_line (names_of atoms.now) constraint.now) }
{
    let mut line = Vec::new(alloc);
    write_constraint(constraint, atoms, &mut line)?;
    Ok(line)
}

/// The line of an agent whose base is over these atoms; `NoMemory` for want of memory.
pub fn agent_line(alloc: Global, agent: &Agent, atoms: &Atoms) -> Result<Vec<u8>, NoMemory>
    requires { width_of agent.now.base ≤ length atoms.now }
    ensures { IfOk result (λ line. line.items ≡ agent_line (names_of atoms.now) agent.now) }
{
    let mut line = Vec::new(alloc);
    write_agent(agent, atoms, &mut line)?;
    Ok(line)
}

/// The line of a query over these atoms; `NoMemory` for want of memory.
pub fn ask_line(alloc: Global, ask: &Formula, atoms: &Atoms) -> Result<Vec<u8>, NoMemory>
    requires { width_of ask.now ≤ length atoms.now }
    ensures { IfOk result (λ line. line.items ≡ ask_line (names_of atoms.now) ask.now) }
{
    let mut line = Vec::new(alloc);
    write_ask(ask, atoms, &mut line)?;
    Ok(line)
}

/// Appends the line that declares the atoms from a number on, without its line feed.
pub fn write_atoms(atoms: &Atoms, from: u32, into: &mut Vec<u8>) -> Result<(), NoMemory>
    requires { from ≤ length atoms.now }
    ensures { OnOk result (into.new.items ≡ into.old.items ++ atoms_line (drop from atoms.now)) }
{
    write_bytes(b"atoms", into)?;
    for number in from..atoms.len() {
        write_bytes(b" ", into)?;
        write_bytes(atoms.name(number).as_bytes(), into)?;
    }
    Ok(())
}

/// Appends the line of a constraint without its line feed.
pub fn write_constraint(
    constraint: &Formula,
    atoms: &Atoms,
    into: &mut Vec<u8>,
) -> Result<(), NoMemory>
    requires { width_of constraint.now ≤ length atoms.now }
    ensures { OnOk result
        (into.new.items ≡ into.old.items ++ constraint_line (names_of atoms.now) constraint.now) }
{
    write_bytes(b"constraint ", into)?;
    write_formula(constraint, atoms, into)
}

/// Appends the line of an agent without its line feed.
pub fn write_agent(agent: &Agent, atoms: &Atoms, into: &mut Vec<u8>) -> Result<(), NoMemory>
    requires { width_of agent.now.base ≤ length atoms.now }
    ensures { OnOk result
        (into.new.items ≡ into.old.items ++ agent_line (names_of atoms.now) agent.now) }
{
    write_bytes(b"agent ", into)?;
    write_bytes(agent.name.as_slice(), into)?;
    write_times(agent.times, into)?;
    write_bytes(b" : ", into)?;
    write_formula(&agent.base, atoms, into)
}

/// Appends how often an agent counts, where that is not once.
fn write_times(times: u32, into: &mut Vec<u8>) -> Result<(), NoMemory>
    ensures { OnOk result (into.new.items ≡ into.old.items ++ times_text times) }
{
    if times == 1 {
        return Ok(());
    }
    let mut digits = Buffer::new();
    write_bytes(b" times ", into)?;
    write_bytes(digits.format(times).as_bytes(), into)
}

/// Appends the line of a query without its line feed.
pub fn write_ask(ask: &Formula, atoms: &Atoms, into: &mut Vec<u8>) -> Result<(), NoMemory>
    requires { width_of ask.now ≤ length atoms.now }
    ensures { OnOk result
        (into.new.items ≡ into.old.items ++ ask_line (names_of atoms.now) ask.now) }
{
    write_bytes(b"ask ", into)?;
    write_formula(ask, atoms, into)
}

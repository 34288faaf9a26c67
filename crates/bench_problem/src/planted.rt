ghost use Rattle.std.specs.Prelude.{◌≡◌, ◌<◌, ◌+◌, ◌*◌, ◌-◌, length, IfOk, OnOk};
ghost use Rattle.bench_problem.specs.Draws.{state_after};
ghost use Rattle.bench_problem.specs.Planted.{ask_of, atom_count, disjunction_of, literal_of};
ghost use Rattle.bench_problem.specs.Planted.{planted, planted_values};

use crate::draws::Draws;
use edge::NoMemory;
use formulas::Formula;
use std::alloc::Global;

/// How many atoms there are.
pub const ATOMS: u32 = 24;

/// An atom, or its negation.
fn literal(alloc: Global, atom: u32, positive: bool) -> Result<Formula, NoMemory>
    ensures { IfOk result (λ formula. formula ≡ literal_of atom positive) }
{
    if positive {
        return Ok(Formula::Atom(atom));
    }
    Formula::negation(alloc, Formula::Atom(atom))
}

/// Three literals, of which the first is true at the values.
fn disjunction(alloc: Global, draws: &mut Draws, values: &[bool]) -> Result<Formula, NoMemory>
    requires { length values.now ≡ atom_count }
    ensures formula { IfOk result (λ formula. formula ≡ disjunction_of values.now draws.old) }
    ensures state { OnOk result (draws.new ≡ state_after draws.old 5) }
{
    let first = draws.draw(ATOMS);
    let second = draws.draw(ATOMS);
    let second_sign = draws.draw_bit();
    let third = draws.draw(ATOMS);
    let third_sign = draws.draw_bit();
    let left = literal(alloc, first, values[first as usize])?;
    let middle = literal(alloc, second, second_sign)?;
    let right = literal(alloc, third, third_sign)?;
    let two = Formula::disjunction(alloc, left, middle)?;
    Formula::disjunction(alloc, two, right)
}

/// The values of a planted formula.
fn values(draws: &mut Draws) -> [bool; ATOMS as usize]
    ensures values { result ≡ planted_values draws.old }
    ensures state { draws.new ≡ state_after draws.old atom_count }
{
    let mut values = [false; ATOMS as usize];
    for place in 0..values.len() {
        values[place] = draws.draw_bit();
    }
    values
}

/// The conjunction of so many disjunctions, each of which is true at values that are drawn first.
pub fn planted(alloc: Global, draws: &mut Draws, count: u32) -> Result<Formula, NoMemory>
    requires { 0 < count }
    ensures formula { IfOk result (λ formula. formula ≡ planted draws.old (count - 1)) }
    ensures state { OnOk result (draws.new ≡ state_after draws.old (atom_count + 5 * count)) }
{
    let values = values(draws);
    let mut formula = disjunction(alloc, draws, &values)?;
    for _ in 1..count {
        let next = disjunction(alloc, draws, &values)?;
        formula = Formula::conjunction(alloc, formula, next)?;
    }
    Ok(formula)
}

/// The disjunction of two literals.
pub fn ask(alloc: Global, draws: &mut Draws) -> Result<Formula, NoMemory>
    ensures formula { IfOk result (λ formula. formula ≡ ask_of draws.old) }
    ensures state { OnOk result (draws.new ≡ state_after draws.old 4) }
{
    let first = draws.draw(ATOMS);
    let first_sign = draws.draw_bit();
    let second = draws.draw(ATOMS);
    let second_sign = draws.draw_bit();
    let left = literal(alloc, first, first_sign)?;
    let right = literal(alloc, second, second_sign)?;
    Formula::disjunction(alloc, left, right)
}

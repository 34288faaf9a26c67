//! The main clauses of a problem over one atom, and what claims assume of its frame.

ghost use Rattle.std.specs.Prelude.{◌≡◌, [], ◌∷◌, length, true, IfOk};
ghost use Rattle.clause_store.specs.Lits.{positive_lit};

use crate::numbers::{lit_number, push_clauses, push_copy, push_lits, push_outputs};
use agent_copies::{AgentCopy, Counted};
use aggregators::Levelled;
use clause_store::{Assignment, Lit};
use edge::NoMemory;
use formulas::Valuation;
use merge_encoding::{Claim, Frame, Main, assumptions, encode};
use merge_model::{Drastic, Hamming, Leximax, Max, Problem, Sequence, Sum};
use problem_reading::read_problem;
use std::alloc::Global;
use std::test::Fail;
use totalizer::Unary;

/// Appends the frame's parts in order, with 0 before each copy and level.
fn push_frame(numbers: &mut Vec<i64>, frame: &Frame) -> Result<(), NoMemory> {
    push_lits(numbers, frame.shared.as_slice())?;
    push_lits(numbers, &[frame.constraint])?;
    push_lits(numbers, frame.asks.as_slice())?;
    for copy in frame.copies.as_slice() {
        numbers.push(0)?;
        push_copy(numbers, copy)?;
    }
    for level in frame.levels.as_slice() {
        numbers.push(0)?;
        push_outputs(numbers, level)?;
    }
    Ok(())
}

/// Of an atom a: the constraint !a, an agent p that believes a, and the query !a.
fn small_problem(alloc: Global) -> Result<Problem, Fail> {
    Ok(read_problem(alloc, b"atoms a\nconstraint !a\nagent p : a\nask !a\n")?)
}

/// For Hamming and the sum: the frame's parts, and then the clauses, with 0 before each.
const NUMBERS: [i64; 55] = [
    1, 3, 5, 0, 6, 7, 8, 0, 8, //
    0, 1, -2, 0, -1, 2, 0, -2, -3, 0, 2, 3, 0, 1, -4, 0, -1, 4, 0, -4, -5, 0, 4, 5, 0, 6, -7, 0,
    -6, 7, 0, 1, 6, -8, 0, -1, -6, -8, 0, -1, 6, 8, 0, 1, -6, 8,
];

/// Its main clauses by any distance and any aggregator.
fn small_main<D: Counted, A: Levelled>(
    alloc: Global,
    distance: &D,
    aggregator: &A,
) -> Result<Main, Fail> {
    let problem = small_problem(alloc)?;
    Ok(encode(alloc, &problem, distance, aggregator)?)
}

/// The numbers of their variables and clauses.
fn sizes<D: Counted, A: Levelled>(
    alloc: Global,
    distance: &D,
    aggregator: &A,
) -> Result<(u32, u64), Fail> {
    let main = small_main(alloc, distance, aggregator)?;
    Ok((main.clauses.vars(), main.clauses.len()))
}

/// The parts of their frame and then they themselves, with 0 before each.
fn main_numbers(alloc: Global, main: &Main) -> Result<Vec<i64>, NoMemory> {
    let mut numbers = Vec::new(alloc);
    push_frame(&mut numbers, &main.frame)?;
    push_clauses(&mut numbers, &main.clauses)?;
    Ok(numbers)
}

/// Those for Hamming and the sum.
fn small_numbers(alloc: Global) -> Result<Vec<i64>, Fail> {
    let main = small_main(alloc, &Hamming, &Sum)?;
    Ok(main_numbers(alloc, &main)?)
}

#[test]
fn a_problem_over_one_atom_has_its_clauses(rt: HostRuntime) -> Result<(), Fail> {
    let alloc = rt.alloc();
    let numbers = small_numbers(alloc)?;
    assert_eq!(rt; numbers.as_slice(), NUMBERS.as_slice());
    assert_eq!(rt; sizes(alloc, &Hamming, &Sum)?, (8, 14));
    assert_eq!(rt; sizes(alloc, &Hamming, &Max)?, (9, 16));
    assert_eq!(rt; sizes(alloc, &Drastic, &Leximax)?, (9, 16));
    Ok(())
}

/// The frame of that problem, for Hamming and the sum.
fn small_frame(alloc: Global) -> Result<Frame, NoMemory>
    ensures { IfOk result (λ f. f ≡ record {
      shared = positive_lit 1 ∷ [];
      constraint = positive_lit 3;
      asks = positive_lit 5 ∷ [];
      copies = record { own = positive_lit 6 ∷ []; root = positive_lit 7; away = 8 ∷ [] } ∷ [];
      levels = (8 ∷ []) ∷ [];
    }) }
{
    let copy = AgentCopy {
        own: Sequence::from_vec(vec![in alloc; Lit::positive(6)]?),
        root: Lit::positive(7),
        away: Unary::from_outputs(vec![in alloc; 8u32]?),
    };
    let level = Unary::from_outputs(vec![in alloc; 8u32]?);
    Ok(Frame {
        shared: Sequence::from_vec(vec![in alloc; Lit::positive(1)]?),
        constraint: Lit::positive(3),
        asks: Sequence::from_vec(vec![in alloc; Lit::positive(5)]?),
        copies: Sequence::from_vec(vec![in alloc; copy]?),
        levels: Sequence::from_vec(vec![in alloc; level]?),
    })
}

fn one_value(alloc: Global) -> Result<Sequence<u32>, NoMemory>
    ensures { IfOk result (λ values. values ≡ 1 ∷ []) }
{
    Ok(Sequence::from_vec(vec![in alloc; 1u32]?))
}

fn one_truth(alloc: Global) -> Result<Sequence<bool>, NoMemory>
    ensures { IfOk result (λ prefix. prefix ≡ true ∷ []) }
{
    Ok(Sequence::from_vec(vec![in alloc; true]?))
}

/// What the claim that no model is nearer to the agent assumes of that frame.
fn nearer(alloc: Global) -> Result<Vec<Lit>, NoMemory> {
    let frame = small_frame(alloc)?;
    assumptions(alloc, &frame, &Claim::NoNearer(0, Valuation::new(0, 1), 1))
}

/// What the claim that no level value is less than 1 assumes of it.
fn better(alloc: Global) -> Result<Vec<Lit>, NoMemory> {
    let values = one_value(alloc)?;
    let frame = small_frame(alloc)?;
    assumptions(alloc, &frame, &Claim::NoBetter(0, values))
}

/// What the claim that no model at 1 breaks the query assumes of it.
fn breaker(alloc: Global) -> Result<Vec<Lit>, NoMemory> {
    let limits = one_value(alloc)?;
    let frame = small_frame(alloc)?;
    assumptions(alloc, &frame, &Claim::NoBreaker(0, limits))
}

/// What the claim that no model at 1 makes the atom true assumes of it.
fn model_with(alloc: Global) -> Result<Vec<Lit>, NoMemory> {
    let bounds = one_value(alloc)?;
    let prefix = one_truth(alloc)?;
    let frame = small_frame(alloc)?;
    assumptions(alloc, &frame, &Claim::NoModelWith(bounds, prefix))
}

/// Whether literals are these.
fn are_numbers(lits: &[Lit], numbers: &[i64]) -> bool {
    lits.len() == numbers.len()
        && lits
            .iter()
            .zip(numbers)
            .all(|(lit, number)| lit_number(*lit) == *number)
}

#[test]
fn claims_assume_literals_of_the_frame(rt: HostRuntime) -> Result<(), Fail> {
    let alloc = rt.alloc();
    assert!(rt; are_numbers(nearer(alloc)?.as_slice(), &[-1, 7, -8]));
    assert!(rt; are_numbers(better(alloc)?.as_slice(), &[3, 7, -8]));
    assert!(rt; are_numbers(breaker(alloc)?.as_slice(), &[3, 7, -5]));
    assert!(rt; are_numbers(model_with(alloc)?.as_slice(), &[3, 7, 1]));
    Ok(())
}

/// The agent's literal and the output are true.
fn assignment_of_it(alloc: Global) -> Result<Assignment, NoMemory>
    ensures { IfOk result (λ assignment. length assignment ≡ 8) }
{
    let mut assignment = Assignment::new(alloc, 8)?;
    assignment.set(6, true);
    assignment.set(8, true);
    Ok(assignment)
}

/// The shared valuation and the agent's own one by that assignment.
fn valuations_of_it(alloc: Global) -> Result<(Valuation, Valuation), NoMemory> {
    let assignment = assignment_of_it(alloc)?;
    let frame = small_frame(alloc)?;
    let own = frame.own_valuation(&assignment, 0);
    Ok((frame.shared_valuation(&assignment), own))
}

/// The level values by that assignment.
fn values_of_it(alloc: Global) -> Result<Vec<u32>, NoMemory> {
    let assignment = assignment_of_it(alloc)?;
    let frame = small_frame(alloc)?;
    frame.level_values(alloc, &assignment)
}

#[test]
fn an_assignment_is_read_through_the_frame(rt: HostRuntime) -> Result<(), Fail> {
    let (shared, own) = valuations_of_it(rt.alloc())?;
    assert_eq!(rt; shared, Valuation::new(0, 1));
    assert_eq!(rt; own, Valuation::new(1, 1));
    let values = values_of_it(rt.alloc())?;
    assert_eq!(rt; values.as_slice(), [1].as_slice());
    Ok(())
}

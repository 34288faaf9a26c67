//! From a problem to its main clauses.

ghost use Rattle.std.specs.Prelude.{◌≡◌, ◌+◌, ◌*◌, ◌≤◌, ◌++◌, length, map, sum_by, All, IfOk, OnOk};
ghost use Rattle.clause_store.specs.Limits.{var_limit};
ghost use Rattle.clause_store.specs.Lits.{positive_lit, sorted_clause, InRange};
ghost use Rattle.formulas.specs.Limits.{node_limit, valuation_limit};
ghost use Rattle.formulas.specs.Formulas.{nodes_of, width_of};
ghost use Rattle.merge_model.specs.Answers.{profile_of};
ghost use Rattle.merge_encoding.specs.Limits.{copy_room};
ghost use Rattle.merge_encoding.specs.MainDues.{definitions, copies_due, due_for, IsMain};
ghost use Rattle.merge_encoding.specs.Frames.{copy_of, frame_of, IsFrameOver, FrameIsDistinct};

use crate::frame::{Frame, Main};
use agent_copies::{AgentCopy, Counted, copy_agent};
use aggregators::Levelled;
use clause_store::{ClauseList, Lit};
use clause_translation::define;
use edge::NoMemory;
use formulas::Formula;
use merge_model::{Agent, Problem, Sequence};
use std::alloc::Global;
use totalizer::Unary;

/// Defines formulas over the same literals, one after another: their roots.
fn define_all(
    alloc: Global,
    clauses: &mut ClauseList,
    formulas: &[Formula],
    atoms: &[Lit],
) -> Result<Vec<Lit>, NoMemory>
    requires room { clauses.old.vars + sum_by nodes_of formulas.now ≤ var_limit }
    requires known { All (λ f. width_of f ≤ length atoms.now) formulas.now }
    requires in_range { InRange clauses.old.vars atoms.now }
    ensures roots { IfOk result (λ roots. roots.items ≡
        map positive_lit (definitions atoms.now clauses.old.vars formulas.now).roots) }
    ensures vars { OnOk result (clauses.new.vars ≡
        (definitions atoms.now clauses.old.vars formulas.now).vars) }
    ensures list { OnOk result (clauses.new.list ≡ clauses.old.list ++
        map sorted_clause (definitions atoms.now clauses.old.vars formulas.now).clauses) }
{
    let mut roots = Vec::new(alloc);
    for formula in formulas {
        let root = define(clauses, formula, atoms)?;
        roots.push(root)?;
    }
    Ok(roots)
}

/// Copies the agents, one after another.
fn copy_all<D: Counted>(
    alloc: Global,
    clauses: &mut ClauseList,
    shared: &[Lit],
    agents: &[Agent],
    distance: &D,
) -> Result<Vec<AgentCopy>, NoMemory>
    requires some { 1 ≤ length shared.now }
    requires few { length shared.now ≤ valuation_limit }
    requires shared_in { InRange clauses.old.vars shared.now }
    requires few_nodes { All (λ agent. nodes_of agent.base ≤ node_limit) agents.now }
    requires known { All (λ agent. width_of agent.base ≤ length shared.now) agents.now }
    requires room { clauses.old.vars + copy_room * length agents.now ≤ var_limit }
    ensures copies { IfOk result (λ copies. copies.items ≡ map copy_of
        (copies_due (D.due distance.now) shared.now clauses.old.vars
        (map (λ agent. agent.base) agents.now)).copies) }
    ensures vars { OnOk result (clauses.new.vars ≡
        (copies_due (D.due distance.now) shared.now clauses.old.vars
        (map (λ agent. agent.base) agents.now)).vars) }
    ensures room { OnOk result (clauses.new.vars ≤
        clauses.old.vars + copy_room * length agents.now) }
    ensures list { OnOk result (clauses.new.list ≡ clauses.old.list ++ map sorted_clause
        (copies_due (D.due distance.now) shared.now clauses.old.vars
        (map (λ agent. agent.base) agents.now)).clauses) }
{
    let mut copies = Vec::new(alloc);
    for agent in agents {
        let copy = copy_agent(alloc, clauses, shared, &agent.base, distance)?;
        copies.push(copy)?;
    }
    Ok(copies)
}

/// The counters of the copies.
fn aways_of(alloc: Global, copies: &[AgentCopy]) -> Result<Vec<Unary>, NoMemory>
    ensures { IfOk result (λ aways. aways.items ≡ map (λ copy. copy.away) copies.now) }
{
    let mut aways = Vec::new(alloc);
    for copy in copies {
        aways.push(copy.away.copy()?)?;
    }
    Ok(aways)
}

/// How often the agents count.
fn times_of(alloc: Global, agents: &[Agent]) -> Result<Vec<u32>, NoMemory>
    ensures { IfOk result (λ times. times.items ≡ map (λ agent. agent.times) agents.now) }
{
    let mut times = Vec::new(alloc);
    for agent in agents {
        times.push(agent.times)?;
    }
    Ok(times)
}

/// The parts of the main clauses, one after another.
fn encoded<D: Counted, A: Levelled>(
    alloc: Global,
    problem: &Problem,
    distance: &D,
    aggregator: &A,
) -> Result<Main, NoMemory>
    ensures frame { IfOk result (λ main. main.frame ≡
        frame_of (due_for (D.due distance.now) (A.levels_due aggregator.now) problem.now)) }
    ensures vars { IfOk result (λ main. main.clauses.vars ≡
        (due_for (D.due distance.now) (A.levels_due aggregator.now) problem.now).vars) }
    ensures list { IfOk result (λ main. main.clauses.list ≡ map sorted_clause
        (due_for (D.due distance.now) (A.levels_due aggregator.now) problem.now).clauses) }
{
    let mut clauses = ClauseList::new(alloc);
    let shared = clauses.fresh_lits(problem.atoms.len() as usize)?;
    let constraint = define(&mut clauses, &problem.constraint, &shared)?;
    let asks = define_all(alloc, &mut clauses, problem.asks.as_slice(), &shared)?;
    let copies = copy_all(
        alloc,
        &mut clauses,
        &shared,
        problem.agents.as_slice(),
        distance,
    )?;
    let aways = aways_of(alloc, &copies)?;
    let times = times_of(alloc, problem.agents.as_slice())?;
    let levels = aggregator.levels(alloc, &mut clauses, &aways, &times)?;
    let frame = Frame {
        shared: Sequence::from_vec(shared),
        constraint,
        asks: Sequence::from_vec(asks),
        copies: Sequence::from_vec(copies),
        levels: Sequence::from_vec(levels),
    };
    Ok(Main { clauses, frame })
}

/// The main clauses of a problem under a distance and an aggregator, with their frame: the shared
/// variables, the constraint and the queries over them, a copy of each agent, and the levels.
/// `NoMemory` for want of memory.
pub fn encode<D: Counted, A: Levelled>(
    alloc: Global,
    problem: &Problem,
    distance: &D,
    aggregator: &A,
) -> Result<Main, NoMemory>
    ensures frame { IfOk result (λ main. main.frame ≡
        frame_of (due_for (D.due distance.now) (A.levels_due aggregator.now) problem.now)) }
    ensures vars { IfOk result (λ main. main.clauses.vars ≡
        (due_for (D.due distance.now) (A.levels_due aggregator.now) problem.now).vars) }
    ensures list { IfOk result (λ main. main.clauses.list ≡ map sorted_clause
        (due_for (D.due distance.now) (A.levels_due aggregator.now) problem.now).clauses) }
    ensures over { IfOk result (λ main. IsFrameOver main.clauses.vars main.frame) }
    ensures distinct { IfOk result (λ main. FrameIsDistinct main.frame) }

    // What the clauses mean.
    ensures means { IsMain (D.dist distance.now) (D.most distance.now (length problem.now.atoms))
        (A.levels_of aggregator.now) (profile_of problem.now) problem.now.asks
        (due_for (D.due distance.now) (A.levels_due aggregator.now) problem.now) }
{
    encoded(alloc, problem, distance, aggregator)
}

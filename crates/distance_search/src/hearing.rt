//! A claim put to the solver.

ghost use Rattle.std.specs.Prelude.{◌≡◌, ◌≤◌, length, map, IfOk, MatchResult};
ghost use Rattle.agent_copies.specs.declared.copy.AgentCopy.{AgentCopy as Copy};
ghost use Rattle.agent_copies.specs.Counter.{truth_of};
ghost use Rattle.clause_store.specs.Truth.{values_of};
ghost use Rattle.cdcl_core.specs.Replies.{IsLonger};
ghost use Rattle.merge_encoding.specs.Assumptions.{assumed_in, IsProperIn};
ghost use Rattle.merge_encoding.specs.Claims.{said};
ghost use Rattle.merge_encoding.specs.Frames.{IsFrameOver, FrameIsDistinct};
ghost use Rattle.distance_search.specs.Heard.{IsSeen, IsHeard, IsStopped};

use crate::engine::Engine;
use crate::reply::{Reply, SearchStop, Witness};
use clause_store::Assignment;
use edge::NoMemory;
use formulas::Valuation;
use merge_encoding::{Claim, Frame, assumptions};
use std::alloc::Global;

/// The valuations of the agents under an assignment; `NoMemory` for want of memory.
fn own_valuations(
    alloc: Global,
    frame: &Frame,
    assignment: &Assignment,
) -> Result<Vec<Valuation>, NoMemory>
    requires { IsFrameOver (length assignment.now) frame.now }
    ensures { IfOk result (λ own. own.items
        ≡ map (λ (c : Copy). truth_of (values_of assignment.now) c.own) frame.now.copies) }
{
    let mut own = Vec::new(alloc);
    for agent in 0..frame.copies.len() {
        own.push(frame.own_valuation(assignment, agent))?;
    }
    Ok(own)
}

/// What an assignment says through the frame; `NoMemory` for want of memory.
fn read(alloc: Global, frame: &Frame, assignment: &Assignment) -> Result<Witness, NoMemory>
    requires { IsFrameOver (length assignment.now) frame.now }
    ensures { IfOk result (λ witness. IsSeen frame.now (values_of assignment.now) witness) }
{
    let shared = frame.shared_valuation(assignment);
    let own = own_valuations(alloc, frame, assignment)?;
    let values = frame.level_values(alloc, assignment)?;
    Ok(Witness {
        shared,
        own,
        values,
    })
}

/// Asks the solver whether some assignment makes true what the claim assumes, and reads the
/// assignment.
pub fn hear(
    alloc: Global,
    frame: &Frame,
    engine: &mut Engine,
    claim: &Claim,
    budget: u64,
) -> Result<Reply, SearchStop>
    requires proper { IsProperIn frame.now (said claim.now) }
    requires over { IsFrameOver engine.old.log.vars frame.now }
    requires distinct { FrameIsDistinct frame.now }
    requires budget { 1 ≤ budget }
    ensures longer { IsLonger engine.old.log engine.new.log }
    ensures answer { MatchResult result
        (λ reply. IsHeard frame.now engine.old.log engine.new.log
        (assumed_in frame.now (said claim.now)) reply)
        (λ stop. IsStopped engine.old.log engine.new.log budget stop) }
{
    let assumed = assumptions(alloc, frame, claim)?;
    match engine.ask(&assumed, budget)? {
        cdcl_core::Reply::Refuted(number) => Ok(Reply::Refuted(number)),
        cdcl_core::Reply::GaveUp(number) => Err(SearchStop::GaveUp(number)),
        cdcl_core::Reply::Found(assignment) => {
            let witness = read(alloc, frame, &assignment)?;
            Ok(Reply::Found(witness))
        }
    }
}

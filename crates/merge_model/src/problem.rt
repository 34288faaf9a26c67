ghost use Rattle.std.specs.Prelude.{◌≡◌};
ghost use Rattle.merge_model.specs.Limits.{KeepsLimits};

use crate::{Agent, Sequence};
use formulas::{Atoms, Formula};

/// What is merged: the bases of the agents, under a constraint, and what is asked of the result.
#[derive(Drop)]
pub struct Problem {
    /// The names of the atoms; an atom's number is its place, from 0 on.
    pub atoms: Atoms,
    /// What the merged result has to satisfy.
    pub constraint: Formula,
    /// The agents with their bases, in order.
    pub agents: Sequence<Agent>,
    /// The queries, in order.
    pub asks: Sequence<Formula>,
    /// That the parts keep the limits on a problem.
    pub ghost limits: { KeepsLimits atoms constraint agents asks },
}

impl Problem {
    /// The problem of these parts, which keep its limits.
    pub fn new(
        atoms: Atoms,
        constraint: Formula,
        agents: Sequence<Agent>,
        asks: Sequence<Formula>,
    ) -> Problem
        requires { KeepsLimits atoms constraint agents asks }
        ensures atoms { result.atoms ≡ atoms }
        ensures constraint { result.constraint ≡ constraint }
        ensures agents { result.agents ≡ agents }
        ensures asks { result.asks ≡ asks }
    {
        Problem {
            atoms,
            constraint,
            agents,
            asks,
        }
    }
}

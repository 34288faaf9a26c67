ghost use Rattle.std.specs.Prelude.{◌≡◌};
ghost use Rattle.problem_reading.specs.Kept.{IsKept};

use crate::said::Said;
use edge::NoMemory;
use formulas::{Atoms, Formula};
use merge_model::Agent;
use std::alloc::Global;

/// What the lines read so far declare.
#[derive(Drop)]
pub struct Declarations {
    /// Where the memory of what is declared comes from.
    pub alloc: Global,
    /// The atoms, in order of declaration.
    pub atoms: Atoms,
    /// The constraint, once its line came.
    pub constraint: Option<Formula>,
    /// The agents, in order.
    pub agents: Vec<Agent>,
    /// The queries, in order.
    pub asks: Vec<Formula>,
    /// The nodes of the constraint, 1 while it has no line.
    pub constraint_nodes: u64,
    /// The nodes of the bases and the queries.
    pub other_nodes: u64,
    /// How often the agents count together.
    pub times: u32,
    /// That the numbers are those of what is declared, which keeps the limits.
    pub ghost kept: { IsKept atoms constraint agents.items asks.items
        constraint_nodes other_nodes times },
}

impl Declarations {
    ghost use Rattle.problem_reading.specs.Drafts.{empty_draft};
    ghost use Rattle.problem_reading.specs.Views.{draft_of};

    /// What no lines declare.
    pub fn new(alloc: Global) -> Declarations
        ensures { draft_of result ≡ empty_draft }
    {
        Declarations {
            alloc,
            atoms: Atoms::new(alloc),
            constraint: None,
            agents: Vec::new(alloc),
            asks: Vec::new(alloc),
            constraint_nodes: 1,
            other_nodes: 0,
            times: 0,
        }
    }
}

impl Declarations {
    ghost use Rattle.std.specs.Prelude.{OnOk, OnErr};
    ghost use Rattle.problem_reading.specs.Fitting.{Fits};
    ghost use Rattle.problem_reading.specs.Saying.{after};
    ghost use Rattle.problem_reading.specs.Views.{draft_of};

    /// Takes in what a line said; `NoMemory` leaves the declarations as they were.
    pub fn take(&mut self, said: Said) -> Result<(), NoMemory>
        requires { Fits (draft_of self.old) said }
        ensures taken { OnOk result (draft_of self.new ≡ after (draft_of self.old) said) }
        ensures kept { OnErr result (draft_of self.new ≡ draft_of self.old) }
    {
        match said {
            Said::Nothing => {}
            Said::Names(atoms) => self.atoms = atoms,
            Said::Condition(constraint) => {
                self.constraint_nodes = constraint.nodes();
                self.constraint = Some(constraint);
            }
            Said::Belief(agent) => {
                let nodes = agent.base.nodes();
                let times = agent.times;
                self.agents.push(agent)?;
                self.other_nodes += nodes;
                self.times += times;
            }
            Said::Query(ask) => {
                let nodes = ask.nodes();
                self.asks.push(ask)?;
                self.other_nodes += nodes;
            }
        }
        Ok(())
    }
}

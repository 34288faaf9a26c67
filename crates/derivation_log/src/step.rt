//! A step of a log: a clause and the resolutions that make it.
ghost use Rattle.std.specs.Prelude.{◌≡◌, ◌+◌, length, map};
ghost use Rattle.derivation_log.specs.Marking.{placed_link, AreBelow};

use crate::trimming::place_links;
use clause_store::{Clause, Lit};
use std::marker::Model;

/// A resolution of the running clause with the clause of a number, on a literal of the running
/// clause.
#[derive(Clone, Copy, Debug, Default, PartialEq, Eq)]
pub struct Link {
    /// The literal of the running clause; its negation is in the other one.
    pub pivot: Lit,
    /// The number of the other clause.
    pub number: u64,
}

/// The links of a step, in the order in which they are taken. It is seen as the list of them.
#[derive(Drop)]
pub struct Chain {
    links: Vec<Link>,
}

impl Model for Chain {
    ghost use Rattle.std.specs.Prelude.{List};
    ghost use Rattle.derivation_log.specs.declared.step.Link.{Link};

    ghost Value = { List Link };

    ghost view = { λ c. c.links.items };
}

impl Chain {
    /// The chain of these links, in order.
    pub fn from_vec(links: Vec<Link>) -> Chain
        ensures { result ≡ links.items }
    {
        Chain { links }
    }

    /// The links, in order, without copying.
    pub fn into_vec(self) -> Vec<Link>
        ensures { result.items ≡ self }
    {
        let Chain { links } = self;
        links
    }

    /// Gives the links the new numbers of the clauses that they name.
    pub(crate) fn place(&mut self, main: u64, places: &[u64])
        requires { AreBelow (main + length places.now) (map (λ link. link.number) self.old) }
        ensures { self.new ≡ map (placed_link main places.now) self.old }
    {
        place_links(&mut self.links, main, places);
    }

    /// The links, in order.
    pub fn as_slice(&self) -> &[Link]
        ensures { result.now ≡ self.now }
    {
        self.links.as_slice()
    }
}

/// Whether the solver learned a step's clause or claims that it answers a question.
#[derive(Clone, Copy, Debug, PartialEq, Eq)]
pub enum StepKind {
    /// The solver learned the clause.
    Learned,
    /// The clause is claimed to answer a question.
    Claimed,
}

/// A step: from the clause of number `first` the links lead to `clause`. Main clauses are numbered
/// from 0, and steps go on from there.
#[derive(Drop)]
pub struct Step {
    /// Learned or claimed.
    pub kind: StepKind,
    /// Where the links lead.
    pub clause: Clause,
    /// The number of the clause where the links begin.
    pub first: u64,
    /// The links, in the order in which they are taken.
    pub chain: Chain,
}

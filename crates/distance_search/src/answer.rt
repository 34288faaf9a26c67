//! What a search answers.
ghost use Rattle.std.specs.Prelude.{◌↔◌, IsTrue, All};
ghost use Rattle.distance_search.specs.Results.{IsModelNamed, AllNamed};

use formulas::Valuation;
use merge_model::{Sequence, Shown};

/// A model with its exact distances, and the steps that show that no model of a base is nearer.
#[derive(Debug, Drop)]
pub struct Away {
    /// The model, its distance to each base, and a nearest model of each base.
    pub shown: Shown,
    /// For each agent the number of the step that refutes that a model of its base is nearer, and
    /// `None` exactly at a distance of 0.
    pub far: Sequence<Option<u64>>,
}

/// A closest model, with all that shows it.
#[derive(Debug, Drop)]
pub struct Best {
    /// The model, its distance to each base, and a nearest model of each base.
    pub shown: Shown,
    /// The rank of its full vector.
    pub measure: Sequence<u32>,
    /// The level values of its full vector.
    pub values: Sequence<u32>,
    /// For each agent the number of the step that refutes that a model of its base is nearer, and
    /// `None` exactly at a distance of 0.
    pub far: Sequence<Option<u64>>,
    /// For each level the number of the step that refutes that it can be below its value while the
    /// levels before it are at most theirs, and `None` exactly at a value of 0.
    pub least: Sequence<Option<u64>>,
}

/// Whether every closest model satisfies a query.
#[derive(Debug, Drop)]
pub enum Entails {
    /// Every closest model satisfies it: the number of the step that refutes that one does not.
    Yes(u64),
    /// This closest model does not.
    No(Away),
}

/// A formula's model, or that it has none.
#[derive(Debug, Drop)]
pub enum Named {
    /// A model of it.
    Model(Valuation),
    /// It has none: the number of the step that refutes that it has one.
    Empty(u64),
}

/// Which formulas of a problem have models.
#[derive(Debug, Drop)]
pub struct Consistency {
    /// The constraint.
    pub constraint: Named,
    /// The base of each agent, in order.
    pub agents: Sequence<Named>,
}

impl Consistency {
    /// Whether the constraint and each base have a model.
    pub fn has_models(&self) -> bool
        ensures { IsTrue result ↔ AllNamed self.now }
    {
        self.constraint.is_model() && all_models(self.agents.as_slice())
    }
}

impl Named {
    /// Whether it has a model.
    pub fn is_model(&self) -> bool
        ensures { IsTrue result ↔ IsModelNamed self.now }
    {
        match self {
            Named::Model(_) => true,
            Named::Empty(_) => false,
        }
    }
}

fn all_models(agents: &[Named]) -> bool
    ensures { IsTrue result ↔ All IsModelNamed agents.now }
{
    agents.iter().all(|named| named.is_model())
}

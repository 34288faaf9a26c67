//! The lines of an answer, one after another.
ghost use Rattle.std.specs.Prelude.{◌≡◌, ◌≢◌, ◌⊎◌, ◌↔◌, IsTrue, IfOk, OnOk, OnErr};
ghost use Rattle.report_lines.specs.Following.{due_after_verdicts};
ghost use Rattle.report_lines.specs.Places.{Position as Place, start};
ghost use Rattle.report_text.specs.Answering.{draft_of, position_of, StandsAtAnswer, AnswerAt};
ghost use Rattle.report_text.specs.Answering.{IsFit, IsLoggedAt};
ghost use Rattle.report_text.specs.Judging.{JudgedAs};

mod claims;
mod encoding;
mod naming;
mod plain;
mod shown;
mod verdicts;

use crate::stop::LineStop;
pub use claims::Claimed;
use clause_store::ClauseList;
use edge::NoMemory;
use encoding::encoded;
use formulas::Valuation;
use merge_encoding::{Frame, Main};
use merge_model::{AggregatorName, DistanceName, Problem};
use report_lines::{Due, Kind, Subject};
use std::alloc::Global;

/// What is known while the lines of an answer are read.
#[derive(Drop)]
pub struct Answering {
    alloc: Global,
    due: Due,
    distance: DistanceName,
    aggregator: AggregatorName,
    conflicts: u64,
    problem: Problem,
    kind: Kind,
    /// The last model, and its vector.
    model: Valuation,
    vector: Vec<u32>,
    /// The first vector, its measure and its level values.
    best: Vec<u32>,
    measure: Vec<u32>,
    values: Vec<u32>,
    /// How many verdicts were given, and how many agents were named.
    verdicts: usize,
    named: usize,
    claims: Vec<Claimed>,
}

/// What stands once an answer is over: the main clauses and their frame, and the claims that are
/// due.
#[derive(Drop)]
pub struct Logged {
    /// The main clauses.
    pub clauses: ClauseList,
    /// Where the parts of the problem stand in them.
    pub frame: Frame,
    /// The claims whose proofs are due, in order.
    pub claims: Vec<Claimed>,
    /// What the answer is.
    pub kind: Kind,
    /// The number of conflicts that the report states.
    pub conflicts: u64,
}

impl Answering {
    /// Before the answer: after the line of an agent or of a query.
    pub fn new(
        alloc: Global,
        distance: DistanceName,
        aggregator: AggregatorName,
        conflicts: u64,
        problem: Problem,
        due: Due,
    ) -> Answering
        requires { (due ≡ Due.Agents) ⊎ (due ≡ Due.Asks) }
        ensures place { position_of result ≡ record start {
          due = due;
          distance = distance;
          aggregator = aggregator;
          conflicts = conflicts;
          draft = draft_of problem;
        } }
        ensures fit { IsFit result }
    {
        Answering {
            alloc,
            due,
            distance,
            aggregator,
            conflicts,
            problem,
            kind: Kind::Merged,
            model: Valuation::new(0, 0),
            vector: Vec::new(alloc),
            best: Vec::new(alloc),
            measure: Vec::new(alloc),
            values: Vec::new(alloc),
            verdicts: 0,
            named: 0,
            claims: Vec::new(alloc),
        }
    }

    /// What is due once so many verdicts are given.
    fn due_after_verdicts(&self, given: usize) -> Due
        ensures { result ≡ due_after_verdicts (position_of self.now) given }
    {
        if given < self.problem.asks.len() {
            Due::Verdict
        } else {
            Due::Main
        }
    }

    /// Takes the next line of the answer, where it is right; else it stands where it stood.
    pub fn line(&mut self, line: &[u8]) -> Result<(), LineStop>
        requires open { self.old.due ≢ Due.Main }
        requires fit { IsFit self.old }
        ensures judged { (p : Place) → StandsAtAnswer self.old p →
            JudgedAs (AnswerAt p.due p) p line.now (StandsAtAnswer self.new) result }
        ensures fit { OnOk result (IsFit self.new) }
        ensures kept { OnErr result (position_of self.new ≡ position_of self.old) }
    {
        match self.due {
            Due::Agents | Due::Asks => self.on_answer(line),
            Due::Model => self.on_model(line),
            Due::Vector => self.on_vector(line),
            Due::Nearest => self.on_nearest(line),
            Due::Measure => self.on_measure(line),
            Due::Verdict => self.on_verdict(line),
            Due::Named => self.on_named(line, Subject::BaseOf(self.named)),
            _ => unreachable!(),
        }
    }

    /// Whether the answer is over.
    pub fn is_done(&self) -> bool
        ensures { IsTrue result ↔ (self.now.due ≡ Due.Main) }
    {
        self.due == Due::Main
    }

    /// What the log stands on: the main clauses with their frame, and the claims, each proper for
    /// them.
    pub fn finish(self) -> Result<Logged, NoMemory>
        requires done { self.due ≡ Due.Main }
        requires fit { IsFit self }
        ensures { IfOk result
            (λ logged. (p : Place) → StandsAtAnswer self p → IsLoggedAt p logged) }
    {
        let Main { clauses, frame } = encoded(
            self.alloc,
            self.distance,
            self.aggregator,
            &self.problem,
        )?;
        Ok(Logged {
            clauses,
            frame,
            claims: self.claims,
            kind: self.kind,
            conflicts: self.conflicts,
        })
    }
}

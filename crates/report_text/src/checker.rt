//! A checker of reports, line by line.
ghost use Rattle.std.specs.Prelude.{◌≡◌, ◌≢◌, ◌↔◌, IsTrue};
ghost use Rattle.report_lines.specs.Places.{Position, start};
ghost use Rattle.report_text.specs.Front.{StandsAtFront, IsAnswerDue, LeavesAnswers};
ghost use Rattle.report_text.specs.Answering.{IsFit as IsFitAnswer};
ghost use Rattle.report_text.specs.Logging.{IsFitLog, StandsAtLog};
ghost use Rattle.report_text.specs.Checker.{Stands, StandsInAnswer, IsFit, IsOver, IsNext};
ghost use Rattle.report_text.specs.Checker.{IsOutcome};

use crate::answering::Answering;
use crate::front::Front;
use crate::logging::{LogDue, Logging};
use crate::stop::LineStop;
use report_lines::{Due, Kind};
use std::alloc::Global;

/// What a checker knows from the lines so far.
#[derive(Drop)]
pub enum Checker {
    /// Before the answer.
    Front(Front),
    /// In the answer.
    Answer(Answering),
    /// From the main line on.
    Log(Logging),
}

/// The first line of an answer.
fn first_answer(alloc: Global, front: Front, line: &[u8]) -> Result<Checker, LineStop>
    requires due { IsAnswerDue front.due }
    requires only { (p : Position) → StandsAtFront front p → LeavesAnswers p line.now }
    ensures { (p : Position) → StandsAtFront front p → IsNext p line.now result }
{
    let (distance, aggregator, conflicts, problem) = front.finish()?;
    let mut answer = Answering::new(alloc, distance, aggregator, conflicts, problem, Due::Asks);
    match answer.line(line) {
        Ok(()) => Ok(Checker::Answer(answer)),
        Err(stop) => Err(stop),
    }
}

/// A line of the front or the first of an answer.
fn front_line(alloc: Global, mut front: Front, line: &[u8]) -> Result<Checker, LineStop>
    ensures { (p : Position) → StandsAtFront front p → IsNext p line.now result }
{
    if !front.takes(line) {
        return first_answer(alloc, front, line);
    }
    match front.line(line) {
        Ok(()) => Ok(Checker::Front(front)),
        Err(stop) => Err(stop),
    }
}

/// The main line.
fn first_log(alloc: Global, answer: Answering, line: &[u8]) -> Result<Checker, LineStop>
    requires done { answer.due ≡ Due.Main }
    requires fit { IsFitAnswer answer }
    ensures { (p : Position) → StandsInAnswer answer p → IsNext p line.now result }
{
    let mut log = Logging::new(alloc, answer.finish()?);
    match log.line(line) {
        Ok(()) => Ok(Checker::Log(log)),
        Err(stop) => Err(stop),
    }
}

/// A line of the answer or the main line.
fn answer_line(alloc: Global, mut answer: Answering, line: &[u8]) -> Result<Checker, LineStop>
    requires { IsFitAnswer answer }
    ensures { (p : Position) → StandsInAnswer answer p → IsNext p line.now result }
{
    if answer.is_done() {
        return first_log(alloc, answer, line);
    }
    match answer.line(line) {
        Ok(()) => Ok(Checker::Answer(answer)),
        Err(stop) => Err(stop),
    }
}

/// A line from the main line on.
fn log_line(mut log: Logging, line: &[u8]) -> Result<Checker, LineStop>
    requires due { log.due ≢ LogDue.Over }
    requires fit { IsFitLog log }
    ensures { (p : Position) → StandsAtLog log p → IsNext p line.now result }
{
    match log.line(line) {
        Ok(()) => Ok(Checker::Log(log)),
        Err(stop) => Err(stop),
    }
}

impl Checker {
    /// Before the first line.
    pub fn new(alloc: Global) -> Checker
        ensures { Stands result start }
    {
        Checker::Front(Front::new(alloc))
    }

    /// Whether no line may follow.
    pub fn is_over(&self) -> bool
        ensures { IsTrue result ↔ IsOver self.now }
    {
        match self {
            Checker::Front(_) => false,
            Checker::Answer(_) => false,
            Checker::Log(log) => log.is_over(),
        }
    }

    /// What is accepted, where the report is over.
    pub fn outcome(&self) -> Option<Kind>
        ensures { (p : Position) → Stands self.now p → IsOutcome p result }
    {
        match self {
            Checker::Front(_) => None,
            Checker::Answer(_) => None,
            Checker::Log(log) => log.outcome(),
        }
    }

    /// Takes the next line, if it is right after those before it.
    pub fn line(self, alloc: Global, line: &[u8]) -> Result<Checker, LineStop>
        requires over { IsOver self → ⊥ }
        requires fit { IsFit self }
        ensures { (p : Position) → Stands self p → IsNext p line.now result }
    {
        match self {
            Checker::Front(front) => front_line(alloc, front, line),
            Checker::Answer(answer) => answer_line(alloc, answer, line),
            Checker::Log(log) => log_line(log, line),
        }
    }
}

//! The lines of a report before the answer: the head, and the problem.
ghost use Rattle.std.specs.Prelude.{◌≡◌, true, false};
ghost use Rattle.report_lines.specs.declared.kinds.Due.TheVariants as due;
ghost use Rattle.report_lines.specs.Places.{Position, DueAt, IsProblemLine, start};
ghost use Rattle.report_text.specs.Front.{StandsAtFront, takes, word_before, Precedes};
ghost use Rattle.report_text.specs.Front.{IsAnswerDue, LeavesAnswers, IsFinished};
ghost use Rattle.report_text.specs.Judging.{JudgedAs, IsJudged};

mod lines;

use crate::stop::LineStop;
use edge::NoMemory;
use lines::ProblemLines;
use merge_model::{AggregatorName, DistanceName, Problem};
use report_lines::{
    RefusedKind, aggregator_line, conflicts_line, distance_line, first_word_of, is_head_line,
};
use std::alloc::Global;

/// What is due before the answer.
#[derive(Clone, Copy, Debug, PartialEq, Eq)]
pub enum FrontDue {
    /// `merge-report 1`
    Head,
    /// `distance D`
    Distance,
    /// `aggregator A`
    Aggregator,
    /// `conflicts B`
    Conflicts,
    /// The line of the atoms.
    Atoms,
    /// The line of the constraint.
    Constraint,
    /// The line of the first agent.
    FirstAgent,
    /// The line of a further agent or of a query, or the first of the answer.
    Agents,
    /// The line of a further query, or the first of the answer.
    Asks,
}

/// What the lines of a report before the answer said so far.
#[derive(Drop)]
pub struct Front {
    due: FrontDue,
    distance: DistanceName,
    aggregator: AggregatorName,
    conflicts: u64,
    lines: ProblemLines,
}

impl Front {
    /// Before the first line.
    pub fn new(alloc: Global) -> Front
        ensures { StandsAtFront result start }
    {
        Front {
            due: FrontDue::Head,
            distance: DistanceName::Drastic,
            aggregator: AggregatorName::Sum,
            conflicts: 0,
            lines: ProblemLines::new(alloc),
        }
    }

    /// Whether the line is to be judged here. Where it is not, it can only be the first of the
    /// answer.
    pub fn takes(&self, line: &[u8]) -> bool
        ensures test { result ≡ takes self.now.due line.now }
        ensures answer { result ≡ false → IsAnswerDue self.now.due }
        ensures only { result ≡ false → (p : Position) → StandsAtFront self.now p →
            LeavesAnswers p line.now }
    {
        match self.due {
            FrontDue::Agents => {
                let word = first_word_of(line);
                word == b"agent".as_slice() || word == b"ask".as_slice()
            }
            FrontDue::Asks => first_word_of(line) == b"ask".as_slice(),
            _ => true,
        }
    }

    /// Judges the next line, which is to be judged here. After a refusal no further line is.
    pub fn line(&mut self, line: &[u8]) -> Result<(), LineStop>
        requires { takes self.old.due line.now ≡ true }
        ensures { (p : Position) → StandsAtFront self.old p →
            IsJudged p line.now (StandsAtFront self.new) result }
    {
        match self.due {
            FrontDue::Head => self.head(line),
            FrontDue::Distance => self.distance(line),
            FrontDue::Aggregator => self.aggregator(line),
            FrontDue::Conflicts => self.conflicts(line),
            FrontDue::Atoms => self.problem_line(line, b"atoms", FrontDue::Constraint),
            FrontDue::Constraint => self.problem_line(line, b"constraint", FrontDue::FirstAgent),
            FrontDue::FirstAgent => self.problem_line(line, b"agent", FrontDue::Agents),
            FrontDue::Agents => self.agent_or_ask(line),
            FrontDue::Asks => self.problem_line(line, b"ask", FrontDue::Asks),
        }
    }

    /// What the lines said, where the answer is due.
    pub fn finish(self) -> Result<(DistanceName, AggregatorName, u64, Problem), NoMemory>
        requires { IsAnswerDue self.due }
        ensures { (p : Position) → StandsAtFront self p → IsFinished p result }
    {
        let Front {
            due: _,
            distance,
            aggregator,
            conflicts,
            lines,
        } = self;
        let problem = lines.finish()?;
        Ok((distance, aggregator, conflicts, problem))
    }

    fn head(&mut self, line: &[u8]) -> Result<(), LineStop>
        ensures { (p : Position) → StandsAtFront self.old p →
            JudgedAs (DueAt due.Head p) p line.now (StandsAtFront self.new) result }
    {
        if !is_head_line(line) {
            return Err(LineStop::Wrong(RefusedKind::Form));
        }
        self.due = FrontDue::Distance;
        Ok(())
    }

    fn distance(&mut self, line: &[u8]) -> Result<(), LineStop>
        ensures { (p : Position) → StandsAtFront self.old p →
            JudgedAs (DueAt due.Distance p) p line.now (StandsAtFront self.new) result }
    {
        let Some(distance) = distance_line(line) else {
            return Err(LineStop::Wrong(RefusedKind::Form));
        };
        self.distance = distance;
        self.due = FrontDue::Aggregator;
        Ok(())
    }

    fn aggregator(&mut self, line: &[u8]) -> Result<(), LineStop>
        ensures { (p : Position) → StandsAtFront self.old p →
            JudgedAs (DueAt due.Aggregator p) p line.now (StandsAtFront self.new) result }
    {
        let Some(aggregator) = aggregator_line(line) else {
            return Err(LineStop::Wrong(RefusedKind::Form));
        };
        self.aggregator = aggregator;
        self.due = FrontDue::Conflicts;
        Ok(())
    }

    fn conflicts(&mut self, line: &[u8]) -> Result<(), LineStop>
        ensures { (p : Position) → StandsAtFront self.old p →
            JudgedAs (DueAt due.Conflicts p) p line.now (StandsAtFront self.new) result }
    {
        let Some(conflicts) = conflicts_line(line) else {
            return Err(LineStop::Wrong(RefusedKind::Form));
        };
        self.conflicts = conflicts;
        self.due = FrontDue::Atoms;
        Ok(())
    }

    /// Judges a line where lines of the problem with this first word are due.
    fn problem_line(&mut self, line: &[u8], word: &[u8], next: FrontDue) -> Result<(), LineStop>
        requires word { word.now ≡ word_before next }
        requires place { Precedes self.old.due next }
        ensures { (p : Position) → StandsAtFront self.old p →
            JudgedAs (IsProblemLine word.now) p line.now (StandsAtFront self.new) result }
    {
        if first_word_of(line) != word {
            return Err(LineStop::Wrong(RefusedKind::Form));
        }
        if !self.lines.line(line)? {
            return Err(LineStop::Wrong(RefusedKind::Problem));
        }
        self.due = next;
        Ok(())
    }

    fn agent_or_ask(&mut self, line: &[u8]) -> Result<(), LineStop>
        requires due { self.old.due ≡ FrontDue.Agents }
        requires taken { takes self.old.due line.now ≡ true }
        ensures { (p : Position) → StandsAtFront self.old p →
            JudgedAs (DueAt due.Agents p) p line.now (StandsAtFront self.new) result }
    {
        if first_word_of(line) == b"agent".as_slice() {
            self.problem_line(line, b"agent", FrontDue::Agents)
        } else {
            self.problem_line(line, b"ask", FrontDue::Asks)
        }
    }
}

//! The log of a report, its proofs and its end, line by line.
ghost use Rattle.std.specs.Prelude.{◌≡◌, ◌≢◌, ◌↔◌, ◌+◌, ◌<◌, ◌≤◌, ◌==◌, ◌&&◌, IfOk, IsTrue};
ghost use Rattle.std.specs.Prelude.{MatchOption, length, take, drop};
ghost use Rattle.log_lines.specs.Spending.{noted_of, is_spent};
ghost use Rattle.merge_encoding.specs.Assumptions.{IsProperIn, assumed_in};
ghost use Rattle.merge_encoding.specs.Claims.{said};
ghost use Rattle.report_lines.specs.Holding.{is_end};
ghost use Rattle.report_lines.specs.Places.{Position, DueAt, IsProofLine, end_number};
ghost use Rattle.report_text.specs.Answering.{IsLoggedAt};
ghost use Rattle.report_text.specs.Judging.{JudgedAs, IsJudged};
ghost use Rattle.report_text.specs.Logging.{IsFitLog, StandsAtLog, refutes_from};
ghost use Rattle.report_lines.specs.declared.kinds.Due.TheVariants as due;

use crate::answering::{Claimed, Logged};
use crate::stop::LineStop;
use clause_store::ClauseList;
use derivation_log::StepKind;
use edge::NoMemory;
use log_checker::refutes;
use log_lines::{TakeStop, are_last_new, take_step};
use merge_encoding::{Claim, Frame, assumptions};
use report_lines::{Kind, RefusedKind, is_end_line, main_line, shown_line};
use std::alloc::Global;

/// What is due from the main line on.
#[derive(Clone, Copy, Debug, PartialEq, Eq)]
pub enum LogDue {
    /// `main V C`
    Main,
    /// A step, or what is due after the steps.
    Log,
    /// The proof of the next claim, or the end.
    Proofs,
    /// Nothing.
    Over,
}

/// The state of a checker from the main line on. It keeps no chains of steps.
#[derive(Drop)]
pub struct Logging {
    due: LogDue,
    conflicts: u64,
    kind: Kind,
    /// The main clauses, so many, and then the steps' clauses.
    known: ClauseList,
    main: u64,
    /// The kind of each step.
    kinds: Vec<StepKind>,
    frame: Frame,
    claims: Vec<Claimed>,
    /// How many claims are shown.
    next: usize,
}

fn number_of_end(kind: Kind) -> u64
    ensures { result ≡ end_number kind }
{
    match kind {
        Kind::Merged => 0,
        Kind::Inconsistent => 8,
        Kind::Spent => 3,
    }
}

/// Whether the number is that of a step whose clause refutes what the claim assumes.
fn shows(
    alloc: Global,
    known: &ClauseList,
    main: u64,
    frame: &Frame,
    claim: &Claim,
    number: u64,
) -> Result<bool, NoMemory>
    requires { IsProperIn frame.now (said claim.now) }
    ensures { IfOk result
        (λ yes. yes
        ≡ refutes_from main known.now.list number (assumed_in frame.now (said claim.now))) }
{
    if number < main {
        return Ok(false);
    }
    if known.len() <= number {
        return Ok(false);
    }
    let lits = assumptions(alloc, frame, claim)?;
    Ok(refutes(known.clause(number), &lits))
}

/// Whether the log spent its conflicts.
fn has_spent(
    alloc: Global,
    known: &ClauseList,
    main: u64,
    kinds: &[StepKind],
    conflicts: u64,
) -> Result<bool, NoMemory>
    requires { main + length kinds.now ≡ length known.now.list }
    ensures { IfOk result
        (λ yes. yes
        ≡ is_spent conflicts (take main known.now.list)
        (noted_of kinds.now (drop main known.now.list))) }
{
    if (kinds.len() as u64) < conflicts {
        return Ok(false);
    }
    are_last_new(alloc, known, main, kinds, conflicts as usize)
}

impl Logging {
    /// The state that an answer is followed by.
    pub fn new(alloc: Global, logged: Logged) -> Logging
        ensures due { result.due ≡ LogDue.Main }
        ensures stands { (p : Position) → IsLoggedAt p logged → StandsAtLog result p }
    {
        let Logged {
            clauses,
            frame,
            claims,
            kind,
            conflicts,
        } = logged;
        let main = clauses.len();
        Logging {
            due: LogDue::Main,
            conflicts,
            kind,
            known: clauses,
            main,
            kinds: Vec::new(alloc),
            frame,
            claims,
            next: 0,
        }
    }

    /// Whether the report is over.
    pub fn is_over(&self) -> bool
        ensures { IsTrue result ↔ (self.now.due ≡ LogDue.Over) }
    {
        self.due == LogDue::Over
    }

    /// What is accepted, once the report is over.
    pub fn outcome(&self) -> Option<Kind>
        ensures { MatchOption result (self.now.due ≢ LogDue.Over)
            (λ kind. (self.now.due ≡ LogDue.Over) × (kind ≡ self.now.kind)) }
    {
        if self.is_over() {
            Some(self.kind)
        } else {
            None
        }
    }

    /// Whether these are the numbers of variables and of clauses.
    fn is_main(&self, vars: u64, clauses: u64) -> bool
        ensures { result ≡ ((vars == self.now.known.vars) && (clauses == self.now.main)) }
    {
        vars == u64::from(self.known.vars()) && clauses == self.main
    }

    fn on_main(&mut self, line: &[u8]) -> Result<(), LineStop>
        ensures { (p : Position) → StandsAtLog self.old p →
            JudgedAs (DueAt due.Main p) p line.now (StandsAtLog self.new) result }
    {
        let Some((vars, clauses)) = main_line(line) else {
            return Err(LineStop::Wrong(RefusedKind::Form));
        };
        if !self.is_main(vars, clauses) {
            return Err(LineStop::Wrong(RefusedKind::Step));
        }
        self.due = LogDue::Log;
        Ok(())
    }

    fn on_shown(&mut self, line: &[u8]) -> Result<(), LineStop>
        requires some { self.old.next < length self.old.claims.items }
        requires fit { IsFitLog self.old }
        ensures { (p : Position) → StandsAtLog self.old p →
            JudgedAs (IsProofLine p.claims p.kind) p line.now (StandsAtLog self.new) result }
    {
        let alloc = *self.claims.allocator();
        let claim = &self.claims[self.next];
        let Some(number) = shown_line(line, claim.model, &claim.says) else {
            return Err(LineStop::Wrong(RefusedKind::Form));
        };
        if !shows(
            alloc,
            &self.known,
            self.main,
            &self.frame,
            &claim.says,
            number,
        )? {
            return Err(LineStop::Wrong(RefusedKind::Claim));
        }
        self.next += 1;
        self.due = LogDue::Proofs;
        Ok(())
    }

    /// Whether the end may come.
    fn may_end(&self) -> Result<bool, NoMemory>
        requires { IsFitLog self.now }
        ensures { IfOk result
            (λ yes. (p : Position) → StandsAtLog self.now p → yes ≡ is_end p.kind p) }
    {
        match self.kind {
            Kind::Merged => Ok(true),
            Kind::Inconsistent => Ok(true),
            Kind::Spent => has_spent(
                *self.kinds.allocator(),
                &self.known,
                self.main,
                &self.kinds,
                self.conflicts,
            ),
        }
    }

    fn on_end(&mut self, line: &[u8]) -> Result<(), LineStop>
        requires none { length self.old.claims.items ≤ self.old.next }
        requires fit { IsFitLog self.old }
        ensures { (p : Position) → StandsAtLog self.old p →
            JudgedAs (IsProofLine p.claims p.kind) p line.now (StandsAtLog self.new) result }
    {
        if !is_end_line(line, number_of_end(self.kind)) {
            return Err(LineStop::Wrong(RefusedKind::Form));
        }
        if !self.may_end()? {
            return Err(LineStop::Wrong(RefusedKind::Ended));
        }
        self.due = LogDue::Over;
        Ok(())
    }

    fn on_proof(&mut self, line: &[u8]) -> Result<(), LineStop>
        requires { IsFitLog self.old }
        ensures { (p : Position) → StandsAtLog self.old p →
            JudgedAs (IsProofLine p.claims p.kind) p line.now (StandsAtLog self.new) result }
    {
        if self.next < self.claims.len() {
            self.on_shown(line)
        } else {
            self.on_end(line)
        }
    }

    fn on_log(&mut self, line: &[u8]) -> Result<(), LineStop>
        requires { IsFitLog self.old }
        ensures { (p : Position) → StandsAtLog self.old p →
            JudgedAs (DueAt due.Log p) p line.now (StandsAtLog self.new) result }
    {
        let alloc = *self.kinds.allocator();
        if self.kinds.reserve(1).is_err() {
            return Err(LineStop::NoMemory);
        }
        match take_step(alloc, &mut self.known, line) {
            Ok(kind) => match self.kinds.push(kind) {
                Ok(()) => Ok(()),
                Err(_) => Err(LineStop::NoMemory),
            },
            Err(TakeStop::Form) => self.on_proof(line),
            Err(TakeStop::Step) => Err(LineStop::Wrong(RefusedKind::Step)),
            Err(TakeStop::NoMemory) => Err(LineStop::NoMemory),
        }
    }

    /// Takes the next line, if it is right.
    pub fn line(&mut self, line: &[u8]) -> Result<(), LineStop>
        requires due { self.old.due ≢ LogDue.Over }
        requires fit { IsFitLog self.old }
        ensures { (p : Position) → StandsAtLog self.old p →
            IsJudged p line.now (StandsAtLog self.new) result }
    {
        match self.due {
            LogDue::Main => self.on_main(line),
            LogDue::Log => self.on_log(line),
            LogDue::Proofs => self.on_proof(line),
            LogDue::Over => unreachable!(),
        }
    }
}

//! How far a report has been judged that comes in pieces.
ghost use Rattle.std.specs.Prelude.{◌≡◌, ℕ, List, [], ◌∷◌, ◌++◌, MatchOption};
ghost use Rattle.report_lines.specs.Places.{Position};
ghost use Rattle.report_text.specs.Checker.{Stands, IsFit, IsOver, IsAfter};
ghost use Rattle.report_text.specs.Accepting.{IsEnd, HasNoFeed, stop_at};
ghost use Rattle.report_text.specs.Progress.{StandsBefore, IsAt, IsTaken, IsFed};

use crate::accepting::{AcceptStop, Refused};
use crate::checker::Checker;
use crate::stop::LineStop;
use report_lines::{Kind, RefusedKind};
use std::alloc::Global;
use std::mem::replace;

/// What is known of the text that has come.
#[derive(Drop)]
pub struct Progress {
    /// What its whole lines lead to.
    pub checker: Checker,
    /// What follows its last line feed.
    pub held: Vec<u8>,
    /// The number of the next line, from 1 on.
    pub number: u64,
}

/// The first line of a text, and what stands after its line feed; `None` where there is no line
/// feed.
fn first_line(text: &[u8]) -> Option<(&[u8], &[u8])>
    ensures { MatchOption result (HasNoFeed text.now)
        (λ x. (text.now ≡ x.0.now ++ 10 ∷ x.1.now) × HasNoFeed x.0.now) }
{
    for (at, byte) in text.iter().enumerate() {
        if *byte == b'\n' {
            return Some((&text[..at], &text[at + 1..]));
        }
    }
    None
}

fn stopped(line: u64, stop: LineStop) -> AcceptStop
    ensures { result ≡ stop_at line stop }
{
    match stop {
        LineStop::Wrong(kind) => AcceptStop::Refused(Refused { line, kind }),
        LineStop::NoMemory => AcceptStop::NoMemory,
    }
}

/// Judges a line and stands after it.
fn advance(checker: &mut Checker, alloc: Global, line: &[u8]) -> Result<(), LineStop>
    requires over { IsOver checker.old → ⊥ }
    requires fit { IsFit checker.old }
    ensures { (p : Position) → Stands checker.old p → IsAfter p line.now checker.new result }
{
    *checker = replace(checker, Checker::new(alloc)).line(alloc, line)?;
    Ok(())
}

impl Progress {
    /// Before the first byte.
    pub fn new(alloc: Global) -> Progress
        ensures { IsAt [] result }
    {
        Progress {
            checker: Checker::new(alloc),
            held: Vec::new(alloc),
            number: 1,
        }
    }

    /// Judges the line that begins with what is held and ends with these bytes.
    fn line(&mut self, alloc: Global, line: &[u8]) -> Result<(), AcceptStop>
        requires { IsFit self.old.checker }
        ensures { (text next : List ℕ) → StandsBefore text (line.now ++ 10 ∷ next) self.old →
            HasNoFeed line.now → IsTaken text next self.new result }
    {
        if self.checker.is_over() {
            return Err(stopped(self.number, LineStop::Wrong(RefusedKind::Ended)));
        }
        if self.held.extend_from_slice(line).is_err() {
            return Err(AcceptStop::NoMemory);
        }
        if let Err(stop) = advance(&mut self.checker, alloc, self.held.as_slice()) {
            return Err(stopped(self.number, stop));
        }
        let Some(number) = self.number.checked_add(1) else {
            return Err(AcceptStop::NoMemory);
        };
        self.number = number;
        self.held.clear();
        Ok(())
    }

    /// Holds the last bytes of a piece, which no line feed follows yet. After an end none may come.
    fn hold(&mut self, rest: &[u8]) -> Result<(), AcceptStop>
        ensures { (text : List ℕ) → StandsBefore text rest.now self.old → HasNoFeed rest.now →
            IsFed text self.new result }
    {
        if self.held.extend_from_slice(rest).is_err() {
            return Err(AcceptStop::NoMemory);
        }
        if self.checker.is_over() && !self.held.is_empty() {
            return Err(stopped(self.number, LineStop::Wrong(RefusedKind::Ended)));
        }
        Ok(())
    }

    /// Takes the next piece of the text: judges each line that ends in it. After a stop the
    /// progress is of no use any more.
    pub fn piece(&mut self, alloc: Global, piece: &[u8]) -> Result<(), AcceptStop>
        requires { (text : List ℕ) × IsAt text self.old }
        ensures { (text : List ℕ) → IsAt text self.old → IsFed (text ++ piece.now) self.new result }
    {
        let mut rest = piece;
        while let Some((line, after)) = first_line(rest) {
            self.line(alloc, line)?;
            rest = after;
        }
        self.hold(rest)
    }

    /// Judges the end of the text.
    pub fn end(&self) -> Result<Kind, AcceptStop>
        ensures { (text : List ℕ) → IsAt text self.now → IsEnd text result }
    {
        match self.checker.outcome() {
            Some(kind) => Ok(kind),
            None => Err(stopped(self.number, LineStop::Wrong(RefusedKind::Ended))),
        }
    }
}

//! The lines of a problem, with a count of them.
ghost use Rattle.std.specs.Prelude.{◌≡◌, ◌≢◌, ◌↔◌, [], ◌∷◌, ◌++◌, IsTrue, IfOk, MatchResult};
ghost use Rattle.problem_reading.specs.Drafts.{Draft};
ghost use Rattle.problem_reading.specs.Lines.{IsCanonicalNext};
ghost use Rattle.problem_reading.specs.Spelling.{Declares, IsProblemOf};

use edge::NoMemory;
use merge_model::Problem;
use problem_reading::{Reading, TextStop};
use std::alloc::Global;
use std::marker::Model;

/// How many lines are read at most. No problem has so many that are canonical.
const LINE_LIMIT: u64 = 1 << 32;

/// The lines of a problem that were read so far, seen as their list.
#[derive(Drop)]
pub struct ProblemLines {
    reading: Reading,
    count: u64,
}

impl Model for ProblemLines {
    ghost use Rattle.std.specs.Prelude.{◌≡◌, ℕ, List, length};

    ghost Value = { List (List ℕ) };

    ghost view = { λ lines. lines.reading };

    ghost invariant = { λ lines. lines.count ≡ length lines.reading };
}

impl ProblemLines {
    /// No lines.
    pub fn new(alloc: Global) -> ProblemLines
        ensures { result ≡ [] }
    {
        ProblemLines {
            reading: Reading::new(alloc),
            count: 0,
        }
    }

    /// Reads one more line, and tells whether it is canonical after those before it; where it is
    /// not, it may have been left out.
    pub fn line(&mut self, line: &[u8]) -> Result<bool, NoMemory>
        ensures canonical { IfOk result
            (λ canonical. IsTrue canonical ↔ IsCanonicalNext self.old line.now) }
        ensures read { IfOk result
            (λ canonical. IsTrue canonical → self.new ≡ self.old ++ line.now ∷ []) }
    {
        if self.count >= LINE_LIMIT {
            return Err(NoMemory);
        }
        match self.reading.line(line) {
            Ok(canonical) => {
                self.count += 1;
                Ok(canonical)
            }
            Err(TextStop::Fault(_)) => Ok(false),
            Err(TextStop::NoMemory) => Err(NoMemory),
        }
    }

    /// The problem of what the lines declare, where they declare an atom and an agent.
    pub fn finish(self) -> Result<Problem, NoMemory>
        ensures { (d : Draft) → Declares self d → d.atoms ≢ [] → d.agents ≢ [] →
            MatchResult result (λ problem. IsProblemOf d problem) (λ _. ⊥) }
    {
        let ProblemLines { reading, count: _ } = self;
        match reading.finish() {
            Ok(problem) => Ok(problem),
            Err(_) => Err(NoMemory),
        }
    }
}

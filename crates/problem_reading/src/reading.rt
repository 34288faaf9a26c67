ghost use Rattle.std.specs.Prelude.{◌≡◌, ◌<◌, ◌^◌, ◌↔◌, [], ◌∷◌, ◌++◌, length, IsTrue, IfOk, OnOk};
ghost use Rattle.std.specs.Prelude.{OnErr, IfErr};
ghost use Rattle.problem_reading.specs.Lines.{AreFaultless, StopsAfter, IsCanonicalNext, Spell};
ghost use Rattle.problem_reading.specs.Lines.{StopsAtEnd};

use crate::declarations::Declarations;
use crate::past::Past;
use crate::stop::{LineStop, TextFault, TextStop};
use merge_model::Problem;
use std::alloc::Global;
use std::marker::Model;

/// The lines of a problem text that were read so far. None of them has a fault.
#[derive(Drop)]
pub struct Reading {
    /// What the lines declare.
    declared: Declarations,
    /// How many lines there are.
    count: u64,
    /// The lines, which take no memory.
    past: Past,
}

impl Model for Reading {
    ghost use Rattle.std.specs.Prelude.{List, ℕ};

    ghost Value = { List (List ℕ) };

    ghost use Rattle.problem_reading.specs.Lines.{HasRead};
    ghost use Rattle.problem_reading.specs.Views.{draft_of};

    ghost view = { λ r. r.past.lines };

    ghost invariant = { λ r. HasRead r.past.lines (draft_of r.declared) r.count };
}

impl Reading {
    /// A reading of no lines.
    pub fn new(alloc: Global) -> Reading
        ensures { result ≡ [] }
    {
        Reading {
            declared: Declarations::new(alloc),
            count: 0,
            past: Past::new(),
        }
    }

    /// Reads one more line, and tells whether it has tokens and is written as in a canonical
    /// text. A refusal, which names the least fault of the line or says that there was no memory
    /// left, changes nothing.
    pub fn line(&mut self, line: &[u8]) -> Result<bool, TextStop>
        requires few { length self.old < 2 ^ 63 }
        ensures read { OnOk result (self.new ≡ self.old ++ line.now ∷ []) }
        ensures canonical { IfOk result
            (λ written. IsTrue written ↔ IsCanonicalNext self.old line.now) }
        ensures stop { IfErr result (StopsAfter self.old line.now) }
        ensures kept { OnErr result (self.new ≡ self.old) }
        ensures faultless { AreFaultless self.new }
    {
        match self.declared.line(line) {
            Err(LineStop::Fault(kind)) => Err(TextStop::Fault(TextFault {
                line: self.count + 1,
                kind,
            })),
            Err(LineStop::NoMemory) => Err(TextStop::NoMemory),
            Ok(written) => {
                self.past = Past::with(&self.past, line);
                self.count += 1;
                Ok(written)
            }
        }
    }

    /// The problem that the lines spell, or the fault of line 0: no atom, or else no agent.
    pub fn finish(self) -> Result<Problem, TextStop>
        ensures problem { IfOk result (Spell self) }
        ensures stop { IfErr result (StopsAtEnd self) }
    {
        let Reading {
            declared,
            count: _,
            past: _,
        } = self;
        declared.finish()
    }
}

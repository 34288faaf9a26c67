ghost use Rattle.std.specs.Prelude.{◌≡◌, ◌↔◌, IsTrue, IfOk, OnOk, OnErr, IfErr};
ghost use Rattle.problem_reading.specs.Canonical.{IsWritten};
ghost use Rattle.problem_reading.specs.Fitting.{Fits};
ghost use Rattle.problem_reading.specs.Saying.{Adds, Says, after};
ghost use Rattle.problem_reading.specs.declared.said.Said.{Said};
ghost use Rattle.problem_reading.specs.Stops.{IsLineStop};
ghost use Rattle.problem_reading.specs.Views.{draft_of};

use crate::declarations::Declarations;
use crate::judging::judge;
use crate::said::Said;
use crate::stop::LineStop;
use crate::writing::is_written;
use edge::NoMemory;

impl Declarations {
    /// Takes in one more line, and tells whether it has tokens and is written as in a canonical
    /// text. A refusal, which names the least fault of the line or says that there was no memory
    /// left, changes nothing.
    pub fn line(&mut self, line: &[u8]) -> Result<bool, LineStop>
        ensures read { OnOk result (Adds (draft_of self.old) line.now (draft_of self.new)) }
        ensures canonical { IfOk result
            (λ written. (said : Said) → Says (draft_of self.old) line.now said →
            (IsTrue written ↔ IsWritten (draft_of self.old) line.now said)) }
        ensures stop { IfErr result (IsLineStop (draft_of self.old) line.now) }
        ensures kept { OnErr result (draft_of self.new ≡ draft_of self.old) }
    {
        let said = judge(self, line)?;
        Ok(self.take_line(said, line)?)
    }

    /// Takes in what a line said, and tells whether the line is written as in a canonical text;
    /// `NoMemory` leaves the declarations as they were.
    fn take_line(&mut self, said: Said, line: &[u8]) -> Result<bool, NoMemory>
        requires { Fits (draft_of self.old) said }
        ensures taken { OnOk result (draft_of self.new ≡ after (draft_of self.old) said) }
        ensures written { IfOk result
            (λ written. IsTrue written ↔ IsWritten (draft_of self.old) line.now said) }
        ensures kept { OnErr result (draft_of self.new ≡ draft_of self.old) }
    {
        let written = is_written(self, &said, line)?;
        self.take(said)?;
        Ok(written)
    }
}

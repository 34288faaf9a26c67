//! The lines of verdicts.
ghost use Rattle.std.specs.Prelude.{◌≡◌, true, IfOk, OnOk, OnErr};
ghost use Rattle.merge_encoding.specs.Claims.{NoBreaker};
ghost use Rattle.report_lines.specs.ClaimsDue.{of_first};
ghost use Rattle.report_lines.specs.Items.{VerdictLine};
ghost use Rattle.report_lines.specs.Places.{DueAt};
ghost use Rattle.report_text.specs.Answering.{position_of, due_claim, StandsAtAnswer, FitsAt};
ghost use Rattle.report_text.specs.Answering.{AreProperAt, IsFit};
ghost use Rattle.report_text.specs.Judging.{JudgedAs};
ghost use Rattle.report_text.specs.Taking.{Takes};

use crate::answering::claims::add_claim;
use crate::answering::{Answering, Claimed};
use crate::stop::LineStop;
use edge::NoMemory;
use merge_encoding::Claim;
use merge_model::Sequence;
use report_lines::{Due, RefusedKind, verdict_line};

impl Answering {
    /// That nothing that breaks the query is as good as the first model.
    fn yes_claim(&self) -> Result<Claimed, NoMemory>
        ensures { IfOk result
            (λ claim. due_claim
            claim ≡ of_first (NoBreaker self.now.verdicts self.now.values.items)) }
    {
        let values = self.values.as_slice().to_vec(self.alloc)?;
        Ok(Claimed {
            model: 0,
            says: Claim::NoBreaker(self.verdicts, Sequence::from_vec(values)),
        })
    }

    /// A yes: its claim is due.
    fn take_yes(&mut self) -> Result<(), LineStop>
        requires place { FitsAt Due.Verdict self.old }
        requires claims { AreProperAt (position_of self.old) }
        ensures taken { Takes (position_of self.old) (VerdictLine self.old.verdicts true)
            (StandsAtAnswer self.new) result }
        ensures fit { OnOk result (IsFit self.new) }
        ensures kept { OnErr result (position_of self.new ≡ position_of self.old) }
    {
        let claim = self.yes_claim()?;
        add_claim(&mut self.claims, claim)?;
        self.verdicts += 1;
        self.due = self.due_after_verdicts(self.verdicts);
        Ok(())
    }

    /// The verdict on the next query.
    pub(crate) fn on_verdict(&mut self, line: &[u8]) -> Result<(), LineStop>
        requires place { FitsAt Due.Verdict self.old }
        requires claims { AreProperAt (position_of self.old) }
        ensures judged { JudgedAs (DueAt Due.Verdict (position_of self.old))
            (position_of self.old) line.now (StandsAtAnswer self.new) result }
        ensures fit { OnOk result (IsFit self.new) }
        ensures kept { OnErr result (position_of self.new ≡ position_of self.old) }
    {
        let Some(given) = verdict_line(line, self.verdicts) else {
            return Err(LineStop::Wrong(RefusedKind::Form));
        };
        if given {
            return self.take_yes();
        }
        self.verdicts += 1;
        self.due = Due::Model;
        Ok(())
    }
}

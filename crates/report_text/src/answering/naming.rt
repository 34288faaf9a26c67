//! The lines that name formulas without a model, and the first line of an answer.
ghost use Rattle.std.specs.Prelude.{◌≡◌, ◌≢◌, ◌≤◌, ◌⊎◌, ℕ, List, ◌∷◌, false, length, IsTrue};
ghost use Rattle.std.specs.Prelude.{OnOk, OnErr};
ghost use Rattle.formulas.specs.Formulas.{width_of};
ghost use Rattle.merge_encoding.specs.Claims.{said};
ghost use Rattle.report_words.specs.Words.{words_of};
ghost use Rattle.report_lines.specs.ClaimsDue.{lack_of};
ghost use Rattle.report_lines.specs.Following.{after_named, due_after_named};
ghost use Rattle.report_lines.specs.Holding.{formula_at, holds, may_name, named_with};
ghost use Rattle.report_lines.specs.Items.{GaveUpLine, HasModelLine, NoModelLine};
ghost use Rattle.report_lines.specs.Places.{IsAnswerLine, IsNamedLine};
ghost use Rattle.report_text.specs.Answering.{position_of, StandsAtAnswer, IsFirst, IsSubjectAt};
ghost use Rattle.report_text.specs.Answering.{AreProperAt, IsFit};
ghost use Rattle.report_text.specs.Judging.{JudgedAs};
ghost use Rattle.report_text.specs.Taking.{Takes};

use crate::answering::claims::add_claim;
use crate::answering::{Answering, Claimed};
use crate::stop::LineStop;
use formulas::{Formula, Valuation};
use merge_encoding::Claim;
use report_lines::{
    Due, Kind, RefusedKind, Subject, has_model_line, is_gave_up_line, is_no_model_line,
};
use report_words::Words;

/// Whether this is the first word of the line.
fn begins_with(line: &[u8], word: &[u8]) -> bool
    ensures yes { IsTrue result → (rest : List (List ℕ)) × (words_of line.now ≡ word.now ∷ rest) }
    ensures no { result ≡ false → (rest : List (List ℕ)) → words_of line.now ≢ word.now ∷ rest }
{
    match Words::new(line).next() {
        Some(first) => first == word,
        None => false,
    }
}

/// That the subject has no model.
fn lack_of(subject: Subject) -> Claim
    ensures { said result ≡ lack_of subject }
{
    match subject {
        Subject::TheConstraint => Claim::NoModelOfConstraint,
        Subject::BaseOf(agent) => Claim::NoModelOfBase(agent),
    }
}

impl Answering {
    /// How many agents are named when the subject is.
    fn named_with(&self, subject: Subject) -> usize
        requires { IsSubjectAt (position_of self.now) subject }
        ensures { result ≡ named_with subject }
    {
        match subject {
            Subject::TheConstraint => 0,
            Subject::BaseOf(agent) => agent + 1,
        }
    }

    /// What is due once so many agents are named.
    fn due_after_named(&self, named: usize) -> Due
        ensures { result ≡ due_after_named (position_of self.now) named }
    {
        if named < self.problem.agents.len() {
            Due::Named
        } else {
            Due::Main
        }
    }

    /// The formula of the subject.
    fn formula_of(&self, subject: Subject) -> &Formula
        requires { IsSubjectAt (position_of self.now) subject }
        ensures formula { result.now ≡ formula_at (position_of self.now) subject }
        ensures wide { width_of result.now ≤ length self.now.problem.atoms }
    {
        match subject {
            Subject::TheConstraint => &self.problem.constraint,
            Subject::BaseOf(agent) => &self.problem.agents.as_slice()[agent].base,
        }
    }

    /// Whether the subject may have a model: another formula has none, or an agent is still to be
    /// named.
    fn may_name(&self, subject: Subject) -> bool
        requires { IsSubjectAt (position_of self.now) subject }
        ensures { result ≡ may_name (position_of self.now) subject }
    {
        self.named_with(subject) < self.problem.agents.len() || !self.claims.is_empty()
    }

    /// Whether the model may be shown of the subject.
    fn has_model(&self, subject: Subject, model: &Valuation) -> bool
        requires subject { IsSubjectAt (position_of self.now) subject }
        requires size { length model.now ≡ length self.now.problem.atoms }
        ensures { result ≡ holds (position_of self.now) (HasModelLine subject model.now) }
    {
        self.formula_of(subject).holds(model) && self.may_name(subject)
    }

    /// The subject is named.
    fn name(&mut self, subject: Subject)
        requires { IsSubjectAt (position_of self.old) subject }
        ensures place { position_of self.new ≡ after_named (position_of self.old) subject }
        ensures fit { AreProperAt (position_of self.old) → IsFit self.new }
    {
        let named = self.named_with(subject);
        self.due = self.due_after_named(named);
        self.kind = Kind::Inconsistent;
        self.named = named;
    }

    /// The subject has no model: its claim is due.
    fn take_lack(&mut self, subject: Subject) -> Result<(), LineStop>
        requires subject { IsSubjectAt (position_of self.old) subject }
        requires claims { AreProperAt (position_of self.old) }
        ensures taken { Takes (position_of self.old) (NoModelLine subject)
            (StandsAtAnswer self.new) result }
        ensures fit { OnOk result (IsFit self.new) }
        ensures kept { OnErr result (position_of self.new ≡ position_of self.old) }
    {
        let claim = Claimed {
            model: 0,
            says: lack_of(subject),
        };
        add_claim(&mut self.claims, claim)?;
        self.name(subject);
        Ok(())
    }

    /// Whether the subject has a model.
    pub(crate) fn on_named(&mut self, line: &[u8], subject: Subject) -> Result<(), LineStop>
        requires subject { IsSubjectAt (position_of self.old) subject }
        requires claims { AreProperAt (position_of self.old) }
        ensures judged { JudgedAs (IsNamedLine (position_of self.old) subject)
            (position_of self.old) line.now (StandsAtAnswer self.new) result }
        ensures fit { OnOk result (IsFit self.new) }
        ensures kept { OnErr result (position_of self.new ≡ position_of self.old) }
    {
        if is_no_model_line(line, subject) {
            return self.take_lack(subject);
        }
        let Some(model) = has_model_line(line, subject, self.problem.atoms.len()) else {
            return Err(LineStop::Wrong(RefusedKind::Form));
        };
        if !self.has_model(subject, &model) {
            return Err(LineStop::Wrong(RefusedKind::Witness));
        }
        self.name(subject);
        Ok(())
    }

    /// That the search gave up, or whether the constraint has a model.
    fn on_other(&mut self, line: &[u8]) -> Result<(), LineStop>
        requires claims { AreProperAt (position_of self.old) }
        ensures judged { JudgedAs
            (λ x. IsNamedLine
            (position_of self.old) Subject.TheConstraint x ⊎
            (x ≡ GaveUpLine)) (position_of self.old) line.now
            (StandsAtAnswer self.new) result }
        ensures fit { OnOk result (IsFit self.new) }
        ensures kept { OnErr result (position_of self.new ≡ position_of self.old) }
    {
        if is_gave_up_line(line) {
            self.kind = Kind::Spent;
            self.due = Due::Main;
            return Ok(());
        }
        self.on_named(line, Subject::TheConstraint)
    }

    /// The first line of an answer.
    pub(crate) fn on_answer(&mut self, line: &[u8]) -> Result<(), LineStop>
        requires place { IsFirst self.old }
        requires claims { AreProperAt (position_of self.old) }
        ensures judged { JudgedAs (IsAnswerLine (position_of self.old))
            (position_of self.old) line.now (StandsAtAnswer self.new) result }
        ensures fit { OnOk result (IsFit self.new) }
        ensures kept { OnErr result (position_of self.new ≡ position_of self.old) }
    {
        if begins_with(line, b"model") {
            self.on_model(line)
        } else {
            self.on_other(line)
        }
    }
}

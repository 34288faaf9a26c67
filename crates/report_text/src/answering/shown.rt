//! The lines of a shown model: the model, its vector, the nearest models and the measure.
ghost use Rattle.std.specs.Prelude.{◌≡◌, ◌≤◌, ◌⊎◌, true, length, map, All, IfOk, OnOk, OnErr};
ghost use Rattle.std.specs.Prelude.{if◌then◌else◌, ◌==◌, nat_le};
ghost use Rattle.std.specs.List.{list_all};
ghost use Rattle.report_lines.specs.ClaimsDue.{far_claims};
ghost use Rattle.report_lines.specs.Following.{due_after_verdicts};
ghost use Rattle.report_lines.specs.Holding.{breaks, holds};
ghost use Rattle.report_lines.specs.Items.{ModelLine, VectorLine};
ghost use Rattle.report_lines.specs.Places.{DueAt, IsModelLine, full_at, rank_at, top_at};
ghost use Rattle.merge_encoding.specs.Named.{values_named};
ghost use Rattle.ranks.specs.Limits.{distance_limit, entry_limit};
ghost use Rattle.report_text.specs.Answering.{position_of, due_claim, StandsAtAnswer, FitsAt};
ghost use Rattle.report_text.specs.Answering.{IsFirst, IsAfterNo, IsVectorAt, AreProperAt, IsFit};
ghost use Rattle.report_text.specs.Judging.{JudgedAs};
ghost use Rattle.report_text.specs.Taking.{Takes};

use crate::answering::claims::{add_claims, far_claims, least_claims};
use crate::answering::plain::{are_equal, are_near_named, narrowed, rank_of, top_of, values_of};
use crate::answering::{Answering, Claimed};
use crate::stop::LineStop;
use edge::NoMemory;
use formulas::Valuation;
use merge_model::full_vector;
use report_lines::{Due, RefusedKind, model_line, nearest_line, numbers_line};

/// What is kept of the first vector.
#[derive(Drop)]
struct First {
    vector: Vec<u32>,
    measure: Vec<u32>,
    values: Vec<u32>,
}

impl Answering {
    /// Whether the query of the last no is false in the model, where there was one.
    fn breaks(&self, model: &Valuation) -> bool
        requires size { length model.now ≡ length self.now.problem.atoms }
        requires few { self.now.verdicts ≤ length self.now.problem.asks }
        ensures { result ≡ breaks (position_of self.now) model.now }
    {
        if self.verdicts == 0 {
            return true;
        }
        !self.problem.asks.as_slice()[self.verdicts - 1].holds(model)
    }

    /// Whether the model may be shown here.
    fn may_show(&self, model: &Valuation) -> bool
        requires size { length model.now ≡ length self.now.problem.atoms }
        requires few { self.now.verdicts ≤ length self.now.problem.asks }
        ensures { result ≡ holds (position_of self.now) (ModelLine model.now) }
    {
        self.problem.constraint.holds(model) && self.breaks(model)
    }

    /// A model: the first, or one after a no.
    pub(crate) fn on_model(&mut self, line: &[u8]) -> Result<(), LineStop>
        requires place { IsFirst self.old ⊎ IsAfterNo self.old }
        requires claims { AreProperAt (position_of self.old) }
        ensures judged { JudgedAs (IsModelLine (position_of self.old))
            (position_of self.old) line.now (StandsAtAnswer self.new) result }
        ensures fit { OnOk result (IsFit self.new) }
        ensures kept { OnErr result (position_of self.new ≡ position_of self.old) }
    {
        let Some(model) = model_line(line, self.problem.atoms.len()) else {
            return Err(LineStop::Wrong(RefusedKind::Form));
        };
        if !self.may_show(&model) {
            return Err(LineStop::Wrong(RefusedKind::Witness));
        }
        self.model = model;
        self.due = Due::Vector;
        Ok(())
    }

    /// The full vector of a vector.
    fn full_of(&self, vector: &[u32]) -> Result<Vec<u32>, NoMemory>
        requires { IsVectorAt (position_of self.now) vector.now }
        ensures full { IfOk result
            (λ full. full.items ≡ full_at (position_of self.now) vector.now) }
        ensures some { IfOk result (λ full. 1 ≤ length full.items) }
        ensures few { IfOk result (λ full. length full.items ≤ entry_limit) }
        ensures within { IfOk result
            (λ full. All (λ k. k ≤ top_at (position_of self.now)) full.items) }
        ensures small { IfOk result (λ full. All (λ k. k ≤ distance_limit) full.items) }
    {
        let full = full_vector(self.alloc, vector, self.problem.agents.as_slice())?;
        Ok(full)
    }

    /// The rank of a vector's full vector.
    fn ranked(&self, vector: &[u32]) -> Result<Vec<u32>, NoMemory>
        requires { IsVectorAt (position_of self.now) vector.now }
        ensures { IfOk result (λ rank. rank.items ≡ rank_at (position_of self.now) vector.now) }
    {
        let full = self.full_of(vector)?;
        rank_of(self.alloc, self.aggregator, &full)
    }

    /// What is kept of the first vector.
    fn first_of(&self, vector: &[u32]) -> Result<First, NoMemory>
        requires { IsVectorAt (position_of self.now) vector.now }
        ensures vector { IfOk result (λ first. first.vector.items ≡ vector.now) }
        ensures measure { IfOk result
            (λ first. first.measure.items ≡ rank_at (position_of self.now) vector.now) }
        ensures values { IfOk result (λ first. first.values.items ≡
            values_named self.now.aggregator (full_at (position_of self.now) vector.now)
            (top_at (position_of self.now))) }
    {
        let full = self.full_of(vector)?;
        let top = top_of(self.distance, &self.problem);
        Ok(First {
            vector: vector.to_vec(self.alloc)?,
            measure: rank_of(self.alloc, self.aggregator, &full)?,
            values: values_of(self.alloc, self.aggregator, &full, top)?,
        })
    }

    /// That no base has a model nearer to the last model than the vector says.
    fn far_of(&self, vector: &[u32]) -> Result<Vec<Claimed>, NoMemory>
        ensures { IfOk result
            (λ claims. map
            due_claim claims.items ≡ far_claims self.now.verdicts self.now.model vector.now) }
    {
        far_claims(self.alloc, self.verdicts as u64, self.model, vector)
    }

    /// The first vector: it and its measure and level values are kept.
    fn take_first(&mut self, vector: Vec<u32>) -> Result<(), LineStop>
        requires vector { IsVectorAt (position_of self.old) vector.items }
        requires passed { list_all
            (λ d. nat_le d (top_at (position_of self.old))) vector.items ≡ true }
        requires model { length self.old.model ≡ length self.old.problem.atoms }
        requires first { IsFirst self.old }
        ensures taken { Takes (position_of self.old) (VectorLine vector.items)
            (StandsAtAnswer self.new) result }
        ensures fit { OnOk result (IsFit self.new) }
        ensures kept { OnErr result (position_of self.new ≡ position_of self.old) }
    {
        let first = self.first_of(&vector)?;
        let far = self.far_of(&vector)?;
        add_claims(&mut self.claims, far)?;
        self.vector = vector;
        self.due = Due::Nearest;
        self.best = first.vector;
        self.measure = first.measure;
        self.values = first.values;
        Ok(())
    }

    /// The vector of a model after a no: its rank is the measure.
    fn take_next(&mut self, vector: Vec<u32>) -> Result<(), LineStop>
        requires vector { IsVectorAt (position_of self.old) vector.items }
        requires passed { list_all
            (λ d. nat_le d (top_at (position_of self.old))) vector.items ≡ true }
        requires model { length self.old.model ≡ length self.old.problem.atoms }
        requires after { IsAfterNo self.old }
        requires claims { AreProperAt (position_of self.old) }
        ensures taken { Takes (position_of self.old) (VectorLine vector.items)
            (StandsAtAnswer self.new) result }
        ensures fit { OnOk result (IsFit self.new) }
        ensures kept { OnErr result (position_of self.new ≡ position_of self.old) }
    {
        let rank = self.ranked(&vector)?;
        if rank != self.measure {
            return Err(LineStop::Wrong(RefusedKind::Witness));
        }
        let far = self.far_of(&vector)?;
        add_claims(&mut self.claims, far)?;
        self.vector = vector;
        self.due = Due::Nearest;
        Ok(())
    }

    /// The vector of the last model.
    pub(crate) fn on_vector(&mut self, line: &[u8]) -> Result<(), LineStop>
        requires place { FitsAt Due.Vector self.old }
        requires claims { AreProperAt (position_of self.old) }
        ensures judged { JudgedAs (DueAt Due.Vector (position_of self.old))
            (position_of self.old) line.now (StandsAtAnswer self.new) result }
        ensures fit { OnOk result (IsFit self.new) }
        ensures kept { OnErr result (position_of self.new ≡ position_of self.old) }
    {
        let agents = self.problem.agents.len();
        let Some(numbers) = numbers_line(self.alloc, line, b"vector", agents)? else {
            return Err(LineStop::Wrong(RefusedKind::Form));
        };
        let top = top_of(self.distance, &self.problem);
        let Some(vector) = narrowed(self.alloc, &numbers, top)? else {
            return Err(LineStop::Wrong(RefusedKind::Witness));
        };
        if self.verdicts == 0 {
            self.take_first(vector)
        } else {
            self.take_next(vector)
        }
    }

    /// What is due after the nearest models.
    fn due_after_nearest(&self) -> Due
        ensures { result ≡ (if self.now.verdicts == 0 then Due.Measure else due_after_verdicts
            (position_of self.now) self.now.verdicts) }
    {
        if self.verdicts == 0 {
            return Due::Measure;
        }
        self.due_after_verdicts(self.verdicts)
    }

    /// The nearest models of the last model.
    pub(crate) fn on_nearest(&mut self, line: &[u8]) -> Result<(), LineStop>
        requires place { FitsAt Due.Nearest self.old }
        requires claims { AreProperAt (position_of self.old) }
        ensures judged { JudgedAs (DueAt Due.Nearest (position_of self.old))
            (position_of self.old) line.now (StandsAtAnswer self.new) result }
        ensures fit { OnOk result (IsFit self.new) }
        ensures kept { OnErr result (position_of self.new ≡ position_of self.old) }
    {
        let atoms = self.problem.atoms.len();
        let agents = self.problem.agents.len();
        let Some(nearest) = nearest_line(self.alloc, line, atoms, agents)? else {
            return Err(LineStop::Wrong(RefusedKind::Form));
        };
        if !are_near_named(
            self.distance,
            &self.problem,
            self.model,
            &self.vector,
            &nearest,
        ) {
            return Err(LineStop::Wrong(RefusedKind::Witness));
        }
        self.due = self.due_after_nearest();
        Ok(())
    }

    /// The measure of the first vector.
    pub(crate) fn on_measure(&mut self, line: &[u8]) -> Result<(), LineStop>
        requires place { FitsAt Due.Measure self.old }
        requires claims { AreProperAt (position_of self.old) }
        ensures judged { JudgedAs (DueAt Due.Measure (position_of self.old))
            (position_of self.old) line.now (StandsAtAnswer self.new) result }
        ensures fit { OnOk result (IsFit self.new) }
        ensures kept { OnErr result (position_of self.new ≡ position_of self.old) }
    {
        let count = self.measure.len();
        let Some(numbers) = numbers_line(self.alloc, line, b"measure", count)? else {
            return Err(LineStop::Wrong(RefusedKind::Form));
        };
        if !are_equal(&numbers, &self.measure) {
            return Err(LineStop::Wrong(RefusedKind::Witness));
        }
        let least = least_claims(self.alloc, &self.values)?;
        add_claims(&mut self.claims, least)?;
        self.due = self.due_after_verdicts(0);
        Ok(())
    }
}

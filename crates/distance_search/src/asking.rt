//! Who answers claims on a problem.
ghost use Rattle.std.specs.Prelude.{◌≡◌, ℕ, ◌<◌, ◌≤◌, length, All, IfOk, MatchResult};
ghost use Rattle.cdcl_core.specs.Replies.{IsLonger};
ghost use Rattle.formulas.specs.Formulas.{holds};
ghost use Rattle.merge_encoding.specs.Claims.{said, ask_at};
ghost use Rattle.merge_encoding.specs.Frames.{frame_of};
ghost use Rattle.merge_model.specs.Merging.{repeated};
ghost use Rattle.distance_search.specs.Setting.{Setting, IsOver, IsAskable};
ghost use Rattle.distance_search.specs.Laws.{Laws};
ghost use Rattle.distance_search.specs.Heard.{IsStopped};
ghost use Rattle.distance_search.specs.Replies.{IsAnswer};

use crate::engine::Engine;
use crate::reply::{Reply, SearchStop};
use edge::NoMemory;
use formulas::Valuation;
use merge_encoding::{Claim, Frame};
use std::alloc::Global;

/// Questions on a problem, each of which puts one claim to the solver of its main clauses.
///
/// Its meanings are `setting`, what the claims are about, and `budget`, how many steps a question
/// may learn. The law, below the methods, says what the setting keeps.
pub trait Questions {
    /// What the claims are about.
    ghost setting: { Self → Setting };

    /// How many steps a question may learn.
    ghost budget: { Self → ℕ };

    /// Where the parts of the problem stand in its main clauses.
    fn frame(&self) -> &Frame
        ensures { result.now ≡ frame_of (setting self.now).main };

    /// The distance of two valuations over the problem's atoms.
    fn between(&self, left: Valuation, right: Valuation) -> u32
        requires left { length left ≡ (setting self.now).profile.atoms }
        requires right { length right ≡ (setting self.now).profile.atoms }
        ensures { result ≡ (setting self.now).dist left right };

    /// Whether a query is true at a valuation over the problem's atoms.
    fn satisfies(&self, model: Valuation, ask: usize) -> bool
        requires sized { length model ≡ (setting self.now).profile.atoms }
        requires ask { ask < length (setting self.now).asks }
        ensures { result ≡ holds (ask_at (setting self.now).asks ask) model };

    /// The rank of distances, one for each agent; `NoMemory` for want of it.
    fn measure(&self, alloc: Global, vector: &[u32]) -> Result<Vec<u32>, NoMemory>
        requires sized { length vector.now ≡ length (setting self.now).profile.bases }
        requires within { All (λ k. k ≤ (setting self.now).top) vector.now }
        ensures { IfOk result (λ ranked. ranked.items
            ≡ (setting self.now).rank (repeated (setting self.now).profile.times vector.now)) };

    /// Puts questions whose answers prove nothing, so that the solver learns from them, and
    /// answers what the levels may be at most to begin with; `NoMemory` for want of memory.
    fn warm_up(&self, alloc: Global, engine: &mut Engine) -> Result<u32, NoMemory>
        ensures longer { IsLonger engine.old.log engine.new.log };

    /// Answers a claim: it is true, and a step of the log shows it, or valuations break it.
    /// `GaveUp` where the budget was spent on it, and `NoMemory` for want of memory.
    fn ask(&self, alloc: Global, engine: &mut Engine, claim: &Claim) -> Result<Reply, SearchStop>
        requires main { IsOver (setting self.now) engine.old.log }
        requires proper { IsAskable (setting self.now) (said claim.now) }
        ensures main { IsOver (setting self.now) engine.new.log }
        ensures longer { IsLonger engine.old.log engine.new.log }
        ensures answer { MatchResult result
            (λ reply. IsAnswer (setting self.now) engine.new.log (said claim.now) reply)
            (λ stop. IsStopped engine.old.log engine.new.log (budget self.now) stop) };

    /// What the setting keeps.
    ghost laws: { (questions : Self) → Laws (setting questions) };
}

//! Laws of the main clauses, for every distance and aggregator.

ghost use Rattle.std.specs.Prelude.{◌≡◌, ◌↔◌, ℕ, suc, Bool, List, take};
ghost use Rattle.clause_store.specs.Truth.{AreTrue};
ghost use Rattle.formulas.specs.declared.formula.Formula.{Formula as Tree};
ghost use Rattle.merge_model.specs.Merging.{Profile};
ghost use Rattle.agent_copies.specs.Counter.{truth_of};
ghost use Rattle.merge_encoding.specs.declared.frame.Frame.{Frame as Place};
ghost use Rattle.merge_encoding.specs.MainDues.{main_due, owns_of, IsLimited, IsMain};
ghost use Rattle.merge_encoding.specs.Frames.{frame_of, IsFrameOver, FrameIsDistinct};
ghost use Rattle.merge_encoding.specs.Claims.{Assertion, NoBetter, IsTrueThat, Breaks};
ghost use Rattle.merge_encoding.specs.Assumptions.{assumed_in, assumed, IsProper, AllTrue};
ghost use Rattle.merge_encoding.specs.Assumptions.{NoneSatisfies};

use agent_copies::Counted;
use aggregators::Levelled;

/// What the main clauses mean, and that their frame is over their variables and distinct.
pub fn frame_law<D: Counted, A: Levelled>(distance: &D, aggregator: &A)
    ensures means { (p : Profile) (asks : List Tree) → IsLimited p asks →
        IsMain (D.dist distance.now) (D.most distance.now p.atoms) (A.levels_of aggregator.now)
        p asks (main_due (D.due distance.now) (A.levels_due aggregator.now) p asks) }
    ensures over { (p : Profile) (asks : List Tree) → IsLimited p asks →
        let main = main_due (D.due distance.now) (A.levels_due aggregator.now) p asks in
        IsFrameOver main.vars (frame_of main) }
    ensures distinct { (p : Profile) (asks : List Tree) → IsLimited p asks →
        let main = main_due (D.due distance.now) (A.levels_due aggregator.now) p asks in
        FrameIsDistinct (frame_of main) }
{}

/// Each claim is true exactly where no assignment satisfies the main clauses with its assumptions.
/// An assignment that does has valuations that show the claim false.
pub fn claim_law<D: Counted, A: Levelled>(distance: &D, aggregator: &A)
    ensures exact { (p : Profile) (asks : List Tree) (claim : Assertion) → IsLimited p asks →
        let main = main_due (D.due distance.now) (A.levels_due aggregator.now) p asks in
        IsProper main claim →
        (IsTrueThat (D.dist distance.now) (D.most distance.now p.atoms)
        (A.levels_of aggregator.now) p asks claim ↔ NoneSatisfies main (assumed main claim)) }
    ensures broken { (p : Profile) (asks : List Tree) (claim : Assertion) (b : ℕ → Bool) →
        IsLimited p asks →
        let main = main_due (D.due distance.now) (A.levels_due aggregator.now) p asks in
        IsProper main claim → AreTrue main.clauses b → AllTrue b (assumed main claim) →
        Breaks (D.dist distance.now) (D.most distance.now p.atoms) (A.levels_of aggregator.now)
        p asks claim (truth_of b main.shared) (owns_of b main.copies) }
{}

/// What is assumed of better values at a level reads the values up to that level alone.
pub fn better_law()
    ensures { (f : Place) (j : ℕ) (values others : List ℕ) →
        take (suc j) values ≡ take (suc j) others →
        assumed_in f (NoBetter j values) ≡ assumed_in f (NoBetter j others) }
{}

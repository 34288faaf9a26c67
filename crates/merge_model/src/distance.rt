ghost use Rattle.std.specs.Prelude.{◌≡◌, ℕ, ◌≤◌, List, Bool, length};
ghost use Rattle.formulas.specs.Limits.{valuation_limit};
ghost use Rattle.ranks.specs.Limits.{distance_limit};

use formulas::Valuation;

/// How far two valuations over one number of atoms are apart.
///
/// Its meaning is `dist`, over the lists of their truth values. The laws are those below the
/// methods: a distance is symmetric, it is 0 exactly for equal valuations, and for 1 to
/// `valuation_limit` atoms it is at most `most`, which is from 1 to `distance_limit`. No triangle
/// inequality is asked.
pub trait Distance {
    /// The distance, of the lists of truth values.
    ghost dist: { Self → List Bool → List Bool → ℕ };

    /// The greatest distance of two valuations over so many atoms.
    ghost most: { Self → ℕ → ℕ };

    /// The distance of two valuations over one number of atoms.
    fn between(&self, left: Valuation, right: Valuation) -> u32
        requires { length left ≡ length right }
        ensures { result ≡ dist self.now left right };

    /// The greatest distance over so many atoms, a number from 1 to `distance_limit`.
    fn top(&self, atoms: u32) -> u32
        requires some { 1 ≤ atoms }
        requires few { atoms ≤ valuation_limit }
        ensures { result ≡ most self.now atoms };

    /// The order of the two valuations does not matter.
    ghost symmetric: { (d : Self) (v w : List Bool) → length v ≡ length w →
        dist d v w ≡ dist d w v };

    /// A valuation is at 0 from itself.
    ghost same: { (d : Self) (v : List Bool) → dist d v v ≡ 0 };

    /// At 0 from each other are equal valuations alone.
    ghost apart: { (d : Self) (v w : List Bool) → length v ≡ length w → dist d v w ≡ 0 → v ≡ w };

    /// No distance over 1 to `valuation_limit` atoms is above `most`.
    ghost within: { (d : Self) (v w : List Bool) → length v ≡ length w → 1 ≤ length v →
        length v ≤ valuation_limit → dist d v w ≤ most d (length v) };

    /// `most` is at least 1 for 1 to `valuation_limit` atoms.
    ghost some_most: { (d : Self) (n : ℕ) → 1 ≤ n → n ≤ valuation_limit → 1 ≤ most d n };

    /// `most` is at most `distance_limit` for 1 to `valuation_limit` atoms.
    ghost bounded: { (d : Self) (n : ℕ) → 1 ≤ n → n ≤ valuation_limit → most d n ≤ distance_limit };
}

/// 0 for equal valuations, and 1 otherwise.
#[derive(Clone, Copy, Debug)]
pub struct Drastic;

/// The number of atoms on which two valuations differ.
#[derive(Clone, Copy, Debug)]
pub struct Hamming;

impl Distance for Drastic {
    ghost use Rattle.std.proofs.Common.{arith};
    ghost use Rattle.merge_model.specs.Distances.{drastic};
    ghost use Rattle.merge_model.specs.DistanceLaws.{drastic_comm, drastic_self, drastic_apart};
    ghost use Rattle.merge_model.specs.DistanceLaws.{drastic_within};

    ghost dist = { λ _ v w. drastic v w };

    ghost most = { λ _ n. 1 };

    ghost symmetric = { λ _ v w _. drastic_comm v w };

    ghost same = { λ _ v. drastic_self v };

    ghost apart = { λ _ v w. drastic_apart v w };

    ghost within = { λ _ v w _ _ _. drastic_within v w };

    ghost some_most = { λ _ n some _. Prim.omega arith };

    ghost bounded = { λ _ n _ few. Prim.omega arith };

    fn between(&self, left: Valuation, right: Valuation) -> u32 {
        if left.bits == right.bits { 0 } else { 1 }
    }

    fn top(&self, atoms: u32) -> u32 {
        1
    }
}

impl Distance for Hamming {
    ghost use Rattle.std.proofs.Common.{arith};
    ghost use Rattle.merge_model.specs.Distances.{hamming};
    ghost use Rattle.merge_model.specs.DistanceLaws.{hamming_comm, hamming_self, hamming_apart};
    ghost use Rattle.merge_model.specs.DistanceLaws.{hamming_within};

    ghost dist = { λ _ v w. hamming v w };

    ghost most = { λ _ n. n };

    ghost symmetric = { λ _ v w _. hamming_comm v w };

    ghost same = { λ _ v. hamming_self v };

    ghost apart = { λ _ v w. hamming_apart v w };

    ghost within = { λ _ v w _ _ _. hamming_within v w };

    ghost some_most = { λ _ n some _. some };

    ghost bounded = { λ _ n _ few. Prim.omega arith };

    fn between(&self, left: Valuation, right: Valuation) -> u32 {
        (left.bits ^ right.bits).count_ones()
    }

    fn top(&self, atoms: u32) -> u32 {
        atoms
    }
}

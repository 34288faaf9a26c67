ghost use Rattle.std.specs.Prelude.{◌≡◌, ℕ, ◌≤◌, List, [], ◌≢◌, ◌++◌, length, All, replicate, IfOk};
ghost use Rattle.std.specs.List.{AllZip};
ghost use Rattle.std.specs.Cmp.Lexicographic.{slice_cmp};
ghost use Rattle.std.specs.Ordering.{nat_cmp};
ghost use Rattle.std.specs.List.Sorted.{IsPermutation};
ghost use Rattle.ranks.specs.Limits.{distance_limit, entry_limit};
ghost use Rattle.ranks.specs.Ranks.{IsNoWorse};

use edge::NoMemory;
use std::alloc::Global;
use std::cmp::Ordering;

/// Which of two lists of distances is better.
///
/// Its meaning is `rank`, a list for each list of numbers, with one length for lists of one length.
/// A list is no worse than another of its length where its rank is lexicographically at most the
/// other's. The laws, below the methods, speak of lists that are not empty and whose entries are at
/// most `distance_limit`. `unordered`: a permutation keeps the rank. `monotone`: a list whose
/// entries are each at most another's is no worse. `zero_least`: only the list of zeros is no worse
/// than the list of zeros. `joined`: where two lists are each no worse than two others, they are so
/// when joined.
pub trait Aggregator {
    /// The rank of a list of distances.
    ghost rank: { Self → List ℕ → List ℕ };

    /// The lexicographic order of the ranks of two lists of one length, which have 1 to
    /// `entry_limit` entries of at most `distance_limit`. It takes no memory.
    fn compare(&self, left: &[u32], right: &[u32]) -> Ordering
        requires sized { length left.now ≡ length right.now }
        requires some { 1 ≤ length left.now }
        requires few { length left.now ≤ entry_limit }
        requires left { All (λ k. k ≤ distance_limit) left.now }
        requires right { All (λ k. k ≤ distance_limit) right.now }
        ensures { result ≡ slice_cmp nat_cmp (rank self.now left.now) (rank self.now right.now) };

    /// The rank of a list of 1 to `entry_limit` entries of at most `distance_limit`; `NoMemory` for
    /// want of it.
    fn rank_of(&self, alloc: Global, full: &[u32]) -> Result<Vec<u32>, NoMemory>
        requires some { 1 ≤ length full.now }
        requires few { length full.now ≤ entry_limit }
        requires small { All (λ k. k ≤ distance_limit) full.now }
        ensures { IfOk result (λ ranked. ranked.items ≡ rank self.now full.now) };

    /// Lists of one length have ranks of one length.
    ghost sized: { (a : Self) (u w : List ℕ) → length u ≡ length w →
        length (rank a u) ≡ length (rank a w) };

    /// A permutation keeps the rank.
    ghost unordered: { (a : Self) (u w : List ℕ) → All (λ k. k ≤ distance_limit) u → u ≢ [] →
        IsPermutation u w → rank a u ≡ rank a w };

    /// Where no entry is greater than its partner, the list is no worse.
    ghost monotone: { (a : Self) (u w : List ℕ) → All (λ k. k ≤ distance_limit) w → u ≢ [] →
        AllZip (λ j k. j ≤ k) u w → IsNoWorse (rank a) u w };

    /// Only the zeros are no worse than the zeros.
    ghost zero_least: { (a : Self) (u : List ℕ) → All (λ k. k ≤ distance_limit) u → u ≢ [] →
        IsNoWorse (rank a) u (replicate (length u) 0) → u ≡ replicate (length u) 0 };

    /// Where both parts are no worse, the joined list is no worse.
    ghost joined: { (a : Self) (u w s t : List ℕ) →
        All (λ k. k ≤ distance_limit) (u ++ w ++ s ++ t) → u ≢ [] → s ≢ [] →
        length u ≡ length w → length s ≡ length t →
        IsNoWorse (rank a) u w → IsNoWorse (rank a) s t →
        IsNoWorse (rank a) (u ++ s) (w ++ t) };
}

/// An aggregator by which a better part makes the joined list better. The law says it by its
/// contraposition: where the joined lists tie, both parts do. By `ranks::better_law` a list is
/// better exactly where the other is not no worse.
pub trait StrictAggregator: Aggregator {
    /// Where no part is worse and the joined lists tie, both parts tie.
    ghost strict: { (a : Self) (u w s t : List ℕ) →
        All (λ k. k ≤ distance_limit) (u ++ w ++ s ++ t) → u ≢ [] → s ≢ [] →
        length u ≡ length w → length s ≡ length t →
        IsNoWorse (Self.rank a) u w → IsNoWorse (Self.rank a) s t →
        IsNoWorse (Self.rank a) (w ++ t) (u ++ s) →
        IsNoWorse (Self.rank a) w u × IsNoWorse (Self.rank a) t s };
}

/// The rank of a list of 1 to `entry_limit` entries of at most `distance_limit`; `NoMemory` for
/// want of it.
pub fn measure<A: Aggregator>(
    alloc: Global,
    aggregator: &A,
    full: &[u32],
) -> Result<Vec<u32>, NoMemory>
    requires some { 1 ≤ length full.now }
    requires few { length full.now ≤ entry_limit }
    requires small { All (λ k. k ≤ distance_limit) full.now }
    ensures { IfOk result (λ ranked. ranked.items ≡ A.rank aggregator.now full.now) }
{
    aggregator.rank_of(alloc, full)
}

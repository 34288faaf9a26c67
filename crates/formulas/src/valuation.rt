ghost use Rattle.std.specs.Prelude.{◌≡◌, ◌+◌, ◌<◌, ◌≤◌, ◌^◌, length, slice_set};
ghost use Rattle.std.specs.Prelude.{MatchOption, replicate, true, IsTrue, ◌↔◌};
ghost use Rattle.formulas.specs.Limits.{valuation_limit};
ghost use Rattle.formulas.specs.Words.{truth_at, word_of, IsNext, IsBefore};

use std::marker::Model;

/// The truth values of 0 to `VALUATION_LIMIT` atoms, seen as their list from atom 0 on.
///
/// `bits` is below `2 ^ atoms`, and atom 0 is its highest bit. So valuations of one number of
/// atoms compare as the words of their truth values do, with false before true.
#[tactic(auto, using(crate::specs::WordLaws::number_of_word, crate::specs::WordLaws::word_size))]
#[derive(Clone, Copy, Debug, PartialEq, Eq, PartialOrd, Ord)]
pub struct Valuation {
    /// The truth values as a number, that of atom 0 as the highest bit.
    pub bits: u64,
    /// The number of atoms, from 0 to `VALUATION_LIMIT`.
    pub atoms: u32,
}

impl Model for Valuation {
    ghost use Rattle.std.specs.Prelude.{List, Bool, ◌<◌, ◌≤◌, ◌^◌, length};
    ghost use Rattle.formulas.specs.Limits.{valuation_limit};
    ghost use Rattle.formulas.specs.Words.{word_of, number_of};
    ghost use Rattle.formulas.specs.WordLaws.{number_of_word, word_size};
    ghost use Rattle.std.proofs.Common.{ap, ◌∙◌};

    ghost Value = { List Bool };

    ghost view = { λ a. word_of a.atoms a.bits };

    ghost invariant = { λ a. (a.atoms ≤ valuation_limit) × (a.bits < 2 ^ a.atoms) };

    ghost inverse = { λ v. record { bits = number_of v; atoms = length v } };

    ghost inverse_ok = { λ a h.
        ap (λ k. record { bits = k; atoms = length (word_of a.atoms a.bits) })
        (number_of_word a.atoms a.bits h.1)
        ∙ ap (λ k. record { bits = a.bits; atoms = k }) (word_size a.atoms a.bits) };
}

impl Valuation {
    /// The valuation of `atoms` atoms that `bits` stands for.
    pub fn new(bits: u64, atoms: u32) -> Valuation
        requires few { atoms ≤ valuation_limit }
        requires fits { bits < 2 ^ atoms }
        ensures { result ≡ word_of atoms bits }
    {
        Valuation { bits, atoms }
    }

    /// The truth value of an atom.
    #[tactic(auto, using(crate::specs::WordLaws::word_size))]
    pub fn get(self, atom: u32) -> bool
        requires { atom < length self }
        ensures { result ≡ truth_at self atom }
    {
        bit_of(self.bits, self.atoms, atom)
    }

    /// The valuation that differs at most in one atom, which has the given truth value.
    #[tactic(auto, using(crate::specs::WordLaws::word_size))]
    pub fn with(self, atom: u32, value: bool) -> Valuation
        requires { atom < length self }
        ensures { result ≡ slice_set self atom value }
    {
        Valuation {
            bits: bits_with(self.bits, self.atoms, atom, value),
            atoms: self.atoms,
        }
    }

    /// The next valuation in rising order, or `None` where every atom is true.
    pub fn next_after(self) -> Option<Valuation>
        ensures { MatchOption result (self ≡ replicate (length self) true)
            (λ next. IsNext self next) }
    {
        let Valuation { bits, atoms } = self;
        match bits_after(bits, atoms) {
            None => None,
            Some(bits) => Some(Valuation { bits, atoms }),
        }
    }

    /// Whether the first word is before the second: `Ord` is the order of words.
    #[tactic(auto, using(crate::specs::WordLaws::word_size))]
    pub fn is_before(self, other: Valuation) -> bool
        requires { length self ≡ length other }
        ensures { IsTrue result ↔ IsBefore self other }
    {
        self.cmp(&other).is_lt()
    }
}

/// The truth value of one atom, read from the bits.
fn bit_of(bits: u64, atoms: u32, atom: u32) -> bool
    requires few { atoms ≤ valuation_limit }
    requires fits { bits < 2 ^ atoms }
    requires within { atom < atoms }
    ensures { result ≡ truth_at (word_of atoms bits) atom }
{
    (bits >> (atoms - 1 - atom)) % 2 == 1
}

/// The bits with one atom's truth value put in.
#[tactic(auto, using(crate::proofs::WordOrder::word_set_true, crate::proofs::WordOrder::word_set_false, crate::proofs::WordOrder::word_set_same))]
fn bits_with(bits: u64, atoms: u32, atom: u32, value: bool) -> u64
    requires few { atoms ≤ valuation_limit }
    requires fits { bits < 2 ^ atoms }
    requires within { atom < atoms }
    ensures fits { result < 2 ^ atoms }
    ensures set { word_of atoms result ≡ slice_set (word_of atoms bits) atom value }
{
    let bit = 1u64 << (atoms - 1 - atom);
    if bit_of(bits, atoms, atom) {
        if value { bits } else { bits - bit }
    } else if value {
        bits + bit
    } else {
        bits
    }
}

/// The next number below `2 ^ atoms`, or `None` where there is none.
fn bits_after(bits: u64, atoms: u32) -> Option<u64>
    requires few { atoms ≤ valuation_limit }
    requires fits { bits < 2 ^ atoms }
    ensures { MatchOption result (2 ^ atoms ≤ bits + 1)
        (λ next. (next ≡ bits + 1) × (next < 2 ^ atoms)) }
{
    let next = bits.checked_add(1)?;
    if atoms < u64::BITS && next >> atoms != 0 {
        return None;
    }
    Some(next)
}

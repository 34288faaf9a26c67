//! Where a list begins.
ghost use Rattle.std.specs.Prelude.{◌≡◌, ◌≤◌, ◌∷◌, [], IfSome, IfNone, All, IsTrue, ◌↔◌, drop};
ghost use Rattle.std.specs.Prelude.{length, map};
ghost use Rattle.formulas.specs.Limits.{valuation_limit};

use edge::Words;
use formulas::{VALUATION_LIMIT, Valuation};
use merge_model::Problem;

/// Where a list of closest valuations begins.
#[derive(Debug, Drop, PartialEq, Eq)]
pub enum Place {
    /// At the least of all.
    Start,
    /// Above this valuation.
    Above(Valuation),
    /// Above a word of more truth values than a valuation has.
    TooLong,
}

ghost use Rattle.merge_cli.specs.declared.place.Place.{Place as At};
ghost use Rattle.merge_cli.specs.Places.{IsPlace, IsPlaceOf, IsTruthDigit, above, is_one};

impl Place {
    /// Whether it is one of the problem: it has as many truth values as the problem has atoms, or
    /// none.
    #[tactic(auto, using(formulas::specs::WordLaws::word_size))]
    pub fn is_of(&self, problem: &Problem) -> bool
        ensures { IsTrue result ↔ IsPlaceOf problem.now self.now }
    {
        match self {
            Place::Start => true,
            Place::Above(valuation) => valuation.atoms == problem.atoms.len(),
            Place::TooLong => false,
        }
    }

    /// The valuation above which the list begins, if there is one.
    pub fn above(self) -> Option<Valuation>
        ensures { result ≡ above self }
    {
        match self {
            Place::Above(valuation) => Some(valuation),
            Place::Start | Place::TooLong => None,
        }
    }
}

/// The place that the words after the fourth one say.
pub fn place_in(words: &Words) -> Option<Place>
    requires { 4 ≤ length words.now }
    ensures some { IfSome result (IsPlace (drop 4 words.now)) }
    ensures none { IfNone result ((place : At) → IsPlace (drop 4 words.now) place → ⊥) }
{
    match words.len() {
        4 => Some(Place::Start),
        5 => place_of(words.get(4)),
        _ => None,
    }
}

/// The place that a word says.
fn place_of(word: &str) -> Option<Place>
    ensures some { IfSome result (IsPlace (word.now ∷ [])) }
    ensures none { IfNone result ((place : At) → IsPlace (word.now ∷ []) place → ⊥) }
{
    let digits = word.as_bytes();
    if digits.is_empty() || !are_truth_digits(digits) {
        return None;
    }
    if digits.len() > VALUATION_LIMIT {
        return Some(Place::TooLong);
    }
    Some(Place::Above(valuation_of(digits)))
}

fn are_truth_digits(digits: &[u8]) -> bool
    ensures { IsTrue result ↔ All IsTruthDigit digits.now }
{
    digits.iter().all(|digit| *digit == b'0' || *digit == b'1')
}

/// The valuation that is true where a digit is `1`.
fn valuation_of(digits: &[u8]) -> Valuation
    requires { length digits.now ≤ valuation_limit }
    ensures { result ≡ map is_one digits.now }
{
    let mut valuation = Valuation::new(0, digits.len() as u32);
    for (atom, digit) in digits.iter().enumerate() {
        valuation = valuation.with(atom as u32, *digit == b'1');
    }
    valuation
}

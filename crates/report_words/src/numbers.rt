//! Numbers of 1 to 19 digits, and literals.
ghost use Rattle.std.specs.Prelude.{◌≡◌, ◌≢◌, ℕ, IfSome, IfNone, decimal};
ghost use Rattle.report_words.specs.Numbers.{digits_from, number_at, literal_at, literal_word};
ghost use Rattle.report_words.specs.Numbers.{IsLiteral, HasNumeral, signed};
ghost use Rattle.std.specs.Option.{option_and_then};
ghost use Rattle.report_words.specs.declared.numbers.WideLit.{WideLit as Literal};

/// A number below it takes one digit more; `front_limit` of the specs.
const FRONT_LIMIT: u64 = 1_000_000_000_000_000_000;

/// A literal as a word spells it: its number may be larger than that of any variable.
#[derive(Clone, Copy, Debug, PartialEq, Eq)]
pub struct WideLit {
    /// The number that the word spells, without its sign.
    pub var: u64,
    /// Whether no `-` stands before the number.
    pub positive: bool,
}

/// The number that digits spell, at most 19 of them.
fn digits_of(word: &[u8]) -> Option<u64>
    ensures { result ≡ digits_from 0 word.now }
{
    let mut n = 0u64;
    for b in word {
        if !b.is_ascii_digit() || n >= FRONT_LIMIT {
            return None;
        }
        n = 10 * n + (*b - b'0') as u64;
    }
    Some(n)
}

#[tactic(auto, unfolding(crate::specs::Numbers::number_at))]
fn numeral(word: &[u8]) -> Option<u64>
    ensures { result ≡ number_at word.now }
{
    match word {
        [] => None,
        [b'0', _, ..] => None,
        _ => digits_of(word),
    }
}

/// The number that a word spells: `0`, or 1 to 19 digits that do not begin with `0`. `None` exactly
/// where the word is no such number.
pub fn number_of(word: &[u8]) -> Option<u64>
    ensures exact { result ≡ number_at word.now }
    ensures found { IfSome result (λ n. (word.now ≡ decimal n) × HasNumeral n) }
    ensures none { IfNone result ((n : ℕ) → HasNumeral n → word.now ≢ decimal n) }
{
    numeral(word)
}

fn signed_of(digits: &[u8], positive: bool) -> Option<WideLit>
    ensures { result ≡ option_and_then (signed positive) (number_at digits.now) }
{
    let var = numeral(digits)?;
    if var == 0 {
        return None;
    }
    Some(WideLit { var, positive })
}

#[tactic(auto, unfolding(crate::specs::Numbers::literal_at))]
fn spelled(word: &[u8]) -> Option<WideLit>
    ensures { result ≡ literal_at word.now }
{
    match word {
        [] => None,
        [b'-', rest @ ..] => signed_of(rest, false),
        _ => signed_of(word, true),
    }
}

/// The literal that a word spells: a number other than 0, with `-` before it where the literal is
/// negative. `None` exactly where the word is no such literal.
pub fn literal_of(word: &[u8]) -> Option<WideLit>
    ensures exact { result ≡ literal_at word.now }
    ensures found { IfSome result (λ l. (word.now ≡ literal_word l) × IsLiteral l) }
    ensures none { IfNone result ((l : Literal) → IsLiteral l → word.now ≢ literal_word l) }
{
    spelled(word)
}

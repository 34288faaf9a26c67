//! Lines by themselves: whether a line has the words of an item, and what it says then.
ghost use Rattle.std.specs.Prelude.{◌≡◌, ◌≢◌, ◌↔◌, ◌+◌, ◌≤◌, ℕ, Bool, List, [], ◌∷◌, ◌++◌, IsTrue};
ghost use Rattle.std.specs.Prelude.{IfSome, IfNone, false, codes, decimal};
ghost use Rattle.report_words.specs.Numbers.{HasNumeral};
ghost use Rattle.report_words.specs.Words.{words_of};
ghost use Rattle.merge_encoding.specs.Claims.{said};
ghost use Rattle.merge_model.specs.declared.operator.AggregatorName.{AggregatorName as AName};
ghost use Rattle.merge_model.specs.declared.operator.DistanceName.{DistanceName as DName};
ghost use Rattle.merge_model.specs.OperatorWords.{distance_word, aggregator_word};
ghost use Rattle.report_lines.specs.Items.{yes_word, subject_words, claim_words};
ghost use Rattle.report_lines.specs.Places.{first_word, conflict_limit};

use crate::kinds::{CONFLICT_LIMIT, Subject};
use itoa::Buffer;
use merge_encoding::Claim;
use merge_model::{AggregatorName, DistanceName};
use report_words::{Words, number_of};

/// The bytes of a line before its first blank.
pub fn first_word_of(line: &[u8]) -> &[u8]
    ensures { result.now ≡ first_word line.now }
{
    for (at, b) in line.iter().enumerate() {
        if *b == b' ' || *b == b'\t' || *b == b'\r' {
            return &line[..at];
        }
    }
    line
}

/// Takes the word, where it is next.
pub fn takes(words: &mut Words<'_>, word: &[u8]) -> bool
    ensures yes { IsTrue result → words.old ≡ word.now ∷ words.new }
    ensures no { result ≡ false → (rest : List (List ℕ)) → words.old ≢ word.now ∷ rest }
{
    match words.next() {
        Some(next) => next == word,
        None => false,
    }
}

/// Takes a number, where one is next.
fn takes_number(words: &mut Words<'_>) -> Option<u64>
    ensures some { IfSome result (λ n. (words.old ≡ decimal n ∷ words.new) × HasNumeral n) }
    ensures none { IfNone result ((n : ℕ) (rest : List (List ℕ)) → HasNumeral n →
        words.old ≢ decimal n ∷ rest) }
{
    number_of(words.next()?)
}

/// Takes this number, where it is next.
fn takes_this(words: &mut Words<'_>, n: u64) -> bool
    ensures yes { IsTrue result → words.old ≡ decimal n ∷ words.new }
    ensures no { result ≡ false → (rest : List (List ℕ)) → words.old ≢ decimal n ∷ rest }
{
    match words.next() {
        Some(word) => word == Buffer::new().format(n).as_bytes(),
        None => false,
    }
}

/// Takes the number after this one, where it is next: what is numbered from 0 has its number from 1
/// in a line.
fn takes_next(words: &mut Words<'_>, n: usize) -> bool
    ensures yes { IsTrue result → words.old ≡ decimal (n + 1) ∷ words.new }
    ensures no { result ≡ false → (rest : List (List ℕ)) → words.old ≢ decimal (n + 1) ∷ rest }
{
    let next = n as u128 + 1;
    match words.next() {
        Some(word) => word == Buffer::new().format(next).as_bytes(),
        None => false,
    }
}

/// Whether no word is left.
pub fn is_end(words: &mut Words<'_>) -> bool
    ensures { IsTrue result ↔ (words.old ≡ []) }
{
    words.next().is_none()
}

/// Whether the line is that of a report's head.
pub fn is_head_line(line: &[u8]) -> bool
    ensures { IsTrue result ↔ (words_of line.now ≡ codes "merge-report" ∷ codes "1" ∷ []) }
{
    match second_word(line, b"merge-report") {
        Some(version) => version == b"1".as_slice(),
        None => false,
    }
}

/// Whether the line says that a search gave up.
pub fn is_gave_up_line(line: &[u8]) -> bool
    ensures { IsTrue result ↔ (words_of line.now ≡ codes "gave-up" ∷ []) }
{
    let mut words = Words::new(line);
    takes(&mut words, b"gave-up") && is_end(&mut words)
}

/// The one word after this one, where the line has these two.
pub fn second_word<'a>(line: &'a [u8], first: &[u8]) -> Option<&'a [u8]>
    ensures some { IfSome result (λ w. words_of line.now ≡ first.now ∷ w.now ∷ []) }
    ensures none { IfNone result ((w : List ℕ) → words_of line.now ≢ first.now ∷ w ∷ []) }
{
    let mut words = Words::new(line);
    if !takes(&mut words, first) {
        return None;
    }
    let second = words.next()?;
    if !is_end(&mut words) {
        return None;
    }
    Some(second)
}

/// The distance that a line names; `None` exactly where the line names none.
pub fn distance_line(line: &[u8]) -> Option<DistanceName>
    ensures some { IfSome result
        (λ d. words_of line.now ≡ codes "distance" ∷ distance_word d ∷ []) }
    ensures none { IfNone result ((d : DName) →
        words_of line.now ≢ codes "distance" ∷ distance_word d ∷ []) }
{
    DistanceName::of_bytes(second_word(line, b"distance")?)
}

/// The aggregator that a line names; `None` exactly where the line names none.
pub fn aggregator_line(line: &[u8]) -> Option<AggregatorName>
    ensures some { IfSome result
        (λ a. words_of line.now ≡ codes "aggregator" ∷ aggregator_word a ∷ []) }
    ensures none { IfNone result ((a : AName) →
        words_of line.now ≢ codes "aggregator" ∷ aggregator_word a ∷ []) }
{
    AggregatorName::of_bytes(second_word(line, b"aggregator")?)
}

/// The number of conflicts that a line states; `None` exactly where it states none from 1 to the
/// limit.
#[tactic(auto, using(std::proofs::lemmas::Fmt::decimal_injective))]
pub fn conflicts_line(line: &[u8]) -> Option<u64>
    ensures some { IfSome result
        (λ b. (words_of line.now ≡ codes "conflicts" ∷ decimal b ∷ []) × (1 ≤ b) ×
        (b ≤ conflict_limit)) }
    ensures none { IfNone result ((b : ℕ) → 1 ≤ b → b ≤ conflict_limit →
        words_of line.now ≢ codes "conflicts" ∷ decimal b ∷ []) }
{
    let mut words = Words::new(line);
    if !takes(&mut words, b"conflicts") {
        return None;
    }
    let b = takes_number(&mut words)?;
    if !is_end(&mut words) {
        return None;
    }
    if 1 <= b && b <= CONFLICT_LIMIT {
        Some(b)
    } else {
        None
    }
}

/// The numbers of variables and of clauses on a `main` line; `None` exactly where the line is none.
pub fn main_line(line: &[u8]) -> Option<(u64, u64)>
    ensures some { IfSome result
        (λ x. (words_of line.now ≡ codes "main" ∷ decimal x.0 ∷ decimal x.1 ∷ []) × HasNumeral x.0 ×
        HasNumeral x.1) }
    ensures none { IfNone result ((v c : ℕ) → HasNumeral v → HasNumeral c →
        words_of line.now ≢ codes "main" ∷ decimal v ∷ decimal c ∷ []) }
{
    let mut words = Words::new(line);
    if !takes(&mut words, b"main") {
        return None;
    }
    let vars = takes_number(&mut words)?;
    let clauses = takes_number(&mut words)?;
    if !is_end(&mut words) {
        return None;
    }
    Some((vars, clauses))
}

fn yes_of(word: &[u8]) -> Option<bool>
    ensures some { IfSome result (λ b. word.now ≡ yes_word b) }
    ensures none { IfNone result ((b : Bool) → word.now ≢ yes_word b) }
{
    match word {
        b"yes" => Some(true),
        b"no" => Some(false),
        _ => None,
    }
}

/// The verdict that a line gives on a query, numbered from 0; `None` exactly where it gives none on
/// it.
pub fn verdict_line(line: &[u8], query: usize) -> Option<bool>
    ensures some { IfSome result
        (λ b. words_of line.now ≡ codes "verdict" ∷ decimal (query + 1) ∷ yes_word b ∷ []) }
    ensures none { IfNone result ((b : Bool) →
        words_of line.now ≢ codes "verdict" ∷ decimal (query + 1) ∷ yes_word b ∷ []) }
{
    let mut words = Words::new(line);
    if !takes(&mut words, b"verdict") || !takes_next(&mut words, query) {
        return None;
    }
    let given = yes_of(words.next()?)?;
    if !is_end(&mut words) {
        return None;
    }
    Some(given)
}

/// Takes the words of a subject, where they are next.
pub fn takes_subject(words: &mut Words<'_>, subject: Subject) -> bool
    ensures yes { IsTrue result → words.old ≡ subject_words subject ++ words.new }
    ensures no { result ≡ false → (rest : List (List ℕ)) →
        words.old ≢ subject_words subject ++ rest }
{
    match subject {
        Subject::TheConstraint => takes(words, b"constraint"),
        Subject::BaseOf(agent) => takes(words, b"agent") && takes_next(words, agent),
    }
}

/// Whether the line says that the subject has no model.
pub fn is_no_model_line(line: &[u8], subject: Subject) -> bool
    ensures yes { IsTrue result → words_of line.now ≡ codes "no-model" ∷ subject_words subject }
    ensures no { result ≡ false → words_of line.now ≢ codes "no-model" ∷ subject_words subject }
{
    let mut words = Words::new(line);
    if !takes(&mut words, b"no-model") {
        return false;
    }
    if !takes_subject(&mut words, subject) {
        return false;
    }
    is_end(&mut words)
}

/// Takes the words of a claim on a shown model, where they are next.
fn takes_claim(words: &mut Words<'_>, model: u64, claim: &Claim) -> bool
    ensures yes { IsTrue result → words.old ≡ claim_words model (said claim.now) ++ words.new }
    ensures no { result ≡ false → (rest : List (List ℕ)) →
        words.old ≢ claim_words model (said claim.now) ++ rest }
{
    match claim {
        Claim::NoModelOfConstraint => takes(words, b"constraint"),
        Claim::NoModelOfBase(agent) => takes(words, b"agent") && takes_next(words, *agent),
        Claim::NoNearer(agent, _, _) => {
            takes(words, b"far") && takes_this(words, model) && takes_next(words, *agent)
        }
        Claim::NoBetter(level, _) => takes(words, b"least") && takes_next(words, *level),
        Claim::NoBreaker(query, _) => takes(words, b"yes") && takes_next(words, *query),
        Claim::NoModelWith(_, _) => true,
    }
}

/// The number of the step that a line shows for a claim on a shown model; `None` exactly where it
/// shows none for it.
pub fn shown_line(line: &[u8], model: u64, claim: &Claim) -> Option<u64>
    ensures some { IfSome result
        (λ n. (words_of line.now ≡
        codes "shown" ∷ (claim_words model (said claim.now) ++ decimal n ∷ [])) ×
        HasNumeral n) }
    ensures none { IfNone result ((n : ℕ) → HasNumeral n →
        words_of line.now ≢ codes "shown" ∷
        (claim_words model (said claim.now) ++ decimal n ∷ [])) }
{
    let mut words = Words::new(line);
    if !takes(&mut words, b"shown") {
        return None;
    }
    if !takes_claim(&mut words, model, claim) {
        return None;
    }
    let n = takes_number(&mut words)?;
    if !is_end(&mut words) {
        return None;
    }
    Some(n)
}

/// Whether the line ends a report with this number.
pub fn is_end_line(line: &[u8], number: u64) -> bool
    ensures { IsTrue result ↔ (words_of line.now ≡ codes "end" ∷ decimal number ∷ []) }
{
    let mut words = Words::new(line);
    takes(&mut words, b"end") && takes_this(&mut words, number) && is_end(&mut words)
}

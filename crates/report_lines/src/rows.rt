//! Rows of numbers and valuations in lines.
ghost use Rattle.std.specs.Prelude.{◌≡◌, ◌≢◌, ◌≤◌, ℕ, Bool, List, [], ◌∷◌, ◌++◌, IfSome, IfNone};
ghost use Rattle.std.specs.Prelude.{IfOk, MatchOption, None, Some, codes, decimal, map, length};
ghost use Rattle.std.specs.List.{AllByRecursion};
ghost use Rattle.report_words.specs.Numbers.{HasNumeral, number_at};
ghost use Rattle.report_words.specs.Words.{words_of};
ghost use Rattle.formulas.specs.Limits.{valuation_limit};
ghost use Rattle.formula_text.specs.ValuationWords.{valuation_word};
ghost use Rattle.report_lines.specs.Items.{subject_words};
ghost use Rattle.report_lines.specs.LineReading.{bit_at, valuation_at, each_at};

use crate::kinds::Subject;
use crate::lines::{is_end, second_word, takes, takes_subject};
use edge::NoMemory;
use formulas::Valuation;
use report_words::{Words, number_of};
use std::alloc::Global;

fn bit_of(byte: u8) -> Option<bool>
    ensures { result ≡ bit_at byte }
{
    match byte {
        b'1' => Some(true),
        b'0' => Some(false),
        _ => None,
    }
}

#[tactic(auto, unfolding(crate::specs::LineReading::valuation_at))]
fn spelled(word: &[u8], atoms: u32) -> Option<Valuation>
    requires { atoms ≤ valuation_limit }
    ensures { result ≡ valuation_at atoms word.now }
{
    if word.len() != atoms as usize {
        return None;
    }
    let mut valuation = Valuation::new(0, atoms);
    for (k, byte) in word.iter().enumerate() {
        let bit = bit_of(*byte)?;
        valuation = valuation.with(k as u32, bit);
    }
    Some(valuation)
}

/// The valuation over so many atoms that a word spells; `None` exactly where the word is none.
pub fn valuation_of(word: &[u8], atoms: u32) -> Option<Valuation>
    requires { atoms ≤ valuation_limit }
    ensures exact { result ≡ valuation_at atoms word.now }
    ensures found { IfSome result (λ v. (word.now ≡ valuation_word v) × (length v ≡ atoms)) }
    ensures none { IfNone result ((v : List Bool) → length v ≡ atoms →
        word.now ≢ valuation_word v) }
{
    spelled(word, atoms)
}

/// The model that a line shows; `None` exactly where the line shows none over so many atoms.
pub fn model_line(line: &[u8], atoms: u32) -> Option<Valuation>
    requires { atoms ≤ valuation_limit }
    ensures some { IfSome result
        (λ v. (words_of line.now ≡ codes "model" ∷ valuation_word v ∷ []) × (length v ≡ atoms)) }
    ensures none { IfNone result ((v : List Bool) → length v ≡ atoms →
        words_of line.now ≢ codes "model" ∷ valuation_word v ∷ []) }
{
    valuation_of(second_word(line, b"model")?, atoms)
}

/// The model that a line shows of a subject; `None` exactly where it shows none over so many atoms.
pub fn has_model_line(line: &[u8], subject: Subject, atoms: u32) -> Option<Valuation>
    requires { atoms ≤ valuation_limit }
    ensures some { IfSome result
        (λ v. (words_of line.now ≡
        codes "has-model" ∷ (subject_words subject ++ valuation_word v ∷ [])) ×
        (length v ≡ atoms)) }
    ensures none { IfNone result ((v : List Bool) → length v ≡ atoms →
        words_of line.now ≢ codes "has-model" ∷ (subject_words subject ++ valuation_word v ∷ [])) }
{
    let mut words = Words::new(line);
    if !takes(&mut words, b"has-model") {
        return None;
    }
    if !takes_subject(&mut words, subject) {
        return None;
    }
    let word = words.next()?;
    if !is_end(&mut words) {
        return None;
    }
    valuation_of(word, atoms)
}

#[tactic(auto, unfolding(crate::specs::LineReading::each_at))]
fn numbers(alloc: Global, words: &mut Words<'_>) -> Result<Option<Vec<u64>>, NoMemory>
    ensures { IfOk result
        (λ found. MatchOption found (each_at number_at words.old ≡ None)
        (λ v. each_at number_at words.old ≡ Some v.items)) }
{
    let mut all = Vec::new(alloc);
    while let Some(word) = words.next() {
        let Some(number) = number_of(word) else {
            return Ok(None);
        };
        all.push(number)?;
    }
    Ok(Some(all))
}

#[tactic(auto, unfolding(crate::specs::LineReading::each_at))]
fn valuations(
    alloc: Global,
    words: &mut Words<'_>,
    atoms: u32,
) -> Result<Option<Vec<Valuation>>, NoMemory>
    requires { atoms ≤ valuation_limit }
    ensures { IfOk result
        (λ found. MatchOption found (each_at (valuation_at atoms) words.old ≡ None)
        (λ v. each_at (valuation_at atoms) words.old ≡ Some v.items)) }
{
    let mut all = Vec::new(alloc);
    while let Some(word) = words.next() {
        let Some(valuation) = valuation_of(word, atoms) else {
            return Ok(None);
        };
        all.push(valuation)?;
    }
    Ok(Some(all))
}

/// The numbers after this word, so many; none exactly where the line has no such words.
pub fn numbers_line(
    alloc: Global,
    line: &[u8],
    first: &[u8],
    count: usize,
) -> Result<Option<Vec<u64>>, NoMemory>
    ensures { IfOk result (λ found. MatchOption found
        ((ns : List ℕ) → length ns ≡ count → AllByRecursion HasNumeral ns →
        words_of line.now ≢ first.now ∷ map decimal ns)
        (λ v. (words_of line.now ≡ first.now ∷ map decimal v.items) × (length v.items ≡ count) ×
        AllByRecursion HasNumeral v.items)) }
{
    let mut words = Words::new(line);
    if !takes(&mut words, first) {
        return Ok(None);
    }
    let Some(all) = numbers(alloc, &mut words)? else {
        return Ok(None);
    };
    if all.len() != count {
        return Ok(None);
    }
    Ok(Some(all))
}

/// The nearest models that a line shows, so many; none exactly where it does not show so many over
/// so many atoms.
pub fn nearest_line(
    alloc: Global,
    line: &[u8],
    atoms: u32,
    count: usize,
) -> Result<Option<Vec<Valuation>>, NoMemory>
    requires { atoms ≤ valuation_limit }
    ensures { IfOk result (λ found. MatchOption found
        ((ws : List (List Bool)) → length ws ≡ count → AllByRecursion (λ w. length w ≡ atoms) ws →
        words_of line.now ≢ codes "nearest" ∷ map valuation_word ws)
        (λ v. (words_of line.now ≡ codes "nearest" ∷ map valuation_word v.items) ×
        (length v.items ≡ count) × AllByRecursion (λ w. length w ≡ atoms) v.items)) }
{
    let mut words = Words::new(line);
    if !takes(&mut words, b"nearest") {
        return Ok(None);
    }
    let Some(all) = valuations(alloc, &mut words, atoms)? else {
        return Ok(None);
    };
    if all.len() != count {
        return Ok(None);
    }
    Ok(Some(all))
}

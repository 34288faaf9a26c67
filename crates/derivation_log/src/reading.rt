//! Reading a step line.
ghost use Rattle.std.specs.Prelude.{◌≡◌, ◌<◌, Some, None, false, IfOk, MatchOption, map};
ghost use Rattle.std.specs.Prelude.{if◌then◌else◌};
ghost use Rattle.report_words.specs.Words.{words_of};
ghost use Rattle.derivation_log.specs.StepLines.{seen, any_big, any_big_pivot, is_before, rises};
ghost use Rattle.derivation_log.specs.StepLines.{widen, widen_link, number_limit, IsReading};
ghost use Rattle.derivation_log.specs.StepReading.{Takes, number_then, word_then, kind_at};
ghost use Rattle.derivation_log.specs.StepReading.{kind_then, lits_then, links_at, step_at};
ghost use Rattle.derivation_log.specs.declared.reading.StepReadStop.TheVariants as stops;

use crate::step::{Chain, Link, Step, StepKind};
use crate::wide::{WideLink, WideStep};
use clause_store::{Clause, Lit};
use edge::NoMemory;
use report_words::{WideLit, Words, literal_of, number_of};
use std::alloc::Global;

/// Variables are numbered below it.
const NUMBER_LIMIT: u64 = 1 << 32;

/// Why a line is not read as a step.
#[derive(Clone, Copy, Debug, PartialEq, Eq)]
pub enum StepReadStop {
    /// The line is no step line.
    Form,
    /// It is a step line in which a literal of the clause or of a link has a number of 2^32 or
    /// more.
    TooBig,
    /// It is a step line without such a literal whose clause literals are not sorted and distinct.
    Unsorted,
    /// Memory was refused.
    NoMemory,
}

impl From<NoMemory> for StepReadStop {
    ghost from_gives = { λ _ stop. stop ≡ stops.NoMemory };

    fn from(_error: NoMemory) -> StepReadStop {
        StepReadStop::NoMemory
    }
}

/// The number and the step that a line spells. The refusals come in the order of `StepReadStop`,
/// each exactly where it applies and none before it.
pub fn read_step(alloc: Global, line: &[u8]) -> Result<(u64, Step), StepReadStop>
    ensures { IsReading line.now result }
{
    let Some(step) = wide_step(alloc, line)? else {
        return Err(StepReadStop::Form);
    };
    if has_big_literal(&step.clause) || has_big_pivot(&step.chain) {
        return Err(StepReadStop::TooBig);
    }
    if !is_rising(&step.clause) {
        return Err(StepReadStop::Unsorted);
    }
    let lits = small_lits(alloc, &step.clause)?;
    let links = small_links(alloc, &step.chain)?;
    let clause = Clause::from_sorted(alloc, &lits)?;
    let read = Step {
        kind: step.kind,
        clause,
        first: step.first,
        chain: Chain::from_vec(links),
    };
    Ok((step.number, read))
}

#[tactic(auto, unfolding(crate::specs::StepReading::step_at))]
fn wide_step(alloc: Global, line: &[u8]) -> Result<Option<WideStep>, NoMemory>
    ensures { IfOk result (λ found. MatchOption found (step_at (words_of line.now) ≡ None)
        (λ s. step_at (words_of line.now) ≡ Some (seen s))) }
{
    let mut words = Words::new(line);
    if !word_next(&mut words, b"step") {
        return Ok(None);
    }
    let Some(number) = number_next(&mut words) else {
        return Ok(None);
    };
    let Some(kind) = kind_next(&mut words) else {
        return Ok(None);
    };
    let Some(clause) = lits_next(alloc, &mut words)? else {
        return Ok(None);
    };
    let Some(first) = number_next(&mut words) else {
        return Ok(None);
    };
    let Some(chain) = links_next(alloc, &mut words)? else {
        return Ok(None);
    };
    Ok(Some(WideStep {
        number,
        kind,
        clause,
        first,
        chain,
    }))
}

#[tactic(auto, unfolding(crate::specs::StepReading::number_then))]
fn number_next(words: &mut Words<'_>) -> Option<u64>
    ensures { Takes (λ x. x) result words.new (number_then words.old) }
{
    number_of(words.next()?)
}

/// Whether the next word is this one.
#[tactic(auto, unfolding(crate::specs::StepReading::word_then))]
fn word_next(words: &mut Words<'_>, word: &[u8]) -> bool
    ensures { word_then word.now words.old ≡ (if result then Some words.new else None) }
{
    match words.next() {
        Some(next) => next == word,
        None => false,
    }
}

fn kind_of(word: &[u8]) -> Option<StepKind>
    ensures { result ≡ kind_at word.now }
{
    if word == b"learned".as_slice() {
        return Some(StepKind::Learned);
    }
    if word == b"claimed".as_slice() {
        return Some(StepKind::Claimed);
    }
    None
}

#[tactic(auto, unfolding(crate::specs::StepReading::kind_then))]
fn kind_next(words: &mut Words<'_>) -> Option<StepKind>
    ensures { Takes (λ x. x) result words.new (kind_then words.old) }
{
    kind_of(words.next()?)
}

/// The literals before a word `0`.
#[tactic(auto, unfolding(crate::specs::StepReading::lits_then))]
fn lits_next(alloc: Global, words: &mut Words<'_>) -> Result<Option<Vec<WideLit>>, NoMemory>
    ensures { IfOk result (λ found. Takes (λ v. v.items) found words.new (lits_then words.old)) }
{
    let mut lits = Vec::new(alloc);
    loop {
        let Some(word) = words.next() else {
            return Ok(None);
        };
        if word == b"0".as_slice() {
            return Ok(Some(lits));
        }
        let Some(lit) = literal_of(word) else {
            return Ok(None);
        };
        lits.push(lit)?;
    }
}

/// The links up to the end of the line.
#[tactic(auto, unfolding(crate::specs::StepReading::links_at))]
fn links_next(alloc: Global, words: &mut Words<'_>) -> Result<Option<Vec<WideLink>>, NoMemory>
    ensures { IfOk result (λ found. MatchOption found (links_at words.old ≡ None)
        (λ v. links_at words.old ≡ Some v.items)) }
{
    let mut links = Vec::new(alloc);
    while let Some(word) = words.next() {
        let Some(second) = words.next() else {
            return Ok(None);
        };
        let Some(pivot) = literal_of(word) else {
            return Ok(None);
        };
        let Some(number) = number_of(second) else {
            return Ok(None);
        };
        links.push(WideLink { pivot, number })?;
    }
    Ok(Some(links))
}

fn has_big_literal(lits: &[WideLit]) -> bool
    ensures { result ≡ any_big lits.now }
{
    for lit in lits {
        if lit.var >= NUMBER_LIMIT {
            return true;
        }
    }
    false
}

fn has_big_pivot(links: &[WideLink]) -> bool
    ensures { result ≡ any_big_pivot links.now }
{
    for link in links {
        if link.pivot.var >= NUMBER_LIMIT {
            return true;
        }
    }
    false
}

fn comes_before(a: WideLit, b: WideLit) -> bool
    ensures { result ≡ is_before a b }
{
    a.var < b.var || a.var == b.var && a.positive && !b.positive
}

fn is_rising(lits: &[WideLit]) -> bool
    ensures { result ≡ rises lits.now }
{
    let [first, rest @ ..] = lits else {
        return true;
    };
    let mut last = *first;
    for lit in rest {
        if !comes_before(last, *lit) {
            return false;
        }
        last = *lit;
    }
    true
}

fn small_lit(lit: WideLit) -> Lit
    requires { lit.var < number_limit }
    ensures { widen result ≡ lit }
{
    Lit {
        var: lit.var as u32,
        positive: lit.positive,
    }
}

fn small_lits(alloc: Global, lits: &[WideLit]) -> Result<Vec<Lit>, NoMemory>
    requires { any_big lits.now ≡ false }
    ensures { IfOk result (λ made. map widen made.items ≡ lits.now) }
{
    let mut made = Vec::with_capacity(alloc, lits.len())?;
    for lit in lits {
        made.push(small_lit(*lit))?;
    }
    Ok(made)
}

fn small_links(alloc: Global, links: &[WideLink]) -> Result<Vec<Link>, NoMemory>
    requires { any_big_pivot links.now ≡ false }
    ensures { IfOk result (λ made. map widen_link made.items ≡ links.now) }
{
    let mut made = Vec::with_capacity(alloc, links.len())?;
    for link in links {
        made.push(Link {
            pivot: small_lit(link.pivot),
            number: link.number,
        })?;
    }
    Ok(made)
}

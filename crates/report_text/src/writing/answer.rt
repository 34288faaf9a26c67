//! The lines of a report that stand before its log: what was asked, the problem, and the answer.
ghost use Rattle.std.specs.Prelude.{◌∷◌, [], ◌++◌, map, codes, decimal};
ghost use Rattle.formula_text.specs.ValuationWords.{valuation_word};
ghost use Rattle.report_words.specs.Words.{line_of, later_text};
ghost use Rattle.report_words.specs.Writing.{Writes};
ghost use Rattle.report_lines.specs.Items.{subject_words};
ghost use Rattle.report_lines.specs.Parts.{items_text, head_items, shown_items, verdict_items};
ghost use Rattle.report_lines.specs.Parts.{named_item};
ghost use Rattle.report_lines.specs.Parts.{base_items, answer_items};
ghost use Rattle.report_text.specs.WritingItems.{front_text, verdict_entry};

use edge::NoMemory;
use formula_text::write_valuations;
use formulas::Valuation;
use itoa::Buffer;
use merge_model::{AggregatorName, Answer, DistanceName, Problem, Shown, Verdict};
use profile_text::write_problem;
use report_lines::Subject;
use report_words::{write_bytes, write_line, write_numbers, write_words};

/// Appends the lines of a report that stand before its log; on `NoMemory` what was appended is a
/// part of them from their start.
pub fn write_answer(
    distance: DistanceName,
    aggregator: AggregatorName,
    conflicts: u64,
    problem: &Problem,
    answer: &Answer,
    into: &mut Vec<u8>,
) -> Result<(), NoMemory>
    ensures { Writes result into.old.items into.new.items
        (front_text distance aggregator conflicts problem.now answer.now) }
{
    write_head(distance, aggregator, conflicts, into)?;
    write_problem(problem, into)?;
    write_answer_lines(answer, into)
}

/// What was asked.
fn write_head(
    distance: DistanceName,
    aggregator: AggregatorName,
    conflicts: u64,
    into: &mut Vec<u8>,
) -> Result<(), NoMemory>
    ensures { Writes result into.old.items into.new.items (items_text (head_items
        (record { distance = distance; aggregator = aggregator; conflicts = conflicts }))) }
{
    write_line(b"merge-report", &[b"1"], into)?;
    write_line(b"distance", &[distance.word().as_bytes()], into)?;
    write_line(b"aggregator", &[aggregator.word().as_bytes()], into)?;
    write_line(
        b"conflicts",
        &[Buffer::new().format(conflicts).as_bytes()],
        into,
    )
}

/// What merging came to.
fn write_answer_lines(answer: &Answer, into: &mut Vec<u8>) -> Result<(), NoMemory>
    ensures { Writes result into.old.items into.new.items (items_text (answer_items answer.now)) }
{
    match answer {
        Answer::Merged {
            best,
            measure,
            verdicts,
        } => {
            write_shown(best, into)?;
            write_numbers_line(b"measure", measure.as_slice(), into)?;
            write_verdicts(verdicts.as_slice(), into)
        }
        Answer::Inconsistent { constraint, agents } => {
            write_named(Subject::TheConstraint, *constraint, into)?;
            write_bases(agents.as_slice(), into)
        }
        Answer::GaveUp => write_line(b"gave-up", &[], into),
    }
}

fn write_numbers_line(first: &[u8], numbers: &[u32], into: &mut Vec<u8>) -> Result<(), NoMemory>
    ensures { Writes result into.old.items into.new.items
        (line_of (first.now ∷ map decimal numbers.now) ++ codes "\n") }
{
    write_bytes(first, into)?;
    write_numbers(numbers, into)?;
    write_bytes(b"\n", into)
}

fn write_valuations_line(
    first: &[u8],
    valuations: &[Valuation],
    into: &mut Vec<u8>,
) -> Result<(), NoMemory>
    ensures { Writes result into.old.items into.new.items
        (line_of (first.now ∷ map valuation_word valuations.now) ++ codes "\n") }
{
    write_bytes(first, into)?;
    write_valuations(valuations, into)?;
    write_bytes(b"\n", into)
}

fn write_shown(shown: &Shown, into: &mut Vec<u8>) -> Result<(), NoMemory>
    ensures { Writes result into.old.items into.new.items (items_text (shown_items shown.now)) }
{
    write_valuations_line(b"model", &[shown.model], into)?;
    write_numbers_line(b"vector", shown.vector.as_slice(), into)?;
    write_valuations_line(b"nearest", shown.nearest.as_slice(), into)
}

/// The verdict on a query, which is numbered from 0 here and from 1 in the line.
fn write_verdict(query: usize, verdict: &Verdict, into: &mut Vec<u8>) -> Result<(), NoMemory>
    ensures { Writes result into.old.items into.new.items
        (items_text (verdict_entry query verdict.now)) }
{
    let mut digits = Buffer::new();
    let number = digits.format(query as u128 + 1).as_bytes();
    match verdict {
        Verdict::Yes => write_line(b"verdict", &[number, b"yes"], into),
        Verdict::No(shown) => {
            write_line(b"verdict", &[number, b"no"], into)?;
            write_shown(shown, into)
        }
    }
}

fn write_verdicts(verdicts: &[Verdict], into: &mut Vec<u8>) -> Result<(), NoMemory>
    ensures { Writes result into.old.items into.new.items
        (items_text (verdict_items 0 verdicts.now)) }
{
    for (q, verdict) in verdicts.iter().enumerate() {
        write_verdict(q, verdict, into)?;
    }
    Ok(())
}

/// The words of what has a model or none, each behind a blank.
fn write_subject(subject: Subject, into: &mut Vec<u8>) -> Result<(), NoMemory>
    ensures { Writes result into.old.items into.new.items (later_text (subject_words subject)) }
{
    match subject {
        Subject::TheConstraint => write_words(&[b"constraint"], into),
        Subject::BaseOf(agent) => {
            let mut digits = Buffer::new();
            let number = digits.format(agent as u128 + 1).as_bytes();
            write_words(&[b"agent", number], into)
        }
    }
}

/// The model of a formula, or that it has none.
fn write_named(
    subject: Subject,
    model: Option<Valuation>,
    into: &mut Vec<u8>,
) -> Result<(), NoMemory>
    ensures { Writes result into.old.items into.new.items
        (items_text (named_item subject model ∷ [])) }
{
    match model {
        None => {
            write_bytes(b"no-model", into)?;
            write_subject(subject, into)?;
            write_bytes(b"\n", into)
        }
        Some(valuation) => {
            write_bytes(b"has-model", into)?;
            write_subject(subject, into)?;
            write_valuations(&[valuation], into)?;
            write_bytes(b"\n", into)
        }
    }
}

fn write_bases(models: &[Option<Valuation>], into: &mut Vec<u8>) -> Result<(), NoMemory>
    ensures { Writes result into.old.items into.new.items (items_text (base_items 0 models.now)) }
{
    for (i, model) in models.iter().enumerate() {
        write_named(Subject::BaseOf(i), *model, into)?;
    }
    Ok(())
}

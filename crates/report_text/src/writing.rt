//! The text of a report. Each writer appends its text at once; on `NoMemory` what was appended is a
//! part of the text from its start.
ghost use Rattle.std.specs.Prelude.{◌≡◌, ◌∷◌, [], length, map, decimal};
ghost use Rattle.std.specs.List.{flat_map};
ghost use Rattle.report_words.specs.Words.{later_text};
ghost use Rattle.report_words.specs.Writing.{Writes};
ghost use Rattle.report_lines.specs.Items.{MainLine, EndLine};
ghost use Rattle.report_lines.specs.Parts.{HaveLines, items_text, step_items, log_items};
ghost use Rattle.report_lines.specs.Parts.{report_text, kind_of_answer};
ghost use Rattle.report_lines.specs.Places.{end_number as number_of_end};
ghost use Rattle.report_lines.specs.Reports.{IsReport, asked_in, parts_in};
ghost use Rattle.report_text.specs.WritingItems.{proof_text, proof_words};

mod answer;

pub use answer::write_answer;
use derivation_log::{Derivations, write_step};
use edge::NoMemory;
use itoa::Buffer;
use merge_model::Answer;
use report_lines::{Proof, Report};
use report_words::{write_bytes, write_line, write_word};

/// Appends the text of a report, whose steps have lines; on `NoMemory` what was appended is a part
/// of it from its start.
pub fn write_report(report: &Report, into: &mut Vec<u8>) -> Result<(), NoMemory>
    requires whole { IsReport report.now }
    requires lines { HaveLines (length report.now.derivations.main) report.now.derivations.steps }
    ensures { Writes result into.old.items into.new.items
        (report_text (asked_in report.now) (parts_in report.now)) }
{
    write_answer(
        report.distance,
        report.aggregator,
        report.conflicts,
        &report.problem,
        &report.answer,
        into,
    )?;
    write_log(report, into)
}

/// The log, the proofs and the end.
fn write_log(report: &Report, into: &mut Vec<u8>) -> Result<(), NoMemory>
    requires whole { IsReport report.now }
    requires lines { HaveLines (length report.now.derivations.main) report.now.derivations.steps }
    ensures { Writes result into.old.items into.new.items
        (items_text (log_items (asked_in report.now) (parts_in report.now))) }
{
    write_main(&report.derivations, into)?;
    write_steps(&report.derivations, into)?;
    write_proofs(report.proofs.as_slice(), into)?;
    write_end(end_number(&report.answer), into)
}

/// How many variables and main clauses there are.
fn write_main(derivations: &Derivations, into: &mut Vec<u8>) -> Result<(), NoMemory>
    ensures { Writes result into.old.items into.new.items
        (items_text (MainLine derivations.now.vars (length derivations.now.main) ∷ [])) }
{
    write_line(
        b"main",
        &[
            Buffer::new().format(derivations.known().vars()).as_bytes(),
            Buffer::new().format(derivations.main_len()).as_bytes(),
        ],
        into,
    )
}

fn write_steps(derivations: &Derivations, into: &mut Vec<u8>) -> Result<(), NoMemory>
    requires { HaveLines (length derivations.now.main) derivations.now.steps }
    ensures { Writes result into.old.items into.new.items
        (items_text (step_items (length derivations.now.main) derivations.now.steps)) }
{
    let alloc = *into.allocator();
    for number in derivations.main_len()..derivations.known().len() {
        let step = derivations.step(alloc, number)?;
        write_step(number, &step, into)?;
    }
    Ok(())
}

fn write_proofs(proofs: &[Proof], into: &mut Vec<u8>) -> Result<(), NoMemory>
    ensures { Writes result into.old.items into.new.items (flat_map proof_text proofs.now) }
{
    for proof in proofs {
        write_proof(*proof, into)?;
    }
    Ok(())
}

fn write_proof(proof: Proof, into: &mut Vec<u8>) -> Result<(), NoMemory>
    ensures { Writes result into.old.items into.new.items (proof_text proof) }
{
    write_bytes(b"shown", into)?;
    write_proof_words(proof, into)?;
    write_bytes(b"\n", into)
}

/// What is numbered from 0 has its number from 1 in a line.
fn write_proof_words(proof: Proof, into: &mut Vec<u8>) -> Result<(), NoMemory>
    ensures { Writes result into.old.items into.new.items (later_text (proof_words proof)) }
{
    match proof {
        Proof::Constraint(step) => write_claim(b"constraint", &[step as u128], into),
        Proof::Base(agent, step) => {
            write_claim(b"agent", &[agent as u128 + 1, step as u128], into)
        }
        Proof::Far(model, agent, step) => write_claim(
            b"far",
            &[model as u128, agent as u128 + 1, step as u128],
            into,
        ),
        Proof::Least(level, step) => {
            write_claim(b"least", &[level as u128 + 1, step as u128], into)
        }
        Proof::Holds(query, step) => write_claim(b"yes", &[query as u128 + 1, step as u128], into),
    }
}

/// A word and numbers, each behind a blank.
fn write_claim(word: &[u8], numbers: &[u128], into: &mut Vec<u8>) -> Result<(), NoMemory>
    ensures { Writes result into.old.items into.new.items
        (later_text (word.now ∷ map decimal numbers.now)) }
{
    write_word(word, into)?;
    for number in numbers {
        write_word(Buffer::new().format(*number).as_bytes(), into)?;
    }
    Ok(())
}

/// What a report with this answer ends with.
fn end_number(answer: &Answer) -> u64
    ensures { result ≡ number_of_end (kind_of_answer answer.now) }
{
    match answer {
        Answer::Merged { .. } => 0,
        Answer::Inconsistent { .. } => 8,
        Answer::GaveUp => 3,
    }
}

fn write_end(number: u64, into: &mut Vec<u8>) -> Result<(), NoMemory>
    ensures { Writes result into.old.items into.new.items (items_text (EndLine number ∷ [])) }
{
    write_line(b"end", &[Buffer::new().format(number).as_bytes()], into)
}

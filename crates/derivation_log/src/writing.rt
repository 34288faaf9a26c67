//! Writing a step line.
ghost use Rattle.std.specs.Prelude.{◌≡◌, ◌++◌, ◌∷◌, OnOk, OnErr, codes};
ghost use Rattle.std.specs.List.{flat_map, AllByRecursion};
ghost use Rattle.report_words.specs.Numbers.{HasNumeral, literal_word};
ghost use Rattle.report_words.specs.Words.{line_of, later_text};
ghost use Rattle.derivation_log.specs.StepLines.{step_line, step_words, link_words, kind_word};
ghost use Rattle.derivation_log.specs.StepLines.{widen, widen_link};

use crate::step::{Link, Step, StepKind};
use clause_store::Lit;
use edge::NoMemory;
use report_words::{WideLit, write_bytes, write_literal, write_number, write_word};

/// Appends the line of a step of a number, with its line feed. Refused, it changes nothing.
pub fn write_step(number: u64, step: &Step, into: &mut Vec<u8>) -> Result<(), NoMemory>
    requires number { HasNumeral number }
    requires first { HasNumeral step.now.first }
    requires links { AllByRecursion (λ link. HasNumeral link.number) step.now.chain }
    ensures ok { OnOk result (into.new.items ≡ into.old.items ++ line_of
        (step_words (step_line number step.now)) ++ codes "\n") }
    ensures err { OnErr result (into.new.items ≡ into.old.items) }
{
    let mut text = Vec::new(*into.allocator());
    put_step(&mut text, number, step)?;
    into.extend_from_slice(&text)?;
    Ok(())
}

fn put_step(text: &mut Vec<u8>, number: u64, step: &Step) -> Result<(), NoMemory>
    ensures { OnOk result (text.new.items ≡ text.old.items ++ line_of
        (step_words (step_line number step.now)) ++ codes "\n") }
{
    write_bytes(b"step", text)?;
    write_number(number, text)?;
    put_kind(text, step.kind)?;
    put_literals(text, step.clause.lits())?;
    write_number(0, text)?;
    write_number(step.first, text)?;
    put_links(text, step.chain.as_slice())?;
    write_bytes(b"\n", text)?;
    Ok(())
}

fn put_kind(text: &mut Vec<u8>, kind: StepKind) -> Result<(), NoMemory>
    ensures { OnOk result (text.new.items ≡ text.old.items ++ 32 ∷ kind_word kind) }
{
    match kind {
        StepKind::Learned => write_word(b"learned", text),
        StepKind::Claimed => write_word(b"claimed", text),
    }
}

fn put_literal(text: &mut Vec<u8>, lit: Lit) -> Result<(), NoMemory>
    ensures { OnOk result (text.new.items ≡ text.old.items ++ 32 ∷ literal_word (widen lit)) }
{
    let wide = WideLit {
        positive: lit.positive,
        var: u64::from(lit.var),
    };
    write_literal(wide, text)
}

fn put_literals(text: &mut Vec<u8>, lits: &[Lit]) -> Result<(), NoMemory>
    ensures { OnOk result (text.new.items ≡ text.old.items ++ flat_map
        (λ l. 32 ∷ literal_word (widen l)) lits.now) }
{
    for lit in lits {
        put_literal(text, *lit)?;
    }
    Ok(())
}

fn put_link(text: &mut Vec<u8>, link: Link) -> Result<(), NoMemory>
    ensures { OnOk result (text.new.items ≡ text.old.items ++ later_text
        (link_words (widen_link link))) }
{
    put_literal(text, link.pivot)?;
    write_number(link.number, text)
}

fn put_links(text: &mut Vec<u8>, links: &[Link]) -> Result<(), NoMemory>
    ensures { OnOk result (text.new.items ≡ text.old.items ++ flat_map
        (λ l. later_text (link_words (widen_link l))) links.now) }
{
    for link in links {
        put_link(text, *link)?;
    }
    Ok(())
}

ghost use Rattle.std.specs.Prelude.{◌≡◌, IfOk};
ghost use Rattle.merge_cli.specs.Refusals.{kind_word, line_refusal_text, refusal_text};

use edge::NoMemory;
use problem_reading::{TextFault, TextKind};
use report_words::{write_bytes, write_number, write_word};
use std::alloc::Global;

fn word_of_kind(kind: TextKind) -> &'static str
    ensures { result.now ≡ kind_word kind }
{
    match kind {
        TextKind::BadByte => "bad-byte",
        TextKind::BadLine => "bad-line",
        TextKind::BadForm => "bad-form",
        TextKind::UnknownAtom => "unknown-atom",
        TextKind::Reserved => "reserved",
        TextKind::Twice => "twice",
        TextKind::TooMany => "too-many",
        TextKind::TooDeep => "too-deep",
        TextKind::NoAtoms => "no-atoms",
        TextKind::NoAgent => "no-agent",
    }
}

/// The text that names the first fault of a text; `NoMemory` for want of memory.
pub fn refusal(alloc: Global, fault: TextFault) -> Result<Vec<u8>, NoMemory>
    ensures { IfOk result (λ text. text.items ≡ refusal_text fault) }
{
    line_refusal(alloc, fault.line, word_of_kind(fault.kind))
}

/// The text that names a line and says by a word what is wrong with it; `NoMemory` for want of
/// memory.
pub fn line_refusal(alloc: Global, line: u64, word: &str) -> Result<Vec<u8>, NoMemory>
    ensures { IfOk result (λ text. text.items ≡ line_refusal_text line word.now) }
{
    let mut text = Vec::from_slice(alloc, b"refused line")?;
    write_number(line, &mut text)?;
    write_bytes(b":", &mut text)?;
    write_word(word.as_bytes(), &mut text)?;
    write_bytes(b"\n", &mut text)?;
    Ok(text)
}

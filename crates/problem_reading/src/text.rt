ghost use Rattle.std.specs.Prelude.{◌≡◌, ◌<◌, ◌==◌, ◌∷◌, not, length, drop, IfOk, IfErr};
ghost use Rattle.std.specs.List.{prefix_len};
ghost use Rattle.problem_lines.specs.Lines.{lines_of};
ghost use Rattle.problem_reading.specs.Spelling.{Spelled, StopsText};

use crate::reading::Reading;
use crate::stop::TextStop;
use merge_model::Problem;
use std::alloc::Global;

/// The number of bytes before the first line feed.
fn line_size(text: &[u8]) -> usize
    ensures { result ≡ prefix_len (λ byte. not (byte == 10)) text.now }
{
    text.iter().take_while(|byte| **byte != b'\n').count()
}

/// The text without its first byte.
fn after_first(text: &[u8]) -> &[u8]
    requires { 0 < length text.now }
    ensures { result.now ≡ drop 1 text.now }
{
    let (_, after) = text.split_at(1);
    after
}

/// The first line of a text, and the text after its line feed.
fn split_line(text: &[u8]) -> (&[u8], &[u8])
    requires { 0 < length text.now }
    ensures lines { lines_of text.now ≡ result.0.now ∷ lines_of result.1.now }
    ensures shorter { length result.1.now < length text.now }
{
    let (line, rest) = text.split_at(line_size(text));
    if rest.is_empty() {
        (line, rest)
    } else {
        (line, after_first(rest))
    }
}

/// The problem that a text spells, or its first fault; `NoMemory` for want of memory.
pub fn read_problem(alloc: Global, bytes: &[u8]) -> Result<Problem, TextStop>
    ensures problem { IfOk result (Spelled bytes.now) }
    ensures stop { IfErr result (StopsText bytes.now) }
{
    let mut reading = Reading::new(alloc);
    let mut rest = bytes;
    while !rest.is_empty() {
        let (line, after) = split_line(rest);
        reading.line(line)?;
        rest = after;
    }
    reading.finish()
}

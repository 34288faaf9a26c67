//! Writers: each appends its text at once. Where memory is refused, a part of the text from its
//! start stays.
ghost use Rattle.std.specs.Prelude.{◌≡◌, ◌∷◌, ◌++◌, map, codes, decimal, OnErr};
ghost use Rattle.report_words.specs.Numbers.{literal_word};
ghost use Rattle.report_words.specs.Words.{later_text, line_of};
ghost use Rattle.report_words.specs.Writing.{Writes};

use crate::numbers::WideLit;
use edge::NoMemory;
use itoa::Buffer;

/// Appends the bytes; on `NoMemory` nothing was appended.
pub fn write_bytes(bytes: &[u8], into: &mut Vec<u8>) -> Result<(), NoMemory>
    ensures written { Writes result into.old.items into.new.items bytes.now }
    ensures kept { OnErr result (into.new.items ≡ into.old.items) }
{
    into.extend_from_slice(bytes)?;
    Ok(())
}

/// Appends a blank and the word.
pub fn write_word(word: &[u8], into: &mut Vec<u8>) -> Result<(), NoMemory>
    ensures { Writes result into.old.items into.new.items (32 ∷ word.now) }
{
    write_bytes(b" ", into)?;
    write_bytes(word, into)
}

/// Appends a blank and the decimal numeral of a number.
pub fn write_number(number: u64, into: &mut Vec<u8>) -> Result<(), NoMemory>
    ensures { Writes result into.old.items into.new.items (32 ∷ decimal number) }
{
    write_word(Buffer::new().format(number).as_bytes(), into)
}

/// Appends the decimal numerals of numbers, each behind a blank.
pub fn write_numbers(numbers: &[u32], into: &mut Vec<u8>) -> Result<(), NoMemory>
    ensures { Writes result into.old.items into.new.items (later_text (map decimal numbers.now)) }
{
    for number in numbers {
        write_number(u64::from(*number), into)?;
    }
    Ok(())
}

/// Appends a blank and the word of a literal.
pub fn write_literal(literal: WideLit, into: &mut Vec<u8>) -> Result<(), NoMemory>
    ensures { Writes result into.old.items into.new.items (32 ∷ literal_word literal) }
{
    if literal.positive {
        return write_number(literal.var, into);
    }
    write_word(b"-", into)?;
    write_bytes(Buffer::new().format(literal.var).as_bytes(), into)
}

/// Appends words, each behind a blank.
pub fn write_words(words: &[&[u8]], into: &mut Vec<u8>) -> Result<(), NoMemory>
    ensures { Writes result into.old.items into.new.items (later_text (map
        (λ word. word.now) words.now)) }
{
    for word in words {
        write_word(word, into)?;
    }
    Ok(())
}

/// Appends the line of a word and the words after it, with its line feed.
pub fn write_line(first: &[u8], rest: &[&[u8]], into: &mut Vec<u8>) -> Result<(), NoMemory>
    ensures { Writes result into.old.items into.new.items (line_of (first.now ∷ map
        (λ word. word.now) rest.now) ++ codes "\n") }
{
    write_bytes(first, into)?;
    write_words(rest, into)?;
    write_bytes(b"\n", into)
}

ghost use Rattle.std.specs.Prelude.{◌≡◌, ◌<◌, ◌↔◌, length, map, take, drop, false, IfOk};
ghost use Rattle.std.specs.Prelude.{IfSome, IsNone, MatchOption, IsTrue, slice_index};
ghost use Rattle.std.specs.List.{list_any, prefix_len};
ghost use Rattle.formulas.specs.Names.{is_word_byte};
ghost use Rattle.line_tokens.specs.Bytes.{is_blank, is_bad};
ghost use Rattle.line_tokens.specs.Lexemes.{lexeme_of, lexemes_of};
ghost use Rattle.line_tokens.specs.Cuts.{BeginsWith};

use crate::Token;
use edge::NoMemory;
use formulas::is_word_byte;
use std::alloc::Global;

/// Whether a byte is a space, a tab or a carriage return.
fn is_blank(byte: u8) -> bool
    ensures { result ≡ is_blank byte }
{
    matches!(byte, b' ' | b'\t' | b'\r')
}

/// The number of word bytes at the front.
fn word_length(text: &[u8]) -> usize
    ensures { result ≡ prefix_len is_word_byte text.now }
{
    text.iter().take_while(|byte| is_word_byte(**byte)).count()
}

/// The word at the front and the text after it.
fn split_word(text: &[u8]) -> (&str, &[u8])
    ensures word { result.0.now ≡ take (prefix_len is_word_byte text.now) text.now }
    ensures rest { result.1.now ≡ drop (prefix_len is_word_byte text.now) text.now }
{
    let (word, rest) = text.split_at(word_length(text));
    match str::from_utf8(word) {
        Ok(word) => (word, rest),
        Err(_) => unreachable!(),
    }
}

/// The mark at the front and its number of bytes, or `None` where no mark is there.
fn mark_at(text: &[u8]) -> Option<(Token<'static>, usize)>
    requires some { 0 < length text.now }
    requires no_word { is_word_byte (slice_index text.now 0) ≡ false }
    requires no_blank { is_blank (slice_index text.now 0) ≡ false }
    ensures { MatchOption result (IsTrue (list_any is_bad text.now))
        (λ mark. BeginsWith text.now (lexeme_of mark.0) mark.1) }
{
    match text[0] {
        b'!' => Some((Token::Bang, 1)),
        b'&' => Some((Token::Ampersand, 1)),
        b'|' => Some((Token::Bar, 1)),
        b'(' => Some((Token::Open, 1)),
        b')' => Some((Token::Close, 1)),
        b':' => Some((Token::Colon, 1)),
        b'-' if text.starts_with(b"->") => Some((Token::Arrow, 2)),
        b'<' if text.starts_with(b"<->") => Some((Token::BothArrow, 3)),
        b'-' | b'<' | b'>' => Some((Token::Stray, 1)),
        _ => None,
    }
}

/// The tokens of a text, or `None` where a byte of it is bad; `NoMemory` for want of memory.
pub fn tokens(alloc: Global, text: &[u8]) -> Result<Option<Vec<Token>>, NoMemory>
    ensures bad { IfOk result (λ found. IsNone found ↔ IsTrue (list_any is_bad text.now)) }
    ensures cut { IfOk result
        (λ found. IfSome found (λ tokens. map lexeme_of tokens.items ≡ lexemes_of text.now)) }
{
    let mut found = Vec::new(alloc);
    let mut rest = text;
    while !rest.is_empty() {
        if is_word_byte(rest[0]) {
            let (word, after) = split_word(rest);
            found.push(Token::Word(word))?;
            rest = after;
        } else if is_blank(rest[0]) {
            rest = &rest[1..];
        } else {
            match mark_at(rest) {
                None => return Ok(None),
                Some((mark, size)) => {
                    found.push(mark)?;
                    rest = &rest[size..];
                }
            }
        }
    }
    Ok(Some(found))
}

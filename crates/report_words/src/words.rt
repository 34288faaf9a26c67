//! The words of a line.
ghost use Rattle.std.specs.Prelude.{◌≡◌, [], ◌∷◌, MatchOption};
ghost use Rattle.report_words.specs.Words.{words_of};

use std::marker::Model;

/// The words of a line that are not yet taken. Between two words stands one blank, so that two
/// blanks have an empty word between them.
#[derive(Drop)]
pub struct Words<'a> {
    rest: &'a [u8],
    over: bool,
}

impl<'a> Model for Words<'a> {
    ghost use Rattle.std.specs.Prelude.{List, ℕ, [], if◌then◌else◌};
    ghost use Rattle.report_words.specs.Words.{words_of};

    ghost Value = { List (List ℕ) };

    ghost view = { λ w. if w.over then [] else words_of w.rest.now };
}

/// The first word of a line, and what stands after its blank, if there is one.
pub fn first_of(line: &[u8]) -> (&[u8], Option<&[u8]>)
    ensures { MatchOption result.1 (words_of line.now ≡ result.0.now ∷ [])
        (λ rest. words_of line.now ≡ result.0.now ∷ words_of rest.now) }
{
    for (at, b) in line.iter().enumerate() {
        if *b == b' ' {
            return (&line[..at], Some(&line[at + 1..]));
        }
    }
    (line, None)
}

impl<'a> Words<'a> {
    /// All words of a line.
    pub fn new(line: &'a [u8]) -> Self
        ensures { result ≡ words_of line.now }
    {
        Words {
            rest: line,
            over: false,
        }
    }

    /// The next word; `None` exactly where none is left.
    pub fn next(&mut self) -> Option<&'a [u8]>
        ensures { MatchOption result ((self.old ≡ []) × (self.new ≡ []))
            (λ w. self.old ≡ w.now ∷ self.new) }
    {
        if self.over {
            return None;
        }
        let line = self.rest;
        let (word, rest) = first_of(line);
        match rest {
            None => self.over = true,
            Some(rest) => self.rest = rest,
        }
        Some(word)
    }
}

ghost use Rattle.std.specs.Prelude.{◌≡◌, ◌≤◌, ◌+◌, ◌-◌, ◌*◌, ℕ, map, min};
ghost use Rattle.std.specs.Char.{is_ascii_digit};
ghost use Rattle.std.specs.List.{list_all};
ghost use Rattle.line_tokens.specs.Lexemes.{lexeme_of};
ghost use Rattle.problem_lines.specs.Forms.{form_of, atoms_form, agent_form, times_form};
ghost use Rattle.problem_lines.specs.Forms.{numeral_form, base_form, is_name_token, token_word};
ghost use Rattle.problem_lines.specs.Numerals.{is_numeral, times_cap, value_after};
ghost use Rattle.problem_lines.specs.Views.{IsForm};

use formulas::{TIMES_LIMIT, is_plain_name};
use line_tokens::Token;

/// Where counting how often an agent counts ends: one more than all agents may count together.
pub const TIMES_CAP: u32 = TIMES_LIMIT + 1;

/// What a line of a problem text says, by its tokens.
#[derive(Clone, Copy, Debug)]
pub enum LineForm<'a> {
    /// Nothing.
    Blank,
    /// That these names are those of atoms.
    Atoms(&'a [Token<'a>]),
    /// That these tokens are the constraint.
    Constraint(&'a [Token<'a>]),
    /// What an agent believes.
    Agent {
        /// The agent's name.
        name: &'a str,
        /// How often it counts, where `TIMES_CAP` stands for any greater number.
        times: u32,
        /// The tokens of its base.
        base: &'a [Token<'a>],
    },
    /// That these tokens are a query.
    Ask(&'a [Token<'a>]),
    /// Nothing that a line may say.
    Unknown,
}

/// Whether each byte is a digit.
fn are_digits(bytes: &[u8]) -> bool
    ensures { result ≡ list_all is_ascii_digit bytes.now }
{
    bytes.iter().all(|byte| byte.is_ascii_digit())
}

/// Whether a word is one of digits that does not begin with 0.
fn is_numeral(word: &str) -> bool
    ensures { result ≡ is_numeral word.now }
{
    let bytes = word.as_bytes();
    if bytes.is_empty() {
        return false;
    }
    if bytes[0] == b'0' {
        return false;
    }
    are_digits(bytes)
}

/// A number up to the cap with one more digit, or the cap where that is more.
fn with_digit(number: u32, byte: u8) -> u32
    requires few { number ≤ times_cap }
    ensures number { result ≡ min (number * 10 + (byte - 48)) times_cap }
{
    (number * 10 + byte.saturating_sub(b'0') as u32).min(TIMES_CAP)
}

/// The number that a word of digits says, or the cap for a greater one.
fn value(word: &str) -> u32
    ensures { result ≡ min (value_after 0 word.now) times_cap }
{
    let mut number = 0;
    for byte in word.as_bytes() {
        number = with_digit(number, *byte);
    }
    number
}

/// Whether a token is a word that does not begin with a digit.
fn is_name(token: &Token) -> bool
    ensures { result ≡ is_name_token (lexeme_of token.now) }
{
    match token {
        Token::Word(word) => is_plain_name(word.as_bytes()),
        _ => false,
    }
}

/// The word that a token is, or no bytes for a mark.
pub fn token_word<'a>(token: Token<'a>) -> &'a str
    ensures { result.now ≡ token_word (lexeme_of token.entry) }
{
    match token {
        Token::Word(word) => word,
        _ => "",
    }
}

/// Whether each token is such a word.
fn are_names(tokens: &[Token]) -> bool
    ensures { result ≡ list_all is_name_token (map lexeme_of tokens.now) }
{
    for token in tokens {
        if !is_name(token) {
            return false;
        }
    }
    true
}

/// The form of a line with these tokens after `atoms`.
fn atoms_form<'a>(tokens: &'a [Token<'a>]) -> LineForm<'a>
    ensures { IsForm result (atoms_form (map lexeme_of tokens.now)) }
{
    if !tokens.is_empty() && are_names(tokens) {
        LineForm::Atoms(tokens)
    } else {
        LineForm::Unknown
    }
}

/// The form of a line of this agent with these tokens after its number of times.
fn base_form<'a>(name: &'a str, times: u32, tokens: &'a [Token<'a>]) -> LineForm<'a>
    ensures { (n : ℕ) → times ≡ min n times_cap →
        IsForm result (base_form name.now n (map lexeme_of tokens.now)) }
{
    match tokens {
        [Token::Colon, base @ ..] => LineForm::Agent { name, times, base },
        _ => LineForm::Unknown,
    }
}

/// The form of a line of this agent with these tokens after `times`.
fn numeral_form<'a>(name: &'a str, tokens: &'a [Token<'a>]) -> LineForm<'a>
    ensures { IsForm result (numeral_form name.now (map lexeme_of tokens.now)) }
{
    match tokens {
        [Token::Word(word), rest @ ..] => {
            if is_numeral(word) {
                base_form(name, value(word), rest)
            } else {
                LineForm::Unknown
            }
        }
        _ => LineForm::Unknown,
    }
}

/// The form of a line of this agent with these tokens after its name.
fn times_form<'a>(name: &'a str, tokens: &'a [Token<'a>]) -> LineForm<'a>
    ensures { IsForm result (times_form name.now (map lexeme_of tokens.now)) }
{
    match tokens {
        [Token::Colon, base @ ..] => LineForm::Agent {
            name,
            times: 1,
            base,
        },
        [Token::Word(word), rest @ ..] => {
            if *word == "times" {
                numeral_form(name, rest)
            } else {
                LineForm::Unknown
            }
        }
        _ => LineForm::Unknown,
    }
}

/// The form of a line with these tokens after `agent`.
fn agent_form<'a>(tokens: &'a [Token<'a>]) -> LineForm<'a>
    ensures { IsForm result (agent_form (map lexeme_of tokens.now)) }
{
    match tokens {
        [Token::Word(name), rest @ ..] => {
            if is_plain_name(name.as_bytes()) {
                times_form(name, rest)
            } else {
                LineForm::Unknown
            }
        }
        _ => LineForm::Unknown,
    }
}

/// What a line with these tokens says.
pub fn form_of<'a>(tokens: &'a [Token<'a>]) -> LineForm<'a>
    ensures { IsForm result (form_of (map lexeme_of tokens.now)) }
{
    match tokens {
        [] => LineForm::Blank,
        [Token::Word(word), rest @ ..] => {
            if *word == "atoms" {
                atoms_form(rest)
            } else if *word == "constraint" {
                LineForm::Constraint(rest)
            } else if *word == "agent" {
                agent_form(rest)
            } else if *word == "ask" {
                LineForm::Ask(rest)
            } else {
                LineForm::Unknown
            }
        }
        _ => LineForm::Unknown,
    }
}

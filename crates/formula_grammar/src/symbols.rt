ghost use Rattle.std.specs.Prelude.{◌≡◌, ◌<◌, ◌≤◌, ◌+◌, IfOk, map, count_by};
ghost use Rattle.std.specs.List.{list_any};
ghost use Rattle.formulas.specs.Names.{names_of};
ghost use Rattle.line_tokens.specs.Lexemes.{lexeme_of};
ghost use Rattle.formula_grammar.specs.Symbols.{word_symbol, symbol_of, symbols_of, is_past};
ghost use Rattle.formula_grammar.specs.Symbols.{is_node, number_in, opened, most_open};

use crate::symbol::Symbol;
use edge::NoMemory;
use formulas::{Atoms, is_plain_name};
use line_tokens::Token;
use std::alloc::Global;

/// The number of the atom of this name, or the number of atoms where there is none.
fn number_in(name: &str, atoms: &Atoms) -> u32
    ensures { result ≡ number_in (names_of atoms.now) name.now }
{
    atoms.number_of(name).unwrap_or(atoms.len())
}

/// The symbol of a word.
fn word_symbol(word: &str, atoms: &Atoms) -> Symbol
    ensures { result ≡ word_symbol (names_of atoms.now) word.now }
{
    if word == "true" {
        Symbol::True
    } else if word == "false" {
        Symbol::False
    } else if is_plain_name(word.as_bytes()) {
        Symbol::Name(number_in(word, atoms))
    } else {
        Symbol::Foreign
    }
}

/// The symbol of a token.
fn symbol_of(token: Token, atoms: &Atoms) -> Symbol
    ensures { result ≡ symbol_of (names_of atoms.now) (lexeme_of token.entry) }
{
    match token {
        Token::Bang => Symbol::Bang,
        Token::Ampersand => Symbol::Ampersand,
        Token::Bar => Symbol::Bar,
        Token::Arrow => Symbol::Arrow,
        Token::BothArrow => Symbol::BothArrow,
        Token::Open => Symbol::Open,
        Token::Close => Symbol::Close,
        Token::Colon | Token::Stray => Symbol::Foreign,
        Token::Word(word) => word_symbol(word, atoms),
    }
}

/// The symbols of tokens, over the names of the atoms; `NoMemory` for want of memory.
pub fn symbols(alloc: Global, tokens: &[Token], atoms: &Atoms) -> Result<Vec<Symbol>, NoMemory>
    ensures { IfOk result
        (λ symbols. symbols.items ≡ symbols_of (names_of atoms.now) (map lexeme_of tokens.now)) }
{
    let mut symbols = Vec::with_capacity(alloc, tokens.len())?;
    for token in tokens {
        symbols.push(symbol_of(*token, atoms))?;
    }
    Ok(symbols)
}

/// Whether a name's number is that of no atom.
pub fn has_past(symbols: &[Symbol], atoms: u32) -> bool
    ensures { result ≡ list_any (is_past atoms) symbols.now }
{
    symbols.iter().any(|symbol| matches!(symbol, Symbol::Name(number) if *number >= atoms))
}

/// How many brackets are open after a token.
fn opened(before: usize, token: Token) -> usize
    requires { before < usize.MAX }
    ensures number { result ≡ opened before (lexeme_of token.entry) }
    ensures at_most { result ≤ before + 1 }
{
    match token {
        Token::Open => before + 1,
        Token::Close => before.saturating_sub(1),
        _ => before,
    }
}

/// The most brackets that are open at one place of the tokens.
pub fn most_open(tokens: &[Token]) -> usize
    ensures { result ≡ most_open 0 (map lexeme_of tokens.now) }
{
    let mut now_open = 0;
    let mut most = 0;
    for token in tokens {
        now_open = opened(now_open, *token);
        most = most.max(now_open);
    }
    most
}

/// The number of nodes of the formula that the tokens spell: each but the brackets is one.
pub fn node_count(tokens: &[Token]) -> usize
    ensures { result ≡ count_by is_node (map lexeme_of tokens.now) }
{
    tokens
        .iter()
        .filter(|token| !matches!(token, Token::Open | Token::Close))
        .count()
}

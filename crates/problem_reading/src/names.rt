ghost use Rattle.std.specs.Prelude.{◌≡◌, [], ◌∷◌, ◌++◌, ◌≤◌, true, false, length, map, IfOk, OnOk};
ghost use Rattle.std.specs.List.{list_any};
ghost use Rattle.std.specs.Str.{bytes_eq};
ghost use Rattle.formulas.specs.Limits.{atom_limit};
ghost use Rattle.formulas.specs.Names.{is_reserved, are_distinct, are_names, names_of};
ghost use Rattle.line_tokens.specs.Lexemes.{lexeme_of};
ghost use Rattle.problem_lines.specs.Forms.{words_of};
ghost use Rattle.problem_reading.specs.Drafts.{is_long};

use edge::NoMemory;
use formulas::{Atoms, NAME_LIMIT, is_reserved};
use indexmap::IndexSet;
use line_tokens::Token;
use problem_lines::token_word;
use std::alloc::Global;
use std::marker::Model;

/// Words in the order in which they were first met.
#[derive(Drop)]
pub struct Seen {
    words: IndexSet<String>,
}

impl Model for Seen {
    ghost use Rattle.std.specs.Prelude.{List, ℕ, map, string_bytes};

    ghost Value = { List (List ℕ) };

    ghost view = { λ seen. map string_bytes seen.words.keys };
}

impl Seen {
    /// No words yet.
    pub fn new(alloc: Global) -> Seen
        ensures { result ≡ [] }
    {
        Seen {
            words: IndexSet::new(alloc),
        }
    }

    /// Whether a word was met.
    pub fn has(&self, word: &str) -> bool
        ensures { result ≡ list_any (bytes_eq word.now) self.now }
    {
        match self.words.get_index_of(word) {
            None => false,
            Some(_) => true,
        }
    }

    /// Puts a word last that was not met before.
    pub fn push(&mut self, word: &str) -> Result<(), NoMemory>
        requires { list_any (bytes_eq word.now) self.old ≡ false }
        ensures { OnOk result (self.new ≡ self.old ++ word.now ∷ []) }
    {
        let word = String::from_str(*self.words.allocator(), word)?;
        self.words.insert(word)?;
        Ok(())
    }
}

/// Whether no word of the tokens comes twice; `NoMemory` for want of memory.
pub fn are_distinct(alloc: Global, tokens: &[Token]) -> Result<bool, NoMemory>
    ensures { IfOk result
        (λ distinct. distinct ≡ are_distinct (words_of (map lexeme_of tokens.now))) }
{
    let mut seen = Seen::new(alloc);
    for token in tokens {
        let word = token_word(*token);
        if seen.has(word) {
            return Ok(false);
        }
        seen.push(word)?;
    }
    Ok(true)
}

/// Whether a word of the tokens is `true` or `false`.
pub fn any_reserved(tokens: &[Token]) -> bool
    ensures { result ≡ list_any is_reserved (words_of (map lexeme_of tokens.now)) }
{
    for token in tokens {
        if is_reserved(token_word(*token).as_bytes()) {
            return true;
        }
    }
    false
}

/// Whether a word of the tokens is too long for a name.
pub fn any_long(tokens: &[Token]) -> bool
    ensures { result ≡ list_any is_long (words_of (map lexeme_of tokens.now)) }
{
    for token in tokens {
        if token_word(*token).len() > NAME_LIMIT {
            return true;
        }
    }
    false
}

/// Whether an atom has this name.
fn is_declared(atoms: &Atoms, name: &str) -> bool
    ensures { result ≡ list_any (bytes_eq name.now) (names_of atoms.now) }
{
    match atoms.number_of(name) {
        None => false,
        Some(_) => true,
    }
}

/// Whether a word of the tokens is the name of an atom.
pub fn any_declared(atoms: &Atoms, tokens: &[Token]) -> bool
    ensures { result ≡ list_any (λ name. list_any (bytes_eq name) (names_of atoms.now))
        (words_of (map lexeme_of tokens.now)) }
{
    for token in tokens {
        if is_declared(atoms, token_word(*token)) {
            return true;
        }
    }
    false
}

/// The same atoms in memory of their own; `NoMemory` for want of it.
fn copied_atoms(alloc: Global, atoms: &Atoms) -> Result<Atoms, NoMemory>
    ensures { IfOk result (λ copied. copied ≡ atoms.now) }
{
    let mut copied = Atoms::new(alloc);
    let count = atoms.len();
    for number in 0..count {
        copied.add(atoms.name(number))?;
    }
    Ok(copied)
}

/// The atoms with the words of the tokens after them; `NoMemory` for want of memory.
pub fn extended(alloc: Global, atoms: &Atoms, tokens: &[Token]) -> Result<Atoms, NoMemory>
    requires few { length (atoms.now ++ words_of (map lexeme_of tokens.now)) ≤ atom_limit }
    requires names { are_names (names_of atoms.now ++ words_of (map lexeme_of tokens.now)) ≡ true }
    ensures { IfOk result (λ more. more ≡ atoms.now ++ words_of (map lexeme_of tokens.now)) }
{
    let mut more = copied_atoms(alloc, atoms)?;
    for token in tokens {
        more.add(token_word(*token))?;
    }
    Ok(more)
}

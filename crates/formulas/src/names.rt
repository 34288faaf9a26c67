ghost use Rattle.std.specs.Prelude.{◌≡◌, ◌<◌, ◌≤◌, [], ◌∷◌, ◌++◌, true, false, Some, length};
ghost use Rattle.std.specs.Prelude.{position, slice_get, IfNone, IfOk, OnOk, OnErr};
ghost use Rattle.std.specs.Str.{bytes_eq};
ghost use Rattle.std.specs.List.{list_all, list_any};
ghost use Rattle.formulas.specs.Limits.{atom_limit};
ghost use Rattle.formulas.specs.Names.{are_names, is_name, is_plain_name, is_reserved};
ghost use Rattle.formulas.specs.Names.{is_word_byte, names_of};

use crate::limits::NAME_LIMIT;
use edge::NoMemory;
use indexmap::IndexSet;
use std::alloc::Global;
use std::marker::Model;

/// The names of the atoms, seen as the list of their bytes in order of number.
///
/// There are at most `ATOM_LIMIT`, each is a name, and no two are the same.
#[derive(Drop)]
pub struct Atoms {
    names: IndexSet<String>,
}

impl Model for Atoms {
    ghost use Rattle.std.specs.Prelude.{map, length, true, ◌≡◌, ◌≤◌, string_bytes};
    ghost use Rattle.formulas.specs.Limits.{atom_limit};
    ghost use Rattle.formulas.specs.Names.{AtomList, are_names};

    ghost Value = { AtomList };

    ghost view = { λ a. map string_bytes a.names.keys };

    ghost invariant = { λ a. (length a.names.keys ≤ atom_limit)
        × (are_names (map string_bytes a.names.keys) ≡ true) };
}

impl Atoms {
    /// No atoms yet; the memory of later names comes from `alloc`.
    pub fn new(alloc: Global) -> Atoms
        ensures { result ≡ [] }
    {
        Atoms {
            names: IndexSet::new(alloc),
        }
    }

    /// How many atoms there are, from 0 to `ATOM_LIMIT`.
    pub fn len(&self) -> u32
        ensures number { result ≡ length self.now }
        ensures few { result ≤ atom_limit }
        ensures names { are_names (names_of self.now) ≡ true }
    {
        self.names.len() as u32
    }

    /// The number of the atom of this name, or `None` exactly where there is none.
    pub fn number_of(&self, name: &str) -> Option<u32>
        ensures number { result ≡ position (bytes_eq name.now) (names_of self.now) }
        ensures absent { IfNone result (list_any (bytes_eq name.now) (names_of self.now) ≡ false) }
    {
        match self.names.get_index_of(name) {
            None => None,
            Some(number) => Some(number as u32),
        }
    }

    /// The name of atom `number`.
    pub fn name(&self, number: u32) -> &str
        requires { number < length self.now }
        ensures { slice_get (names_of self.now) number ≡ Some result.now }
    {
        match self.names.get_index(number as usize) {
            None => unreachable!(),
            Some(name) => name.as_str(),
        }
    }

    /// Adds an atom and gives its number; `NoMemory` leaves the atoms as they were.
    pub fn add(&mut self, name: &str) -> Result<u32, NoMemory>
        requires name { is_name name.now ≡ true }
        requires few { length self.old < atom_limit }
        requires absent { list_any (bytes_eq name.now) (names_of self.old) ≡ false }
        ensures number { IfOk result (λ number. number ≡ length self.old) }
        ensures added { OnOk result (self.new ≡ self.old ++ name.now ∷ []) }
        ensures kept { OnErr result (self.new ≡ self.old) }
    {
        let number = self.names.len() as u32;
        let name = String::from_str(*self.names.allocator(), name)?;
        self.names.insert(name)?;
        Ok(number)
    }
}

/// Whether a byte may stand in a word: a letter, a digit or `_`.
pub fn is_word_byte(byte: u8) -> bool
    ensures { result ≡ is_word_byte byte }
{
    byte.is_ascii_alphanumeric() || byte == b'_'
}

/// Whether the bytes are a word that does not begin with a digit.
pub fn is_plain_name(bytes: &[u8]) -> bool
    ensures { result ≡ is_plain_name bytes.now }
{
    match bytes.first() {
        None => false,
        Some(first) => !first.is_ascii_digit() && is_word(bytes),
    }
}

/// Whether each byte may stand in a word.
fn is_word(bytes: &[u8]) -> bool
    ensures { result ≡ list_all is_word_byte bytes.now }
{
    bytes.iter().all(|byte| is_word_byte(*byte))
}

/// Whether the bytes are the word of one of the two constants.
pub fn is_reserved(bytes: &[u8]) -> bool
    ensures { result ≡ is_reserved bytes.now }
{
    bytes == b"true".as_slice() || bytes == b"false".as_slice()
}

/// Whether an atom or an agent may be called this: a word of 1 to `NAME_LIMIT` bytes that
/// does not begin with a digit and is neither `true` nor `false`.
pub fn is_name(bytes: &[u8]) -> bool
    ensures { result ≡ is_name bytes.now }
{
    is_plain_name(bytes) && bytes.len() <= NAME_LIMIT && !is_reserved(bytes)
}

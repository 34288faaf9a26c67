ghost use Rattle.std.specs.Prelude.{◌≡◌, ◌<◌, ◌↔◌, [], ◌∷◌, ◌++◌, length, Some, slice_get};
ghost use Rattle.std.specs.Prelude.{OnOk, OnErr, IsTrue};

use crate::NoMemory;
use std::alloc::Global;
use std::marker::Model;

/// The words of a command line. Contracts see them as the list of their bytes.
#[derive(Debug, Drop)]
pub struct Words {
    alloc: Global,
    words: Vec<String>,
}

impl Model for Words {
    ghost use Rattle.std.specs.Prelude.{List, ℕ, map, string_bytes};

    ghost Value = { List (List ℕ) };

    ghost view = { λ w. map string_bytes w.words.items };
}

impl Words {
    /// No words.
    pub fn new(alloc: Global) -> Self
        ensures { result ≡ [] }
    {
        Words {
            alloc,
            words: Vec::new(alloc),
        }
    }

    /// Adds a word at the end. A refused `push` changes nothing.
    pub fn push(&mut self, word: &str) -> Result<(), NoMemory>
        ensures ok { OnOk result (self.new ≡ self.old ++ word.now ∷ []) }
        ensures err { OnErr result (self.new ≡ self.old) }
    {
        self.words.push(String::from_str(self.alloc, word)?)?;
        Ok(())
    }

    /// The word at place `k`, counted from 0.
    pub fn get(&self, k: usize) -> &str
        requires { k < length self.now }
        ensures { slice_get self.now k ≡ Some result.now }
    {
        self.words[k].as_str()
    }

    /// How many words there are.
    pub fn len(&self) -> usize
        ensures { result ≡ length self.now }
    {
        self.words.len()
    }

    /// Whether there is no word.
    pub fn is_empty(&self) -> bool
        ensures { IsTrue result ↔ (self.now ≡ []) }
    {
        self.words.is_empty()
    }
}

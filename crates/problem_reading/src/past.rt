//! Lines that only clauses see.
ghost use Rattle.std.specs.Prelude.{◌≡◌, ℕ, List, [], ◌∷◌, ◌++◌};
ghost use Rattle.std.specs.Borrow.{ftrue};

use std::marker::Model;

/// A list of lines that takes no memory: only clauses see it, and its functions do nothing.
#[derive(Drop)]
pub struct Past {
    pub ghost lines: { List (List ℕ) },
}

impl Model for Past {
    ghost also_owns = { λ _. ftrue };
}

impl Past {
    /// No lines.
    pub fn new() -> Past
        ensures { result.lines ≡ [] }
    {
        Past {}
    }

    /// The lines with one more at their end.
    pub fn with(before: &Past, line: &[u8]) -> Past
        ensures { result.lines ≡ before.now.lines ++ line.now ∷ [] }
    {
        Past {}
    }
}

use edge::NoMemory;

/// A constant, an atom or a connective, with the values of its children.
#[derive(Drop)]
pub enum Part<V> {
    Top,
    Bottom,
    Atom(u32),
    Not(V),
    And(V, V),
    Or(V, V),
    Implies(V, V),
    Iff(V, V),
}

/// What waits for a formula on its right.
#[derive(Drop)]
pub enum Frame<V> {
    /// A negation.
    NotOf,
    /// A conjunction with this left part.
    AndOf(V),
    /// A disjunction with this left part.
    OrOf(V),
    /// An implication with this left part.
    ImpliesOf(V),
    /// An equivalence with this left part.
    IffOf(V),
    /// An open bracket.
    OpenOf,
}

/// Which frames the next mark closes.
#[derive(Clone, Copy)]
pub enum Bind {
    /// All up to a bracket.
    Loose,
    /// Disjunctions and tighter ones.
    Middle,
    /// Conjunctions and tighter ones.
    Tight,
}

/// What may come next: a formula, or a mark after this one, or nothing more.
#[derive(Drop)]
pub enum Turn<V> {
    /// A formula must come.
    Operand,
    /// This formula was read; a mark or the end must come.
    Operator(V),
    /// No formula begins with what was read.
    Stuck,
}

/// Makes a value of each part of a formula.
pub trait Maker<V: Drop> {
    ghost use Rattle.formula_grammar.specs.declared.stack.Part.{Part};
    ghost use Rattle.std.specs.Prelude.{◌≡◌, IfOk};

    /// What is made of a part.
    ghost made: { Part V → V };

    /// The value of a part; `NoMemory` for want of memory.
    fn make(&self, part: Part<V>) -> Result<V, NoMemory>
        ensures { IfOk result (λ value. value ≡ made part) };
}

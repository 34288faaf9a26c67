//! Marks on variables, by which conflict analysis knows the clause that it is at.
ghost use Rattle.std.specs.Prelude.{◌≡◌, ◌+◌, ◌<◌, ◌++◌, ◌∷◌, [], ℕ, true, false, length, IfOk};
ghost use Rattle.std.specs.Prelude.{OnOk, if◌then◌else◌, slice_set};
ghost use Rattle.clause_store.specs.Lits.{InRange, IsWithin, has, sorted_clause};
ghost use Rattle.clause_store.specs.declared.lit.Lit.{Lit};
ghost use Rattle.cdcl_core.specs.Marked.{AreClear, IsAdded, is_but, lower, mark_of, others};

use crate::analysis::level_at;
use clause_store::{Clause, Lit};
use edge::NoMemory;
use std::alloc::Global;
use watch_lists::Trail;

/// The clause that conflict analysis is at: a variable is marked where its false literal is in the
/// clause. Between two conflicts no variable is marked, and no literal is kept.
#[derive(Drop)]
pub struct Marks {
    /// By variable.
    marked: Vec<bool>,
    /// The literals that will not be resolved away.
    kept: Vec<Lit>,
}

impl Marks {
    /// No marks on the variables from 1 to `vars`.
    pub fn new(alloc: Global, vars: u32) -> Result<Marks, NoMemory>
        ensures { IfOk result (λ made. AreClear vars made.marked.items made.kept.items) }
    {
        Ok(Marks {
            marked: vec![in alloc; false; vars as usize + 1]?,
            kept: Vec::new(alloc),
        })
    }

    /// Whether the variable is marked.
    #[inline]
    pub fn is_marked(&self, var: u32) -> bool
        requires { var < length self.now.marked.items }
        ensures { result ≡ mark_of self.now.marked.items var }
    {
        self.marked[var as usize]
    }

    /// Takes the mark off the variable.
    pub fn unmark(&mut self, var: u32)
        requires { var < length self.old.marked.items }
        ensures marked { self.new.marked.items ≡ slice_set self.old.marked.items var false }
        ensures kept { self.new.kept.items ≡ self.old.kept.items }
    {
        self.marked[var as usize] = false;
    }

    /// Keeps a literal for the clause.
    pub fn keep(&mut self, lit: Lit) -> Result<(), NoMemory>
        ensures marked { self.new.marked.items ≡ self.old.marked.items }
        ensures kept { OnOk result (self.new.kept.items ≡ self.old.kept.items ++ lit ∷ []) }
    {
        self.kept.push(lit)?;
        Ok(())
    }

    /// Adds a literal: marks it where it is false, and keeps it where it is not or its level is
    /// below the given one. Whether the walk has to come to it.
    fn mark(&mut self, trail: &Trail, lit: Lit, level: u32) -> Result<bool, NoMemory>
        requires within { IsWithin trail.now.vars lit }
        requires size { length self.old.marked.items ≡ trail.now.vars + 1 }
        ensures size { length self.new.marked.items ≡ trail.now.vars + 1 }
        ensures added { IfOk result (λ waits. IsAdded trail.now.entries
            (lower level trail.now.entries) self.old.marked.items self.old.kept.items
            self.new.marked.items self.new.kept.items (lit ∷ []) (if waits then 1 else 0)) }
    {
        if trail.value(lit).unwrap_or(true) {
            self.kept.push(lit)?;
            return Ok(false);
        }
        if self.is_marked(lit.var) {
            return Ok(false);
        }
        self.marked[lit.var as usize] = true;
        if level_at(trail, lit) >= level {
            return Ok(true);
        }
        self.kept.push(lit)?;
        Ok(false)
    }

    /// Adds a clause's literals but one: marks those that are false, keeps the others. Answers to
    /// how many more the walk has to come.
    pub fn add(
        &mut self,
        trail: &Trail,
        lits: &[Lit],
        but: Option<Lit>,
        level: u32,
    ) -> Result<usize, NoMemory>
        requires in_range { InRange trail.now.vars lits.now }
        requires size { length self.old.marked.items ≡ trail.now.vars + 1 }
        ensures size { length self.new.marked.items ≡ trail.now.vars + 1 }
        ensures added { IfOk result (λ count. IsAdded trail.now.entries
            (lower level trail.now.entries) self.old.marked.items self.old.kept.items
            self.new.marked.items self.new.kept.items (others but lits.now) count) }
    {
        let mut count = 0;
        for lit in lits {
            if is_left_out(but, *lit) {
                continue;
            }
            if self.mark(trail, *lit, level)? {
                count += 1;
            }
        }
        Ok(count)
    }

    /// The clause of the literals that were kept. No mark is left on their variables.
    pub fn finish(&mut self, alloc: Global) -> Result<Clause, NoMemory>
        requires { (v : ℕ) → mark_of self.old.marked.items v ≡ true →
            (l : Lit) × (l.var ≡ v) × (has l self.old.kept.items ≡ true) }
        ensures clause { IfOk result (λ made. made ≡ sorted_clause self.old.kept.items) }
        ensures size { length self.new.marked.items ≡ length self.old.marked.items }
        ensures marks { OnOk result ((v : ℕ) → mark_of self.new.marked.items v ≡ false) }
        ensures kept { OnOk result (self.new.kept.items ≡ []) }
    {
        let clause = Clause::from_lits(alloc, self.kept.as_slice())?;
        take_off(&mut self.marked, self.kept.as_slice());
        self.kept.clear();
        Ok(clause)
    }
}

/// Whether a literal is the one that is left out.
fn is_left_out(but: Option<Lit>, lit: Lit) -> bool
    ensures { result ≡ is_but but lit }
{
    match but {
        Some(but) => lit.rank() == but.rank(),
        None => false,
    }
}

/// Takes the marks off the variables of these literals.
fn take_off(marked: &mut Vec<bool>, lits: &[Lit])
    requires { (v : ℕ) → mark_of marked.old.items v ≡ true →
        (l : Lit) × (l.var ≡ v) × (has l lits.now ≡ true) }
    ensures size { length marked.new.items ≡ length marked.old.items }
    ensures marks { (v : ℕ) → mark_of marked.new.items v ≡ false }
{
    for lit in lits {
        if (lit.var as usize) < marked.len() {
            marked[lit.var as usize] = false;
        }
    }
}

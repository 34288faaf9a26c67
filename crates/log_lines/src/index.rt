//! Clauses of a list, each in the row of one of its literals, so that few of them need a look.
ghost use Rattle.std.specs.Prelude.{◌≡◌, ℕ, ◌+◌, ◌<◌, ◌≤◌, List, [], ◌∷◌, ◌++◌, length, true};
ghost use Rattle.std.specs.Prelude.{false, IsTrue, IfOk, MatchOption, slice_set, slice_index_or};
ghost use Rattle.std.specs.List.{list_any};
ghost use Rattle.clause_store.specs.declared.lit.Lit.{Lit as Literal};
ghost use Rattle.clause_store.specs.Clauses.{clause_at};
ghost use Rattle.clause_store.specs.Lits.{has, InRange};
ghost use Rattle.log_lines.specs.Indexes.{IsIndexOf, IsAnIndex, IsIndexed, IsEmptied};
ghost use Rattle.log_lines.specs.Spending.{includes};

use clause_store::{ClauseList, Lit, has_lit};
use edge::NoMemory;
use std::alloc::Global;

/// No clause.
const END: u32 = u32::MAX;

/// Clauses of a list. Each but the empty one stands in the row of one of its literals.
#[derive(Drop)]
pub struct Index {
    /// By rank of a literal: the first clause of its row.
    heads: Vec<u32>,
    /// By number of a clause: the next one of its row.
    next: Vec<u32>,
    /// Whether the empty clause is among them.
    empty: bool,
}

/// The last literal of a clause that is not in the other: many clauses share their first literals,
/// and few their last.
fn outside(inner: &[Lit], outer: &[Lit]) -> Option<Lit>
    ensures { MatchOption result (includes outer.now inner.now ≡ true)
        (λ l. (has l inner.now ≡ true) × (has l outer.now ≡ false)) }
{
    let mut at = inner.len();
    while at > 0 {
        at -= 1;
        if !has_lit(outer, inner[at]) {
            return Some(inner[at]);
        }
    }
    None
}

impl Index {
    /// No clause of the list. `NoMemory` also comes where it has 2^32 - 1 clauses or more.
    pub fn new(alloc: Global, known: &ClauseList) -> Result<Index, NoMemory>
        ensures { IfOk result (λ index. IsIndexOf index known.now [] 0) }
    {
        let count = known.len();
        if count >= u64::from(END) {
            return Err(NoMemory);
        }
        let heads = vec![in alloc; END; 2 * known.vars() as usize + 2]?;
        let next = vec![in alloc; END; count as usize]?;
        Ok(Index {
            heads,
            next,
            empty: false,
        })
    }

    /// The clause of a number joins them, which is above theirs. Many clauses share their first
    /// literals, and few their last.
    pub fn add(&mut self, known: &ClauseList, number: u64)
        requires index { IsAnIndex self.old known.now }
        requires number { number < length known.now.list }
        ensures { (before : List (List Literal)) → IsIndexOf self.old known.now before number →
            IsIndexOf self.new known.now (before ++ clause_at known.now.list number ∷ [])
            (number + 1) }
    {
        match known.clause(number).last() {
            None => self.empty = true,
            Some(lit) => self.push(lit.rank() as usize, number as u32),
        }
    }

    /// Whether a clause includes one of them; where it does not, they stand as before.
    pub fn has_within(&mut self, known: &ClauseList, clause: &[Lit]) -> bool
        requires index { IsAnIndex self.old known.now }
        requires clause { InRange known.now.vars clause.now }
        ensures found { IsTrue result → (before : List (List Literal)) (bound : ℕ) →
            IsIndexOf self.old known.now before bound →
            list_any (includes clause.now) before ≡ true }
        ensures none { result ≡ false → (before : List (List Literal)) (bound : ℕ) →
            IsIndexOf self.old known.now before bound →
            (list_any (includes clause.now) before ≡ false) ×
            IsIndexOf self.new known.now before bound }
    {
        if self.empty {
            return true;
        }
        for lit in clause {
            if self.has_in_row(known, clause, *lit) {
                return true;
            }
        }
        false
    }

    /// Whether the clause includes one of the row of its literal. Where it does not, each of the
    /// row goes to that of a literal outside the clause.
    fn has_in_row(&mut self, known: &ClauseList, clause: &[Lit], lit: Lit) -> bool
        requires index { IsAnIndex self.old known.now }
        requires own { has lit clause.now ≡ true }
        requires within { lit.var ≤ known.now.vars }
        ensures found { IsTrue result → (before : List (List Literal)) (bound : ℕ) →
            IsIndexOf self.old known.now before bound →
            list_any (includes clause.now) before ≡ true }
        ensures none { result ≡ false →
            (before : List (List Literal)) (bound : ℕ) (lists : List (List ℕ)) →
            IsIndexed self.old.heads.items self.old.next.items self.old.empty
            known.now before bound lists →
            (after : List (List ℕ)) ×
            IsIndexed self.new.heads.items self.new.next.items self.new.empty
            known.now before bound after ×
            IsEmptied clause.now lit lists after }
    {
        let row = lit.rank() as usize;
        let mut number = self.heads[row];
        self.heads[row] = END;
        for turn in 0..self.next.len() {
            let _ = turn;
            if number == END {
                break;
            }
            let after = self.next[number as usize];
            match outside(known.clause(u64::from(number)), clause) {
                None => return true,
                Some(other) => self.push(other.rank() as usize, number),
            }
            number = after;
        }
        false
    }

    /// Puts a clause in front of a row.
    fn push(&mut self, row: usize, number: u32)
        requires row { row < length self.old.heads.items }
        requires number { number < length self.old.next.items }
        ensures heads { self.new.heads.items ≡ slice_set self.old.heads.items row number }
        ensures next { self.new.next.items ≡
            slice_set self.old.next.items number (slice_index_or self.old.heads.items row 0) }
        ensures empty { self.new.empty ≡ self.old.empty }
    {
        self.next[number as usize] = self.heads[row];
        self.heads[row] = number;
    }
}

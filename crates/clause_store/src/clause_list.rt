//! A list of clauses in one flat list of literals.
ghost use Rattle.std.specs.Prelude.{◌≡◌, ◌+◌, ◌<◌, ◌≤◌, [], ◌∷◌, ◌++◌, length, slice_get};
ghost use Rattle.std.specs.Prelude.{Some, IfOk, OnOk, OnErr, take, drop};
ghost use Rattle.clause_store.specs.Keeping.{kept_of};
ghost use Rattle.clause_store.specs.Lits.{Ascends, InRange, positive_lit, sorted_clause};
ghost use Rattle.clause_store.specs.Clauses.{cut, Rise, start_at};
ghost use Rattle.clause_store.specs.Fresh.{fresh_lits, fresh_vars};
ghost use Rattle.clause_store.specs.Limits.{clause_limit, literal_limit, var_limit};

use crate::clause::Clause;
use crate::lit::Lit;
use edge::NoMemory;
use std::alloc::Global;
use std::marker::Model;

/// A list has fewer literals; `literal_limit` of the specs.
const LITERAL_LIMIT: usize = 1 << 32;

/// A list of clauses over the variables from 1 to a number. It grows at its end alone. Equal
/// clauses may stand in it twice.
#[derive(Drop)]
pub struct ClauseList {
    lits: Vec<Lit>,
    ends: Vec<u32>,
    vars: u32,
}

impl Model for ClauseList {
    ghost use Rattle.std.specs.Prelude.{◌≡◌, ◌<◌, ◌≤◌, length};
    ghost use Rattle.clause_store.specs.Clauses.{Clauses, cut, Rise, IsWhole};
    ghost use Rattle.clause_store.specs.Limits.{literal_limit, var_limit};

    ghost Value = { Clauses };

    ghost view = { λ a. record { list = cut 0 a.ends.items a.lits.items; vars = a.vars } };

    ghost invariant = { λ a. Rise 0 a.ends.items (length a.lits.items) ×
        (length a.lits.items < literal_limit) × (a.vars ≤ var_limit) × IsWhole
        (record { list = cut 0 a.ends.items a.lits.items; vars = a.vars }) };
}

impl ClauseList {
    ghost use Rattle.clause_store.specs.Clauses.{IsWhole};

    /// No clauses over no variables.
    pub fn new(alloc: Global) -> ClauseList
        ensures { result ≡ record { list = []; vars = 0 } }
    {
        ClauseList {
            lits: Vec::new(alloc),
            ends: Vec::new(alloc),
            vars: 0,
        }
    }

    /// The number of clauses.
    pub fn len(&self) -> u64
        ensures len { result ≡ length self.now.list }
        ensures small { result < clause_limit }
        ensures whole { IsWhole self.now }
    {
        self.ends.len() as u64
    }

    /// The number of variables.
    pub fn vars(&self) -> u32
        ensures vars { result ≡ self.now.vars }
        ensures few { result ≤ var_limit }
    {
        self.vars
    }

    /// The positive literal of a further variable, the next one.
    pub fn fresh(&mut self) -> Lit
        requires { self.old.vars < var_limit }
        ensures lit { result ≡ positive_lit (self.old.vars + 1) }
        ensures after { self.new ≡ record self.old { vars = self.old.vars + 1 } }
    {
        self.vars += 1;
        Lit::positive(self.vars)
    }

    /// So many further variables, the next ones in order. `NoMemory`, for want of memory, leaves
    /// the list as it was.
    #[tactic(auto, using(crate::proofs::Fresh::fresh_vars_next))]
    pub fn fresh_vars(&mut self, count: usize) -> Result<Vec<u32>, NoMemory>
        requires { self.old.vars + count ≤ var_limit }
        ensures vars { IfOk result (λ vars. vars.items ≡ fresh_vars self.old.vars count) }
        ensures ok { OnOk result (self.new ≡ record self.old { vars = self.old.vars + count }) }
        ensures err { OnErr result (self.new ≡ self.old) }
    {
        let mut vars = Vec::with_capacity(*self.lits.allocator(), count)?;
        let last = self.vars;
        for i in 0..count {
            vars.push(last + i as u32 + 1)?;
        }
        self.vars += count as u32;
        Ok(vars)
    }

    /// The positive literals of so many further variables, the next ones in order. `NoMemory`, for
    /// want of memory, leaves the clauses as they were, and maybe more variables.
    pub fn fresh_lits(&mut self, count: usize) -> Result<Vec<Lit>, NoMemory>
        requires { self.old.vars + count ≤ var_limit }
        ensures lits { IfOk result (λ lits. lits.items ≡ fresh_lits self.old.vars count) }
        ensures ok { OnOk result (self.new ≡ record self.old { vars = self.old.vars + count }) }
        ensures list { self.new.list ≡ self.old.list }
        ensures more { self.old.vars ≤ self.new.vars }
    {
        let vars = self.fresh_vars(count)?;
        let lits = vars
            .iter()
            .map(|var| Lit::positive(*var))
            .collect(*self.lits.allocator())?;
        Ok(lits)
    }

    /// The literals of the clause of a number, from 0.
    pub fn clause(&self, k: u64) -> &[Lit]
        requires { k < length self.now.list }
        ensures value { slice_get self.now.list k ≡ Some result.now }
        ensures ascends { Ascends result.now }
        ensures in_range { InRange self.now.vars result.now }
    {
        part(&self.lits, &self.ends, k as usize)
    }

    /// Appends the clause of these literals and answers its number. `NoMemory` also comes where the
    /// list would hold `literal_limit` literals.
    pub fn add(&mut self, lits: &[Lit]) -> Result<u64, NoMemory>
        requires in_range { InRange self.old.vars lits.now }
        ensures number { IfOk result (λ k. k ≡ length self.old.list) }
        ensures small { IfOk result (λ k. k < clause_limit) }
        ensures ok { OnOk result
            (self.new ≡ record self.old { list = self.old.list ++ sorted_clause lits.now ∷ [] }) }
        ensures err { OnErr result (self.new ≡ self.old) }
    {
        let clause = Clause::from_lits(*self.lits.allocator(), lits)?;
        let number = self.add_clause(&clause)?;
        Ok(number)
    }

    /// Appends a clause and answers its number. `NoMemory` also comes where the list would hold
    /// `literal_limit` literals.
    pub fn add_clause(&mut self, clause: &Clause) -> Result<u64, NoMemory>
        requires in_range { InRange self.old.vars clause.now }
        ensures number { IfOk result (λ k. k ≡ length self.old.list) }
        ensures small { IfOk result (λ k. k < clause_limit) }
        ensures ok { OnOk result
            (self.new ≡ record self.old { list = self.old.list ++ clause.now ∷ [] }) }
        ensures err { OnErr result (self.new ≡ self.old) }
    {
        let number = self.add_sorted(clause.lits())?;
        Ok(number)
    }

    /// Keeps the first `from` clauses and of those after them the marked ones, in order, which are
    /// numbered anew without gaps. It takes no memory.
    pub fn keep(&mut self, from: u64, marks: &[bool])
        requires { from + length marks.now ≡ length self.old.list }
        ensures { self.new ≡ record self.old
            { list = take from self.old.list ++ kept_of marks.now (drop from self.old.list) } }
    {
        pack(&mut self.lits, &mut self.ends, from as usize, marks);
    }

    /// The place of the end is reserved first, so that nothing can fail once the literals stand.
    fn add_sorted(&mut self, lits: &[Lit]) -> Result<u64, NoMemory>
        requires ascends { Ascends lits.now }
        requires in_range { InRange self.old.vars lits.now }
        ensures number { IfOk result (λ k. k ≡ length self.old.list) }
        ensures small { IfOk result (λ k. k < clause_limit) }
        ensures ok { OnOk result
            (self.new ≡ record self.old { list = self.old.list ++ lits.now ∷ [] }) }
        ensures err { OnErr result (self.new ≡ self.old) }
    {
        let number = self.ends.len() as u64;
        let Some(end) = self.lits.len().checked_add(lits.len()) else {
            return Err(NoMemory);
        };
        if end >= LITERAL_LIMIT {
            return Err(NoMemory);
        }
        self.ends.reserve(1)?;
        self.lits.extend_from_slice(lits)?;
        self.ends.push(end as u32)?;
        Ok(number)
    }
}

/// Leaves out the clauses that are not marked, of those from a number on.
fn pack(lits: &mut Vec<Lit>, ends: &mut Vec<u32>, from: usize, marks: &[bool])
    requires rise { Rise 0 ends.old.items (length lits.old.items) }
    requires whole { from + length marks.now ≡ length ends.old.items }
    requires few { length lits.old.items < literal_limit }
    ensures rise { Rise 0 ends.new.items (length lits.new.items) }
    ensures shorter { length lits.new.items ≤ length lits.old.items }
    ensures kept { cut 0 ends.new.items lits.new.items ≡
        take from (cut 0 ends.old.items lits.old.items) ++
        kept_of marks.now (drop from (cut 0 ends.old.items lits.old.items)) }
{
    if marks.is_empty() {
        return;
    }
    let mut count = from;
    let mut begin = start(ends, from) as usize;
    let mut end = begin;
    for (k, mark) in marks.iter().enumerate() {
        let next = ends[from + k] as usize;
        if *mark {
            lits.copy_within(begin..next, end);
            end += next - begin;
            ends[count] = end as u32;
            count += 1;
        }
        begin = next;
    }
    ends.truncate(count);
    lits.truncate(end);
}

/// The literals of a clause.
fn part<'a>(lits: &'a [Lit], ends: &[u32], k: usize) -> &'a [Lit]
    requires rise { Rise 0 ends.now (length lits.now) }
    requires within { k < length ends.now }
    ensures { slice_get (cut 0 ends.now lits.now) k ≡ Some result.now }
{
    let from = start(ends, k) as usize;
    let to = ends[k] as usize;
    &lits[from..to]
}

/// Where the clause begins.
fn start(ends: &[u32], k: usize) -> u32
    requires { k < length ends.now }
    ensures { result ≡ start_at 0 ends.now k }
{
    if k == 0 { 0 } else { ends[k - 1] }
}

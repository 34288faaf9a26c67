//! Sums of counters.

ghost use Rattle.std.specs.Prelude.{◌≡◌, ◌+◌, ◌≤◌, ◌++◌, IfOk, OnOk, OnErr, length, map};
ghost use Rattle.clause_store.specs.Lits.{sorted_clause};
ghost use Rattle.clause_store.specs.Grew.{Grew};
ghost use Rattle.clause_store.specs.Limits.{var_limit};
ghost use Rattle.totalizer.specs.Counter.{AreVarsWithin, AllVarsWithin};
ghost use Rattle.totalizer.specs.Plus.{up_clauses, down_clauses, pair_clauses, row_clauses};
ghost use Rattle.totalizer.specs.Plus.{plus_clauses, plus_due, IsSum};
ghost use Rattle.totalizer.specs.Total.{total_due, IsTotal};

use crate::literals::add;
use crate::unary::Unary;
use clause_store::{ClauseList, Lit};
use edge::NoMemory;
use std::alloc::Global;

/// The clause that the sum is large, at one pair of numbers.
fn add_up(
    clauses: &mut ClauseList,
    left: &[u32],
    right: &[u32],
    base: u32,
    i: usize,
    j: usize,
) -> Result<(), NoMemory>
    requires i_within { i ≤ length left.now }
    requires j_within { j ≤ length right.now }
    requires left_in { AreVarsWithin base left.now }
    requires right_in { AreVarsWithin base right.now }
    requires room { base + length left.now + length right.now ≤ clauses.old.vars }
    requires few { clauses.old.vars ≤ var_limit }
    ensures vars { clauses.new.vars ≡ clauses.old.vars }
    ensures list { OnOk result (clauses.new.list ≡ clauses.old.list ++ map sorted_clause
        (up_clauses left.now right.now base i j)) }
    ensures err { OnErr result (clauses.new.list ≡ clauses.old.list) }
{
    if i == 0 {
        if j == 0 {
            return Ok(());
        }
        return add(
            clauses,
            &[Lit::negative(right[j - 1]), Lit::positive(base + j as u32)],
        );
    }
    let sum = Lit::positive(base + i as u32 + j as u32);
    let first = Lit::negative(left[i - 1]);
    if j == 0 {
        return add(clauses, &[first, sum]);
    }
    add(clauses, &[first, Lit::negative(right[j - 1]), sum])
}

/// The clause that the sum is small.
fn add_down(
    clauses: &mut ClauseList,
    left: &[u32],
    right: &[u32],
    base: u32,
    i: usize,
    j: usize,
) -> Result<(), NoMemory>
    requires i_within { i ≤ length left.now }
    requires j_within { j ≤ length right.now }
    requires left_in { AreVarsWithin base left.now }
    requires right_in { AreVarsWithin base right.now }
    requires room { base + length left.now + length right.now ≤ clauses.old.vars }
    requires few { clauses.old.vars ≤ var_limit }
    ensures vars { clauses.new.vars ≡ clauses.old.vars }
    ensures list { OnOk result (clauses.new.list ≡ clauses.old.list ++ map sorted_clause
        (down_clauses left.now right.now base i j)) }
    ensures err { OnErr result (clauses.new.list ≡ clauses.old.list) }
{
    if i == left.len() {
        if j == right.len() {
            return Ok(());
        }
        let sum = Lit::negative(base + i as u32 + j as u32 + 1);
        return add(clauses, &[Lit::positive(right[j]), sum]);
    }
    let sum = Lit::negative(base + i as u32 + j as u32 + 1);
    let first = Lit::positive(left[i]);
    if j == right.len() {
        return add(clauses, &[first, sum]);
    }
    add(clauses, &[first, Lit::positive(right[j]), sum])
}

/// Both clauses at one pair of numbers.
fn add_pair(
    clauses: &mut ClauseList,
    left: &[u32],
    right: &[u32],
    base: u32,
    i: usize,
    j: usize,
) -> Result<(), NoMemory>
    requires i_within { i ≤ length left.now }
    requires j_within { j ≤ length right.now }
    requires left_in { AreVarsWithin base left.now }
    requires right_in { AreVarsWithin base right.now }
    requires room { base + length left.now + length right.now ≤ clauses.old.vars }
    requires few { clauses.old.vars ≤ var_limit }
    ensures vars { clauses.new.vars ≡ clauses.old.vars }
    ensures list { OnOk result (clauses.new.list ≡ clauses.old.list ++ map sorted_clause
        (pair_clauses left.now right.now base i j)) }
    ensures err { OnErr result (Grew clauses.old clauses.new
        (pair_clauses left.now right.now base i j)) }
{
    add_up(clauses, left, right, base, i, j)?;
    add_down(clauses, left, right, base, i, j)
}

/// The clauses of one number of the left.
fn add_row(
    clauses: &mut ClauseList,
    left: &[u32],
    right: &[u32],
    base: u32,
    i: usize,
) -> Result<(), NoMemory>
    requires i_within { i ≤ length left.now }
    requires left_in { AreVarsWithin base left.now }
    requires right_in { AreVarsWithin base right.now }
    requires room { base + length left.now + length right.now ≤ clauses.old.vars }
    requires few { clauses.old.vars ≤ var_limit }
    ensures vars { clauses.new.vars ≡ clauses.old.vars }
    ensures list { OnOk result (clauses.new.list ≡ clauses.old.list ++ map sorted_clause
        (row_clauses left.now right.now base i)) }
    ensures err { OnErr result (Grew clauses.old clauses.new
        (row_clauses left.now right.now base i)) }
{
    for j in 0..right.len() + 1 {
        add_pair(clauses, left, right, base, i, j)?;
    }
    Ok(())
}

/// All clauses of a sum.
fn add_rows(
    clauses: &mut ClauseList,
    left: &[u32],
    right: &[u32],
    base: u32,
) -> Result<(), NoMemory>
    requires left_in { AreVarsWithin base left.now }
    requires right_in { AreVarsWithin base right.now }
    requires room { base + length left.now + length right.now ≤ clauses.old.vars }
    requires few { clauses.old.vars ≤ var_limit }
    ensures vars { clauses.new.vars ≡ clauses.old.vars }
    ensures list { OnOk result (clauses.new.list ≡ clauses.old.list ++ map sorted_clause
        (plus_clauses left.now right.now base)) }
    ensures err { OnErr result (Grew clauses.old clauses.new
        (plus_clauses left.now right.now base)) }
{
    for i in 0..left.len() + 1 {
        add_row(clauses, left, right, base, i)?;
    }
    Ok(())
}

/// The sum of two counters: appends clauses over as many fresh variables as both have outputs, and
/// answers the counter of these. After `NoMemory` the list has grown by some variables and some of
/// these clauses, from the first on.
pub fn plus(
    alloc: Global,
    clauses: &mut ClauseList,
    left: &Unary,
    right: &Unary,
) -> Result<Unary, NoMemory>
    requires left_in { AreVarsWithin clauses.old.vars left.now }
    requires right_in { AreVarsWithin clauses.old.vars right.now }
    requires room { (plus_due clauses.old.vars left.now right.now).vars ≤ var_limit }
    ensures outputs { IfOk result
        (λ r. r ≡ (plus_due clauses.old.vars left.now right.now).outputs) }
    ensures vars { OnOk result
        (clauses.new.vars ≡ (plus_due clauses.old.vars left.now right.now).vars) }
    ensures list { OnOk result (clauses.new.list ≡ clauses.old.list ++ map sorted_clause
        (plus_due clauses.old.vars left.now right.now).clauses) }
    ensures err { OnErr result (Grew clauses.old clauses.new
        (plus_due clauses.old.vars left.now right.now).clauses) }

    // What the clauses mean.
    ensures sum { IsSum clauses.old.vars left.now right.now
        (plus_due clauses.old.vars left.now right.now) }
{
    let left = left.outputs();
    let right = right.outputs();
    let base = clauses.vars();
    let outputs = clauses.fresh_vars(left.len() + right.len())?;
    add_rows(clauses, left, right, base)?;
    Ok(Unary::from_outputs(outputs))
}

/// The total, by halves.
fn total_of(alloc: Global, clauses: &mut ClauseList, parts: &[Unary]) -> Result<Unary, NoMemory>
    requires some { 1 ≤ length parts.now }
    requires parts_in { AllVarsWithin clauses.old.vars parts.now }
    requires room { (total_due clauses.old.vars parts.now).vars ≤ var_limit }
    ensures outputs { IfOk result (λ r. r ≡ (total_due clauses.old.vars parts.now).outputs) }
    ensures vars { OnOk result (clauses.new.vars ≡ (total_due clauses.old.vars parts.now).vars) }
    ensures list { OnOk result (clauses.new.list ≡ clauses.old.list ++ map sorted_clause
        (total_due clauses.old.vars parts.now).clauses) }
    ensures err { OnErr result (Grew clauses.old clauses.new
        (total_due clauses.old.vars parts.now).clauses) }
{
    if parts.len() == 1 {
        return parts[0].copy();
    }
    let (front, back) = parts.split_at(parts.len() / 2);
    let left = total_of(alloc, clauses, front)?;
    let right = total_of(alloc, clauses, back)?;
    plus(alloc, clauses, &left, &right)
}

/// The sum of counters: of one, the counter itself, and of more, the sum of the totals of the first
/// half, rounded down, and of the rest. A part that stands twice counts twice. After `NoMemory` the
/// list has grown by some variables and some of the clauses that are due, from the first on.
pub fn total(alloc: Global, clauses: &mut ClauseList, parts: &[Unary]) -> Result<Unary, NoMemory>
    requires some { 1 ≤ length parts.now }
    requires parts_in { AllVarsWithin clauses.old.vars parts.now }
    requires room { (total_due clauses.old.vars parts.now).vars ≤ var_limit }
    ensures outputs { IfOk result (λ r. r ≡ (total_due clauses.old.vars parts.now).outputs) }
    ensures vars { OnOk result (clauses.new.vars ≡ (total_due clauses.old.vars parts.now).vars) }
    ensures list { OnOk result (clauses.new.list ≡ clauses.old.list ++ map sorted_clause
        (total_due clauses.old.vars parts.now).clauses) }
    ensures err { OnErr result (Grew clauses.old clauses.new
        (total_due clauses.old.vars parts.now).clauses) }

    // What the clauses mean.
    ensures total { IsTotal clauses.old.vars parts.now (total_due clauses.old.vars parts.now) }
{
    total_of(alloc, clauses, parts)
}

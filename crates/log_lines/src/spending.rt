//! Whether the last steps of a log are learned and new.
ghost use Rattle.std.specs.Prelude.{◌≡◌, ◌+◌, ◌<◌, ◌≤◌, Some, IsTrue, IfOk, length, slice_get};
ghost use Rattle.std.specs.Prelude.{take, drop};
ghost use Rattle.derivation_log.specs.Logs.{is_learned};
ghost use Rattle.log_lines.specs.Indexes.{IsIndexOf};
ghost use Rattle.log_lines.specs.Spending.{Noted as Step, is_new_at, noted_of, earlier, ends_new};

use crate::index::Index;
use clause_store::ClauseList;
use derivation_log::StepKind;
use edge::NoMemory;
use std::alloc::Global;

fn is_kept(kind: StepKind) -> bool
    ensures { result ≡ is_learned kind }
{
    match kind {
        StepKind::Learned => true,
        StepKind::Claimed => false,
    }
}

fn kind_at(kinds: &[StepKind], k: usize) -> StepKind
    requires { k < length kinds.now }
    ensures { slice_get kinds.now k ≡ Some result }
{
    kinds[k]
}

/// The main clauses, so many.
fn index_main(alloc: Global, known: &ClauseList, main: u64) -> Result<Index, NoMemory>
    requires { main ≤ length known.now.list }
    ensures { IfOk result (λ index. IsIndexOf index known.now (take main known.now.list) main) }
{
    let mut index = Index::new(alloc, known)?;
    for number in 0..main {
        index.add(known, number);
    }
    Ok(index)
}

/// The clause of a step joins where the step is learned.
fn add_learned(index: &mut Index, known: &ClauseList, main: u64, kinds: &[StepKind], step: usize)
    requires step { step < length kinds.now }
    requires known { main + length kinds.now ≡ length known.now.list }
    requires index { IsIndexOf index.old known.now (earlier main kinds.now known.now.list step)
        (main + step) }
    ensures { IsIndexOf index.new known.now (earlier main kinds.now known.now.list (step + 1))
        (main + (step + 1)) }
{
    let _fewer_than_2_to_63 = known.len();
    if !is_kept(kind_at(kinds, step)) {
        return;
    }
    index.add(known, main + step as u64);
}

/// The main clauses and those of the first learned steps, of so many steps.
fn index_earlier(
    alloc: Global,
    known: &ClauseList,
    main: u64,
    kinds: &[StepKind],
    steps: usize,
) -> Result<Index, NoMemory>
    requires steps { steps ≤ length kinds.now }
    requires known { main + length kinds.now ≡ length known.now.list }
    ensures { IfOk result
        (λ index. IsIndexOf index known.now (earlier main kinds.now known.now.list steps)
        (main + steps)) }
{
    let mut index = index_main(alloc, known, main)?;
    for step in 0..steps {
        add_learned(&mut index, known, main, kinds, step);
    }
    Ok(index)
}

/// Whether the step is learned and includes no main clause and no clause of an earlier learned
/// step. Its clause joins then.
fn add_new(
    index: &mut Index,
    known: &ClauseList,
    main: u64,
    kinds: &[StepKind],
    step: usize,
) -> bool
    requires step { step < length kinds.now }
    requires known { main + length kinds.now ≡ length known.now.list }
    requires index { IsIndexOf index.old known.now (earlier main kinds.now known.now.list step)
        (main + step) }
    ensures exact { (s : Step) →
        slice_get (noted_of kinds.now (drop main known.now.list)) step ≡ Some s →
        result ≡ is_new_at (take main known.now.list)
        (noted_of kinds.now (drop main known.now.list)) step s }
    ensures joined { IsTrue result →
        IsIndexOf index.new known.now (earlier main kinds.now known.now.list (step + 1))
        (main + (step + 1)) }
{
    let _fewer_than_2_to_63 = known.len();
    if !is_kept(kind_at(kinds, step)) {
        return false;
    }
    let number = main + step as u64;
    if index.has_within(known, known.clause(number)) {
        return false;
    }
    index.add(known, number);
    true
}

/// Whether the last steps of a log, so many, are learned and include no main clause and no clause
/// of an earlier learned step. The known clauses are the main ones, so many, and then one for each
/// step, of these kinds. `NoMemory` for want of memory, and where there are 2^32 - 1 clauses or
/// more.
pub fn are_last_new(
    alloc: Global,
    known: &ClauseList,
    main: u64,
    kinds: &[StepKind],
    count: usize,
) -> Result<bool, NoMemory>
    requires count { count ≤ length kinds.now }
    requires known { main + length kinds.now ≡ length known.now.list }
    ensures { IfOk result
        (λ new. new ≡ ends_new count (take main known.now.list)
        (noted_of kinds.now (drop main known.now.list))) }
{
    let first = kinds.len() - count;
    let mut index = index_earlier(alloc, known, main, kinds, first)?;
    for step in first..kinds.len() {
        if !add_new(&mut index, known, main, kinds, step) {
            return Ok(false);
        }
    }
    Ok(true)
}

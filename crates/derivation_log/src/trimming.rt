//! Which steps of a log are needed, and the numbers that they have where the others have gone.
ghost use Rattle.std.specs.Prelude.{◌≡◌, ◌+◌, ◌<◌, ◌^◌, false, length, map, replicate, IfOk};
ghost use Rattle.clause_store.specs.Keeping.{kept_of};
ghost use Rattle.derivation_log.specs.Marking.{mark, mark_all, numbers_of, swept, places_from};
ghost use Rattle.derivation_log.specs.Marking.{place_in, placed_link, placed_row, AreBelow};
ghost use Rattle.derivation_log.specs.Marking.{RowsBelow};

use crate::derivations::Row;
use crate::step::Link;
use edge::NoMemory;
use std::alloc::Global;

/// Marks the step of a number; main clauses have no mark.
fn set_mark(marks: &mut [bool], main: u64, number: u64)
    requires { number < main + length marks.old }
    ensures { marks.new ≡ mark main number marks.old }
{
    if number >= main {
        marks[(number - main) as usize] = true;
    }
}

/// Marks the steps of these numbers.
fn set_marks(marks: &mut [bool], main: u64, numbers: &[u64])
    requires { AreBelow (main + length marks.old) numbers.now }
    ensures { marks.new ≡ mark_all main numbers.now marks.old }
{
    for number in numbers {
        set_mark(marks, main, *number);
    }
}

/// Marks the steps that links name.
fn mark_links(marks: &mut [bool], main: u64, links: &[Link])
    requires { AreBelow (main + length marks.old) (map (λ link. link.number) links.now) }
    ensures { marks.new ≡ mark_all main (map (λ link. link.number) links.now) marks.old }
{
    for link in links {
        set_mark(marks, main, link.number);
    }
}

/// Marks the steps that a row uses.
fn mark_used(marks: &mut [bool], main: u64, row: &Row)
    requires { AreBelow (main + length marks.old) (numbers_of row.now) }
    ensures { marks.new ≡ mark_all main (numbers_of row.now) marks.old }
{
    set_mark(marks, main, row.first);
    mark_links(marks, main, row.chain.as_slice());
}

/// The marks of the steps that are needed. From the last step back, each that is needed marks what
/// it uses.
pub fn marks_of(
    alloc: Global,
    main: u64,
    rows: &[Row],
    needed: &[u64],
) -> Result<Vec<bool>, NoMemory>
    requires named { AreBelow (main + length rows.now) needed.now }
    requires rows { RowsBelow (main + length rows.now) rows.now }
    ensures { IfOk result (λ marks. marks.items ≡ swept main 0 (map numbers_of rows.now)
        (mark_all main needed.now (replicate (length rows.now) false))) }
{
    let mut marks = vec![in alloc; false; rows.len()]?;
    set_marks(&mut marks, main, needed);
    let mut k = rows.len();
    while k > 0 {
        k -= 1;
        if marks[k] {
            mark_used(&mut marks, main, &rows[k]);
        }
    }
    Ok(marks)
}

/// The new number of each step, were it left.
pub fn places_of(alloc: Global, main: u64, marks: &[bool]) -> Result<Vec<u64>, NoMemory>
    requires { main + length marks.now < 2 ^ 64 }
    ensures { IfOk result (λ places. places.items ≡ places_from main marks.now) }
{
    let mut places = Vec::with_capacity(alloc, marks.len())?;
    let mut next = main;
    for mark in marks {
        places.push(next)?;
        if *mark {
            next += 1;
        }
    }
    Ok(places)
}

/// The new number of a clause.
fn place_of(main: u64, places: &[u64], number: u64) -> u64
    requires { number < main + length places.now }
    ensures { result ≡ place_in main places.now number }
{
    if number < main {
        number
    } else {
        places[(number - main) as usize]
    }
}

/// The new numbers of these clauses.
pub fn new_numbers(
    alloc: Global,
    main: u64,
    places: &[u64],
    numbers: &[u64],
) -> Result<Vec<u64>, NoMemory>
    requires { AreBelow (main + length places.now) numbers.now }
    ensures { IfOk result (λ made. made.items ≡ map (place_in main places.now) numbers.now) }
{
    let mut made = Vec::with_capacity(alloc, numbers.len())?;
    for number in numbers {
        made.push(place_of(main, places, *number))?;
    }
    Ok(made)
}

/// Gives links the new numbers of the clauses that they name.
pub fn place_links(links: &mut [Link], main: u64, places: &[u64])
    requires { AreBelow (main + length places.now) (map (λ link. link.number) links.old) }
    ensures { links.new ≡ map (placed_link main places.now) links.old }
{
    for link in links.iter_mut() {
        link.number = place_of(main, places, link.number);
    }
}

/// Gives a row the new numbers of the clauses that it uses.
fn place_row(row: &mut Row, main: u64, places: &[u64])
    requires { AreBelow (main + length places.now) (numbers_of row.old) }
    ensures { row.new ≡ placed_row main places.now row.old }
{
    row.first = place_of(main, places, row.first);
    row.chain.place(main, places);
}

/// Leaves the marked rows, in order, with the new numbers of the clauses that they use.
pub fn keep_rows(rows: &mut Vec<Row>, main: u64, marks: &[bool], places: &[u64])
    requires each { length marks.now ≡ length rows.old.items }
    requires rows { RowsBelow (main + length places.now) rows.old.items }
    ensures { rows.new.items ≡ map (placed_row main places.now) (kept_of marks.now rows.old.items) }
{
    let mut count = 0;
    for (k, mark) in marks.iter().enumerate() {
        if *mark {
            place_row(&mut rows[k], main, places);
            rows.swap(count, k);
            count += 1;
        }
    }
    rows.truncate(count);
}

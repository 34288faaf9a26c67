//! Lists of closest valuations.
ghost use Rattle.std.specs.Prelude.{◌≡◌, ◌++◌, IfOk, OnOk, MatchResult};
ghost use Rattle.std.specs.List.{flat_map};
ghost use Rattle.distance_search.specs.Results.{IsBestFor};
ghost use Rattle.distance_search.specs.Heard.{IsHalted};
ghost use Rattle.closest_listing.specs.Lists.{IsClosestList, list_text, last_line, valuation_line};

use crate::listing::Listing;
use agent_copies::Counted;
use aggregators::Levelled;
use distance_search::{Questions, SearchStop, Subject};
use edge::NoMemory;
use formula_text::write_valuation;
use formulas::Valuation;
use report_words::write_bytes;
use std::alloc::Global;

/// Closest valuations, one after another.
#[derive(Debug, Drop)]
pub struct ClosestList {
    /// The valuations in rising order.
    pub valuations: Vec<Valuation>,
    /// Whether another closest valuation is above the last of them.
    pub more: bool,
}

/// The next closest valuations of a listing, at most `count`, and whether there is one more.
pub fn list_next<D: Counted + Drop, A: Levelled + Drop>(
    alloc: Global,
    listing: &mut Listing<D, A>,
    count: u32,
) -> Result<ClosestList, SearchStop>
    requires { IsBestFor
        (⟦<Subject<D, A> as Questions>⟧.setting listing.old.subject) listing.old.best }
    ensures subject { listing.new.subject ≡ listing.old.subject }
    ensures answer { MatchResult result
        (λ list. IsClosestList
        (⟦<Subject<D, A> as Questions>⟧.setting listing.old.subject) listing.old.after count
        list.valuations.items list.more)
        (λ stop. IsHalted
        listing.old.engine.log listing.new.engine.log listing.old.subject.budget stop) }
{
    let mut valuations = Vec::new(alloc);
    for _ in 0..count {
        match listing.next()? {
            Some(valuation) => valuations.push(valuation)?,
            None => {
                return Ok(ClosestList {
                    valuations,
                    more: false,
                });
            }
        }
    }
    let more = listing.next()?.is_some();
    Ok(ClosestList { valuations, more })
}

/// The text of a list: a line for each valuation, and last `more` where there is another, else
/// `end`. `NoMemory` for want of memory.
pub fn text_of(alloc: Global, list: &ClosestList) -> Result<Vec<u8>, NoMemory>
    ensures { IfOk result (λ text. text.items ≡ list_text list.now.valuations.items list.now.more) }
{
    let mut text = Vec::new(alloc);
    write_lines(list.valuations.as_slice(), &mut text)?;
    write_last(list.more, &mut text)?;
    Ok(text)
}

/// Appends a line for each valuation.
fn write_lines(valuations: &[Valuation], into: &mut Vec<u8>) -> Result<(), NoMemory>
    ensures { OnOk result (into.new.items ≡
        into.old.items ++ flat_map valuation_line valuations.now) }
{
    for valuation in valuations {
        write_valuation(*valuation, into)?;
        write_bytes(b"\n", into)?;
    }
    Ok(())
}

/// Appends the last line.
fn write_last(more: bool, into: &mut Vec<u8>) -> Result<(), NoMemory>
    ensures { OnOk result (into.new.items ≡ into.old.items ++ last_line more) }
{
    if more {
        write_bytes(b"more\n", into)
    } else {
        write_bytes(b"end\n", into)
    }
}

//! The totals that a sum is made of, by halves as `total` makes them. Their numbers are worked out
//! anew from the lengths of the counters; nothing rests on them.

ghost use Rattle.std.specs.Prelude.{◌≡◌, ◌<◌, length};

use agent_copies::AgentCopy;
use clause_store::Assignment;
use edge::NoMemory;
use merge_encoding::Frame;
use merge_model::Agent;
use std::alloc::Global;

/// A total of two or more parts, and what is known of its value.
#[derive(Drop)]
pub struct Total {
    /// How many variables of totals stand before its outputs.
    pub before: u32,
    /// How many outputs it has.
    pub outputs: u32,
    /// The place of the total of its first half, if that has two or more parts.
    pub left: Option<usize>,
    /// The place of the total of the rest, if that has two or more parts.
    pub right: Option<usize>,
    /// What its value was not below, under all bases.
    pub least: u32,
    /// The least value that was seen.
    pub most: u32,
}

/// The totals of a sum, each after those that it is made of.
#[derive(Drop)]
pub struct Totals {
    /// The totals; the last is the sum itself.
    pub items: Vec<Total>,
    /// The first variable of the first total.
    pub start: u32,
}

/// What came of a half.
#[derive(Clone, Copy)]
struct Half {
    total: Option<usize>,
    outputs: u32,
    end: u32,
}

/// The length of each agent's counter, as often as the agent counts.
fn part_lengths(
    alloc: Global,
    copies: &[AgentCopy],
    agents: &[Agent],
) -> Result<Vec<u32>, NoMemory> {
    let mut lengths = Vec::new(alloc);
    for (copy, agent) in copies.iter().zip(agents) {
        for _ in 0..agent.times {
            lengths.push(copy.away.len())?;
        }
    }
    Ok(lengths)
}

/// Appends the totals of the parts, by halves, where so many variables of totals stand before.
fn push_totals(totals: &mut Vec<Total>, lengths: &[u32], before: u32) -> Result<Half, NoMemory> {
    if lengths.len() <= 1 {
        let outputs = match lengths.first() {
            Some(length) => *length,
            None => 0,
        };
        return Ok(Half {
            total: None,
            outputs,
            end: before,
        });
    }
    let (front, back) = lengths.split_at(lengths.len() / 2);
    let left = push_totals(totals, front, before)?;
    let right = push_totals(totals, back, left.end)?;
    let outputs = left.outputs.saturating_add(right.outputs);
    let place = totals.len();
    totals.push(Total {
        before: right.end,
        outputs,
        left: left.total,
        right: right.total,
        least: 0,
        most: outputs,
    })?;
    Ok(Half {
        total: Some(place),
        outputs,
        end: right.end.saturating_add(outputs),
    })
}

/// The totals of the one level, if it is as long as a sum of the agents' counters; else none.
pub fn totals_of(alloc: Global, frame: &Frame, agents: &[Agent]) -> Result<Totals, NoMemory> {
    let mut items = Vec::new(alloc);
    match frame.levels.as_slice() {
        [level] => {
            let lengths = part_lengths(alloc, frame.copies.as_slice(), agents)?;
            let whole = push_totals(&mut items, lengths.as_slice(), 0)?;
            let end = level.outputs()[0].saturating_add(level.len());
            if whole.outputs == level.len() {
                return Ok(Totals {
                    items,
                    start: end.saturating_sub(whole.end),
                });
            }
            Ok(Totals {
                items: Vec::new(alloc),
                start: 0,
            })
        }
        _ => Ok(Totals { items, start: 0 }),
    }
}

impl Totals {
    /// The variable that says that a total is above a value.
    pub fn above(&self, place: usize, value: u32) -> u32
        requires { place < length self.now.items.items }
    {
        self.start
            .saturating_add(self.items[place].before)
            .saturating_add(value)
    }

    /// What a total cannot be below, since its parts cannot.
    pub fn least_of_parts(&self, place: usize) -> u32
        requires { place < length self.now.items.items }
    {
        let total = &self.items[place];
        self.least_of(total.left)
            .saturating_add(self.least_of(total.right))
    }

    /// What a total cannot be below; 0 for a part.
    fn least_of(&self, place: Option<usize>) -> u32 {
        match place {
            Some(total) if total < self.items.len() => self.items[total].least,
            _ => 0,
        }
    }

    /// Takes in what the totals are under an assignment.
    pub fn see(&mut self, assignment: &Assignment, vars: u32)
        requires { length assignment.now ≡ vars }
        ensures { length self.new.items.items ≡ length self.old.items.items }
    {
        for place in 0..self.items.len() {
            let value = self.value(place, assignment, vars);
            if value < self.items[place].most {
                self.items[place].most = value;
            }
        }
    }

    /// The value of a total under an assignment: how many of its outputs are true. They come first.
    fn value(&self, place: usize, assignment: &Assignment, vars: u32) -> u32
        requires place { place < length self.now.items.items }
        requires vars { length assignment.now ≡ vars }
    {
        for value in 0..self.items[place].outputs {
            let var = self.above(place, value);
            if var == 0 || var > vars || !assignment.value(var) {
                return value;
            }
        }
        self.items[place].outputs
    }
}

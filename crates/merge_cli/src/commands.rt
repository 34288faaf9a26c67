ghost use Rattle.std.specs.Prelude.{◌≡◌, ◌≢◌, ℕ, Some, IfSome, IfNone, codes, decimal, slice_get};

use crate::place::{Place, place_in};
use edge::Words;
use merge_model::{AggregatorName, DistanceName};
use report_lines::CONFLICT_LIMIT;
use report_words::number_of;

/// What the words of a command line ask for.
#[derive(Debug, Drop, PartialEq, Eq)]
pub enum Command {
    /// `merge D A CONFLICTS`: merges the text under this distance and this aggregator, with at most
    /// so many conflicts a question; `merge D A` has the usual number.
    Merge(DistanceName, AggregatorName, u64),
    /// `check`: checks a report.
    Check,
    /// `list D A COUNT AFTER`: lists the closest valuations of the text, without AFTER from the
    /// least on.
    List {
        /// The distance.
        distance: DistanceName,
        /// The aggregator.
        aggregator: AggregatorName,
        /// How many valuations are listed at most.
        count: u32,
        /// Where the list begins.
        place: Place,
    },
    /// `bench N`: merges the bench problem with this number.
    Bench(u64),
}

ghost use Rattle.merge_cli.specs.Commands.{IsBenchNumber, IsBudget, IsCount, IsCommand};
ghost use Rattle.merge_cli.specs.Commands.{IsNoCommand, limit_of};

/// How many bytes a problem text may have.
const TEXT_LIMIT: usize = 262_144;

/// The number of conflicts a question where no word gives one.
pub const USUAL_CONFLICTS: u64 = 100_000;

/// How many valuations a list may have.
const COUNT_LIMIT: u64 = 10_000;

/// The greatest number of a bench problem.
const BENCH_LIMIT: u64 = 1_000_000;

/// The command that the words spell.
pub fn command_of(words: &Words) -> Option<Command>
    ensures some { IfSome result (IsCommand words.now) }
    ensures none { IfNone result (IsNoCommand words.now) }
{
    if words.is_empty() {
        return None;
    }
    match words.get(0) {
        "merge" if words.len() == 3 => Some(Command::Merge(
            DistanceName::of_word(words.get(1))?,
            AggregatorName::of_word(words.get(2))?,
            USUAL_CONFLICTS,
        )),
        "merge" if words.len() == 4 => Some(Command::Merge(
            DistanceName::of_word(words.get(1))?,
            AggregatorName::of_word(words.get(2))?,
            conflicts_of(words.get(3))?,
        )),
        "check" if words.len() == 1 => Some(Command::Check),
        "bench" if words.len() == 2 => Some(Command::Bench(bench_of(words.get(1))?)),
        "list" => list_of(words),
        _ => None,
    }
}

/// The list that the words spell, the first of which is `list`.
fn list_of(words: &Words) -> Option<Command>
    requires { slice_get words.now 0 ≡ Some (codes "list") }
    ensures some { IfSome result (IsCommand words.now) }
    ensures none { IfNone result (IsNoCommand words.now) }
{
    if words.len() < 4 {
        return None;
    }
    let distance = DistanceName::of_word(words.get(1))?;
    let aggregator = AggregatorName::of_word(words.get(2))?;
    let count = count_of(words.get(3))?;
    let place = place_in(words)?;
    Some(Command::List {
        distance,
        aggregator,
        count,
        place,
    })
}

/// How many valuations a word asks for.
fn count_of(word: &str) -> Option<u32>
    ensures some { IfSome result (λ n. (word.now ≡ decimal n) × IsCount n) }
    ensures none { IfNone result ((n : ℕ) → IsCount n → word.now ≢ decimal n) }
{
    let count = number_of(word.as_bytes())?;
    if count < 1 || count > COUNT_LIMIT {
        return None;
    }
    Some(count as u32)
}

/// The number of conflicts that a word states.
fn conflicts_of(word: &str) -> Option<u64>
    ensures some { IfSome result (λ n. (word.now ≡ decimal n) × IsBudget n) }
    ensures none { IfNone result ((n : ℕ) → IsBudget n → word.now ≢ decimal n) }
{
    let conflicts = number_of(word.as_bytes())?;
    if conflicts < 1 || conflicts > CONFLICT_LIMIT {
        return None;
    }
    Some(conflicts)
}

/// The number of a bench problem that a word states.
fn bench_of(word: &str) -> Option<u64>
    ensures some { IfSome result (λ n. (word.now ≡ decimal n) × IsBenchNumber n) }
    ensures none { IfNone result ((n : ℕ) → IsBenchNumber n → word.now ≢ decimal n) }
{
    let number = number_of(word.as_bytes())?;
    if number < 1 || number > BENCH_LIMIT {
        return None;
    }
    Some(number)
}

/// The most bytes that a command takes, where there is a limit.
pub fn limit(command: &Command) -> Option<usize>
    ensures { result ≡ limit_of command.now }
{
    match command {
        Command::Merge(..) | Command::List { .. } => Some(TEXT_LIMIT),
        Command::Check | Command::Bench(_) => None,
    }
}

ghost use Rattle.std.specs.Prelude.{◌≡◌, ◌≢◌, ◌⊎◌, ℕ, ◌<◌, ◌≤◌, ◌-◌, ◌^◌, ◌↔◌};
ghost use Rattle.std.specs.Prelude.{List, [], length, take, IfOk, OnErr, IsErrOf};
ghost use Rattle.std.specs.Io.KnownBytes.{Appends, IsAtEnd};
ghost use Rattle.edge.specs.Faults.{Rose};
ghost use Rattle.edge.specs.Streams.{Exceeds, Gave};
ghost use Rattle.merge_cli.specs.Commands.{IsCommand, IsNoCommand, IsProper, limit_of, Reads};
ghost use Rattle.merge_cli.specs.Commands.{ReadsProblem};
ghost use Rattle.merge_cli.specs.Answers.{Answers, Answered, CommandAnswers, TextAnswers};
ghost use Rattle.merge_cli.specs.Answers.{ProblemAnswers, IsReading, IsUnread, IsTooMuch};
ghost use Rattle.merge_cli.specs.Answers.{AsksText, AsksProblem};
ghost use Rattle.merge_cli.specs.Answers.{AsksCheck};
ghost use Rattle.merge_cli.specs.declared.commands.Command.TheVariants.{Bench, Check};
ghost use Rattle.merge_cli.specs.Bench.{BenchAnswers};
ghost use Rattle.merge_cli.specs.Check.{CheckAnswers, GaveUndecided, accepted_text};
ghost use Rattle.merge_cli.specs.Check.{wrong_line_text};
ghost use Rattle.merge_cli.specs.Merge.{MergeAnswers, ReportsMerge, ReportsLack, ReportsSpent};
ghost use Rattle.merge_cli.specs.Merge.{main_vars};
ghost use Rattle.merge_cli.specs.Commands.{merge_of};
ghost use Rattle.merge_cli.specs.Commands.{usual_conflicts};
ghost use Rattle.merge_cli.specs.List.{Listing, ListAnswers, Lists, list_of, reported_by};
ghost use Rattle.merge_cli.specs.List.{bad_after_text};
ghost use Rattle.merge_cli.specs.Places.{IsPlaceOf};
ghost use Rattle.merge_cli.specs.Refusals.{refusal_text, too_long_text};
ghost use Rattle.merge_cli.specs.Rows.{ReadAnswers};
ghost use Rattle.merge_model.specs.declared.problem.Problem.{Problem};
ghost use Rattle.merge_model.specs.Answers.{profile_of};
ghost use Rattle.merge_model.specs.Merging.{LacksModel};
ghost use Rattle.problem_reading.specs.declared.stop.TextFault.{TextFault};
ghost use Rattle.problem_reading.specs.Spelling.{Spelled, FirstFault};
ghost use Rattle.report_lines.specs.declared.kinds.Kind.{Kind};
ghost use Rattle.report_lines.specs.declared.kinds.Kind.TheVariants.{Merged};
ghost use Rattle.report_lines.specs.declared.kinds.RefusedKind.{RefusedKind};
ghost use Rattle.report_lines.specs.Judged.{IsAccepted, IsFirstWrong};
ghost use Rattle.report_lines.specs.Parts.{Asked};
ghost use Rattle.report_lines.specs.Places.{end_number};
ghost use Rattle.report_text.specs.Accepting.{IsBorneOutText};

use crate::benching::bench_reply;
use crate::checking::check_reply;
use crate::commands::{Command, command_of};
use crate::reading::read_reply;
use crate::reply::{Reply, Stop, says};
use crate::status::{NO_MEMORY, READ_FAULT, REFUSED_WORDS, WRITE_FAULT};
use edge::{Sink, Source, Words, send_all};
use std::alloc::Global;

/// How a run ended.
#[derive(Debug, Drop)]
pub struct Outcome {
    /// One of the constants of `status`.
    pub status: u8,
    /// The text that was to be sent.
    pub text: Vec<u8>,
    /// How many bytes of the text the sink took.
    pub sent: usize,
}

/// What the command asks.
fn command_reply<S: Source>(alloc: Global, command: Command, source: &mut S) -> Result<Reply, Stop>
    requires { IsProper command }
    ensures ok { IfOk result (λ reply. Answered (CommandAnswers command)
        (S.left source.old) (S.left source.new) (S.room source.old) (S.room source.new)
        reply.status reply.text.items) }
    ensures err { OnErr result ((bytes : List ℕ) × Gave (S.left source.old) (S.left source.new)
        (S.room source.old) (S.room source.new) bytes) }
    ensures failed { IsErrOf result Stop.Failed
        → Reads command × Rose (S.faults source.old) (S.faults source.new) }
    ensures undecided { IsErrOf result Stop.Failed → command ≡ Check
        → GaveUndecided (S.left source.old) (S.left source.new)
        (S.room source.old) (S.room source.new) }
    ensures faults { S.faults source.old ≤ S.faults source.new }
    ensures quiet { result ≢ Err Stop.Failed
        → S.faults source.new ≡ S.faults source.old }
    ensures unread { ¬ (Reads command) → source.new ≡ source.old }
{
    match command {
        Command::Merge(..) | Command::List { .. } => read_reply(alloc, command, source),
        Command::Check => check_reply(alloc, source),
        Command::Bench(number) => Ok(bench_reply(alloc, number)?),
    }
}

/// What the words ask.
fn reply<S: Source>(alloc: Global, words: &Words, source: &mut S) -> Result<Reply, Stop>
    ensures ok { IfOk result (λ reply. Answered (Answers words.now)
        (S.left source.old) (S.left source.new) (S.room source.old) (S.room source.new)
        reply.status reply.text.items) }
    ensures err { OnErr result ((bytes : List ℕ) × Gave (S.left source.old) (S.left source.new)
        (S.room source.old) (S.room source.new) bytes) }
    ensures failed { IsErrOf result Stop.Failed
        → IsReading words.now × Rose (S.faults source.old) (S.faults source.new) }
    ensures undecided { IsErrOf result Stop.Failed → IsCommand words.now Check
        → GaveUndecided (S.left source.old) (S.left source.new)
        (S.room source.old) (S.room source.new) }
    ensures faults { S.faults source.old ≤ S.faults source.new }
    ensures quiet { result ≢ Err Stop.Failed
        → S.faults source.new ≡ S.faults source.old }
    ensures unread { IsUnread words.now → source.new ≡ source.old }
{
    match command_of(words) {
        None => Ok(says(alloc, REFUSED_WORDS, b"refused words\n")?),
        Some(command) => command_reply(alloc, command, source),
    }
}

/// Sends a reply; status 5 says that a write failed.
fn send<K: Sink>(reply: Reply, sink: &mut K) -> Outcome
    requires { reply.status ≢ 5 }
    ensures text { result.text.items ≡ reply.text.items }
    ensures status { result.status ≢ 5 → result.status ≡ reply.status }
    ensures write_fault { result.status ≡ 5
        → (result.sent < length result.text.items) × Rose (K.faults sink.old) (K.faults sink.new) }
    ensures sent { Appends (K.taken sink.old) (K.taken sink.new)
        (take result.sent result.text.items) }
    ensures whole { result.status ≢ 5 → result.sent ≡ length result.text.items }
    ensures faults { K.faults sink.old ≤ K.faults sink.new }
    ensures quiet { result.status ≢ 5 → K.faults sink.new ≡ K.faults sink.old }
{
    let Reply { status, text } = reply;
    match send_all(sink, text.as_slice()) {
        Ok(()) => {
            let sent = text.len();
            Outcome { status, text, sent }
        }
        Err(sent) => Outcome {
            status: WRITE_FAULT,
            text,
            sent,
        },
    }
}

/// Does all that the program does: answers what the words ask of the text in the source, and sends
/// the answer to the sink. The statuses, in the order in which they are looked for:
///
/// - 2: the words are those of no command; nothing is read.
/// - 4: a read failed, of a report before any answer to it was due; there is no text and the sink
///   is not called.
/// - 1: the text is refused: it has more than 262,144 bytes, or its first fault is named; or a list
///   begins at a place with another number of truth values than the problem has atoms.
/// - 7: the text that is checked is no accepted report, and its first wrong line is named; nothing
///   is read after the piece that shows it.
/// - 8: the constraint or a base has no model; the text is the report that says which.
/// - 3: a question of the search learned as many steps as it might; the text is the report of that.
/// - 0: the text is the report on the merged problem, or the list, or the measure and the verdicts
///   of a bench, or says what kind of report was accepted.
/// - 5: a write failed; the sink took the first `sent` bytes of the text.
/// - 6: memory was refused, at any place before the sending; there is no text and the sink is not
///   called.
pub fn run<S: Source, K: Sink>(
    alloc: Global,
    words: &Words,
    source: &mut S,
    sink: &mut K,
) -> Outcome
    ensures answered { result.status ≢ 4 → result.status ≢ 5 → result.status ≢ 6
        → Answered (Answers words.now) (S.left source.old) (S.left source.new)
        (S.room source.old) (S.room source.new) result.status result.text.items }

    // At a fault of writing the text is that of another status, which this run had reached.
    ensures unsent { result.status ≡ 5 → (wanted : ℕ) × Answered (Answers words.now)
        (S.left source.old) (S.left source.new) (S.room source.old) (S.room source.new)
        wanted result.text.items }

    // Refusals come exactly where they are due, but for a fault or want of memory.
    ensures refused_words { result.status ≢ 5 → result.status ≢ 6
        → (result.status ≡ 2) ↔ IsNoCommand words.now }
    ensures too_long { result.status ≢ 4 → result.status ≢ 5 → result.status ≢ 6
        → ((result.status ≡ 1) × (result.text.items ≡ too_long_text))
        ↔ IsTooMuch words.now (S.room source.old - S.room source.new) }

    // Where the source tells its bytes, the answer is that to these bytes.
    ensures told { (command : Command) (bytes : List ℕ)
        → AsksText (S.left source.old) words.now command bytes
        → result.status ≢ 4 → result.status ≢ 5 → result.status ≢ 6
        → ReadAnswers (limit_of command) (TextAnswers command) (S.left source.new) bytes
        result.status result.text.items }
    ensures refused { (command : Command) (bytes : List ℕ)
        → AsksText (S.left source.old) words.now command bytes
        → (fault : TextFault) → FirstFault bytes fault
        → ¬ (Exceeds (limit_of command) (length bytes))
        → result.status ≢ 4 → result.status ≢ 5 → result.status ≢ 6
        → (result.status ≡ 1) × (result.text.items ≡ refusal_text fault) }
    ensures refused_only { (command : Command) (bytes : List ℕ)
        → AsksText (S.left source.old) words.now command bytes
        → (fault : TextFault) → result.status ≡ 1 → result.text.items ≡ refusal_text fault
        → (first : TextFault) × FirstFault bytes first × (refusal_text first ≡ refusal_text fault) }
    ensures answered_problem { (command : Command) (bytes : List ℕ)
        → AsksText (S.left source.old) words.now command bytes
        → (problem : Problem) → Spelled bytes problem
        → ¬ (Exceeds (limit_of command) (length bytes))
        → result.status ≢ 4 → result.status ≢ 5 → result.status ≢ 6
        → ProblemAnswers command problem result.status result.text.items }
    ensures lacking { (command : Command) (problem : Problem)
        → AsksProblem (S.left source.old) words.now command problem → result.status ≡ 8
        → LacksModel (profile_of problem) }
    ensures lacking_not_merged { (command : Command) (problem : Problem)
        → AsksProblem (S.left source.old) words.now command problem
        → LacksModel (profile_of problem)
        → result.status ≢ 0 }
    ensures merged { (asked : Asked) (problem : Problem)
        → AsksProblem (S.left source.old) words.now (merge_of asked) problem
        → result.status ≡ 0
        → ReportsMerge asked problem result.text.items }
    ensures inconsistent { (asked : Asked) (problem : Problem)
        → AsksProblem (S.left source.old) words.now (merge_of asked) problem
        → result.status ≡ 8
        → ReportsLack asked problem result.text.items }
    ensures gave_up { (asked : Asked) (problem : Problem)
        → AsksProblem (S.left source.old) words.now (merge_of asked) problem
        → result.status ≡ 3
        → ReportsSpent asked problem result.text.items }
    ensures never_gives_up { (asked : Asked) (problem : Problem)
        → AsksProblem (S.left source.old) words.now (merge_of asked) problem
        → 3 ^ main_vars asked problem ≤ asked.conflicts
        → result.status ≢ 3 }

    // Whatever the source tells, a report is an accepted one of some problem, as the words ask for.
    ensures reported { (asked : Asked) → IsCommand words.now (merge_of asked)
        → result.status ≢ 1 → result.status ≢ 4 → result.status ≢ 5 → result.status ≢ 6
        → (problem : Problem) × MergeAnswers asked problem result.status result.text.items }

    // What `merge` reports is accepted, of the kind that its status tells.
    ensures accepted { (asked : Asked) (kind : Kind) → IsCommand words.now (merge_of asked)
        → result.status ≡ end_number kind → IsAccepted result.text.items kind }

    // What `list` answers to the bytes of a source that tells them.
    ensures bad_after { (asked : Listing) (bytes : List ℕ)
        → AsksText (S.left source.old) words.now (list_of asked) bytes
        → (problem : Problem) → Spelled bytes problem
        → ¬ (Exceeds (limit_of (list_of asked)) (length bytes))
        → result.status ≢ 4 → result.status ≢ 5 → result.status ≢ 6
        → ((result.status ≡ 1) × (result.text.items ≡ bad_after_text))
        ↔ (IsPlaceOf problem asked.place → ⊥) }
    ensures listed { (asked : Listing) (problem : Problem)
        → AsksProblem (S.left source.old) words.now (list_of asked) problem
        → result.status ≡ 0
        → Lists asked problem result.text.items }
    ensures list_lacks { (asked : Listing) (problem : Problem)
        → AsksProblem (S.left source.old) words.now (list_of asked) problem
        → result.status ≡ 8
        → ReportsLack (reported_by asked) problem result.text.items }
    ensures list_gave_up { (asked : Listing) (problem : Problem)
        → AsksProblem (S.left source.old) words.now (list_of asked) problem
        → result.status ≡ 3
        → ReportsSpent (reported_by asked) problem result.text.items }
    ensures list_never_gives_up { (asked : Listing) (problem : Problem)
        → AsksProblem (S.left source.old) words.now (list_of asked) problem
        → 3 ^ main_vars (reported_by asked) problem ≤ usual_conflicts
        → result.status ≢ 3 }

    // Whatever the source tells, what `list` answers is a list or a report of some problem, as the
    // words ask for, and a report is accepted, of the kind that its status tells.
    ensures list_answered { (asked : Listing) → IsCommand words.now (list_of asked)
        → result.status ≢ 1 → result.status ≢ 4 → result.status ≢ 5 → result.status ≢ 6
        → (problem : Problem) × ListAnswers asked problem result.status result.text.items }
    ensures list_accepted { (asked : Listing) (kind : Kind) → kind ≢ Merged
        → IsCommand words.now (list_of asked) → result.status ≡ end_number kind
        → IsAccepted result.text.items kind }

    // What `bench` answers; it reads nothing, so no read fails.
    ensures benched { (number : ℕ) → IsCommand words.now (Bench number)
        → result.status ≢ 5 → result.status ≢ 6
        → BenchAnswers number result.status result.text.items }

    // What `check` answers to what any source gave.
    ensures streamed { IsCommand words.now Check
        → result.status ≢ 4 → result.status ≢ 5 → result.status ≢ 6
        → Answered (CommandAnswers Check) (S.left source.old) (S.left source.new)
        (S.room source.old) (S.room source.new) result.status result.text.items }

    // What `check` answers to the bytes of a source that tells them.
    ensures told_check { (bytes : List ℕ) → AsksCheck (S.left source.old) words.now bytes
        → result.status ≢ 4 → result.status ≢ 5 → result.status ≢ 6
        → CheckAnswers bytes result.status result.text.items }
    ensures checked { (bytes : List ℕ) → AsksCheck (S.left source.old) words.now bytes
        → result.status ≢ 4 → result.status ≢ 5 → result.status ≢ 6 → (kind : Kind)
        → ((result.status ≡ 0) × (result.text.items ≡ accepted_text kind))
        ↔ IsAccepted bytes kind }
    ensures checked_true { (bytes : List ℕ) → AsksCheck (S.left source.old) words.now bytes
        → result.status ≡ 0 → (kind : Kind) × (result.text.items ≡ accepted_text kind)
        × IsBorneOutText bytes kind }
    ensures refused_report { (bytes : List ℕ) → AsksCheck (S.left source.old) words.now bytes
        → result.status ≢ 4 → result.status ≢ 5 → result.status ≢ 6
        → (line : ℕ) (kind : RefusedKind) → IsFirstWrong bytes line kind
        → (result.status ≡ 7) × (result.text.items ≡ wrong_line_text line kind) }
    ensures refused_report_only { (bytes : List ℕ)
        → AsksCheck (S.left source.old) words.now bytes → result.status ≡ 7
        → (line : ℕ) × (kind : RefusedKind) × IsFirstWrong bytes line kind
        × (result.text.items ≡ wrong_line_text line kind) }

    ensures read_fault { result.status ≡ 4
        → IsReading words.now × Rose (S.faults source.old) (S.faults source.new) }
    ensures read_fault_checked { result.status ≡ 4 → IsCommand words.now Check
        → GaveUndecided (S.left source.old) (S.left source.new)
        (S.room source.old) (S.room source.new) }
    ensures write_fault { result.status ≡ 5
        → (result.sent < length result.text.items) × Rose (K.faults sink.old) (K.faults sink.new) }
    ensures stopped { (result.status ≡ 4) ⊎ (result.status ≡ 6)
        → (result.text.items ≡ []) × (sink.new ≡ sink.old) }

    ensures sent { Appends (K.taken sink.old) (K.taken sink.new)
        (take result.sent result.text.items) }
    ensures whole { result.status ≢ 5 → result.sent ≡ length result.text.items }

    // The source gave some bytes and has those left that it had after them, however the run ended.
    // A problem text that is not too long is read to its end, and so is a report that is accepted.
    // A run that asks no text reads nothing.
    ensures source { (bytes : List ℕ) × Gave (S.left source.old) (S.left source.new)
        (S.room source.old) (S.room source.new) bytes }
    ensures at_end { (command : Command) → IsCommand words.now command → ReadsProblem command
        → ¬ (Exceeds (limit_of command) (S.room source.old - S.room source.new))
        → result.status ≢ 4 → result.status ≢ 6 → IsAtEnd (S.left source.new) }
    ensures at_end_checked { (kind : Kind) → IsCommand words.now Check
        → result.text.items ≡ accepted_text kind → IsAtEnd (S.left source.new) }
    ensures unread { IsUnread words.now → source.new ≡ source.old }

    // A count of faults rises only where the status tells it.
    ensures source_faults { S.faults source.old ≤ S.faults source.new }
    ensures sink_faults { K.faults sink.old ≤ K.faults sink.new }
    ensures quiet_source { result.status ≢ 4 → S.faults source.new ≡ S.faults source.old }
    ensures quiet_sink { result.status ≢ 5 → K.faults sink.new ≡ K.faults sink.old }
{
    match reply(alloc, words, source) {
        Ok(reply) => send(reply, sink),
        Err(Stop::Failed) => Outcome {
            status: READ_FAULT,
            text: Vec::new(alloc),
            sent: 0,
        },
        Err(Stop::NoMemory) => Outcome {
            status: NO_MEMORY,
            text: Vec::new(alloc),
            sent: 0,
        },
    }
}

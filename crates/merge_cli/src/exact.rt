//! That each answer comes exactly where its condition holds, as laws of the table of answers.
ghost use Rattle.std.specs.Prelude.{◌≡◌, ◌≢◌, ℕ, List, Option, length};
ghost use Rattle.edge.specs.Streams.{Exceeds};
ghost use Rattle.merge_model.specs.declared.problem.Problem.{Problem};
ghost use Rattle.merge_model.specs.Answers.{profile_of};
ghost use Rattle.merge_model.specs.Merging.{LacksModel};
ghost use Rattle.merge_cli.specs.declared.commands.Command.{Command};
ghost use Rattle.merge_cli.specs.Commands.{IsCommand, IsNoCommand, limit_of};
ghost use Rattle.bench_problem.specs.Bench.{IsBench};
ghost use Rattle.merge_cli.specs.Bench.{Benches};
ghost use Rattle.merge_cli.specs.List.{Listing, Lists};
ghost use Rattle.merge_cli.specs.Refusals.{too_long_text};
ghost use Rattle.merge_cli.specs.Answers.{Answers, IsTooMuch, ProblemAnswers};

/// Status 2 is the answer exactly where the words are those of no command, and what stops a run is
/// no answer.
pub fn refused_words_are_exact()
    ensures comes { (words : List (List ℕ)) (now : Option (List ℕ)) (read : List ℕ)
        (status : ℕ) (text : List ℕ) → Answers words now read status text
        → IsNoCommand words → status ≡ 2 }
    ensures only { (words : List (List ℕ)) (now : Option (List ℕ)) (read : List ℕ)
        (status : ℕ) (text : List ℕ) → Answers words now read status text
        → status ≡ 2 → IsNoCommand words }
    ensures no_stop { (words : List (List ℕ)) (now : Option (List ℕ)) (read : List ℕ)
        (status : ℕ) (text : List ℕ) → Answers words now read status text
        → (status ≢ 4) × (status ≢ 5) × (status ≢ 6) }
{}

/// `too long` is the answer exactly where the words are those of a command that takes fewer bytes
/// than were read.
pub fn too_long_is_exact()
    ensures comes { (words : List (List ℕ)) (command : Command) (now : Option (List ℕ))
        (read : List ℕ) (status : ℕ) (text : List ℕ) → Answers words now read status text
        → IsCommand words command → Exceeds (limit_of command) (length read)
        → (status ≡ 1) × (text ≡ too_long_text) }
    ensures only { (words : List (List ℕ)) (now : Option (List ℕ)) (read : List ℕ)
        (status : ℕ) (text : List ℕ) → Answers words now read status text
        → status ≡ 1 → text ≡ too_long_text → IsTooMuch words (length read) }
{}

/// A problem whose constraint or one of whose bases has no model is never merged, and only such a
/// problem is said to lack a model. `run` says so of bytes that are told; this is said of the
/// table, and so also of what was read from a source that tells nothing.
pub fn lacking_is_exact()
    ensures only { (command : Command) (problem : Problem) (status : ℕ) (text : List ℕ)
        → ProblemAnswers command problem status text → status ≡ 8
        → LacksModel (profile_of problem) }
    ensures never_merged { (command : Command) (problem : Problem) (status : ℕ) (text : List ℕ)
        → ProblemAnswers command problem status text → status ≡ 0
        → LacksModel (profile_of problem) → ⊥ }
{}

/// A problem has one list for each place and number: so `more` is its last line exactly where
/// another closest valuation is above the last one.
pub fn list_is_exact()
    ensures { (asked : Listing) (problem : Problem) (text other : List ℕ)
        → Lists asked problem text → Lists asked problem other → text ≡ other }
{}

/// A bench has one text where it is merged, whichever closest valuations its search finds: every
/// right merge of its problem has the same measure and verdicts.
pub fn bench_is_exact()
    ensures { (number : ℕ) (problem second : Problem) (text other : List ℕ)
        → IsBench number problem → IsBench number second
        → Benches number problem text → Benches number second other → text ≡ other }
{}

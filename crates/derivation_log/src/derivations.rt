//! A main list of clauses, and the steps that follow it.
ghost use Rattle.std.specs.Prelude.{◌≡◌, ◌+◌, ◌<◌, ◌≤◌, ◌-◌, map, [], ◌∷◌, ◌++◌, length, slice_get};
ghost use Rattle.std.specs.Prelude.{Some, IfOk, OnOk, OnErr};
ghost use Rattle.clause_store.specs.Lits.{InRange};
ghost use Rattle.clause_store.specs.Limits.{clause_limit};
ghost use Rattle.derivation_log.specs.Logs.{known_of, IsSound};
ghost use Rattle.derivation_log.specs.StepLines.{HasLine};
ghost use Rattle.derivation_log.specs.Trimming.{IsTrimmed, IsSameStep, AreUsed};
ghost use Rattle.std.specs.List.{AllByRecursion, AllZip};

use crate::step::{Chain, Step, StepKind};
use crate::trimming::{keep_rows, marks_of, new_numbers, places_of};
use clause_store::{Clause, ClauseList};
use edge::NoMemory;
use std::alloc::Global;
use std::marker::Model;

/// What the log keeps of a step beside its clause, which stands in the list of known clauses.
#[derive(Drop)]
pub struct Row {
    pub kind: StepKind,
    pub first: u64,
    pub chain: Chain,
}

/// A log: a main list of clauses and a list of steps, which grows at its end alone. The clauses of
/// both stand in one list.
#[derive(Drop)]
pub struct Derivations {
    known: ClauseList,
    main: u64,
    rows: Vec<Row>,
}

impl Model for Derivations {
    ghost use Rattle.std.specs.Prelude.{◌≡◌, ◌+◌, length, take, drop};
    ghost use Rattle.derivation_log.specs.Logs.{Log};
    ghost use Rattle.derivation_log.specs.Rows.{steps_of};

    ghost Value = { Log };

    ghost view = { λ d.
        record {
          main = take d.main d.known.list;
          vars = d.known.vars;
          steps = steps_of
              (drop d.main d.known.list) d.rows.items;
        } };

    ghost invariant = { λ d. length d.known.list ≡ d.main + length d.rows.items };
}

impl Derivations {
    /// The log of no step over a main list.
    pub fn new(alloc: Global, main: ClauseList) -> Derivations
        ensures { result ≡ record { main = main.list; vars = main.vars; steps = [] } }
    {
        let count = main.len();
        Derivations {
            known: main,
            main: count,
            rows: Vec::new(alloc),
        }
    }

    /// The main clauses followed by the steps' clauses.
    pub fn known(&self) -> &ClauseList
        ensures { result.now ≡ record { list = known_of self.now; vars = self.now.vars } }
    {
        &self.known
    }

    /// The number of main clauses, which is the first step's number.
    pub fn main_len(&self) -> u64
        ensures { result ≡ length self.now.main }
    {
        self.main
    }

    /// Appends a step and answers its number. `NoMemory` for want of memory: nothing is appended
    /// then.
    pub fn append(&mut self, step: Step) -> Result<u64, NoMemory>
        requires { InRange self.old.vars step.clause }
        ensures number { IfOk result (λ k. k ≡ length (known_of self.old)) }
        ensures small { IfOk result (λ k. k < clause_limit) }
        ensures ok { OnOk result
            (self.new ≡ record self.old { steps = self.old.steps ++ step ∷ [] }) }
        ensures err { OnErr result (self.new ≡ self.old) }
    {
        self.rows.reserve(1)?;
        let number = self.known.add_clause(&step.clause)?;
        self.rows.push(Row {
            kind: step.kind,
            first: step.first,
            chain: step.chain,
        })?;
        Ok(number)
    }

    /// The kind of the step of a number.
    pub fn kind(&self, number: u64) -> StepKind
        requires main { length self.now.main ≤ number }
        requires known { number < length (known_of self.now) }
        ensures { slice_get (map (λ s. s.kind) self.now.steps) (number - length self.now.main) ≡
            Some result }
    {
        self.rows[(number - self.main) as usize].kind
    }

    /// The step of a number, copied; `NoMemory` for want of memory. Where the steps follow,
    /// `write_step` takes it.
    pub fn step(&self, alloc: Global, number: u64) -> Result<Step, NoMemory>
        requires main { length self.now.main ≤ number }
        requires known { number < length (known_of self.now) }
        ensures step { IfOk result (λ step. slice_get self.now.steps
            (number - length self.now.main) ≡ Some step) }
        ensures line { IsSound self.now.main self.now.steps → IfOk result (HasLine number) }
    {
        let _ = (self.known.len(), self.known.vars());
        let clause = Clause::from_sorted(alloc, self.known.clause(number))?;
        let row = &self.rows[(number - self.main) as usize];
        let links = row.chain.as_slice().to_vec(alloc)?;
        Ok(Step {
            kind: row.kind,
            clause,
            first: row.first,
            chain: Chain::from_vec(links),
        })
    }
}

/// A log of which the steps that are needed are left.
#[derive(Drop)]
pub struct TrimmedLog {
    /// The main list as it was, and these steps.
    pub derivations: Derivations,
    /// The new numbers of the steps that were named, in order.
    pub numbers: Vec<u64>,
}

/// Leaves of a sound log exactly the steps that are needed for the named ones: these, and what they
/// use, directly or through others. They stay in their order and are numbered anew without gaps.
/// `NoMemory` for want of memory.
pub fn trim(alloc: Global, derivations: Derivations, needed: &[u64]) -> Result<TrimmedLog, NoMemory>
    requires steps { AllByRecursion
        (λ n. (length derivations.main ≤ n) × (n < length (known_of derivations))) needed.now }
    requires sound { IsSound derivations.main derivations.steps }
    ensures trimmed { IfOk result
        (λ log. IsTrimmed derivations needed.now log.derivations log.numbers.items) }
    ensures sound { IfOk result (λ log. IsSound log.derivations.main log.derivations.steps) }
    ensures named { IfOk result
        (λ log. AllZip (IsSameStep derivations log.derivations) needed.now log.numbers.items) }
    ensures used { IfOk result (λ log. AreUsed log.derivations log.numbers.items) }
{
    let Derivations {
        mut known,
        main,
        mut rows,
    } = derivations;
    let _ = known.len();
    let marks = marks_of(alloc, main, &rows, needed)?;
    let places = places_of(alloc, main, &marks)?;
    let numbers = new_numbers(alloc, main, &places, needed)?;
    known.keep(main, &marks);
    keep_rows(&mut rows, main, &marks, &places);
    Ok(TrimmedLog {
        derivations: Derivations { known, main, rows },
        numbers,
    })
}

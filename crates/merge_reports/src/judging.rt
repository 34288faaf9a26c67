//! The answer where each formula has a model.
ghost use Rattle.std.specs.Prelude.{◌≡◌, ◌<◌, length, MatchResult};
ghost use Rattle.cdcl_core.specs.Replies.{IsLonger};
ghost use Rattle.distance_search.specs.Results.{IsConsistent, IsBestFor, IsBest};
ghost use Rattle.merge_reports.specs.Found.{IsRuled, AreRuled, IsFound, IsEnded};

use crate::outcome::Found;
use crate::proving::{proofs_of, push_far};
use agent_copies::Counted;
use aggregators::Levelled;
use distance_search::{Away, Best, Entails, Questions, Search, SearchStop, Subject};
use merge_model::{Answer, Sequence, Verdict};
use report_lines::Proof;
use std::alloc::Global;

/// The verdict on a query, where `best` is a best answer; the proofs of it are appended.
fn judge<D: Counted + Drop, A: Levelled + Drop>(
    search: &mut Search<D, A>,
    best: &Best,
    query: usize,
    proofs: &mut Vec<Proof>,
) -> Result<Verdict, SearchStop>
    requires query { query < length search.old.subject.problem.asks }
    requires best { IsBestFor (⟦<Subject<D, A> as Questions>⟧.setting search.old.subject) best.now }
    ensures subject { search.new.subject ≡ search.old.subject }
    ensures longer { IsLonger search.old.engine.log search.new.engine.log }
    ensures answer { MatchResult result
        (λ verdict. IsRuled
        (⟦<Subject<D, A> as Questions>⟧.setting search.old.subject) search.new.engine.log
        best.now.values query proofs.old.items proofs.new.items verdict)
        (λ stop. IsEnded search.new.engine.log search.old.subject.budget stop) }
{
    match search.entails(best, query)? {
        Entails::Yes(step) => {
            proofs.push(Proof::Holds(query, step))?;
            Ok(Verdict::Yes)
        }
        Entails::No(Away { shown, far }) => {
            push_far(proofs, query + 1, far.as_slice())?;
            Ok(Verdict::No(shown))
        }
    }
}

/// The verdict on each query, in order, where `best` is a best answer; the proofs of them are
/// appended.
fn judge_all<D: Counted + Drop, A: Levelled + Drop>(
    alloc: Global,
    search: &mut Search<D, A>,
    best: &Best,
    proofs: &mut Vec<Proof>,
) -> Result<Vec<Verdict>, SearchStop>
    requires { IsBestFor (⟦<Subject<D, A> as Questions>⟧.setting search.old.subject) best.now }
    ensures subject { search.new.subject ≡ search.old.subject }
    ensures longer { IsLonger search.old.engine.log search.new.engine.log }
    ensures answer { MatchResult result
        (λ verdicts. AreRuled
        (⟦<Subject<D, A> as Questions>⟧.setting search.old.subject) search.new.engine.log
        best.now.values proofs.old.items proofs.new.items verdicts.items)
        (λ stop. IsEnded search.new.engine.log search.old.subject.budget stop) }
{
    let mut verdicts = Vec::new(alloc);
    for query in 0..search.problem().asks.len() {
        let verdict = judge(search, best, query, proofs)?;
        verdicts.push(verdict)?;
    }
    Ok(verdicts)
}

/// The verdict on each query, in order, where `best` is a best answer, with the proofs of both.
fn judged<D: Counted + Drop, A: Levelled + Drop>(
    alloc: Global,
    search: &mut Search<D, A>,
    best: &Best,
) -> Result<(Vec<Verdict>, Vec<Proof>), SearchStop>
    requires { IsBest (⟦<Subject<D, A> as Questions>⟧.setting search.old.subject)
        search.old.engine.log best.now }
    ensures subject { search.new.subject ≡ search.old.subject }
    ensures answer { MatchResult result
        (λ found. IsFound
        (⟦<Subject<D, A> as Questions>⟧.setting search.old.subject) search.new.engine.log
        (Answer.Merged best.now.shown best.now.measure found.0.items) found.1.items)
        (λ stop. IsEnded search.new.engine.log search.old.subject.budget stop) }
{
    let mut proofs = proofs_of(alloc, best)?;
    let verdicts = judge_all(alloc, search, best, &mut proofs)?;
    Ok((verdicts, proofs))
}

/// The answer that is made of a best answer and the verdicts.
fn merge_of(best: Best, verdicts: Vec<Verdict>) -> Answer
    ensures { result ≡ Answer.Merged best.shown best.measure verdicts.items }
{
    let Best { shown, measure, .. } = best;
    Answer::Merged {
        best: shown,
        measure,
        verdicts: Sequence::from_vec(verdicts),
    }
}

/// A closest model and a verdict on each query, where the constraint and each base have a model.
pub fn merged<D: Counted + Drop, A: Levelled + Drop>(
    alloc: Global,
    search: &mut Search<D, A>,
) -> Result<Found, SearchStop>
    requires { IsConsistent (⟦<Subject<D, A> as Questions>⟧.setting search.old.subject) }
    ensures subject { search.new.subject ≡ search.old.subject }
    ensures answer { MatchResult result
        (λ found. IsFound
        (⟦<Subject<D, A> as Questions>⟧.setting search.old.subject) search.new.engine.log
        found.answer found.proofs.items)
        (λ stop. IsEnded search.new.engine.log search.old.subject.budget stop) }
{
    let best = search.best()?;
    let (verdicts, proofs) = judged(alloc, search, &best)?;
    Ok(Found {
        answer: merge_of(best, verdicts),
        proofs,
    })
}

//! Worked merges by way of all valuations.
use merge_model::{
    AggregatorName, Answer, DistanceName, ENUMERATION_LIMIT, Problem, Verdict, merge_named,
};
use problem_reading::read_problem;
use std::alloc::Global;
use std::test::Fail;

/// Whether the one verdict of an answer is yes; `None` where there is not just one.
fn is_yes(answer: &Answer) -> Option<bool> {
    match answer {
        Answer::Merged { verdicts, .. } => match verdicts.as_slice() {
            [verdict] => Some(matches!(verdict, Verdict::Yes)),
            _ => None,
        },
        _ => None,
    }
}

fn entailed(alloc: Global, aggregator: AggregatorName, problem: &Problem) -> Option<bool> {
    if problem.atoms.len() > ENUMERATION_LIMIT {
        return None;
    }
    let answer = merge_named(alloc, DistanceName::Hamming, aggregator, problem).ok()?;
    is_yes(&answer)
}

/// Whether the merge of the problem by the Hamming distance entails its one query.
fn entails(alloc: Global, aggregator: AggregatorName, text: &str) -> Option<bool> {
    let problem = read_problem(alloc, text.as_bytes()).ok()?;
    entailed(alloc, aggregator, &problem)
}

const TWO_ASK_B: &str = "atoms a b\nagent p : a\nagent q : !a\nask b";

const TWO_ASK_NOT_B: &str = "atoms a b\nagent p : a\nagent q : !a\nask !b";

const THIRD: &str = "atoms a b\nagent r : b\nask b";

const ALL: &str = "atoms a b\nagent p : a\nagent q : !a\nagent r : b\nask b";

/// By the maximum p and q together allow both values of b, and r alone asks for b: they agree on b.
/// All three together still allow that b is false.
#[test]
fn the_maximum_breaks_ic6_and_the_sum_does_not(rt: HostRuntime) -> Result<(), Fail> {
    let alloc = rt.alloc();
    let entailed = [
        entails(alloc, AggregatorName::Max, TWO_ASK_B),
        entails(alloc, AggregatorName::Max, TWO_ASK_NOT_B),
        entails(alloc, AggregatorName::Max, THIRD),
        entails(alloc, AggregatorName::Max, ALL),
        entails(alloc, AggregatorName::Sum, ALL),
    ];
    let want = [
        Some(false),
        Some(false),
        Some(true),
        Some(false),
        Some(true),
    ];
    assert_eq!(rt; entailed.as_slice(), want.as_slice());
    Ok(())
}

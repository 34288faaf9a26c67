//! How a run ends where one of its reads or writes fails, at each place where one can.
use edge::{MemorySink, MemorySource, NullSink, PlainSource, Sink, Source, Words};
use merge_cli::{run, status};
use std::alloc::Global;
use std::test::Fail;

const PROBLEM: &[u8] = b"atoms a\nconstraint !a\nagent p : a\nask !a\n";

/// The lines of a report before its log.
const FRONT: &str = "merge-report 1\n\
    distance hamming\n\
    aggregator sum\n\
    conflicts 100000\n\
    atoms a\n\
    constraint !a\n\
    agent p : a\n\
    ask !a\n\
    model 0\n\
    vector 1\n\
    nearest 1\n\
    measure 1\n\
    verdict 1 yes\n\
    main 8 14\n";

fn words_of(alloc: Global, line: &str) -> Result<Words, Fail> {
    let mut words = Words::new(alloc);
    for word in line.split_whitespace() {
        words.push(word)?;
    }
    Ok(words)
}

/// The status and how many bytes were sent.
fn end_of<S: Source, K: Sink>(
    alloc: Global,
    source: &mut S,
    sink: &mut K,
) -> Result<(u8, usize), Fail> {
    let words = words_of(alloc, "merge hamming sum")?;
    let outcome = run(alloc, &words, source, sink);
    Ok((outcome.status, outcome.sent))
}

fn end_into<K: Sink>(alloc: Global, sink: &mut K) -> Result<(u8, usize), Fail> {
    let mut source = PlainSource::new(Vec::from_slice(alloc, PROBLEM)?);
    end_of(alloc, &mut source, sink)
}

fn whole_length(alloc: Global) -> Result<usize, Fail> {
    Ok(end_into(alloc, &mut NullSink::new())?.1)
}

/// Reads of 4 bytes at most, of which the one with this number fails.
fn end_with_failing_read(alloc: Global, number: u64) -> Result<(u8, usize), Fail> {
    let bytes = Vec::from_slice(alloc, PROBLEM)?;
    let faults = Vec::from_slice(alloc, &[number])?;
    let mut source = MemorySource::with_faults(bytes, 4, faults);
    end_of(alloc, &mut source, &mut NullSink::new())
}

fn end_with_room(alloc: Global, room: usize) -> Result<(u8, usize), Fail> {
    end_into(alloc, &mut MemorySink::new(alloc, room, 1000)?)
}

/// Writes of 4 bytes at most, of which the one after this many bytes fails.
fn end_with_failing_write(alloc: Global, after: usize) -> Result<(u8, usize), Fail> {
    let number = (after as u64 / 4).saturating_add(1);
    let faults = Vec::from_slice(alloc, &[number])?;
    let mut sink = MemorySink::with_faults(alloc, 10_000, 4, faults)?;
    end_into(alloc, &mut sink)
}

/// Eleven reads give the text, and the twelfth finds its end.
#[test]
fn a_failed_read_sends_nothing(rt: HostRuntime) -> Result<(), Fail> {
    let alloc = rt.alloc();
    for number in 1..=12 {
        assert_eq!(rt;
            end_with_failing_read(alloc, number)?,
            (status::READ_FAULT, 0)
        );
    }
    let end = end_with_failing_read(alloc, 13)?;
    assert_eq!(rt; end, (status::ANSWERED, whole_length(alloc)?));
    Ok(())
}

#[test]
fn a_full_sink_took_what_it_has_room_for(rt: HostRuntime) -> Result<(), Fail> {
    let alloc = rt.alloc();
    let whole = whole_length(alloc)?;
    assert!(rt; whole > 0);
    for room in 0..whole {
        assert_eq!(rt; end_with_room(alloc, room)?, (status::WRITE_FAULT, room));
    }
    assert_eq!(rt; end_with_room(alloc, whole)?, (status::ANSWERED, whole));
    Ok(())
}

#[test]
fn a_failed_write_comes_after_those_before_it(rt: HostRuntime) -> Result<(), Fail> {
    let alloc = rt.alloc();
    let whole = whole_length(alloc)?;
    assert!(rt; whole > 0);
    for sent in (0..whole).step_by(4) {
        let end = end_with_failing_write(alloc, sent)?;
        assert_eq!(rt; end, (status::WRITE_FAULT, sent));
    }
    let end = end_with_failing_write(alloc, 10_000)?;
    assert_eq!(rt; end, (status::ANSWERED, whole));
    Ok(())
}

/// What `check` answers to a report of which the third read of 30 bytes fails.
fn check_of_two_reads(alloc: Global, report: &str) -> Result<(u8, Vec<u8>), Fail> {
    let words = words_of(alloc, "check")?;
    let bytes = Vec::from_slice(alloc, report.as_bytes())?;
    let mut source = MemorySource::new(bytes, 30, 3);
    let outcome = run(alloc, &words, &mut source, &mut NullSink::new());
    Ok((outcome.status, outcome.text))
}

#[test]
fn a_wrong_line_is_refused_before_a_later_read_fails(rt: HostRuntime) -> Result<(), Fail> {
    let alloc = rt.alloc();
    let other = "merge-report 9\ndistance hamming\naggregator sum\nconflicts 100000\natoms a\n";
    let (refused, text) = check_of_two_reads(alloc, other)?;
    assert_eq!(rt; refused, status::REFUSED_REPORT);
    assert_eq!(rt; text.as_slice(), b"refused line 1: form\n".as_slice());
    let (failed, text) = check_of_two_reads(alloc, FRONT)?;
    assert_eq!(rt; failed, status::READ_FAULT);
    assert!(rt; text.is_empty());
    Ok(())
}

//! What sources give and sinks take.
ghost use Rattle.std.specs.Prelude.{◌<◌};

use edge::{
    Failed, MemorySink, MemorySource, NoMemory, PlainSource, PlannedSink, ReadStop, Sink, Source,
    StdSink, StdSource, read_all, send_all,
};
use std::alloc::Global;
use std::io::{self, Cursor, ErrorKind, Read, Write};
use std::test::Fail;

/// Gives one byte a read and fails once, after so many bytes.
#[derive(Drop)]
struct FailsOnce {
    left: u32,
    fails_after: Option<u32>,
}

impl Read for FailsOnce {
    fn read(&mut self, into: &mut [u8]) -> io::Result<usize> {
        if self.fails_after == Some(0) {
            self.fails_after = None;
            return Err(ErrorKind::Other.into());
        }
        self.fails_after = self.fails_after.map(|count| count.saturating_sub(1));
        if self.left == 0 || into.is_empty() {
            return Ok(0);
        }
        self.left -= 1;
        into[0] = b'a';
        Ok(1)
    }
}

/// Takes at most so many bytes a write, or fails at each; counts its flushes, of which one fails.
#[derive(Drop)]
struct Flushed {
    takes: Option<usize>,
    flushes: u32,
    failing_flush: u32,
}

impl Write for Flushed {
    fn write(&mut self, piece: &[u8]) -> io::Result<usize> {
        match self.takes {
            None => Err(ErrorKind::Other.into()),
            Some(most) => Ok(piece.len().min(most)),
        }
    }

    fn flush(&mut self) -> io::Result<()> {
        self.flushes = self.flushes.saturating_add(1);
        if self.flushes == self.failing_flush {
            return Err(ErrorKind::Other.into());
        }
        Ok(())
    }
}

/// How many bytes a source gives up to its end, or what stops it.
fn count_of<S: Source>(
    alloc: Global,
    source: &mut S,
    limit: Option<usize>,
) -> Result<usize, ReadStop> {
    let bytes = read_all(alloc, source, limit)?;
    Ok(bytes.len())
}

/// How many bytes of "agent" come in pieces where one read fails, or what stops them.
fn count_in_pieces(
    alloc: Global,
    piece: usize,
    fail_at: u64,
    limit: Option<usize>,
) -> Result<usize, ReadStop>
    requires { 0 < piece }
{
    let bytes = Vec::from_slice(alloc, b"agent").or(Err(ReadStop::NoMemory))?;
    let mut source = MemorySource::new(bytes, piece, fail_at);
    count_of(alloc, &mut source, limit)
}

/// Whether a plain source gives all of "agent".
fn plain_gives_all(alloc: Global) -> Result<bool, NoMemory> {
    let mut source = PlainSource::new(Vec::from_slice(alloc, b"agent")?);
    Ok(gives_agent(alloc, &mut source))
}

fn gives_agent<S: Source>(alloc: Global, source: &mut S) -> bool {
    match read_all(alloc, source, None) {
        Ok(bytes) => bytes.as_slice() == b"agent".as_slice(),
        Err(_) => false,
    }
}

#[test]
fn reads_to_the_end_the_limit_or_the_fault(rt: HostRuntime) -> Result<(), Fail> {
    let alloc = rt.alloc();
    let got = [
        count_in_pieces(alloc, 1, 0, None),
        count_in_pieces(alloc, 2, 0, Some(5)),
        count_in_pieces(alloc, 9, 0, Some(4)),
        count_in_pieces(alloc, 2, 2, None),
        count_in_pieces(alloc, 2, 4, None),
        count_in_pieces(alloc, 2, 5, None),
    ];
    let want = [
        Ok(5),
        Ok(5),
        Err(ReadStop::TooLong),
        Err(ReadStop::Failed),
        Err(ReadStop::Failed),
        Ok(5),
    ];
    assert_eq!(rt; got.as_slice(), want.as_slice());
    assert!(rt; plain_gives_all(alloc)?);
    Ok(())
}

/// What three readings to the end give of "agent" where the first read and the third fail.
fn planned_counts(alloc: Global) -> Result<[Result<usize, ReadStop>; 3], NoMemory> {
    let bytes = Vec::from_slice(alloc, b"agent")?;
    let faults = Vec::from_slice(alloc, &[1, 3])?;
    let mut source = MemorySource::with_faults(bytes, 2, faults);
    Ok(three_counts(alloc, &mut source))
}

fn three_counts<S: Source>(alloc: Global, source: &mut S) -> [Result<usize, ReadStop>; 3] {
    [
        count_of(alloc, source, None),
        count_of(alloc, source, None),
        count_of(alloc, source, None),
    ]
}

/// Whether sending "agent" stops after so many bytes, and the sink has taken these then.
fn stops_after(sink: &mut PlannedSink, count: usize, taken: &[u8]) -> bool {
    send_all(sink, b"agent") == Err(count) && sink.as_slice() == taken
}

/// Whether the second write fails, and then one that finds no room.
fn planned_writes_stop(alloc: Global) -> Result<bool, NoMemory> {
    let faults = Vec::from_slice(alloc, &[2])?;
    let mut sink = MemorySink::with_faults(alloc, 6, 2, faults)?;
    Ok(stops_after(&mut sink, 2, b"ag") && stops_after(&mut sink, 4, b"agagen"))
}

#[test]
fn planned_calls_fail(rt: HostRuntime) -> Result<(), Fail> {
    let alloc = rt.alloc();
    // Each read that fails gives nothing.
    let want = [Err(ReadStop::Failed), Err(ReadStop::Failed), Ok(3)];
    assert_eq!(rt; planned_counts(alloc)?.as_slice(), want.as_slice());
    assert!(rt; planned_writes_stop(alloc)?);
    Ok(())
}

/// What a read of at most five bytes answers, and the bytes that it gives before zeros.
fn read_piece<S: Source>(source: &mut S) -> (Result<usize, Failed>, [u8; 5]) {
    let mut piece = [0u8; 5];
    (source.read(&mut piece), piece)
}

/// What an output answers to nothing and to "agent".
fn answers<W: Write>(output: &mut W) -> (Result<usize, Failed>, Result<(), usize>) {
    let mut sink = StdSink::new(output);
    (sink.write(b""), send_all(&mut sink, b"agent"))
}

#[test]
fn streams_pass_on_what_the_system_gives(rt: HostRuntime) -> Result<(), Fail> {
    let mut source = StdSource::new(Cursor::new(b"atoms a".as_slice()));
    let (first, piece) = read_piece(&mut source);
    let (second, _) = read_piece(&mut source);
    let (third, _) = read_piece(&mut source);
    assert_eq!(rt; (first, second, third), (Ok(5), Ok(2), Ok(0)));
    assert_eq!(rt; piece, *b"atoms");

    let mut text = Vec::new(rt.alloc());
    let got = answers(&mut text);
    assert_eq!(rt;
        (got, text.as_slice()),
        ((Ok(0), Ok(())), b"agent".as_slice())
    );
    Ok(())
}

/// What an output answers that takes at most so many bytes a write, or fails at each, and whose
/// flush with a number fails; and how many flushes come.
fn answers_and_flushes(
    takes: Option<usize>,
    failing_flush: u32,
) -> (Result<usize, Failed>, Result<(), usize>, u32) {
    let mut output = Flushed {
        takes,
        flushes: 0,
        failing_flush,
    };
    let (nothing, agent) = answers(&mut output);
    (nothing, agent, output.flushes)
}

#[test]
fn a_stream_is_flushed_after_each_write(rt: HostRuntime) {
    let got = [
        answers_and_flushes(Some(3), 0),
        answers_and_flushes(Some(3), 1),
        answers_and_flushes(Some(3), 2),
        answers_and_flushes(Some(0), 0),
        answers_and_flushes(None, 0),
    ];
    let want = [
        (Ok(0), Ok(()), 2),
        (Ok(0), Err(0), 1),
        (Ok(0), Err(3), 2),
        (Ok(0), Err(0), 0),
        (Ok(0), Err(0), 0),
    ];
    assert_eq!(rt; got.as_slice(), want.as_slice());
}

#[test]
fn a_reader_that_fails_midway_stops_reading(rt: HostRuntime) -> Result<(), Fail> {
    let mut source = StdSource::new(FailsOnce {
        left: 5,
        fails_after: Some(2),
    });
    // The failed read gives nothing, and three bytes are left.
    let stopped = count_of(rt.alloc(), &mut source, None);
    let rest = count_of(rt.alloc(), &mut source, None);
    let end = source.read(&mut [0u8; 1]);
    assert_eq!(rt; (stopped, rest, end), (Err(ReadStop::Failed), Ok(3), Ok(0)));
    Ok(())
}

//! Streams that are followed in groups: the order in which lines are read, answered, committed and sent.

ghost use Rattle.std.specs.Prelude.{⊤};

use fm_dimacs::out::Over;
use fm_io::committer::{Committer, NotCommitted};
use fm_io::group_commit::{MOST_LINES, StreamFault, follow_in_groups};
use fm_io::read_ahead::ReadAhead;
use fm_io::responder::Responder;
use fm_io::source::{Input, Source};
use fm_records::refusal::Refusal;
use std::alloc::Global;
use std::cell::Cell;
use std::io::{self, BufReader, Read, Write};
use std::test::Fail;

// What happened, each event a decimal digit: a read, a line that was answered, a commit, and a flush of the sink.
const READ: u64 = 1;

const LINE: u64 = 2;

const COMMIT: u64 = 3;

const SENT: u64 = 4;

fn happens(events: &Cell<u64>, event: u64) {
    events.set(events.get().wrapping_mul(10).wrapping_add(event));
}

// A reader that gives so many bytes at each read, while it has them.
#[derive(Drop)]
struct Pieces<'a> {
    events: &'a Cell<u64>,
    bytes: &'a [u8],
    most: usize,
}

impl Read for Pieces<'_> {
    fn read(&mut self, piece: &mut [u8]) -> io::Result<usize> {
        happens(self.events, READ);
        let n = piece.len().min(self.most).min(self.bytes.len());
        let (front, back) = self.bytes.split_at(n);
        piece[..n].copy_from_slice(front);
        self.bytes = back;
        Ok(n)
    }
}

// A writer that keeps what it is given.
#[derive(Drop)]
struct Keeper<'a> {
    events: &'a Cell<u64>,
    bytes: Vec<u8>,
}

impl Write for Keeper<'_> {
    fn write(&mut self, piece: &[u8]) -> io::Result<usize> {
        self.bytes.extend_from_slice(piece)?;
        Ok(piece.len())
    }

    fn flush(&mut self) -> io::Result<()> {
        happens(self.events, SENT);
        Ok(())
    }
}

// Answers a line by itself, and commits so many times.
#[derive(Drop)]
struct Repeater<'a> {
    events: &'a Cell<u64>,
    alloc: Global,
    commits: u32,
}

impl Responder for Repeater<'_> {
    ghost answers = { λ old line text new. ⊤ };

    fn answer(&mut self, line: &[u8]) -> Result<Vec<u8>, Refusal> {
        happens(self.events, LINE);
        let mut text = Vec::new(self.alloc);
        text.extend_from_slice(line)?;
        text.push(b'\n')?;
        Ok(text)
    }
}

impl Committer for Repeater<'_> {
    ghost commits = { λ old new. ⊤ };

    ghost fails = { λ old new. ⊤ };

    fn commit(&mut self) -> Result<(), NotCommitted> {
        happens(self.events, COMMIT);
        if self.commits == 0 {
            return Err(NotCommitted);
        }
        self.commits -= 1;
        Ok(())
    }
}

// How a stream that comes in such pieces ended, how many commits were left, and what was sent.
fn followed(
    alloc: Global,
    events: &Cell<u64>,
    commits: u32,
    bytes: &[u8],
    most: usize,
) -> Result<(Result<(), StreamFault>, u32, Vec<u8>), io::Error> {
    let mut responder = Repeater {
        events,
        alloc,
        commits,
    };
    let reader = Pieces {
        events,
        bytes,
        most,
    };
    let mut source = ReadAhead::new(BufReader::new(alloc, reader)?);
    let mut sink = Over::new(Keeper {
        events,
        bytes: Vec::new(alloc),
    });
    let ended = follow_in_groups(alloc, &mut responder, &mut source, &mut sink);
    Ok((ended, responder.commits, sink.into_inner().bytes))
}

// Read five bytes at a time, two lines are there at first, and a part of the third.
const STREAM: &[u8] = b"a\nb\ncd\ne";

#[test]
fn lines_that_are_there_are_committed_once_before_they_are_sent(
    rt: HostRuntime,
) -> Result<(), Fail> {
    let events = Cell::new(0);
    let (ended, commits, sent) = followed(rt.alloc(), &events, 5, STREAM, 5)?;
    assert_eq!(rt; ended, Ok(()));
    assert_eq!(rt; commits, 2);
    assert_eq!(rt;
        sent.as_slice(),
        b"a\nok\nb\nok\ncd\nok\ne\nok\n".as_slice()
    );
    assert_eq!(rt; events.get(), 1_223_412_341_234);
    Ok(())
}

#[test]
fn a_group_whose_commit_failed_is_not_sent(rt: HostRuntime) -> Result<(), Fail> {
    let events = Cell::new(0);
    let (ended, _, sent) = followed(rt.alloc(), &events, 1, STREAM, 5)?;
    assert_eq!(rt; ended, Err(StreamFault::Commit));
    assert_eq!(rt; sent.as_slice(), b"a\nok\nb\nok\n".as_slice());
    assert_eq!(rt; events.get(), 12_234_123);
    Ok(())
}

#[test]
fn a_group_has_a_most_of_lines(rt: HostRuntime) -> Result<(), Fail> {
    let lines = [b'\n'; MOST_LINES + 1];
    let events = Cell::new(0);
    let (ended, commits, sent) = followed(rt.alloc(), &events, 5, &lines, 1_000)?;
    assert_eq!(rt; ended, Ok(()));
    assert_eq!(rt; commits, 3);
    assert_eq!(rt; sent.len(), 4 * (MOST_LINES + 1));
    Ok(())
}

#[test]
fn what_was_read_ahead_of_a_line_is_moved_at_once(rt: HostRuntime) -> Result<(), Fail> {
    let mut source = ReadAhead::new(BufReader::new(rt.alloc(), STREAM)?);
    let mut first = [0u8; 1];
    let mut line = Vec::new(rt.alloc());
    source.take_ahead(&mut line, 9);
    assert!(rt; line.is_empty());
    for _ in 0..5 {
        assert_eq!(rt; source.get(&mut first), Some(1));
    }
    source.take_ahead(&mut line, 0);
    assert!(rt; line.is_empty());
    source.take_ahead(&mut line, 9);
    source.take_ahead(&mut line, 9);
    assert_eq!(rt; line.as_slice(), b"d".as_slice());
    assert_eq!(rt; source.get(&mut first), Some(1));
    assert_eq!(rt; first, *b"\n");
    Ok(())
}

#[test]
fn nothing_is_ahead_of_a_plain_reader(rt: HostRuntime) {
    let mut source = Input::new(STREAM);
    let mut line = Vec::new(rt.alloc());
    source.take_ahead(&mut line, 9);
    assert!(rt; line.is_empty());
}

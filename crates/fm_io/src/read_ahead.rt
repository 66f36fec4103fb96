//! A source that reads ahead, and so knows which lines are there already.
//!
//! The bytes of a line are found in the buffer and moved at once, which costs less than a call for each of them.

ghost use Rattle.std.specs.Prelude.{◌≡◌, ◌≤◌, false, length, take};
ghost use Rattle.std.specs.Io.Buffered.{reader_remaining};
ghost use Rattle.fm_io.specs.Lines.{IsLine};
ghost use Rattle.fm_io.specs.Sources.{MovesAhead};

use crate::source::{Input, LineSource, Source};
use memchr::memchr;
use std::io::{BufRead, BufReader, Read};
use std::marker::Model;

/// A source over a `BufReader`. It reads as much at a time as the buffer takes, and only once that is empty.
#[derive(Debug, Drop)]
pub struct ReadAhead<B> {
    input: Input<B>,
}

impl<B> Model for ReadAhead<B> {
    ghost use Rattle.std.specs.Prelude.{Bool};

    ghost Value = { B × Bool };

    ghost view = { λ a. a.input };
}

impl<B> ReadAhead<B> {
    /// The reader as a source that has not failed.
    pub fn new(reader: B) -> ReadAhead<B>
        ensures { result ≡ (reader, false) }
    {
        ReadAhead {
            input: Input::new(reader),
        }
    }
}

impl<R: Read> Source for ReadAhead<BufReader<R>> {
    ghost remaining = { λ a. reader_remaining R.Read.remaining a.0 };

    ghost has_failed = { λ a. a.1 };

    fn get(&mut self, piece: &mut [u8]) -> Option<usize> {
        self.input.get(piece)
    }

    fn take_ahead(&mut self, line: &mut Vec<u8>, most: usize) {
        move_ahead(&mut self.input.reader, line, most);
    }
}

/// A line is there once its line feed is in the buffer.
impl<R: Read> LineSource for ReadAhead<BufReader<R>> {
    fn has_line(&self) -> bool {
        memchr(b'\n', self.input.reader.buffer()).is_some()
    }
}

// Moves the bytes that the buffer has before its first line feed to the end of the line, at most so many. None are moved if memory runs out.
fn move_ahead<R: Read>(reader: &mut BufReader<R>, line: &mut Vec<u8>, most: usize)
    ensures { MovesAhead (reader_remaining R.remaining reader.old) (reader_remaining R.remaining reader.new)
        line.old.items line.new.items most }
{
    let ahead = reader.buffer();
    let count = before_line_feed(ahead, most);
    if line.extend_from_slice(&ahead[..count]).is_ok() {
        reader.consume(count);
    }
}

// How many bytes there are before the first line feed, at most so many.
fn before_line_feed(bytes: &[u8], most: usize) -> usize
    ensures within { result ≤ length bytes.now }
    ensures most { result ≤ most }
    ensures line { IsLine (take result bytes.now) }
{
    match memchr(b'\n', bytes) {
        Some(place) => place.min(most),
        None => bytes.len().min(most),
    }
}

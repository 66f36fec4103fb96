//! Sources of bytes, which may give a part of what they are asked for, end, or fail.
//!
//! `Input` makes a source of any reader. A read that was interrupted is made again, since that is no failure; one that
//! is interrupted for ever fails. `ReadAhead` is one that also knows which bytes it has already.

ghost use Rattle.std.specs.Prelude.{◌≡◌, ◌≤◌, ◌||◌, ℕ, List, Bool, Option, false, is_none, length, IfSome, MatchOption};
ghost use Rattle.std.specs.Io.KnownBytes.{Keeps};
ghost use Rattle.fm_io.specs.Sources.{SourceGives, MovesAhead};

use crate::interrupts::MOST_INTERRUPTS;
use std::io::{ErrorKind, Read};
use std::marker::Model;

/// What gives bytes.
pub trait Source {
    /// The bytes that it will give, if they are known.
    ghost remaining: { Self → Option (List ℕ) };

    /// Whether it has failed.
    ghost has_failed: { Self → Bool };

    /// Puts its next bytes at the front of the piece, and returns how many. For a piece that is not empty, 0 is the end
    /// of the bytes. None is a failure: then nothing was given.
    fn get(&mut self, piece: &mut [u8]) -> Option<usize>
        ensures within { IfSome result (λ n. n ≤ length piece.new) }
        ensures gives { MatchOption result (Keeps (remaining self.old) (remaining self.new))
            (λ n. SourceGives (remaining self.old) (remaining self.new) n piece.new) }
        ensures fails { has_failed self.new ≡ (has_failed self.old || is_none result) };

    /// Moves what it has already of the bytes before the next line feed to the end of the line, at most so many. It waits
    /// for nothing. None are moved if memory runs out, or if it does not know what it has: so it is unless a source says
    /// otherwise.
    fn take_ahead(&mut self, line: &mut Vec<u8>, most: usize)
        ensures moves { MovesAhead (remaining self.old) (remaining self.new) line.old.items line.new.items most }
        ensures same { has_failed self.new ≡ has_failed self.old }
    {}
}

/// A source that knows lines which it has already.
pub trait LineSource: Source {
    /// Whether it has a whole line already, so that reading this line waits for nothing. No contract rests on it: it
    /// decides only where a group of lines ends, and any answer is right there. False if it does not know.
    fn has_line(&self) -> bool;
}

/// A source over any reader. A read that was interrupted is made again. It fails at the `MOST_INTERRUPTS`-th interrupt of
/// one `get`.
#[derive(Debug, Drop)]
pub struct Input<R> {
    pub(crate) reader: R,
    failed: bool,
}

impl<R> Model for Input<R> {
    ghost use Rattle.std.specs.Prelude.{Bool};

    ghost Value = { R × Bool };

    ghost view = { λ i. (i.reader, i.failed) };
}

impl<R> Input<R> {
    /// The reader as a source that has not failed.
    pub fn new(reader: R) -> Input<R>
        ensures { result ≡ (reader, false) }
    {
        Input {
            reader,
            failed: false,
        }
    }
}

impl<R: Read> Source for Input<R> {
    ghost remaining = { λ i. R.Read.remaining i.0 };

    ghost has_failed = { λ i. i.1 };

    fn get(&mut self, piece: &mut [u8]) -> Option<usize> {
        let count = read_some(&mut self.reader, piece);
        if count.is_none() {
            self.failed = true;
        }
        count
    }
}

// How many bytes the reader puts at the front of the piece; None if it fails, or at the `MOST_INTERRUPTS`-th interrupt.
fn read_some<R: Read>(reader: &mut R, piece: &mut [u8]) -> Option<usize>
    ensures within { IfSome result (λ n. n ≤ length piece.new) }
    ensures gives { MatchOption result (Keeps (R.remaining reader.old) (R.remaining reader.new))
        (λ n. SourceGives (R.remaining reader.old) (R.remaining reader.new) n piece.new) }
{
    for _ in 0..MOST_INTERRUPTS {
        match reader.read(piece) {
            Ok(count) => return Some(count),
            Err(error) => {
                if error.kind() != ErrorKind::Interrupted {
                    return None;
                }
            }
        }
    }
    None
}

//! Reads and writes of descriptors that are set not to block, made to wait as others do.
//!
//! Who starts the program may hand it a pipe or a socket that is set so, since such a setting belongs to the open file and not to a process.
//! A read or a write that would block transfers nothing. It is made again after a pause, which is longer each time.

ghost use Rattle.std.specs.Prelude.{◌≡◌};

use std::io::{self, ErrorKind, Read, Write};
use std::marker::Model;
use std::sync::Wait;
use std::thread;
use std::time::{Clock, Duration};

// The first pause, and the longest, in milliseconds.
const FIRST_PAUSE: u64 = 1;

const LONGEST_PAUSE: u64 = 32;

/// A reader or a writer that waits where it would block. Any other fault is returned at once. It allocates nothing.
#[derive(Debug, Drop)]
pub struct Waiting<'a, R, T> {
    clock: &'a R,
    inner: T,
}

impl<'a, R, T> Model for Waiting<'a, R, T> {
    ghost Value = { T };

    ghost view = { λ w. w.inner };
}

impl<'a, R, T> Waiting<'a, R, T> {
    /// The reader or writer, which waits by this clock.
    pub fn new(clock: &'a R, inner: T) -> Waiting<'a, R, T>
        ensures { result ≡ inner }
    {
        Waiting { clock, inner }
    }
}

impl<R: Clock + Wait, T: Read> Read for Waiting<'_, R, T> {
    ghost remaining = { λ w. T.Read.remaining w };

    fn read(&mut self, piece: &mut [u8]) -> io::Result<usize> {
        let mut pause = FIRST_PAUSE;
        for _ in self.clock.forever() {
            match self.inner.read(piece) {
                Ok(count) => return Ok(count),
                Err(error) => {
                    if error.kind() != ErrorKind::WouldBlock {
                        return Err(error);
                    }
                }
            }
            pause = pause_after(self.clock, pause);
        }
        Err(io::Error::from(ErrorKind::WouldBlock))
    }
}

impl<R: Clock + Wait, T: Write> Write for Waiting<'_, R, T> {
    ghost contents = { λ w. T.Write.contents w };

    fn write(&mut self, piece: &[u8]) -> io::Result<usize> {
        let mut pause = FIRST_PAUSE;
        for _ in self.clock.forever() {
            match self.inner.write(piece) {
                Ok(count) => return Ok(count),
                Err(error) => {
                    if error.kind() != ErrorKind::WouldBlock {
                        return Err(error);
                    }
                }
            }
            pause = pause_after(self.clock, pause);
        }
        Err(io::Error::from(ErrorKind::WouldBlock))
    }

    fn flush(&mut self) -> io::Result<()> {
        self.inner.flush()
    }
}

// Waits for so many milliseconds, and returns how many to wait for the next time.
fn pause_after<R: Clock>(clock: &R, pause: u64) -> u64 {
    thread::sleep(clock, Duration::from_millis(pause));
    pause.saturating_mul(2).min(LONGEST_PAUSE)
}

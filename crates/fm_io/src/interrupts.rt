//! Reads and writes that a signal interrupts, which is no failure: nothing was transferred yet, so they are made again.
//!
//! A reader or writer that is interrupted for ever has to end too, so there is a bound.

ghost use Rattle.std.specs.Prelude.{◌≡◌};

use std::io::{self, ErrorKind, Write};
use std::marker::Model;

/// At which interrupt a read or a write fails instead of being made again. It is as many reads as an input of `MOST_BYTES`
/// takes if each gives one byte, with the one that finds the end.
pub const MOST_INTERRUPTS: u32 = 16_777_217;

/// A writer whose interrupted writes are made again. It fails at the `MOST_INTERRUPTS`-th interrupt of one write: then
/// nothing of that was written. Any other fault of the writer is returned at once.
#[derive(Debug, Drop)]
pub struct Resuming<W> {
    writer: W,
}

impl<W> Model for Resuming<W> {
    ghost Value = { W };

    ghost view = { λ r. r.writer };
}

impl<W> Resuming<W> {
    /// The writer, whose interrupted writes are made again.
    pub fn new(writer: W) -> Resuming<W>
        ensures { result ≡ writer }
    {
        Resuming { writer }
    }

    /// The writer again.
    pub fn into_inner(self) -> W
        ensures { result ≡ self }
    {
        let Resuming { writer } = self;
        writer
    }
}

impl<W: Write> Write for Resuming<W> {
    ghost contents = { λ r. W.Write.contents r };

    fn write(&mut self, piece: &[u8]) -> io::Result<usize> {
        for _ in 0..MOST_INTERRUPTS {
            match self.writer.write(piece) {
                Ok(taken) => return Ok(taken),
                Err(error) => {
                    if error.kind() != ErrorKind::Interrupted {
                        return Err(error);
                    }
                }
            }
        }
        Err(io::Error::from(ErrorKind::Interrupted))
    }

    fn flush(&mut self) -> io::Result<()> {
        self.writer.flush()
    }
}

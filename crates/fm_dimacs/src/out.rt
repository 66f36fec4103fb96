//! Outputs of bytes, which may take a part of what they are given, or fail.
//!
//! Each `put` says how many bytes were accepted, so that after a failure it is known which prefix of a text was
//! written. `Over` makes an output of any writer.

ghost use Rattle.std.specs.Prelude.{◌≡◌, ◌≤◌, ◌||◌, ℕ, List, Bool, Option, false, not, length, take};
ghost use Rattle.std.specs.Io.KnownBytes.{Appends, Keeps};
ghost use Rattle.fm_dimacs.specs.Sending.{fails_at};

use std::io::Write;
use std::marker::Model;

/// What accepts bytes.
pub trait Out {
    /// The bytes that it accepted, if they are known.
    ghost written: { Self → Option (List ℕ) };

    /// Whether it has failed.
    ghost has_failed: { Self → Bool };

    /// Accepts a prefix of the piece, and returns its length. 0 for a piece that is not empty is a failure.
    fn put(&mut self, piece: &[u8]) -> usize
        ensures within { result ≤ length piece.now }
        ensures takes { Appends (written self.old) (written self.new) (take result piece.now) }
        ensures fails { has_failed self.new ≡ (has_failed self.old || fails_at result piece.now) };

    /// Whether a `put` has failed.
    fn failed(&self) -> bool
        ensures { result ≡ has_failed self.now };
}

/// An `Out` over any writer, with 0 for each of its faults. A write that a signal interrupted is one too: a writer whose
/// process takes signals makes those again itself (`Resuming` of `fm_io`).
#[derive(Debug, Drop)]
pub struct Over<W> {
    writer: W,
    failed: bool,
}

impl<W> Model for Over<W> {
    ghost use Rattle.std.specs.Prelude.{Bool};

    ghost Value = { W × Bool };

    ghost view = { λ o. (o.writer, o.failed) };
}

impl<W> Over<W> {
    /// The writer as an `Out` that has not failed.
    pub fn new(writer: W) -> Over<W>
        ensures { result ≡ (writer, false) }
    {
        Over {
            writer,
            failed: false,
        }
    }

    /// The writer again.
    pub fn into_inner(self) -> W
        ensures { result ≡ self.0 }
    {
        let Over { writer, failed: _ } = self;
        writer
    }
}

impl<W: Write> Over<W> {
    /// Flushes all that the writer accepted, and returns whether it did. A writer that cannot has failed.
    pub fn flush(&mut self) -> bool
        ensures keeps { Keeps (W.contents self.old.0) (W.contents self.new.0) }
        ensures fails { self.new.1 ≡ (self.old.1 || not result) }
    {
        let went = self.writer.flush().is_ok();
        if !went {
            self.failed = true;
        }
        went
    }
}

impl<W: Write> Out for Over<W> {
    ghost written = { λ o. W.Write.contents o.0 };

    ghost has_failed = { λ o. o.1 };

    fn put(&mut self, piece: &[u8]) -> usize {
        let taken = self.writer.write(piece).unwrap_or(0);
        if taken == 0 && !piece.is_empty() {
            self.failed = true;
        }
        taken
    }

    fn failed(&self) -> bool {
        self.failed
    }
}

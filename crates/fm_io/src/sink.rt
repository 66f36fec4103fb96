//! Sinks: outputs that can be flushed.

ghost use Rattle.std.specs.Prelude.{◌≡◌, ◌||◌, not};
ghost use Rattle.std.specs.Io.KnownBytes.{Keeps};

use fm_dimacs::out::{Out, Over};
use std::io::Write;

/// What accepts bytes, and flushes them. `Over` makes one of any writer.
pub trait Sink: Out {
    /// Flushes all that was accepted, and returns whether it did. False is a failure.
    fn flush(&mut self) -> bool
        ensures keeps { Keeps (Self.written self.old) (Self.written self.new) }
        ensures fails { Self.has_failed self.new ≡ (Self.has_failed self.old || not result) };
}

impl<W: Write> Sink for Over<W> {
    fn flush(&mut self) -> bool {
        Over::flush(self)
    }
}

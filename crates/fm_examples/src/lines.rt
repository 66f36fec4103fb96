//! Lines of a stream alone: each is answered by itself.

ghost use Rattle.fm_io.specs.Runs.{IsFollowed};
ghost use Rattle.fm_examples.specs.Echoes.{Echoes};

use fm_io::follow::follow;
use fm_io::responder::Responder;
use fm_io::sink::Sink;
use fm_io::source::Source;
use fm_records::refusal::Refusal;
use std::alloc::Global;

/// A responder whose answer to a line depends on that line alone.
#[derive(Drop)]
pub struct Repeater {
    pub alloc: Global,
}

impl Responder for Repeater {
    ghost answers = { λ old line text new. Echoes old line text new };

    fn answer(&mut self, line: &[u8]) -> Result<Vec<u8>, Refusal> {
        let mut text = Vec::new(self.alloc);
        text.extend_from_slice(line)?;
        text.push(b'\n')?;
        Ok(text)
    }
}

/// Answers each line of the stream by itself, until the stream's end.
pub fn echo<S: Source, W: Sink>(
    repeater: &mut Repeater,
    source: &mut S,
    sink: &mut W,
) -> Result<(), Refusal>
    ensures { IsFollowed Echoes result repeater.old repeater.new (record {
      given = S.remaining source.old;
      left = S.remaining source.new;
      source_failed = S.has_failed source.new;
      old = W.written sink.old;
      new = W.written sink.new;
      had_failed = W.has_failed sink.old;
      has_failed = W.has_failed sink.new;
    }) }
{
    follow(repeater.alloc, repeater, source, sink)
}

//! Following a stream: each of its lines is answered before the next is read.
//!
//! A program on the other side writes a line and waits for its answer, so each answer is complete and flushed before
//! anything is waited for. A line that cannot be kept is refused, and does not end the stream.

ghost use Rattle.std.specs.Prelude.{ℕ, List, IsOkUnless};
ghost use Rattle.fm_dimacs.specs.Sending.{IsSent};
ghost use Rattle.fm_io.specs.LineReads.{IsKeptLine};
ghost use Rattle.fm_io.specs.Runs.{IsTaken, IsFollowed};

use crate::lines::{Line, Next, next_line};
use crate::replies::{send_accepted, send_refused};
use crate::responder::Responder;
use crate::sink::Sink;
use crate::source::Source;
use fm_records::refusal::Refusal;
use std::alloc::Global;

/// Answers the lines of a stream, each before the next is read, until its end: the text of a line's answer and then
/// `ok`, or `refusal N`. What follows the last line feed is a line too. A refused line changes nothing, and the next
/// is read. A line of more than 64 MiB, or one for which memory ran out, is refused. BadScript(0) if the source
/// fails, WriteFault if the sink does; then no further line is read.
pub fn follow<D: Responder, S: Source, W: Sink>(
    alloc: Global,
    responder: &mut D,
    source: &mut S,
    sink: &mut W,
) -> Result<(), Refusal>
    ensures { IsFollowed D.answers result responder.old responder.new (record {
      given = S.remaining source.old;
      left = S.remaining source.new;
      source_failed = S.has_failed source.new;
      old = W.written sink.old;
      new = W.written sink.new;
      had_failed = W.has_failed sink.old;
      has_failed = W.has_failed sink.new;
    }) }
{
    let mut line = Vec::new(alloc);
    for count in 0..u64::MAX {
        match next_line(source, &mut line)? {
            Next::End => return Ok(()),
            Next::Last(kept) => return reply(responder, kept, &line, sink),
            Next::Line(kept) => reply(responder, kept, &line, sink)?,
        }
    }
    Err(Refusal::BadScript(0))
}

// Answers a line, of which that is kept.
fn reply<D: Responder, W: Sink>(
    responder: &mut D,
    kept: Line,
    line: &[u8],
    sink: &mut W,
) -> Result<(), Refusal>
    ensures taken { (whole : List ℕ) → IsKeptLine kept whole line.now → (text : List ℕ)
        × IsTaken D.answers responder.old whole text responder.new
        × IsSent result (W.written sink.old) (W.written sink.new) (W.has_failed sink.old) (W.has_failed sink.new) text }
    ensures cause { IsOkUnless result Refusal.WriteFault }
{
    match kept {
        Line::Whole => match responder.answer(line) {
            Ok(text) => send_accepted(sink, &text),
            Err(refusal) => send_refused(sink, refusal),
        },
        Line::TooLong => send_refused(sink, Refusal::BadScript(0)),
        Line::OutOfMemory => send_refused(sink, Refusal::OutOfMemory),
    }
}

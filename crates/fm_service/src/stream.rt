//! Following a stream from its first line to its end.

ghost use Rattle.std.specs.Prelude.{List, Option, None};
ghost use Rattle.fm_records.specs.declared.ops.Op.{Op};
ghost use Rattle.fm_delta.specs.declared.packet.Packet.{Packet};
ghost use Rattle.fm_io.specs.Runs.{IsFollowed};
ghost use Rattle.fm_service.specs.StreamSteps.{Following, StandBehind, Answers};

use crate::stream_service::StreamService;
use fm_io::follow::follow;
use fm_io::sink::Sink;
use fm_io::source::Source;
use fm_records::refusal::Refusal;
use std::alloc::Global;

/// Answers the lines of a stream, each before the next is read, from the line that lists the coordinators to the
/// stream's end. Whatever operations stand behind the packets that are merged, the same behind equal ones, the answers
/// to the lines are written in order, each for the world to which the accepted lines before it lead. A refused line
/// changes nothing. Between two lines the coordinators are renewed once a history has as many entries as `renew_after`,
/// if there is memory for it; the contract says that they may be renewed then, and not that they are. BadScript(0) if
/// the source fails, WriteFault if the sink does; then no further line is read.
pub fn follow_stream<S: Source, W: Sink>(
    alloc: Global,
    renew_after: usize,
    source: &mut S,
    sink: &mut W,
) -> Result<(), Refusal>
    ensures { (behind : Packet → List Op) → StandBehind behind
        → (next : Option Following) × IsFollowed (Answers renew_after behind) result None next (record {
          given = S.remaining source.old;
          left = S.remaining source.new;
          source_failed = S.has_failed source.new;
          old = W.written sink.old;
          new = W.written sink.new;
          had_failed = W.has_failed sink.old;
          has_failed = W.has_failed sink.new;
        }) }
{
    let mut follower = StreamService::new(alloc, renew_after);
    follow(alloc, &mut follower, source, sink)
}

//! Writing a complete text.

ghost use Rattle.std.specs.Prelude.{IsOkUnless};
ghost use Rattle.fm_dimacs.specs.Sending.{IsSent};

use crate::sink::Sink;
use fm_dimacs::write_all::put_all;
use fm_records::refusal::Refusal;

/// Writes the complete text, in as many writes as the sink needs, and flushes it. WriteFault if the sink fails: then
/// it accepted a prefix of the text. O(n).
pub fn send<W: Sink>(sink: &mut W, text: &[u8]) -> Result<(), Refusal>
    ensures sent { IsSent result (W.written sink.old) (W.written sink.new) (W.has_failed sink.old)
        (W.has_failed sink.new) text.now }
    ensures cause { IsOkUnless result Refusal.WriteFault }
{
    put_all(sink, text)?;
    if sink.flush() {
        Ok(())
    } else {
        Err(Refusal::WriteFault)
    }
}

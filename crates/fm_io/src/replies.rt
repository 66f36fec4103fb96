//! What is answered to a line: a text and `ok`, or the number of a refusal, from a fixed text that needs no memory.

ghost use Rattle.std.specs.Prelude.{◌≡◌, ◌++◌, cond, IsOkUnless};
ghost use Rattle.fm_dimacs.specs.Sending.{IsSent};
ghost use Rattle.fm_io.specs.Replies.{accepted_reply, refusal_reply};
ghost use Rattle.fm_io.specs.inner.HeldTexts.{reply_text};

use crate::sending::send;
use crate::sink::Sink;
use fm_dimacs::write_all::put_all;
use fm_records::refusal::Refusal;

/// What is answered to a line.
#[derive(Drop)]
pub(crate) enum LineReply {
    /// A text and `ok`.
    Accepted(Vec<u8>),
    /// Why the line was refused.
    Refused(Refusal),
}

/// Writes what is answered to a line.
pub(crate) fn send_reply<W: Sink>(sink: &mut W, reply: &LineReply) -> Result<(), Refusal>
    ensures sent { IsSent result (W.written sink.old) (W.written sink.new) (W.has_failed sink.old)
        (W.has_failed sink.new) (reply_text reply.now) }
    ensures cause { IsOkUnless result Refusal.WriteFault }
{
    match reply {
        LineReply::Accepted(text) => send_accepted(sink, text),
        LineReply::Refused(refusal) => send_refused(sink, *refusal),
    }
}

/// Appends what is answered to a line, and returns whether there was memory for it. If not, nothing is appended.
pub(crate) fn append_reply(bytes: &mut Vec<u8>, reply: &LineReply) -> bool
    ensures { bytes.new.items ≡ cond result (bytes.old.items ++ reply_text reply.now) bytes.old.items }
{
    match reply {
        LineReply::Accepted(text) => append_both(bytes, text, b"ok\n"),
        LineReply::Refused(refusal) => append_both(bytes, line_of(*refusal).as_bytes(), b""),
    }
}

// Appends both pieces, and returns whether there was memory for them. If not, nothing is appended.
fn append_both(bytes: &mut Vec<u8>, first: &[u8], second: &[u8]) -> bool
    ensures { bytes.new.items ≡ cond result (bytes.old.items ++ (first.now ++ second.now)) bytes.old.items }
{
    let before = bytes.len();
    if bytes.extend_from_slice(first).is_err() {
        return false;
    }
    if bytes.extend_from_slice(second).is_err() {
        bytes.truncate(before);
        return false;
    }
    true
}

/// Writes the text of an accepted line's answer, and `ok`.
pub(crate) fn send_accepted<W: Sink>(sink: &mut W, text: &[u8]) -> Result<(), Refusal>
    ensures sent { IsSent result (W.written sink.old) (W.written sink.new) (W.has_failed sink.old)
        (W.has_failed sink.new) (accepted_reply text.now) }
    ensures cause { IsOkUnless result Refusal.WriteFault }
{
    put_all(sink, text)?;
    send(sink, b"ok\n")
}

/// Writes why a line was refused.
pub(crate) fn send_refused<W: Sink>(sink: &mut W, refusal: Refusal) -> Result<(), Refusal>
    ensures sent { IsSent result (W.written sink.old) (W.written sink.new) (W.has_failed sink.old)
        (W.has_failed sink.new) (refusal_reply refusal) }
    ensures cause { IsOkUnless result Refusal.WriteFault }
{
    send(sink, line_of(refusal).as_bytes())
}

// Why a line was refused.
fn line_of(refusal: Refusal) -> &'static str
    ensures { result.now ≡ refusal_reply refusal }
{
    match refusal {
        Refusal::OutOfMemory => "refusal 1\n",
        Refusal::BadOp(_) => "refusal 2\n",
        Refusal::HistoryFull => "refusal 3\n",
        Refusal::BadInterval => "refusal 4\n",
        Refusal::Trimmed(_) => "refusal 5\n",
        Refusal::BadPacket(_) => "refusal 6\n",
        Refusal::Uncertified => "refusal 7\n",
        Refusal::NoCoordinator => "refusal 8\n",
        Refusal::NoPacket => "refusal 9\n",
        Refusal::InboxFull => "refusal 10\n",
        Refusal::InboxEmpty => "refusal 11\n",
        Refusal::Stuck => "refusal 12\n",
        Refusal::NotMine(_) => "refusal 13\n",
        Refusal::VersionsSpent => "refusal 14\n",
        Refusal::AttemptsSpent => "refusal 15\n",
        Refusal::BadScript(_) => "refusal 16\n",
        Refusal::WriteFault => "refusal 17\n",
        Refusal::BadDimacs(_) => "refusal 18\n",
    }
}

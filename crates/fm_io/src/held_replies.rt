//! Replies that are held back until what their lines changed is committed.

ghost use Rattle.std.specs.Prelude.{◌≡◌, ◌++◌, [], None, true, false, IsOkUnless};
ghost use Rattle.fm_dimacs.specs.Sending.{IsSent};
ghost use Rattle.fm_io.specs.inner.HeldTexts.{reply_text, replies_text};

use crate::group_commit::MOST_ANSWER_BYTES;
use crate::replies::{LineReply, append_reply, send_reply};
use crate::sending::send;
use crate::sink::Sink;
use fm_dimacs::write_all::put_all;
use fm_records::refusal::Refusal;
use std::alloc::Global;

/// The replies to the lines of a group, in their order.
#[derive(Drop)]
pub(crate) struct HeldReplies {
    /// Whether there are any.
    pub(crate) any: bool,
    // One after another.
    bytes: Vec<u8>,
    // The last one, if memory ran out for it among the bytes.
    apart: Option<LineReply>,
}

impl HeldReplies {
    /// None yet. It allocates nothing.
    pub(crate) fn new(alloc: Global) -> HeldReplies
        ensures none { result.any ≡ false }
        ensures empty { replies_text result ≡ [] }
        ensures room { result.apart ≡ None }
    {
        HeldReplies {
            any: false,
            bytes: Vec::new(alloc),
            apart: None,
        }
    }

    /// Adds a reply. If memory runs out for it, it is held apart, as the last one.
    pub(crate) fn add(&mut self, reply: LineReply)
        requires { self.old.apart ≡ None }
        ensures any { self.new.any ≡ true }
        ensures added { replies_text self.new ≡ replies_text self.old ++ reply_text reply }
    {
        self.any = true;
        if !append_reply(&mut self.bytes, &reply) {
            self.apart = Some(reply);
        }
    }

    /// Whether no further line should join: there is no memory for a further reply, or there are enough.
    pub(crate) fn is_full(&self) -> bool
        ensures { result ≡ false → self.now.apart ≡ None }
    {
        self.apart.is_some() || self.bytes.len() >= MOST_ANSWER_BYTES
    }

    /// Writes all replies, and flushes them.
    pub(crate) fn send<W: Sink>(&self, sink: &mut W) -> Result<(), Refusal>
        ensures sent { IsSent result (W.written sink.old) (W.written sink.new) (W.has_failed sink.old)
            (W.has_failed sink.new) (replies_text self.now) }
        ensures cause { IsOkUnless result Refusal.WriteFault }
    {
        match &self.apart {
            None => send(sink, &self.bytes),
            Some(reply) => {
                put_all(sink, &self.bytes)?;
                send_reply(sink, reply)
            }
        }
    }
}

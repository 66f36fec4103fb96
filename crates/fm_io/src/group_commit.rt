//! Following a stream in groups: lines that are there already are answered together, and committed by one commit.
//!
//! Databases call this group commit. The lines of a group are run one after another, then what they changed is
//! committed, and only then their answers are sent. So no answer tells of a change that can still be lost.

ghost use Rattle.std.specs.Prelude.{◌≡◌, ℕ, List};
ghost use Rattle.fm_io.specs.Groups.{IsFollowedInGroups};
ghost use Rattle.fm_io.specs.LineReads.{IsKeptLine};
ghost use Rattle.fm_io.specs.Runs.{IsTaken};
ghost use Rattle.fm_io.specs.inner.HeldTexts.{reply_text, replies_text};
ghost use Rattle.fm_io.specs.inner.GroupSteps.{IsGroup, IsSettled};

use crate::committer::Committer;
use crate::held_replies::HeldReplies;
use crate::lines::{Line, Next, next_line};
use crate::replies::LineReply;
use crate::responder::Responder;
use crate::sink::Sink;
use crate::source::{LineSource, Source};
use fm_records::refusal::Refusal;
use std::alloc::Global;

/// The most lines of a group.
pub const MOST_LINES: usize = 512;

/// From how many bytes of answers on no further line joins a group: 1 MiB.
pub const MOST_ANSWER_BYTES: usize = 1_048_576;

/// Why a stream was not followed to its end.
#[derive(Debug, Clone, Copy, PartialEq, Eq, Drop)]
pub enum StreamFault {
    /// The source failed, or gave more bytes than are counted.
    Source,
    /// The sink failed.
    Sink,
    /// A commit failed. The responder keeps the cause.
    Commit,
}

// Why no further line joined a group.
#[derive(Debug, Clone, Copy, PartialEq, Eq, Drop)]
pub(crate) enum GroupEnd {
    // There are enough lines, or no further one is there yet.
    Open,
    // The stream is at its end.
    AtEnd,
    // The source failed within a line, or gave more bytes than are counted.
    CutOff,
}

// The answers of a group whose lines were run, and why no further line joined it.
#[derive(Drop)]
struct Group {
    held: HeldReplies,
    end: GroupEnd,
}

/// Answers the lines of a stream in groups, until its end. A group is the next line and those after it that are there
/// already, at most `MOST_LINES`, and none once its answers have `MOST_ANSWER_BYTES`. The lines of a group are run in
/// order, what they changed is committed, and then their answers are sent, as `follow` writes them: a text and `ok`,
/// or `refusal N`. Lines are refused as by `follow`, and a refused line changes nothing. Source if the source fails:
/// then the lines before that are committed and their answers sent. Sink if the sink fails. Commit if a commit fails:
/// then no answer of its group is sent. After each of these no further line is read.
pub fn follow_in_groups<D: Committer, S: LineSource, W: Sink>(
    alloc: Global,
    responder: &mut D,
    source: &mut S,
    sink: &mut W,
) -> Result<(), StreamFault>
    ensures { IsFollowedInGroups D.answers D.commits D.fails result responder.old responder.new (record {
      given = S.remaining source.old;
      left = S.remaining source.new;
      source_failed = S.has_failed source.new;
      old = W.written sink.old;
      new = W.written sink.new;
      had_failed = W.has_failed sink.old;
      has_failed = W.has_failed sink.new;
    }) }
{
    for count in 0..u64::MAX {
        let group = answer_group(alloc, responder, source);
        settle(responder, sink, &group.held)?;
        match group.end {
            GroupEnd::Open => {}
            GroupEnd::AtEnd => return Ok(()),
            GroupEnd::CutOff => return Err(StreamFault::Source),
        }
    }
    Err(StreamFault::Source)
}

// Runs the lines of a group: the next line, for which it waits, and those that are there already. It has no sink, so
// nothing is sent here.
fn answer_group<D: Responder, S: LineSource>(
    alloc: Global,
    responder: &mut D,
    source: &mut S,
) -> Group
    ensures { IsGroup D.answers result.end responder.old responder.new (S.remaining source.old)
        (S.remaining source.new) (S.has_failed source.new) result.held.any (replies_text result.held) }
{
    let mut line = Vec::new(alloc);
    let mut held = HeldReplies::new(alloc);
    for count in 0..MOST_LINES {
        match next_line(source, &mut line) {
            Err(_) => return Group {
                held,
                end: GroupEnd::CutOff,
            },
            Ok(Next::End) => return Group {
                held,
                end: GroupEnd::AtEnd,
            },
            Ok(Next::Last(kept)) => {
                held.add(answer_line(responder, kept, &line));
                return Group {
                    held,
                    end: GroupEnd::AtEnd,
                };
            }
            Ok(Next::Line(kept)) => held.add(answer_line(responder, kept, &line)),
        }
        if held.is_full() || !source.has_line() {
            return Group {
                held,
                end: GroupEnd::Open,
            };
        }
    }
    Group {
        held,
        end: GroupEnd::Open,
    }
}

// What the responder answers to a line, of which that is kept.
fn answer_line<D: Responder>(responder: &mut D, kept: Line, line: &[u8]) -> LineReply
    ensures { (whole : List ℕ) → IsKeptLine kept whole line.now
        → IsTaken D.answers responder.old whole (reply_text result) responder.new }
{
    match kept {
        Line::Whole => match responder.answer(line) {
            Ok(text) => LineReply::Accepted(text),
            Err(refusal) => LineReply::Refused(refusal),
        },
        Line::TooLong => LineReply::Refused(Refusal::BadScript(0)),
        Line::OutOfMemory => LineReply::Refused(Refusal::OutOfMemory),
    }
}

// Commits what the lines of a group changed, and then sends their replies. Nothing is done for a group of no lines.
fn settle<D: Committer, W: Sink>(
    responder: &mut D,
    sink: &mut W,
    held: &HeldReplies,
) -> Result<(), StreamFault>
    ensures { IsSettled D.commits D.fails result held.now.any responder.old responder.new (W.written sink.old)
        (W.written sink.new) (W.has_failed sink.old) (W.has_failed sink.new) (replies_text held.now) }
{
    if !held.any {
        return Ok(());
    }
    if responder.commit().is_err() {
        return Err(StreamFault::Commit);
    }
    match held.send(sink) {
        Ok(()) => Ok(()),
        Err(_) => Err(StreamFault::Sink),
    }
}

//! What a line would be answered now, which changes nothing.

ghost use Rattle.std.specs.Prelude.{[], Some, None, IfOk, IsOkUnless};
ghost use Rattle.serde_json.specs.Data.{Data};
ghost use Rattle.fm_script.specs.StreamLines.{IsAskedBy, IsCheckedLine};
ghost use Rattle.fm_service.specs.StreamSteps.{Following, IsVerdict, MayBeRefused, TellsVerdict};
ghost use Rattle.fm_service.specs.Sessions.{SessionAt};

use crate::request_causes::request_cause;
use crate::session::Session;
use crate::verdict_text::verdict_text;
use fm_records::refusal::Refusal;
use fm_script::request::{CheckedLine, CheckedRequest, Request};
use std::alloc::Global;

/// What the line would be answered: `accepted`, or `refused N` and a line with the cause. Refused only if memory runs out. The digits of a
/// packet are read; else it costs look-ups.
pub(crate) fn check_line(session: &Session, line: &CheckedLine) -> Result<Vec<u8>, Refusal>
    ensures ok { (k : Following) (d : Data) → SessionAt session.now k → IsCheckedLine k.named.names d line.now
        → IfOk result (λ text. TellsVerdict (Some k) d text.items) }
    ensures err { IsOkUnless result Refusal.OutOfMemory }
{
    let verdict = verdict_of(session, &line.asked)?;
    verdict_text(session.alloc, line.at, verdict)
}

// The same, as data.
fn verdict_of(session: &Session, asked: &CheckedRequest) -> Result<Option<Refusal>, Refusal>
    ensures ok { (k : Following) (d : Data) → SessionAt session.now k → IsAskedBy k.named.names d asked.now
        → IfOk result (IsVerdict (MayBeRefused (Some k) d)) }
    ensures err { IsOkUnless result Refusal.OutOfMemory }
{
    match asked {
        CheckedRequest::Nothing => Ok(Some(Refusal::BadScript(0))),
        CheckedRequest::Check => Ok(None),
        CheckedRequest::Request(request) => request_cause(session, request),
    }
}

/// What the line would be answered before the coordinators are listed. Refused only if memory runs out.
pub(crate) fn check_first(alloc: Global, line: &CheckedLine) -> Result<Vec<u8>, Refusal>
    ensures ok { (d : Data) → IsCheckedLine [] d line.now → IfOk result (λ text. TellsVerdict None d text.items) }
    ensures err { IsOkUnless result Refusal.OutOfMemory }
{
    verdict_text(alloc, line.at, first_verdict(&line.asked))
}

// The same, as data.
fn first_verdict(asked: &CheckedRequest) -> Option<Refusal>
    ensures { (d : Data) → IsAskedBy [] d asked.now → IsVerdict (MayBeRefused None d) result }
{
    match asked {
        CheckedRequest::Check | CheckedRequest::Request(Request::Open(_)) => None,
        _ => Some(Refusal::BadScript(0)),
    }
}

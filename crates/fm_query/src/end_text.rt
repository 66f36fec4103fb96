//! Which deltas a coordinator keeps, as text.
//!
//! Whoever passes deltas on, or writes them down, has to know where it stopped: after a renewal or a start numbers begin
//! again, and trimmed deltas can be cut no more.

ghost use Rattle.std.specs.Prelude.{◌≡◌, string_bytes, IfOk, IsOkUnless};
ghost use Rattle.fm_delta.specs.Deltas.{end_of};
ghost use Rattle.fm_query.specs.QueryTexts.{end_text};

use fm_coord::coordinator::Coordinator;
use fm_policy::keeper::NetKeeper;
use fm_records::refusal::Refusal;
use std::alloc::Global;

/// `end FLOOR END`, as a line: the number of the first delta that the coordinator keeps, and that of the next one that it
/// will receive. Refused only if memory runs out. O(1).
pub fn end_text<N: NetKeeper>(
    alloc: Global,
    coordinator: &Coordinator<N>,
) -> Result<String, Refusal>
    ensures ok { IfOk result (λ line. string_bytes line
        ≡ end_text coordinator.now.state.deltas.floor (end_of coordinator.now.state.deltas)) }
    ensures err { IsOkUnless result Refusal.OutOfMemory }
{
    let floor = coordinator.floor();
    let end = coordinator.end();
    Ok(format!(in alloc; "end {floor} {end}\n")?)
}

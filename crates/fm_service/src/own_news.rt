//! Which deltas of a coordinator are its own: what a bridge has to keep, since nobody else has it yet.
//!
//! A coordinator passes on what it merged too, so its own deltas and others' are in one row, and only its history says
//! which are which: each entry adds one delta or none. The entries are walked back from the last, so what was sent
//! before costs nothing.

ghost use Rattle.std.specs.Prelude.{◌≡◌, length, drop};
ghost use Rattle.std.specs.Bool.{beq};
ghost use Rattle.std.specs.List.{prefix_len};
ghost use Rattle.fm_coord.specs.Events.{Replica};
ghost use Rattle.fm_coord.specs.States.{Represents};
ghost use Rattle.fm_service.specs.OwnNews as news;
ghost use Rattle.fm_service.specs.inner.OwnRuns.{added_by, AreLatest};

use fm_coord::coordinator::Coordinator;
use fm_coord::entry::{Call, Entry, Range};
use fm_edit::keepers::Keeper;

/// What goes out as a coordinator's own news, if there are any, and up to which delta they have gone out then.
#[derive(Debug, Clone, Copy, PartialEq, Eq, Drop)]
pub(crate) struct OwnNews {
    pub(crate) range: Option<Range>,
    pub(crate) mark: u64,
}

/// What goes out as a coordinator's own news that have gone out up to the mark. O(entries of its history since then).
pub(crate) fn own_news_since(coordinator: &Coordinator<Keeper>, mark: u64) -> OwnNews
    ensures range { (r : Replica) → Represents coordinator.now.state r → result.range ≡ news.own_news_since mark r }
    ensures mark { (r : Replica) → Represents coordinator.now.state r → result.mark ≡ news.own_mark_after mark r }
{
    coordinator.known();
    let end = coordinator.end();
    if mark < coordinator.floor() {
        return OwnNews {
            range: Some(Range::Full),
            mark: end,
        };
    }
    let (from, to) = first_run(coordinator.history(), end, mark);
    OwnNews {
        range: if from < to {
            Some(Range::Interval(from, to))
        } else {
            None
        },
        mark: to,
    }
}

// The first longest run of own deltas from the mark on, of a history that added as many deltas as the end says: the
// number of its first, and that behind its last.
fn first_run(history: &[Entry], end: u64, mark: u64) -> (u64, u64)
    requires { length (added_by history.now) ≡ end }
    ensures { result ≡ news.first_run mark (added_by history.now) }
{
    let from = mark + count_from(history, end, mark, false);
    let to = from + count_from(history, end, from, true);
    (from, to)
}

// How many deltas from the number on are all the coordinator's own, or all others'.
fn count_from(history: &[Entry], end: u64, from: u64, own: bool) -> u64
    requires { length (added_by history.now) ≡ end }
    ensures { result ≡ news.count_from own from (added_by history.now) }
{
    count_first(latest(history, end.saturating_sub(from)), own)
}

// The latest entries, which added as many deltas, or all entries if these added fewer.
fn latest(history: &[Entry], deltas: u64) -> &[Entry]
    ensures { AreLatest history.now deltas result.now }
{
    let mut earlier = history;
    let mut left = deltas;
    while left > 0 {
        let Some((entry, before)) = earlier.split_last() else {
            return history;
        };
        if delta_by(&entry.call).is_some() {
            left -= 1;
        }
        earlier = before;
    }
    &history[earlier.len()..]
}

// How many deltas the first entries added that are all the coordinator's own, or all others'.
fn count_first(entries: &[Entry], own: bool) -> u64
    ensures { result ≡ prefix_len (λ is_own. beq is_own own) (added_by entries.now) }
{
    let mut count = 0u64;
    let mut rest = entries;
    while let Some((entry, further)) = rest.split_first() {
        if let Some(is_own) = delta_by(&entry.call) {
            if is_own != own {
                return count;
            }
            count += 1;
        }
        rest = further;
    }
    count
}

// Whether a call adds a delta, and whether that is the coordinator's own.
fn delta_by(call: &Call) -> Option<bool>
    ensures { result ≡ news.delta_by call.now }
{
    match call {
        Call::Tell(_) | Call::Commit(_) => Some(true),
        Call::Merge(packet) => Some(packet.number == 0),
        Call::Cut(_) | Call::Trim(_) | Call::View => None,
    }
}

//! Whether a closed node's history agrees with its seats' lists, so that what threads did can be trusted afterwards.
//!
//! It shows a linearization of their calls (Herlihy and Wing, 1990), by the order in which they held the lock. Each
//! seat's entries in the history must be its list, in order, and each entry must be of some seat. It only reads, and
//! allocates nothing.
ghost use Rattle.std.specs.Prelude.{◌≡◌, ◌∷◌, ◌<◌, ◌↔◌, ℕ, List, drop, slice_get, Some, IsTrue, IsOk, IfErr, OnOk, MatchOption};
ghost use Rattle.fm_records.specs.declared.refusal.Refusal.TheVariants.{NotMine};
ghost use Rattle.fm_coord.specs.declared.entry.Entry.{Entry as Listed};
ghost use Rattle.fm_fleet.specs.declared.seat.SeatLog.{SeatLog as Log};
ghost use Rattle.fm_fleet.specs.Audits.{of_seat, Matches, IsListed, IsAudited, IsLeastDiffering, IsNotAudited, StandInOne};
ghost use Rattle.fm_fleet.specs.inner.FirstRefusal.{lesser_of};

use crate::closing::Closed;
use crate::seat::SeatLog;
use fm_coord::entry::Entry;
use fm_coord::entry_equality::entries;
use fm_policy::keeper::NetKeeper;
use fm_records::refusal::Refusal;

/// Whether the history after the base agrees with the seats' lists: each seat's entries in order are its list, and
/// each entry belongs to some seat. Then the calls of all seats, each with its answer, form one legal history, each
/// once, in each seat's order. It allocates nothing. O(n m) in entries and seats, times what entries hold. NotMine
/// with the least seat whose list differs, else with the number in the first entry of no seat.
pub fn audit<N: NetKeeper>(closed: &Closed<N>) -> Result<(), Refusal>
    ensures exact { IsOk result ↔ IsAudited
        (drop closed.now.base closed.now.coordinator.state.history) closed.now.logs.items }
    ensures ok { OnOk result (StandInOne closed.now.coordinator.state closed.now.base closed.now.logs.items) }
    ensures err { IfErr result (λ refusal. (k : ℕ) × (refusal ≡ NotMine k)
        × IsNotAudited (drop closed.now.base closed.now.coordinator.state.history) closed.now.logs.items k) }
{
    closed.coordinator.known();
    judge(
        after(closed.coordinator.history(), closed.base),
        closed.logs.as_slice(),
    )
}

// Whether these entries are what the lists say.
fn judge(made: &[Entry], logs: &[SeatLog]) -> Result<(), Refusal>
    ensures exact { IsOk result ↔ IsAudited made.now logs.now }
    ensures err { IfErr result (λ refusal. (k : ℕ) × (refusal ≡ NotMine k) × IsNotAudited made.now logs.now k) }
{
    if let Some(seat) = least_differing(made, logs) {
        return Err(Refusal::NotMine(seat));
    }
    if let Some(by) = first_strange(made, logs) {
        return Err(Refusal::NotMine(by));
    }
    Ok(())
}

// The entries from the place on.
fn after(history: &[Entry], base: usize) -> &[Entry]
    ensures { result.now ≡ drop base history.now }
{
    match history.get(base..) {
        Some(rest) => rest,
        None => &[],
    }
}

// Whether the seat's entries are those of the list.
fn matches(made: &[Entry], log: &SeatLog) -> bool
    ensures { IsTrue result ↔ Matches made.now log.now }
{
    is_log(made, log.seat, log.entries.as_slice())
}

// Whether the seat's entries are these.
fn is_log(made: &[Entry], seat: u32, log: &[Entry]) -> bool
    ensures { IsTrue result ↔ (of_seat seat made.now ≡ log.now) }
{
    let mut rest = log;
    for entry in made {
        match rest_after(seat, entry, rest) {
            Some(left) => rest = left,
            None => return false,
        }
    }
    rest.is_empty()
}

// What is left of a list after an entry. If the entry is the seat's, the list must go on with it.
fn rest_after<'a>(seat: u32, entry: &Entry, log: &'a [Entry]) -> Option<&'a [Entry]>
    ensures { MatchOption result ((es : List Listed) → ¬ (of_seat seat (entry.now ∷ es) ≡ log.now))
        (λ left. (es : List Listed) → (of_seat seat (entry.now ∷ es) ≡ log.now) ↔ (of_seat seat es ≡ left.now)) }
{
    if entry.by != seat {
        return Some(log);
    }
    match log.split_first() {
        Some((first, others)) => {
            if entries(entry, first) {
                Some(others)
            } else {
                None
            }
        }
        None => None,
    }
}

// The least seat whose list is not what the entries have of it.
fn least_differing(made: &[Entry], logs: &[SeatLog]) -> Option<u32>
    ensures { MatchOption result ((i : ℕ) (l : Log) → slice_get logs.now i ≡ Some l → Matches made.now l)
        (λ k. IsLeastDiffering made.now logs.now k) }
{
    let mut least = None;
    for log in logs {
        if !matches(made, log) {
            least = Some(lesser(least, log.seat));
        }
    }
    least
}

// The lesser of two seats, of which the first may be missing.
fn lesser(least: Option<u32>, seat: u32) -> u32
    ensures { result ≡ lesser_of least seat }
{
    match least {
        Some(k) => { if k < seat { k } else { seat } }
        None => seat,
    }
}

// Whether some list is of the seat.
fn is_listed(logs: &[SeatLog], seat: u32) -> bool
    ensures { IsTrue result ↔ IsListed logs.now seat }
{
    for log in logs {
        if log.seat == seat {
            return true;
        }
    }
    false
}

// The first entry that is of no seat.
fn first_strange(made: &[Entry], logs: &[SeatLog]) -> Option<u32>
    ensures { MatchOption result ((i : ℕ) (e : Listed) → slice_get made.now i ≡ Some e → IsListed logs.now e.by)
        (λ by. (place : ℕ) × (e : Listed) × (slice_get made.now place ≡ Some e) × (e.by ≡ by)
        × (¬ (IsListed logs.now by)) × ((i : ℕ) (f : Listed) → i < place → slice_get made.now i ≡ Some f
        → IsListed logs.now f.by)) }
{
    for entry in made {
        if !is_listed(logs, entry.by) {
            return Some(entry.by);
        }
    }
    None
}

//! One more owner of an answer, which must not fail: the call is accepted already.
//!
//! Nothing but the count of owners can run out, near 2^63. Then it waits until another owner is gone.
ghost use Rattle.std.specs.Prelude.{◌≡◌};
ghost use Rattle.fm_coord.specs.Outputs.{reply_to};

use fm_coord::entry::Reply;
use fm_coord::output::CallOutput;
use fm_coord::shared::Shared;
use std::sync::Wait;
use std::thread;

// The same value for one more owner. It waits while no more owners can be counted, of which there may be nearly 2^63:
// at this point the call can no longer be refused.
pub(crate) fn another<T: Drop, R: Wait>(rt: &R, value: &Shared<T>) -> Shared<T>
    ensures { result ≡ value.now }
{
    for _ in rt.forever() {
        if let Ok(shared) = value.share() {
            return shared;
        }
        thread::yield_now();
    }
    unreachable!()
}

/// The answer as a list keeps it, with one more owner of what it holds. It waits as `another` does.
pub fn listed<R: Wait>(rt: &R, answer: &CallOutput) -> Reply
    ensures { result ≡ reply_to answer.now }
{
    match answer {
        CallOutput::Done => Reply::Nothing,
        CallOutput::Packet(packet) => Reply::Packet(another(rt, packet)),
        CallOutput::View(view) => Reply::Seen(view.at, another(rt, &view.knowledge)),
        CallOutput::Admitted(admitted) => Reply::Admitted(another(rt, admitted)),
    }
}

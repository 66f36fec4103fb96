//! Equality of entries: `==` holds exactly if the values are the same.

ghost use Rattle.std.specs.Prelude.{◌≡◌, ◌↔◌, IsTrue};

use crate::entry::{Call, Entry, Reply};

/// Whether two calls are the same. O(n) in what they hold, as all here.
pub fn calls(call: &Call, other: &Call) -> bool
    ensures { IsTrue result ↔ (call.now ≡ other.now) }
{
    call == other
}

/// Whether two replies are the same.
pub fn replies(reply: &Reply, other: &Reply) -> bool
    ensures { IsTrue result ↔ (reply.now ≡ other.now) }
{
    reply == other
}

/// Whether two entries are the same.
pub fn entries(entry: &Entry, other: &Entry) -> bool
    ensures { IsTrue result ↔ (entry.now ≡ other.now) }
{
    entry == other
}

//! Keepers of the network of what is known, so that a coordinator does not depend on how its network is maintained.
//!
//! A network is a view of the knowledge, which a keeper builds again, or edits after each delta (incremental view
//! maintenance: Gupta and Mumick, 1995). A fresh keeper's network is that of the present knowledge. A stale one, such
//! as after a refusal of memory, says nothing of it, and can become fresh again by building.

ghost use Rattle.std.specs.Prelude.{◌≡◌, Bool, true, false, IsTrue, IfOk, OnOk, OnErr};
ghost use Rattle.fm_records.specs.Table.{Table};
ghost use Rattle.fm_records.specs.Ranges.{CanBe};
ghost use Rattle.fm_net.specs.Network.{net_of};
ghost use Rattle.fm_policy.specs.Changes.{Keys};
ghost use Rattle.fm_policy.specs.Keeping.{FollowsAfter};

use crate::changed::Changed;
use fm_know::knowledge::Knowledge;
use fm_lattice::join::OutOfMemory;
use fm_lattice::shared::Shared;
use fm_net::network::Network;
use std::alloc::Global;

/// What maintains the network of a knowledge (incremental view maintenance: Gupta and Mumick, 1995). A keeper is
/// fresh, and its network is the one that is built from what is known; or it is stale, and no clause speaks of its
/// network.
pub trait NetKeeper: Drop {
    /// Whether it is fresh.
    ghost fresh: { Self → Bool };

    /// Whether a fresh one holds the network of the table, and all that it needs to follow deltas: the network alone
    /// does not determine what the next delta makes of it.
    ghost is_for: { Self → Table → Type 0 };

    /// Whether a keeper, fresh or stale, can become fresh for the table from what it keeps.
    ghost follows: { Self → Table → Type 0 };

    /// One that is fresh, for a table, follows that table.
    ghost fresh_follows: { (s : Self) (k : Table) → CanBe k → IsTrue (fresh s) → is_for s k → follows s k };

    /// What becomes of a keeper that takes in a delta with these keys.
    ghost absorbs: { Self → Keys → Self → Type 0 };

    /// Follows the knowledge, which took a delta with these keys in. The caller must ensure that the keeper, if fresh,
    /// was for what was known before. If memory runs out, the keeper is stale; a stale one stays stale.
    fn absorb(
        &mut self,
        alloc: Global,
        now: &Knowledge,
        changed: &Changed,
    ) -> Result<(), OutOfMemory>
        requires { FollowsAfter (fresh self.old) (is_for self.old) now.now changed.now }
        ensures ok { OnOk result (IsTrue (fresh self.new) → is_for self.new now.now) }
        ensures err { OnErr result (fresh self.new ≡ false) }
        ensures stale { fresh self.old ≡ false → fresh self.new ≡ false }
        ensures keeps_up { FollowsAfter true (follows self.old) now.now changed.now → follows self.new now.now }
        ensures absorbs { absorbs self.old changed.now self.new };

    /// Builds the network of the knowledge, after which the keeper is fresh. If memory runs out, it is stale.
    fn rebuild(&mut self, alloc: Global, now: &Knowledge) -> Result<(), OutOfMemory>
        ensures fresh { OnOk result (IsTrue (fresh self.new)) }
        ensures given { OnOk result (is_for self.new now.now) }
        ensures err { OnErr result (fresh self.new ≡ false) };

    /// Makes the network that of the knowledge, from what is kept or by building. The keeper must follow what is
    /// known. If memory runs out, it is stale and still follows it. A fresh keeper is unchanged.
    fn refresh(&mut self, alloc: Global, now: &Knowledge) -> Result<(), OutOfMemory>
        requires { follows self.old now.now }
        ensures fresh { OnOk result (IsTrue (fresh self.new)) }
        ensures given { OnOk result (is_for self.new now.now) }
        ensures err { OnErr result (fresh self.new ≡ false) }
        ensures follows { follows self.new now.now };

    /// Whether the network is the one that is built from what is known.
    fn is_fresh(&self) -> bool
        ensures { result ≡ fresh self.now };

    /// The network. Of a stale keeper it may be any.
    fn network(&self) -> &Network
        ensures { IsTrue (fresh self.now) → (k : Table) → is_for self.now k → result.now ≡ net_of k };

    /// The network, for one more owner: a pointer. It stays as it is while the keeper goes on: a keeper that edits
    /// copies the network first, if another owner has it. Of a stale keeper it may be any. It is refused if no more
    /// owners can be counted.
    fn share(&self) -> Result<Shared<Network>, OutOfMemory>
        ensures { IfOk result (λ network. IsTrue (fresh self.now) → (k : Table) → is_for self.now k
            → network ≡ net_of k) };
}

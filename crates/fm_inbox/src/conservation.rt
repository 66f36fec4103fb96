//! The invariant of an inbox: what was put is what was taken and what is still there.
//!
//! A queue that threads share cannot be looked at while other threads use it. So each port has an account of what was
//! put and taken through it, and the queue keeps the balance at each event. Ports are parts of one right to the queue:
//! who holds all of them knows all that was put, and so what is still there.
ghost use Rattle.std.specs.Prelude.{◌≡◌, ◌≤◌, ◌+◌, [], ◌∷◌, ◌++◌};
ghost use Rattle.fm_inbox.specs.Conservation.{weigh};
ghost use Rattle.fm_inbox.specs.inner.PortAccounts.{account};

use crossbeam_queue::protocol::{Join, Lesson, Outcome, Protocol, Split};
use crossbeam_queue::{Pass, RuledArrayQueue};
use fm_delta::packet::Packet;
use std::collections::LinkedList;

/// What a pass stands for: its parts, how many parts there are in all, and what was put and taken by it. Contracts
/// alone see one; no value of it is made.
pub struct PortAccount {
    pub parts: u64,
    pub whole: u64,
    pub put: LinkedList<Packet>,
    pub taken: LinkedList<Packet>,
}

/// The rule of an inbox.
pub struct PortBalance;

impl Protocol<Packet, PortAccount> for PortBalance {
    ghost use Rattle.std.specs.Prelude.{[]};
    ghost use Rattle.fm_inbox.specs.inner.PortAccounts.{account, IsBalanced};

    ghost holds = { IsBalanced };

    ghost first = { account 1 1 [] [] };
}

/// A queue of packets under the rule.
pub type Queue = RuledArrayQueue<Packet, PortAccount, PortBalance>;

/// The right to use a queue.
pub type QueuePass = Pass<Packet, PortAccount>;

/// There is one part more, which this pass has.
pub struct OneMore;

impl Split<PortAccount> for OneMore {
    ghost use Rattle.std.specs.Prelude.{[], ◌+◌};
    ghost use Rattle.fm_inbox.specs.inner.PortAccounts.{account};

    ghost left = { λ v. account (v.parts + 1) (v.whole + 1) v.put v.taken };

    ghost right = { λ v. account 0 0 [] [] };
}

/// A part of this pass becomes a pass of its own, or is taken back.
pub struct OnePart;

impl Split<PortAccount> for OnePart {
    ghost use Rattle.std.specs.Prelude.{[], ◌-◌};
    ghost use Rattle.fm_inbox.specs.inner.PortAccounts.{account};

    ghost left = { λ v. account (v.parts - 1) v.whole v.put v.taken };

    ghost right = { λ v. account 1 v.whole [] [] };
}

impl Join<PortAccount> for OnePart {
    ghost use Rattle.std.specs.Prelude.{[], ◌+◌, ◌++◌};
    ghost use Rattle.fm_inbox.specs.inner.PortAccounts.{account};

    ghost both = { λ v w. account (v.parts + w.parts) v.whole (v.put ++ w.put) (v.taken ++ w.taken) };

    ghost spent = { account 0 0 [] [] };
}

/// A packet is added at the back. A pass with every part also determines what is there.
pub struct Puts;

impl Outcome<Packet, PortAccount> for Puts {
    ghost then = { λ v x w. w ≡ account v.parts v.whole (v.put ++ x ∷ []) v.taken };
}

impl Lesson<Packet, PortAccount> for Puts {
    ghost fact = { λ v items. (h : _) → v.whole ≤ v.parts → weigh h v.put ≡ weigh h v.taken + weigh h items };
}

/// A packet is removed at the front. A pass with every part also determines what is still there.
pub struct Takes;

impl Outcome<Packet, PortAccount> for Takes {
    ghost then = { λ v x w. w ≡ account v.parts v.whole v.put (v.taken ++ x ∷ []) };
}

impl Lesson<Packet, PortAccount> for Takes {
    ghost fact = { λ v items. (h : _) → v.whole ≤ v.parts → weigh h v.put ≡ weigh h v.taken + weigh h items };
}

//! Closing the inboxes of a fleet, with what each member leaves: no packet may be left in any of them.
//!
//! Each member leaves a port of each inbox, and an inbox closes only with all of them.
ghost use Rattle.std.specs.Prelude.{◌≡◌, ◌+◌, ◌++◌, ◌∷◌, [], List, ℕ, length, map, vec_len, All, IsTrue, IfOk, IfErr, OnOk};
ghost use Rattle.fm_inbox.specs.Ports.{InboxModel, PortModel, IsPortOf, all_put, all_taken};
ghost use Rattle.fm_inbox.specs.Conservation.{SamePackets};
ghost use Rattle.fm_gossip.specs.Passing.{ArePassedOn, passed_at};
ghost use Rattle.fm_gossip.specs.FleetFaults.{may_stop};
ghost use Rattle.fm_gossip.specs.inner.Used.{AreUsed, column};
ghost use Rattle.fm_gossip.specs.inner.Works.{HaveOut};

use crate::early::Early;
use fm_coord::coordinator::Coordinator;
use fm_fleet::owned_port::{OwnedPort, PortPool};
use fm_policy::keeper::NetKeeper;
use fm_records::refusal::Refusal;
use std::alloc::Global;
use std::marker::Model;
use std::sync::Wait;

/// What a member leaves: its coordinator, its ports, by the index of their inboxes, and why it ended early, if it did.
#[derive(Drop)]
pub(crate) struct MemberEnd<N: NetKeeper> {
    pub(crate) coordinator: Coordinator<N>,
    pub(crate) ports: Vec<OwnedPort>,
    pub(crate) early: Option<Early>,
}

impl<N: NetKeeper> Model for MemberEnd<N> {
    ghost use Rattle.std.specs.Prelude.{map, IsTrue, IfSome};
    ghost use Rattle.fm_gossip.specs.inner.EarlyEnds.{may_end};
    ghost use Rattle.fm_gossip.specs.inner.Works.{MemberEndModel, done_work};

    ghost Value = { MemberEndModel };

    ghost view = { λ d. done_work d.coordinator.state (map (λ e. e.port) d.ports.items) d.early };

    ghost invariant = { λ d. IfSome d.early (λ early. IsTrue (may_end early)) };
}

/// Closes each inbox with its ports: each packet that was put was taken once. The coordinators stay with the caller.
/// NotMine(0) if a packet is left; OutOfMemory.
pub(crate) fn close_all<N: NetKeeper + Drop, R: Wait>(
    rt: &R,
    alloc: Global,
    mut inboxes: Vec<PortPool>,
    dones: &mut [MemberEnd<N>],
) -> Result<(), Refusal>
    requires used { AreUsed 0 (map (λ b. b.inbox) inboxes.items)
        (map passed_at (map (λ d. d.state) dones.old)) (map (λ d. d.ports) dones.old) }
    requires count { length inboxes.items ≡ length dones.old }
    requires out { HaveOut (length dones.old) (length dones.old) inboxes.items }
    ensures same { map (λ d. d.state) dones.new ≡ map (λ d. d.state) dones.old }
    ensures passed { OnOk result (ArePassedOn (map passed_at (map (λ d. d.state) dones.old))) }
    ensures cause { IfErr result (λ refusal. IsTrue (may_stop refusal)) }
{
    while let Some(inbox) = inboxes.pop() {
        let mut out = Vec::new(alloc);
        take_last(dones, &mut out)?;
        close_one(rt, inbox, out)?;
    }
    Ok(())
}

// Closes an inbox with all its ports. NotMine(0) if a packet is left.
fn close_one<R: Wait>(rt: &R, inbox: PortPool, out: Vec<OwnedPort>) -> Result<(), Refusal>
    requires ports { All (λ d. IsPortOf inbox.inbox d.port) out.items }
    requires all { vec_len out ≡ inbox.inbox.ports }
    ensures same { OnOk result (SamePackets (all_put (map (λ d. d.port) out.items))
        (all_taken (map (λ d. d.port) out.items))) }
    ensures cause { IfErr result (λ refusal. IsTrue (may_stop refusal)) }
{
    match inbox.close(rt, out) {
        Ok(left) => if left.is_empty() {
            Ok(())
        } else {
            Err(Refusal::NotMine(0))
        },
        Err(_) => unreachable!(),
    }
}

// Takes the last port of each.
fn take_last<N: NetKeeper + Drop>(
    dones: &mut [MemberEnd<N>],
    out: &mut Vec<OwnedPort>,
) -> Result<(), Refusal>
    ensures same { map (λ d. d.state) dones.new ≡ map (λ d. d.state) dones.old }
    ensures taken { OnOk result ((at : ℕ) (bs : List InboxModel) (b : InboxModel)
        → AreUsed at (bs ++ b ∷ []) (map passed_at (map (λ d. d.state) dones.old)) (map (λ d. d.ports) dones.old)
        → AreUsed at bs (map passed_at (map (λ d. d.state) dones.old)) (map (λ d. d.ports) dones.new)
        × (map (λ e. e.port) out.new.items
        ≡ map (λ e. e.port) out.old.items ++ column (length bs) at b (map passed_at (map (λ d. d.state) dones.old)))) }
    ensures cause { IfErr result (λ refusal. IsTrue (may_stop refusal)) }
{
    let Some((first, rest)) = dones.split_first_mut() else {
        return Ok(());
    };
    take_port(&mut first.ports, out)?;
    take_last(rest, out)
}

// Takes the last of the ports, if there is one.
fn take_port(ports: &mut Vec<OwnedPort>, out: &mut Vec<OwnedPort>) -> Result<(), Refusal>
    ensures taken { OnOk result ((qs : List PortModel) (q : PortModel)
        → map (λ e. e.port) ports.old.items ≡ qs ++ q ∷ []
        → (map (λ e. e.port) ports.new.items ≡ qs) × (map (λ e. e.port) out.new.items
        ≡ map (λ e. e.port) out.old.items ++ q ∷ [])) }
    ensures cause { IfErr result (λ refusal. IsTrue (may_stop refusal)) }
{
    let Some(port) = ports.pop() else {
        return Ok(());
    };
    out.push(port)?;
    Ok(())
}

//! Intakes: what a coordinator's first thread does, which tells its operations and exchanges packets with all others.
//!
//! It puts its packet into all other inboxes before it waits for theirs, so no two intakes wait for each other. It
//! awaits one packet of each other coordinator, and merges no other packet: it ends if one comes. It counts the rings of
//! the bell before it looks into its inbox, and waits for one more if that is empty, so that no packet is missed.
ghost use Rattle.std.specs.Prelude.{◌≡◌, ◌+◌, ◌<◌, ◌^◌, ℕ, List, [], ◌∷◌, length, map, cond, vec_len, slice_get, Some, None, IsTrue, IfOk, IfErr, IfSome, OnOk, MatchOption};
ghost use Rattle.fm_inbox.specs.Ports.{InboxModel, after_put, after_take};
ghost use Rattle.fm_gossip.specs.Served.{all_told, IsFirst, IsIntake, AreMerged};
ghost use Rattle.fm_gossip.specs.Passing.{passing, passed_in};
ghost use Rattle.fm_gossip.specs.inner.Used.{new_port, used_ports, put_past, after_takes};
ghost use Rattle.fm_gossip.specs.FleetFaults.{may_stop};
ghost use Rattle.fm_gossip.specs.inner.EarlyEnds.{may_end};

use crate::early::Early;
use crate::stop_signal::StopSignal;
use fm_coord::entry::Range;
use fm_delta::packet::Packet;
use fm_fleet::node::Node;
use fm_fleet::owned_port::OwnedPort;
use fm_fleet::seat::{NodeName, Seat};
use fm_policy::keeper::NetKeeper;
use fm_records::ids::CoordId;
use fm_records::ops::Op;
use fm_records::refusal::Refusal;
use std::sync::Wait;

/// What is to be told, from which others a packet comes, and a port to each inbox; that of its own is at index `place`.
#[derive(Drop)]
pub(crate) struct Intake {
    pub(crate) tells: Vec<Op>,
    pub(crate) senders: Vec<CoordId>,
    pub(crate) place: usize,
    pub(crate) ports: Vec<OwnedPort>,
}

/// What an intake leaves: its seat, its ports, and why it ended early, if it did.
#[derive(Drop)]
pub(crate) struct Taken<L: NodeName> {
    pub(crate) seat: Seat<L>,
    pub(crate) ports: Vec<OwnedPort>,
    pub(crate) early: Option<Early>,
}

/// Tells all, cuts what is then known, puts a copy to each of the others, and merges a packet from each of them. If
/// something is refused, or a packet comes that is not awaited, the fleet is stopped. That packet is not merged, and it
/// is for the closing of the inboxes to refuse it, as one that is left. If the fleet is stopped while it waits for a
/// packet, it ends too.
pub(crate) fn take_in<N: NetKeeper, L: NodeName, R: Wait>(
    rt: &R,
    node: &Node<N, L>,
    mut seat: Seat<L>,
    intake: Intake,
    halt: &StopSignal,
) -> Taken<L>
    requires { intake.place < vec_len intake.ports }
    ensures intake { result.early ≡ None → IsIntake intake.tells.items intake.senders.items seat result.seat }
    ensures ports { result.early ≡ None → (bs : List InboxModel) → seat.log ≡ []
        → map (λ d. d.port) intake.ports.items ≡ map new_port bs
        → map (λ d. d.port) result.ports.items ≡ used_ports intake.place 0 (passed_in result.seat) bs }
    ensures number { result.seat.number ≡ seat.number }
    ensures cause { IfSome result.early (λ early. IsTrue (may_end early)) }
{
    let Intake {
        tells,
        senders,
        place,
        mut ports,
    } = intake;
    match exchange(
        rt, node, &mut seat, &tells, senders, &mut ports, place, halt,
    ) {
        Ok(()) => Taken {
            seat,
            ports,
            early: None,
        },
        Err(early) => {
            halt.stop(rt);
            Taken {
                seat,
                ports,
                early: Some(early),
            }
        }
    }
}

// Tells all, cuts, puts and merges.
#[tactic(auto, using(crate::proofs::Stopping::call_stops, crate::proofs::Stopping::cut_full))]
fn exchange<N: NetKeeper, L: NodeName, R: Wait>(
    rt: &R,
    node: &Node<N, L>,
    seat: &mut Seat<L>,
    tells: &[Op],
    senders: Vec<CoordId>,
    ports: &mut [OwnedPort],
    place: usize,
    halt: &StopSignal,
) -> Result<(), Early>
    requires { place < length ports.old }
    ensures intake { OnOk result (IsIntake tells.now senders.items seat.old seat.new) }
    ensures ports { OnOk result ((bs : List InboxModel) → seat.old.log ≡ []
        → map (λ d. d.port) ports.old ≡ map new_port bs
        → map (λ d. d.port) ports.new ≡ used_ports place 0 (passed_in seat.new) bs) }
    ensures number { seat.new.number ≡ seat.old.number }
    ensures cause { IfErr result (λ early. IsTrue (may_end early)) }
{
    tell_all(rt, node, seat, tells)?;
    let packet = node.cut(rt, seat, Range::Full)?;
    pass_on(rt, node, seat, ports, place, packet.get(), senders, halt)
}

// Tells all operations, in order.
#[tactic(auto, using(crate::proofs::Stopping::call_stops, crate::proofs::Stopping::tell_op))]
fn tell_all<N: NetKeeper, L: NodeName, R: Wait>(
    rt: &R,
    node: &Node<N, L>,
    seat: &mut Seat<L>,
    tells: &[Op],
) -> Result<(), Refusal>
    ensures told { OnOk result (seat.new ≡ all_told seat.old tells.now) }
    ensures number { seat.new.number ≡ seat.old.number }
    ensures cause { IfErr result (λ refusal. IsTrue (may_stop refusal)) }
{
    let mut rest = tells;
    while let Some((op, further)) = rest.split_first() {
        node.tell(rt, seat, *op)?;
        rest = further;
    }
    Ok(())
}

// Puts a copy of the packet to each of the others, and merges a packet of each of them.
fn pass_on<N: NetKeeper, L: NodeName, R: Wait>(
    rt: &R,
    node: &Node<N, L>,
    seat: &mut Seat<L>,
    ports: &mut [OwnedPort],
    place: usize,
    packet: &Packet,
    senders: Vec<CoordId>,
    halt: &StopSignal,
) -> Result<(), Early>
    requires { place < length ports.old }
    ensures merged { OnOk result ((merged : AreMerged senders.items seat.old seat.new)
        × ((bs : List InboxModel) → map (λ d. d.port) ports.old ≡ map new_port bs
        → map (λ d. d.port) ports.new ≡ used_ports place 0 (passing (packet.now ∷ []) merged.packets) bs)) }
    ensures number { seat.new.number ≡ seat.old.number }
    ensures cause { IfErr result (λ early. IsTrue (may_end early)) }
{
    put_all(rt, ports, 0, place, packet)?;
    halt.ring(rt);
    merge_all(rt, node, seat, &mut ports[place], senders, halt)
}

// Puts a copy through each port but the one at the index `own`. The first port is at the index `at`.
fn put_all<R: Wait>(
    rt: &R,
    ports: &mut [OwnedPort],
    at: usize,
    own: usize,
    packet: &Packet,
) -> Result<(), Refusal>
    requires { at + length ports.old < 2 ^ 64 }
    ensures put { OnOk result (map (λ d. d.port) ports.new ≡ put_past own at packet.now (map (λ d. d.port) ports.old)) }
    ensures cause { IfErr result (λ refusal. IsTrue (may_stop refusal)) }
{
    let Some((port, rest)) = ports.split_first_mut() else {
        return Ok(());
    };
    put_unless(rt, at == own, port, packet)?;
    put_all(rt, rest, at + 1, own, packet)
}

// Puts a copy through the port, unless that is the member's own.
fn put_unless<R: Wait>(
    rt: &R,
    is_own: bool,
    port: &mut OwnedPort,
    packet: &Packet,
) -> Result<(), Refusal>
    ensures put { OnOk result (port.new.port ≡ cond is_own port.old.port (after_put port.old.port packet.now)) }
    ensures cause { IfErr result (λ refusal. IsTrue (may_stop refusal)) }
{
    if is_own {
        return Ok(());
    }
    match port.put(rt, packet.copy()?) {
        Ok(()) => Ok(()),
        Err(fault) => Err(fault.refusal),
    }
}

// Merges a packet of each of those that are awaited, as they come. It ends if another packet comes, and leaves it.
#[tactic(auto, using(crate::proofs::Stopping::call_stops, crate::proofs::Stopping::merge_packet))]
fn merge_all<N: NetKeeper, L: NodeName, R: Wait>(
    rt: &R,
    node: &Node<N, L>,
    seat: &mut Seat<L>,
    own: &mut OwnedPort,
    mut awaited: Vec<CoordId>,
    halt: &StopSignal,
) -> Result<(), Early>
    ensures merged { OnOk result ((merged : AreMerged awaited.items seat.old seat.new)
        × (own.new.port ≡ after_takes own.old.port merged.packets)) }
    ensures number { seat.new.number ≡ seat.old.number }
    ensures cause { IfErr result (λ early. IsTrue (may_end early)) }
{
    while !awaited.is_empty() {
        let packet = next_packet(rt, own, halt)?;
        let Some(place) = index_of(&awaited, &packet) else {
            return Err(Early::Left);
        };
        awaited.remove(place);
        node.merge(rt, seat, packet)?;
    }
    Ok(())
}

// The index of the packet's sender among those that are awaited, if the packet is the first that it cut.
fn index_of(awaited: &[CoordId], packet: &Packet) -> Option<usize>
    ensures { MatchOption result
        (IsFirst packet.now → (i : ℕ) → ¬ (slice_get awaited.now i ≡ Some packet.now.sender))
        (λ i. IsFirst packet.now × (slice_get awaited.now i ≡ Some packet.now.sender)) }
{
    if packet.number != 1 {
        return None;
    }
    for i in 0..awaited.len() {
        if awaited[i].value() == packet.sender.value() {
            return Some(i);
        }
    }
    None
}

// A packet, once there is one. It sleeps until the bell rings: a packet that was put after it looked was put before the
// ring that it waits for. Stopped if the fleet is before.
fn next_packet<R: Wait>(rt: &R, own: &mut OwnedPort, halt: &StopSignal) -> Result<Packet, Early>
    ensures taken { IfOk result (λ packet. own.new.port ≡ after_take own.old.port packet) }
    ensures cause { IfErr result (λ early. IsTrue (may_end early)) }
{
    for _ in rt.forever() {
        let rings = halt.rings(rt);
        if let Ok(packet) = own.take(rt) {
            return Ok(packet);
        }
        if halt.wait(rt, rings) {
            return Err(Early::Stopped);
        }
    }
    unreachable!()
}

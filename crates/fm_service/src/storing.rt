//! What of a stream is stored, and what is not stored yet: each coordinator's deltas from its stored mark on.
//!
//! A caller appends what is not stored to a file, or puts all that is known in the place of what the file has, and then marks all as
//! stored. Later it merges what the file has, each packet by the coordinator that is its sender. That this suffices is `law_stored`.

ghost use Rattle.std.specs.Prelude.{◌≡◌, ◌∷◌, [], List, Some, None, map, option_map, IfOk, IfErr, OnErr, OnOk};
ghost use Rattle.std.specs.List.{filter_map};
ghost use Rattle.fm_records.specs.declared.ops.Op.{Op};
ghost use Rattle.fm_records.specs.Know.{table_of};
ghost use Rattle.fm_delta.specs.declared.packet.Packet.{Packet};
ghost use Rattle.fm_coord.specs.Events.{Replica, set_of};
ghost use Rattle.fm_coord.specs.Replays.{seen_packet};
ghost use Rattle.fm_coord.specs.States.{Represents};
ghost use Rattle.fm_world.specs.declared.step.Act.TheVariants as act;
ghost use Rattle.fm_world.specs.Worlds.{cause_of, refusal_of};
ghost use Rattle.fm_world.specs.Represents.{AllStand, state_of};
ghost use Rattle.fm_service.specs.WorldSteps.{step_at};
ghost use Rattle.fm_service.specs.StreamSteps.{Following, StandBehind};
ghost use Rattle.fm_service.specs.Sessions.{SessionAt};
ghost use Rattle.fm_service.specs.Storing as stored;
ghost use Rattle.fm_service.specs.Storing.{numbers_listed, unstored_of, full_packets_of, all_stored, restored, Restores, RestoresUntil};
ghost use Rattle.fm_service.specs.inner.Extents.{packet_by};
ghost use Rattle.fm_service.specs.inner.SetEnds.{ends_set};

use crate::renewing::whole_of;
use crate::session::{Session, news_between};
use fm_coord::coordinator::Coordinator;
use fm_coord::entry::Range;
use fm_delta::packet::Packet;
use fm_edit::keepers::Keeper;
use fm_know::knowledge::Knowledge;
use fm_know::laws::law_can_be;
use fm_lattice::join::OutOfMemory;
use fm_records::ids::CoordId;
use fm_records::refusal::Refusal;
use std::alloc::Global;

/// The coordinators' numbers, in the order in which they were listed.
pub(crate) fn numbers_of(alloc: Global, session: &Session) -> Result<Vec<CoordId>, OutOfMemory>
    ensures { (k : Following) → SessionAt session.now k
        → IfOk result (λ numbers. numbers.items ≡ numbers_listed (Some k)) }
{
    let mut numbers = Vec::new(alloc);
    for coordinator in session.world.coordinators() {
        numbers.push(coordinator.number())?;
    }
    Ok(numbers)
}

// Which packets are made of coordinators.
#[derive(Clone, Copy, Drop)]
pub(crate) enum Extent {
    // Of what is not stored.
    Unstored,
    // Of all that they know.
    Full,
}

/// What is not stored of each coordinator, in the order in which they were listed: a packet for each that has deltas
/// from its stored mark on.
pub(crate) fn unstored_packets(alloc: Global, session: &Session) -> Result<Vec<Packet>, OutOfMemory>
    ensures { (k : Following) → SessionAt session.now k
        → IfOk result (λ packets. packets.items ≡ map seen_packet (unstored_of k)) }
{
    packets_of(alloc, session, Extent::Unstored)
}

/// All that each coordinator knows as a packet, in the order in which they were listed.
pub(crate) fn full_packets(alloc: Global, session: &Session) -> Result<Vec<Packet>, OutOfMemory>
    ensures { (k : Following) → SessionAt session.now k
        → IfOk result (λ packets. packets.items ≡ map seen_packet (full_packets_of k)) }
{
    packets_of(alloc, session, Extent::Full)
}

// The packets of the coordinators, in the order in which they were listed.
fn packets_of(alloc: Global, session: &Session, extent: Extent) -> Result<Vec<Packet>, OutOfMemory>
    ensures { (k : Following) → SessionAt session.now k → IfOk result (λ packets. packets.items
        ≡ map seen_packet (filter_map (packet_by extent k) (numbers_listed (Some k)))) }
{
    let mut packets = Vec::new(alloc);
    for coordinator in session.world.coordinators() {
        if let Some(packet) = packet_at(session, coordinator.number().value(), extent)? {
            packets.push(packet)?;
        }
    }
    Ok(packets)
}

// The packet of the coordinator with the number, if there is one.
fn packet_at(session: &Session, at: u8, extent: Extent) -> Result<Option<Packet>, OutOfMemory>
    ensures { (k : Following) → SessionAt session.now k
        → IfOk result (λ made. made ≡ option_map seen_packet (packet_by extent k at)) }
{
    let Some(coordinator) = session.world.numbered(at) else {
        return Ok(None);
    };
    match extent {
        Extent::Unstored => unstored_packet(coordinator, session.stored_marks[usize::from(at)]),
        Extent::Full => Ok(Some(whole_of(coordinator)?)),
    }
}

// The coordinator's deltas from the mark on as a packet, if there are any; or all that it knows.
fn unstored_packet(
    coordinator: &Coordinator<Keeper>,
    mark: u64,
) -> Result<Option<Packet>, OutOfMemory>
    ensures { (r : Replica) → Represents coordinator.now.state r
        → IfOk result (λ made. made ≡ option_map seen_packet (stored.unstored_packet mark r)) }
{
    if mark >= coordinator.end() {
        return Ok(None);
    }
    let value = value_of(coordinator, unstored_range(coordinator, mark))?;
    Ok(Some(Packet {
        sender: coordinator.number(),
        number: 0,
        value,
    }))
}

// Its deltas from the mark on; or all that it knows, if some of these were trimmed, or if its history has no room for a cut.
fn unstored_range(coordinator: &Coordinator<Keeper>, mark: u64) -> Range
    ensures { (r : Replica) → Represents coordinator.now.state r → result ≡ stored.unstored_range mark r }
{
    if coordinator.history().len() >= coordinator.limit() {
        return Range::Full;
    }
    news_between(mark, coordinator.floor(), coordinator.end())
}

// What a packet of the range says. An interval must be one that can be cut; what is returned of another is no matter.
fn value_of(coordinator: &Coordinator<Keeper>, range: Range) -> Result<Knowledge, OutOfMemory>
    ensures { (r : Replica) → Represents coordinator.now.state r
        → IfOk result (λ value. value ≡ table_of (set_of r range)) }
{
    match range {
        Range::Full => coordinator.knowledge().copy(),
        Range::Interval(_, _) => match coordinator.packet_for(range) {
            Ok(packet) => packet.get().value.copy(),
            Err(_) => Err(OutOfMemory),
        },
    }
}

/// Marks all deltas of each coordinator as stored.
pub(crate) fn mark_all(session: &mut Session)
    ensures { (k : Following) → SessionAt session.old k → SessionAt session.new (all_stored k) }
{
    let mut marks = [0u64; 256];
    set_ends(&mut marks, session.world.coordinators());
    session.stored_marks = marks;
}

// Sets the mark of each coordinator's number to its end; of two coordinators with one number the first counts.
fn set_ends(marks: &mut [u64; 256], coordinators: &[Coordinator<Keeper>])
    ensures { (rs : List Replica) → AllStand (map state_of coordinators.now) rs → marks.new ≡ ends_set rs marks.old }
{
    if let Some((first, rest)) = coordinators.split_first() {
        set_ends(marks, rest);
        marks[usize::from(first.number().value())] = first.end();
    }
}

/// Merges the packets, each by the coordinator that is its sender, and then marks all as stored. Refused as the merge of
/// a packet: NoCoordinator, HistoryFull, OutOfMemory. Then those before it are merged, and nothing is marked.
pub(crate) fn restore(session: &mut Session, packets: Vec<Packet>) -> Result<(), Refusal>
    ensures ok { (behind : Packet → List Op) → StandBehind behind → (k : Following) → SessionAt session.old k
        → OnOk result ((j : Following) × Restores behind k packets.items j × SessionAt session.new j) }
    ensures err { (behind : Packet → List Op) → StandBehind behind → (k : Following) → SessionAt session.old k
        → IfErr result (λ e. (j : Following) × RestoresUntil behind k packets.items e j × SessionAt session.new j) }
{
    for packet in packets {
        merge_own(session, packet)?;
    }
    mark_all(session);
    Ok(())
}

// Merges a packet by the coordinator that is its sender.
fn merge_own(session: &mut Session, packet: Packet) -> Result<(), Refusal>
    ensures ok { (behind : Packet → List Op) → StandBehind behind → (k : Following) → SessionAt session.old k
        → OnOk result (SessionAt session.new (restored behind k (packet ∷ []))) }
    ensures accepted { (k : Following) → SessionAt session.old k
        → OnOk result (cause_of k.world (step_at packet.sender (act.Take packet)) ≡ None) }
    ensures err { (k : Following) → SessionAt session.old k
        → IfErr result (λ e. e ≡ refusal_of k.world (step_at packet.sender (act.Take packet))) }
    ensures unchanged { OnErr result (session.new ≡ session.old) }
{
    law_can_be(&packet.value);
    session.world.take(packet.sender.value(), 0, packet)
}

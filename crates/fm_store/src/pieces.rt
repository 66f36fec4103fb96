//! Pieces: a packet that is too long, as several that are not.
//!
//! What carries packets bounds how long one may be. Two halves of a packet have the first half of each of its lists of records, and the
//! second. The join of lists whose keys rise from one to the next is one list behind the other, so the halves say together what the packet
//! says. Each is halved again until it fits.

ghost use Rattle.std.specs.Prelude.{◌≡◌, ◌≤◌, ◌<◌, ◌-◌, ◌++◌, List, length, max, IfOk, OnOk};
ghost use Rattle.fm_delta.specs.declared.packet.Packet.{Packet as PacketValue};
ghost use Rattle.fm_store.specs.Pieces.{ArePieces, ArePiecesOfEach};
ghost use Rattle.fm_store.specs.inner.Halves.{longest as longest_of, behind_each_other};

use fm_delta::packet::Packet;
use fm_know::knowledge::Knowledge;
use fm_know::laws::law_can_be;
use fm_lattice::chain::Chain;
use fm_lattice::join::{Join, OutOfMemory, copied};
use fm_lattice::map::JoinMap;
use fm_wire::packet_size::packet_size;
use std::alloc::Global;

// A packet with one record of each kind at most has fewer bytes.
const LEAST: usize = 4096;

/// The packets in pieces of at most so many bytes, or 4096 if that is more. A packet that fits is its only piece; else it has several
/// of the same sender and number, each of which says a part. Refused only if memory runs out. Each record is copied as often as
/// its packet is halved until it fits.
pub fn split_packets(packets: Vec<Packet>, most: usize) -> Result<Vec<Packet>, OutOfMemory>
    ensures { IfOk result (λ pieces. ArePiecesOfEach (max most 4096) packets.items pieces.items) }
{
    let bound = most.max(LEAST);
    let mut pieces = Vec::new(*packets.allocator());
    for packet in packets {
        put_pieces(&mut pieces, packet, bound)?;
    }
    Ok(pieces)
}

// Adds the pieces of the packet.
fn put_pieces(pieces: &mut Vec<Packet>, packet: Packet, most: usize) -> Result<(), OutOfMemory>
    requires { 4096 ≤ most }
    ensures { OnOk result ((own : List PacketValue) × ArePieces most packet own × (pieces.new.items ≡ pieces.old.items ++ own)) }
{
    law_can_be(&packet.value);
    if packet_size(&packet.value) <= most as u128 {
        pieces.push(packet)?;
        return Ok(());
    }
    let (front, behind) = halved(*pieces.allocator(), packet)?;
    put_pieces(pieces, front, most)?;
    put_pieces(pieces, behind, most)?;
    Ok(())
}

// The packet as two of its sender and number, with the halves of what it says.
fn halved(alloc: Global, packet: Packet) -> Result<(Packet, Packet), OutOfMemory>
    requires { 2 ≤ longest_of packet.value }
    ensures both { IfOk result (λ x. behind_each_other x.0.value x.1.value ≡ packet.value) }
    ensures shorter { IfOk result (λ x. (longest_of x.0.value < longest_of packet.value)
        × (longest_of x.1.value < longest_of packet.value)) }
    ensures front { IfOk result (λ x. (x.0.sender ≡ packet.sender) × (x.0.number ≡ packet.number)) }
    ensures behind { IfOk result (λ x. (x.1.sender ≡ packet.sender) × (x.1.number ≡ packet.number)) }
{
    let (front, behind) = halves(alloc, &packet.value)?;
    Ok((of_half(&packet, front), of_half(&packet, behind)))
}

// A packet of the sender and number of this one, with a half of what it says.
fn of_half(packet: &Packet, value: Knowledge) -> Packet
    ensures { result ≡ record { sender = packet.now.sender; number = packet.now.number; value = value } }
{
    Packet {
        sender: packet.sender,
        number: packet.number,
        value,
    }
}

// The first half of each list of records, and the second.
fn halves(alloc: Global, value: &Knowledge) -> Result<(Knowledge, Knowledge), OutOfMemory>
    requires { 2 ≤ longest_of value.now }
    ensures both { IfOk result (λ x. behind_each_other x.0 x.1 ≡ value.now) }
    ensures front { IfOk result (λ x. longest_of x.0 < longest_of value.now) }
    ensures behind { IfOk result (λ x. longest_of x.1 < longest_of value.now) }
{
    value.known();
    let middle = longest(value) / 2;
    let jobs = split_map(alloc, value.jobs(), middle)?;
    let tasks = split_map(alloc, value.tasks(), middle)?;
    let machines = split_map(alloc, value.machines(), middle)?;
    let proposals = split_map(alloc, value.proposals(), middle)?;
    let front = Knowledge::of(jobs.0, tasks.0, machines.0, proposals.0);
    let behind = Knowledge::of(jobs.1, tasks.1, machines.1, proposals.1);
    Ok((front, behind))
}

// How many records the longest list has.
fn longest(value: &Knowledge) -> usize
    ensures { result ≡ longest_of value.now }
{
    let first = value.jobs().len().max(value.tasks().len());
    let second = value.machines().len().max(value.proposals().len());
    first.max(second)
}

// The first pairs, so many, and the others. O(n).
fn split_map<K: Chain, V: Join>(
    alloc: Global,
    map: &JoinMap<K, V>,
    count: usize,
) -> Result<(JoinMap<K, V>, JoinMap<K, V>), OutOfMemory>
    ensures both { IfOk result (λ x. x.0 ++ x.1 ≡ map.now) }
    ensures front { IfOk result (λ x. length x.0 ≤ count) }
    ensures behind { IfOk result (λ x. length x.1 ≤ length map.now - count) }
{
    let mut front = JoinMap::new(alloc);
    let mut behind = JoinMap::new(alloc);
    for (key, value) in map.iter() {
        if front.len() < count {
            front.put(*key, copied(value)?)?;
        } else {
            behind.put(*key, copied(value)?)?;
        }
    }
    Ok((front, behind))
}

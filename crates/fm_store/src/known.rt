//! What coordinators knew by their packets, which are joined in one after another.

ghost use Rattle.std.specs.Prelude.{◌≡◌, ◌++◌, ℕ, List, [], map, unwrap_or, IfOk, OnOk};
ghost use Rattle.fm_records.specs.Know.{table_of};
ghost use Rattle.fm_records.specs.Joined.{table_join};
ghost use Rattle.fm_delta.specs.declared.packet.Packet.{Packet};
ghost use Rattle.fm_store.specs.KnownPackets.{HasTaken, known_packets, packet_with, packets_with, unknown};
ghost use Rattle.fm_store.specs.inner.OnePacket.{with_packet as known_with};

use crate::packet_sink::PacketSink;
use fm_delta::packet::Packet;
use fm_know::knowledge::Knowledge;
use fm_know::laws::law_can_be;
use fm_lattice::join::OutOfMemory;
use fm_records::ids::CoordId;
use std::alloc::Global;
use std::mem;

/// A coordinator, and what it knew by its packets that were taken; None if none was.
#[derive(Drop)]
pub struct Known {
    pub number: CoordId,
    pub value: Option<Knowledge>,
}

/// What several coordinators knew. It leaves out the packets of others.
#[derive(Drop)]
pub struct AllKnown {
    pub known: Vec<Known>,
}

impl AllKnown {
    /// These coordinators, of whose packets none was taken yet. Refused only if memory runs out. O(n).
    pub fn none(alloc: Global, numbers: &[CoordId]) -> Result<AllKnown, OutOfMemory>
        ensures { IfOk result (λ all. all.known.items ≡ map unknown numbers.now) }
    {
        let mut known = Vec::new(alloc);
        for number in numbers {
            known.push(Known {
                number: *number,
                value: None,
            })?;
        }
        Ok(AllKnown { known })
    }

    /// One packet, under number 0, of all that each coordinator knew, in their order; none of a coordinator of which no packet was taken.
    /// Refused only if memory runs out. O(n) in the coordinators.
    pub fn packets(self) -> Result<Vec<Packet>, OutOfMemory>
        ensures is { IfOk result (λ packets. packets.items ≡ packets_with self.known.items) }
        ensures all { (numbers : List ℕ) (taken : List Packet) → HasTaken (map unknown numbers) taken self.known.items
            → IfOk result (λ packets. packets.items ≡ known_packets numbers taken) }
    {
        let packets = packets_of(self.known)?;
        Ok(packets)
    }
}

// What is known of each of these, as packets.
fn packets_of(known: Vec<Known>) -> Result<Vec<Packet>, OutOfMemory>
    ensures { IfOk result (λ packets. packets.items ≡ packets_with known.items) }
{
    let mut packets = Vec::new(*known.allocator());
    for one in known {
        let Known { number, value } = one;
        put_packet(&mut packets, number, value)?;
    }
    Ok(packets)
}

// Adds the packet of what is known of a coordinator, if anything is.
fn put_packet(
    packets: &mut Vec<Packet>,
    sender: CoordId,
    value: Option<Knowledge>,
) -> Result<(), OutOfMemory>
    ensures { OnOk result (packets.new.items ≡ packets.old.items ++ packet_with sender value) }
{
    if let Some(value) = value {
        packets.push(Packet {
            sender,
            number: 0,
            value,
        })?;
    }
    Ok(())
}

/// Each packet is joined into what its sender knew. It costs what `Knowledge::join_into` costs, and O(n) in the coordinators.
impl PacketSink for AllKnown {
    ghost use Rattle.fm_store.specs.KnownPackets.{HasTaken};
    ghost use Rattle.fm_store.specs.laws.NoneTaken.{none_taken};

    ghost took = { λ old packets new. HasTaken old.known.items packets new.known.items };

    ghost none = { λ all. none_taken all.known.items };

    fn take(&mut self, packet: Packet) -> Result<(), OutOfMemory> {
        law_can_be(&packet.value);
        let alloc = *self.known.allocator();
        let known = mem::replace(&mut self.known, Vec::new(alloc));
        self.known = with_packet(alloc, known, &packet)?;
        Ok(())
    }
}

// What is known of each with the packet.
fn with_packet(alloc: Global, known: Vec<Known>, packet: &Packet) -> Result<Vec<Known>, OutOfMemory>
    ensures { IfOk result (λ all. all.items ≡ map (known_with packet.now) known.items) }
{
    let mut all = Vec::new(alloc);
    for one in known {
        all.push(one_with(alloc, one, packet)?)?;
    }
    Ok(all)
}

fn one_with(alloc: Global, known: Known, packet: &Packet) -> Result<Known, OutOfMemory>
    ensures { IfOk result (λ one. one ≡ known_with packet.now known) }
{
    let Known { number, value } = known;
    if packet.sender == number {
        let value = joined(alloc, value, &packet.value)?;
        Ok(Known {
            number,
            value: Some(value),
        })
    } else {
        Ok(Known { number, value })
    }
}

// What was known, if anything, with the other joined in.
fn joined(
    alloc: Global,
    value: Option<Knowledge>,
    other: &Knowledge,
) -> Result<Knowledge, OutOfMemory>
    ensures { IfOk result (λ k. k ≡ table_join (unwrap_or value (table_of [])) other.now) }
{
    let mut all = match value {
        Some(value) => value,
        None => Knowledge::empty(alloc),
    };
    all.join_into(other)?;
    Ok(all)
}

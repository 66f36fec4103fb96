//! Packets in the order of their cuts, found by their names: a history has a packet where a step has its number.
//!
//! A packet's name, its sender and number, leads to the first packet that has it. A packet from elsewhere may have the
//! name of another one, so packets from there on are compared: O(log n) if packets of one name are equal.

ghost use Rattle.std.specs.Prelude.{◌≡◌, ◌++◌, ◌∷◌, [], OnOk, position};
ghost use Rattle.fm_delta.specs.Packets.{same_packet};

use fm_coord::shared::Shared;
use fm_delta::packet::Packet;
use fm_lattice::join::OutOfMemory;
use std::alloc::Global;
use std::collections::BTreeMap;
use std::marker::Model;

/// Packets in the order of their cuts. For each sender and number, `starts` has an index before which there is no such
/// packet, and none if there is no such packet at all.
#[derive(Drop)]
pub(crate) struct CutPackets {
    list: Vec<Shared<Packet>>,
    starts: BTreeMap<(u8, u64), usize>,
}

impl Model for CutPackets {
    ghost use Rattle.std.specs.Prelude.{List};
    ghost use Rattle.fm_delta.specs.declared.packet.Packet.{Packet};
    ghost use Rattle.fm_world.specs.inner.Names.{AreNamed};

    ghost Value = { List Packet };

    ghost view = { λ a. a.list.items };

    ghost invariant = { λ a. AreNamed a.starts.entries a.list.items };
}

impl CutPackets {
    /// No packets. It allocates nothing.
    pub(crate) fn new(alloc: Global) -> Self
        ensures { result ≡ [] }
    {
        CutPackets {
            list: Vec::new(alloc),
            starts: BTreeMap::new(alloc),
        }
    }

    /// Adds a packet at the end. O(log n).
    pub(crate) fn push(&mut self, packet: Shared<Packet>) -> Result<(), OutOfMemory>
        ensures { OnOk result (self.new ≡ self.old ++ packet ∷ []) }
    {
        let name = (packet.get().sender.value(), packet.get().number);
        self.list.reserve(1)?;
        if !self.starts.contains_key(&name) {
            self.starts.insert(name, self.list.len())?;
        }
        self.list.push(packet).unwrap();
        Ok(())
    }

    /// The index of the earliest packet that is equal. O(log n) if packets of one name are equal.
    pub(crate) fn index_of(&self, packet: &Packet) -> Option<usize>
        ensures { result ≡ position (λ q. same_packet q packet.now) self.now }
    {
        let name = (packet.sender.value(), packet.number);
        match self.starts.get(&name).copied() {
            None => None,
            Some(start) => {
                let (_, rest) = self.list.as_slice().split_at(start);
                match index_in(rest, packet) {
                    None => None,
                    Some(further) => Some(start + further),
                }
            }
        }
    }
}

// The index of the earliest packet that is equal.
fn index_in(packets: &[Shared<Packet>], packet: &Packet) -> Option<usize>
    ensures { result ≡ position (λ q. same_packet q packet.now) packets.now }
{
    packets.iter().position(|q| *q.get() == *packet)
}

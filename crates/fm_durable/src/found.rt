//! What a store says when it is opened.

ghost use Rattle.std.specs.Prelude.{◌≡◌, map, IfOk};
ghost use Rattle.fm_store.specs.KnownPackets.{unknown};

use crate::growth::frame_size;
use fm_delta::packet::Packet;
use fm_lattice::join::OutOfMemory;
use fm_records::ids::CoordId;
use fm_store::known::AllKnown;
use fm_store::packet_sink::PacketSink;
use std::alloc::Global;

/// What the coordinators of a store knew by its packets, and how many bytes the frames of these have. No packet is kept.
#[derive(Drop)]
pub(crate) struct Found {
    pub(crate) all: AllKnown,
    pub(crate) size: u128,
}

impl Found {
    /// Before the first packet.
    pub(crate) fn none(alloc: Global, numbers: &[CoordId]) -> Result<Found, OutOfMemory>
        ensures { IfOk result (λ found. found.all.known.items ≡ map unknown numbers.now) }
    {
        Ok(Found {
            all: AllKnown::none(alloc, numbers)?,
            size: 0,
        })
    }
}

impl PacketSink for Found {
    ghost use Rattle.fm_store.specs.KnownPackets.{HasTaken};
    ghost use Rattle.fm_store.specs.laws.NoneTaken.{none_taken};

    ghost took = { λ old packets new. HasTaken old.all.known.items packets new.all.known.items };

    ghost none = { λ found. none_taken found.all.known.items };

    fn take(&mut self, packet: Packet) -> Result<(), OutOfMemory> {
        self.size = self.size.saturating_add(frame_size(&packet));
        self.all.take(packet)
    }
}

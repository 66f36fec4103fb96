//! When a store is compacted: once it has twice as many bytes as it had after the last time.
//!
//! So all compactions together write about as much as the stream adds. Nothing that is proved rests on these counts: a store says the same
//! whenever it is compacted. They saturate.

ghost use Rattle.std.specs.Prelude.{◌≡◌, [], false};

use fm_delta::packet::Packet;
use fm_wire::packet_size::packet_size;

// A store with fewer bytes is not compacted: 1 MiB.
const LEAST: u128 = 1_048_576;

// How many bytes a frame has beside its record.
const FRAME: u128 = 49;

/// How many bytes the packets of a store have, and how many they had when they were last compacted.
#[derive(Clone, Copy, Drop)]
pub(crate) struct Growth {
    now: u128,
    compact: u128,
}

impl Growth {
    /// A store that has no packets.
    pub(crate) fn none() -> Growth {
        Growth { now: 0, compact: 0 }
    }

    /// A store that was found with so many bytes, in whose place these packets would say the same.
    pub(crate) fn found(size: u128, compact: &[Packet]) -> Growth {
        Growth {
            now: size,
            compact: size_of(compact),
        }
    }

    /// A store that was just compacted to these packets.
    pub(crate) fn compacted(packets: &[Packet]) -> Growth {
        Growth::found(size_of(packets), packets)
    }

    /// Whether the store is to be compacted rather than get these packets more. It is not if there are none.
    pub(crate) fn is_due(&self, packets: &[Packet]) -> bool
        ensures { packets.now ≡ [] → result ≡ false }
    {
        let size = self.now.saturating_add(size_of(packets));
        !packets.is_empty() && size >= LEAST && size >= self.compact.saturating_mul(2)
    }

    /// It got these packets more.
    pub(crate) fn add(&mut self, packets: &[Packet]) {
        self.now = self.now.saturating_add(size_of(packets));
    }

    /// It cannot be compacted now, which is put off until it has twice as many bytes.
    pub(crate) fn put_off(&mut self) {
        self.compact = self.now;
    }
}

/// How many bytes the frame of the packet has.
pub(crate) fn frame_size(packet: &Packet) -> u128 {
    packet_size(&packet.value).saturating_add(FRAME)
}

// How many bytes the frames of the packets have.
fn size_of(packets: &[Packet]) -> u128 {
    let mut size = 0u128;
    for packet in packets {
        size = size.saturating_add(frame_size(packet));
    }
    size
}

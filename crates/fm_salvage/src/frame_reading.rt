//! Reading: the packets of a file one by one, up to where it ends or is damaged.

ghost use Rattle.std.specs.Prelude.{◌≡◌, ℕ, IfOk, IfErr};
ghost use Rattle.fm_store.specs.declared.frames.Tail.{Tail as TailValue};
ghost use Rattle.fm_salvage.specs.StoreFronts.{IsEnd};
ghost use Rattle.fm_salvage.specs.inner.FrameReading.{HasPacket};
ghost use Rattle.fm_salvage.specs.declared.frame_reading.Pause.TheVariants as pause;

use fm_delta::packet::Packet;
use fm_records::refusal::Refusal;
use fm_store::frames::{Tail, record_at};
use fm_wire::reading::decode;
use std::alloc::Global;

// Why nothing more is read: memory ran out, or the bytes end so at the place.
#[derive(Debug, Clone, Copy, PartialEq, Eq, Drop)]
pub(crate) enum Pause {
    OutOfMemory,
    End(Tail, usize),
}

// A packet, how many bytes its record has, and what is behind the record's frame.
#[derive(Drop)]
pub(crate) struct Found<'a> {
    pub(crate) packet: Packet,
    pub(crate) size: usize,
    pub(crate) after: &'a [u8],
}

// The packet whose frame the bytes begin with, at the place; else how they end there. A record that is no packet is damage.
pub(crate) fn packet_at(alloc: Global, bytes: &[u8], place: usize) -> Result<Found<'_>, Pause>
    ensures ok { IfOk result (λ x. HasPacket x.packet x.size x.after.now bytes.now) }
    ensures err { IfErr result (λ e. (tail : TailValue) (at : ℕ) → e ≡ pause.End tail at
        → (at ≡ place) × IsEnd bytes.now tail) }
{
    match record_at(bytes) {
        Ok((record, after)) => match decode(alloc, record) {
            Ok(packet) => Ok(Found {
                packet,
                size: record.len(),
                after,
            }),
            Err(Refusal::BadPacket(_)) => Err(Pause::End(Tail::Damaged, place)),
            Err(_) => Err(Pause::OutOfMemory),
        },
        Err(tail) => Err(Pause::End(tail, place)),
    }
}

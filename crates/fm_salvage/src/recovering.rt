//! What coordinators knew by the packets of a file, up to where it ends or is damaged, as packets that lines can have.

ghost use Rattle.std.specs.Prelude.{◌≡◌, ◌≤◌, length, IfOk, IsOkUnless};
ghost use Rattle.std.specs.List.{flat_map};
ghost use Rattle.fm_query.specs.QueryTexts.{line_of};
ghost use Rattle.fm_salvage.specs.RecoveryText.{IsRecoveredText};
ghost use Rattle.fm_salvage.specs.inner.Joining.{AreJoined};

use crate::frame_reading::{Pause, packet_at};
use crate::opening::head_of;
use crate::salvaged::{Salvaged, damage_of};
use fm_delta::packet::Packet;
use fm_query::packet_text::packet_line;
use fm_records::refusal::Refusal;
use fm_store::known::AllKnown;
use fm_store::packet_sink::PacketSink;
use fm_store::pieces::split_packets;
use std::alloc::Global;

// How many bytes a packet has at most whose digits fit in a line of a stream, of 64 MiB: `{"at":64,"take":"DIGITS"}`.
const MOST_IN_LINE: usize = 33_554_422;

// What the coordinators knew, and where the bytes are damaged, if they are.
#[derive(Drop)]
pub(crate) struct Joined {
    pub(crate) all: AllKnown,
    pub(crate) damage: Option<usize>,
}

/// What each coordinator of the head knew by its packets before the end or the damage of a file of these bytes: a line with the digits of
/// one packet, as a stream takes them in, in the order of the head; and the place of the damage, if there is any. What takes more
/// than 33,554,422 bytes has several lines, whose packets say it together. Coordinators without packets have no line.
/// Refused only if memory runs out. It has one packet of the file in memory at a time, beside what is known. O(n log n), and what
/// `Knowledge::join_into` and `split_packets` cost.
pub fn recover_packets(alloc: Global, bytes: &[u8]) -> Result<Salvaged, Refusal>
    ensures ok { IfOk result (λ s. IsRecoveredText bytes.now s.text.items s.damage) }
    ensures err { IsOkUnless result Refusal.OutOfMemory }
{
    match head_of(alloc, bytes) {
        Ok(head) => {
            let none = AllKnown::none(alloc, &head.numbers)?;
            let joined = join_packets(alloc, none, bytes.len(), head.frames)?;
            let packets = joined.all.packets()?;
            let pieces = split_packets(packets, MOST_IN_LINE)?;
            Ok(Salvaged {
                text: lines_of(alloc, &pieces)?,
                damage: joined.damage,
            })
        }
        Err(Pause::End(tail, place)) => Ok(Salvaged {
            text: Vec::new(alloc),
            damage: damage_of(tail, place),
        }),
        Err(Pause::OutOfMemory) => Err(Refusal::OutOfMemory),
    }
}

// What is known once the packets of the frames are joined in, which end a file of so many bytes.
fn join_packets(
    alloc: Global,
    all: AllKnown,
    total: usize,
    frames: &[u8],
) -> Result<Joined, Refusal>
    requires { length frames.now ≤ total }
    ensures ok { IfOk result (λ joined. AreJoined total frames.now all.known.items joined.all.known.items joined.damage) }
    ensures err { IsOkUnless result Refusal.OutOfMemory }
{
    let mut all = all;
    let mut rest = frames;
    loop {
        let place = total - rest.len();
        match packet_at(alloc, rest, place) {
            Ok(found) => {
                all.take(found.packet)?;
                rest = found.after;
            }
            Err(Pause::End(tail, place)) => {
                return Ok(Joined {
                    all,
                    damage: damage_of(tail, place),
                });
            }
            Err(Pause::OutOfMemory) => return Err(Refusal::OutOfMemory),
        }
    }
}

// A line for each of the packets.
fn lines_of(alloc: Global, packets: &[Packet]) -> Result<Vec<u8>, Refusal>
    ensures ok { IfOk result (λ text. text.items ≡ flat_map line_of packets.now) }
    ensures err { IsOkUnless result Refusal.OutOfMemory }
{
    let mut text = Vec::new(alloc);
    for packet in packets {
        let line = packet_line(alloc, packet)?;
        text.extend_from_slice(line.as_bytes())?;
    }
    Ok(text)
}

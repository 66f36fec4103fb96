//! Recovery: the packets that the bytes of a store have, and what a coordinator knew by them.
//!
//! After a crash the file ends in records, and possibly in a torn one, which was not acknowledged to anyone. All whole records before it
//! are the packets that were added, in their order. If anything else is there, the store is damaged, and the place says from where on:
//! what is behind it is not looked for, since a packet that is left out could not be missed.

ghost use Rattle.std.specs.Prelude.{◌≡◌, ◌⊎◌, ◌↔◌, ◌<◌, ◌^◌, ◌++◌, ℕ, length, None, List, map, IsTrue, IfOk, IfErr, IfSome};
ghost use Rattle.fm_delta.specs.declared.packet.Packet.{Packet};
ghost use Rattle.fm_records.specs.declared.ops.Op.{Op};
ghost use Rattle.fm_records.specs.Know.{table_of};
ghost use Rattle.fm_records.specs.Sets.{union};
ghost use Rattle.fm_wire.specs.Grammar.{IsPacket, Spells, fault};
ghost use Rattle.fm_store.specs.Frames.{frame};
ghost use Rattle.fm_store.specs.Heads.{head_record};
ghost use Rattle.fm_store.specs.Stores.{magic, IsTornMagic, IsUnfinished, IsRecovery, IsCauseOf, values_of, recovered};
ghost use Rattle.fm_store.specs.declared.store_fault.StoreFault.TheVariants as faults;

use crate::frames::{Tail, record_at, without_zeros};
use crate::head::Head;
use crate::packet_sink::PacketSink;
use crate::store_fault::StoreFault;
use fm_delta::packet::Packet;
use fm_know::knowledge::Knowledge;
use fm_lattice::join::OutOfMemory;
use fm_records::ids::CoordId;
use fm_records::refusal::Refusal;
use fm_wire::reading::decode;
use std::alloc::Global;

// What a store begins with.
pub(crate) const MAGIC: [u8; 8] = *b"FMSTORE1";

/// What was recovered: the packets, in the order in which they were added, and how many bytes the store has, which is 0 if
/// it was never finished.
#[derive(Drop)]
pub struct Recovered {
    pub packets: Vec<Packet>,
    pub whole: usize,
}

/// What is recovered of the bytes of a store with this head. No packets if the head was not written whole, as after a
/// crash while the store was made. Refused with OtherCluster if the head is another, with Damaged and a place if the
/// bytes from there on are no record of a packet and no torn end, or if memory runs out. O(n log n).
pub fn recover(alloc: Global, head: &Head, bytes: &[u8]) -> Result<Recovered, StoreFault>
    ensures ok { IfOk result (λ r. IsRecovery head.now r.packets.items r.whole bytes.now) }
    ensures err { IfErr result (λ e. IsCauseOf head.now e bytes.now) }
{
    let mut packets = Vec::new(alloc);
    let whole = recover_into(alloc, head, bytes, &mut packets)?;
    Ok(Recovered { packets, whole })
}

// The same, but the packets go to the sink one by one: how many bytes the store has.
pub(crate) fn recover_into<S: PacketSink>(
    alloc: Global,
    head: &Head,
    bytes: &[u8],
    sink: &mut S,
) -> Result<usize, StoreFault>
    ensures ok { IfOk result (λ whole. (packets : List Packet)
        × S.took sink.old packets sink.new × IsRecovery head.now packets whole bytes.now) }
    ensures err { IfErr result (λ e. IsCauseOf head.now e bytes.now) }
{
    let Some(frames) = behind_head(alloc, head, bytes)? else {
        return Ok(0);
    };
    let mut rest = frames;
    while !rest.is_empty() {
        let place = bytes.len() - rest.len();
        match record_at(rest) {
            Ok((record, after)) => match packet_of(alloc, record, place) {
                Ok(packet) => {
                    sink.take(packet)?;
                    rest = after;
                }
                Err(fault) => return Err(fault),
            },
            Err(Tail::Damaged) => return Err(StoreFault::Damaged(place)),
            Err(_) => return Ok(place),
        }
    }
    Ok(bytes.len())
}

/// What a coordinator knew by its packets among these: the join of their values. If each value is the table of a set of
/// operations, it is the table of all of them. Packets of other coordinators are left out. Refused only if memory runs
/// out. Each packet costs what `Knowledge::join_into` costs.
pub fn knowledge_of(
    alloc: Global,
    packets: &[Packet],
    number: CoordId,
) -> Result<Knowledge, OutOfMemory>
    ensures ok { IfOk result (λ k. k ≡ recovered number packets.now) }
    ensures union { (Ss : List (List Op)) → values_of number packets.now ≡ map table_of Ss
        → IfOk result (λ k. k ≡ table_of (union Ss)) }
{
    let mut known = Knowledge::empty(alloc);
    for packet in packets {
        if packet.sender == number {
            known.join_into(&packet.value)?;
        }
    }
    Ok(known)
}

// The frames behind that of the head, if the store has this head. None if it was not written whole.
fn behind_head<'a>(
    alloc: Global,
    head: &Head,
    bytes: &'a [u8],
) -> Result<Option<&'a [u8]>, StoreFault>
    ensures some { IfOk result (λ found. IfSome found (λ rest. bytes.now
        ≡ magic ++ (frame (head_record head.now) ++ rest.now))) }
    ensures fits { IfOk result (λ found. IfSome found (λ rest. length (head_record head.now) < 2 ^ 64)) }
    ensures none { IfOk result (λ found. found ≡ None → IsUnfinished bytes.now) }
    ensures err { IfErr result (λ e. IsCauseOf head.now e bytes.now) }
{
    let Some(frames) = behind_magic(bytes) else {
        if is_torn_magic(bytes) {
            return Ok(None);
        }
        return Err(StoreFault::Damaged(0));
    };
    match record_at(frames) {
        Ok((first, rest)) => {
            let own = head.to_bytes(alloc)?;
            if own.as_slice() == first {
                Ok(Some(rest))
            } else {
                Err(StoreFault::OtherCluster)
            }
        }
        Err(Tail::Damaged) => Err(StoreFault::Damaged(MAGIC.len())),
        Err(_) => Ok(None),
    }
}

/// What is behind the bytes `FMSTORE1`, if the bytes begin with these, as those of each store do. It allocates nothing.
pub fn behind_magic(bytes: &[u8]) -> Option<&[u8]>
    ensures some { IfSome result (λ rest. bytes.now ≡ magic ++ rest.now) }
    ensures none { result ≡ None → (rest : List ℕ) → bytes.now ≡ magic ++ rest → ⊥ }
{
    let (front, rest) = bytes.split_first_chunk::<8>()?;
    if *front == MAGIC { Some(rest) } else { None }
}

/// Whether the bytes are a front of these, and zeros, if any, as a crash leaves them. It allocates nothing. O(n).
pub fn is_torn_magic(bytes: &[u8]) -> bool
    ensures { IsTrue result ↔ IsTornMagic bytes.now }
{
    MAGIC.starts_with(without_zeros(bytes))
}

// The packet that the bytes of a record spell, at the place.
fn packet_of(alloc: Global, bytes: &[u8], place: usize) -> Result<Packet, StoreFault>
    ensures ok { IfOk result (λ p. IsPacket p × Spells bytes.now p) }
    ensures err { IfErr result (λ e. (e ≡ faults.OutOfMemory) ⊎ ((e ≡ faults.Damaged place) × (fault bytes.now ≡ None → ⊥))) }
{
    match decode(alloc, bytes) {
        Ok(packet) => Ok(packet),
        Err(Refusal::BadPacket(_)) => Err(StoreFault::Damaged(place)),
        Err(_) => Err(StoreFault::OutOfMemory),
    }
}

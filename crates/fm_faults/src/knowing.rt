//! Knowledge that grows, and packets as bytes.

use crate::cluster::{are_same, copied, join, known, packet};
use crate::memory::Memory;
use crate::verdict::{Verdict, judged};
use fm_delta::packet::Packet;
use fm_know::knowledge::Knowledge;
use fm_records::refusal::Refusal;
use fm_wire::reading::decode;
use fm_wire::writing::encode;
use std::alloc::Global;

/// Much is joined into much, with new keys in each map, and with keys that are there: maps are merged into new blocks.
pub(crate) fn join_much(memory: Memory) -> Result<Verdict, Refusal> {
    let before = known(memory.alloc, 0, 600)?;
    let other = known(memory.alloc, 500, 1100)?;
    join_into(memory, &before, &other)
}

/// A little is joined into much, with a new key in each map: maps change in place, after room was made for blocks and
/// in them.
pub(crate) fn join_little(memory: Memory) -> Result<Verdict, Refusal> {
    let before = known(memory.alloc, 0, 1200)?;
    let other = known(memory.alloc, 1200, 1208)?;
    join_into(memory, &before, &other)
}

fn join_into(memory: Memory, before: &Knowledge, other: &Knowledge) -> Result<Verdict, Refusal> {
    let mut known = copied(before)?;
    memory.refuse();
    let refusal = join(&mut known, other).err();
    memory.give();
    let is_right = is_joined(refusal.is_some(), &known, before, other)?;
    Ok(judged(refusal, is_right))
}

// Whether it is what there was before, or that with the other joined in.
fn is_joined(
    is_refused: bool,
    known: &Knowledge,
    before: &Knowledge,
    other: &Knowledge,
) -> Result<bool, Refusal> {
    if is_refused {
        return Ok(are_same(known, before));
    }
    let mut after = copied(before)?;
    join(&mut after, other)?;
    Ok(are_same(known, &after))
}

/// The bytes of the packet.
pub(crate) fn bytes_of(alloc: Global, packet: &Packet) -> Result<Vec<u8>, Refusal> {
    Ok(encode(alloc, packet)?)
}

/// The packet of the bytes.
pub(crate) fn packet_of(alloc: Global, bytes: &[u8]) -> Result<Packet, Refusal> {
    decode(alloc, bytes)
}

/// A packet is written.
pub(crate) fn write(memory: Memory) -> Result<Verdict, Refusal> {
    let given = packet(memory.alloc, 0, 400)?;
    let wanted = bytes_of(memory.alloc, &given)?;
    memory.refuse();
    let answer = bytes_of(memory.alloc, &given);
    memory.give();
    match answer {
        Ok(bytes) => Ok(judged(None, bytes.as_slice() == wanted.as_slice())),
        Err(refusal) => {
            let again = bytes_of(memory.alloc, &given)?;
            Ok(judged(Some(refusal), again.as_slice() == wanted.as_slice()))
        }
    }
}

/// A packet is read.
pub(crate) fn read(memory: Memory) -> Result<Verdict, Refusal> {
    let wanted = packet(memory.alloc, 0, 400)?;
    let bytes = bytes_of(memory.alloc, &wanted)?;
    memory.refuse();
    let answer = packet_of(memory.alloc, bytes.as_slice());
    memory.give();
    match answer {
        Ok(packet) => Ok(judged(None, are_same(&packet.value, &wanted.value))),
        Err(refusal) => {
            let again = packet_of(memory.alloc, bytes.as_slice())?;
            Ok(judged(Some(refusal), are_same(&again.value, &wanted.value)))
        }
    }
}

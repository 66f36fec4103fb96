//! What operations come to: knowledge, and packets of it.
//!
//! The functions here have no contract: the tests are of what is answered, and proofs of them stay short.

use crate::coordinators::coordinator_id;
use fm_delta::packet::Packet;
use fm_know::knowledge::Knowledge;
use fm_records::ops::Op;
use fm_records::refusal::Refusal;
use std::alloc::Global;

pub(crate) fn delta(alloc: Global, op: &Op) -> Result<Knowledge, Refusal> {
    op.check()?;
    Ok(Knowledge::delta_of(alloc, op)?)
}

pub(crate) fn join(known: &mut Knowledge, other: &Knowledge) -> Result<(), Refusal> {
    Ok(known.join_into(other)?)
}

/// Tells the operations one by one.
pub(crate) fn tell(alloc: Global, known: &mut Knowledge, ops: &[Op]) -> Result<(), Refusal> {
    for op in ops {
        let delta = delta(alloc, op)?;
        join(known, &delta)?;
    }
    Ok(())
}

/// The table of the operations, told one by one.
pub(crate) fn known(alloc: Global, ops: &[Op]) -> Result<Knowledge, Refusal> {
    let mut known = Knowledge::empty(alloc);
    tell(alloc, &mut known, ops)?;
    Ok(known)
}

/// A packet of coordinator 1 of what the operations come to.
pub(crate) fn packet(alloc: Global, number: u64, ops: &[Op]) -> Result<Packet, Refusal> {
    packet_from(alloc, 1, number, ops)
}

/// A packet of another coordinator.
pub(crate) fn packet_from(
    alloc: Global,
    sender: u8,
    number: u64,
    ops: &[Op],
) -> Result<Packet, Refusal> {
    let sender = coordinator_id(sender)?;
    let value = known(alloc, ops)?;
    Ok(Packet {
        sender,
        number,
        value,
    })
}

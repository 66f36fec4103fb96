//! Bytes that are no packet, or another one.

use crate::cluster::{numbered, tell};
use crate::knowing::{bytes_of, packet_of};
use fm_delta::packet::Packet;
use fm_know::knowledge::Knowledge;
use fm_records::ids::{JobId, MachineId, TaskId};
use fm_records::ops::Op;
use fm_records::prefer::Prefer;
use fm_records::refusal::Refusal;
use fm_wire::reading::fault_of;
use std::alloc::Global;

/// The packets that are cut off and changed: of which version, and how many bytes they have.
pub(crate) const PACKETS: [(u8, usize); 6] = [
    (2, 79),
    (2, 220),
    (2, 214),
    (1, 79),
    (1, 219),
    (1, 213),
];

// Where the version is, as a digit, and where a task without preferences has their count, which the first version lacks.
const VERSION: usize = 3;

const COUNT: usize = 115;

fn job(version: u64, wait: u32) -> Op {
    Op::Job {
        id: JobId::new(1),
        version,
        writer: 1,
        withdrawn: false,
        wait,
        preempt: 800,
    }
}

fn machine() -> Op {
    Op::Machine {
        id: MachineId::new(10),
        incarnation: 1,
        version: 1,
        writer: 1,
        up: true,
        slots: 2,
        nic: 1000,
    }
}

fn report() -> Op {
    Op::Report {
        id: MachineId::new(10),
        incarnation: 2,
        number: 1,
        used: 0,
    }
}

fn task() -> Op {
    Op::Spec {
        id: TaskId::new(17),
        version: 1,
        writer: 1,
        withdrawn: false,
        job: JobId::new(1),
        request: 100,
        prefer: Prefer::default(),
    }
}

fn proposal() -> Op {
    Op::Propose {
        id: TaskId::new(17),
        attempt: 0,
        coordinator: 1,
        machine: MachineId::new(10),
        incarnation: 1,
    }
}

// The bytes of a packet of the operations.
fn spelled(alloc: Global, number: u64, ops: &[Op]) -> Result<Vec<u8>, Refusal> {
    let mut value = Knowledge::empty(alloc);
    for op in ops {
        tell(alloc, &mut value, op)?;
    }
    let packet = Packet {
        sender: numbered(1)?,
        number,
        value,
    };
    bytes_of(alloc, &packet)
}

// A packet of so many bytes: of a job alone, of a record of each kind, or of these but that a report beats a machine's state.
fn bytes(alloc: Global, version: u8, length: usize) -> Result<Vec<u8>, Refusal> {
    let whole = [job(1, 500), machine(), task(), proposal(), report()];
    let bytes = match length {
        79 => spelled(alloc, 3, &[job(2, 600)])?,
        219 | 220 => spelled(alloc, 1, &whole[..4])?,
        _ => spelled(alloc, 1, &whole)?,
    };
    if version == 1 {
        return in_first_version(alloc, bytes.as_slice());
    }
    Ok(bytes)
}

// The same packet in the first version.
fn in_first_version(alloc: Global, bytes: &[u8]) -> Result<Vec<u8>, Refusal> {
    let mut spelled = Vec::new(alloc);
    for (place, byte) in bytes.iter().enumerate() {
        if place != COUNT {
            spelled.push(*byte)?;
        }
    }
    put(&mut spelled, VERSION, b'1');
    Ok(spelled)
}

// The same packet in the second version, if these bytes are of the first one.
fn in_second_version(alloc: Global, bytes: &[u8]) -> Result<Vec<u8>, Refusal> {
    let is_first = bytes.get(VERSION) == Some(&b'1');
    let mut spelled = Vec::new(alloc);
    for (place, byte) in bytes.iter().enumerate() {
        if is_first && place == COUNT {
            spelled.push(0)?;
        }
        spelled.push(*byte)?;
    }
    put(&mut spelled, VERSION, b'2');
    Ok(spelled)
}

fn put(bytes: &mut [u8], place: usize, byte: u8) {
    if let Some(old) = bytes.get_mut(place) {
        *old = byte;
    }
}

/// Whether the packet has so many bytes, and each part of it that ends earlier is refused at its end.
pub(crate) fn are_cut_off(alloc: Global, version: u8, length: usize) -> Result<bool, Refusal> {
    let bytes = bytes(alloc, version, length)?;
    for end in 0..bytes.len() {
        if packet_of(alloc, &bytes[..end]).err() != Some(Refusal::BadPacket(end)) {
            return Ok(false);
        }
    }
    Ok(bytes.len() == length)
}

/// Whether each byte of the packet, changed to each other, leaves bytes that are refused at their fault, or that the packet
/// spells which is read, in the second version.
pub(crate) fn are_changed(alloc: Global, version: u8, length: usize) -> Result<bool, Refusal> {
    let bytes = bytes(alloc, version, length)?;
    for place in 0..bytes.len() {
        for byte in 0..=255u8 {
            if !is_answered(alloc, bytes.as_slice(), place, byte)? {
                return Ok(false);
            }
        }
    }
    Ok(true)
}

// Whether the bytes with this one at the place are refused at their fault, or are what is read of them.
fn is_answered(alloc: Global, bytes: &[u8], place: usize, byte: u8) -> Result<bool, Refusal> {
    let mut changed = Vec::from_slice(alloc, bytes)?;
    put(&mut changed, place, byte);
    match packet_of(alloc, changed.as_slice()) {
        Ok(packet) => is_spelled(alloc, &packet, changed.as_slice()),
        Err(Refusal::BadPacket(fault)) => Ok(first_fault(changed.as_slice()) == Some(fault)),
        Err(refusal) => Err(refusal),
    }
}

fn is_spelled(alloc: Global, packet: &Packet, bytes: &[u8]) -> Result<bool, Refusal> {
    let spelled = bytes_of(alloc, packet)?;
    let wanted = in_second_version(alloc, bytes)?;
    Ok(spelled.as_slice() == wanted.as_slice())
}

fn first_fault(bytes: &[u8]) -> Option<usize> {
    fault_of(bytes)
}

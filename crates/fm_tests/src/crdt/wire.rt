//! Packets as bytes: what is written and read, and the place of each kind of fault.

use crate::samples::{JOB, MACHINE, PROGRESS, PROPOSAL, REPORT, TASK};
use crate::told::packet;
use fm_delta::packet::Packet;
use fm_records::ids::MachineId;
use fm_records::ops::Op;
use fm_records::refusal::Refusal;
use fm_wire::packet_size::packet_size;
use fm_wire::reading::{decode, fault_of};
use fm_wire::writing::encode;
use std::alloc::Global;
use std::test::Fail;

// Packet 3 of coordinator 1 in FDG1: job 1 at version 2 of writer 1, not withdrawn, wait 600, preempt 800.
const JOB_BYTES: [u8; 79] = [
    0x46, 0x44, 0x47, 0x31, 1, 0, 0, 0, 0, 0, 0, 0, 3, 0, 0, 0, 0, 0, 0, 0, 1, 0, 0, 0, 0, 0, 0, 0,
    0, 0, 0, 0, 0, 0, 0, 0, 1, 0, 0, 0, 0, 0, 0, 0, 2, 1, 0, 0, 0, 2, 0x58, 0, 0, 3, 0x20, 0, 0, 0,
    0, 0, 0, 0, 0, 0, 0, 0, 0, 0, 0, 0, 0, 0, 0, 0, 0, 0, 0, 0, 0,
];

// The functions below have no contract: the tests are of what is answered, and proofs of them stay short.

fn job(preempt: u32) -> Op {
    JOB.version(2).wait(600).preempt(preempt).op()
}

fn bytes_of(alloc: Global, packet: &Packet) -> Result<Vec<u8>, Fail> {
    Ok(encode(alloc, packet)?)
}

// The bytes of a packet of the operation alone.
fn bytes_of_op(alloc: Global, op: Op) -> Result<Vec<u8>, Fail> {
    let packet = packet(alloc, 1, &[op])?;
    bytes_of(alloc, &packet)
}

fn reads(alloc: Global, bytes: &[u8], packet: &Packet) -> Result<bool, Fail> {
    let read = decode(alloc, bytes)?;
    Ok(read == *packet)
}

// Whether the bytes spell the packet in FDG2, in both directions, and are as many as its size says.
fn spells(alloc: Global, bytes: &[u8], packet: &Packet) -> Result<bool, Fail> {
    let written = bytes_of(alloc, packet)?;
    let is_sized = packet_size(&packet.value) == bytes.len() as u128;
    Ok(is_sized && written.as_slice() == bytes && reads(alloc, bytes, packet)?)
}

// Whether the bytes spell the packet in FDG1: they are read as the packet, and if it has no spec it is written with
// another word alone.
fn spells_in_first(alloc: Global, bytes: &[u8], packet: &Packet) -> Result<bool, Fail> {
    let second = with_byte(alloc, bytes, 3, 0x32)?;
    Ok(reads(alloc, bytes, packet)? && spells(alloc, &second, packet)?)
}

fn refused(alloc: Global, bytes: &[u8]) -> Option<Refusal> {
    decode(alloc, bytes).err()
}

fn fault(bytes: &[u8]) -> Option<usize> {
    fault_of(bytes)
}

// The bytes with another byte at the place.
fn with_byte(alloc: Global, bytes: &[u8], place: usize, byte: u8) -> Result<Vec<u8>, Fail> {
    let mut changed = Vec::from_slice(alloc, bytes)?;
    if let Some(old) = changed.get_mut(place) {
        *old = byte;
    }
    Ok(changed)
}

// The bytes with another number of 32 bits at the place.
fn with_number(alloc: Global, bytes: &[u8], place: usize, number: u32) -> Result<Vec<u8>, Fail> {
    let end = place.saturating_add(4);
    let mut changed = Vec::new(alloc);
    if let (Some(front), Some(back)) = (bytes.get(..place), bytes.get(end..)) {
        changed.extend_from_slice(front)?;
        changed.extend_from_slice(&number.to_be_bytes())?;
        changed.extend_from_slice(back)?;
    }
    Ok(changed)
}

// The first row that is wrong of these: with this byte at the place, the fault is there.
fn wrong_byte(
    alloc: Global,
    bytes: &[u8],
    rows: &[(usize, u8, Option<usize>)],
) -> Result<Option<(usize, u8)>, Fail> {
    for (place, byte, wanted) in rows {
        let changed = with_byte(alloc, bytes, *place, *byte)?;
        if fault(&changed) != *wanted {
            return Ok(Some((*place, *byte)));
        }
    }
    Ok(None)
}

// The same of a packet of the operation alone.
fn wrong_byte_of(
    alloc: Global,
    op: Op,
    rows: &[(usize, u8, Option<usize>)],
) -> Result<Option<(usize, u8)>, Fail> {
    let bytes = bytes_of_op(alloc, op)?;
    wrong_byte(alloc, &bytes, rows)
}

// The same with numbers.
fn wrong_number_of(
    alloc: Global,
    op: Op,
    rows: &[(usize, u32, Option<usize>)],
) -> Result<Option<(usize, u32)>, Fail> {
    let bytes = bytes_of_op(alloc, op)?;
    for (place, number, wanted) in rows {
        let changed = with_number(alloc, &bytes, *place, *number)?;
        if fault(&changed) != *wanted {
            return Ok(Some((*place, *number)));
        }
    }
    Ok(None)
}

#[test]
fn a_job_is_34_bytes(rt: HostRuntime) -> Result<(), Fail> {
    let packet = packet(rt.alloc(), 3, &[job(800)])?;
    assert!(rt; spells_in_first(rt.alloc(), &JOB_BYTES, &packet)?);
    Ok(())
}

#[test]
fn faults_have_places(rt: HostRuntime) -> Result<(), Fail> {
    let rows = [
        (3, 0x30, Some(0)),
        (3, 0x32, None),
        (3, 0x33, Some(0)),
        (4, 0, Some(4)),
        (13, 255, Some(55)),
        (20, 0, Some(61)),
        (20, 2, Some(55)),
        (45, 65, Some(45)),
        (46, 2, Some(46)),
        (47, 0x3c, Some(47)),
        (54, 0x21, None),
        (78, 1, Some(79)),
    ];
    assert_eq!(rt; wrong_byte(rt.alloc(), &JOB_BYTES, &rows)?, None);
    Ok(())
}

#[test]
fn a_preempt_of_801_is_read(rt: HostRuntime) -> Result<(), Fail> {
    let bytes = with_byte(rt.alloc(), &JOB_BYTES, 54, 0x21)?;
    let packet = packet(rt.alloc(), 3, &[job(801)])?;
    assert!(rt; spells_in_first(rt.alloc(), &bytes, &packet)?);
    Ok(())
}

#[test]
fn a_prefix_ends_too_early(rt: HostRuntime) -> Result<(), Fail> {
    let bytes = bytes_of(rt.alloc(), &packet(rt.alloc(), 1, &[])?)?;
    assert_eq!(rt; bytes.len(), 45);
    for len in 0..45 {
        assert_eq!(rt; fault(&bytes[..len]), Some(len));
    }
    assert_eq!(rt; fault(&bytes), None);
    Ok(())
}

#[test]
fn a_byte_more_is_a_fault(rt: HostRuntime) -> Result<(), Fail> {
    let mut bytes = Vec::from_slice(rt.alloc(), &JOB_BYTES)?;
    bytes.push(0)?;
    assert_eq!(rt; refused(rt.alloc(), &bytes), Some(Refusal::BadPacket(79)));
    Ok(())
}

// The bytes of a packet of two jobs with these ids.
fn two_jobs(alloc: Global, first: u8, second: u8) -> Result<Vec<u8>, Fail> {
    let mut bytes = Vec::from_slice(alloc, &JOB_BYTES[..55])?;
    bytes.extend_from_slice(&JOB_BYTES[21..])?;
    if bytes.len() > 70 {
        bytes[20] = 2;
        bytes[36] = first;
        bytes[70] = second;
    }
    Ok(bytes)
}

#[test]
fn jobs_come_in_order(rt: HostRuntime) -> Result<(), Fail> {
    for (first, second, want) in [(1, 2, None), (2, 1, Some(55)), (1, 1, Some(55))] {
        let bytes = two_jobs(rt.alloc(), first, second)?;
        assert_eq!(rt; fault(&bytes), want);
    }
    Ok(())
}

#[test]
fn tags_and_keys_have_ranges(rt: HostRuntime) -> Result<(), Fail> {
    let tags = [
        (49, 2, None),
        (49, 3, Some(49)),
        (50, 2, Some(50)),
        (50, 1, Some(59)),
    ];
    assert_eq!(rt; wrong_byte_of(rt.alloc(), PROGRESS.op(), &tags)?, None);
    let tags = [(61, 0, Some(61)), (61, 4, Some(61)), (61, 1, Some(70))];
    assert_eq!(rt; wrong_byte_of(rt.alloc(), report(), &tags)?, None);
    let keys = [(65, 64, None), (65, 65, Some(65))];
    assert_eq!(rt; wrong_byte_of(rt.alloc(), PROPOSAL.op(), &keys)?, None);
    Ok(())
}

fn report() -> Op {
    REPORT.incarnation(2).op()
}

fn preferring_one() -> Op {
    TASK.prefer(&[(MachineId::new(10), 30)]).op()
}

fn preferring_two() -> Op {
    let machines = [(MachineId::new(10), 30), (MachineId::new(11), 40)];
    TASK.prefer(&machines).op()
}

// Whether a packet of the operations has so many bytes, and they spell it.
fn are_spelled(alloc: Global, ops: &[Op], len: usize) -> Result<bool, Fail> {
    let packet = packet(alloc, 1, ops)?;
    let bytes = bytes_of(alloc, &packet)?;
    Ok(bytes.len() == len && spells(alloc, &bytes, &packet)?)
}

#[test]
fn preferences_have_places(rt: HostRuntime) -> Result<(), Fail> {
    assert!(rt; are_spelled(rt.alloc(), &[preferring_one()], 118)?);
    assert!(rt; are_spelled(rt.alloc(), &[preferring_two()], 138)?);
    let counts = [(81, 5, Some(81)), (81, 2, Some(102))];
    assert_eq!(rt; wrong_byte_of(rt.alloc(), preferring_one(), &counts)?, None);
    let machines = [(117, 12, None), (117, 10, Some(102)), (117, 9, Some(102))];
    assert_eq!(rt;
        wrong_byte_of(rt.alloc(), preferring_two(), &machines)?,
        None
    );
    let credits = [
        (98, 0, None),
        (98, 1_000_000_000, None),
        (98, 1_000_000_001, Some(98)),
        (118, 1_000_000_001, Some(118)),
    ];
    assert_eq!(rt;
        wrong_number_of(rt.alloc(), preferring_two(), &credits)?,
        None
    );
    Ok(())
}

// The fault of the bytes that end at the place.
fn fault_of_front(bytes: &[u8], end: usize) -> Option<usize> {
    match bytes.get(..end) {
        Some(front) => fault(front),
        None => None,
    }
}

// The order of machines is tested when the machine has been read: here nothing more is there.
#[test]
fn the_order_is_tested_before_the_credit(rt: HostRuntime) -> Result<(), Fail> {
    let bytes = bytes_of_op(rt.alloc(), preferring_two())?;
    assert_eq!(rt; fault_of_front(&bytes, 118), Some(118));
    let changed = with_byte(rt.alloc(), &bytes, 117, 10)?;
    assert_eq!(rt; fault_of_front(&changed, 118), Some(102));
    assert_eq!(rt; fault_of_front(&changed, 117), Some(117));
    Ok(())
}

// The bytes in FDG1 of a packet of a spec alone, which are those in FDG2 without its count of preferences.
fn without_count(alloc: Global, bytes: &[u8]) -> Result<Vec<u8>, Fail> {
    let mut first = Vec::new(alloc);
    if let (Some(front), Some(back)) = (bytes.get(4..81), bytes.get(82..)) {
        first.extend_from_slice(b"FDG1")?;
        first.extend_from_slice(front)?;
        first.extend_from_slice(back)?;
    }
    Ok(first)
}

// The fault of the bytes in the other version.
fn fault_in(alloc: Global, bytes: &[u8], version: u8) -> Result<Option<usize>, Fail> {
    let changed = with_byte(alloc, bytes, 3, version)?;
    Ok(fault(&changed))
}

#[test]
fn a_spec_is_read_in_both_versions(rt: HostRuntime) -> Result<(), Fail> {
    let packet = packet(rt.alloc(), 1, &[TASK.op()])?;
    let second = bytes_of(rt.alloc(), &packet)?;
    let first = without_count(rt.alloc(), &second)?;
    assert_eq!(rt; (first.len(), second.len()), (97, 98));
    assert!(rt; reads(rt.alloc(), &first, &packet)?);
    assert!(rt; spells(rt.alloc(), &second, &packet)?);
    assert_eq!(rt; fault_in(rt.alloc(), &first, 0x32)?, Some(97));
    assert_eq!(rt; fault_in(rt.alloc(), &second, 0x31)?, Some(97));
    Ok(())
}

#[test]
fn numbers_of_jobs_and_specs_have_ranges(rt: HostRuntime) -> Result<(), Fail> {
    let numbers = [
        (47, 0, None),
        (47, 1_000_000_000, None),
        (47, 1_000_000_001, Some(47)),
        (51, 0, None),
        (51, 1_000_000_000, None),
        (51, 1_000_000_001, Some(51)),
    ];
    assert_eq!(rt; wrong_number_of(rt.alloc(), job(800), &numbers)?, None);
    let numbers = [
        (45, u32::MAX, None),
        (77, 0, None),
        (77, 1_000_000, None),
        (77, 1_000_001, Some(77)),
    ];
    assert_eq!(rt; wrong_number_of(rt.alloc(), TASK.op(), &numbers)?, None);
    let bytes = [
        (4, 64, None),
        (4, 65, Some(4)),
        (45, 0, Some(45)),
        (45, 64, None),
        (46, 1, None),
    ];
    assert_eq!(rt; wrong_byte_of(rt.alloc(), job(800), &bytes)?, None);
    let bytes = [(59, 0, Some(59)), (59, 65, Some(59)), (60, 2, Some(60))];
    assert_eq!(rt; wrong_byte_of(rt.alloc(), TASK.op(), &bytes)?, None);
    Ok(())
}

#[test]
fn numbers_of_machines_have_ranges(rt: HostRuntime) -> Result<(), Fail> {
    let numbers = [
        (72, 0, Some(72)),
        (72, 1, None),
        (72, 1_000, None),
        (72, 1_001, Some(72)),
        (76, 0, None),
        (76, 1_000_000, None),
        (76, 1_000_001, Some(76)),
    ];
    assert_eq!(rt; wrong_number_of(rt.alloc(), MACHINE.op(), &numbers)?, None);
    let numbers = [(70, 1_000_000_000, None), (70, 1_000_000_001, Some(70))];
    assert_eq!(rt; wrong_number_of(rt.alloc(), report(), &numbers)?, None);
    let bytes = [
        (70, 0, Some(70)),
        (70, 64, None),
        (70, 65, Some(70)),
        (71, 0, None),
        (71, 2, Some(71)),
    ];
    assert_eq!(rt; wrong_byte_of(rt.alloc(), MACHINE.op(), &bytes)?, None);
    Ok(())
}

// A job, a machine, a task, the proposal that places it, and a report.
fn told() -> [Op; 5] {
    [JOB.op(), MACHINE.op(), TASK.op(), PROPOSAL.op(), report()]
}

#[test]
fn whole_knowledge_is_written_and_read(rt: HostRuntime) -> Result<(), Fail> {
    assert!(rt; are_spelled(rt.alloc(), &told()[..4], 220)?);
    assert!(rt; are_spelled(rt.alloc(), &told(), 214)?);
    Ok(())
}

//! Buffers of deltas, with their cuts and trims, and packets.

use crate::samples::small_cluster;
use crate::told::{delta, known, packet};
use fm_delta::buffer::Buffer;
use fm_delta::packet::Packet;
use fm_know::knowledge::Knowledge;
use fm_records::ops::Op;
use fm_records::refusal::Refusal;
use std::alloc::Global;
use std::test::Fail;

// The functions below have no contract: the tests are of what is answered, and proofs of them stay short.

fn push(buffer: &mut Buffer, delta: Knowledge) -> Result<(), Fail> {
    if buffer.end() < u64::MAX {
        buffer.push(delta)?;
    }
    Ok(())
}

// A buffer into which the three were pushed.
fn three_told(alloc: Global) -> Result<Buffer, Fail> {
    let mut buffer = Buffer::new(alloc);
    for op in &small_cluster() {
        push(&mut buffer, delta(alloc, op)?)?;
    }
    Ok(buffer)
}

fn refuses(buffer: &Buffer, from: u64, to: u64, refusal: Refusal) -> bool {
    buffer.cut(from, to).err() == Some(refusal)
}

// Whether the interval is cut to what the operations come to.
fn is_cut(alloc: Global, buffer: &Buffer, from: u64, to: u64, ops: &[Op]) -> Result<bool, Fail> {
    let wanted = known(alloc, ops)?;
    Ok(buffer.cut(from, to)? == wanted)
}

// Whether it is trimmed, or why not.
fn trims(buffer: &mut Buffer, n: u64, refusal: Option<Refusal>) -> bool {
    buffer.trim(n).err() == refusal
}

fn reserve(buffer: &mut Buffer) -> Result<(), Fail> {
    Ok(buffer.reserve(1)?)
}

#[test]
fn a_new_buffer_is_empty(rt: HostRuntime) -> Result<(), Fail> {
    let mut buffer = Buffer::new(rt.alloc());
    assert_eq!(rt; (buffer.floor(), buffer.end()), (0, 0));
    reserve(&mut buffer)?;
    push(&mut buffer, delta(rt.alloc(), &small_cluster()[0])?)?;
    assert_eq!(rt; buffer.end(), 1);
    Ok(())
}

#[test]
fn a_cut_is_the_join_of_its_interval(rt: HostRuntime) -> Result<(), Fail> {
    let buffer = three_told(rt.alloc())?;
    let all = small_cluster();
    let (two, _) = all.split_at(2);
    let (_, second) = two.split_at(1);
    assert!(rt; is_cut(rt.alloc(), &buffer, 3, 3, &[])?);
    assert!(rt; is_cut(rt.alloc(), &buffer, 1, 2, second)?);
    assert!(rt; is_cut(rt.alloc(), &buffer, 0, 2, two)?);
    assert!(rt; is_cut(rt.alloc(), &buffer, 0, 3, &all)?);
    Ok(())
}

#[test]
fn a_cut_beyond_the_end_or_backwards_is_refused(rt: HostRuntime) -> Result<(), Fail> {
    let buffer = three_told(rt.alloc())?;
    assert!(rt; refuses(&buffer, 4, 3, Refusal::BadInterval));
    assert!(rt; refuses(&buffer, 0, 4, Refusal::BadInterval));
    Ok(())
}

#[test]
fn a_trimmed_buffer_keeps_what_is_above_its_floor(rt: HostRuntime) -> Result<(), Fail> {
    let mut buffer = three_told(rt.alloc())?;
    let all = small_cluster();
    let (_, last) = all.split_at(2);
    assert!(rt; trims(&mut buffer, 2, None));
    assert!(rt; refuses(&buffer, 1, 3, Refusal::Trimmed(2)));
    assert!(rt; refuses(&buffer, 0, 4, Refusal::BadInterval));
    assert!(rt; trims(&mut buffer, 1, Some(Refusal::BadInterval)));
    assert!(rt; trims(&mut buffer, 4, Some(Refusal::BadInterval)));
    assert!(rt; is_cut(rt.alloc(), &buffer, 2, 3, last)?);
    assert!(rt; trims(&mut buffer, 3, None));
    assert!(rt; is_cut(rt.alloc(), &buffer, 3, 3, &[])?);
    Ok(())
}

fn copied(packet: &Packet) -> Result<Packet, Fail> {
    Ok(packet.copy()?)
}

#[test]
fn a_copied_packet_is_equal(rt: HostRuntime) -> Result<(), Fail> {
    let first = packet(rt.alloc(), 1, &small_cluster()[..1])?;
    let second = copied(&first)?;
    assert!(rt; first == second);
    Ok(())
}

#[test]
fn numbers_tell_packets_apart(rt: HostRuntime) -> Result<(), Fail> {
    let first = packet(rt.alloc(), 1, &[])?;
    let second = packet(rt.alloc(), 2, &[])?;
    assert!(rt; first != second);
    Ok(())
}

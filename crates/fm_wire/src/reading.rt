//! The packet that bytes spell, and the first fault of bytes that spell none.
//!
//! Bytes come from others, and may be damaged or made to do harm, such as by a count of records that are not there. So
//! all are checked first, without allocating, and only a packet's spelling is built into one. Each packet has at
//! most one spelling in a version, so bytes that are read and written again in the same version are the same.

ghost use Rattle.std.specs.Prelude.{◌≡◌, ◌≤◌, ◌↔◌, None, IsOk, IfOk, IfErr, option_map};
ghost use Rattle.fm_records.specs.Options.{or_else};
ghost use Rattle.fm_records.specs.Ranges.{CanBe};
ghost use Rattle.fm_wire.specs.Grammar.{header, body, version_word, packet, fault, IsPacket, Spells, IsSpelling};
ghost use Rattle.fm_wire.specs.inner.Decoding.{DecodesTo, Finds, FindsListed, rest_of};

use crate::decode_error::DecodeError;
use crate::flat_proposals::proposals_in;
use crate::number_codecs::{u8_at, u32_at, u64_at};
use crate::record_lists::{map_at, rest_of_map};
use crate::version::{FDG1, FDG2, Version};
use fm_delta::packet::Packet;
use fm_know::knowledge::Knowledge;
use fm_lattice::constructors::{Max, Min};
use fm_records::ids::{CoordId, JobId, MachineId, TaskId};
use fm_records::records::{JobReg, MachineRec, Spot, TaskRec};
use fm_records::refusal::Refusal;
use std::alloc::Global;

/// The place of the first fault, counted from 0; none if the bytes are a packet's spelling in one of the versions. It
/// allocates nothing. O(n).
pub fn fault_of(bytes: &[u8]) -> Option<usize>
    ensures { result ≡ fault bytes.now }
{
    match rest_of_packet(bytes) {
        Ok([]) => None,
        Ok(rest) => Some(bytes.len().saturating_sub(rest.len())),
        Err(left) => Some(bytes.len().saturating_sub(left)),
    }
}

/// The packet that the bytes spell, in FDG1 or in FDG2. All bytes are checked before anything is allocated, so a
/// false count of records costs no memory. BadPacket with the place of the first fault if they are no packet's
/// spelling. O(n log n).
pub fn decode(alloc: Global, bytes: &[u8]) -> Result<Packet, Refusal>
    ensures spelling { IfOk result (Spells bytes.now) }
    ensures packet { IfOk result IsPacket }
    ensures none { IsOk result → fault bytes.now ≡ None }
    ensures err { IfErr result (λ e. e ≡ or_else Refusal.OutOfMemory (option_map Refusal.BadPacket (fault bytes.now))) }
    ensures exact { (fault bytes.now ≡ None) ↔ IsSpelling bytes.now }
{
    if let Some(place) = fault_of(bytes) {
        return Err(Refusal::BadPacket(place));
    }
    match packet_at(alloc, bytes) {
        Ok(packet) => Ok(packet),
        Err(DecodeError::Memory) => Err(Refusal::OutOfMemory),
        Err(DecodeError::Fault(left)) => Err(Refusal::BadPacket(bytes.len().saturating_sub(left))),
    }
}

// The packet at the front, in the version that the first word names.
fn packet_at(alloc: Global, bytes: &[u8]) -> Result<Packet, DecodeError>
    ensures found { Finds result (packet.read bytes.now) }
    ensures value { IfOk result (λ p. CanBe p.value) }
{
    let (version, rest) = version_at(bytes)?;
    body_at(alloc, version, rest)
}

// The packet that the version spells at the front.
fn body_at(alloc: Global, version: Version, bytes: &[u8]) -> Result<Packet, DecodeError>
    ensures found { FindsListed result ((body version).read bytes.now) }
    ensures value { IfOk result (λ p. CanBe p.value) }
{
    let ((sender, number), rest) = header_at(bytes)?;
    let (jobs, rest) = map_at::<JobId, Max<JobReg>>(alloc, version, rest)?;
    let (tasks, rest) = map_at::<TaskId, TaskRec>(alloc, version, rest)?;
    let (machines, rest) = map_at::<MachineId, MachineRec>(alloc, version, rest)?;
    let (entries, _) = map_at::<((TaskId, u32), CoordId), Min<Spot>>(alloc, version, rest)?;
    let proposals = proposals_in(alloc, &entries)?;
    Ok(Packet {
        sender: CoordId::new(sender).unwrap(),
        number,
        value: Knowledge::of(jobs, tasks, machines, proposals),
    })
}

// Checks the packet at the front without allocating, and returns the bytes after it.
fn rest_of_packet(bytes: &[u8]) -> Result<&[u8], usize>
    ensures { DecodesTo (λ rest. rest.now) result (rest_of (packet.read bytes.now)) }
{
    let (version, rest) = version_at(bytes)?;
    rest_of_body(version, rest)
}

// Checks the packet that the version spells at the front.
fn rest_of_body(version: Version, bytes: &[u8]) -> Result<&[u8], usize>
    ensures { DecodesTo (λ rest. rest.now) result (rest_of ((body version).read bytes.now)) }
{
    let (_, rest) = header_at(bytes)?;
    let rest = rest_of_map::<JobId, Max<JobReg>>(version, rest)?;
    let rest = rest_of_map::<TaskId, TaskRec>(version, rest)?;
    let rest = rest_of_map::<MachineId, MachineRec>(version, rest)?;
    rest_of_map::<((TaskId, u32), CoordId), Min<Spot>>(version, rest)
}

// The version that the first word names.
#[tactic(auto, unfolding(crate::specs::Grammar::version_word))]
fn version_at(bytes: &[u8]) -> Result<(Version, &[u8]), usize>
    ensures { DecodesTo (λ x. (x.0, x.1.now)) result (version_word.read bytes.now) }
{
    let (word, rest) = u32_at(bytes, FDG1, FDG2)?;
    if word == FDG1 {
        Ok((Version::Fdg1, rest))
    } else {
        Ok((Version::Fdg2, rest))
    }
}

// The sender and the number at the front.
#[tactic(auto, unfolding(crate::specs::Grammar::header))]
fn header_at(bytes: &[u8]) -> Result<((u8, u64), &[u8]), usize>
    ensures header { DecodesTo (λ x. (x.0, x.1.now)) result (header.read bytes.now) }
    ensures least { IfOk result (λ x. 1 ≤ x.0.0) }
    ensures greatest { IfOk result (λ x. x.0.0 ≤ 64) }
{
    let (sender, rest) = u8_at(bytes, 1, 64)?;
    let (number, rest) = u64_at(rest)?;
    Ok(((sender, number), rest))
}

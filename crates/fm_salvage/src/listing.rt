//! The records of a file as lines of text, one by one, up to where the file ends or is damaged.

ghost use Rattle.std.specs.Prelude.{◌≡◌, ◌≤◌, ◌++◌, length, map, IfOk, OnOk, IsOkUnless, string_bytes};
ghost use Rattle.fm_salvage.specs.StoreFronts.{damage_of as damage_at};
ghost use Rattle.fm_salvage.specs.ListingText.{IsStoreListed, head_begin, head_line, record_begin, record_line, end_line, shown};
ghost use Rattle.fm_salvage.specs.ListingText.{count_of_proposals, record_counts_text};
ghost use Rattle.fm_salvage.specs.inner.RecordLines.{IsRestListed, IsSizeOf};

use crate::frame_reading::{Pause, packet_at};
use crate::opening::{Opened, head_of};
use crate::salvaged::{Salvaged, damage_of};
use fm_delta::packet::Packet;
use fm_know::knowledge::Knowledge;
use fm_lattice::join::Join;
use fm_records::ids::CoordId;
use fm_records::refusal::Refusal;
use fm_store::frames::Tail;
use std::alloc::Global;

/// A line for each record of a store in a file of these bytes, the head first, and a last one if the file is torn or damaged; and the
/// place of the damage, if there is any. Any store's file is read, whatever head it has. Refused only if memory runs out. It
/// has one packet in memory at a time. O(n log n).
pub fn list_records(alloc: Global, bytes: &[u8]) -> Result<Salvaged, Refusal>
    ensures ok { IfOk result (λ s. IsStoreListed bytes.now s.text.items s.damage) }
    ensures err { IsOkUnless result Refusal.OutOfMemory }
{
    let mut text = Vec::new(alloc);
    match head_of(alloc, bytes) {
        Ok(head) => {
            put_head(alloc, &mut text, &head)?;
            list_packets(alloc, text, bytes.len(), head.frames)
        }
        Err(Pause::End(tail, place)) => ended(alloc, text, tail, place),
        Err(Pause::OutOfMemory) => Err(Refusal::OutOfMemory),
    }
}

// The text with a line for each packet of the frames, which end a file of so many bytes, and its last line.
fn list_packets(
    alloc: Global,
    text: Vec<u8>,
    total: usize,
    frames: &[u8],
) -> Result<Salvaged, Refusal>
    requires { length frames.now ≤ total }
    ensures ok { IfOk result (λ s. IsRestListed total frames.now text.items s.text.items s.damage) }
    ensures err { IsOkUnless result Refusal.OutOfMemory }
{
    let mut text = text;
    let mut rest = frames;
    loop {
        let place = total - rest.len();
        match packet_at(alloc, rest, place) {
            Ok(found) => {
                put_record(alloc, &mut text, place, found.size, &found.packet)?;
                rest = found.after;
            }
            Err(Pause::End(tail, place)) => return ended(alloc, text, tail, place),
            Err(Pause::OutOfMemory) => return Err(Refusal::OutOfMemory),
        }
    }
}

// The text with the line that tells how the file ends, if it does not end with a whole record.
fn ended(alloc: Global, text: Vec<u8>, tail: Tail, place: usize) -> Result<Salvaged, Refusal>
    ensures text { IfOk result (λ s. s.text.items ≡ text.items ++ end_line tail place) }
    ensures damage { IfOk result (λ s. s.damage ≡ damage_at tail place) }
    ensures err { IsOkUnless result Refusal.OutOfMemory }
{
    let mut text = text;
    let line = end_text(alloc, tail, place)?;
    text.extend_from_slice(line.as_bytes())?;
    Ok(Salvaged {
        text,
        damage: damage_of(tail, place),
    })
}

fn end_text(alloc: Global, tail: Tail, place: usize) -> Result<String, Refusal>
    ensures ok { IfOk result (λ line. string_bytes line ≡ end_line tail place) }
    ensures err { IsOkUnless result Refusal.OutOfMemory }
{
    match tail {
        Tail::Clean => Ok(String::new(alloc)),
        Tail::Torn => Ok(format!(in alloc; "torn at byte {place}\n")?),
        Tail::Damaged => Ok(format!(in alloc; "damaged at byte {place}\n")?),
    }
}

// Adds the line of the head.
fn put_head(alloc: Global, text: &mut Vec<u8>, head: &Opened<'_>) -> Result<(), Refusal>
    requires { IsSizeOf head.now.size (record { label = head.now.label.now; numbers = head.now.numbers.items }) }
    ensures ok { OnOk result (text.new.items ≡ text.old.items
        ++ head_line (record { label = head.now.label.now; numbers = head.now.numbers.items })) }
    ensures err { IsOkUnless result Refusal.OutOfMemory }
{
    let begin = head_text(alloc, head.size, &head.numbers)?;
    text.extend_from_slice(begin.as_bytes())?;
    put_label(text, head.label)?;
    text.push(b'\n')?;
    Ok(())
}

// What is before the label.
fn head_text(alloc: Global, size: usize, numbers: &[CoordId]) -> Result<String, Refusal>
    ensures ok { IfOk result (λ line. string_bytes line ≡ head_begin size numbers.now) }
    ensures err { IsOkUnless result Refusal.OutOfMemory }
{
    let count = numbers.len();
    let mut line = format!(in alloc; "head 8 {size} {count}")?;
    for number in numbers {
        let number = number.value();
        write!(line, " {number}")?;
    }
    line.push(' ')?;
    Ok(line)
}

// Adds the label, with `?` for each control character.
fn put_label(text: &mut Vec<u8>, label: &[u8]) -> Result<(), Refusal>
    ensures ok { OnOk result (text.new.items ≡ text.old.items ++ map shown label.now) }
    ensures err { IsOkUnless result Refusal.OutOfMemory }
{
    for byte in label {
        text.push(shown(*byte))?;
    }
    Ok(())
}

fn shown(byte: u8) -> u8
    ensures { result ≡ shown byte }
{
    if byte < 32 || byte == 127 { b'?' } else { byte }
}

// Adds the line of a packet, whose frame begins at the place, and whose record has so many bytes.
fn put_record(
    alloc: Global,
    text: &mut Vec<u8>,
    place: usize,
    size: usize,
    packet: &Packet,
) -> Result<(), Refusal>
    ensures ok { OnOk result (text.new.items ≡ text.old.items ++ record_line place size packet.now) }
    ensures err { IsOkUnless result Refusal.OutOfMemory }
{
    let begin = record_text(alloc, place, size, packet)?;
    text.extend_from_slice(begin.as_bytes())?;
    let counts = counts_text(alloc, &packet.value)?;
    text.extend_from_slice(counts.as_bytes())?;
    Ok(())
}

fn record_text(alloc: Global, place: usize, size: usize, packet: &Packet) -> Result<String, Refusal>
    ensures ok { IfOk result (λ line. string_bytes line ≡ record_begin place size packet.now) }
    ensures err { IsOkUnless result Refusal.OutOfMemory }
{
    let sender = packet.sender.value();
    let number = packet.number;
    Ok(format!(in alloc; "packet {place} {size} {sender} {number}")?)
}

// How many records of each kind there are.
fn counts_text(alloc: Global, known: &Knowledge) -> Result<String, Refusal>
    ensures ok { IfOk result (λ line. string_bytes line ≡ record_counts_text known.now) }
    ensures err { IsOkUnless result Refusal.OutOfMemory }
{
    let jobs = known.jobs().len();
    let tasks = known.tasks().len();
    let machines = known.machines().len();
    let proposals = proposal_count(known);
    Ok(format!(in alloc; " {jobs} {tasks} {machines} {proposals}\n")?)
}

// How many proposals are known, of all attempts.
fn proposal_count(known: &Knowledge) -> u128
    ensures { result ≡ count_of_proposals known.now }
{
    known.known();
    let mut count = 0u128;
    for (_, entries) in known.proposals().iter() {
        count += entries.len() as u128;
    }
    count
}

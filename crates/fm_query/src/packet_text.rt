//! Packets in hexadecimal digits, so that they go through lines of text, such as a stream or a message broker.

ghost use Rattle.std.specs.Prelude.{◌≡◌, ◌⊎◌, None, Ok, Err, string_bytes, IfOk, IfErr, IsOkUnless};
ghost use Rattle.hex.specs.Hex.{decode_of};
ghost use Rattle.hex.specs.declared.error.FromHexError.{FromHexError};
ghost use Rattle.fm_wire.specs.Grammar.{fault, IsSpelling};
ghost use Rattle.fm_query.specs.QueryTexts.{line_of};
ghost use Rattle.fm_query.specs.Unpacked.{IsPacketIn, IsNoPacketIn, IsFaultOf};

use fm_delta::packet::Packet;
use fm_records::refusal::Refusal;
use fm_wire::reading::{decode, fault_of};
use fm_wire::writing::encode;
use hex::FromHexError;
use std::alloc::Global;

/// The packet's bytes in lower-case hexadecimal digits, as a line. Refused only if memory runs out. O(n).
pub fn packet_line(alloc: Global, packet: &Packet) -> Result<String, Refusal>
    ensures ok { IfOk result (λ line. string_bytes line ≡ line_of packet.now) }
    ensures err { IsOkUnless result Refusal.OutOfMemory }
{
    let bytes = encode(alloc, packet)?;
    let mut line = hex::encode(alloc, bytes.as_slice())?;
    line.push('\n')?;
    Ok(line)
}

/// The packet that hexadecimal digits of either case spell, in either version. What is no pairs of digits is
/// `BadScript(0)`, and bytes that spell no packet are `BadPacket` with the place of the first fault. O(n log n).
pub fn packet_in(alloc: Global, digits: &[u8]) -> Result<Packet, Refusal>
    ensures ok { IfOk result (IsPacketIn digits.now) }
    ensures err { IfErr result (IsNoPacketIn digits.now) }
{
    let bytes = bytes_of(alloc, digits)?;
    decode(alloc, &bytes)
}

/// Why `packet_in` refuses the digits, if it does for another reason than that memory runs out; then the packet is not made. OutOfMemory if
/// there is none for the bytes. O(n).
pub fn packet_fault(alloc: Global, digits: &[u8]) -> Result<Option<Refusal>, Refusal>
    ensures ok { IfOk result (IsFaultOf digits.now) }
    ensures err { IsOkUnless result Refusal.OutOfMemory }
{
    match hex::decode(alloc, digits) {
        Ok(bytes) => match first_fault(&bytes) {
            Some(place) => Ok(Some(Refusal::BadPacket(place))),
            None => Ok(None),
        },
        Err(FromHexError::OutOfMemory) => Err(Refusal::OutOfMemory),
        Err(_) => Ok(Some(Refusal::BadScript(0))),
    }
}

// The place of the first fault of the bytes; none if they are a packet's.
fn first_fault(bytes: &[u8]) -> Option<usize>
    ensures place { result ≡ fault bytes.now }
    ensures none { result ≡ None → IsSpelling bytes.now }
{
    fault_of(bytes)
}

// The bytes that the digits spell.
fn bytes_of(alloc: Global, digits: &[u8]) -> Result<Vec<u8>, Refusal>
    ensures ok { IfOk result (λ bytes. decode_of digits.now ≡ Ok bytes.items) }
    ensures err { IfErr result (λ refusal. (refusal ≡ Refusal.OutOfMemory)
        ⊎ ((refusal ≡ Refusal.BadScript 0) × (e : FromHexError) × (decode_of digits.now ≡ Err e))) }
{
    match hex::decode(alloc, digits) {
        Ok(bytes) => Ok(bytes),
        Err(FromHexError::OutOfMemory) => Err(Refusal::OutOfMemory),
        Err(_) => Err(Refusal::BadScript(0)),
    }
}

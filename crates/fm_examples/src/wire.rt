//! Packets as bytes alone: a relay that passes only packets.

ghost use Rattle.std.specs.Prelude.{◌≡◌, IfOk, IfErr, option_map};
ghost use Rattle.fm_records.specs.Options.{or_else};
ghost use Rattle.fm_records.specs.declared.refusal.Refusal.{Refusal};
ghost use Rattle.fm_delta.specs.declared.packet.Packet.{Packet};
ghost use Rattle.fm_wire.specs.Grammar.{spelling, Spells, fault};

use fm_records::refusal::Refusal;
use fm_wire::reading::decode;
use fm_wire::writing::encode;
use std::alloc::Global;

/// The packet that the bytes encode, in any version, written in the last version. Refused at the first fault, or if
/// memory runs out.
pub fn relayed(alloc: Global, bytes: &[u8]) -> Result<Vec<u8>, Refusal>
    ensures same { IfOk result (λ out. (p : Packet) × Spells bytes.now p × (out.items ≡ spelling p)) }
    ensures err { IfErr result (λ refusal. refusal
        ≡ or_else Refusal.OutOfMemory (option_map Refusal.BadPacket (fault bytes.now))) }
{
    let packet = decode(alloc, bytes)?;
    match encode(alloc, &packet) {
        Ok(out) => Ok(out),
        Err(_) => Err(Refusal::OutOfMemory),
    }
}

//! The bytes of a packet: its one spelling in the last version.
//!
//! Equal packets have equal bytes, since maps are written with their keys rising and each value has one spelling.

ghost use Rattle.std.specs.Prelude.{◌≡◌, ◌<◌, ◌^◌, ◌++◌, IsTrue, IsOk, IfOk, OnOk};
ghost use Rattle.fm_records.specs.Ids.{is_coordinator};
ghost use Rattle.fm_wire.specs.Grammar.{header, spelling, IsPacket};

use crate::flat_proposals::entries_in;
use crate::number_codecs::{put_u8, put_u32, put_u64};
use crate::record_lists::put_map;
use crate::version::FDG2;
use fm_delta::packet::Packet;
use fm_lattice::join::{Join, OutOfMemory};
use fm_records::ids::CoordId;
use std::alloc::Global;

/// The bytes of the packet: its one spelling in FDG2. O(n).
pub fn encode(alloc: Global, packet: &Packet) -> Result<Vec<u8>, OutOfMemory>
    ensures spelling { IfOk result (λ bytes. bytes.items ≡ spelling packet.now) }
    ensures packet { IsOk result → IsPacket packet.now }
{
    packet.value.known();
    let mut bytes = Vec::new(alloc);
    put_u32(&mut bytes, FDG2)?;
    put_header(&mut bytes, packet.sender, packet.number)?;
    put_map(&mut bytes, packet.value.jobs())?;
    put_map(&mut bytes, packet.value.tasks())?;
    put_map(&mut bytes, packet.value.machines())?;
    put_map(&mut bytes, &entries_in(alloc, packet.value.proposals())?)?;
    Ok(bytes)
}

// Adds what is between the version's word and the records.
#[tactic(auto, unfolding(crate::specs::Grammar::header))]
fn put_header(out: &mut Vec<u8>, sender: CoordId, number: u64) -> Result<(), OutOfMemory>
    ensures ok { OnOk result (out.new.items ≡ out.old.items ++ header.spell (sender, number)) }
    ensures sender { OnOk result (IsTrue (is_coordinator sender)) }
    ensures number { number < 2 ^ 64 }
{
    put_u8(out, sender.value())?;
    put_u64(out, number)
}

//! A store alone: a coordinator that knows after a restart what it told others before.

ghost use Rattle.std.specs.Prelude.{◌≡◌, true, List, length, IfOk, IfSome, OnOk};
ghost use Rattle.std.specs.Io.KnownBytes.{Appends};
ghost use Rattle.fm_delta.specs.declared.packet.Packet.{Packet};
ghost use Rattle.fm_wire.specs.Grammar.{spelling};
ghost use Rattle.fm_store.specs.Frames.{frame};
ghost use Rattle.fm_store.specs.Stores.{AreFoundIn, recovered};

use fm_delta::packet::Packet;
use fm_know::knowledge::Knowledge;
use fm_records::ids::CoordId;
use fm_store::device::Device;
use fm_store::head::Head;
use fm_store::recovery::knowledge_of;
use fm_store::store::{append_packet, open_store};
use fm_store::store_fault::StoreFault;
use std::alloc::Global;

/// What the coordinator knew by its packets in the store, which is opened. Refused as `open_store` says.
pub fn restarted<D: Device>(
    alloc: Global,
    device: &mut D,
    head: &Head,
    number: CoordId,
) -> Result<Knowledge, StoreFault>
    ensures known { IfOk result (λ known. IfSome (D.content device.old) (λ all. (packets : List Packet)
        × AreFoundIn head.now packets all × (known ≡ recovered number packets))) }
    ensures sound { OnOk result (D.sound device.new ≡ true) }
{
    let packets = open_store(alloc, device, head)?;
    Ok(knowledge_of(alloc, &packets, number)?)
}

/// Adds a packet, and brings it onto the disk, if the device is sound, as it is once the store was opened. Once this is Ok, the packet may
/// be sent. After an error the device must be opened anew.
pub fn keep<D: Device>(alloc: Global, device: &mut D, packet: &Packet) -> Result<(), StoreFault>
    ensures added { OnOk result (Appends (D.content device.old) (D.content device.new) (frame (spelling packet.now))) }
    ensures on_disk { OnOk result (D.sound device.old ≡ true
        → IfSome (D.content device.new) (λ all. D.synced device.new ≡ length all)) }
{
    append_packet(alloc, device, packet)?;
    device.sync()?;
    Ok(())
}

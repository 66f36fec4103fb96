//! A store on a device: it is opened, grows by packets, and is compacted.
//!
//! A packet is on the disk once `append_packet` and then the device's `sync` returned Ok; several packets may share one sync. No record
//! is changed in place. To get rid of records that later ones make superfluous, `rewrite_store` puts a store of fewer packets in the
//! place of the old one.

ghost use Rattle.std.specs.Prelude.{◌≡◌, ◌⊎◌, ◌++◌, ◌<◌, ◌^◌, ℕ, true, length, List, Some, IfOk, IfErr, OnOk, OnErr, IfSome};
ghost use Rattle.std.specs.Io.KnownBytes.{Appends};
ghost use Rattle.fm_delta.specs.declared.packet.Packet.{Packet};
ghost use Rattle.fm_wire.specs.Grammar.{spelling, IsPacket};
ghost use Rattle.fm_store.specs.Frames.{frame};
ghost use Rattle.fm_store.specs.Devices.{AppendsFront, HoldsBytes};
ghost use Rattle.fm_store.specs.Heads.{HeadModel, head_record};
ghost use Rattle.fm_store.specs.Stores.{IsStoreOf, AreFoundIn, IsOpened, KeepsStore, IsDamagedAt, HasOtherHead};
ghost use Rattle.fm_store.specs.declared.store_fault.StoreFault.TheVariants as faults;

use crate::device::{Device, DeviceFault};
use crate::frames::put_frame;
use crate::head::Head;
use crate::packet_sink::PacketSink;
use crate::recovery::{MAGIC, recover_into};
use crate::store_fault::StoreFault;
use fm_delta::packet::Packet;
use fm_lattice::join::OutOfMemory;
use fm_wire::writing::encode;
use std::alloc::Global;

/// The packets of the store on the device, in the order in which they were added. An empty file becomes a store with
/// this head, and so does one whose head was not written whole. A torn record at the end is cut off. What is then held
/// is on the disk, also if a sync of an earlier process failed: unless the device is known to be sound, all is written anew. Refused with OtherCluster if the store has another head, and with Damaged and a place if the bytes
/// from there on are no record of a packet; then the device is unchanged. Refused too if the device fails or memory runs
/// out; then the same packets are found when it is opened again. O(n log n).
pub fn open_store<D: Device>(
    alloc: Global,
    device: &mut D,
    head: &Head,
) -> Result<Vec<Packet>, StoreFault>
    ensures found { IfOk result (λ packets. IfSome (D.content device.old) (λ all. AreFoundIn head.now packets.items all)) }
    ensures left { IfOk result (λ packets. IfSome (D.content device.new) (λ all. IsStoreOf head.now packets.items all)) }
    ensures synced { OnOk result (IfSome (D.content device.new) (λ all. D.synced device.new ≡ length all)) }
    ensures sound { OnOk result (D.sound device.new ≡ true) }
    ensures err { (other : HeadModel) → OnErr result (KeepsStore other (D.content device.old) (D.content device.new)) }
    ensures damaged { IfErr result (λ e. (place : ℕ) → e ≡ faults.Damaged place
        → IfSome (D.content device.old) (λ all. IsDamagedAt head.now place all)
        × (D.content device.new ≡ D.content device.old) × (D.synced device.new ≡ D.synced device.old)) }
    ensures other { IfErr result (λ e. e ≡ faults.OtherCluster → IfSome (D.content device.old) (λ all. HasOtherHead head.now all)
        × (D.content device.new ≡ D.content device.old) × (D.synced device.new ≡ D.synced device.old)) }
{
    let mut packets = Vec::new(alloc);
    read_store(alloc, device, head, &mut packets)?;
    Ok(packets)
}

/// Opens the store as `open_store` does, but gives the packets to the sink one by one, so that one of them is in memory at a time,
/// beside the bytes of the store and what the sink keeps. Refused as `open_store`; then the sink may have taken some packets.
/// O(n log n), and what the sink costs.
pub fn read_store<D: Device, S: PacketSink>(
    alloc: Global,
    device: &mut D,
    head: &Head,
    sink: &mut S,
) -> Result<(), StoreFault>
    ensures ok { OnOk result ((packets : List Packet) × S.took sink.old packets sink.new
        × IsOpened head.now packets (D.content device.old) (D.content device.new) (D.synced device.new)) }
    ensures sound { OnOk result (D.sound device.new ≡ true) }
    ensures err { (other : HeadModel) → OnErr result (KeepsStore other (D.content device.old) (D.content device.new)) }
    ensures damaged { IfErr result (λ e. (place : ℕ) → e ≡ faults.Damaged place
        → IfSome (D.content device.old) (λ all. IsDamagedAt head.now place all)
        × (D.content device.new ≡ D.content device.old) × (D.synced device.new ≡ D.synced device.old)) }
    ensures other { IfErr result (λ e. e ≡ faults.OtherCluster → IfSome (D.content device.old) (λ all. HasOtherHead head.now all)
        × (D.content device.new ≡ D.content device.old) × (D.synced device.new ≡ D.synced device.old)) }
{
    let bytes = device.read(alloc)?;
    let whole = recover_into(alloc, head, &bytes, sink)?;
    if whole == 0 {
        let anew = store_of(alloc, head, &[])?;
        device.replace(&anew)?;
        return Ok(());
    }
    let kept = if whole < bytes.len() {
        device.cut(whole)?;
        &bytes[..whole]
    } else {
        &bytes
    };
    bring_onto_disk(device, kept)?;
    Ok(())
}

// Brings the bytes, which are all that the device holds, onto the disk. They are written anew unless a sync is known to bring them there.
fn bring_onto_disk<D: Device>(device: &mut D, bytes: &[u8]) -> Result<(), DeviceFault>
    ensures same { HoldsBytes (D.content device.old) bytes.now → D.content device.new ≡ D.content device.old }
    ensures ok { OnOk result (HoldsBytes (D.content device.old) bytes.now
        → IfSome (D.content device.new) (λ all. D.synced device.new ≡ length all)) }
    ensures sound { OnOk result (D.sound device.new ≡ true) }
{
    if device.is_sound() {
        device.sync()
    } else {
        device.renew(bytes)
    }
}

/// Adds the packet at the end. It is on the disk once the device is synced. Refused if memory runs out or the device
/// fails; then a front of the packet's record may have been added, which `open_store` cuts off if it is not whole, and nothing
/// more may be added before that. O(n) in the bytes of the packet.
pub fn append_packet<D: Device>(
    alloc: Global,
    device: &mut D,
    packet: &Packet,
) -> Result<(), StoreFault>
    ensures ok { OnOk result (Appends (D.content device.old) (D.content device.new) (frame (spelling packet.now))) }
    ensures packet { OnOk result (IsPacket packet.now) }
    ensures fits { OnOk result (length (spelling packet.now) < 2 ^ 64) }
    ensures err { OnErr result (AppendsFront (D.content device.old) (D.content device.new) (frame (spelling packet.now))) }
    ensures part { OnErr result ((D.content device.new ≡ D.content device.old)
        ⊎ (IsPacket packet.now × (length (spelling packet.now) < 2 ^ 64))) }
    ensures synced { D.synced device.new ≡ D.synced device.old }
    ensures sound { OnOk result (D.sound device.new ≡ D.sound device.old) }
{
    let mut bytes = Vec::new(alloc);
    put_packet(alloc, &mut bytes, packet)?;
    device.append(&bytes)?;
    Ok(())
}

/// Compaction: puts a store with this head and these packets in the place of what the device holds, on the disk too. One
/// packet for each coordinator, of all that it knew, makes all others superfluous. Refused if memory runs out or the
/// device fails; then the device holds what it held, and if it can still be used the store is as it was. O(n) in the bytes of
/// the packets.
pub fn rewrite_store<D: Device>(
    alloc: Global,
    device: &mut D,
    head: &Head,
    packets: &[Packet],
) -> Result<(), StoreFault>
    ensures ok { OnOk result (IfSome (D.content device.new) (λ all. IsStoreOf head.now packets.now all)) }
    ensures synced { OnOk result (IfSome (D.content device.new) (λ all. D.synced device.new ≡ length all)) }
    ensures sound { OnOk result (D.sound device.new ≡ true) }
    ensures err { OnErr result (D.content device.new ≡ D.content device.old) }
    ensures synced_err { OnErr result (D.synced device.new ≡ D.synced device.old) }
    ensures sound_err { OnErr result (D.sound device.new ≡ D.sound device.old) }
{
    let bytes = store_of(alloc, head, packets)?;
    device.replace(&bytes)?;
    Ok(())
}

// The bytes of a store with this head and the packets.
fn store_of(alloc: Global, head: &Head, packets: &[Packet]) -> Result<Vec<u8>, OutOfMemory>
    ensures { IfOk result (λ bytes. IsStoreOf head.now packets.now bytes.items) }
{
    let mut bytes = MAGIC.to_vec(alloc)?;
    put_head(alloc, &mut bytes, head)?;
    for packet in packets {
        put_packet(alloc, &mut bytes, packet)?;
    }
    Ok(bytes)
}

// Adds the record of the head.
fn put_head(alloc: Global, out: &mut Vec<u8>, head: &Head) -> Result<(), OutOfMemory>
    ensures added { OnOk result (out.new.items ≡ out.old.items ++ frame (head_record head.now)) }
    ensures fits { OnOk result (length (head_record head.now) < 2 ^ 64) }
{
    let bytes = head.to_bytes(alloc)?;
    put_frame(out, &bytes)
}

// Adds the record of the packet.
fn put_packet(alloc: Global, out: &mut Vec<u8>, packet: &Packet) -> Result<(), OutOfMemory>
    ensures added { OnOk result (out.new.items ≡ out.old.items ++ frame (spelling packet.now)) }
    ensures packet { OnOk result (IsPacket packet.now) }
    ensures fits { OnOk result (length (spelling packet.now) < 2 ^ 64) }
{
    let bytes = encode(alloc, packet)?;
    put_frame(out, &bytes)
}

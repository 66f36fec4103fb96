//! Files that grow at their end, as a store sees them.
//!
//! A write returns before its bytes are on the disk, and a crash may then lose some of them. So a device has three ghosts: `content`, the
//! bytes that a read returns; `synced`, how many of them a crash leaves; and `sound`, whether a sync brings all of them onto the disk. An
//! embedder who brings a device of its own proves the contracts below, or leaves `content` unknown and is trusted.
//!
//! A device that is not sound holds bytes that read back, count as written, and are on no disk. Linux leaves a file so after a failed
//! `fdatasync`: the fault is reported once, and the next sync succeeds, also in another process. So who opens a file that another process
//! had may believe a sync only if that process ended well; else it writes all bytes anew, by `renew`.

ghost use Rattle.std.specs.Prelude.{◌≡◌, ◌≤◌, ℕ, Bool, true, List, Option, is_some, take, length, IfOk, OnOk, OnErr, IfSome, IsTrue};
ghost use Rattle.std.specs.Io.KnownBytes.{Appends};
ghost use Rattle.std.specs.Option.{option_map};
ghost use Rattle.fm_store.specs.Devices.{AppendsFront, HoldsBytes};

use std::alloc::{AllocError, AllocFailed, Global};

/// Why a device did not do what it was asked for.
#[derive(Debug, Clone, Copy, PartialEq, Eq, Drop)]
pub enum DeviceFault {
    /// There is not enough memory.
    OutOfMemory,
    /// The file could not be opened, read, written or synced.
    Failed,
    /// Another process has the file.
    Locked,
    /// The file was removed, or another was put in its place.
    Replaced,
    /// The file system cannot lock the file, or cannot keep others from reading it.
    Unsupported,
}

impl From<AllocError> for DeviceFault {
    fn from(_: AllocError) -> DeviceFault {
        DeviceFault::OutOfMemory
    }
}

impl<T: Drop> From<AllocFailed<T>> for DeviceFault {
    fn from(_: AllocFailed<T>) -> DeviceFault {
        DeviceFault::OutOfMemory
    }
}

/// A file that grows at its end, and outlives the process. After an error of any call but `replace` it must not be used again, but opened
/// anew: what it then holds is said at each call.
pub trait Device {
    /// The bytes that it holds, if they are known.
    ghost content: { Self → Option (List ℕ) };

    /// How many of them are on the disk. A crash leaves these, then a front of the others, and then zeros, if any.
    ghost synced: { Self → ℕ };

    /// Whether a sync brings all that it holds onto the disk. It may not in a process that opens a file whose last sync failed.
    ghost sound: { Self → Bool };

    /// Whether it is known to be sound. False if it is not known, as after any end of the last process but a good one.
    fn is_sound(&self) -> bool
        ensures { IsTrue result → sound self.now ≡ true };

    /// All its bytes.
    fn read(&mut self, alloc: Global) -> Result<Vec<u8>, DeviceFault>
        ensures bytes { IfOk result (λ bytes. IfSome (content self.old) (λ all. bytes.items ≡ all)) }
        ensures same { content self.new ≡ content self.old }
        ensures synced { synced self.new ≡ synced self.old }
        ensures sound { OnOk result (sound self.new ≡ sound self.old) };

    /// Adds the bytes at the end. At an error a front of them may have been added.
    fn append(&mut self, bytes: &[u8]) -> Result<(), DeviceFault>
        ensures ok { OnOk result (Appends (content self.old) (content self.new) bytes.now) }
        ensures err { OnErr result (AppendsFront (content self.old) (content self.new) bytes.now) }
        ensures synced { synced self.new ≡ synced self.old }
        ensures sound { OnOk result (sound self.new ≡ sound self.old) };

    /// Cuts off what is behind the first `len` bytes. At an error some of that may be left.
    fn cut(&mut self, len: usize) -> Result<(), DeviceFault>
        ensures ok { OnOk result (content self.new ≡ option_map (take len) (content self.old)) }
        ensures err { OnErr result ((n : ℕ) × (len ≤ n) × (content self.new ≡ option_map (take n) (content self.old))) }
        ensures synced { synced self.new ≤ synced self.old }
        ensures sound { OnOk result (sound self.new ≡ sound self.old) };

    /// Brings all that it holds onto the disk, if it is sound. At an error it is not known how much is there, beside what was before.
    fn sync(&mut self) -> Result<(), DeviceFault>
        ensures ok { OnOk result (sound self.old ≡ true
            → IfSome (content self.new) (λ all. synced self.new ≡ length all)) }
        ensures same { content self.new ≡ content self.old }
        ensures sound { OnOk result (sound self.new ≡ sound self.old) }
        ensures err { OnErr result (synced self.new ≡ synced self.old) };

    /// Writes all bytes anew, which must be those that it holds, and brings them onto the disk. Then it is sound. A crash in this call
    /// leaves what a crash before it may leave, or these bytes. At an error it holds what it held.
    fn renew(&mut self, bytes: &[u8]) -> Result<(), DeviceFault>
        ensures same { HoldsBytes (content self.old) bytes.now → content self.new ≡ content self.old }
        ensures ok { OnOk result (HoldsBytes (content self.old) bytes.now
            → IfSome (content self.new) (λ all. synced self.new ≡ length all)) }
        ensures sound { OnOk result (sound self.new ≡ true) }
        ensures err { OnErr result (synced self.new ≡ synced self.old) };

    /// Puts the bytes in the place of all that it holds, on the disk too. A crash in this call leaves what a crash
    /// before it may leave, or these bytes. At an error it holds what it held, and may be used again: a device that cannot be
    /// fails at each later call.
    fn replace(&mut self, bytes: &[u8]) -> Result<(), DeviceFault>
        ensures ok { OnOk result (IfSome (content self.new) (λ all. (all ≡ bytes.now) × (synced self.new ≡ length all))) }
        ensures sound { OnOk result (sound self.new ≡ true) }
        ensures err { OnErr result ((content self.new ≡ content self.old) × (synced self.new ≡ synced self.old)
            × (sound self.new ≡ sound self.old)) };

    /// Notes for the next process that this one ended well, if all that the device holds is on the disk: then that one knows
    /// that it is sound. To be called last. Nothing is noted if a call failed before.
    fn close(&mut self)
        ensures same { content self.new ≡ content self.old }
        ensures synced { synced self.old ≤ synced self.new };

    /// The bytes are known at all times, or never.
    ghost known: { (a b : Self) → is_some (content a) ≡ is_some (content b) };
}

/// What opens devices by their paths, as the operating system does.
pub trait OpenDevice {
    /// The devices that it opens.
    type Opened: Device + Drop;

    /// The device at the path, or an empty one that is made there.
    fn open_device(&self, path: &str) -> Result<Self::Opened, DeviceFault>;
}

//! A device in memory, for tests and for coordinators that need not outlive their process.

ghost use Rattle.std.specs.Prelude.{◌≡◌, ◌≤◌, Some, true, false, length, min, [], OnOk, OnErr, take, refl};

use crate::device::{Device, DeviceFault};
use std::alloc::Global;
use std::marker::Model;

/// A file in memory, all of which counts as on the disk once it is synced. Contracts see it as its bytes, how many of
/// them count so, and whether a sync brings the others there.
#[derive(Drop)]
pub struct Memory {
    bytes: Vec<u8>,
    synced: usize,
    is_sound: bool,
}

impl Model for Memory {
    ghost use Rattle.std.specs.Prelude.{ℕ, List, Bool};

    ghost Value = { List ℕ × ℕ × Bool };

    ghost view = { λ m. (m.bytes.items, m.synced, m.is_sound) };
}

impl Memory {
    /// A file that holds these bytes, all on the disk.
    pub fn new(bytes: Vec<u8>) -> Memory
        ensures { result ≡ (bytes.items, length bytes.items, true) }
    {
        let synced = bytes.len();
        Memory {
            bytes,
            synced,
            is_sound: true,
        }
    }

    /// A file as a process finds it after a sync of another one failed: all these bytes are read, and a crash leaves so many.
    /// A sync succeeds and brings no more of them onto the disk.
    pub fn after_failed_sync(bytes: Vec<u8>, synced: usize) -> Memory
        ensures { result ≡ (bytes.items, min synced (length bytes.items), false) }
    {
        let synced = synced.min(bytes.len());
        Memory {
            bytes,
            synced,
            is_sound: false,
        }
    }

    /// The bytes that it holds.
    pub fn bytes(&self) -> &[u8]
        ensures { result.now ≡ self.now.0 }
    {
        &self.bytes
    }

    /// How many of them count as on the disk.
    pub fn synced(&self) -> usize
        ensures { result ≡ self.now.1 }
    {
        self.synced
    }
}

impl Device for Memory {
    ghost content = { λ m. Some m.0 };

    ghost synced = { λ m. m.1 };

    ghost sound = { λ m. m.2 };

    ghost known = { λ _ _. refl };

    fn is_sound(&self) -> bool {
        self.is_sound
    }

    fn read(&mut self, alloc: Global) -> Result<Vec<u8>, DeviceFault> {
        Ok(self.bytes.to_vec(alloc)?)
    }

    fn append(&mut self, bytes: &[u8]) -> Result<(), DeviceFault> {
        self.bytes.reserve(bytes.len())?;
        Ok(self.bytes.extend_from_slice(bytes)?)
    }

    fn cut(&mut self, len: usize) -> Result<(), DeviceFault> {
        self.bytes.truncate(len);
        self.synced = self.synced.min(len);
        Ok(())
    }

    fn sync(&mut self) -> Result<(), DeviceFault> {
        if self.is_sound {
            self.synced = self.bytes.len();
        }
        Ok(())
    }

    fn renew(&mut self, bytes: &[u8]) -> Result<(), DeviceFault> {
        self.replace(bytes)
    }

    fn replace(&mut self, bytes: &[u8]) -> Result<(), DeviceFault> {
        let anew = bytes.to_vec(*self.bytes.allocator())?;
        self.synced = anew.len();
        self.bytes = anew;
        self.is_sound = true;
        Ok(())
    }

    fn close(&mut self) {}
}

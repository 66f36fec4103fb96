//! A device that says on standard error what an operator should know of it, though the run goes on.
//!
//! A crash leaves a torn end of a record that was not written whole, and no answer was sent that rests on it: where it is cut off is said.
//! A store is cut for no other reason. A store that cannot be compacted, mostly since the disk has no room for a second copy, grows on, and
//! that is said too. Once it is open, nothing but a compaction replaces it.

use fm_store::device::{Device, DeviceFault};
use std::alloc::Global;
use std::io::Eprint;

/// A device, and what writes to standard error.
#[derive(Drop)]
pub(crate) struct TellingDevice<'a, R, D> {
    rt: &'a R,
    device: D,
    is_open: bool,
}

impl<'a, R, D> TellingDevice<'a, R, D> {
    /// The device, whose store is not open yet.
    pub(crate) fn new(rt: &'a R, device: D) -> TellingDevice<'a, R, D> {
        TellingDevice {
            rt,
            device,
            is_open: false,
        }
    }
}

/// All is as the device does it. A standard error that fails changes nothing.
impl<R: Eprint, D: Device> Device for TellingDevice<'_, R, D> {
    ghost content = { λ d. D.content d.device };

    ghost synced = { λ d. D.synced d.device };

    ghost sound = { λ d. D.sound d.device };

    ghost known = { λ a b. D.known a.device b.device };

    fn is_sound(&self) -> bool {
        self.device.is_sound()
    }

    fn read(&mut self, alloc: Global) -> Result<Vec<u8>, DeviceFault> {
        self.device.read(alloc)
    }

    fn append(&mut self, bytes: &[u8]) -> Result<(), DeviceFault> {
        self.device.append(bytes)
    }

    fn cut(&mut self, len: usize) -> Result<(), DeviceFault> {
        let answer = self.device.cut(len);
        if answer.is_ok() {
            let _ = eprint!(self.rt;
                "firmament: the store was torn at byte {len}, and is cut off there\n"
            );
        }
        answer
    }

    fn sync(&mut self) -> Result<(), DeviceFault> {
        self.is_open = true;
        self.device.sync()
    }

    fn renew(&mut self, bytes: &[u8]) -> Result<(), DeviceFault> {
        self.is_open = true;
        self.device.renew(bytes)
    }

    fn replace(&mut self, bytes: &[u8]) -> Result<(), DeviceFault> {
        let was_open = self.is_open;
        self.is_open = true;
        let answer = self.device.replace(bytes);
        if was_open && answer.is_err() {
            let _ = eprint!(self.rt;
                "firmament: the store was not compacted, since no second copy can be written; the next try is at twice its size\n"
            );
        }
        answer
    }

    fn close(&mut self) {
        self.device.close();
    }
}

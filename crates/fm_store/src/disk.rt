//! A device that is a file of the operating system.
//!
//! No contract can say what a file holds, so `content` is unknown here: this module, `disk_files` and `end_mark` are trusted to do what
//! `Device` says. They trust that a file of the system keeps what was synced, that a file is renamed at once or not at all, and that a lock
//! shuts out other processes that ask.

ghost use Rattle.std.specs.Prelude.{None, true, refl};

use crate::device::{Device, DeviceFault, OpenDevice};
use crate::disk_files::{
    beside, is_named, locked_file, or_failed, put_copy, resolved, sync_folder, write_over,
};
use crate::end_mark::{is_marked, put_mark, take_mark};
use std::alloc::Global;
use std::fs::File;
use std::io;
use std::io::{Read, Seek, SeekFrom, Write};

/// The file at a path, locked as long as the value lives: no other process has it open as a `Disk`, whatever name it uses. It is sound if
/// the last process ended well, which a file `PATH.clean` says, or once this process has written it anew. From the first failure that
/// touched the file on each call fails, since what it then holds is not known.
#[derive(Drop)]
pub struct Disk {
    rt: HostRuntime,
    path: String,
    file: File,
    has_failed: bool,
    // whether a sync brings all that the file holds onto the disk
    is_sound: bool,
    // whether nothing was written since the last sync
    is_synced: bool,
    // whether a mark may be beside the file
    may_be_marked: bool,
}

impl Disk {
    /// Opens the file at the path, or makes an empty one that its owner alone may read; of a symbolic link the file that it names, so that
    /// `replace` puts no file in the link's place. Locked if another process has it. Unsupported if the file system cannot lock it, or
    /// cannot keep others from reading it. Failed if it cannot be opened, or is no regular file: a device or a pipe may have no end.
    pub fn open(rt: &HostRuntime, path: &str) -> Result<Disk, DeviceFault> {
        let path = resolved(rt, path)?;
        let file = locked_file(rt, path.as_str())?;
        let is_sound = is_marked(rt, path.as_str(), &file);
        Ok(Disk {
            rt: rt.clone()?,
            path,
            file,
            has_failed: false,
            is_sound,
            is_synced: false,
            may_be_marked: true,
        })
    }

    // Failed if a call has failed before.
    fn check(&self) -> Result<(), DeviceFault> {
        if self.has_failed {
            Err(DeviceFault::Failed)
        } else {
            Ok(())
        }
    }

    // Has to come before anything is changed: checks as `check` does, and takes the mark of a good end away, on the disk too.
    fn begin_change(&mut self) -> Result<(), DeviceFault> {
        self.check()?;
        if self.may_be_marked {
            let answer = take_mark(&self.rt, self.path.as_str());
            self.noted(answer)?;
            self.may_be_marked = false;
        }
        self.is_synced = false;
        Ok(())
    }

    // The answer to a call. Its failure is noted.
    fn noted<T: Drop>(&mut self, answer: io::Result<T>) -> Result<T, DeviceFault> {
        self.has_failed = answer.is_err();
        or_failed(answer)
    }

    // Replaced if the path does not name the file any more: what is added to the file then is lost with this process.
    fn check_name(&mut self) -> Result<(), DeviceFault> {
        if is_named(&self.rt, self.path.as_str(), &self.file) {
            Ok(())
        } else {
            self.has_failed = true;
            Err(DeviceFault::Replaced)
        }
    }

    // All that the file holds is on the disk now.
    fn end_change(&mut self) -> Result<(), DeviceFault> {
        self.check_name()?;
        self.is_synced = true;
        Ok(())
    }
}

// All bytes of the file.
fn read_all(file: &mut File, bytes: &mut Vec<u8>) -> io::Result<()> {
    file.seek(SeekFrom::Start(0))?;
    file.read_to_end(bytes)?;
    Ok(())
}

impl Device for Disk {
    ghost content = { λ _. None };

    ghost synced = { λ _. 0 };

    ghost sound = { λ _. true };

    ghost known = { λ _ _. refl };

    fn is_sound(&self) -> bool {
        self.is_sound
    }

    fn read(&mut self, alloc: Global) -> Result<Vec<u8>, DeviceFault> {
        self.check()?;
        let mut bytes = Vec::new(alloc);
        let answer = read_all(&mut self.file, &mut bytes);
        self.noted(answer)?;
        Ok(bytes)
    }

    fn append(&mut self, bytes: &[u8]) -> Result<(), DeviceFault> {
        self.begin_change()?;
        let answer = self.file.write_all(bytes);
        self.noted(answer)
    }

    fn cut(&mut self, len: usize) -> Result<(), DeviceFault> {
        self.begin_change()?;
        let answer = self.file.set_len(len as u64);
        self.noted(answer)
    }

    fn sync(&mut self) -> Result<(), DeviceFault> {
        self.begin_change()?;
        let answer = self.file.sync_data();
        self.noted(answer)?;
        self.end_change()
    }

    /// By a second copy, as `replace` does it; where there is no room for one, over the bytes where they are.
    fn renew(&mut self, bytes: &[u8]) -> Result<(), DeviceFault> {
        if self.replace(bytes).is_ok() {
            return Ok(());
        }
        self.check()?;
        let written = write_over(&self.rt, self.path.as_str(), &self.file, bytes);
        self.has_failed = written.is_err();
        written?;
        self.is_sound = true;
        self.end_change()
    }

    /// A new file is written and synced beside the old one, and renamed. Until then a failure touches nothing, and the old file is
    /// used on.
    fn replace(&mut self, bytes: &[u8]) -> Result<(), DeviceFault> {
        self.begin_change()?;
        self.check_name()?;
        let new_path = or_failed(beside(&self.rt, self.path.as_str(), "new"))?;
        let copy = put_copy(
            &self.rt,
            self.path.as_str(),
            new_path.as_str(),
            &self.file,
            bytes,
        )?;
        // the lock of the old file is let go only here
        self.file = copy;
        let synced = sync_folder(&self.rt, self.path.as_str());
        self.noted(synced)?;
        self.is_sound = true;
        self.end_change()
    }

    fn close(&mut self) {
        if !self.has_failed && self.is_sound && self.is_synced {
            // without a mark the next process writes all anew
            let _ = put_mark(&self.rt, self.path.as_str(), &self.file);
        }
    }
}

impl OpenDevice for HostRuntime {
    type Opened = Disk;

    fn open_device(&self, path: &str) -> Result<Disk, DeviceFault> {
        Disk::open(self, path)
    }
}

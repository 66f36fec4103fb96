//! The mark of a good end: a file beside the store's, which says that all of the store was on the disk when its last process ended.
//!
//! Without it a process cannot know whether what it reads of a file is on the disk: a sync that failed in an earlier one is reported once,
//! and not to it. The mark has one line, with the file's inode, length and time of its last change. It counts only if that is the very line
//! that the file, as it is now, would get. So a mark that is torn, forged, another file's, or older than the last change counts as none.

use crate::device::DeviceFault;
use crate::disk_files::{beside, made, or_failed, sync_folder};
use std::fs::File;
use std::io::{Read, Write};
use std::os::unix::fs::MetadataExt;
use std::{fs, io};

// What a mark's path ends in.
const ENDING: &str = "clean";

/// Whether there is a mark of the file, as it is now, at the path.
pub(crate) fn is_marked(rt: &HostRuntime, path: &str, file: &File) -> bool {
    match (read_mark(rt, path), line_of(rt, file)) {
        (Ok(mark), Ok(line)) => mark.as_slice() == line.as_bytes(),
        _ => false,
    }
}

// The line of the file as it is now.
fn line_of(rt: &HostRuntime, file: &File) -> io::Result<String> {
    let now = file.metadata()?;
    let (inode, len) = (now.ino(), now.len());
    let (seconds, nanoseconds) = (now.ctime(), now.ctime_nsec());
    Ok(format!(in rt.alloc(); "clean {inode} {len} {seconds} {nanoseconds}\n")?)
}

// The bytes of the mark. It is no pipe, which might have no end.
fn read_mark(rt: &HostRuntime, path: &str) -> io::Result<Vec<u8>> {
    let path = beside(rt, path, ENDING)?;
    if !fs::symlink_metadata(rt, path.as_str())?.is_file() {
        return Err(io::Error::from(io::ErrorKind::InvalidInput));
    }
    fs::read(rt, path.as_str())
}

/// Takes the mark away, if there is one, on the disk too.
pub(crate) fn take_mark(rt: &HostRuntime, path: &str) -> io::Result<()> {
    match fs::remove_file(rt, beside(rt, path, ENDING)?.as_str()) {
        Ok(()) => sync_folder(rt, path),
        Err(error) if error.kind() == io::ErrorKind::NotFound => Ok(()),
        Err(error) => Err(error),
    }
}

/// Marks the file, which is on the disk with all its bytes. There must be no mark of it yet.
pub(crate) fn put_mark(rt: &HostRuntime, path: &str, file: &File) -> Result<(), DeviceFault> {
    // the time of the last change has to be on the disk too
    or_failed(file.sync_all())?;
    let line = or_failed(line_of(rt, file))?;
    let mark = or_failed(beside(rt, path, ENDING))?;
    let mut mark = made(rt, mark.as_str())?;
    or_failed(mark.write_all(line.as_bytes()))?;
    or_failed(mark.sync_all())?;
    or_failed(sync_folder(rt, path))
}

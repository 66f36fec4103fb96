//! Files that are only read, also those of stores that cannot be opened.

use fm_store::device::DeviceFault;
use fm_store::store_fault::StoreFault;
use std::alloc::Global;
use std::fs::{File, Files};
use std::io::Read;
use std::{fs, io};

/// All bytes of the file at the path, which is not changed and not locked: if a follower is adding to it, the end may look torn.
/// The fault is OutOfMemory, or that of the device if the file cannot be read or is no regular file, as a pipe, which might have no
/// end. O(n).
pub fn read_file<F: Files>(files: &F, alloc: Global, path: &str) -> Result<Vec<u8>, StoreFault> {
    match read_all(files, alloc, path) {
        Ok(bytes) => Ok(bytes),
        Err(error) => Err(fault_of(error.kind())),
    }
}

fn read_all<F: Files>(files: &F, alloc: Global, path: &str) -> io::Result<Vec<u8>> {
    if !fs::metadata(files, path)?.is_file() {
        return Err(io::Error::from(io::ErrorKind::InvalidInput));
    }
    let mut bytes = Vec::new(alloc);
    File::open(files, path)?.read_to_end(&mut bytes)?;
    Ok(bytes)
}

fn fault_of(kind: io::ErrorKind) -> StoreFault {
    if kind == io::ErrorKind::OutOfMemory {
        StoreFault::OutOfMemory
    } else {
        StoreFault::Device(DeviceFault::Failed)
    }
}

//! How the files of a disk are found, made, locked and copied.
//!
//! A file that is made is made by the system in one step that fails if the name is taken, also by a link; so nothing that others put there
//! is followed or overwritten. What is locked is the file and not its name, so who opens it compares both afterwards.

use crate::device::DeviceFault;
use std::fs::{File, OpenOptions, Permissions, TryLockError};
use std::io::Write;
use std::os::unix::fs::{FileExt, MetadataExt, OpenOptionsExt, PermissionsExt};
use std::{fs, io};

// What its owner alone may read and write.
const OWNERS: u32 = 0o600;

// How often a file is opened anew whose name another process gave to its copy meanwhile.
const MOST_TRIES: u32 = 100;

/// The same, or Failed.
pub(crate) fn or_failed<T: Drop>(answer: io::Result<T>) -> Result<T, DeviceFault> {
    match answer {
        Ok(value) => Ok(value),
        Err(_) => Err(DeviceFault::Failed),
    }
}

/// The path of the file: if that is a symbolic link, the path of what it names, where a file is made if there is none.
pub(crate) fn resolved(rt: &HostRuntime, path: &str) -> Result<String, DeviceFault> {
    if !is_link(rt, path) {
        return Ok(String::from_str(rt.alloc(), path)?);
    }
    let named = match fs::canonicalize(rt, path) {
        Err(error) if error.kind() == io::ErrorKind::NotFound => {
            let mut how = growing();
            or_failed(how.create(true).mode(OWNERS).open(rt, path))?;
            fs::canonicalize(rt, path)
        }
        found => found,
    };
    Ok(or_failed(named)?.into_string())
}

// Whether a symbolic link is at the path.
fn is_link(rt: &HostRuntime, path: &str) -> bool {
    match fs::symlink_metadata(rt, path) {
        Ok(found) => found.is_symlink(),
        Err(_) => false,
    }
}

// A file to which each write is added at the end.
fn growing() -> OpenOptions {
    let mut how = OpenOptions::new();
    how.read(true).append(true);
    how
}

/// The file at the path, which is made if there is none, with a lock that no other process has.
pub(crate) fn locked_file(rt: &HostRuntime, path: &str) -> Result<File, DeviceFault> {
    for _ in 0..MOST_TRIES {
        let file = opened(rt, path)?;
        lock(&file)?;
        if is_named(rt, path, &file) {
            return Ok(file);
        }
    }
    Err(DeviceFault::Locked)
}

// The file at the path, which is made if there is none. Failed if something else is there.
fn opened(rt: &HostRuntime, path: &str) -> Result<File, DeviceFault> {
    match fs::symlink_metadata(rt, path) {
        Ok(found) if found.is_file() => or_failed(growing().open(rt, path)),
        Err(error) if error.kind() == io::ErrorKind::NotFound => made(rt, path),
        _ => Err(DeviceFault::Failed),
    }
}

/// A new file at the path, which its owner alone may read. Failed if anything is there. Unsupported if others may read it.
pub(crate) fn made(rt: &HostRuntime, path: &str) -> Result<File, DeviceFault> {
    let mut how = growing();
    let file = or_failed(how.create_new(true).mode(OWNERS).open(rt, path))?;
    let _ = file.set_permissions(Permissions::from_mode(OWNERS));
    let found = or_failed(file.metadata())?;
    if found.permissions().mode() & 0o777 == OWNERS {
        return Ok(file);
    }
    let _ = fs::remove_file(rt, path);
    Err(DeviceFault::Unsupported)
}

// Locks the file, unless another process has.
fn lock(file: &File) -> Result<(), DeviceFault> {
    match file.try_lock() {
        Ok(()) => Ok(()),
        Err(TryLockError::WouldBlock) => Err(DeviceFault::Locked),
        Err(TryLockError::Error(_)) => Err(DeviceFault::Unsupported),
    }
}

/// Whether the path names the file, and no link to it.
pub(crate) fn is_named(rt: &HostRuntime, path: &str, file: &File) -> bool {
    match (fs::symlink_metadata(rt, path), file.metadata()) {
        (Ok(named), Ok(open)) => named.ino() == open.ino() && named.dev() == open.dev(),
        _ => false,
    }
}

/// The path with this ending.
pub(crate) fn beside(rt: &HostRuntime, path: &str, ending: &str) -> io::Result<String> {
    Ok(format!(in rt.alloc(); "{path}.{ending}")?)
}

/// Puts a new file with these bytes and the permissions of the old one, locked and on the disk, in the place of the old one at the path.
/// It is written at the new path first, and what is there is removed. Failed if the old one has a further name, which would go on naming
/// it. At an error the old one is as it was, and no new one is left.
pub(crate) fn put_copy(
    rt: &HostRuntime,
    path: &str,
    new_path: &str,
    old: &File,
    bytes: &[u8],
) -> Result<File, DeviceFault> {
    if or_failed(old.metadata())?.nlink() > 1 {
        return Err(DeviceFault::Failed);
    }
    let _ = fs::remove_file(rt, new_path);
    let put = put_copy_at(rt, path, new_path, old, bytes);
    if put.is_err() {
        let _ = fs::remove_file(rt, new_path);
    }
    put
}

fn put_copy_at(
    rt: &HostRuntime,
    path: &str,
    new_path: &str,
    old: &File,
    bytes: &[u8],
) -> Result<File, DeviceFault> {
    let mut copy = made(rt, new_path)?;
    lock(&copy)?;
    or_failed(write_copy(&mut copy, old, bytes))?;
    or_failed(fs::rename(rt, new_path, path))?;
    Ok(copy)
}

fn write_copy(copy: &mut File, old: &File, bytes: &[u8]) -> io::Result<()> {
    copy.set_permissions(old.metadata()?.permissions())?;
    copy.write_all(bytes)?;
    copy.sync_all()
}

/// Writes the bytes over those of the file, which are the same, where they are, and syncs them. The path has to name the file.
pub(crate) fn write_over(
    rt: &HostRuntime,
    path: &str,
    file: &File,
    bytes: &[u8],
) -> Result<(), DeviceFault> {
    // the file itself adds each write at its end
    let placed = or_failed(OpenOptions::new().write(true).open(rt, path))?;
    if !is_named(rt, path, &placed) || !is_named(rt, path, file) {
        return Err(DeviceFault::Replaced);
    }
    or_failed(placed.write_all_at(bytes, 0))?;
    or_failed(placed.sync_all())
}

/// Brings the names in the folder of the path onto the disk.
pub(crate) fn sync_folder(rt: &HostRuntime, path: &str) -> io::Result<()> {
    File::open(rt, folder_of(path))?.sync_all()
}

// The folder of the path.
fn folder_of(path: &str) -> &str {
    match path.rfind('/') {
        Some(0) => "/",
        Some(end) => &path[..end],
        None => ".",
    }
}

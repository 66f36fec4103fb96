//! Values with one spelling as bytes: the traits of such values, and the keys of records, alike in all versions.
//!
//! A packet has one spelling in a version only if each of its parts has. So writer and reader of a part are two
//! functions of one trait, and both are proved by the same definition of its format. A fault is told by how many bytes
//! are left from it on.

ghost use Rattle.std.specs.Prelude.{◌≡◌, ◌++◌, OnOk};
ghost use Rattle.fm_wire.specs.declared.version.Version.{Version};
ghost use Rattle.fm_wire.specs.declared.version.Version.TheVariants.{Fdg2};
ghost use Rattle.fm_wire.specs.Formats.{Format};
ghost use Rattle.fm_wire.specs.Grammar.{id, attempt, coordinator_field};
ghost use Rattle.fm_wire.specs.inner.Decoding.{DecodesTo};

use crate::number_codecs::{put_u8, put_u32, put_u128, u8_at, u32_at, u128_at};
use crate::version::Version;
use fm_lattice::join::OutOfMemory;
use fm_records::ids::{CoordId, JobId, MachineId, TaskId};

/// Values with one spelling as bytes.
pub(crate) trait Codec: Drop {
    /// The format of the values.
    ghost format: { Format Self };

    /// Adds the spelling at the end.
    fn put(&self, out: &mut Vec<u8>) -> Result<(), OutOfMemory>
        ensures { OnOk result (out.new.items ≡ out.old.items ++ format.spell self.now) };

    /// The value that is spelled at the front, and the bytes after it; at a fault how many bytes there are from it on.
    fn at(bytes: &[u8]) -> Result<(Self, &[u8]), usize>
        ensures { DecodesTo (λ x. (x.0, x.1.now)) result (format.read bytes.now) };
}

/// Values of records, with one spelling as bytes in each version.
pub(crate) trait VersionedCodec: Drop {
    /// The format of the values in a version.
    ghost format: { Version → Format Self };

    /// Adds the spelling in the version in which packets are written at the end.
    fn put(&self, out: &mut Vec<u8>) -> Result<(), OutOfMemory>
        ensures { OnOk result (out.new.items ≡ out.old.items ++ (format Fdg2).spell self.now) };

    /// The value that the version spells at the front, and the bytes after it; at a fault how many bytes there are from it on.
    fn at(version: Version, bytes: &[u8]) -> Result<(Self, &[u8]), usize>
        ensures { DecodesTo (λ x. (x.0, x.1.now)) result ((format version).read bytes.now) };
}

impl Codec for JobId {
    ghost format = { id };

    fn put(&self, out: &mut Vec<u8>) -> Result<(), OutOfMemory> {
        put_u128(out, self.value())
    }

    fn at(bytes: &[u8]) -> Result<(JobId, &[u8]), usize> {
        let (number, rest) = u128_at(bytes)?;
        Ok((JobId::new(number), rest))
    }
}

impl Codec for TaskId {
    ghost format = { id };

    fn put(&self, out: &mut Vec<u8>) -> Result<(), OutOfMemory> {
        put_u128(out, self.value())
    }

    fn at(bytes: &[u8]) -> Result<(TaskId, &[u8]), usize> {
        let (number, rest) = u128_at(bytes)?;
        Ok((TaskId::new(number), rest))
    }
}

impl Codec for MachineId {
    ghost format = { id };

    fn put(&self, out: &mut Vec<u8>) -> Result<(), OutOfMemory> {
        put_u128(out, self.value())
    }

    fn at(bytes: &[u8]) -> Result<(MachineId, &[u8]), usize> {
        let (number, rest) = u128_at(bytes)?;
        Ok((MachineId::new(number), rest))
    }
}

impl Codec for CoordId {
    ghost format = { coordinator_field };

    fn put(&self, out: &mut Vec<u8>) -> Result<(), OutOfMemory> {
        put_u8(out, self.value())
    }

    fn at(bytes: &[u8]) -> Result<(CoordId, &[u8]), usize> {
        let (number, rest) = u8_at(bytes, 1, 64)?;
        Ok((CoordId::new(number).unwrap(), rest))
    }
}

impl Codec for u32 {
    ghost format = { attempt };

    fn put(&self, out: &mut Vec<u8>) -> Result<(), OutOfMemory> {
        put_u32(out, *self)
    }

    fn at(bytes: &[u8]) -> Result<(u32, &[u8]), usize> {
        u32_at(bytes, 0, u32::MAX)
    }
}

impl<A: Codec, B: Codec> Codec for (A, B) {
    ghost use Rattle.fm_wire.specs.Formats.{◌⨾◌};

    ghost format = { A.format ⨾ B.format };

    fn put(&self, out: &mut Vec<u8>) -> Result<(), OutOfMemory> {
        self.0.put(out)?;
        self.1.put(out)
    }

    fn at(bytes: &[u8]) -> Result<((A, B), &[u8]), usize> {
        let (first, rest) = A::at(bytes)?;
        let (second, rest) = B::at(rest)?;
        Ok(((first, second), rest))
    }
}

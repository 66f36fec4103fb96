//! The versions of the format of packets, so that packets of older programs can still be read.

/// A version: how packets of it end a spec. Packets are written in the last, and read in each.
#[derive(Debug, Clone, Copy, PartialEq, Eq, Drop)]
pub(crate) enum Version {
    Fdg1,
    Fdg2,
}

// The bytes "FDG1" and "FDG2" as numbers.
pub(crate) const FDG1: u32 = 0x4644_4731;

pub(crate) const FDG2: u32 = 0x4644_4732;

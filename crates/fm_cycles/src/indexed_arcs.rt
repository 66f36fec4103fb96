//! Arcs, and the steps of their residual network.

/// An arc, its ends as numbers of nodes.
#[derive(Debug, Clone, Copy, PartialEq, Eq, Drop)]
pub struct IndexedArc {
    pub from: usize,
    pub to: usize,
    pub capacity: u64,
    pub cost: u32,
}

/// A step of the residual network: over an arc with room, or backwards over one with units.
#[derive(Debug, Clone, Copy, PartialEq, Eq, Drop)]
pub struct ResidualArc {
    pub arc: usize,
    pub forward: bool,
}

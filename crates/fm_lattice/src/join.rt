//! Values that merge: join-semilattices, as in state-based CRDTs (Shapiro, Preguica, Baquero and Zawirski, 2011).

ghost use Rattle.std.specs.Prelude.{◌≡◌, ◌↔◌, IsTrue, IfOk};
ghost use Rattle.fm_lattice.specs.Joins.{JoinLaws};

use std::alloc::{AllocError, AllocFailed};

/// There was no memory.
#[derive(Debug, Drop, Clone, Copy, PartialEq, Eq)]
pub struct OutOfMemory;

impl From<AllocError> for OutOfMemory {
    fn from(_: AllocError) -> OutOfMemory {
        OutOfMemory
    }
}

impl<T: Drop> From<AllocFailed<T>> for OutOfMemory {
    fn from(_: AllocFailed<T>) -> OutOfMemory {
        OutOfMemory
    }
}

/// Values that merge: a join-semilattice, so order and repetition do not matter.
pub trait Join: Drop {
    /// Holds of the values that the type can have.
    ghost is_value: { Self → Type 0 };

    /// What two values merge to.
    ghost join: { Self → Self → Self };

    /// A value of the type is one that the type can have.
    fn known(&self)
        ensures { is_value self.now };

    /// What two values merge to.
    fn joined(&self, other: &Self) -> Result<Self, OutOfMemory>
        ensures { IfOk result (λ r. r ≡ join self.now other.now) };

    /// Whether merging this into the other changes nothing.
    fn leq(&self, other: &Self) -> bool
        ensures { IsTrue result ↔ join self.now other.now ≡ other.now };

    ghost laws: { JoinLaws is_value join };
}

/// Merging is associative.
pub fn law_assoc<T: Join>(a: &T, b: &T, c: &T)
    ensures { T.join (T.join a.now b.now) c.now ≡ T.join a.now (T.join b.now c.now) }
{
    a.known();
    b.known();
    c.known();
}

/// Merging is commutative.
pub fn law_comm<T: Join>(a: &T, b: &T)
    ensures { T.join a.now b.now ≡ T.join b.now a.now }
{
    a.known();
    b.known();
}

/// Merging a value with itself changes nothing.
pub fn law_idem<T: Join>(a: &T)
    ensures { T.join a.now a.now ≡ a.now }
{
    a.known();
}

/// The value again, which is its merge with itself.
pub fn copied<T: Join>(a: &T) -> Result<T, OutOfMemory>
    ensures { IfOk result (λ r. r ≡ a.now) }
{
    a.known();
    a.joined(a)
}

// Whether the values are the same, which is whether each is below the other.
pub(crate) fn equal<T: Join>(a: &T, b: &T) -> bool
    ensures { IsTrue result ↔ (a.now ≡ b.now) }
{
    a.known();
    b.known();
    a.leq(b) && b.leq(a)
}

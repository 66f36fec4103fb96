//! Values with several owners, so that one more owner costs a counter and no copy.
//!
//! Contracts see such a value as the value itself. An owner that writes while there are others gets a clone of its own
//! first (copy on write).

ghost use Rattle.std.specs.Prelude.{◌≡◌, ◌⊎◌, IfOk};
ghost use Rattle.std.specs.Borrow.{LendsSoOk, sem};
ghost use Rattle.fm_lattice.specs.contracts.shared.Shared.{the_row};

use crate::join::OutOfMemory;
use std::alloc::Global;
use std::marker::Model;
use std::sync::Arc;

/// A value with several owners, which contracts see as the value.
#[derive(Debug, Drop)]
pub struct Shared<T> {
    inner: Arc<T, Global>,
}

impl<T> Model for Shared<T> {
    ghost use Rattle.std.specs.Arc.{arc_value};

    ghost Value = { T };

    ghost view = { λ s. arc_value s.inner };
}

impl<T: Drop> Shared<T> {
    /// The value, with one owner. If memory runs out, it is dropped.
    pub fn new(alloc: Global, value: T) -> Result<Shared<T>, OutOfMemory>
        ensures { IfOk result (λ s. s ≡ value) }
    {
        Ok(Shared {
            inner: Arc::new(alloc, value)?,
        })
    }

    /// The same value for one more owner. It copies nothing, and is refused if no more owners can be counted.
    pub fn share(&self) -> Result<Shared<T>, OutOfMemory>
        ensures { IfOk result (λ s. s ≡ self.now) }
    {
        Ok(Shared {
            inner: Arc::try_clone(&self.inner)?,
        })
    }

    /// The value.
    pub fn get(&self) -> &T
        ensures { result.now ≡ self.now }
    {
        &self.inner
    }
}

impl<T: Clone> Shared<T> {
    /// The value, for writing (copy on write). If it has other owners, this one gets a clone of it first, and the
    /// others keep theirs.
    pub fn own(&mut self) -> Result<&mut T, OutOfMemory>
        ensures* writes_back { sem 𝓛 (LendsSoOk (the_row T.row) T.row self.entry result (λ n w. n ≡ w)
            (λ n. (n ≡ self.old) ⊎ T.is_clone self.old n)) }
        ensures value { IfOk result (λ x. (x.now ≡ self.old) ⊎ T.is_clone self.old x.now) }
    {
        Ok(Arc::make_mut(&mut self.inner)?)
    }
}

impl<T: PartialEq> PartialEq for Shared<T> {
    ghost eq = { T.eq };

    ghost laws = { T.laws };

    /// Whether the values are equal.
    fn eq(&self, other: &Self) -> bool {
        *self.inner == *other.inner
    }
}

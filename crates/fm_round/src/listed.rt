//! Lists that contracts see as lists.

ghost use Rattle.std.specs.Prelude.{◌≡◌, IfOk};
ghost use Rattle.std.specs.Cmp.Lexicographic.{pointwise};

use fm_lattice::join::OutOfMemory;
use std::marker::Model;

/// The items of a `Vec`, which contracts see as a list.
#[derive(Debug, Drop)]
pub struct Listed<T> {
    items: Vec<T>,
}

impl<T> Model for Listed<T> {
    ghost use Rattle.std.specs.Prelude.{List};

    ghost Value = { List T };

    ghost view = { λ e. e.items.items };
}

impl<T> Listed<T> {
    /// The items, in their order. It allocates nothing.
    pub fn new(items: Vec<T>) -> Listed<T>
        ensures { result ≡ items.items }
    {
        Listed { items }
    }

    /// The items, lent.
    pub fn as_slice(&self) -> &[T]
        ensures { result.now ≡ self.now }
    {
        self.items.as_slice()
    }
}

impl<T: Copy + Drop> Listed<T> {
    /// The list again, in memory of its own. O(n).
    pub fn copy(&self) -> Result<Listed<T>, OutOfMemory>
        ensures { IfOk result (λ list. list ≡ self.now) }
    {
        let alloc = *self.items.allocator();
        let items = self.items.iter().copied().collect(alloc)?;
        Ok(Listed { items })
    }
}

impl<T: PartialEq> PartialEq for Listed<T> {
    ghost use Rattle.std.specs.Cmp.Lexicographic.{pointwise, lists_per};

    ghost eq = { pointwise T.eq };

    ghost laws = { lists_per T.laws };

    /// Whether the items are equal, one by one. O(n).
    fn eq(&self, other: &Self) -> bool {
        self.items.as_slice() == other.items.as_slice()
    }
}

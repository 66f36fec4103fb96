//! Which allocation of a call is refused.

use std::alloc::Global;

// What the allocator of tests/refusing.c is asked for if it is to refuse an allocation, with the place of that one
// added, and if it is to refuse none any more. Any other allocator has no room for the first, and some for the second.
const REFUSE: usize = 0x7ee0_0000_0000_0000;

const GIVE: usize = 1_234_567;

/// Where memory comes from, and which allocation of a call is refused, counted from 1; 0 refuses none.
#[derive(Clone, Copy, Drop)]
pub(crate) struct Memory {
    pub(crate) alloc: Global,
    pub(crate) place: u32,
}

impl Memory {
    /// The same, but none is refused.
    pub(crate) fn ample(&self) -> Memory {
        Memory {
            alloc: self.alloc,
            place: 0,
        }
    }

    /// The same, but with the allocation at this place, unless none is refused.
    pub(crate) fn at(&self, place: u32) -> Memory {
        Memory {
            alloc: self.alloc,
            place: if self.place == 0 { 0 } else { place },
        }
    }

    /// From now on allocations are counted, and the one at the place is refused.
    pub(crate) fn refuse(&self) {
        if self.place > 0 {
            let _ = is_given(self.alloc, REFUSE | self.place as usize);
        }
    }

    /// From now on no allocation is refused.
    pub(crate) fn give(&self) {
        if self.place > 0 {
            let _ = is_given(self.alloc, GIVE);
        }
    }

    /// Whether one was refused since allocations were last counted. None is from now on.
    pub(crate) fn has_refused(&self) -> bool {
        self.place > 0 && !is_given(self.alloc, GIVE)
    }
}

fn is_given(alloc: Global, bytes: usize) -> bool {
    let mut asked: Vec<u8> = Vec::new(alloc);
    asked.reserve(bytes).is_ok()
}

//! Which new keys of a join need a full-size spare block, since the block to which they go may have to be split.
//!
//! Changes in place must not allocate, so the memory of each split is there before. A spare block of 64 pairs for each
//! new key would cost far more than the keys. They come in order, so those of one block follow each other. The first
//! that no longer fits gets one, and after it each 32nd, or each 63rd after the last key of the map.

use crate::blocks::FULL;

// The block to which the last new key goes, how many of the new keys are to go into it as it stands, and how many more
// surely find room there, or in one of the blocks that it was cut into. Keys come in their order, and a block that is
// cut in halves has room for FULL / 2 more in each; of one that is cut for a key after all others only the upper part
// is gone to again.
#[derive(Drop)]
pub(crate) struct SplitBudget {
    at: usize,
    more: usize,
    left: usize,
}

impl SplitBudget {
    // No key goes anywhere.
    pub(crate) fn new() -> SplitBudget {
        SplitBudget {
            at: usize::MAX,
            more: 0,
            left: 0,
        }
    }

    // Counts a new key that goes to the block at the place, which has so many pairs: answers whether it is to find a
    // whole spare block.
    pub(crate) fn count(&mut self, at: usize, len: usize, goes_last: bool) -> bool {
        if self.at != at {
            *self = SplitBudget {
                at,
                more: 0,
                left: FULL.saturating_sub(len),
            };
        }
        if self.left > 0 {
            self.left -= 1;
            self.more = self.more.saturating_add(1);
            return false;
        }
        self.left = if goes_last { FULL - 2 } else { FULL / 2 - 1 };
        true
    }

    // For how many more pairs the block is to have room before it is cut.
    pub(crate) fn more(&self) -> usize {
        self.more
    }
}

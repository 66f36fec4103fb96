//! Sets of numbers as bits, so that two sets are compared 64 numbers at a time.

use crate::Tried;
use std::alloc::Global;

/// Rows of as many bits, 64 in a word.
#[derive(Drop)]
pub(crate) struct Bits {
    words: Vec<u64>,
    // How many words a row has.
    width: usize,
}

// The bit of a number in its word.
fn bit_of(number: usize) -> u64 {
    1 << (number % 64)
}

/// How many words a row of so many bits has.
pub(crate) fn width_of(count: usize) -> usize {
    (count / 64).saturating_add(1)
}

impl Bits {
    /// So many rows of so many bits, none of which is set. O(rows * bits / 64).
    pub(crate) fn of(alloc: Global, rows: usize, count: usize) -> Tried<Bits> {
        let width = width_of(count);
        Ok(Bits {
            words: vec![in alloc; 0; width.saturating_mul(rows)]?,
            width,
        })
    }

    /// Sets the bit of a number in a row, or clears it.
    pub(crate) fn set(&mut self, row: usize, number: usize, to: bool) {
        let at = row.saturating_mul(self.width).saturating_add(number / 64);
        if let Some(word) = self.words.get_mut(at) {
            if to {
                *word |= bit_of(number);
            } else {
                *word &= !bit_of(number);
            }
        }
    }

    /// The first so many words of a row.
    pub(crate) fn row(&self, row: usize, count: usize) -> &[u64] {
        let first = row.saturating_mul(self.width);
        let end = first.saturating_add(count.min(self.width));
        self.words.get(first..end).unwrap_or(&[])
    }

    /// The least number of which the bit is set in the row and among some words, each with its number.
    pub(crate) fn meets(&self, row: usize, others: &[(usize, u64)]) -> Option<usize> {
        let words = self.row(row, self.width);
        for (number, other) in others {
            let both = words.get(*number).copied().unwrap_or(0) & *other;
            if both != 0 {
                return Some(first_of(*number, both));
            }
        }
        None
    }
}

/// The number of the first bit that is set in the word of that number.
pub(crate) fn first_of(word: usize, bits: u64) -> usize {
    word.saturating_mul(64)
        .saturating_add(bits.trailing_zeros() as usize)
}

/// The word without that bit.
pub(crate) fn without_first(bits: u64) -> u64 {
    bits & bits.wrapping_sub(1)
}

/// Whether the bit of a number is set.
pub(crate) fn has_bit(words: &[u64], number: usize) -> bool {
    words.get(number / 64).copied().unwrap_or(0) & bit_of(number) != 0
}

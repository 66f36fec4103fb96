//! A segment tree over a row of numbers, of which each node has the greatest number below it.
//!
//! So the first machine with enough spare bandwidth is found in O(log n), and a search for the cheapest slot leaves out
//! the branches that are too dear. A change of a number costs O(log n).

use crate::Tried;
use std::alloc::Global;

/// Below every number that is kept in a tree.
pub(crate) const LEAST: i64 = i64::MIN;

// More levels than any tree has.
const LEVELS: usize = 64;

/// A row of numbers under a binary tree, of which each node has the greatest number below it. Node 1 is the root, and below node n
/// are nodes 2n and 2n + 1.
#[derive(Drop)]
pub(crate) struct Tree {
    nodes: Vec<i64>,
    leaves: usize,
}

// The least power of two that is no less.
fn power_for(count: usize) -> usize {
    let mut power = 1usize;
    for _ in 0..LEVELS {
        if power >= count {
            break;
        }
        power = power.saturating_mul(2);
    }
    power
}

// The number of the first node behind all below this one, on the deepest level on which there is one; 0 if there is none.
fn next_right(node: usize) -> usize {
    let mut node = node;
    for _ in 0..LEVELS {
        if node <= 1 {
            return 0;
        }
        if node % 2 == 0 {
            return node.saturating_add(1);
        }
        node /= 2;
    }
    0
}

impl Tree {
    /// The numbers in their row. O(n).
    pub(crate) fn of(alloc: Global, numbers: &[i64]) -> Tried<Tree> {
        let leaves = power_for(numbers.len());
        let nodes = vec![in alloc; LEAST; leaves.saturating_mul(2)]?;
        let mut tree = Tree { nodes, leaves };
        for (leaf, number) in numbers.iter().enumerate() {
            tree.write(leaves.saturating_add(leaf), *number);
        }
        for back in 1..leaves {
            let node = leaves.saturating_sub(back);
            let greatest = tree.below(node);
            tree.write(node, greatest);
        }
        Ok(tree)
    }

    /// The number of a node.
    pub(crate) fn at(&self, node: usize) -> i64 {
        self.nodes.get(node).copied().unwrap_or(LEAST)
    }

    /// How many leaves the tree has: a power of two.
    pub(crate) fn width(&self) -> usize {
        self.leaves
    }

    fn write(&mut self, node: usize, number: i64) {
        if let Some(old) = self.nodes.get_mut(node) {
            *old = number;
        }
    }

    // The greatest number right below a node.
    fn below(&self, node: usize) -> i64 {
        let left = node.saturating_mul(2);
        self.at(left).max(self.at(left.saturating_add(1)))
    }

    /// Puts a number in place of another. O(log n), as each query.
    pub(crate) fn set(&mut self, leaf: usize, number: i64) {
        let mut node = self.leaves.saturating_add(leaf);
        self.write(node, number);
        for _ in 0..LEVELS {
            node /= 2;
            if node == 0 {
                break;
            }
            let greatest = self.below(node);
            if self.at(node) == greatest {
                break;
            }
            self.write(node, greatest);
        }
    }

    // The first place below the node whose number is no less.
    fn first_below(&self, node: usize, least: i64) -> usize {
        let mut node = node;
        for _ in 0..LEVELS {
            if node >= self.leaves {
                break;
            }
            let left = node.saturating_mul(2);
            node = if self.at(left) >= least {
                left
            } else {
                left.saturating_add(1)
            };
        }
        node.saturating_sub(self.leaves)
    }

    /// The first place from here on whose number is no less. None if there is none.
    pub(crate) fn first(&self, from: usize, least: i64) -> Option<usize> {
        if from >= self.leaves {
            return None;
        }
        let mut node = self.leaves.saturating_add(from);
        for _ in 0..LEVELS {
            if self.at(node) >= least {
                return Some(self.first_below(node, least));
            }
            node = next_right(node);
            if node == 0 {
                break;
            }
        }
        None
    }
}

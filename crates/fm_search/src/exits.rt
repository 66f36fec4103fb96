//! The cheapest slots to which requests lead by themselves, found without a walk over all machines.
//!
//! Of machines with free slots the first by load that has room is the cheapest, and of the others the one whose next
//! slot costs least: the latter is searched for in a tree over machines by falling spare, branch and bound. Prices only
//! rise while tasks are placed, and room at a free slot is never given back. So a cursor goes over the free slots once,
//! and an exit stays the cheapest as long as its own price and room stay, unless a machine gets room again.

use crate::Tried;
use crate::board::Board;
use crate::costs::{FAR, NONE};
use crate::segment_tree::Tree;
use std::alloc::Global;

/// The cheapest slot to which a request leads by itself.
#[derive(Clone, Copy, Drop)]
pub(crate) struct Exit {
    pub(crate) price: i64,
    pub(crate) machine: usize,
}

/// No slot at all.
pub(crate) const NO_EXIT: Exit = Exit {
    price: FAR,
    machine: NONE,
};

/// What is known of a request's exits.
#[derive(Clone, Copy, Drop)]
pub(crate) struct Sought {
    /// No machine before this one has a free slot for the request.
    pub(crate) from: usize,
    /// So many machines, by falling spare, have bandwidth for one task of it.
    pub(crate) roomy: usize,
    pub(crate) is_known: bool,
    pub(crate) exit: Exit,
}

/// A branch of the tree: a node, its first leaf, and how many leaves it has.
#[derive(Clone, Copy, Drop)]
pub(crate) struct Branch {
    node: usize,
    first: usize,
    width: usize,
}

/// What exits are found by.
#[derive(Drop)]
pub(crate) struct Exits {
    pub(crate) sought: Vec<Sought>,
    /// The spare of each machine with a free slot.
    pub(crate) free: Tree,
    /// The machines by falling spare, if tasks are held.
    pub(crate) ranked: Vec<usize>,
    /// In this order, the price of the next slot of each machine without a free one, negated.
    pub(crate) kept: Tree,
    /// The branches that are yet to be searched.
    pub(crate) branches: Vec<Branch>,
}

impl Exits {
    /// None is known of so many requests.
    pub(crate) fn none(alloc: Global, requests: usize) -> Tried<Exits> {
        Ok(Exits {
            sought: Vec::with_capacity(alloc, requests)?,
            free: Tree::of(alloc, &[])?,
            ranked: Vec::new(alloc),
            kept: Tree::of(alloc, &[])?,
            branches: Vec::new(alloc),
        })
    }

    // Searches the branch later, if it has leaves among the first so many and may be cheaper.
    fn put_off(&mut self, branch: Branch, roomy: usize, below: i64) -> Tried<()> {
        let is_cheaper = self.kept.at(branch.node) > below.saturating_neg();
        if is_cheaper && branch.first < roomy {
            self.branches.push(branch)?;
        }
        Ok(())
    }

    // Searches the two halves of the branch later, the cheaper one first.
    fn divide(&mut self, branch: Branch, roomy: usize, below: i64) -> Tried<()> {
        let width = branch.width / 2;
        let left = Branch {
            node: branch.node.saturating_mul(2),
            first: branch.first,
            width,
        };
        let right = Branch {
            node: left.node.saturating_add(1),
            first: branch.first.saturating_add(width),
            width,
        };
        if self.kept.at(left.node) < self.kept.at(right.node) {
            self.put_off(left, roomy, below)?;
            self.put_off(right, roomy, below)
        } else {
            self.put_off(right, roomy, below)?;
            self.put_off(left, roomy, below)
        }
    }
}

impl Board {
    /// The cheapest slot to which one more task of the request can go by itself, and what it costs.
    pub(crate) fn exit(&mut self, request: usize) -> Tried<Exit> {
        let Some(sought) = self.exits.sought.get(request).copied() else {
            return Ok(NO_EXIT);
        };
        if sought.is_known && self.is_still(request, sought.exit) {
            return Ok(sought.exit);
        }
        let (from, free) = self.free_exit(request, sought.from);
        let exit = self.kept_exit(request, sought.roomy, free)?;
        if let Some(sought) = self.exits.sought.get_mut(request) {
            sought.from = from;
            sought.is_known = true;
            sought.exit = exit;
        }
        Ok(exit)
    }

    // Whether an exit that was found is the cheapest yet.
    fn is_still(&self, request: usize, exit: Exit) -> bool {
        exit.machine == NONE
            || (self.price(exit.machine) == exit.price && self.has_room(request, exit.machine))
    }

    /// What is known of the request's exit holds no longer if the machine, which got room again, is cheaper.
    pub(crate) fn forget_exit(&mut self, request: usize, machine: usize) {
        let price = self.price(machine);
        if let Some(sought) = self.exits.sought.get_mut(request) {
            if price < sought.exit.price {
                sought.is_known = false;
            }
        }
    }

    // The first machine by load with a free slot for the request, from this one on.
    fn free_exit(&self, request: usize, from: usize) -> (usize, Exit) {
        let size = self.instance.request(request).size;
        let mut from = from;
        for _ in 0..self.slots.len() {
            let Some(machine) = self.exits.free.first(from, size) else {
                from = self.slots.len();
                break;
            };
            from = machine;
            if self.has_room(request, machine) {
                let price = self.instance.machine(machine).load;
                return (from, Exit { price, machine });
            }
            from = machine.saturating_add(1);
        }
        (from, NO_EXIT)
    }

    // The cheaper of the exit and the machine without free slots, among the first so many by falling spare, that has room for the request
    // and the cheapest next slot.
    fn kept_exit(&mut self, request: usize, roomy: usize, free: Exit) -> Tried<Exit> {
        let mut exit = free;
        let root = Branch {
            node: 1,
            first: 0,
            width: self.exits.kept.width(),
        };
        self.exits.branches.clear();
        self.exits.put_off(root, roomy, exit.price)?;
        for _ in 0..root.width.saturating_mul(2) {
            let Some(branch) = self.exits.branches.pop() else {
                break;
            };
            if branch.width > 1 {
                self.exits.divide(branch, roomy, exit.price)?;
            } else {
                exit = self.cheaper_exit(request, branch, exit);
            }
        }
        Ok(exit)
    }

    // The cheaper of the exit and the machine at the leaf, if that has room for the request.
    fn cheaper_exit(&self, request: usize, leaf: Branch, exit: Exit) -> Exit {
        let price = self.exits.kept.at(leaf.node).saturating_neg();
        let Some(machine) = self.exits.ranked.get(leaf.first).copied() else {
            return exit;
        };
        if price < exit.price && self.has_room(request, machine) {
            Exit { price, machine }
        } else {
            exit
        }
    }
}

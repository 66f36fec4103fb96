//! Blocks of pairs, which maps share until one of them writes (copy on write).
//!
//! A copy of a map for a history or a packet would cost each of its pairs. So a block is either owned by one map, which
//! writes it in place, or shared through a counted pointer and only read. A map that writes a shared block copies its
//! pairs first, and the other maps keep theirs. A block that was shared once is copied even if no other map has it any
//! more.

ghost use Rattle.std.specs.Prelude.{◌≡◌, ◌≤◌, ◌<◌, ◌+◌, ◌++◌, ◌∷◌, [], List, None, true, IfOk, OnOk, OnErr, length, vec_len, vec_capacity};
ghost use Rattle.fm_lattice.specs.Maps.{IsRising, lookup, put, keep_new};
ghost use Rattle.fm_lattice.specs.Stocks.{alone};

use crate::blocks::FULL;
use crate::chain::Chain;
use crate::join::{Join, OutOfMemory, copied};
use crate::sorted_vec::set_within;
use std::alloc::Global;
use std::marker::Model;
use std::mem;
use std::sync::Arc;

/// Pairs that one map has alone, or that several maps share.
#[derive(Drop)]
pub struct Block<K, V> {
    held: Held<K, V>,
}

#[derive(Drop)]
enum Held<K, V> {
    Own(Vec<(K, V)>),
    Shared(Arc<Vec<(K, V)>, Global>),
}

impl<K, V> Model for Block<K, V> {
    ghost use Rattle.fm_lattice.specs.Stocks.{Stock};

    ghost Value = { Stock (K × V) };

    ghost use Rattle.fm_lattice.specs.Ownership.{stock_of};

    ghost view = { λ b. stock_of b.held };
}

impl<K, V> Block<K, V> {
    // A block that one map has alone.
    pub(crate) fn of(pairs: Vec<(K, V)>) -> Block<K, V>
        ensures { result ≡ alone pairs }
    {
        Block {
            held: Held::Own(pairs),
        }
    }

    pub(crate) fn pairs(&self) -> &[(K, V)]
        ensures { result.now ≡ self.now.items }
    {
        match &self.held {
            Held::Own(pairs) => pairs,
            Held::Shared(pairs) => pairs,
        }
    }

    // For how many pairs there is room in place.
    pub(crate) fn room(&self) -> usize
        ensures { result ≡ self.now.room }
    {
        match &self.held {
            Held::Own(pairs) => pairs.capacity(),
            Held::Shared(_) => 0,
        }
    }
}

impl<K: Chain, V: Drop> Block<K, V> {
    // Sets the value at the key, for which there is room, so nothing can fail.
    pub(crate) fn set(&mut self, key: K, value: V)
        requires owned { self.old.owned ≡ true }
        requires rising { IsRising K.cmp self.old.items }
        requires room { lookup K.cmp key self.old.items ≡ None → length self.old.items < self.old.room }
        ensures items { self.new.items ≡ put K.cmp keep_new key value self.old.items }
        ensures owned { self.new.owned ≡ true }
        ensures keeps { length self.old.items ≤ length self.new.items }
        ensures grows { length self.new.items ≤ length self.old.items + 1 }
    {
        match &mut self.held {
            Held::Own(pairs) => set_within(pairs, key, value),
            Held::Shared(_) => unreachable!(),
        }
    }

    // Moves the pairs to the spare block, which has more room.
    pub(crate) fn enlarge(&mut self, mut spare: Vec<(K, V)>)
        requires owned { self.old.owned ≡ true }
        requires empty { vec_len spare ≡ 0 }
        requires more { length self.old.items < vec_capacity spare }
        ensures items { self.new.items ≡ self.old.items }
        ensures owned { self.new.owned ≡ true }
        ensures room { length self.new.items < self.new.room }
    {
        match &mut self.held {
            Held::Own(pairs) => {
                spare.append(pairs).unwrap();
                *pairs = spare;
            }
            Held::Shared(_) => unreachable!(),
        }
    }

    // Moves the given number of last pairs into the spare block.
    pub(crate) fn move_last(&mut self, spare: &mut Vec<(K, V)>, count: usize)
        requires owned { self.old.owned ≡ true }
        requires empty { vec_len spare.old ≡ 0 }
        requires enough { count ≤ length self.old.items }
        requires room { count ≤ vec_capacity spare.old }
        ensures parts { self.new.items ++ spare.new.items ≡ self.old.items }
        ensures len { vec_len spare.new ≡ count }
        ensures owned { self.new.owned ≡ true }
        ensures room { length self.old.items ≤ self.new.room }
        ensures spare_room { vec_capacity spare.old ≤ vec_capacity spare.new }
    {
        match &mut self.held {
            Held::Own(pairs) => move_last(pairs, spare, count),
            Held::Shared(_) => unreachable!(),
        }
    }

    // The same pairs for one more map, shared from then on. A block that is already shared costs a pointer. If memory
    // runs out, the pairs are unchanged.
    pub(crate) fn share(&mut self) -> Result<Block<K, V>, OutOfMemory>
        ensures same { IfOk result (λ block. block.items ≡ self.old.items) }
        ensures items { self.new.items ≡ self.old.items }
    {
        if let Held::Own(pairs) = &mut self.held {
            let alloc = *pairs.allocator();
            match Arc::new(alloc, mem::replace(pairs, Vec::new(alloc))) {
                Ok(shared) => self.held = Held::Shared(shared),
                Err(refused) => {
                    *pairs = refused.value;
                    return Err(OutOfMemory);
                }
            }
        }
        match &self.held {
            Held::Own(_) => Err(OutOfMemory),
            Held::Shared(pairs) => Ok(Block {
                held: Held::Shared(Arc::try_clone(pairs)?),
            }),
        }
    }
}

impl<K: Chain, V: Join> Block<K, V> {
    // The same pairs again: a pointer if they are shared, else a copy of each.
    pub(crate) fn copy(&self) -> Result<Block<K, V>, OutOfMemory>
        ensures { IfOk result (λ block. block.items ≡ self.now.items) }
    {
        match &self.held {
            Held::Own(pairs) => Ok(Block {
                held: Held::Own(copied_pairs(pairs)?),
            }),
            Held::Shared(pairs) => Ok(Block {
                held: Held::Shared(Arc::try_clone(pairs)?),
            }),
        }
    }

    // Makes the map the only owner of the block: if it was shared, each pair is copied, even if no other map has it
    // any more. If memory runs out, the pairs are unchanged.
    pub(crate) fn own(&mut self) -> Result<(), OutOfMemory>
        ensures items { self.new.items ≡ self.old.items }
        ensures owned { OnOk result (self.new.owned ≡ true) }
    {
        if let Held::Shared(pairs) = &self.held {
            self.held = Held::Own(copied_pairs(pairs)?);
        }
        Ok(())
    }

    // Makes the map the only owner of the block, and reserves room for as many more pairs, up to a full block.
    // If memory runs out, the pairs are unchanged.
    pub(crate) fn own_for(&mut self, more: usize) -> Result<(), OutOfMemory>
        ensures items { self.new.items ≡ self.old.items }
        ensures owned { OnOk result (self.new.owned ≡ true) }
    {
        self.own()?;
        match &mut self.held {
            Held::Own(pairs) => pairs.reserve(more.min(FULL.saturating_sub(pairs.len())))?,
            Held::Shared(_) => unreachable!(),
        }
        Ok(())
    }

    // Makes the map the only owner of the block, with room for one more pair. If memory runs out, the pairs are
    // unchanged.
    pub(crate) fn reserve_one(&mut self) -> Result<(), OutOfMemory>
        ensures items { self.new.items ≡ self.old.items }
        ensures owned { OnOk result (self.new.owned ≡ true) }
        ensures room { OnOk result (length self.new.items < self.new.room) }
    {
        self.own()?;
        match &mut self.held {
            Held::Own(pairs) => pairs.reserve(1)?,
            Held::Shared(_) => unreachable!(),
        }
        Ok(())
    }

    // Adds the pair at the end. If memory runs out, the pairs are unchanged.
    pub(crate) fn push(&mut self, key: K, value: V) -> Result<(), OutOfMemory>
        ensures ok { OnOk result (self.new.items ≡ self.old.items ++ (key, value) ∷ []) }
        ensures err { OnErr result (self.new.items ≡ self.old.items) }
    {
        self.own()?;
        match &mut self.held {
            Held::Own(pairs) => pairs.push((key, value))?,
            Held::Shared(_) => unreachable!(),
        }
        Ok(())
    }
}

// A copy of each pair, with room for one more.
fn copied_pairs<K: Chain, V: Join>(pairs: &Vec<(K, V)>) -> Result<Vec<(K, V)>, OutOfMemory>
    ensures { IfOk result (λ copies. copies.items ≡ pairs.now.items) }
{
    let mut copies = Vec::with_capacity(*pairs.allocator(), pairs.len().saturating_add(1))?;
    for pair in pairs.as_slice() {
        copies.push((pair.0, copied(&pair.1)?))?;
    }
    Ok(copies)
}

fn move_last<X: Drop>(from: &mut Vec<X>, to: &mut Vec<X>, count: usize)
    requires empty { vec_len to.old ≡ 0 }
    requires enough { count ≤ vec_len from.old }
    requires room { count ≤ vec_capacity to.old }
    ensures parts { from.new.items ++ to.new.items ≡ from.old.items }
    ensures len { vec_len to.new ≡ count }
    ensures from_capacity { vec_capacity from.new ≡ vec_capacity from.old }
    ensures to_capacity { vec_capacity to.old ≤ vec_capacity to.new }
{
    let keep = from.len() - count;
    while from.len() > keep {
        if let Some(last) = from.pop() {
            to.push(last).unwrap();
        }
    }
    to.reverse();
}

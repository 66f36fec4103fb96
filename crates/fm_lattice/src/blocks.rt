//! Pairs by rising key in blocks of up to 64, so that a new key moves the pairs of its block and not those of the map.
//!
//! The blocks lie in an array, each with its first key: a binary search finds the block, and another one the key in it,
//! O(log n). A full block is split in halves before it takes one more pair, as the leaf of a B-tree is (Bayer and
//! McCreight, 1972). A key after all others only takes the last pair along, so keys that come in order leave full
//! blocks. A split also moves the entries of the later blocks in the array.

ghost use Rattle.std.specs.Prelude.{◌≡◌, ◌+◌, ◌≤◌, ◌<◌, ◌++◌, ℕ, List, None, IsTrue, true, false, IfOk, OnOk, length, option_copied, slice_index_or, vec_len, vec_capacity};
ghost use Rattle.fm_lattice.specs.Maps.{IsRising, lookup, put, keep_new};
ghost use Rattle.fm_lattice.specs.Blocks.{pairs_of};
ghost use Rattle.fm_lattice.specs.inner.BlockOrder.{BeginsWith, AreHeaded, IsAbove, IsBlockOf, IsBlockFor, GoesToOwned, IsOwnedAt, HasAt, TakesKey, IsSpare};

use crate::block::Block;
use crate::chain::Chain;
use crate::join::{Join, OutOfMemory};
use crate::sorted_vec::search;
use std::alloc::Global;
use std::cmp::Ordering;

// A block of this many pairs is split before it takes one more.
pub(crate) const FULL: usize = 64;

// A spare block has room for at least this many pairs: a last pair, and a key after it.
pub(crate) const LEAST: usize = 2;

// Whether the key comes after all that are there.
pub(crate) fn comes_last<K: Chain, V>(blocks: &[(K, Block<K, V>)], key: &K) -> bool
    requires headed { AreHeaded blocks.now }
    requires rising { IsRising K.cmp (pairs_of blocks.now) }
    ensures above { IsTrue result → IsAbove K.cmp key.now (pairs_of blocks.now) }
    ensures some { result ≡ false → 0 < length blocks.now }
{
    let count = blocks.len();
    count == 0 || ends_below(blocks[count - 1].1.pairs(), key)
}

// Whether there are pairs, and the key comes after them.
fn ends_below<K: Chain, V>(pairs: &[(K, V)], key: &K) -> bool
    requires { IsRising K.cmp pairs.now }
    ensures { IsTrue result → IsAbove K.cmp key.now pairs.now }
{
    let count = pairs.len();
    count > 0 && matches!(pairs[count - 1].0.cmp(key), Ordering::Less)
}

// Where the key's block is. O(log n).
pub(crate) fn block_of<K: Chain, V>(blocks: &[(K, Block<K, V>)], key: &K) -> usize
    requires some { 0 < length blocks.now }
    requires headed { AreHeaded blocks.now }
    requires rising { IsRising K.cmp (pairs_of blocks.now) }
    ensures block { IsBlockOf K.cmp key.now blocks.now result }
    ensures home { IsBlockFor K.cmp key.now blocks.now result }
{
    match search(blocks, key) {
        Ok(at) => at,
        Err(0) => 0,
        Err(at) => at - 1,
    }
}

// The value at the key, if the key is there. O(log n).
pub(crate) fn value_at<'a, K: Chain, V>(blocks: &'a [(K, Block<K, V>)], key: &K) -> Option<&'a V>
    requires headed { AreHeaded blocks.now }
    requires rising { IsRising K.cmp (pairs_of blocks.now) }
    ensures { option_copied result ≡ lookup K.cmp key.now (pairs_of blocks.now) }
{
    if blocks.is_empty() {
        return None;
    }
    value_in(blocks[block_of(blocks, key)].1.pairs(), key)
}

// The value at the key, if the key is there. O(log n).
pub(crate) fn value_in<'a, K: Chain, V>(pairs: &'a [(K, V)], key: &K) -> Option<&'a V>
    requires { IsRising K.cmp pairs.now }
    ensures { option_copied result ≡ lookup K.cmp key.now pairs.now }
{
    match search(pairs, key) {
        Ok(at) => Some(&pairs[at].1),
        Err(_) => None,
    }
}

// Makes the map the only owner of the key's block, reserves room there for as many more pairs, and returns the
// block's place. O(log n), and a copy of the block's pairs if it was shared. If memory runs out, the pairs are
// unchanged.
pub(crate) fn own_block<K: Chain, V: Join>(
    blocks: &mut Vec<(K, Block<K, V>)>,
    key: &K,
    more: usize,
) -> Result<usize, OutOfMemory>
    requires some { 0 < vec_len blocks.old }
    requires headed { AreHeaded blocks.old.items }
    requires rising { IsRising K.cmp (pairs_of blocks.old.items) }
    ensures pairs { pairs_of blocks.new.items ≡ pairs_of blocks.old.items }
    ensures headed { AreHeaded blocks.new.items }
    ensures len { vec_len blocks.new ≡ vec_len blocks.old }
    ensures block { IfOk result (IsBlockOf K.cmp key.now blocks.new.items) }
    ensures alone { IfOk result (IsOwnedAt blocks.new.items) }
    ensures owned { OnOk result (GoesToOwned K.cmp blocks.new.items key.now) }
    ensures keeps { OnOk result ((k : K) → GoesToOwned K.cmp blocks.old.items k
        → GoesToOwned K.cmp blocks.new.items k) }
{
    let at = block_of(blocks, key);
    own(&mut blocks[at], more)?;
    Ok(at)
}

fn own<K: Chain, V: Join>(block: &mut (K, Block<K, V>), more: usize) -> Result<(), OutOfMemory>
    ensures key { block.new.0 ≡ block.old.0 }
    ensures items { block.new.1.items ≡ block.old.1.items }
    ensures owned { OnOk result (block.new.1.owned ≡ true) }
{
    block.1.own_for(more)
}

// Makes room in the key's block, which is split if it is full, and returns the block's place.
// If memory runs out, the pairs are unchanged.
pub(crate) fn make_room<K: Chain, V: Join>(
    blocks: &mut Vec<(K, Block<K, V>)>,
    key: &K,
) -> Result<usize, OutOfMemory>
    requires some { 0 < vec_len blocks.old }
    requires headed { AreHeaded blocks.old.items }
    requires rising { IsRising K.cmp (pairs_of blocks.old.items) }
    ensures takes { IfOk result (TakesKey K.cmp key.now blocks.new.items) }
    ensures pairs { pairs_of blocks.new.items ≡ pairs_of blocks.old.items }
    ensures headed { AreHeaded blocks.new.items }
{
    let at = own_block(blocks, key, 0)?;
    if blocks[at].1.pairs().len() < FULL {
        reserve_one(&mut blocks[at])?;
        return Ok(at);
    }
    blocks.reserve(1)?;
    let spare = Vec::with_capacity(*blocks.allocator(), FULL)?;
    let count = moved_count(blocks, at, key);
    Ok(cut(blocks, at, spare, count, key))
}

fn reserve_one<K: Chain, V: Join>(block: &mut (K, Block<K, V>)) -> Result<(), OutOfMemory>
    ensures key { block.new.0 ≡ block.old.0 }
    ensures items { block.new.1.items ≡ block.old.1.items }
    ensures owned { OnOk result (block.new.1.owned ≡ true) }
    ensures room { OnOk result (length block.new.1.items < block.new.1.room) }
{
    block.1.reserve_one()
}

// As `make_room`, with a spare block instead of the allocator, so nothing can fail. With a full-size spare block the
// key's block is split in halves, even if it is not full, so that both have room for a few more keys. A full block
// with a small spare block moves its last pair there.
pub(crate) fn take_room<K: Chain, V: Drop>(
    blocks: &mut Vec<(K, Block<K, V>)>,
    spare: Vec<(K, V)>,
    key: &K,
) -> usize
    requires some { 0 < vec_len blocks.old }
    requires headed { AreHeaded blocks.old.items }
    requires rising { IsRising K.cmp (pairs_of blocks.old.items) }
    requires owned { GoesToOwned K.cmp blocks.old.items key.now }
    requires empty { vec_len spare ≡ 0 }
    requires spare { lookup K.cmp key.now (pairs_of blocks.old.items) ≡ None → 2 ≤ vec_capacity spare }
    requires room { vec_len blocks.old < vec_capacity blocks.old }
    ensures takes { TakesKey K.cmp key.now blocks.new.items result }
    ensures pairs { pairs_of blocks.new.items ≡ pairs_of blocks.old.items }
    ensures headed { AreHeaded blocks.new.items }
    ensures owned { (k : K) → GoesToOwned K.cmp blocks.old.items k → GoesToOwned K.cmp blocks.new.items k }
    ensures keeps { vec_len blocks.old ≤ vec_len blocks.new }
    ensures grows { vec_len blocks.new ≤ vec_len blocks.old + 1 }
    ensures capacity { vec_capacity blocks.new ≡ vec_capacity blocks.old }
{
    let at = block_of(blocks, key);
    let len = blocks[at].1.pairs().len();
    let room = blocks[at].1.room();
    let capacity = spare.capacity();
    // The key is there, and needs no room.
    if capacity < LEAST {
        return at;
    }
    let whole = capacity >= FULL;
    if !whole && len < room {
        return at;
    }
    if len < FULL / 2 && len < capacity {
        enlarge(&mut blocks[at], spare);
        return at;
    }
    let count = fewer(moved_count(blocks, at, key), len, whole);
    cut(blocks, at, spare, count, key)
}

// How many of a block's pairs go to the spare one: as many as wanted, but at most half of them; one, if the spare
// block is small.
fn fewer(count: usize, len: usize, whole: bool) -> usize
    requires some { 0 < count }
    requires half { count ≤ 32 }
    requires two { 2 ≤ len }
    ensures some { 0 < result }
    ensures less { result + 1 ≤ len }
    ensures half { result ≤ 32 }
    ensures one { whole ≡ false → result ≡ 1 }
{
    if whole { count.min(len / 2) } else { 1 }
}

// Moves the block's pairs to the spare one, which has more room.
fn enlarge<K: Chain, V: Drop>(block: &mut (K, Block<K, V>), spare: Vec<(K, V)>)
    requires owned { block.old.1.owned ≡ true }
    requires empty { vec_len spare ≡ 0 }
    requires more { length block.old.1.items < vec_capacity spare }
    ensures key { block.new.0 ≡ block.old.0 }
    ensures items { block.new.1.items ≡ block.old.1.items }
    ensures owned { block.new.1.owned ≡ true }
    ensures room { length block.new.1.items < block.new.1.room }
{
    block.1.enlarge(spare);
}

// Splits a block: the given number of last pairs go to the spare one. Returns which of both is the key's.
fn cut<K: Chain, V: Drop>(
    blocks: &mut Vec<(K, Block<K, V>)>,
    at: usize,
    spare: Vec<(K, V)>,
    count: usize,
    key: &K,
) -> usize
    requires block { IsBlockOf K.cmp key.now blocks.old.items at }
    requires owned { IsOwnedAt blocks.old.items at }
    requires some { 0 < count }
    requires more { HasAt (count + 1) blocks.old.items at }
    requires headed { AreHeaded blocks.old.items }
    requires rising { IsRising K.cmp (pairs_of blocks.old.items) }
    requires spare { IsSpare (count + 1) spare }
    requires room { vec_len blocks.old < vec_capacity blocks.old }
    ensures takes { TakesKey K.cmp key.now blocks.new.items result }
    ensures pairs { pairs_of blocks.new.items ≡ pairs_of blocks.old.items }
    ensures headed { AreHeaded blocks.new.items }
    ensures owned { (k : K) → GoesToOwned K.cmp blocks.old.items k → GoesToOwned K.cmp blocks.new.items k }
    ensures grows { vec_len blocks.new ≡ vec_len blocks.old + 1 }
    ensures capacity { vec_capacity blocks.new ≡ vec_capacity blocks.old }
{
    let upper = split(&mut blocks[at], spare, count);
    let first = upper.0;
    blocks.insert(at + 1, upper).unwrap();
    match key.cmp(&first) {
        Ordering::Less => at,
        Ordering::Equal => at + 1,
        Ordering::Greater => at + 1,
    }
}

// How many pairs of a full block go to a new one: half of them, but only the last if the key goes to the end of the
// map, so that keys that come in order leave full blocks.
fn moved_count<K: Chain, V>(blocks: &[(K, Block<K, V>)], at: usize, key: &K) -> usize
    requires { at < length blocks.now }
    ensures some { 0 < result }
    ensures half { result ≤ 32 }
{
    if at + 1 == blocks.len()
        && blocks[at]
            .1
            .pairs()
            .last()
            .is_some_and(|pair| pair.0 < *key)
    {
        1
    } else {
        FULL / 2
    }
}

// Moves the last pairs, so many of them, into the spare block.
fn split<K: Chain, V: Drop>(
    block: &mut (K, Block<K, V>),
    mut spare: Vec<(K, V)>,
    count: usize,
) -> (K, Block<K, V>)
    requires owned { block.old.1.owned ≡ true }
    requires spare { IsSpare (count + 1) spare }
    requires some { 0 < count }
    requires more { count + 1 ≤ length block.old.1.items }
    ensures parts { block.new.1.items ++ result.1.items ≡ block.old.1.items }
    ensures key { block.new.0 ≡ block.old.0 }
    ensures first { BeginsWith result.0 result.1.items }
    ensures lower { 0 < length block.new.1.items }
    ensures lower_owned { block.new.1.owned ≡ true }
    ensures lower_room { length block.new.1.items < block.new.1.room }
    ensures upper_owned { result.1.owned ≡ true }
    ensures upper_room { length result.1.items < result.1.room }
{
    block.1.move_last(&mut spare, count);
    (spare[0].0, Block::of(spare))
}

// Sets the value at the key in its block, which has room for it, so nothing can fail. Returns by how many the pairs
// grew.
pub(crate) fn write<K: Chain, V: Drop>(
    blocks: &mut Vec<(K, Block<K, V>)>,
    at: usize,
    key: K,
    value: V,
) -> usize
    requires takes { TakesKey K.cmp key blocks.old.items at }
    requires headed { AreHeaded blocks.old.items }
    requires rising { IsRising K.cmp (pairs_of blocks.old.items) }
    ensures pairs { pairs_of blocks.new.items ≡ put K.cmp keep_new key value (pairs_of blocks.old.items) }
    ensures headed { AreHeaded blocks.new.items }
    ensures counted { length (pairs_of blocks.new.items) ≡ length (pairs_of blocks.old.items) + result }
    ensures owned { (k : K) → GoesToOwned K.cmp blocks.old.items k → GoesToOwned K.cmp blocks.new.items k }
    ensures few { result ≤ 1 }
    ensures len { vec_len blocks.new ≡ vec_len blocks.old }
    ensures capacity { vec_capacity blocks.new ≡ vec_capacity blocks.old }
{
    write_in(&mut blocks[at], key, value)
}

fn write_in<K: Chain, V: Drop>(block: &mut (K, Block<K, V>), key: K, value: V) -> usize
    requires owned { block.old.1.owned ≡ true }
    requires rising { IsRising K.cmp block.old.1.items }
    requires room { lookup K.cmp key block.old.1.items ≡ None → length block.old.1.items < block.old.1.room }
    ensures items { block.new.1.items ≡ put K.cmp keep_new key value block.old.1.items }
    ensures first { BeginsWith block.new.0 block.new.1.items }
    ensures owned { block.new.1.owned ≡ true }
    ensures counted { length block.old.1.items + result ≡ length block.new.1.items }
    ensures few { result ≤ 1 }
{
    let before = block.1.pairs().len();
    block.1.set(key, value);
    block.0 = block.1.pairs()[0].0;
    block.1.pairs().len() - before
}

// The same blocks again: a pointer to each that is shared, a copy of each other.
pub(crate) fn copied_blocks<K: Chain, V: Join>(
    alloc: Global,
    blocks: &[(K, Block<K, V>)],
) -> Result<Vec<(K, Block<K, V>)>, OutOfMemory>
    requires { AreHeaded blocks.now }
    ensures pairs { IfOk result (λ copies. pairs_of copies.items ≡ pairs_of blocks.now) }
    ensures headed { IfOk result (λ copies. AreHeaded copies.items) }
{
    let mut copies = Vec::with_capacity(alloc, blocks.len())?;
    for block in blocks {
        copies.push((block.0, block.1.copy()?))?;
    }
    Ok(copies)
}

// The same blocks again, each shared from then on. If memory runs out, the pairs are unchanged.
pub(crate) fn shared_blocks<K: Chain, V: Drop>(
    blocks: &mut Vec<(K, Block<K, V>)>,
) -> Result<Vec<(K, Block<K, V>)>, OutOfMemory>
    requires { AreHeaded blocks.old.items }
    ensures same { pairs_of blocks.new.items ≡ pairs_of blocks.old.items }
    ensures same_headed { AreHeaded blocks.new.items }
    ensures pairs { IfOk result (λ others. pairs_of others.items ≡ pairs_of blocks.old.items) }
    ensures headed { IfOk result (λ others. AreHeaded others.items) }
{
    let mut others = Vec::with_capacity(*blocks.allocator(), blocks.len())?;
    for at in 0..blocks.len() {
        others.push(share_one(&mut blocks[at])?)?;
    }
    Ok(others)
}

fn share_one<K: Chain, V: Drop>(
    block: &mut (K, Block<K, V>),
) -> Result<(K, Block<K, V>), OutOfMemory>
    ensures key { block.new.0 ≡ block.old.0 }
    ensures items { block.new.1.items ≡ block.old.1.items }
    ensures other_key { IfOk result (λ other. other.0 ≡ block.old.0) }
    ensures other_items { IfOk result (λ other. other.1.items ≡ block.old.1.items) }
{
    Ok((block.0, block.1.share()?))
}

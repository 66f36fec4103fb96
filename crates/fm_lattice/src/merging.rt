//! Joins of two maps in blocks: one merge of both, or changes in place if the other map is small.
//!
//! A merge walks along both maps, O(n + m), which is too much for a delta of one key. For few keys `changes` looks each
//! of them up and allocates what its change may need, O(m log n). Then `apply` makes all changes and cannot fail.

ghost use Rattle.std.specs.Prelude.{◌≡◌, ◌↔◌, IsTrue, ◌+◌, ◌≤◌, ◌<◌, ◌++◌, ◌∷◌, [], List, None, IfOk, OnOk, OnErr, map, length, vec_len, vec_capacity};
ghost use Rattle.fm_lattice.specs.Maps.{IsRising, lookup, put, map_join, keep_new};
ghost use Rattle.fm_lattice.specs.inner.JoinedPairs.{joined_onto, joined_pair};
ghost use Rattle.fm_lattice.specs.Blocks.{pairs_of};
ghost use Rattle.fm_lattice.specs.inner.BlockOrder.{AreHeaded, HaveSpares, GoesToOwned, GoToOwned};

use crate::block::Block;
use crate::blocks::{
    FULL, LEAST, block_of, comes_last, own_block, take_room, value_at, value_in, write,
};
use crate::chain::Chain;
use crate::join::{Join, OutOfMemory, copied, equal};
use crate::pairs::Pairs;
use crate::split_budget::SplitBudget;
use std::alloc::Global;
use std::cmp::Ordering;

// The pairs of both, joined if a key is in both, in blocks that are filled in order. O(n + m).
pub(crate) fn merged<K: Chain, V: Join>(
    alloc: Global,
    left: &[(K, Block<K, V>)],
    right: &[(K, Block<K, V>)],
) -> Result<Vec<(K, Block<K, V>)>, OutOfMemory>
    requires left_headed { AreHeaded left.now }
    requires right_headed { AreHeaded right.now }
    requires right_rises { IsRising K.cmp (pairs_of right.now) }
    ensures pairs { IfOk result (λ blocks. pairs_of blocks.items
        ≡ map_join K.cmp V.join (pairs_of left.now) (pairs_of right.now)) }
    ensures headed { IfOk result (λ blocks. AreHeaded blocks.items) }
{
    let mut done = Vec::new(alloc);
    let mut lefts = Pairs::of(left);
    let mut rights = Pairs::of(right);
    'both: while let (Some(here), Some(there)) = (lefts.first(), rights.first()) {
        match here.0.cmp(&there.0) {
            Ordering::Less => {
                append(&mut done, here.0, copied(&here.1)?)?;
                lefts.skip_first();
            }
            Ordering::Equal => {
                append(&mut done, here.0, here.1.joined(&there.1)?)?;
                lefts.skip_first();
                rights.skip_first();
            }
            Ordering::Greater => {
                append(&mut done, there.0, copied(&there.1)?)?;
                rights.skip_first();
            }
        }
    }
    append_rest(&mut done, lefts)?;
    append_rest(&mut done, rights)?;
    Ok(done)
}

// Whether the join of both is the right one: each pair of the left has its key there, with a value above its own. O(n +
// m).
pub(crate) fn is_below<K: Chain, V: Join>(
    left: &[(K, Block<K, V>)],
    right: &[(K, Block<K, V>)],
) -> bool
    requires left_headed { AreHeaded left.now }
    requires right_headed { AreHeaded right.now }
    requires right_rises { IsRising K.cmp (pairs_of right.now) }
    ensures { IsTrue result ↔ map_join K.cmp V.join (pairs_of left.now) (pairs_of right.now) ≡ pairs_of right.now }
{
    let mut lefts = Pairs::of(left);
    let mut rights = Pairs::of(right);
    'both: while let (Some(here), Some(there)) = (lefts.first(), rights.first()) {
        match here.0.cmp(&there.0) {
            Ordering::Less => return false,
            Ordering::Equal => {
                if !here.1.leq(&there.1) {
                    return false;
                }
                lefts.skip_first();
                rights.skip_first();
            }
            Ordering::Greater => rights.skip_first(),
        }
    }
    match lefts.first() {
        Some(_) => false,
        None => true,
    }
}

// Whether both have the same pairs. O(n + m).
pub(crate) fn are_same<K: Chain, V: Join>(
    left: &[(K, Block<K, V>)],
    right: &[(K, Block<K, V>)],
) -> bool
    requires left_headed { AreHeaded left.now }
    requires right_headed { AreHeaded right.now }
    ensures { IsTrue result ↔ (pairs_of left.now ≡ pairs_of right.now) }
{
    let mut lefts = Pairs::of(left);
    let mut rights = Pairs::of(right);
    'both: while let (Some(here), Some(there)) = (lefts.first(), rights.first()) {
        if !is_same(here, there) {
            return false;
        }
        lefts.skip_first();
        rights.skip_first();
    }
    lefts.first().is_none() && rights.first().is_none()
}

// Whether both have the same key and the same value.
fn is_same<K: Chain, V: Join>(here: &(K, V), there: &(K, V)) -> bool
    ensures { IsTrue result ↔ (here.now ≡ there.now) }
{
    here.0.cmp(&there.0).is_eq() && equal(&here.1, &there.1)
}

// Adds a copy of each.
fn append_rest<K: Chain, V: Join>(
    blocks: &mut Vec<(K, Block<K, V>)>,
    mut rest: Pairs<'_, K, V>,
) -> Result<(), OutOfMemory>
    requires { AreHeaded blocks.old.items }
    ensures pairs { OnOk result (pairs_of blocks.new.items ≡ pairs_of blocks.old.items ++ rest.entry) }
    ensures headed { OnOk result (AreHeaded blocks.new.items) }
{
    'rest: while let Some(pair) = rest.first() {
        append(blocks, pair.0, copied(&pair.1)?)?;
        rest.skip_first();
    }
    Ok(())
}

// Adds the pair at the end. If memory runs out, the pairs are unchanged.
pub(crate) fn append<K: Chain, V: Join>(
    blocks: &mut Vec<(K, Block<K, V>)>,
    key: K,
    value: V,
) -> Result<(), OutOfMemory>
    requires { AreHeaded blocks.old.items }
    ensures pairs { OnOk result (pairs_of blocks.new.items ≡ pairs_of blocks.old.items ++ (key, value) ∷ []) }
    ensures headed { OnOk result (AreHeaded blocks.new.items) }
    ensures err { OnErr result ((pairs_of blocks.new.items ≡ pairs_of blocks.old.items) × AreHeaded blocks.new.items) }
{
    let count = blocks.len();
    if count > 0 && blocks[count - 1].1.pairs().len() < FULL {
        push_in(&mut blocks[count - 1], key, value)?;
        return Ok(());
    }
    let room = if count == 0 { 1 } else { FULL };
    let mut pairs = Vec::with_capacity(*blocks.allocator(), room)?;
    pairs.push((key, value))?;
    blocks.push((key, Block::of(pairs)))?;
    Ok(())
}

fn push_in<K: Chain, V: Join>(
    block: &mut (K, Block<K, V>),
    key: K,
    value: V,
) -> Result<(), OutOfMemory>
    ensures key { block.new.0 ≡ block.old.0 }
    ensures items { OnOk result (block.new.1.items ≡ block.old.1.items ++ (key, value) ∷ []) }
    ensures err { OnErr result (block.new.1.items ≡ block.old.1.items) }
{
    block.1.push(key, value)
}

// How many pairs there are.
pub(crate) fn counted<K, V>(blocks: &[(K, Block<K, V>)]) -> Result<usize, OutOfMemory>
    ensures { IfOk result (λ count. count ≡ length (pairs_of blocks.now)) }
{
    let mut count = 0usize;
    for block in blocks {
        let len = block.1.pairs().len();
        if usize::MAX - count < len {
            return Err(OutOfMemory);
        }
        count += len;
    }
    Ok(count)
}

// The value joined to what stands at its key, if anything does. O(log n).
pub(crate) fn joined_at<K: Chain, V: Join>(
    blocks: &[(K, Block<K, V>)],
    key: &K,
    value: V,
) -> Result<V, OutOfMemory>
    requires headed { AreHeaded blocks.now }
    requires rising { IsRising K.cmp (pairs_of blocks.now) }
    ensures { IfOk result (λ r. r ≡ joined_onto V.join (lookup K.cmp key.now (pairs_of blocks.now)) value) }
{
    match value_at(blocks, key) {
        Some(there) => there.joined(&value),
        None => Ok(value),
    }
}

// For each key of the right, the value of the join, and a spare block if the left lacks the key: a full-size one if a
// block may have to be split for it, else one for two pairs. The left becomes the only owner of each block to which
// one of the keys goes, with room for the new ones that it can hold. O(m log n), and a copy of each such block that
// was shared. If memory runs out, the pairs are unchanged.
pub(crate) fn changes<K: Chain, V: Join>(
    left: &mut Vec<(K, Block<K, V>)>,
    right: &[(K, Block<K, V>)],
    count: usize,
) -> Result<Vec<((K, V), Vec<(K, V)>)>, OutOfMemory>
    requires some { 0 < vec_len left.old }
    requires left_headed { AreHeaded left.old.items }
    requires left_rises { IsRising K.cmp (pairs_of left.old.items) }
    requires right_headed { AreHeaded right.now }
    ensures left_pairs { pairs_of left.new.items ≡ pairs_of left.old.items }
    ensures left_headed { AreHeaded left.new.items }
    ensures left_len { vec_len left.new ≡ vec_len left.old }
    ensures pairs { IfOk result (λ changes. map (λ c. c.0) changes.items
        ≡ map (joined_pair K.cmp V.join (pairs_of left.old.items)) (pairs_of right.now)) }
    ensures spares { IfOk result (λ changes. HaveSpares K.cmp 2 (pairs_of left.old.items) changes.items) }
    ensures owned { IfOk result (λ changes. GoToOwned K.cmp left.new.items changes.items) }
{
    let alloc = *left.allocator();
    let mut changes = Vec::with_capacity(alloc, count)?;
    let mut filling = SplitBudget::new();
    let mut rest = Pairs::of(right);
    'rest: while let Some(pair) = rest.first() {
        let change = change_at(alloc, left, pair, &mut filling)?;
        changes.push(change)?;
        rest.skip_first();
    }
    Ok(changes)
}

fn change_at<K: Chain, V: Join>(
    alloc: Global,
    left: &mut Vec<(K, Block<K, V>)>,
    pair: &(K, V),
    filling: &mut SplitBudget,
) -> Result<((K, V), Vec<(K, V)>), OutOfMemory>
    requires some { 0 < vec_len left.old }
    requires headed { AreHeaded left.old.items }
    requires rises { IsRising K.cmp (pairs_of left.old.items) }
    ensures left_pairs { pairs_of left.new.items ≡ pairs_of left.old.items }
    ensures left_headed { AreHeaded left.new.items }
    ensures left_len { vec_len left.new ≡ vec_len left.old }
    ensures pair { IfOk result (λ change. change.0 ≡ joined_pair K.cmp V.join (pairs_of left.old.items) pair.now) }
    ensures empty { IfOk result (λ change. vec_len change.1 ≡ 0) }
    ensures spare { IfOk result (λ change. lookup K.cmp pair.now.0 (pairs_of left.old.items) ≡ None
        → 2 ≤ vec_capacity change.1) }
    ensures owned { OnOk result (GoesToOwned K.cmp left.new.items pair.now.0) }
    ensures keeps { OnOk result ((k : K) → GoesToOwned K.cmp left.old.items k → GoesToOwned K.cmp left.new.items k) }
{
    let spare = spare_for(left, &pair.0, filling);
    let at = own_block(left, &pair.0, filling.more())?;
    change_in(alloc, left[at].1.pairs(), pair, spare)
}

// For how many pairs the key is to find a spare block.
fn spare_for<K: Chain, V: Join>(
    left: &[(K, Block<K, V>)],
    key: &K,
    filling: &mut SplitBudget,
) -> usize
    requires some { 0 < length left.now }
    requires headed { AreHeaded left.now }
    requires rises { IsRising K.cmp (pairs_of left.now) }
    ensures { 2 ≤ result }
{
    let at = block_of(left, key);
    let is_new = value_at(left, key).is_none();
    let len = left[at].1.pairs().len();
    if is_new && filling.count(at, len, comes_last(left, key)) {
        FULL
    } else {
        LEAST
    }
}

fn change_in<K: Chain, V: Join>(
    alloc: Global,
    there: &[(K, V)],
    pair: &(K, V),
    spare: usize,
) -> Result<((K, V), Vec<(K, V)>), OutOfMemory>
    requires rises { IsRising K.cmp there.now }
    requires least { 2 ≤ spare }
    ensures pair { IfOk result (λ change. change.0 ≡ joined_pair K.cmp V.join there.now pair.now) }
    ensures empty { IfOk result (λ change. vec_len change.1 ≡ 0) }
    ensures spare { IfOk result (λ change. lookup K.cmp pair.now.0 there.now ≡ None → 2 ≤ vec_capacity change.1) }
{
    match value_in(there, &pair.0) {
        Some(value) => Ok(((pair.0, value.joined(&pair.1)?), Vec::new(alloc))),
        None => Ok((
            (pair.0, copied(&pair.1)?),
            Vec::with_capacity(alloc, spare)?,
        )),
    }
}

// Makes each change, and returns by how many the pairs grew. There is room for all, so nothing can fail.
// O(m log n) and the moves within blocks.
pub(crate) fn apply<K: Chain, V: Drop>(
    blocks: &mut Vec<(K, Block<K, V>)>,
    changes: Vec<((K, V), Vec<(K, V)>)>,
) -> usize
    requires some { 0 < vec_len blocks.old }
    requires headed { AreHeaded blocks.old.items }
    requires rising { IsRising K.cmp (pairs_of blocks.old.items) }
    requires spares { HaveSpares K.cmp 2 (pairs_of blocks.old.items) changes.items }
    requires owned { GoToOwned K.cmp blocks.old.items changes.items }
    requires room { vec_len blocks.old + vec_len changes ≤ vec_capacity blocks.old }
    ensures pairs { pairs_of blocks.new.items ≡ map_join K.cmp keep_new (pairs_of blocks.old.items) (map
        (λ c. c.0) changes.items) }
    ensures headed { AreHeaded blocks.new.items }
    ensures counted { length (pairs_of blocks.new.items) ≡ length (pairs_of blocks.old.items) + result }
    ensures few { result ≤ vec_len changes }
{
    let mut added = 0;
    for ((key, value), spare) in changes {
        let at = take_room(blocks, spare, &key);
        added += write(blocks, at, key, value);
    }
    added
}

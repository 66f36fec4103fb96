//! Maps that merge key by key, and stay cheap to write, to join and to copy while they grow.
//!
//! Pairs are in blocks by rising key (`blocks`). A join of few keys changes these in place, and one of many merges both
//! maps (`staged_join`). Maps share blocks until they are written (`block`). A growth that is refused changes nothing.

ghost use Rattle.std.specs.Prelude.{◌≡◌, ◌↔◌, ◌<◌, ◌^◌, List, [], ◌∷◌, length, IsTrue, IfOk, OnOk, OnErr, option_copied};
ghost use Rattle.fm_lattice.specs.Maps.{IsMap, lookup, put, map_join, JoinsByKey};
ghost use Rattle.fm_lattice.specs.laws.MapLaws.{map_laws};

use crate::block::Block;
use crate::blocks::{comes_last, copied_blocks, make_room, shared_blocks, value_at, write};
use crate::chain::Chain;
use crate::join::{Join, OutOfMemory};
use crate::merging::{append, are_same, counted, is_below, joined_at, merged};
pub use crate::pairs::Pairs;
use crate::staged_join::{carry_out, plan_join};
use std::alloc::Global;
use std::marker::Model;

/// A map that merges key by key. Its pairs are in blocks, so a new key moves only what is in its block.
#[derive(Drop)]
pub struct JoinMap<K: Chain, V: Join> {
    // Each block with its first key.
    blocks: Vec<(K, Block<K, V>)>,
    len: usize,
}

impl<K: Chain, V: Join> Model for JoinMap<K, V> {
    ghost use Rattle.std.specs.Prelude.{List};
    ghost use Rattle.fm_lattice.specs.Blocks.{pairs_of};
    ghost use Rattle.fm_lattice.specs.inner.BlockOrder.{IsKept};

    ghost Value = { List (K × V) };

    ghost view = { λ m. pairs_of m.blocks.items };

    ghost invariant = { λ m. IsKept K.cmp V.is_value m.blocks.items m.len };
}

impl<K: Chain, V: Join> JoinMap<K, V> {
    /// The empty map. It allocates nothing.
    pub fn new(alloc: Global) -> JoinMap<K, V>
        ensures { result ≡ [] }
    {
        JoinMap {
            blocks: Vec::new(alloc),
            len: 0,
        }
    }

    /// How many keys there are.
    pub fn len(&self) -> usize
        ensures { result ≡ length self.now }
    {
        self.len
    }

    /// Whether there is no key.
    pub fn is_empty(&self) -> bool
        ensures { IsTrue result ↔ (self.now ≡ []) }
    {
        self.len == 0
    }

    /// The value at the key, if the key is there. O(log n).
    pub fn get(&self, key: &K) -> Option<&V>
        ensures { option_copied result ≡ lookup K.cmp key.now self.now }
    {
        value_at(&self.blocks, key)
    }

    /// The pairs, keys rising.
    pub fn iter(&self) -> Pairs<'_, K, V>
        ensures rest { result ≡ self.now }
        ensures map { IsMap K.cmp V.is_value self.now }
        ensures fits { length self.now < 2 ^ 64 }
    {
        let _count = self.len();
        Pairs::of(&self.blocks)
    }

    /// Joins the value in at the key. O(log n), and the moves within a block of bounded length; O(1) after the last
    /// key. One of some 32 new keys splits a block, which also moves the entries of all blocks behind it. If memory runs
    /// out, the map is unchanged.
    pub fn put(&mut self, key: K, value: V) -> Result<(), OutOfMemory>
        ensures ok { OnOk result (self.new ≡ put K.cmp V.join key value self.old) }
        ensures by_key { OnOk result (JoinsByKey K.cmp V.join self.old ((key, value) ∷ []) self.new) }
        ensures err { OnErr result (self.new ≡ self.old) }
    {
        value.known();
        if self.len == usize::MAX {
            return Err(OutOfMemory);
        }
        if comes_last(&self.blocks, &key) {
            append(&mut self.blocks, key, value)?;
            self.len += 1;
            return Ok(());
        }
        let joined = joined_at(&self.blocks, &key, value)?;
        let at = make_room(&mut self.blocks, &key)?;
        self.len += write(&mut self.blocks, at, key, joined);
        Ok(())
    }

    /// Joins the other map in. If the other has no more keys than there are blocks here, this is done in place: for
    /// each of the other's m keys a search among the n here and the moves within a block, O(m log n). Else it is one
    /// merge of both, O(n + m), which replaces the map, and allocates nothing if the other says nothing new. An empty
    /// map gets the other's blocks, by a pointer each if they are shared. In place it allocates also if the other says
    /// nothing new: the m joined pairs, m more entries of the list of blocks if that has no room for them, and a copy
    /// of each shared block to which one of the keys goes. For new keys it also allocates room in their blocks, and
    /// room for two pairs each, or a block of 64 pairs for each block that may be split: at most one for each 32 new
    /// keys that a block does not hold, and for each 63 after the last key. If memory runs out, the map is unchanged.
    pub fn join_into(&mut self, other: &JoinMap<K, V>) -> Result<(), OutOfMemory>
        ensures ok { OnOk result (self.new ≡ map_join K.cmp V.join self.old other.now) }
        ensures by_key { OnOk result (JoinsByKey K.cmp V.join self.old other.now self.new) }
        ensures err { OnErr result (self.new ≡ self.old) }
    {
        other.known();
        let plan = plan_join(&mut self.blocks, self.len, &other.blocks, other.len)?;
        self.len = carry_out(&mut self.blocks, self.len, plan);
        Ok(())
    }

    /// Whether both are the same map. One walk along both, which ends at the first difference: O(n), and O(1) if one
    /// has more keys.
    pub fn equals(&self, other: &JoinMap<K, V>) -> bool
        ensures { IsTrue result ↔ (self.now ≡ other.now) }
    {
        self.len == other.len && are_same(&self.blocks, &other.blocks)
    }

    /// The same map. Blocks that are already shared cost a pointer each, and each pair of the others is copied: O(n),
    /// and the copies of the values, if nothing was shared.
    pub fn copy(&self) -> Result<JoinMap<K, V>, OutOfMemory>
        ensures { IfOk result (λ r. r ≡ self.now) }
    {
        Ok(JoinMap {
            blocks: copied_blocks(*self.blocks.allocator(), &self.blocks)?,
            len: self.len,
        })
    }

    /// The same map, which shares its blocks with this one: no pair is copied until one of both maps is written, and
    /// then those of the written block. O(n / 32), and memory for each block that was written since it was last
    /// shared. If memory runs out, the map is unchanged.
    pub fn share(&mut self) -> Result<JoinMap<K, V>, OutOfMemory>
        ensures ok { IfOk result (λ r. r ≡ self.old) }
        ensures same { self.new ≡ self.old }
    {
        let blocks = shared_blocks(&mut self.blocks)?;
        Ok(JoinMap {
            blocks,
            len: self.len,
        })
    }
}

impl<K: Chain, V: Join> Join for JoinMap<K, V> {
    ghost is_value = { IsMap K.cmp V.is_value };

    ghost join = { map_join K.cmp V.join };

    fn known(&self) {
        let _ = &self.blocks;
    }

    /// The map with the pairs of both, joined if a key is in both. O(n + m).
    fn joined(&self, other: &JoinMap<K, V>) -> Result<JoinMap<K, V>, OutOfMemory>
        ensures ok { IfOk result (λ r. r ≡ map_join K.cmp V.join self.now other.now) }
        ensures by_key { IfOk result (λ r. JoinsByKey K.cmp V.join self.now other.now r) }
    {
        let blocks = merged(*self.blocks.allocator(), &self.blocks, &other.blocks)?;
        let len = counted(&blocks)?;
        Ok(JoinMap { blocks, len })
    }

    /// Whether each key here is in the other, with a value that is above the one here. One walk along both, O(n + m).
    fn leq(&self, other: &JoinMap<K, V>) -> bool {
        other.known();
        is_below(&self.blocks, &other.blocks)
    }

    ghost laws = { map_laws K.cmp K.total K.same V.join V.is_value V.laws };
}

/// Joins each of four maps into one of four others, all or none, each at the cost of `JoinMap::join_into`.
/// If memory runs out, all are unchanged.
pub fn join_four<
    K1: Chain,
    V1: Join,
    K2: Chain,
    V2: Join,
    K3: Chain,
    V3: Join,
    K4: Chain,
    V4: Join,
>(
    first: &mut JoinMap<K1, V1>,
    to_first: &JoinMap<K1, V1>,
    second: &mut JoinMap<K2, V2>,
    to_second: &JoinMap<K2, V2>,
    third: &mut JoinMap<K3, V3>,
    to_third: &JoinMap<K3, V3>,
    fourth: &mut JoinMap<K4, V4>,
    to_fourth: &JoinMap<K4, V4>,
) -> Result<(), OutOfMemory>
    ensures first { OnOk result (first.new ≡ map_join K1.cmp V1.join first.old to_first.now) }
    ensures second { OnOk result (second.new ≡ map_join K2.cmp V2.join second.old to_second.now) }
    ensures third { OnOk result (third.new ≡ map_join K3.cmp V3.join third.old to_third.now) }
    ensures fourth { OnOk result (fourth.new ≡ map_join K4.cmp V4.join fourth.old to_fourth.now) }
    ensures err { OnErr result ((first.new ≡ first.old) × (second.new ≡ second.old) × (third.new ≡ third.old)
        × (fourth.new ≡ fourth.old)) }
{
    let (plan1, plan2, plan3, plan4) = all_four(
        plan_join(&mut first.blocks, first.len, &to_first.blocks, to_first.len),
        plan_join(
            &mut second.blocks,
            second.len,
            &to_second.blocks,
            to_second.len,
        ),
        plan_join(&mut third.blocks, third.len, &to_third.blocks, to_third.len),
        plan_join(
            &mut fourth.blocks,
            fourth.len,
            &to_fourth.blocks,
            to_fourth.len,
        ),
    )?;
    first.len = carry_out(&mut first.blocks, first.len, plan1);
    second.len = carry_out(&mut second.blocks, second.len, plan2);
    third.len = carry_out(&mut third.blocks, third.len, plan3);
    fourth.len = carry_out(&mut fourth.blocks, fourth.len, plan4);
    Ok(())
}

// The four values, if none is lacking.
fn all_four<A: Drop, B: Drop, C: Drop, D: Drop>(
    first: Result<A, OutOfMemory>,
    second: Result<B, OutOfMemory>,
    third: Result<C, OutOfMemory>,
    fourth: Result<D, OutOfMemory>,
) -> Result<(A, B, C, D), OutOfMemory>
    ensures first { IfOk result (λ r. first ≡ Ok r.0) }
    ensures second { IfOk result (λ r. second ≡ Ok r.1) }
    ensures third { IfOk result (λ r. third ≡ Ok r.2) }
    ensures fourth { IfOk result (λ r. fourth ≡ Ok r.3) }
{
    Ok((first?, second?, third?, fourth?))
}

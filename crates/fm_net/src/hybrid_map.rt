//! Pairs by rising key, cheap to build in order and cheap to edit later: packed in an array first, then in cells.
//!
//! A network is built in order and then edited anywhere. An array is the fastest to fill and to walk over, but a new
//! key in its midst moves all pairs after it. So the first new key that comes before 64 others or more moves the pairs
//! into cells, O(n log n) once, and each edit is a search there, O(log n).

ghost use Rattle.std.specs.Prelude.{◌≡◌, ◌<◌, ◌^◌, ◌&&◌, [], length, is_some, IfOk, OnOk, OnErr};
ghost use Rattle.std.specs.Iterator.{YieldsFirstBy, item_count};
ghost use Rattle.std.specs.Map.{remove_entry};
ghost use Rattle.std.specs.BTreeMap.{is_at};
ghost use Rattle.std.specs.Cmp.Lexicographic.{pointwise};
ghost use Rattle.fm_lattice.specs.Maps.{lookup, put, keep_new, IsRising};
ghost use Rattle.fm_net.specs.inner.IndexedCells.{IsPlainClone};

use crate::slab_map::{self, SlabMap};
use fm_lattice::chain::Chain;
use fm_lattice::join::OutOfMemory;
use fm_lattice::sorted_vec::{get, insert, remove};
use std::alloc::Global;
use std::fmt;
use std::marker::Model;

// How many pairs may move for a new one that comes out of order.
const FEW: usize = 64;

/// A map of pairs. While keys come in order the pairs lie packed, so that a put is a push and a walk is one over
/// memory. The first new key that comes before many others moves them into cells, where each edit is a search.
#[derive(Drop)]
pub(crate) struct HybridMap<K: Chain, V: Copy> {
    form: Form<K, V>,
}

#[derive(Drop)]
enum Form<K: Chain, V: Copy> {
    Packed(Vec<(K, V)>),
    Cells(SlabMap<K, V>),
}

impl<K: Chain, V: Copy> Model for HybridMap<K, V> {
    ghost use Rattle.std.specs.Prelude.{List};
    ghost use Rattle.fm_net.specs.Ordered.{pairs_of_form};
    ghost use Rattle.fm_net.specs.inner.InOrder.{IsInOrder};

    ghost Value = { List (K × V) };

    ghost view = { λ o. pairs_of_form o.form };

    ghost invariant = { λ o. IsInOrder K.cmp o.form };
}

impl<K: Chain, V: Copy> HybridMap<K, V> {
    /// No pairs. It allocates nothing.
    pub(crate) fn new(alloc: Global) -> Self
        ensures { result ≡ [] }
    {
        HybridMap {
            form: Form::Packed(Vec::new(alloc)),
        }
    }

    /// The value at the key, if it is there. O(log n).
    pub(crate) fn get(&self, key: &K) -> Option<V>
        ensures { result ≡ lookup K.cmp key.now self.now }
    {
        match &self.form {
            Form::Packed(pairs) => get(pairs, key),
            Form::Cells(cells) => cells.get(key),
        }
    }

    /// Whether the key is there. O(log n).
    pub(crate) fn has(&self, key: &K) -> bool
        ensures { result ≡ is_some (lookup K.cmp key.now self.now) }
    {
        self.get(key).is_some()
    }

    /// Puts the value at the key in place of an existing one, and returns the old one. If memory runs out,
    /// the pairs are unchanged. Amortised O(1) after the last key of packed pairs, O(n log n) once, when a new key
    /// moves them into cells, and O(log n) else.
    pub(crate) fn put(&mut self, key: K, value: V) -> Result<Option<V>, OutOfMemory>
        ensures ok { OnOk result (self.new ≡ put K.cmp keep_new key value self.old) }
        ensures stood { IfOk result (λ old. old ≡ lookup K.cmp key self.old) }
        ensures err { OnErr result (self.new ≡ self.old) }
    {
        if self.comes_before_many(&key) && !self.has(&key) {
            self.scatter()?;
        }
        match &mut self.form {
            Form::Packed(pairs) => insert(pairs, key, value),
            Form::Cells(cells) => cells.put(key, value),
        }
    }

    /// Takes the pair at the key out, and returns its value, if it was there. It allocates nothing. O(log n) in cells;
    /// of packed pairs those after the key move, O(n).
    pub(crate) fn remove(&mut self, key: &K) -> Option<V>
        ensures without { self.new ≡ remove_entry (is_at (K.cmp key.now)) self.old }
        ensures stood { result ≡ lookup K.cmp key.now self.old }
    {
        match &mut self.form {
            Form::Packed(pairs) => remove(pairs, key),
            Form::Cells(cells) => cells.remove(key),
        }
    }

    /// Moves packed pairs into cells, where each edit is a search. If memory runs out, they stay packed. O(n log n).
    pub(crate) fn scatter(&mut self) -> Result<(), OutOfMemory>
        ensures { self.new ≡ self.old }
    {
        if let Form::Packed(pairs) = &self.form {
            self.form = Form::Cells(cells_of(*pairs.allocator(), pairs)?);
        }
        Ok(())
    }

    /// How many pairs there are: fewer than 2^63.
    pub(crate) fn len(&self) -> usize
        ensures len { result ≡ length self.now }
        ensures fits { result < 2 ^ 63 }
    {
        match &self.form {
            Form::Packed(pairs) => pairs.len(),
            Form::Cells(cells) => cells.len(),
        }
    }

    /// The pairs, by rising key.
    pub(crate) fn iter(&self) -> Pairs<'_, K, V>
        ensures all { result ≡ self.now }
        ensures fits { length self.now < 2 ^ 63 }
    {
        let rest = match &self.form {
            Form::Packed(pairs) => Rest::Packed(pairs.as_slice()),
            Form::Cells(cells) => Rest::Cells(cells.iter()),
        };
        Pairs { rest }
    }

    /// The same pairs, in memory of their own.
    pub(crate) fn copy(&self) -> Result<Self, OutOfMemory>
        requires key { IsPlainClone K.is_clone }
        requires value { IsPlainClone V.is_clone }
        ensures { IfOk result (λ copy. copy ≡ self.now) }
    {
        let form = match &self.form {
            Form::Packed(pairs) => Form::Packed(pairs.clone()?),
            Form::Cells(cells) => Form::Cells(cells.copy()?),
        };
        Ok(HybridMap { form })
    }

    // Whether many packed pairs lie behind the place of a key that is not the last. It decides what a put costs, and no
    // more.
    fn comes_before_many(&self, key: &K) -> bool {
        match &self.form {
            Form::Packed(pairs) if pairs.len() > FEW => pairs[pairs.len() - FEW].0.cmp(key).is_gt(),
            _ => false,
        }
    }
}

// The pairs in cells.
fn cells_of<K: Chain, V: Copy>(
    alloc: Global,
    pairs: &[(K, V)],
) -> Result<SlabMap<K, V>, OutOfMemory>
    requires { IsRising K.cmp pairs.now }
    ensures { IfOk result (λ cells. cells ≡ pairs.now) }
{
    let mut cells = SlabMap::new(alloc);
    for (key, value) in pairs {
        cells.put(*key, *value)?;
    }
    Ok(cells)
}

impl<K: Chain, V: PartialEq + Copy> PartialEq for HybridMap<K, V> {
    ghost use Rattle.std.specs.Cmp.{on_per, and_per};
    ghost use Rattle.std.specs.Cmp.Lexicographic.{lists_per};

    ghost eq = { λ a b. pointwise (λ p q. K.eq p.0 q.0 && V.eq p.1 q.1) a b };

    ghost laws = { lists_per (and_per (on_per (λ p. p.0) K.PartialEq.laws) (on_per (λ p. p.1) V.laws)) };

    /// Whether the pairs are the same.
    fn eq(&self, other: &Self) -> bool {
        same_pairs(self.iter(), other.iter())
    }
}

impl<K: Chain + fmt::Debug, V: Copy + fmt::Debug> fmt::Debug for HybridMap<K, V> {
    fn fmt<W: fmt::Write>(&self, f: &mut fmt::Formatter<W>) -> fmt::Result {
        f.debug_map().entries(self.iter().copied()).finish()
    }
}

/// The pairs that are left of a walk, by rising key.
#[derive(Drop)]
pub(crate) struct Pairs<'a, K: Chain, V: Copy> {
    rest: Rest<'a, K, V>,
}

#[derive(Drop)]
enum Rest<'a, K: Chain, V: Copy> {
    Packed(&'a [(K, V)]),
    Cells(slab_map::Pairs<'a, K, V>),
}

impl<'a, K: Chain, V: Copy> Model for Pairs<'a, K, V> {
    ghost use Rattle.std.specs.Prelude.{List};
    ghost use Rattle.fm_net.specs.Ordered.{pairs_left};

    ghost Value = { List (K × V) };

    ghost view = { λ s. pairs_left s.rest };
}

impl<'a, K: Chain, V: Copy> Iterator for Pairs<'a, K, V> {
    type Item = &'a (K, V);

    ghost next_gives = { YieldsFirstBy (λ pair. pair.now) (λ s. s) };

    ghost remaining = { item_count (λ s. s) };

    fn next(&mut self) -> Option<&'a (K, V)> {
        match &mut self.rest {
            Rest::Packed(pairs) => {
                let (first, later) = pairs.split_first()?;
                *pairs = later;
                Some(first)
            }
            Rest::Cells(pairs) => pairs.next(),
        }
    }
}

// Whether two walks give the same pairs.
fn same_pairs<K: Chain, V: PartialEq + Copy>(left: Pairs<'_, K, V>, right: Pairs<'_, K, V>) -> bool
    ensures { result ≡ pointwise (λ p q. K.eq p.0 q.0 && V.eq p.1 q.1) left.entry right.entry }
{
    let mut left = left;
    let mut right = right;
    while let Some((key, value)) = left.next() {
        match right.next() {
            Some((other_key, other_value)) => {
                if !(*key == *other_key && *value == *other_value) {
                    return false;
                }
            }
            None => return false,
        }
    }
    right.next().is_none()
}

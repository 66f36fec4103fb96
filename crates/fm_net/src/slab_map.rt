//! Pairs in cells that stay where they are, with an index by their keys, so that an edit moves no other pair.
//!
//! A slab has the pairs, and takes a cell that was emptied for the next new pair. A B-tree has the keys, each with the
//! place of its cell. A get, a put and a remove are each a search in the tree, O(log n).

ghost use Rattle.std.specs.Prelude.{◌≡◌, ◌<◌, ◌+◌, ◌^◌, if◌then◌else◌, [], length, is_some, option_map, IfOk, OnOk, OnErr};
ghost use Rattle.std.specs.Iterator.{YieldsFirstBy, item_count};
ghost use Rattle.std.specs.Map.{remove_entry};
ghost use Rattle.std.specs.BTreeMap.{is_at, insert_entry};
ghost use Rattle.std.specs.Option.{unwrap_or};
ghost use Rattle.fm_lattice.specs.Chains.{TellsApart};
ghost use Rattle.fm_lattice.specs.Maps.{lookup, put, keep_new, IsRising};
ghost use Rattle.fm_net.specs.inner.IndexedCells.{IsPlainClone};

use fm_lattice::join::OutOfMemory;
use slab::Slab;
use std::alloc::Global;
use std::collections::{BTreeMap, btree_map};
use std::marker::Model;

/// A map whose pairs lie in cells of a slab; the index keeps the keys in order, each with the place of its cell.
#[derive(Drop)]
pub(crate) struct SlabMap<K: Ord + Copy, V: Copy> {
    cells: Slab<(K, V)>,
    places: BTreeMap<K, usize>,
}

impl<K: Ord + Copy, V: Copy> Model for SlabMap<K, V> {
    ghost use Rattle.std.specs.Prelude.{List};
    ghost use Rattle.slab.specs.Slab.{get};
    ghost use Rattle.fm_net.specs.Cells.{pairs_in_cells};
    ghost use Rattle.fm_net.specs.inner.IndexedCells.{AreKept};

    ghost Value = { List (K × V) };

    ghost view = { λ c. pairs_in_cells (get c.cells) c.places.entries };

    ghost invariant = { λ c. AreKept K.cmp c.cells c.places.entries };
}

impl<K: Ord + Copy, V: Copy> SlabMap<K, V> {
    /// No pairs. It allocates nothing.
    pub(crate) fn new(alloc: Global) -> Self
        ensures { result ≡ [] }
    {
        SlabMap {
            cells: Slab::new(alloc),
            places: BTreeMap::new(alloc),
        }
    }

    /// The value at the key, if it is there. O(log n).
    pub(crate) fn get(&self, key: &K) -> Option<V>
        ensures { result ≡ lookup K.cmp key.now self.now }
    {
        match self.places.get(key) {
            Some(place) => Some(self.cells[*place].1),
            None => None,
        }
    }

    /// Whether the key is there. O(log n).
    pub(crate) fn has(&self, key: &K) -> bool
        ensures { result ≡ is_some (lookup K.cmp key.now self.now) }
    {
        self.places.contains_key(key)
    }

    /// Puts the value at the key in place of an existing one, and returns the old one. The index is searched
    /// once: it tells the cell that the key has, which is filled again, or takes the next empty cell for it. If memory
    /// runs out, all is unchanged. O(log n).
    pub(crate) fn put(&mut self, key: K, value: V) -> Result<Option<V>, OutOfMemory>
        requires { TellsApart K.cmp }
        ensures ok { OnOk result (self.new ≡ put K.cmp keep_new key value self.old) }
        ensures stood { IfOk result (λ old. old ≡ lookup K.cmp key self.old) }
        ensures err { OnErr result (self.new ≡ self.old) }
    {
        self.cells.reserve(1)?;
        let next = self.cells.vacant_key();
        let place = place_at(&mut self.places, key, next)?;
        let former = self.cells.try_remove(place);
        self.cells.insert_reserved((key, value));
        Ok(value_of(former))
    }

    /// Takes the pair at the key out, and returns its value, if it was there. O(log n).
    pub(crate) fn remove(&mut self, key: &K) -> Option<V>
        ensures without { self.new ≡ remove_entry (is_at (K.cmp key.now)) self.old }
        ensures stood { result ≡ lookup K.cmp key.now self.old }
    {
        match self.places.remove(key) {
            Some(place) => Some(self.cells.remove(place).1),
            None => None,
        }
    }

    /// How many pairs there are: fewer than 2^63.
    pub(crate) fn len(&self) -> usize
        ensures len { result ≡ length self.now }
        ensures fits { result < 2 ^ 63 }
    {
        self.places.len()
    }

    /// The pairs, by rising key.
    pub(crate) fn iter(&self) -> Pairs<'_, K, V>
        ensures all { result ≡ self.now }
        ensures fits { length self.now < 2 ^ 63 }
    {
        Pairs {
            cells: &self.cells,
            places: self.places.iter(),
        }
    }

    /// The same pairs, in memory of their own.
    pub(crate) fn copy(&self) -> Result<Self, OutOfMemory>
        requires key { IsPlainClone K.is_clone }
        requires value { IsPlainClone V.is_clone }
        ensures { IfOk result (λ copy. copy ≡ self.now) }
    {
        let cells = self.cells.clone()?;
        let places = self.places.clone()?;
        Ok(SlabMap { cells, places })
    }
}

/// The pairs that are left of a walk, by rising key.
#[derive(Drop)]
pub(crate) struct Pairs<'a, K: Copy, V: Copy> {
    cells: &'a Slab<(K, V)>,
    places: btree_map::Iter<'a, K, usize>,
}

impl<'a, K: Copy, V: Copy> Model for Pairs<'a, K, V> {
    ghost use Rattle.std.specs.Prelude.{List};
    ghost use Rattle.slab.specs.Slab.{get};
    ghost use Rattle.fm_net.specs.Cells.{pairs_in_cells};
    ghost use Rattle.fm_net.specs.inner.IndexedCells.{EachHasCell};

    ghost Value = { List (K × V) };

    ghost view = { λ s. pairs_in_cells (get s.cells.now) s.places };

    ghost invariant = { λ s. EachHasCell (get s.cells.now) s.places };
}

impl<'a, K: Copy, V: Copy> Iterator for Pairs<'a, K, V> {
    type Item = &'a (K, V);

    ghost next_gives = { YieldsFirstBy (λ pair. pair.now) (λ s. s) };

    ghost remaining = { item_count (λ s. s) };

    fn next(&mut self) -> Option<&'a (K, V)> {
        match self.places.next() {
            Some((_, place)) => Some(&self.cells[*place]),
            None => None,
        }
    }
}

// The place that the key has, or else the next one, which it has from then on. If memory runs out, nothing has changed.
fn place_at<K: Ord + Copy>(
    places: &mut BTreeMap<K, usize>,
    key: K,
    next: usize,
) -> Result<usize, OutOfMemory>
    ensures place { IfOk result (λ place. place ≡ unwrap_or (lookup K.cmp key places.old.entries) next) }
    ensures entries { IfOk result (λ place. places.new.entries
        ≡ insert_entry K.cmp places.old.entries key place) }
    ensures rising { OnOk result (IsRising K.cmp places.new.entries) }
    ensures len { OnOk result (length places.new.entries
        ≡ length places.old.entries + (if is_some (lookup K.cmp key places.old.entries) then 0 else 1)) }
    ensures err { OnErr result (places.new.entries ≡ places.old.entries) }
{
    Ok(*places.entry(key)?.or_insert(next))
}

// The value of the pair, if there is one.
fn value_of<K: Copy, V: Copy>(pair: Option<(K, V)>) -> Option<V>
    ensures { result ≡ option_map (λ e. e.1) pair }
{
    match pair {
        Some((_, value)) => Some(value),
        None => None,
    }
}

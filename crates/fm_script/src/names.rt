//! The names of packets, each found in O(1) on average: a step names a packet, and a world numbers them.
//!
//! Names are in the order of their cuts, in a hash table that keeps its order. So the place of a name is the number of
//! its packet in a script.

ghost use Rattle.std.specs.Prelude.{◌≡◌, ◌++◌, ◌∷◌, [], not, if◌then◌else◌, length, take, position, IfOk, OnOk, OnErr};
ghost use Rattle.fm_script.specs.Script.{is_text, is_named};

use fm_lattice::join::OutOfMemory;
use indexmap::IndexMap;
use std::alloc::Global;
use std::marker::Model;

/// Names of packets, in the order of their cuts. Contracts see them as a list of texts.
#[derive(Debug, Drop)]
pub struct Names {
    alloc: Global,
    places: IndexMap<String, ()>,
}

impl Model for Names {
    ghost use Rattle.std.specs.Prelude.{ℕ, List, map, string_bytes};

    ghost Value = { List (List ℕ) };

    ghost view = { λ n. map (λ e. string_bytes e.0) n.places.entries };
}

impl Names {
    /// No names. It allocates nothing.
    pub fn new(alloc: Global) -> Names
        ensures { result ≡ [] }
    {
        Names {
            alloc,
            places: IndexMap::new(alloc),
        }
    }

    /// How many there are.
    pub fn len(&self) -> usize
        ensures { result ≡ length self.now }
    {
        self.places.len()
    }

    /// The place of the name, counted from 0, if it is there.
    pub fn place(&self, name: &str) -> Option<usize>
        ensures { result ≡ position (is_text name.now) self.now }
    {
        self.places.get_index_of(name)
    }

    /// Adds the name after the others, and returns whether it was new; one that is there stays where it is.
    /// If memory runs out, nothing has changed.
    pub fn add(&mut self, name: &str) -> Result<bool, OutOfMemory>
        ensures new { IfOk result (λ new. new ≡ not (is_named self.old name.now)) }
        ensures added { OnOk result (self.new ≡ (if is_named self.old name.now then self.old else self.old
            ++ name.now ∷ [])) }
        ensures err { OnErr result (self.new ≡ self.old) }
    {
        let key = String::from_str(self.alloc, name)?;
        Ok(self.places.insert(key, ())?.is_none())
    }

    /// Keeps the names before that place, or all if there are no more. It allocates nothing and is never refused.
    pub fn truncate(&mut self, len: usize)
        ensures { self.new ≡ take len self.old }
    {
        self.places.truncate(len);
    }
}

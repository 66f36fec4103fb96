//! The packets that were cut under a name, each with its number among all packets, of which not all have names.

ghost use Rattle.std.specs.Prelude.{◌≡◌, ℕ, List, not, IfOk, OnErr, IsTrue, slice_get};
ghost use Rattle.fm_script.specs.Script.{is_named};
ghost use Rattle.fm_service.specs.StreamSteps.{Named, named_also, none_named};

use fm_lattice::join::OutOfMemory;
use fm_script::names::Names;
use std::alloc::Global;
use std::marker::Model;

/// The names of packets, in the order of their cuts, each with its packet's number among all packets.
#[derive(Debug, Drop)]
pub(crate) struct NamedPackets {
    names: Names,
    numbers: Vec<usize>,
}

impl Model for NamedPackets {
    ghost use Rattle.fm_service.specs.StreamSteps.{Named};

    ghost Value = { Named };

    ghost view = { λ p. record { names = p.names; numbers = p.numbers.items } };
}

impl NamedPackets {
    /// No packets. It allocates nothing.
    pub(crate) fn new(alloc: Global) -> NamedPackets
        ensures { result ≡ none_named }
    {
        NamedPackets {
            names: Names::new(alloc),
            numbers: Vec::new(alloc),
        }
    }

    /// The names.
    pub(crate) fn names(&self) -> &Names
        ensures { result.now ≡ self.now.names }
    {
        &self.names
    }

    /// The number of the packet whose name has the place, counted from 0, if there is one.
    pub(crate) fn number(&self, place: usize) -> Option<usize>
        ensures { result ≡ slice_get self.now.numbers place }
    {
        self.numbers.get(place).copied()
    }

    /// Adds a packet after the others, and answers true; if a packet has the name, answers false, and nothing has
    /// changed. If memory runs out, nothing has changed.
    pub(crate) fn add(&mut self, name: &str, number: usize) -> Result<bool, OutOfMemory>
        ensures added { IfOk result (λ added. IsTrue added → self.new ≡ named_also self.old name.now number) }
        ensures there { IfOk result (λ added. IsTrue (not added)
            → (self.new ≡ self.old) × IsTrue (is_named self.old.names name.now)) }
        ensures err { OnErr result (self.new ≡ self.old) }
    {
        self.numbers.reserve(1)?;
        if !self.names.add(name)? {
            return Ok(false);
        }
        self.numbers.push(number).unwrap();
        Ok(true)
    }

    /// Takes the last packet away, if there is one. It allocates nothing.
    pub(crate) fn remove_last(&mut self)
        ensures { (before : Named) (name : List ℕ) (number : ℕ) → self.old ≡ named_also before name number
            → self.new ≡ before }
    {
        self.names.truncate(self.names.len().saturating_sub(1));
        let _ = self.numbers.pop();
    }
}

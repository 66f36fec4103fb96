//! Entries taken as steps, with the packets cut so far: a merge can be taken only once its packet was cut.

ghost use Rattle.std.specs.Prelude.{◌≡◌, ◌≤◌, [], IfOk, length, drop};
ghost use Rattle.fm_world.specs.inner.Sweeps.{act_asked, IsOneTaken, AreFirstTaken};
ghost use Rattle.fm_world.specs.Listings.{CannotGo};

use crate::cut_packets::CutPackets;
use crate::step::{Act, Step};
use fm_coord::entry::{Call, Entry, Reply};
use fm_lattice::join::OutOfMemory;
use std::alloc::Global;

/// The steps that were gathered so far, and the packets that they cut.
#[derive(Drop)]
pub(crate) struct Linearization {
    pub(crate) steps: Vec<Step>,
    pub(crate) packets: CutPackets,
}

impl Linearization {
    /// No steps. It allocates nothing.
    pub(crate) fn new(alloc: Global) -> Self
        ensures steps { result.steps.items ≡ [] }
        ensures packets { result.packets ≡ [] }
    {
        Linearization {
            steps: Vec::new(alloc),
            packets: CutPackets::new(alloc),
        }
    }

    // Takes the entry of the coordinator with the number as one more step, if it can be taken.
    fn take(&mut self, at: u8, entry: &Entry) -> Result<bool, OutOfMemory>
        ensures { IfOk result
            (λ taken. IsOneTaken (record { at = at; entry = entry.now }) taken self.old.steps.items self.new.steps.items
            self.old.packets self.new.packets) }
    {
        let Some(act) = act_of(&entry.call, &self.packets)? else {
            return Ok(false);
        };
        let step = Step {
            at,
            by: entry.by,
            act,
        };
        self.steps.push(step)?;
        if let Reply::Packet(packet) = &entry.reply {
            self.packets.push(packet.share()?)?;
        }
        Ok(true)
    }

    /// Takes as many of the entries of the coordinator with the number as it can: answers how many these are.
    pub(crate) fn take_first(&mut self, at: u8, entries: &[Entry]) -> Result<usize, OutOfMemory>
        ensures within { IfOk result (λ k. k ≤ length entries.now) }
        ensures taken { IfOk result
            (λ k. AreFirstTaken at entries.now k self.old.steps.items self.new.steps.items self.old.packets
            self.new.packets) }
        ensures end { IfOk result (λ k. CannotGo self.new.packets (drop k entries.now)) }
    {
        for (taken, entry) in entries.iter().enumerate() {
            if !self.take(at, entry)? {
                return Ok(taken);
            }
        }
        Ok(entries.len())
    }
}

// The call as an act, if it can be taken after these packets: a merge names the earliest packet that is equal.
fn act_of(call: &Call, packets: &CutPackets) -> Result<Option<Act>, OutOfMemory>
    ensures { IfOk result (λ act. act ≡ act_asked packets.now call.now) }
{
    Ok(match call {
        Call::Tell(op) => Some(Act::Tell(*op)),
        Call::Merge(packet) => match packets.index_of(packet) {
            None => None,
            Some(place) => Some(Act::Deliver(place)),
        },
        Call::Cut(range) => Some(Act::Cut(*range)),
        Call::Trim(n) => Some(Act::Trim(*n)),
        Call::View => Some(Act::View),
        Call::Commit(plan) => Some(Act::Commit(plan.copy()?)),
    })
}

//! Packets: what one coordinator sends to others.

ghost use Rattle.std.specs.Prelude.{◌≡◌, ◌↔◌, IsTrue, IfOk};

use fm_know::knowledge::Knowledge;
use fm_lattice::join::OutOfMemory;
use fm_records::ids::CoordId;

/// A delta group, or all that its sender knew, under the sender's number for it.
#[derive(Drop)]
pub struct Packet {
    pub sender: CoordId,
    pub number: u64,
    pub value: Knowledge,
}

impl Packet {
    /// The packet again. It costs what `Knowledge::copy` costs: a pointer for each block of records that is shared, and
    /// a copy of what is not.
    pub fn copy(&self) -> Result<Packet, OutOfMemory>
        ensures { IfOk result (λ p. p ≡ self.now) }
    {
        Ok(self.with(self.value.copy()?))
    }

    /// The packet again, with which this one shares its records, at the cost of `Knowledge::share`: a pointer for each
    /// block, and memory for each that was not shared before. If memory runs out, the packet is unchanged.
    pub fn share(&mut self) -> Result<Packet, OutOfMemory>
        ensures ok { IfOk result (λ p. p ≡ self.old) }
        ensures same { self.new ≡ self.old }
    {
        let value = self.value.share()?;
        Ok(self.with(value))
    }

    // This packet's sender and number, with the value.
    fn with(&self, value: Knowledge) -> Packet
        ensures { result ≡ record { sender = self.now.sender; number = self.now.number; value = value } }
    {
        Packet {
            sender: self.sender,
            number: self.number,
            value,
        }
    }
}

impl PartialEq for Packet {
    ghost use Rattle.fm_delta.specs.Packets.{same_packet};
    ghost use Rattle.fm_delta.specs.laws.PacketLaws.{packet_equivalence};

    ghost eq = { same_packet };

    ghost laws = { packet_equivalence };

    /// Whether sender, number and value are the same: two walks along both values at most, O(n + m).
    fn eq(&self, other: &Self) -> bool
        ensures value { result ≡ same_packet self.now other.now }
        ensures exact { IsTrue result ↔ (self.now ≡ other.now) }
    {
        self.sender == other.sender && self.number == other.number && self.value == other.value
    }
}

//! What takes the packets of a store one after another while it is read, so that they need not all be in memory.

ghost use Rattle.std.specs.Prelude.{◌≡◌, ◌++◌, ◌∷◌, List, [], OnOk};
ghost use Rattle.std.proofs.Common.{sym};
ghost use Rattle.std.proofs.lemmas.List.{append-nil};
ghost use Rattle.fm_delta.specs.declared.packet.Packet.{Packet};

use fm_delta::packet::Packet;
use fm_lattice::join::OutOfMemory;

/// What takes packets, one after another.
pub trait PacketSink {
    /// What it is once it took these packets in this order, by what it was before.
    ghost took: { Self → List Packet → Self → Type 0 };

    /// Takes one packet more. Refused only if memory runs out; what it is then is not said, so it gets no other.
    fn take(&mut self, packet: Packet) -> Result<(), OutOfMemory>
        ensures { (first : Self) (packets : List Packet) → took first packets self.old
            → OnOk result (took first (packets ++ packet ∷ []) self.new) };

    /// Before the first packet.
    ghost none: { (sink : Self) → took sink [] sink };
}

/// A vector keeps the packets, behind those that it has.
impl PacketSink for Vec<Packet> {
    ghost took = { λ old packets new. new.items ≡ old.items ++ packets };

    ghost none = { λ sink. sym (append-nil sink.items) };

    fn take(&mut self, packet: Packet) -> Result<(), OutOfMemory> {
        self.push(packet)?;
        Ok(())
    }
}

//! Laws of the bytes of packets.

ghost use Rattle.std.specs.Prelude.{◌≡◌, ℕ, [], ◌++◌, List};
ghost use Rattle.fm_delta.specs.declared.packet.Packet.{Packet};
ghost use Rattle.fm_wire.specs.declared.version.Version.{Version};
ghost use Rattle.fm_wire.specs.Grammar.{spelling, spelling_in, IsPacket, CanSpell};

/// Packets with one encoding are equal. Bytes that encode two packets, in whatever versions, encode one packet in one
/// version.
pub fn law_one_spelling()
    ensures written { (p q : Packet) → IsPacket p → IsPacket q → spelling p ≡ spelling q → p ≡ q }
    ensures versions { (v w : Version) (p q : Packet) → IsPacket p → IsPacket q → CanSpell v p → CanSpell w q
        → spelling_in v p ≡ spelling_in w q → (v ≡ w) × (p ≡ q) }
{}

/// No encoding is a proper prefix of another, in whatever versions.
pub fn law_no_prefix()
    ensures written { (p q : Packet) (rest : List ℕ) → IsPacket p → IsPacket q → spelling p ++ rest ≡ spelling q
        → rest ≡ [] }
    ensures versions { (v w : Version) (p q : Packet) (rest : List ℕ) → IsPacket p → IsPacket q → CanSpell v p
        → CanSpell w q → spelling_in v p ++ rest ≡ spelling_in w q → rest ≡ [] }
{}

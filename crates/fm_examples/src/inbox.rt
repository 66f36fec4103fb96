//! Inboxes alone: afterwards it is known that no packet was lost, and none was given twice.

ghost use Rattle.std.specs.Prelude.{◌≡◌, ◌⊎◌, map, All, IfErr, OnOk};
ghost use Rattle.fm_inbox.specs.Ports.{IsPortOf, all_put, all_taken};
ghost use Rattle.fm_inbox.specs.Conservation.{SamePackets};

use fm_inbox::owned_port::{OwnedPort, PortPool};
use fm_records::refusal::Refusal;
use std::sync::Wait;

/// Closes an inbox after its threads gave all ports back: each packet that was put was taken as often. The caller must
/// pass ports of this inbox. NotMine(0) if one is missing, InboxFull if a packet is left.
pub fn drained<R: Wait>(rt: &R, inbox: PortPool, out: Vec<OwnedPort>) -> Result<(), Refusal>
    requires { All (λ d. IsPortOf inbox.inbox d.port) out.items }
    ensures same { OnOk result (SamePackets (all_put (map (λ d. d.port) out.items))
        (all_taken (map (λ d. d.port) out.items))) }
    ensures err { IfErr result (λ refusal. (refusal ≡ Refusal.NotMine 0) ⊎ (refusal ≡ Refusal.InboxFull)) }
{
    match inbox.close(rt, out) {
        Ok(left) => if left.is_empty() {
            Ok(())
        } else {
            Err(Refusal::InboxFull)
        },
        Err(kept) => Err(kept.refusal),
    }
}

//! Laws of rounds in threads. Each function does nothing: its contract is the law.

ghost use Rattle.std.specs.Prelude.{◌↔◌, ℕ};
ghost use Rattle.fm_records.specs.declared.refusal.Refusal.{Refusal};
ghost use Rattle.fm_round.specs.declared.plan.Admitted.{Admitted};
ghost use Rattle.fm_share.specs.Shares.{whole};
ghost use Rattle.fm_fleet.specs.Seats.{SeatModel};
ghost use Rattle.fm_fleet.specs.Rounds.{IsRound, IsRefusedRound, IsShareRound, IsRefusedShareRound};

use fm_share::laws::law_whole;

/// A round of a whole share is a round of the plan as it is, done or refused.
pub fn law_whole_round()
    ensures done { (base : ℕ) (s t : SeatModel) (admitted : Admitted)
        → IsShareRound whole base s t admitted ↔ IsRound base s t admitted }
    ensures refused { (base : ℕ) (s t : SeatModel) (refusal : Refusal)
        → IsRefusedShareRound whole base s t refusal ↔ IsRefusedRound base s t refusal }
{
    law_whole();
}

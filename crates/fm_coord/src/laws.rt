//! Laws of what coordinators keep.

ghost use Rattle.std.specs.Prelude.{◌≡◌, None};
ghost use Rattle.fm_coord.specs.declared.entry.Entry.{Entry as Listed};
ghost use Rattle.fm_coord.specs.Events.{Event, Replica, happens};
ghost use Rattle.fm_coord.specs.Causes.{cause, bounds_of};
ghost use Rattle.fm_coord.specs.Replays.{call_of};
ghost use Rattle.fm_coord.specs.States.{State, Represents, bounds, after};

/// If a state stands for a replica, calls have the same causes of refusal at both; and after a call that has none,
/// the state stands for the replica after the call's event.
pub fn law_step()
    ensures causes { (s : State) (r : Replica) → Represents s r → bounds s ≡ bounds_of r }
    ensures step { (s : State) (r : Replica) (e : Listed) (event : Event) → Represents s r → e.call ≡ call_of event
        → cause (bounds s) (call_of event) ≡ None → Represents (after s e (call_of event)) (happens r e.by event) }
{}

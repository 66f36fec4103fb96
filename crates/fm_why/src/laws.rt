//! Where no schedule runs a task, and by which rule: the contracts of functions that do nothing.

ghost use Rattle.std.specs.Prelude.{◌≡◌, ◌<◌, ℕ, Some, None, false};
ghost use Rattle.fm_records.specs.declared.ops.Op.{Op};
ghost use Rattle.fm_records.specs.declared.records.SpecReg.{SpecReg};
ghost use Rattle.fm_records.specs.Table.{Table};
ghost use Rattle.fm_records.specs.Ranges.{CanBe};
ghost use Rattle.fm_records.specs.Facts.{live_spec, holder_of, is_open, has_room};
ghost use Rattle.fm_net.specs.Network.{net_of};
ghost use Rattle.fm_certificate.specs.Flows.{Units};
ghost use Rattle.fm_why.specs.Running.{RunsOn};
ghost use Rattle.fm_why.specs.Remedies.{change_op, with_op, IsTight};
ghost use Rattle.fm_why.specs.declared.reasons.Change.{Change};

/// No schedule runs a task on a machine that is not open, on one without room for its request if no machine holds it, or
/// on another machine than the one that holds it. For the network has no arc for it there.
pub fn law_no_arc()
    ensures closed { (k : Table) (units : Units) (t m : ℕ) → is_open k m ≡ false → ¬ RunsOn (net_of k) units t m }
    ensures full { (k : Table) (units : Units) (t m : ℕ) (spec : SpecReg) → live_spec k t ≡ Some spec
        → holder_of k t ≡ None → has_room k m spec.request ≡ false → ¬ RunsOn (net_of k) units t m }
    ensures elsewhere { (k : Table) (units : Units) (t m h : ℕ) → holder_of k t ≡ Some h
        → ¬ (h ≡ m) → ¬ RunsOn (net_of k) units t m }
{}

/// If more bandwidth leaves a machine just the request to spare, less of it leaves no room for the request. For a change of
/// a machine moves no task, and so leaves its load as it is.
pub fn law_no_less()
    ensures { (k : Table) (m r by less : ℕ) (o p : Op) → CanBe k → change_op k m (Change.Bandwidth by) ≡ Some o
        → change_op k m (Change.Bandwidth less) ≡ Some p → less < by
        → IsTight (with_op k o) m r (Change.Bandwidth by) → has_room (with_op k p) m r ≡ false }
{}

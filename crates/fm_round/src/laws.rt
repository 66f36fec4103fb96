//! Laws of rounds.
//!
//! Each function does nothing: its contract is the law. `plan_equality` has the laws of `==`, whose functions do that
//! one call.

ghost use Rattle.std.specs.Prelude.{◌≡◌, ◌↔◌, ◌<◌, ◌==◌, ◌++◌, ℕ, List, count_by};
ghost use Rattle.fm_records.specs.declared.ops.Op.{Op};
ghost use Rattle.fm_records.specs.Know.{table_of};
ghost use Rattle.fm_records.specs.Sets.{IsMember};
ghost use Rattle.fm_lattice.specs.Maps.{IsRising};
ghost use Rattle.fm_net.specs.Nodes.{ends_cmp};
ghost use Rattle.fm_net.specs.declared.node.Node.{Node};
ghost use Rattle.fm_round.specs.PlanOfFlow.{ArcUnits, units, waits, seats, tasks_of, machines_of};
ghost use Rattle.fm_round.specs.declared.plan.Plan.{Plan};
ghost use Rattle.fm_round.specs.Admission.{told, admission};
ghost use Rattle.fm_round.specs.Stopping.{stops_of};

pub mod plan_equality;

/// The table of a set, told more operations, is the table of the set with these.
pub fn law_told()
    ensures { (S more : List Op) → told (table_of S) more ≡ table_of (S ++ more) }
{}

/// Admission and stops depend on what is known alone: sets with the same table have the same admission and stops.
pub fn law_sets()
    ensures admitted { (S T : List Op) (c : ℕ) (plan : Plan) → table_of S ≡ table_of T
        → admission (table_of S) c plan ≡ admission (table_of T) c plan }
    ensures stops { (S T : List Op) (c : ℕ) → table_of S ≡ table_of T
        → stops_of (table_of S) c ≡ stops_of (table_of T) c }
{}

/// Of a flow in order, the plan's tasks of a request are those with a unit to it, and each machine is listed for a
/// request as often as there are units between them.
pub fn law_flows()
    ensures tasks { (f : ArcUnits) (r t : ℕ) → IsRising ends_cmp f
        → (IsMember t (tasks_of r (waits f)) ↔ (0 < units f (Node.Task t) (Node.Request r))) }
    ensures machines { (f : ArcUnits) (r m : ℕ) → IsRising ends_cmp f
        → count_by (λ x. x == m) (machines_of r (seats f)) ≡ units f (Node.Request r) (Node.Machine m) }
{}

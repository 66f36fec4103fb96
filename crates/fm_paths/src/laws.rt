//! The laws of flows that are made of the ways of tasks, by which a plan is proved without its network.
//!
//! A flow of a network with one unit from each task is a sum of paths, one for each task (flow decomposition: Ford and
//! Fulkerson, 1962). So ways within rooms and slots are a feasible flow. If at some prices no task has a cheaper way,
//! the flow is least (complementary slackness), and its plan can be read off the ways.

ghost use Rattle.std.specs.Prelude.{◌≡◌, ℕ, ◌+◌, List, [], None, IsTrue, count_by};
ghost use Rattle.fm_records.specs.Facts.{open_state, holds};
ghost use Rattle.fm_paths.specs.Moves.{ways_with, AreMoves, FitMoves, plan_of_moves};
ghost use Rattle.fm_lattice.specs.Maps.{IsRising};
ghost use Rattle.fm_net.specs.declared.node.Node.{Node as NodeName};
ghost use Rattle.fm_net.specs.Nodes.{ends_cmp};
ghost use Rattle.fm_records.specs.Table.{Table};
ghost use Rattle.fm_records.specs.Ranges.{CanBe};
ghost use Rattle.fm_net.specs.Net.{Net, CanBeNet};
ghost use Rattle.fm_net.specs.Network.{net_of};
ghost use Rattle.fm_certificate.specs.Flows.{leaving, entering, is_between, IsFeasible, IsLeast};
ghost use Rattle.fm_round.specs.Schedules.{IsPlanOf};
ghost use Rattle.fm_round.specs.PlanOfFlow.{units_over, plan_of_flow};
ghost use Rattle.fm_paths.specs.Plans.{preempts_of_ways, places_of_ways, plan_of_ways, all_at_jobs, InTurn};
ghost use Rattle.fm_paths.specs.Prices.{AreCheapest, AreFair};
ghost use Rattle.fm_paths.specs.TaskPaths.{Way, units_of, ways_of, goes_by, takes_slot, HasArcsOf, Fit};

/// The units of any ways are conserved, if the network has their arcs: what enters a node between tasks and sink leaves it.
/// Textbook: a sum of paths.
pub fn law_conserved()
    ensures { (net : Net) (ways : List (ℕ × Way)) → IsRising ends_cmp net.arcs → HasArcsOf net ways → (n : NodeName)
        → IsTrue (is_between n) → entering net (units_of ways) n ≡ leaving net (units_of ways) n }
{}

/// One way for each live task, within rooms and slots, makes a feasible flow.
pub fn law_feasible()
    ensures { (k : Table) (way : ℕ → Way) → CanBe k → CanBeNet (net_of k) → Fit k way
        → IsFeasible (net_of k) (units_of (ways_of k way)) }
{}

/// If, at some prices and offers, no task has a cheaper way, the flow is least. Textbook: complementary slackness.
pub fn law_least()
    ensures { (k : Table) (way : ℕ → Way) (price offer : ℕ → ℕ) → CanBe k → CanBeNet (net_of k) → Fit k way
        → AreCheapest k way price offer → IsLeast (net_of k) (units_of (ways_of k way)) }
{}

/// The same from fewer comparisons: no arc of a task but those to machines that it prefers.
pub fn law_fair()
    ensures { (k : Table) (way : ℕ → Way) (price offer : ℕ → ℕ) → CanBe k → CanBeNet (net_of k) → Fit k way
        → AreFair k way price offer → IsLeast (net_of k) (units_of (ways_of k way)) }
{}

/// The plan of the flow preempts just the held tasks whose way is over their job.
pub fn law_preempts()
    ensures { (k : Table) (way : ℕ → Way) → CanBe k → CanBeNet (net_of k) → Fit k way
        → (plan_of_flow (units_over (net_of k) (units_of (ways_of k way))) k).preempts ≡ preempts_of_ways k way }
{}

/// If the tasks of each request go in turn, the plan of the flow has each task at the machine of its way.
pub fn law_places()
    ensures { (k : Table) (way : ℕ → Way) → CanBe k → CanBeNet (net_of k) → Fit k way → InTurn k way
        → (plan_of_flow (units_over (net_of k) (units_of (ways_of k way))) k).places ≡ places_of_ways k way }
{}

/// So the plan of such ways is a plan of what is known: that of a least flow of its network. Nobody has to build the network.
pub fn law_plan()
    ensures { (k : Table) (way : ℕ → Way) (price offer : ℕ → ℕ) → CanBe k → CanBeNet (net_of k) → Fit k way
        → AreFair k way price offer → InTurn k way → IsPlanOf k (plan_of_ways k way) }
{}

/// That each task goes over its job is always within rooms and slots.
pub fn law_at_jobs()
    ensures { (k : Table) → Fit k (all_at_jobs k) }
{}

/// If few tasks move, it is enough to count these: over requests go no others, and a machine has the tasks that it holds, less
/// those that move, and those that move to it.
pub fn law_counts()
    ensures asked { (k : Table) (moves : List (ℕ × Way)) → CanBe k → AreMoves k moves → (r m : ℕ)
        → count_by (goes_by r m) (ways_of k (ways_with k moves)) ≡ count_by (goes_by r m) moves }
    ensures slots { (k : Table) (moves : List (ℕ × Way)) → CanBe k → AreMoves k moves → (m : ℕ)
        → count_by (takes_slot m) (ways_of k (ways_with k moves)) + count_by (λ w. holds k m w.0) moves
        ≡ count_by (λ e. holds k m e.0) k.tasks + count_by (takes_slot m) moves }
{}

/// And the plan is made of the moves alone.
pub fn law_moves()
    ensures fit { (k : Table) (moves : List (ℕ × Way)) → CanBe k → AreMoves k moves → FitMoves k moves
        → Fit k (ways_with k moves) }
    ensures plan { (k : Table) (moves : List (ℕ × Way)) (price offer : ℕ → ℕ) → CanBe k → CanBeNet (net_of k)
        → AreMoves k moves → FitMoves k moves → AreFair k (ways_with k moves) price offer → InTurn k (ways_with k moves)
        → IsPlanOf k (plan_of_moves k moves) }
{}

/// If no machine is open, the plan moves nothing.
pub fn law_shut()
    ensures { (k : Table) → CanBe k → CanBeNet (net_of k) → ((m : ℕ) → open_state k m ≡ None)
        → IsPlanOf k (plan_of_moves k []) }
{}

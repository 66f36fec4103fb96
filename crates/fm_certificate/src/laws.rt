//! The laws of flows, each the contract of a function that does nothing.

ghost use Rattle.std.specs.Prelude.{◌≡◌, ◌<◌, ℕ, ℤ, ◌+ℤ◌, ◌-ℤ◌, ◌≤ℤ◌, pos, List, Some};
ghost use Rattle.std.specs.Map.{keys_of};
ghost use Rattle.fm_net.specs.declared.node.Node.{Node as NodeName};
ghost use Rattle.fm_net.specs.Net.{Net, CanBeNet, arc_at};
ghost use Rattle.fm_certificate.specs.Flows.{Units, units_in, cost_of, IsFeasible, IsLeast};
ghost use Rattle.fm_certificate.specs.Certificates.{potential_in, reduced_cost, IsCertified, MeetsSlackness};

/// A flow that potentials certify is least: no feasible flow of the network costs less. Complementary slackness.
pub fn law_least()
    ensures { (net : Net) (flow : List ((NodeName × NodeName) × ℕ)) (potentials : List (NodeName × ℤ)) → CanBeNet net
        → IsCertified net flow potentials → IsLeast net (units_in flow) }
{}

/// Potentials that certify one flow of a network show each of its least flows to be least: over each arc that flow meets
/// complementary slackness with them. So they certify it too, if its keys are the network's arcs.
pub fn law_every_least()
    ensures slackness { (net : Net) (flow : List ((NodeName × NodeName) × ℕ)) (potentials : List (NodeName × ℤ))
        (others : Units) → CanBeNet net → IsCertified net flow potentials → IsLeast net others
        → MeetsSlackness net others potentials }
    ensures certified { (net : Net) (flow others : List ((NodeName × NodeName) × ℕ)) (potentials : List (NodeName × ℤ))
        → CanBeNet net → IsCertified net flow potentials → IsLeast net (units_in others)
        → keys_of others ≡ keys_of net.arcs → IsCertified net others potentials }
{}

/// How much dearer than a certified flow every feasible flow is that differs from it on an arc: by its reduced cost at least,
/// if it sends units over an arc that the certified one leaves empty, and by less that cost, if it leaves an arc empty that the
/// certified one uses. Sensitivity analysis of linear programs.
pub fn law_dearer()
    ensures used { (net : Net) (flow : List ((NodeName × NodeName) × ℕ)) (potentials : List (NodeName × ℤ))
        (others : Units) (from to : NodeName) (arc : ℕ × ℕ)
        → CanBeNet net → IsCertified net flow potentials → IsFeasible net others → arc_at net from to ≡ Some arc
        → units_in flow from to ≡ 0 → 0 < others from to
        → (pos (cost_of net (units_in flow))
        +ℤ reduced_cost arc.1 (potential_in potentials from) (potential_in potentials to)) ≤ℤ pos (cost_of net others) }
    ensures unused { (net : Net) (flow : List ((NodeName × NodeName) × ℕ)) (potentials : List (NodeName × ℤ))
        (others : Units) (from to : NodeName) (arc : ℕ × ℕ)
        → CanBeNet net → IsCertified net flow potentials → IsFeasible net others → arc_at net from to ≡ Some arc
        → 0 < units_in flow from to → others from to ≡ 0
        → (pos (cost_of net (units_in flow))
        -ℤ reduced_cost arc.1 (potential_in potentials from) (potential_in potentials to)) ≤ℤ pos (cost_of net others) }
{}

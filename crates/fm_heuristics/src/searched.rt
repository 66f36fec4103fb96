//! A flow by the search for a cheapest way to place tasks (`fm_search`), which rounds are planned by, too.
//!
//! The search knows nothing of arcs: costs sit at tasks and machines. So a network becomes an instance of it
//! (`network_instance`), and its assignment the units of arcs (`assignment_units`).

ghost use Rattle.std.specs.Prelude.{IfOk, IfSome};
ghost use Rattle.fm_indexed.specs.Feasible.{IsFlowOf};

use crate::assignment_units::{costs_of, units_of};
use crate::network_instance::{Numbers, instance_of};
use fm_indexed::feasible_units::is_feasible;
use fm_indexed::indexed_network::IndexedNetwork;
use fm_lattice::join::OutOfMemory;
use fm_search::assignment::Assignment;
use fm_search::search::{MOST_LOOKS, search_within};
use std::alloc::Global;

/// The units of a flow of the network, and the cost of a unit from each node that is no task to the sink. None if the
/// search gives up, or if the network is not one of the policy. The flow is least, and the negated costs are its
/// potentials: no clause says so, but the search for cycles then finds none. Refused if memory runs out, and for nothing
/// else. O(arcs), and what `fm_search` takes.
pub fn searched(
    alloc: Global,
    numbered: &IndexedNetwork,
) -> Result<Option<(Vec<u64>, Vec<i64>)>, OutOfMemory>
    ensures { IfOk result (λ found. IfSome found
        (λ r. IsFlowOf numbered.now.places numbered.now.arcs.items r.0.items)) }
{
    searched_within(alloc, numbered, MOST_LOOKS)
}

/// As `searched`, and gives up if the search would look at more than so many nodes for each task, machine and request.
pub fn searched_within(
    alloc: Global,
    numbered: &IndexedNetwork,
    most: usize,
) -> Result<Option<(Vec<u64>, Vec<i64>)>, OutOfMemory>
    ensures { IfOk result (λ found. IfSome found
        (λ r. IsFlowOf numbered.now.places numbered.now.arcs.items r.0.items)) }
{
    match assigned(alloc, numbered, most)? {
        Some((assignment, numbers)) => flow_by(alloc, numbered, &assignment, &numbers),
        None => Ok(None),
    }
}

// Where the search sends the tasks of the network, and what its numbers stand for. None if it gives up, or if the network is not
// one of the policy.
fn assigned(
    alloc: Global,
    numbered: &IndexedNetwork,
    most: usize,
) -> Result<Option<(Assignment, Numbers)>, OutOfMemory> {
    match instance_of(alloc, numbered)? {
        Some((instance, numbers)) => with_numbers(search_within(alloc, instance, most), numbers),
        None => Ok(None),
    }
}

// What the search found, with what the numbers stand for, if it found something.
fn with_numbers(
    found: Result<Option<Assignment>, OutOfMemory>,
    numbers: Numbers,
) -> Result<Option<(Assignment, Numbers)>, OutOfMemory> {
    match found? {
        Some(assignment) => Ok(Some((assignment, numbers))),
        None => Ok(None),
    }
}

// The units of the flow that the assignment makes, with the costs. None if it makes none.
fn flow_by(
    alloc: Global,
    numbered: &IndexedNetwork,
    assignment: &Assignment,
    numbers: &Numbers,
) -> Result<Option<(Vec<u64>, Vec<i64>)>, OutOfMemory>
    ensures { IfOk result (λ found. IfSome found
        (λ r. IsFlowOf numbered.now.places numbered.now.arcs.items r.0.items)) }
{
    let units = units_of(alloc, numbered, assignment, numbers)?;
    if !is_feasible(alloc, numbered, &units)? {
        return Ok(None);
    }
    let costs = costs_of(alloc, numbered, assignment, numbers)?;
    Ok(Some((units, costs)))
}

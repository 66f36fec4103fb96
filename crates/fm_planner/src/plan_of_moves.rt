//! The plan of moves: a place for each task that goes to a machine, a preempt for each held one that goes to its job.

ghost use Rattle.std.specs.Prelude.{◌≡◌, cond, None, IfOk};
ghost use Rattle.std.specs.List.{filter_map};
ghost use Rattle.fm_net.specs.Network.{is_held};
ghost use Rattle.fm_round.specs.PlanOfFlow.{place_at, preempt_of};
ghost use Rattle.fm_paths.specs.Plans.{is_job, place_way};
ghost use Rattle.fm_paths.specs.Prices.{first_node};
ghost use Rattle.fm_paths.specs.Moves.{places_of_moves, preempts_of_moves, plan_of_moves};

use fm_know::knowledge::Knowledge;
use fm_lattice::join::OutOfMemory;
use fm_records::ids::{MachineId, TaskId};
use fm_round::from_units::{place_at, preempt_of};
use fm_round::listed::Listed;
use fm_round::plan::{Place, Plan, Preempt};
use fm_tally::way::Way;
use std::alloc::Global;

/// The plan of the moves. O(n log n).
pub(crate) fn plan_of(
    alloc: Global,
    knowledge: &Knowledge,
    moves: &[(TaskId, Way)],
) -> Result<Plan, OutOfMemory>
    ensures { IfOk result (λ plan. plan ≡ plan_of_moves knowledge.now moves.now) }
{
    let places = places_of(alloc, knowledge, moves)?;
    let preempts = preempts_of(alloc, knowledge, moves)?;
    Ok(Plan {
        places: Listed::new(places),
        preempts: Listed::new(preempts),
    })
}

// The places.
fn places_of(
    alloc: Global,
    knowledge: &Knowledge,
    moves: &[(TaskId, Way)],
) -> Result<Vec<Place>, OutOfMemory>
    ensures { IfOk result (λ places. places.items ≡ places_of_moves knowledge.now moves.now) }
{
    let mut places = Vec::new(alloc);
    for (task, way) in moves {
        if let Some(place) = place_of(knowledge, *task, *way) {
            places.push(place)?;
        }
    }
    Ok(places)
}

// The place of the task: the machine of its way, unless that holds it.
fn place_of(knowledge: &Knowledge, task: TaskId, way: Way) -> Option<Place>
    ensures { result ≡ place_way knowledge.now task way }
{
    match way {
        Way::ToJob(_) => None,
        Way::ByRequest(_, machine) => place_at(knowledge, task, machine),
        Way::Straight(machine) => place_unless_held(knowledge, task, machine),
    }
}

// The place of the task on the machine, unless some machine holds it.
fn place_unless_held(knowledge: &Knowledge, task: TaskId, machine: MachineId) -> Option<Place>
    ensures { result ≡ cond (is_held knowledge.now task) None (place_at knowledge.now task machine) }
{
    if knowledge.holder(task).is_some() {
        return None;
    }
    place_at(knowledge, task, machine)
}

// The preempts.
fn preempts_of(
    alloc: Global,
    knowledge: &Knowledge,
    moves: &[(TaskId, Way)],
) -> Result<Vec<Preempt>, OutOfMemory>
    ensures { IfOk result (λ preempts. preempts.items ≡ preempts_of_moves knowledge.now moves.now) }
{
    let mut preempts = Vec::new(alloc);
    for (task, way) in moves {
        if let Some(preempt) = preempt_over(knowledge, *task, *way) {
            preempts.push(preempt)?;
        }
    }
    Ok(preempts)
}

// The preempt of the task at its present attempt, if it is held and its way is over its job.
fn preempt_over(knowledge: &Knowledge, task: TaskId, way: Way) -> Option<Preempt>
    ensures { result ≡ cond (is_job (first_node way)) (preempt_of knowledge.now task) None }
{
    let Way::ToJob(_) = way else {
        return None;
    };
    preempt_of(knowledge, task)
}

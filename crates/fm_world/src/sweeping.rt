//! Sweeps over coordinators: a topological order of their entries, if there is one.
//!
//! An entry waits for the one before it at its coordinator, and a merge also for the cut of its packet. Each visit
//! takes as many entries of a coordinator as it can, and the sweeps end when none can be taken. Which coordinator is
//! visited first affects the order, but not which entries are left.

ghost use Rattle.std.specs.Prelude.{◌≡◌, ◌<◌, ◌++◌, length, map, IfOk, OnOk};
ghost use Rattle.fm_coord.specs.Numbers.{AreDistinct};
ghost use Rattle.fm_world.specs.Represents.{state_of, number_of};
ghost use Rattle.fm_world.specs.Listings.{Halts};
ghost use Rattle.fm_world.specs.inner.Sweeps.{IsSwept, IsVisit, IsSweep, AreStopped, left_at};

use crate::linearization::Linearization;
use crate::step::Step;
use fm_coord::coordinator::Coordinator;
use fm_lattice::join::OutOfMemory;
use fm_policy::keeper::NetKeeper;
use fm_records::ids::CoordId;
use std::alloc::Global;

/// Sweeps over the coordinators until nothing moves: the steps, and the numbers of those with entries that are left, in order.
pub(crate) fn swept<N: NetKeeper>(
    alloc: Global,
    coordinators: &[Coordinator<N>],
) -> Result<(Vec<Step>, Vec<CoordId>), OutOfMemory>
    requires { AreDistinct (map number_of coordinators.now) }
    ensures { IfOk result (λ swept. Halts (map state_of coordinators.now) swept.1.items swept.0.items) }
{
    let mut gathered = Linearization::new(alloc);
    let mut places = vec![in alloc; 0; coordinators.len()]?;
    sweep_all(coordinators, places.as_mut_slice(), &mut gathered)?;
    let mut left = Vec::new(alloc);
    add_left(coordinators, places.as_slice(), &mut left)?;
    Ok((gathered.steps, left))
}

// Sweeps until nothing moves.
fn sweep_all<N: NetKeeper>(
    coordinators: &[Coordinator<N>],
    places: &mut [usize],
    gathered: &mut Linearization,
) -> Result<(), OutOfMemory>
    requires distinct { AreDistinct (map number_of coordinators.now) }
    requires swept { IsSwept (map state_of coordinators.now) places.old gathered.old.steps.items gathered.old.packets }
    ensures swept { OnOk result
        (IsSwept (map state_of coordinators.now) places.new gathered.new.steps.items gathered.new.packets) }
    ensures stopped { OnOk result (AreStopped gathered.new.packets (map state_of coordinators.now) places.new) }
{
    loop {
        if !sweep(coordinators, places, gathered)? {
            return Ok(());
        }
    }
}

// Visits each coordinator once, in order: answers whether an entry was taken.
fn sweep<N: NetKeeper>(
    coordinators: &[Coordinator<N>],
    places: &mut [usize],
    gathered: &mut Linearization,
) -> Result<bool, OutOfMemory>
    requires distinct { AreDistinct (map number_of coordinators.now) }
    requires swept { IsSwept (map state_of coordinators.now) places.old gathered.old.steps.items gathered.old.packets }
    ensures swept { OnOk result
        (IsSwept (map state_of coordinators.now) places.new gathered.new.steps.items gathered.new.packets) }
    ensures sweep { IfOk result
        (λ moved. IsSweep (map state_of coordinators.now)
        (length coordinators.now) moved places.old places.new gathered.old.packets gathered.new.packets) }
{
    let mut moved = false;
    for i in 0..coordinators.len() {
        if visit(coordinators, i, places, gathered)? {
            moved = true;
        }
    }
    Ok(moved)
}

// Takes as many entries of the coordinator at the place as it can: answers whether there were any.
fn visit<N: NetKeeper>(
    coordinators: &[Coordinator<N>],
    i: usize,
    places: &mut [usize],
    gathered: &mut Linearization,
) -> Result<bool, OutOfMemory>
    requires within { i < length coordinators.now }
    requires distinct { AreDistinct (map number_of coordinators.now) }
    requires swept { IsSwept (map state_of coordinators.now) places.old gathered.old.steps.items gathered.old.packets }
    ensures swept { OnOk result
        (IsSwept (map state_of coordinators.now) places.new gathered.new.steps.items gathered.new.packets) }
    ensures visit { IfOk result
        (λ moved. IsVisit (map state_of coordinators.now) i moved places.old places.new gathered.old.packets
        gathered.new.packets) }
{
    let coordinator = &coordinators[i];
    let place = places[i];
    let (_, entries) = coordinator.history().split_at(place);
    let taken = gathered.take_first(coordinator.number().value(), entries)?;
    places[i] = place + taken;
    Ok(taken > 0)
}

// Adds the numbers of the coordinators that have entries from these places on.
fn add_left<N: NetKeeper>(
    coordinators: &[Coordinator<N>],
    places: &[usize],
    left: &mut Vec<CoordId>,
) -> Result<(), OutOfMemory>
    ensures { OnOk result (left.new.items ≡ left.old.items ++ left_at (map state_of coordinators.now) places.now) }
{
    let Some((first, rest)) = coordinators.split_first() else {
        return Ok(());
    };
    let Some((place, further)) = places.split_first() else {
        return Ok(());
    };
    if *place < first.history().len() {
        left.push(first.number())?;
    }
    add_left(rest, further, left)
}

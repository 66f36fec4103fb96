//! The first steps of a script, so that the allocations of the last one can be counted.

ghost use Rattle.fm_coord.specs.Numbers.{AreDistinct};

use fm_edit::keepers::Keeper;
use fm_records::refusal::Refusal;
use fm_script::initial_world::open;
use fm_script::script::{Script, ScriptAct, ScriptStep};
use fm_world::step::{Act as WorldAct, Step as WorldStep};
use fm_world::world::World;
use std::alloc::Global;

/// What is taken of a round.
#[derive(Clone, Copy, Drop)]
pub(crate) enum Look {
    View,
    /// What is known with the tally, in place of the network.
    Sight,
    /// The tally that is kept, alone.
    Tally,
}

/// Takes the given number of steps of the script on a world of its coordinators, and of a round what the last word says.
/// Refused as the first step that is refused.
pub(crate) fn take_first(
    alloc: Global,
    script: &Script,
    count: usize,
    look: Look,
) -> Result<(), Refusal>
    requires { AreDistinct script.now.coordinators.items }
{
    let mut world = open(alloc, &script.coordinators)?;
    for step in script.steps.iter().take(count) {
        take(&mut world, step, look)?;
    }
    Ok(())
}

fn take(world: &mut World<Keeper>, step: &ScriptStep, look: Look) -> Result<(), Refusal> {
    if let ScriptAct::Round(_) = step.act {
        if is_taken(world, step.at, look)? {
            return Ok(());
        }
    }
    world.step(&WorldStep {
        at: step.at,
        by: 0,
        act: act_of(step.act),
    })?;
    Ok(())
}

// Takes the look, if that is no step of a world.
fn is_taken(world: &mut World<Keeper>, at: u8, look: Look) -> Result<bool, Refusal> {
    match look {
        Look::View => return Ok(false),
        Look::Sight => {
            let _sight = world.see(at, 0)?;
        }
        Look::Tally => world.refresh_tally(at),
    }
    Ok(true)
}

// The act of a world for a script's act, of a round the view.
fn act_of(act: ScriptAct) -> WorldAct {
    match act {
        ScriptAct::Tell(op) => WorldAct::Tell(op),
        ScriptAct::Cut(range) => WorldAct::Cut(range),
        ScriptAct::Deliver(packet) => WorldAct::Deliver(packet),
        ScriptAct::Trim(n) => WorldAct::Trim(n),
        ScriptAct::Round(_) => WorldAct::View,
    }
}

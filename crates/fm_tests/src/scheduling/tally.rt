//! That a guide finds ids: a guess that is wrong costs a search, and no clause says how often guesses are right.

use fm_records::ids::MachineId;
use fm_tally::guide::{Guide, upper};
use std::alloc::Global;
use std::test::Fail;

// A hundred machines whose ids are spread evenly.
fn machines(alloc: Global) -> Result<Vec<(MachineId, u32)>, Fail> {
    let mut machines = Vec::new(alloc);
    for number in 0..100u32 {
        machines.push((MachineId::new(u128::from(number) << 120), number))?;
    }
    Ok(machines)
}

// Of how many machines the place is guessed.
fn guessed(guide: &Guide, machines: &[(MachineId, u32)]) -> usize {
    let mut guessed = 0usize;
    for (place, (machine, _)) in machines.iter().enumerate() {
        if guide.guess(upper(machine.value())) == place {
            guessed = guessed.saturating_add(1);
        }
    }
    guessed
}

#[test]
fn a_guide_guesses_where_each_machine_stands(rt: HostRuntime) -> Result<(), Fail> {
    let machines = machines(rt.alloc())?;
    let guide = Guide::of_machines(rt.alloc(), &machines)?;
    assert_eq!(rt; guessed(&guide, &machines), 100);
    Ok(())
}

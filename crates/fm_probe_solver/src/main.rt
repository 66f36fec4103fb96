//! Clusters that are drawn, solved and planned for. Without words: whether solving from an earlier flow costs what solving
//! does, how many cycles are cancelled after either start, and whether rounds planned from a tally cost what a least flow
//! does. With words, each a number of tasks: how long solving takes, or after the word `rounds` how long rounds take, or
//! after `bursts` how long they take if many tasks come at once. With the word `sizes`: what a round costs with too many
//! sizes of requests for a tally, which takes minutes if it is checked.
#![tactic(auto)]

mod chains;
mod cluster;
mod corners;
mod draw;
mod known;
mod pace;
mod pairs;
mod rounds;
mod solving;
mod timing;

use std::env;

fn main(rt: HostRuntime) -> Result<(), anyhow::Error> {
    let alloc = rt.alloc();
    let mut is_timed = false;
    let mut is_paced = false;
    let mut are_bursts = false;
    for word in env::args(&rt)?.skip(1) {
        is_timed = true;
        match word.as_str().parse::<u32>() {
            Ok(tasks) if are_bursts => pace::print_bursts(&rt, tasks)?,
            Ok(tasks) if is_paced => pace::print(&rt, tasks)?,
            Ok(tasks) => timing::print(&rt, tasks)?,
            Err(_) if word.as_str() == "rounds" => is_paced = true,
            Err(_) if word.as_str() == "bursts" => are_bursts = true,
            Err(_) if word.as_str() == "sizes" => rounds::print_sizes(&rt, alloc)?,
            Err(_) => println!(rt; "fm_probe_solver: {word} is no number of tasks")?,
        }
    }
    if !is_timed {
        known::print(&rt, alloc)?;
        pairs::print(&rt, alloc)?;
        chains::print(&rt, alloc)?;
        rounds::print(&rt, alloc)?;
    }
    Ok(())
}

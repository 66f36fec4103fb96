//! Calls that run out of memory, and checks of what that leaves. Each is made on fresh values, and a line says its
//! result: its name, and a verdict.
//!
//! With no word memory is ample. If this program runs on the allocator of tests/refusing.c, words can ask for more:
//! with a number that allocation within each call is refused; with a second number further ones in turn, each by so
//! many after the last, until the call has no more, and a line for each. Another word picks a group of calls: `values` or
//! `others`.
#![tactic(auto)]

mod bytes;
mod cluster;
mod editing;
mod gathering;
mod knowing;
mod memory;
mod networks;
mod planning;
mod trials;
mod verdict;

use memory::Memory;
use std::alloc::Global;
use std::env;
use trials::{OTHERS, Trial, VALUES};

// More allocations than a call has.
const MOST_PLACES: u32 = 1_000_000;

fn main(rt: HostRuntime) -> Result<(), anyhow::Error> {
    let words = asked(&rt)?;
    if words.first == 0 {
        print_bytes(&rt)?;
    }
    if words.asks("values") {
        for value in VALUES {
            print(&rt, &words, Trial::Value(value))?;
        }
    }
    if words.asks("others") {
        for other in OTHERS {
            print(&rt, &words, Trial::Other(other))?;
        }
    }
    Ok(())
}

// What is asked for: which allocation of each call is refused first, or 0, how many the next one is after that, or 0,
// and of which group of calls, if not of all.
#[derive(Drop)]
struct Words {
    first: u32,
    every: u32,
    group: Option<String>,
}

impl Words {
    fn asks(&self, group: &str) -> bool {
        match &self.group {
            Some(asked) => asked.as_str() == group,
            None => true,
        }
    }

    // Where memory comes from at first.
    fn memory(&self, alloc: Global) -> Memory {
        Memory {
            alloc,
            place: self.first,
        }
    }
}

fn asked(rt: &HostRuntime) -> Result<Words, anyhow::Error> {
    let mut words = Words {
        first: 0,
        every: 0,
        group: None,
    };
    for word in env::args(rt)?.skip(1) {
        match word.as_str().parse::<u32>() {
            Ok(number) if words.first == 0 => words.first = number,
            Ok(number) => words.every = number,
            Err(_) => words.group = Some(word),
        }
    }
    Ok(words)
}

fn print_bytes(rt: &HostRuntime) -> Result<(), anyhow::Error> {
    for (version, length) in bytes::PACKETS {
        let cut_off = bytes::are_cut_off(rt.alloc(), version, length)?;
        let changed = bytes::are_changed(rt.alloc(), version, length)?;
        println!(rt; "{length} bytes of version {version}: cut off {cut_off}, changed {changed}")?;
    }
    Ok(())
}

// Tries a call, with each of the chosen allocations refused in turn, until it has no more.
fn print(rt: &HostRuntime, words: &Words, trial: Trial) -> Result<(), anyhow::Error> {
    let mut memory = words.memory(rt.alloc());
    for _ in 0..MOST_PLACES {
        let text = match trial.made(memory) {
            Ok(verdict) => verdict.text(),
            Err(_) => "not begun",
        };
        println!(rt; "{trial}: {text}")?;
        if words.every == 0 || !memory.has_refused() {
            break;
        }
        memory = memory.at(memory.place.saturating_add(words.every));
    }
    Ok(())
}

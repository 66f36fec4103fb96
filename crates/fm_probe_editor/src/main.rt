//! The edits of an Editor for a script's operations: it reads a script and merges the operations that are told, those
//! before each cut as one delta, whichever coordinator is told them. For each delta it prints a line, the edits of
//! the network, and the keys that were looked up. With the word `looks` two coordinators are told the operations, one
//! that edits or builds its network and one that builds it, and are looked at at each cut: it prints whether both
//! networks are equal, how many looks at the first were edits and how many builds, and the network. With the word
//! `steps` and a number it takes so many steps of the script, of a round the view alone, and prints nothing: on an
//! allocator that counts, this shows what a step asks for. The words `sights` and `tallies` do the same, of a round what
//! is known with the tally, or the tally alone.
//! With any other word it prints how long an edit took, and how long building takes.
#![tactic(auto)]

mod followed;
mod looked;
mod solved;
mod stepped;

ghost use Rattle.std.specs.Prelude.{IfOk};
ghost use Rattle.fm_coord.specs.Numbers.{AreDistinct};

use fm_io::input::read_input;
use fm_io::source::Input;
use fm_records::refusal::Refusal;
use fm_script::parse_script::read_script;
use fm_script::script::{Script, ScriptAct};
use followed::{Followed, Taken};
use looked::Looked;
use solved::Times;
use std::alloc::Global;
use std::env;
use std::time::Instant;
use stepped::{Look, take_first};

fn main(rt: HostRuntime) -> Result<(), anyhow::Error> {
    let script = script(&rt)?;
    match env::args(&rt)?.nth(1).as_deref() {
        Some("looks") => looks(&rt, &script),
        Some("steps") => steps(&rt, &script, Look::View),
        Some("sights") => steps(&rt, &script, Look::Sight),
        Some("tallies") => steps(&rt, &script, Look::Tally),
        Some("solves") => solves(&rt, &script),
        word => edits(&rt, &script, word.is_some()),
    }
}

// Shows or times an edit for each delta.
fn edits(rt: &HostRuntime, script: &Script, is_timed: bool) -> Result<(), anyhow::Error> {
    let mut followed = Followed::new(rt.alloc())?;
    follow_all(rt, &mut followed, script, is_timed)
}

fn follow_all(
    rt: &HostRuntime,
    followed: &mut Followed,
    script: &Script,
    is_timed: bool,
) -> Result<(), anyhow::Error> {
    for step in &script.steps {
        follow(rt, followed, step.act, is_timed)?;
    }
    Ok(())
}

// After a step of the script.
fn follow(
    rt: &HostRuntime,
    followed: &mut Followed,
    act: ScriptAct,
    is_timed: bool,
) -> Result<(), anyhow::Error> {
    match act {
        ScriptAct::Tell(op) => followed.tell(rt.alloc(), &op)?,
        ScriptAct::Cut(_) if is_timed => timed(rt, followed)?,
        ScriptAct::Cut(_) => shown(rt, followed)?,
        _ => {}
    }
    Ok(())
}

// Takes as many steps as the second word says.
fn steps(rt: &HostRuntime, script: &Script, look: Look) -> Result<(), anyhow::Error>
    requires { AreDistinct script.now.coordinators.items }
{
    take_first(rt.alloc(), script, count(rt)?, look)?;
    Ok(())
}

// The number that the second word says.
fn count(rt: &HostRuntime) -> Result<usize, anyhow::Error> {
    let Some(word) = env::args(rt)?.nth(2) else {
        anyhow::bail!("how many?");
    };
    Ok(word.parse()?)
}

// Solves what the script tells as many times as the second word says.
fn solves(rt: &HostRuntime, script: &Script) -> Result<(), anyhow::Error> {
    let known = solved::known_of(rt.alloc(), script)?;
    for _ in 0..count(rt)? {
        print_solve(rt, &solved::timed(rt, &known)?)?;
    }
    Ok(())
}

fn print_solve(rt: &HostRuntime, times: &Times) -> Result<(), anyhow::Error> {
    let (build, solve, write) = (times.build, times.solve, times.write);
    println!(rt; "built in {build} ns, solved in {solve} ns, written in {write} ns")?;
    Ok(())
}

// Tells two coordinators the operations, and looks at each cut.
fn looks(rt: &HostRuntime, script: &Script) -> Result<(), anyhow::Error> {
    let mut looked = Looked::new(rt.alloc())?;
    look_at_all(rt, &mut looked, script)
}

fn look_at_all(
    rt: &HostRuntime,
    looked: &mut Looked,
    script: &Script,
) -> Result<(), anyhow::Error> {
    for step in &script.steps {
        looked_at(rt, looked, step.act)?;
    }
    Ok(())
}

// After a step of the script.
fn looked_at(rt: &HostRuntime, looked: &mut Looked, act: ScriptAct) -> Result<(), anyhow::Error> {
    match act {
        ScriptAct::Tell(op) => looked.tell(&op)?,
        ScriptAct::Cut(_) => shown_at(rt, looked)?,
        _ => {}
    }
    Ok(())
}

// Looks, and prints what is seen.
fn shown_at(rt: &HostRuntime, looked: &mut Looked) -> Result<(), anyhow::Error> {
    let seen = looked.look(rt.alloc())?;
    let (same, edits, builds) = (seen.is_same, seen.edits, seen.builds);
    println!(rt; "look: same {same}, {edits} edits, {builds} builds")?;
    let text = String::from_utf8(seen.text)?;
    print!(rt; "{text}")?;
    Ok(())
}

// The script on standard input.
fn script(rt: &HostRuntime) -> Result<Script, Refusal>
    ensures { IfOk result (λ s. AreDistinct s.coordinators.items) }
{
    let text = read_input(rt.alloc(), &mut Input::new(rt.reader()))?;
    read_script(rt.alloc(), text.as_slice())
}

// Takes the delta in, and prints the edits and the keys.
fn shown(rt: &HostRuntime, followed: &mut Followed) -> Result<(), anyhow::Error> {
    let taken = followed.take_in(rt.alloc())?;
    followed.begin(rt.alloc());
    show(rt, &taken)
}

fn show(rt: &HostRuntime, taken: &Taken) -> Result<(), anyhow::Error> {
    println!(rt; "delta")?;
    for edit in &taken.edits {
        println!(rt; "{edit:?}")?;
    }
    for key in &taken.keys {
        println!(rt; "{key:?}")?;
    }
    Ok(())
}

// Takes the delta in, and prints how long that took, beside building the network from nothing.
fn timed(rt: &HostRuntime, followed: &mut Followed) -> Result<(), anyhow::Error> {
    let (edits, took) = taken_in(rt, followed)?;
    followed.begin(rt.alloc());
    let (arcs, built) = built(rt, followed)?;
    println!(rt; "{edits} edits in {took} ns, {arcs} arcs built in {built} ns")?;
    Ok(())
}

// How many edits merging the delta takes, and how many nanoseconds it took.
fn taken_in(rt: &HostRuntime, followed: &mut Followed) -> Result<(usize, u128), anyhow::Error> {
    let begun = Instant::now(rt)?;
    let taken = followed.take_in(rt.alloc())?;
    let took = begun.elapsed(rt)?.as_nanos();
    Ok((taken.edits.len(), took))
}

// How many arcs the network has, and how many nanoseconds it took to build it from nothing.
fn built(rt: &HostRuntime, followed: &Followed) -> Result<(usize, u128), anyhow::Error> {
    let begun = Instant::now(rt)?;
    let network = followed.built(rt.alloc())?;
    let took = begun.elapsed(rt)?.as_nanos();
    Ok((network.arcs_len(), took))
}

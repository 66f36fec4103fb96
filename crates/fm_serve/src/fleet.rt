//! A fleet: the coordinators of a script of tells, run in threads and counted.

ghost use Rattle.std.specs.Prelude.{IfOk, IfErr, string_bytes};
ghost use Rattle.fm_coord.specs.Numbers.{AreDistinct};
ghost use Rattle.fm_script.specs.Texts.{SpellsTells};
ghost use Rattle.fm_serve.specs.Fleets.{IsUntold, IsCounted, IsNotCounted};

use crate::fault::Fault;
use crate::muster::muster;
use crate::progress::RunProgress;
use fm_script::parse_tells::read_tells;
use fm_script::script::Tells;
use std::alloc::Global;
use std::sync::Wait;
use std::thread::Threads;

/// Runs the coordinators of the script of tells that the text spells, each with so many rounds, and returns the lines
/// of what was counted of them. Refused if the text, a tell or a thread is at fault, or if memory runs out.
pub fn count_fleet<T: Threads + Wait + Sync>(
    rt: &T,
    alloc: Global,
    progress: &RunProgress,
    rounds: u32,
    text: &[u8],
) -> Result<String, Fault>
    ensures ok { IfOk result (λ lines. IsCounted rounds text.now (string_bytes lines)) }
    ensures err { IfErr result (λ fault. IsNotCounted text.now fault) }
{
    let script = match tells_in(alloc, text) {
        Ok(script) => script,
        Err(fault) => return Err(fault),
    };
    let counts = match muster(rt, alloc, &script, rounds, progress.rounds()) {
        Ok(counts) => counts,
        Err(stop) => return Err(stop),
    };
    match counts.text(alloc) {
        Ok(lines) => Ok(lines),
        Err(refusal) => Err(Fault::from(refusal)),
    }
}

// The script of tells that the text spells.
fn tells_in(alloc: Global, text: &[u8]) -> Result<Tells, Fault>
    ensures distinct { IfOk result (λ script. AreDistinct script.coordinators.items) }
    ensures spelled { IfOk result (λ script. SpellsTells text.now script.coordinators.items script.tells.items) }
    ensures untold { IfErr result (λ fault. IsUntold text.now fault) }
{
    match read_tells(alloc, text) {
        Ok(script) => Ok(script),
        Err(refusal) => Err(Fault::of_script(refusal)),
    }
}

//! What the program answers to its words and its input, as a value: all of the program except reading and writing.
//!
//! The output is complete before any of it is written, so a run that is stopped writes nothing.

ghost use Rattle.std.specs.Prelude.{◌≡◌, []};
ghost use Rattle.fm_args.specs.Invocation.{args_model, told_of, Telling};
ghost use Rattle.fm_args.specs.Invocation as told;
ghost use Rattle.fm_serve.specs.declared.ending.Ending.TheVariants as ending;
ghost use Rattle.fm_serve.specs.Responses.{Responds};

use crate::answer::answer;
use crate::ending::Ending;
use crate::fault::Fault;
use crate::fleet::count_fleet;
use crate::progress::RunProgress;
use crate::refusals::REFUSALS;
use fm_args::words::{Command, Words};
use fm_query::version_text::version_text;
use fm_records::refusal::Refusal;
use std::alloc::Global;
use std::sync::Wait;
use std::thread::Threads;

/// The complete output of a run, and how it then ends.
#[derive(Debug, Drop)]
pub struct RunResult {
    pub ending: Ending,
    pub output: Vec<u8>,
}

impl RunResult {
    // The run was stopped: nothing goes out.
    pub(crate) fn stopped(alloc: Global, fault: Fault) -> RunResult
        ensures ending { result.ending ≡ ending.Stopped fault }
        ensures output { result.output.items ≡ [] }
    {
        RunResult {
            ending: Ending::Stopped(fault),
            output: Vec::new(alloc),
        }
    }
}

/// The program's answer to its words and to the text of its input, which only a command or a fleet uses: the complete
/// output, and how the run then ends. It reads and writes nothing. Faults are found in this order: the text, the
/// coordinator that is asked, the steps in order, the name of a packet. A run that is stopped has no output. Only a
/// fleet starts threads, and waits for them. A stream and a store have no answer here: `serve` gives it. Progress
/// is counted as the run goes on; no answer depends on it.
pub fn respond<T: Threads + Wait + Sync>(
    rt: &T,
    alloc: Global,
    progress: &RunProgress,
    words: Words,
    text: &[u8],
) -> RunResult
    ensures { Responds (told_of words.entry) text.now result.ending result.output.items }
{
    match words {
        Words::Run(command) => run_command(alloc, progress, command, text),
        Words::Fleet { rounds } => run_fleet(rt, alloc, progress, rounds, text),
        Words::Follow { .. }
        | Words::FollowWithStore { .. }
        | Words::Records { .. }
        | Words::Recover { .. } => RunResult {
            ending: Ending::Done,
            output: Vec::new(alloc),
        },
        Words::Help(page) => RunResult {
            ending: Ending::Done,
            output: page.into_bytes(),
        },
        Words::Refusals => refusals_page(alloc),
        Words::Version => version_line(alloc),
        Words::Wrong(said) => RunResult {
            ending: Ending::Wrong(said),
            output: Vec::new(alloc),
        },
    }
}

// What a command answers to the text.
fn run_command(alloc: Global, progress: &RunProgress, command: Command, text: &[u8]) -> RunResult
    ensures { Responds (told.run (args_model command.entry)) text.now result.ending result.output.items }
{
    match answer(alloc, progress, command, text) {
        Ok(answered) => answered,
        Err(fault) => RunResult::stopped(alloc, fault),
    }
}

// What is counted of a fleet of the text.
fn run_fleet<T: Threads + Wait + Sync>(
    rt: &T,
    alloc: Global,
    progress: &RunProgress,
    rounds: u32,
    text: &[u8],
) -> RunResult
    ensures { Responds (told.fleet rounds) text.now result.ending result.output.items }
{
    match count_fleet(rt, alloc, progress, rounds, text) {
        Ok(lines) => RunResult {
            ending: Ending::Done,
            output: lines.into_bytes(),
        },
        Err(fault) => RunResult::stopped(alloc, fault),
    }
}

// The page of refusals.
fn refusals_page(alloc: Global) -> RunResult
    ensures { Responds told.page [] result.ending result.output.items }
{
    match String::from_str(alloc, REFUSALS) {
        Ok(page) => RunResult {
            ending: Ending::Done,
            output: page.into_bytes(),
        },
        Err(_) => RunResult::stopped(alloc, Fault::from(Refusal::OutOfMemory)),
    }
}

// The line that tells the version.
fn version_line(alloc: Global) -> RunResult
    ensures { Responds told.version [] result.ending result.output.items }
{
    match version_text(alloc) {
        Ok(line) => RunResult {
            ending: Ending::Done,
            output: line.into_bytes(),
        },
        Err(_) => RunResult::stopped(alloc, Fault::from(Refusal::OutOfMemory)),
    }
}

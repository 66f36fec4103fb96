//! What a command answers to a text.

ghost use Rattle.std.specs.Prelude.{◌≡◌, ◌⊎◌, cond, Ok, IfOk, IfErr, Some};
ghost use Rattle.fm_coord.specs.Numbers.{AreDistinct};
ghost use Rattle.fm_query.specs.Queries.{ForEachWorld};
ghost use Rattle.fm_script.specs.Texts.{IsScriptText};
ghost use Rattle.fm_records.specs.declared.refusal.Refusal.TheVariants as refused;
ghost use Rattle.fm_args.specs.Invocation.{args_model};
ghost use Rattle.fm_args.specs.Invocation as told;
ghost use Rattle.fm_serve.specs.declared.ending.Ending.TheVariants as ending;
ghost use Rattle.fm_serve.specs.Answers.{IsNoScript, AnswersIn, LacksIn, IsOfScript, IsScriptStopped, Wants, IsCommandRefused, query_at, query_of};
ghost use Rattle.fm_serve.specs.Endings.{coordinator_asked};
ghost use Rattle.fm_serve.specs.Faults.{fault_of};

use crate::ending::Ending;
use crate::fault::Fault;
use crate::progress::RunProgress;
use crate::respond::RunResult;
use crate::run::run;
use crate::script_check::checked;
use fm_args::words::{Command, ScriptQuestion};
use fm_edit::keepers::Keeper;
use fm_query::query::{Query, ask};
use fm_query::unpack::unpack;
use fm_question::question::{Listing, Question};
use fm_records::ids::{CoordId, TaskId};
use fm_records::refusal::Refusal;
use fm_script::parse_script::read_script;
use fm_script::script::Script;
use fm_world::world::World;
use std::alloc::Global;

/// What the command answers to the text. Refused if the text, the coordinator that is asked, a step or what is asked
/// for is at fault, the first of these, or if memory runs out. A check is refused only if memory runs out.
pub fn answer(
    alloc: Global,
    progress: &RunProgress,
    command: Command,
    text: &[u8],
) -> Result<RunResult, Fault>
    ensures ok { IfOk result (λ a. Wants (args_model command.entry) text.now a.ending a.output.items) }
    ensures err { IfErr result (λ fault. IsCommandRefused (args_model command.entry) text.now fault) }
{
    match command {
        Command::Check => checked(alloc, text),
        Command::Unpack => unpacked(alloc, text),
        Command::Ask { .. } | Command::Agree | Command::Pack { .. } | Command::Why { .. } => {
            answer_script(alloc, progress, command, text)
        }
    }
}

// The lines of the packet that the text spells.
fn unpacked(alloc: Global, text: &[u8]) -> Result<RunResult, Fault>
    ensures ok { IfOk result (λ a. Wants told.unpack text.now a.ending a.output.items) }
    ensures err { IfErr result (λ fault. IsCommandRefused told.unpack text.now fault) }
{
    match unpack(alloc, text) {
        Ok(lines) => Ok(RunResult {
            ending: Ending::Done,
            output: lines.into_bytes(),
        }),
        Err(refusal) => Err(Fault::from(refusal)),
    }
}

// What the script's world answers once its steps ran.
fn answer_script(
    alloc: Global,
    progress: &RunProgress,
    command: Command,
    text: &[u8],
) -> Result<RunResult, Fault>
    ensures ok { IfOk result (λ a. IsOfScript (args_model command.entry) text.now a.ending a.output.items) }
    ensures err { IfErr result (λ fault. (fault ≡ fault_of refused.OutOfMemory)
        ⊎ (IsNoScript text.now fault ⊎ IsScriptStopped (args_model command.entry) text.now fault)) }
{
    let script = match script_in(alloc, text) {
        Ok(script) => script,
        Err(fault) => return Err(fault),
    };
    let query = match query_of(command, &script) {
        Ok(query) => query,
        Err(fault) => return Err(fault),
    };
    let mut world = match run(alloc, progress, &script) {
        Ok(world) => world,
        Err(fault) => return Err(fault),
    };
    reply(alloc, &mut world, query)
}

// What the world answers to the query. NoPacket if there is none, since no packet has the name.
fn reply(alloc: Global, world: &mut World<Keeper>, query: Option<Query>) -> Result<RunResult, Fault>
    ensures ok { ForEachWorld world.old (λ w. IfOk result (λ a. AnswersIn query w a.ending a.output.items)) }
    ensures err { ForEachWorld world.old (λ w. IfErr result (λ fault.
        (fault ≡ fault_of refused.OutOfMemory) ⊎ LacksIn query w fault)) }
{
    let Some(query) = query else {
        return Err(Fault::from(Refusal::NoPacket));
    };
    match ask(alloc, world, query) {
        Ok(answer) => Ok(RunResult {
            ending: ending_of(answer.differs),
            output: answer.text,
        }),
        Err(refusal) => Err(Fault::from(refusal)),
    }
}

// How a run with an answer ends.
fn ending_of(differs: bool) -> Ending
    ensures { result ≡ cond differs ending.Differ ending.Done }
{
    if differs {
        Ending::Differ
    } else {
        Ending::Done
    }
}

// The query of the command: none if no packet has the name. NoCoordinator if the coordinator that is asked is not
// listed.
fn query_of(command: Command, script: &Script) -> Result<Option<Query>, Fault>
    ensures { result ≡ query_of (args_model command.entry) script.now.coordinators.items script.now.names }
{
    match command {
        Command::Ask { question, at } => match asked(&script.coordinators, at) {
            Ok(number) => Ok(Some(query_at(question, number))),
            Err(fault) => Err(fault),
        },
        Command::Agree => Ok(Some(Query::Agree)),
        Command::Pack { name } => match script.names.place(name) {
            Some(place) => Ok(Some(Query::Packet(place))),
            None => Ok(None),
        },
        Command::Check | Command::Unpack => Ok(None),
        Command::Why { task, at } => match asked(&script.coordinators, at) {
            Ok(number) => Ok(Some(Query::About(number, Question::Why(TaskId::new(task))))),
            Err(fault) => Err(fault),
        },
    }
}

// The question about the coordinator.
fn query_at(question: ScriptQuestion, at: CoordId) -> Query
    ensures { result ≡ query_at question at }
{
    match question {
        ScriptQuestion::Graph => Query::About(at, Question::Graph),
        ScriptQuestion::List => Query::About(at, Question::List(Listing::All)),
        ScriptQuestion::Solve => Query::About(at, Question::Solve),
        ScriptQuestion::Plan => Query::About(at, Question::Plan),
        ScriptQuestion::Winners => Query::About(at, Question::Winners),
    }
}

// The script that the text spells.
fn script_in(alloc: Global, text: &[u8]) -> Result<Script, Fault>
    ensures distinct { IfOk result (λ script. AreDistinct script.coordinators.items) }
    ensures spelled { IfOk result (λ s. IsScriptText text.now s.coordinators.items s.names s.steps.items) }
    ensures unread { IfErr result (λ fault. IsNoScript text.now fault) }
{
    match read_script(alloc, text) {
        Ok(script) => Ok(script),
        Err(refusal) => Err(Fault::of_script(refusal)),
    }
}

// The coordinator that is asked: the one named, or else the first that the script lists.
fn asked(listed: &[CoordId], at: Option<u8>) -> Result<CoordId, Fault>
    ensures { result ≡ coordinator_asked listed.now at }
{
    match at {
        Some(number) => named(listed, number),
        None => match listed {
            [first, ..] => Ok(*first),
            [] => Err(Fault::from(Refusal::NoCoordinator)),
        },
    }
}

// The coordinator with the number.
fn named(listed: &[CoordId], number: u8) -> Result<CoordId, Fault>
    ensures { result ≡ coordinator_asked listed.now (Some number) }
{
    match listed.split_first() {
        None => Err(Fault::from(Refusal::NoCoordinator)),
        Some((first, rest)) => {
            if first.value() == number {
                Ok(*first)
            } else {
                named(rest, number)
            }
        }
    }
}

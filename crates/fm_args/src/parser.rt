//! The commands that the parser knows, with their texts of help.

ghost use Rattle.std.specs.Prelude.{◌≡◌, IfOk, Ok, codes, false, take};
ghost use Rattle.clap.specs.Words.{App, app_of, new_app, rule_of, with_rule, with_subcommand};
ghost use Rattle.clap.specs.declared.builder.command.Command.TheViews.{out-Command};
ghost use Rattle.fm_args.specs.CommandLine.{asks, commands, fleets, follows, lists_records, most_renew_after, nothing, packs, recovers, whys};
ghost use Rattle.fm_args.specs.Parser.{command_app, firmament, name_rule, no_commands, number_rule, with_commands, word_rule};
ghost use Rattle.fm_args.specs.Invocation.{agree, check, run, unpack};
ghost use Rattle.fm_args.specs.declared.words.ScriptQuestion.TheVariants as question;

use super::words::{MOST_RENEW_AFTER, MOST_ROUNDS};
use clap::{Arg, ArgAction, Command, value_parser};
use fm_lattice::join::OutOfMemory;
use std::alloc::Global;

/// The program, with its commands in the order of their names, except that `plan` is after `solve`.
pub fn parser<'a>(alloc: Global) -> Result<Command<'a>, OutOfMemory>
    ensures { IfOk result (λ c. app_of c ≡ firmament) }
{
    let to_recover = up_to_recover(alloc);
    let to_solve = with(to_recover, solve(alloc));
    let to_plan = with(to_solve, plan(alloc));
    let to_unpack = with(to_plan, Ok(unpack(alloc)));
    let to_why = with(to_unpack, why(alloc));
    with(to_why, winners(alloc))
}

// The program with its commands up to `recover`.
fn up_to_recover<'a>(alloc: Global) -> Result<Command<'a>, OutOfMemory>
    ensures { IfOk result (λ c. app_of c ≡ with_commands (take 9 commands)) }
{
    let to_follow = up_to_follow(alloc);
    let to_graph = with(to_follow, graph(alloc));
    let to_list = with(to_graph, list(alloc));
    let to_pack = with(to_list, pack(alloc));
    let to_records = with(to_pack, records(alloc));
    with(to_records, recover(alloc))
}

// The program with its commands up to `follow`.
fn up_to_follow<'a>(alloc: Global) -> Result<Command<'a>, OutOfMemory>
    ensures { IfOk result (λ c. app_of c ≡ with_commands (take 4 commands)) }
{
    let to_agree = with(program(alloc), Ok(agree(alloc)));
    let to_check = with(to_agree, Ok(check(alloc)));
    let to_fleet = with(to_check, fleet(alloc));
    with(to_fleet, follow(alloc))
}

// The program with one command more, unless either could not be made. Without a way out of `parser` before its end, no command made before has
// to be proved to be dropped there.
fn with<'a>(
    program: Result<Command<'a>, OutOfMemory>,
    command: Result<Command<'a>, OutOfMemory>,
) -> Result<Command<'a>, OutOfMemory>
    ensures { (before added : App) → IfOk program.entry (λ c. app_of c ≡ before)
        → IfOk command.entry (λ c. app_of c ≡ added)
        → IfOk command.entry (λ c. (out-Command c).has_globals ≡ false)
        → IfOk result (λ c. app_of c ≡ with_subcommand before added.top) }
{
    let (program, command) = both(program, command)?;
    Ok(program.subcommand(command)?)
}

// Both values, if neither is lacking.
fn both<A: Drop, B: Drop>(
    first: Result<A, OutOfMemory>,
    second: Result<B, OutOfMemory>,
) -> Result<(A, B), OutOfMemory>
    ensures first { IfOk result (λ r. first ≡ Ok r.0) }
    ensures second { IfOk result (λ r. second ≡ Ok r.1) }
{
    Ok((first?, second?))
}

fn program<'a>(alloc: Global) -> Result<Command<'a>, OutOfMemory>
    ensures app { IfOk result (λ c. app_of c ≡ no_commands) }
    ensures local { IfOk result (λ c. (out-Command c).has_globals ≡ false) }
{
    let program = Command::new(alloc, "firmament").bin_name("firmament")?;
    Ok(
        program
            .about(
                "Schedules tasks over a network of bandwidths: runs the script on standard input, and prints what is asked for",
            )
            .after_help(
                "Example: firmament graph < examples/first.json\n\nRefusals by their numbers: firmament help refusals\nVersion, and formats of packets: firmament --version",
            )
            .subcommand_required(true)
            .arg_required_else_help(true),
    )
}

fn agree<'a>(alloc: Global) -> Command<'a>
    ensures app { app_of result ≡ command_app (codes "agree") (nothing (run agree)) }
    ensures local { (out-Command result).has_globals ≡ false }
{
    Command::new(alloc, "agree")
        .about(
            "Prints `same` if all coordinators know the same, else `differ A B`: the first that is listed, and the first that knows something else; then the status is 5",
        )
        .after_help("Example: firmament agree < examples/gossip.json")
}

fn check<'a>(alloc: Global) -> Command<'a>
    ensures app { app_of result ≡ command_app (codes "check") (nothing (run check)) }
    ensures local { (out-Command result).has_globals ≡ false }
{
    Command::new(alloc, "check")
        .about(
            "Runs nothing, and prints `accepted`, or the first fault of the script: the step, its member, and what is wanted there; then the status is 3",
        )
        .after_help(
            "What depends on how far a history goes is found by running alone: whether it is full, and which deltas it has.\n\nExample: firmament check < examples/first.json",
        )
}

fn fleet<'a>(alloc: Global) -> Result<Command<'a>, OutOfMemory>
    ensures app { IfOk result (λ c. app_of c ≡ command_app (codes "fleet") fleets) }
    ensures local { IfOk result (λ c. (out-Command c).has_globals ≡ false) }
{
    let command = Command::new(alloc, "fleet")
        .about(
            "Runs the coordinators of a script that only tells, each in threads of its own, and lets them exchange all that they know; prints `calls C K` for each, `audit ok`, `gather L`, and what `agree` would",
        )
        .after_help("Example: firmament fleet --rounds 1 < examples/fleet.json");
    Ok(command.arg(rounds(alloc))?)
}

fn follow<'a>(alloc: Global) -> Result<Command<'a>, OutOfMemory>
    ensures app { IfOk result (λ c. app_of c ≡ command_app (codes "follow") follows) }
    ensures local { IfOk result (λ c. (out-Command c).has_globals ≡ false) }
{
    let command = Command::new(alloc, "follow")
        .about(
            "Keeps coordinators running: reads one JSON object a line from standard input, and answers each at once, by its text and then `ok`, or by `refusal N`, before it reads the next",
        )
        .after_help(
            "The first line lists the coordinators: {\"coordinators\":[1,2]}\nAll lines and their answers are described in docs/formats.md.\n\nThe status is 0 at the end of the input, 3 if the input cannot be read, 6 if the output cannot be written, 8 if the store is damaged, and 9 if it cannot be used.\n\nExample: firmament follow < examples/day.follow",
        );
    let renewed = command.arg(renew_after(alloc))?;
    stored(alloc, renewed)
}

// The command with the options of a store too.
fn stored<'a>(alloc: Global, command: Command<'a>) -> Result<Command<'a>, OutOfMemory>
    requires { (out-Command command).has_globals ≡ false }
    ensures app { IfOk result (λ c. app_of c
        ≡ with_rule (with_rule (app_of command.entry) (word_rule (codes "store"))) (word_rule (codes "store-label"))) }
    ensures local { IfOk result (λ c. (out-Command c).has_globals ≡ false) }
{
    let stored = command.arg(store(alloc))?;
    Ok(stored.arg(store_label(alloc))?)
}

fn graph<'a>(alloc: Global) -> Result<Command<'a>, OutOfMemory>
    ensures app { IfOk result (λ c. app_of c ≡ command_app (codes "graph") (asks question.Graph)) }
    ensures local { IfOk result (λ c. (out-Command c).has_globals ≡ false) }
{
    asking(
        alloc,
        "graph",
        "Prints the network of what a coordinator knows, as a minimum-cost flow problem in DIMACS lines",
        "Example: firmament graph --at 1 < examples/first.json",
    )
}

fn list<'a>(alloc: Global) -> Result<Command<'a>, OutOfMemory>
    ensures app { IfOk result (λ c. app_of c ≡ command_app (codes "list") (asks question.List)) }
    ensures local { IfOk result (λ c. (out-Command c).has_globals ≡ false) }
{
    asking(
        alloc,
        "list",
        "Prints what a coordinator knows: a line for each job, machine and task, by id",
        "Example: firmament list < examples/held.json",
    )
}

fn pack<'a>(alloc: Global) -> Result<Command<'a>, OutOfMemory>
    ensures app { IfOk result (λ c. app_of c ≡ command_app (codes "pack") packs) }
    ensures local { IfOk result (λ c. (out-Command c).has_globals ≡ false) }
{
    let command = Command::new(alloc, "pack")
        .about(
            "Prints the bytes of a packet that the script cuts, in hexadecimal digits on one line",
        )
        .after_help("Example: firmament pack news < examples/gossip.json");
    Ok(command.arg(name(alloc))?)
}

fn records<'a>(alloc: Global) -> Result<Command<'a>, OutOfMemory>
    ensures app { IfOk result (λ c. app_of c ≡ command_app (codes "records") lists_records) }
    ensures local { IfOk result (λ c. (out-Command c).has_globals ≡ false) }
{
    let command = Command::new(alloc, "records")
        .about(
            "Prints a line for each record of the store in a file: its place, how many bytes it has, and what is in it; the last line tells where the file is torn or damaged, if it is",
        )
        .after_help(
            "The status is 8 if the file is damaged or no store, and 9 if it cannot be read. It is not changed.\n\nExample: firmament records cluster.store",
        );
    Ok(command.arg(file(alloc))?)
}

fn recover<'a>(alloc: Global) -> Result<Command<'a>, OutOfMemory>
    ensures app { IfOk result (λ c. app_of c ≡ command_app (codes "recover") recovers) }
    ensures local { IfOk result (λ c. (out-Command c).has_globals ≡ false) }
{
    let command = Command::new(alloc, "recover")
        .about(
            "Prints what each coordinator knew by its packets in the store in a file, up to where the file is torn or damaged: the bytes of one packet each, or of several if a line cannot have all, in hexadecimal digits",
        )
        .after_help(
            "The status is 8 if the file is damaged or no store, and 9 if it cannot be read. It is not changed.\n\nExample: firmament recover cluster.store",
        );
    Ok(command.arg(file(alloc))?)
}

fn solve<'a>(alloc: Global) -> Result<Command<'a>, OutOfMemory>
    ensures app { IfOk result (λ c. app_of c ≡ command_app (codes "solve") (asks question.Solve)) }
    ensures local { IfOk result (λ c. (out-Command c).has_globals ≡ false) }
{
    asking(
        alloc,
        "solve",
        "Prints a least flow of that network, its cost first, in DIMACS lines: the schedule",
        "Example: firmament solve < examples/first.json",
    )
}

fn plan<'a>(alloc: Global) -> Result<Command<'a>, OutOfMemory>
    ensures app { IfOk result (λ c. app_of c ≡ command_app (codes "plan") (asks question.Plan)) }
    ensures local { IfOk result (λ c. (out-Command c).has_globals ≡ false) }
{
    asking(
        alloc,
        "plan",
        "Prints what the schedule of `solve` changes: `place TASK MACHINE INCARNATION` for each task that it places, then `preempt TASK ATTEMPT` for each that it takes off its machine",
        "Example: firmament plan < examples/first.json",
    )
}

fn unpack<'a>(alloc: Global) -> Command<'a>
    ensures app { app_of result ≡ command_app (codes "unpack") (nothing (run unpack)) }
    ensures local { (out-Command result).has_globals ≡ false }
{
    Command::new(alloc, "unpack")
        .about(
            "Prints the records of a packet, a line each; standard input has the packet in hexadecimal digits",
        )
        .after_help("Example: firmament unpack < examples/packet.hex")
}

fn why<'a>(alloc: Global) -> Result<Command<'a>, OutOfMemory>
    ensures app { IfOk result (λ c. app_of c ≡ command_app (codes "why") whys) }
    ensures local { IfOk result (λ c. (out-Command c).has_globals ≡ false) }
{
    let command = Command::new(alloc, "why")
        .about(
            "Says why a task waits or runs, by what a coordinator knows: what the schedule costs, and how much dearer each schedule is that runs the task on one of the cheapest machines",
        )
        .after_help(
            "Example: firmament why 00000000-0000-0000-0000-000000000015 --at 1 < examples/waiting.json",
        );
    let named = command.arg(task(alloc))?;
    Ok(named.arg(at(alloc))?)
}

fn winners<'a>(alloc: Global) -> Result<Command<'a>, OutOfMemory>
    ensures app { IfOk result (λ c. app_of c ≡ command_app (codes "winners") (asks question.Winners)) }
    ensures local { IfOk result (λ c. (out-Command c).has_globals ≡ false) }
{
    asking(
        alloc,
        "winners",
        "Prints, for each task whose present attempt has a winner: TASK ATTEMPT COORDINATOR MACHINE INCARNATION, and held or free",
        "Example: firmament winners < examples/held.json",
    )
}

// A command that may be told which coordinator is asked.
fn asking<'a>(
    alloc: Global,
    name: &'a str,
    about: &'a str,
    example: &'a str,
) -> Result<Command<'a>, OutOfMemory>
    ensures app { IfOk result (λ c. app_of c ≡ with_rule (new_app name.now) (number_rule (codes "at") 0 255)) }
    ensures local { IfOk result (λ c. (out-Command c).has_globals ≡ false) }
{
    let command = Command::new(alloc, name).about(about).after_help(example);
    Ok(command.arg(at(alloc))?)
}

// The name of a packet.
fn name<'a>(alloc: Global) -> Arg<'a>
    ensures rule { rule_of result ≡ name_rule }
    ensures local { result.global ≡ false }
{
    word(
        alloc,
        "NAME",
        "The name under which the script cuts the packet",
    )
}

// The file of a store.
fn file<'a>(alloc: Global) -> Arg<'a>
    ensures rule { rule_of result ≡ name_rule }
    ensures local { result.global ≡ false }
{
    word(alloc, "FILE", "The path of the file")
}

// The id of a task.
fn task<'a>(alloc: Global) -> Arg<'a>
    ensures rule { rule_of result ≡ name_rule }
    ensures local { result.global ≡ false }
{
    word(alloc, "TASK", "The id of the task, as a UUID")
}

// A word that a command must have, under the name in its usage.
fn word<'a>(alloc: Global, usage: &'a str, about: &'a str) -> Arg<'a>
    ensures rule { rule_of result ≡ name_rule }
    ensures local { result.global ≡ false }
{
    Arg::new(alloc, "name")
        .value_name(usage)
        .help(about)
        .required(true)
}

// How many rounds each coordinator of a fleet runs.
fn rounds<'a>(alloc: Global) -> Arg<'a>
    ensures rule { rule_of result ≡ number_rule (codes "rounds") 0 1000 }
    ensures local { result.global ≡ false }
{
    Arg::new(alloc, "rounds")
        .long("rounds")
        .value_name("N")
        .help("How many rounds each coordinator runs, from 0 to 1000; none if it is left out")
        .action(ArgAction::Set)
        .value_parser(value_parser!(u32).range(0..=MOST_ROUNDS))
}

// After how many entries coordinators that are kept running are renewed.
fn renew_after<'a>(alloc: Global) -> Arg<'a>
    ensures rule { rule_of result ≡ number_rule (codes "renew-after") 1 most_renew_after }
    ensures local { result.global ≡ false }
{
    Arg::new(alloc, "renew-after")
        .long("renew-after")
        .value_name("N")
        .help(
            "Renews all coordinators from what they know once one of them has N entries in its history, 1 to 1000000 [default: 100000]",
        )
        .action(ArgAction::Set)
        .value_parser(value_parser!(u32).range(1..=MOST_RENEW_AFTER))
}

// The file of a stream's store.
fn store<'a>(alloc: Global) -> Arg<'a>
    ensures rule { rule_of result ≡ word_rule (codes "store") }
    ensures local { result.global ≡ false }
{
    Arg::new(alloc, "store")
        .long("store")
        .value_name("FILE")
        .help(
            "Keeps what is told in the store in the file, which is made if there is none: an `ok` is written once it is on the disk, and the coordinators begin with what the store has",
        )
        .action(ArgAction::Set)
}

// The label of that store.
fn store_label<'a>(alloc: Global) -> Arg<'a>
    ensures rule { rule_of result ≡ word_rule (codes "store-label") }
    ensures local { result.global ≡ false }
{
    Arg::new(alloc, "store-label")
        .long("store-label")
        .value_name("TEXT")
        .help(
            "The label of the store, at most 200 bytes: a store with another label, or with other coordinators, is refused [default: none]",
        )
        .action(ArgAction::Set)
}

// The coordinator that is asked.
fn at<'a>(alloc: Global) -> Arg<'a>
    ensures rule { rule_of result ≡ number_rule (codes "at") 0 255 }
    ensures local { result.global ≡ false }
{
    Arg::new(alloc, "at")
        .long("at")
        .value_name("N")
        .help(
            "The coordinator that is asked, from 0 to 255; the first of the script if it is left out",
        )
        .action(ArgAction::Set)
        .value_parser(value_parser!(u8))
}

//! The meaning of the parser's answer: commands as data, so that nothing behind this knows words of a command line.

ghost use Rattle.std.specs.Prelude.{◌≡◌, ◌≢◌, IfOk, codes, map, option_map, string_bytes};
ghost use Rattle.clap.specs.Words.{first_of, found_of, kind_of, rows_of, subcommand_rows_of};
ghost use Rattle.fm_args.specs.CommandLine.{asks, fleets, follows, lists_records, packs, recovers, stored_at, whys};
ghost use Rattle.fm_records.specs.Ids.{read_id};
ghost use Rattle.std.specs.Option.{option_map_or};
ghost use Rattle.fm_args.specs.Parser.{number_read, told_as, told_at_error, told_of_subcommand, told_with};
ghost use Rattle.fm_args.specs.Invocation.{run, told_of, why, wrong};

use super::help::{ask_for_help, begin_with_help};
use super::words::{Command, DEFAULT_RENEW_AFTER, MOST_LABEL_BYTES, ScriptQuestion, Words};
use clap::error::ErrorKind;
use clap::{ArgMatches, Error};
use fm_lattice::join::OutOfMemory;
use fm_records::ids::TaskId;
use std::alloc::Global;

// What is said of a word that is no id.
const NO_ID: &str = "error: a task is named by its id, a UUID\n";

// What is said of a label without a store, and of one that is too long.
const NO_STORE: &str = "error: --store-label wants --store too\n";

const LONG_LABEL: &str = "error: a label has at most 200 bytes\n";

/// The meaning of the matches of a command.
pub fn named<'a>(alloc: Global, matches: &ArgMatches<'a>) -> Words<'a>
    ensures { told_of result ≡ told_of_subcommand (subcommand_rows_of matches.now) }
{
    match matches.subcommand() {
        Some((name, inner)) => named_as(alloc, name, inner),
        None => Words::Wrong(String::new(alloc)),
    }
}

// The meaning of the matches of the command of the name.
fn named_as<'a>(alloc: Global, name: &str, inner: &ArgMatches<'a>) -> Words<'a>
    ensures { told_of result ≡ told_as name.now (rows_of (found_of inner.now)) }
{
    match name {
        "agree" => Words::Run(Command::Agree),
        "check" => Words::Run(Command::Check),
        "fleet" => runs(inner),
        "follow" => follows(alloc, inner),
        "graph" => asks(ScriptQuestion::Graph, inner),
        "list" => asks(ScriptQuestion::List, inner),
        "pack" => packs(alloc, inner),
        "records" => lists_records(alloc, inner),
        "recover" => recovers(alloc, inner),
        "solve" => asks(ScriptQuestion::Solve, inner),
        "plan" => asks(ScriptQuestion::Plan, inner),
        "unpack" => Words::Run(Command::Unpack),
        "why" => whys(alloc, inner),
        "winners" => asks(ScriptQuestion::Winners, inner),
        // The parser knows no other.
        _ => Words::Wrong(String::new(alloc)),
    }
}

// The question, with the coordinator that is named.
fn asks<'a>(question: ScriptQuestion, matches: &ArgMatches<'a>) -> Words<'a>
    ensures { told_of result ≡ told_with (asks question) (rows_of (found_of matches.now)) }
{
    let at = at_in(matches);
    Words::Run(Command::Ask { question, at })
}

fn at_in<'a>(matches: &ArgMatches<'a>) -> Option<u8>
    ensures { result ≡ number_read 8 (codes "at") (rows_of (found_of matches.now)) }
{
    matches.get_one::<u8>("at")
}

// A fleet, with as many rounds as are named.
fn runs<'a>(matches: &ArgMatches<'a>) -> Words<'a>
    ensures { told_of result ≡ told_with fleets (rows_of (found_of matches.now)) }
{
    let rounds = rounds_in(matches).unwrap_or(0);
    Words::Fleet { rounds }
}

fn rounds_in<'a>(matches: &ArgMatches<'a>) -> Option<u32>
    ensures { result ≡ number_read 32 (codes "rounds") (rows_of (found_of matches.now)) }
{
    matches.get_one::<u32>("rounds")
}

// Coordinators that are kept running, renewed after as many entries as are named, with the store that is named.
fn follows<'a>(alloc: Global, matches: &ArgMatches<'a>) -> Words<'a>
    ensures { told_of result ≡ told_with follows (rows_of (found_of matches.now)) }
{
    let renew_after = renew_after_in(matches).unwrap_or(DEFAULT_RENEW_AFTER);
    match (store_in(matches), label_in(matches)) {
        (None, None) => Words::Follow { renew_after },
        (None, Some(_)) => wrong_with(alloc, NO_STORE),
        (Some(path), None) => stored_at(alloc, renew_after, path, ""),
        (Some(path), Some(label)) => stored_at(alloc, renew_after, path, label),
    }
}

// The same with a store; if the label is too long, that it is.
fn stored_at<'a>(alloc: Global, renew_after: u32, path: &'a str, label: &'a str) -> Words<'a>
    ensures { told_of result ≡ stored_at renew_after path.now label.now }
{
    if label.len() <= MOST_LABEL_BYTES {
        Words::FollowWithStore {
            renew_after,
            path,
            label,
        }
    } else {
        wrong_with(alloc, LONG_LABEL)
    }
}

// What is wrong, in this text.
fn wrong_with<'a>(alloc: Global, text: &str) -> Words<'a>
    ensures { told_of result ≡ wrong }
{
    match String::from_str(alloc, text) {
        Ok(text) => Words::Wrong(text),
        Err(_) => Words::Wrong(String::new(alloc)),
    }
}

fn store_in<'a>(matches: &ArgMatches<'a>) -> Option<&'a str>
    ensures { option_map (λ s. s.now) result ≡ first_of (codes "store") (rows_of (found_of matches.now)) }
{
    matches.get_str("store")
}

fn label_in<'a>(matches: &ArgMatches<'a>) -> Option<&'a str>
    ensures { option_map (λ s. s.now) result ≡ first_of (codes "store-label") (rows_of (found_of matches.now)) }
{
    matches.get_str("store-label")
}

fn renew_after_in<'a>(matches: &ArgMatches<'a>) -> Option<u32>
    ensures { result ≡ number_read 32 (codes "renew-after") (rows_of (found_of matches.now)) }
{
    matches.get_one::<u32>("renew-after")
}

// The name of a packet, which the command requires.
fn packs<'a>(alloc: Global, matches: &ArgMatches<'a>) -> Words<'a>
    ensures { told_of result ≡ told_with packs (rows_of (found_of matches.now)) }
{
    match name_in(matches) {
        Some(name) => Words::Run(Command::Pack { name }),
        None => Words::Wrong(String::new(alloc)),
    }
}

// The records of the store in a file, which the command requires.
fn lists_records<'a>(alloc: Global, matches: &ArgMatches<'a>) -> Words<'a>
    ensures { told_of result ≡ told_with lists_records (rows_of (found_of matches.now)) }
{
    match name_in(matches) {
        Some(path) => Words::Records { path },
        None => Words::Wrong(String::new(alloc)),
    }
}

// What can be recovered of the store in a file, which the command requires.
fn recovers<'a>(alloc: Global, matches: &ArgMatches<'a>) -> Words<'a>
    ensures { told_of result ≡ told_with recovers (rows_of (found_of matches.now)) }
{
    match name_in(matches) {
        Some(path) => Words::Recover { path },
        None => Words::Wrong(String::new(alloc)),
    }
}

// Why the task of the id waits or runs, asked of the coordinator that is named.
fn whys<'a>(alloc: Global, matches: &ArgMatches<'a>) -> Words<'a>
    ensures { told_of result ≡ told_with whys (rows_of (found_of matches.now)) }
{
    match name_in(matches) {
        Some(name) => why_of(alloc, name, at_in(matches)),
        None => Words::Wrong(String::new(alloc)),
    }
}

// Why the task of the id waits or runs; if the word is no id, that it is none.
fn why_of<'a>(alloc: Global, name: &str, at: Option<u8>) -> Words<'a>
    ensures { told_of result ≡ option_map_or (λ task. run (why task at)) (read_id name.now) wrong }
{
    match TaskId::read(name) {
        Some(id) => Words::Run(Command::Why {
            task: id.value(),
            at,
        }),
        None => wrong_with(alloc, NO_ID),
    }
}

fn name_in<'a>(matches: &ArgMatches<'a>) -> Option<&'a str>
    ensures { option_map (λ s. s.now) result ≡ first_of (codes "name") (rows_of (found_of matches.now)) }
{
    matches.get_str("name")
}

/// The text of words that are no command, as the parser has it.
pub fn text_of<'a>(alloc: Global, error: &Error, words: &[String]) -> Result<Words<'a>, OutOfMemory>
    ensures told { IfOk result (λ w. told_of w ≡ told_at_error (map string_bytes words.now) (kind_of error.now)) }
    ensures memory { IfOk result (λ w. kind_of error.now ≢ ErrorKind.OutOfMemory) }
{
    if error.kind() == ErrorKind::OutOfMemory {
        return Err(OutOfMemory);
    }
    let text = error.to_string(alloc)?;
    Ok(shown(error, words, text))
}

// The text as help, or as what is wrong. Of words that begin with `help` the parser's contract does not say which: the
// words decide.
fn shown<'a>(error: &Error, words: &[String], text: String) -> Words<'a>
    ensures { told_of result ≡ told_at_error (map string_bytes words.now) (kind_of error.now) }
{
    let is_help = if begin_with_help(words) {
        ask_for_help(words)
    } else {
        !error.use_stderr()
    };
    if is_help {
        Words::Help(text)
    } else {
        Words::Wrong(text)
    }
}

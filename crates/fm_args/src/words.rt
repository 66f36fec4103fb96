//! What the words of a command line ask for.

ghost use Rattle.std.specs.Prelude.{◌≡◌, IfOk, IsOkUnless, IsTrue, Ok, false, map, string_bytes};
ghost use Rattle.fm_args.specs.CommandLine.{ask_for_refusals, telling_of};
ghost use Rattle.fm_args.specs.inner.ParserOutcomes.{IsHeard};
ghost use Rattle.fm_args.specs.Invocation.{told_of};
ghost use Rattle.fm_args.specs.declared.words.Words.TheVariants as asked;

use super::help::{ask_for_refusals, ask_for_version};
use super::matched::{named, text_of};
use super::parser::parser;
use fm_lattice::join::OutOfMemory;
use fm_records::refusal::Refusal;
use std::alloc::Global;

/// The most rounds that a fleet may be asked for.
pub const MOST_ROUNDS: i64 = 1_000;

/// After how many entries of a history coordinators that are kept running are renewed, if no number is given. An entry
/// takes about a kilobyte, so that a history takes some 100 MB. Renewing them lists the keys of all that they know, and
/// copies the records that are in no shared block, once.
pub const DEFAULT_RENEW_AFTER: u32 = 100_000;

/// The greatest number that may be given: as many entries as a history can have.
pub const MOST_RENEW_AFTER: i64 = 1_000_000;

/// How many bytes the label of a store may have.
pub const MOST_LABEL_BYTES: usize = 200;

/// What the program is asked to do.
#[derive(Debug, Clone, Copy, PartialEq, Eq, Drop)]
pub enum Command<'a> {
    /// Answer the question about a coordinator, the first that the script lists if none is named.
    Ask {
        question: ScriptQuestion,
        at: Option<u8>,
    },
    /// Say whether all coordinators know the same.
    Agree,
    /// Say what is the first fault of the script, as far as that is found without running it.
    Check,
    /// Print the bytes of the packet that was cut under the name.
    Pack {
        name: &'a str,
    },
    /// Print the records of a packet.
    Unpack,
    /// Say why the task of the id, as a number, waits or runs, by what that coordinator knows, the first that the
    /// script lists if none is named.
    Why {
        task: u128,
        at: Option<u8>,
    },
}

/// What is asked of a coordinator once a script's steps have run.
#[derive(Debug, Clone, Copy, PartialEq, Eq, Drop)]
pub enum ScriptQuestion {
    /// The network of what it knows.
    Graph,
    /// The records that it knows, a line each.
    List,
    /// A least flow of that network.
    Solve,
    /// The plan of that flow: what it places, and what it preempts.
    Plan,
    /// Who won the present attempt of each task, by what it knows.
    Winners,
}

/// What the words ask for.
#[derive(Debug, Drop)]
pub enum Words<'a> {
    Run(Command<'a>),
    /// Run the coordinators of a script of tells in threads, each with so many rounds.
    Fleet {
        rounds: u32,
    },
    /// Keep coordinators running, and renew them once one of them has so many entries in its history.
    Follow {
        renew_after: u32,
    },
    /// The same, with a store in the file at the path, under the label.
    FollowWithStore {
        renew_after: u32,
        path: &'a str,
        label: &'a str,
    },
    /// Print a line for each record of the store in the file at the path.
    Records {
        path: &'a str,
    },
    /// Print what can be recovered of that store, as packets of each coordinator.
    Recover {
        path: &'a str,
    },
    /// A text that was asked for.
    Help(String),
    /// The page of refusals was asked for.
    Refusals,
    /// The version of the program was asked for.
    Version,
    /// What is wrong with the words.
    Wrong(String),
}

/// Reads the words of a command line, the program's own name first. `telling_of` defines what any words ask for; the
/// texts of help and of wrong words are not defined. `OutOfMemory` is the only refusal, and words that ask for the page
/// of refusals are never refused.
pub fn read_words<'a>(alloc: Global, words: &'a [String]) -> Result<Words<'a>, Refusal>
    ensures heard { IfOk result (λ w. told_of w ≡ telling_of (map string_bytes words.entry.now)) }
    ensures refusals { IsTrue (ask_for_refusals (map string_bytes words.entry.now)) → result ≡ Ok asked.Refusals }
    ensures err { IsOkUnless result Refusal.OutOfMemory }
{
    if ask_for_refusals(words) {
        return Ok(Words::Refusals);
    }
    if ask_for_version(words) {
        return Ok(Words::Version);
    }
    match parsed(alloc, words) {
        Ok(words) => Ok(words),
        Err(OutOfMemory) => Err(Refusal::OutOfMemory),
    }
}

// What the parser makes of the words, except the page of refusals and the version, of which it does not know.
fn parsed<'a>(alloc: Global, words: &'a [String]) -> Result<Words<'a>, OutOfMemory>
    ensures { let all = map string_bytes words.entry.now in ask_for_refusals all ≡ false → IsHeard all result }
{
    match parser(alloc)?.try_get_matches_from(words) {
        Ok(matches) => Ok(named(alloc, &matches)),
        Err(error) => text_of(alloc, &error, words),
    }
}

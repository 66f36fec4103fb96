//! One run of the program, over its words, a source and a sink, so that it can be run and proved without a process.
//!
//! All input is read, then the answer is made, then written: all of it, or nothing, or what the sink took before it
//! failed. Only a stream is read and answered line by line.

ghost use Rattle.std.specs.Prelude.{◌≡◌, IfOk, IfErr, map, string_bytes};
ghost use Rattle.fm_args.specs.CommandLine.{telling_of};
ghost use Rattle.fm_args.specs.Invocation.{told_of};
ghost use Rattle.fm_serve.specs.Output.{IsRunServed, IsStoppedReading, IsStreamed, ReadsAll, reads, way_of};
ghost use Rattle.fm_serve.specs.inner.RunWays.{way_model};
ghost use Rattle.fm_serve.specs.OutputWritten.{IsOutputWritten};

use crate::ending::Ending;
use crate::fault::Fault;
use crate::progress::RunProgress;
use crate::respond::{RunResult, respond};
use crate::salvage::{StoreQuestion, serve_salvage};
use crate::stored_stream::{StoredStream, follow_with_store};
use fm_args::words::{Words, read_words};
use fm_io::input::read_input;
use fm_io::sending::send;
use fm_io::sink::Sink;
use fm_io::source::{LineSource, Source};
use fm_records::refusal::Refusal;
use fm_service::stream::follow_stream;
use fm_store::device::OpenDevice;
use std::alloc::Global;
use std::fs::Files;
use std::io::Eprint;
use std::sync::Wait;
use std::thread::Threads;

/// How a run goes.
#[derive(Clone, Copy, Drop)]
pub enum RunWay<'a> {
    /// An input is read, if any, and answered.
    Answer,
    /// A stream is followed, and coordinators are renewed after so many entries in a history.
    Follow(u32),
    /// The same with a store.
    FollowWithStore(StoredStream<'a>),
    /// The file of a store is read, at the path.
    Salvage(StoreQuestion, &'a str),
}

/// Runs the program on the words of its command line, its own name first: reads the input, if the words ask for one,
/// and writes what `respond` answers; or follows a stream, line by line; or reads the file of a store. Faults are found in this order: the words,
/// the input, those that `respond` finds, the sink. The output is complete before it is written: all of it is
/// written, or nothing, or what the sink accepted before it failed.
pub fn serve<T: Threads + Wait + Eprint + Files + OpenDevice + Sync, S: LineSource, W: Sink>(
    rt: &T,
    alloc: Global,
    progress: &RunProgress,
    words: &[String],
    source: &mut S,
    sink: &mut W,
) -> Ending
    ensures { IsRunServed (telling_of (map string_bytes words.now)) (source.new ≡ source.old) result (record {
      given = S.remaining source.old;
      left = S.remaining source.new;
      source_failed = S.has_failed source.new;
      old = W.written sink.old;
      new = W.written sink.new;
      had_failed = W.has_failed sink.old;
      has_failed = W.has_failed sink.new;
    }) }
{
    let words = match read_words(alloc, words) {
        Ok(words) => words,
        Err(refusal) => return Ending::Stopped(Fault::from(refusal)),
    };
    match way_of(&words) {
        RunWay::Answer => {}
        RunWay::Follow(renew_after) => {
            return follow_lines(alloc, progress, renew_after, source, sink);
        }
        RunWay::FollowWithStore(asked) => {
            return follow_with_store(rt, alloc, progress, asked, source, sink);
        }
        RunWay::Salvage(question, path) => return serve_salvage(rt, alloc, question, path, sink),
    }
    let text = match input_for(alloc, &words, source) {
        Ok(text) => text,
        Err(refusal) => return Ending::Stopped(Fault::from(refusal)),
    };
    send_out(respond(rt, alloc, progress, words, &text), sink)
}

// How a run goes that the words ask for.
fn way_of<'a>(words: &Words<'a>) -> RunWay<'a>
    ensures { way_model result ≡ way_of (told_of words.now) }
{
    match words {
        Words::Follow { renew_after } => RunWay::Follow(*renew_after),
        Words::FollowWithStore {
            renew_after,
            path,
            label,
        } => RunWay::FollowWithStore(StoredStream {
            renew_after: *renew_after,
            path,
            label,
        }),
        Words::Records { path } => RunWay::Salvage(StoreQuestion::Records, path),
        Words::Recover { path } => RunWay::Salvage(StoreQuestion::Recover, path),
        Words::Run(_)
        | Words::Fleet { .. }
        | Words::Help(_)
        | Words::Refusals
        | Words::Version
        | Words::Wrong(_) => RunWay::Answer,
    }
}

// Follows the stream of the source's lines to its end.
fn follow_lines<S: Source, W: Sink>(
    alloc: Global,
    progress: &RunProgress,
    renew_after: u32,
    source: &mut S,
    sink: &mut W,
) -> Ending
    ensures { IsStreamed renew_after result (record {
      given = S.remaining source.old;
      left = S.remaining source.new;
      source_failed = S.has_failed source.new;
      old = W.written sink.old;
      new = W.written sink.new;
      had_failed = W.has_failed sink.old;
      has_failed = W.has_failed sink.new;
    }) }
{
    progress.hide();
    match follow_stream(alloc, renew_after as usize, source, sink) {
        Ok(()) => Ending::Done,
        Err(refusal) => Ending::Stopped(Fault::from(refusal)),
    }
}

// The input that the words ask for. If they ask for none, nothing is read.
fn input_for<S: Source>(alloc: Global, words: &Words, source: &mut S) -> Result<Vec<u8>, Refusal>
    ensures ok { IfOk result (λ text.
        ReadsAll (reads (told_of words.now)) (source.new ≡ source.old) (S.remaining source.old) text.items) }
    ensures err { IfErr result (λ refusal. IsStoppedReading (told_of words.now) refusal
        (S.remaining source.old) (S.remaining source.new) (S.has_failed source.new)) }
{
    match words {
        Words::Run(_) | Words::Fleet { .. } => read_input(alloc, source),
        Words::Follow { .. }
        | Words::FollowWithStore { .. }
        | Words::Records { .. }
        | Words::Recover { .. }
        | Words::Help(_)
        | Words::Refusals
        | Words::Version
        | Words::Wrong(_) => Ok(Vec::new(alloc)),
    }
}

// Writes the complete output, and returns how the run ends.
pub(crate) fn send_out<W: Sink>(answered: RunResult, sink: &mut W) -> Ending
    ensures { IsOutputWritten answered.ending answered.output.items result
        (W.written sink.old) (W.written sink.new) (W.has_failed sink.old) (W.has_failed sink.new) }
{
    let RunResult { ending, output } = answered;
    if output.is_empty() {
        return ending;
    }
    match send(sink, &output) {
        Ok(()) => ending,
        Err(refusal) => Ending::Stopped(Fault::from(refusal)),
    }
}

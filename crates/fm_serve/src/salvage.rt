//! What the program answers about the file of a store, which is no input: its records, or what can be recovered of it.

ghost use Rattle.std.specs.Prelude.{◌≡◌, ℕ, List, [], Result, Ok};
ghost use Rattle.fm_store.specs.declared.store_fault.StoreFault.{StoreFault as StoreFaultValue};
ghost use Rattle.fm_serve.specs.declared.ending.Ending.TheVariants.{Unusable};
ghost use Rattle.fm_serve.specs.Salvages.{IsSalvaged, Salvages, ending_salvaged};

use crate::ending::Ending;
use crate::fault::Fault;
use crate::respond::RunResult;
use crate::serve::send_out;
use fm_io::sink::Sink;
use fm_records::refusal::Refusal;
use fm_salvage::file::read_file;
use fm_salvage::listing::list_records;
use fm_salvage::recovering::recover_packets;
use fm_salvage::salvaged::Salvaged;
use fm_store::store_fault::StoreFault;
use std::alloc::Global;
use std::fs::Files;

/// What is asked of the file of a store.
#[derive(Debug, Clone, Copy, PartialEq, Eq, Drop)]
pub enum StoreQuestion {
    Records,
    Recover,
}

// Reads the file at the path, and writes what is asked about it. If it is damaged, what stands before that is written.
pub(crate) fn serve_salvage<F: Files, W: Sink>(
    files: &F,
    alloc: Global,
    question: StoreQuestion,
    path: &str,
    sink: &mut W,
) -> Ending
    ensures { IsSalvaged question result (W.written sink.old) (W.written sink.new)
        (W.has_failed sink.old) (W.has_failed sink.new) }
{
    send_out(read_and_answer(files, alloc, question, path), sink)
}

// The answer about the file at the path, or why it could not be read.
fn read_and_answer<F: Files>(
    files: &F,
    alloc: Global,
    question: StoreQuestion,
    path: &str,
) -> RunResult
    ensures { (read : Result (List ℕ) StoreFaultValue) × Salvages question read result.ending result.output.items }
{
    match read_file(files, alloc, path) {
        Ok(bytes) => answer_store(alloc, question, &bytes),
        Err(fault) => answer_unread(alloc, fault),
    }
}

// The answer about a file that could not be read.
fn answer_unread(alloc: Global, fault: StoreFault) -> RunResult
    ensures ending { result.ending ≡ Unusable fault }
    ensures nothing { result.output.items ≡ [] }
{
    RunResult {
        ending: Ending::Unusable(fault),
        output: Vec::new(alloc),
    }
}

// The answer about a file of these bytes.
fn answer_store(alloc: Global, question: StoreQuestion, bytes: &[u8]) -> RunResult
    ensures { Salvages question (Ok bytes.now) result.ending result.output.items }
{
    let salvaged = match question {
        StoreQuestion::Records => list_records(alloc, bytes),
        StoreQuestion::Recover => recover_packets(alloc, bytes),
    };
    match salvaged {
        Ok(Salvaged { text, damage }) => RunResult {
            ending: ending_of(damage),
            output: text,
        },
        Err(_) => RunResult::stopped(alloc, Fault::from(Refusal::OutOfMemory)),
    }
}

// How a run ends, by the place of the damage.
fn ending_of(damage: Option<usize>) -> Ending
    ensures { result ≡ ending_salvaged damage }
{
    match damage {
        Some(place) => Ending::Unusable(StoreFault::Damaged(place)),
        None => Ending::Done,
    }
}

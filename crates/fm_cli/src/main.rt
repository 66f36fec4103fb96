//! The program `firmament`: a process around one run of `fm_serve`.
#![tactic(auto)]

use fm_dimacs::out::Over;
use fm_io::interrupts::Resuming;
use fm_io::read_ahead::ReadAhead;
use fm_io::waiting::Waiting;
use fm_records::refusal::Refusal;
use fm_serve::ending::Ending;
use fm_serve::fault::Fault;
use fm_serve::progress::RunProgress;
use fm_serve::progress_line::serve_watched;
use fm_serve::serve::serve;
use std::alloc::Global;
use std::fs::{File, OpenOptions};
use std::io::{BufReader, IsTerminal};
use std::os::fd::{AsRawFd, IntoRawFd};
use std::process::ExitCode;
use std::{env, io};

// How many bytes are read at a time: lines that are there already may be answered together.
const READ_AHEAD: usize = 1_048_576;

fn main(rt: HostRuntime) -> ExitCode {
    occupy_closed_streams(&rt);
    let alloc = rt.alloc();
    let ending = match (
        given_words(&rt),
        BufReader::with_capacity(alloc, READ_AHEAD, Waiting::new(&rt, rt.reader())),
    ) {
        (Ok(words), Ok(reader)) => {
            let source = ReadAhead::new(reader);
            let sink = Over::new(Resuming::new(Waiting::new(&rt, io::writer(&rt))));
            if rt.stderr().is_terminal() {
                serve_watched(&rt, alloc, &words, source, sink).0
            } else {
                let (mut source, mut sink) = (source, sink);
                serve(
                    &rt,
                    alloc,
                    &RunProgress::new(),
                    &words,
                    &mut source,
                    &mut sink,
                )
            }
        }
        (Ok(_), Err(_)) => Ending::Stopped(Fault::from(Refusal::OutOfMemory)),
        (Err(ending), _) => ending,
    };
    let status = ending.status();
    let _ = eprint!(rt; "{ending}");
    ExitCode::from(status)
}

// Opens a file in the place of standard input, output or error if that is closed. Else the file of a store would get its number, and answers
// would be written into it. As with a closed stream, what is read or written there fails.
fn occupy_closed_streams(rt: &HostRuntime) {
    for _ in 0..3 {
        // the system gives the lowest number that is free
        match lowest_free(rt) {
            0 => keep_open(OpenOptions::new().write(true).open(rt, "/dev/null")),
            1 | 2 => keep_open(File::open(rt, "/dev/null")),
            _ => return,
        }
    }
}

// The number that the next file gets; -1 if no file can be opened.
fn lowest_free(rt: &HostRuntime) -> i32 {
    match File::open(rt, "/dev/null") {
        Ok(file) => file.as_raw_fd(),
        Err(_) => -1,
    }
}

// Leaves the file open until the process ends.
fn keep_open(file: io::Result<File>) {
    if let Ok(file) = file {
        let _ = file.into_raw_fd();
    }
}

// The words of the command line. Those that are no text are wrong.
fn given_words(rt: &HostRuntime) -> Result<Vec<String>, Ending> {
    match env::args(rt) {
        Ok(words) => match words.collect(rt.alloc()) {
            Ok(words) => Ok(words),
            Err(_) => Err(Ending::Stopped(Fault::from(Refusal::OutOfMemory))),
        },
        Err(error) => Err(no_words(rt.alloc(), error.kind())),
    }
}

// How a run ends whose words cannot be read: one is no UTF-8, or memory runs out.
fn no_words(alloc: Global, kind: io::ErrorKind) -> Ending {
    if kind == io::ErrorKind::InvalidData {
        let text =
            "error: a word of the command line is not UTF-8\n\nFor more information, try '--help'.\n";
        if let Ok(text) = String::from_str(alloc, text) {
            return Ending::Wrong(text);
        }
    }
    Ending::Stopped(Fault::from(Refusal::OutOfMemory))
}

//! The line of progress, which shows on a terminal how far a run is, and is gone before anything is written.
//!
//! A long run writes nothing until its end. So a thread writes a line every 100 ms: that of a fleet from its first on,
//! that of a script once it has run for a second. The sink takes the line away before the first byte of output, so the
//! two never mix. No answer depends on it, and without a thread there is no line.

ghost use Rattle.std.specs.Prelude.{◌≡◌, map, string_bytes};
ghost use Rattle.fm_args.specs.CommandLine.{telling_of};
ghost use Rattle.fm_serve.specs.Output.{IsRunServed};

use crate::ending::Ending;
use crate::progress::RunProgress;
use crate::serve::serve;
use fm_dimacs::out::Out;
use fm_io::sink::Sink;
use fm_io::source::LineSource;
use fm_store::device::OpenDevice;
use std::alloc::Global;
use std::fs::Files;
use std::io::Eprint;
use std::sync::{Condvar, CondvarTimeouts, Mutex, Wait};
use std::thread;
use std::thread::Threads;
use std::time::{Clock, Duration};

/// How often the line is written again, in milliseconds.
const TICK: u64 = 100;

/// At which tick the line of a script comes: once it ran for a second. That of a fleet comes at the first.
const FIRST: u32 = 10;

/// Whether a run is over, and whether its line is on the terminal.
#[derive(Drop)]
struct Shown {
    is_over: bool,
    stands: bool,
}

/// The line of a run, which its watcher writes and its writer takes away.
#[derive(Drop)]
struct Line<'a> {
    progress: &'a RunProgress,
    shown: Mutex<Shown>,
    over: Condvar,
}

/// Serves while a thread shows on standard error how far the run is, and returns the source and the sink. What is
/// read and written is as for `serve`. If no thread can be started, there is no line.
pub fn serve_watched<
    T: Threads + Wait + Clock + Eprint + Files + OpenDevice + Sync,
    S: LineSource + Drop,
    W: Sink + Drop,
>(rt: &T, alloc: Global, words: &[String], source: S, sink: W) -> (Ending, S, W)
    ensures { IsRunServed (telling_of (map string_bytes words.now)) (result.1 ≡ source) result.0 (record {
      given = S.remaining source;
      left = S.remaining result.1;
      source_failed = S.has_failed result.1;
      old = W.written sink;
      new = W.written result.2;
      had_failed = W.has_failed sink;
      has_failed = W.has_failed result.2;
    }) }
{
    let progress = RunProgress::new();
    let line = Line::new(&progress);
    let line = &line;
    thread::scope(
        thread::scope_env(),
        rt,
        move |scope| -> (Ending, S, W)
            ensures { IsRunServed (telling_of (map string_bytes words.entry.now)) (result.1 ≡ source) result.0 (record {
              given = S.remaining source;
              left = S.remaining result.1;
              source_failed = S.has_failed result.1;
              old = W.written sink;
              new = W.written result.2;
              had_failed = W.has_failed sink;
              has_failed = W.has_failed result.2;
            }) }
        {
            let _ = scope.spawn(move || line.tell(rt));
            let mut source = source;
            let (ending, sink) = serve_beside(rt, alloc, line, words, &mut source, sink);
            (ending, source, sink)
        },
    )
}

// Serves, and takes the line away before anything is written, and at the end. Gives the sink back.
fn serve_beside<
    T: Threads + Wait + Eprint + Files + OpenDevice + Sync,
    S: LineSource,
    W: Sink + Drop,
>(rt: &T, alloc: Global, line: &Line, words: &[String], source: &mut S, sink: W) -> (Ending, W)
    ensures { IsRunServed (telling_of (map string_bytes words.now)) (source.new ≡ source.old) result.0 (record {
      given = S.remaining source.old;
      left = S.remaining source.new;
      source_failed = S.has_failed source.new;
      old = W.written sink;
      new = W.written result.1;
      had_failed = W.has_failed sink;
      has_failed = W.has_failed result.1;
    }) }
{
    let mut clearing = Clearing { rt, line, sink };
    let ending = serve(rt, alloc, line.progress, words, source, &mut clearing);
    line.end(rt);
    (ending, clearing.sink)
}

impl<'a> Line<'a> {
    // The line of a run that begins.
    fn new(progress: &'a RunProgress) -> Line<'a> {
        Line {
            progress,
            shown: Mutex::new(Shown {
                is_over: false,
                stands: false,
            }),
            over: Condvar::new(),
        }
    }

    // Writes the line at each tick until the run is over.
    fn tell<R: Wait + Clock + Eprint>(&self, rt: &R) {
        let mut shown = self.shown.lock(rt);
        let tick = Duration::from_millis(TICK);
        let mut ticks = 0;
        for _ in rt.forever() {
            if shown.is_over {
                return;
            }
            if self.is_due(ticks) {
                shown.write(rt, self.progress);
            }
            shown = self.over.wait_timeout(rt, shown, tick).0;
            ticks = ticks.saturating_add(1);
        }
    }

    // Whether the line is written after so many ticks.
    fn is_due(&self, ticks: u32) -> bool {
        let first = if self.progress.is_fleet() { 1 } else { FIRST };
        !self.progress.is_hidden() && ticks >= first
    }

    // Takes the line away, and has no other come. A fleet that ended before its first line shows it for a moment.
    fn end<R: Wait + Eprint>(&self, rt: &R) {
        let mut shown = self.shown.lock(rt);
        if shown.is_over {
            return;
        }
        if self.progress.is_fleet() {
            shown.write(rt, self.progress);
        }
        shown.clear(rt);
        self.over.notify_all();
    }
}

impl Shown {
    // Writes the line over the present one. A terminal that fails changes nothing.
    fn write<R: Eprint>(&mut self, rt: &R, progress: &RunProgress) {
        let _ = eprint!(rt; "\r{progress}\x1b[K");
        self.stands = true;
    }

    // Erases the present line.
    fn clear<R: Eprint>(&mut self, rt: &R) {
        if self.stands {
            let _ = eprint!(rt; "\r\x1b[K");
        }
        self.is_over = true;
        self.stands = false;
    }
}

/// A sink that has the line taken away before anything is written.
#[derive(Drop)]
struct Clearing<'a, R, W> {
    rt: &'a R,
    line: &'a Line<'a>,
    sink: W,
}

impl<R: Wait + Eprint, W: Sink> Out for Clearing<'_, R, W> {
    ghost written = { λ c. W.written c.sink };

    ghost has_failed = { λ c. W.has_failed c.sink };

    fn put(&mut self, piece: &[u8]) -> usize {
        self.line.end(self.rt);
        self.sink.put(piece)
    }

    fn failed(&self) -> bool {
        self.sink.failed()
    }
}

impl<R: Wait + Eprint, W: Sink> Sink for Clearing<'_, R, W> {
    fn flush(&mut self) -> bool {
        self.line.end(self.rt);
        self.sink.flush()
    }
}

//! A stream whose answers wait for a store.

ghost use Rattle.std.specs.Prelude.{◌≡◌};
ghost use Rattle.fm_serve.specs.StoredStreams.{IsStoredStream, ending_durable};

use crate::ending::Ending;
use crate::fault::Fault;
use crate::progress::RunProgress;
use crate::telling_device::TellingDevice;
use fm_durable::durable_stream::{DurableFault, follow_durable};
use fm_io::sink::Sink;
use fm_io::source::LineSource;
use fm_store::device::{Device, OpenDevice};
use fm_store::store_fault::StoreFault;
use std::alloc::Global;
use std::io::Eprint;

/// A stream that is asked for with a store: after how many entries in a history the coordinators are renewed, the path of the store's file,
/// and its label.
#[derive(Debug, Clone, Copy, PartialEq, Eq, Drop)]
pub struct StoredStream<'a> {
    pub renew_after: u32,
    pub path: &'a str,
    pub label: &'a str,
}

// Follows the stream of the source's lines to its end, with the store. Where a torn end of that is cut off is said on standard error.
pub(crate) fn follow_with_store<T: OpenDevice + Eprint, S: LineSource, W: Sink>(
    rt: &T,
    alloc: Global,
    progress: &RunProgress,
    asked: StoredStream<'_>,
    source: &mut S,
    sink: &mut W,
) -> Ending
    ensures { IsStoredStream asked.entry.renew_after asked.entry.label.now (source.new ≡ source.old) result (record {
      given = S.remaining source.old;
      left = S.remaining source.new;
      source_failed = S.has_failed source.new;
      old = W.written sink.old;
      new = W.written sink.new;
      had_failed = W.has_failed sink.old;
      has_failed = W.has_failed sink.new;
    }) }
{
    let Ok(label) = String::from_str(alloc, asked.label) else {
        return Ending::Unusable(StoreFault::OutOfMemory);
    };
    let device = match rt.open_device(asked.path) {
        Ok(device) => device,
        Err(fault) => return Ending::Unusable(StoreFault::Device(fault)),
    };
    progress.hide();
    let (mut device, followed) = follow_durable(
        alloc,
        asked.renew_after as usize,
        label,
        TellingDevice::new(rt, device),
        source,
        sink,
    );
    device.close();
    ending_of(followed)
}

// How a run ends that followed a stream so.
fn ending_of(followed: Result<(), DurableFault>) -> Ending
    ensures { result ≡ ending_durable followed }
{
    match followed {
        Ok(()) => Ending::Done,
        Err(DurableFault::Refused(refusal)) => Ending::Stopped(Fault::from(refusal)),
        Err(DurableFault::Store(fault)) => Ending::Unusable(fault),
    }
}

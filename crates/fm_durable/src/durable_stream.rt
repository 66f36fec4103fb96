//! Following a stream whose answers wait for a store.

ghost use Rattle.std.specs.Prelude.{List, string_bytes};
ghost use Rattle.fm_records.specs.declared.ops.Op.{Op};
ghost use Rattle.fm_delta.specs.declared.packet.Packet.{Packet};
ghost use Rattle.fm_service.specs.StreamSteps.{StandBehind};
ghost use Rattle.fm_durable.specs.DurableServices.{model_of};
ghost use Rattle.fm_durable.specs.DurableStreams.{EndsAs, IsFollowedDurably};

use crate::durable_service::DurableService;
use fm_io::group_commit::{StreamFault, follow_in_groups};
use fm_io::sink::Sink;
use fm_io::source::LineSource;
use fm_records::refusal::Refusal;
use fm_service::laws::law_stored;
use fm_store::device::Device;
use fm_store::store_fault::StoreFault;
use std::alloc::Global;

/// Why a stream was followed no further.
#[derive(Debug, Clone, Copy, PartialEq, Eq, Drop)]
pub enum DurableFault {
    /// The source failed (BadScript(0)), or the sink did (WriteFault).
    Refused(Refusal),
    /// The store cannot be used, or could not be added to.
    Store(StoreFault),
}

/// Answers the lines of a stream in groups, from the line that lists the coordinators to the stream's end. A group is as
/// `follow_in_groups` says, a line as `follow_stream` says. What a group changed is in the store on the device, on the disk,
/// before its answers go out; so by the store each coordinator would know again what it knows. The store is opened once the
/// coordinators are listed, and these begin with what it has. Its head has this label, and the coordinators as they were
/// listed. A store that has grown enough is compacted: one packet of all that each coordinator knows takes the place of all.
/// The device is returned: however following ended, what each listed coordinator would have known by it before, it would
/// know by it. Refused with BadScript(0) if the source fails, with WriteFault if the sink does, and Store if the store cannot
/// be used or added to: then no answer of that group goes out. After each of these no further line is read.
pub fn follow_durable<D: Device, S: LineSource, W: Sink>(
    alloc: Global,
    renew_after: usize,
    label: String,
    device: D,
    source: &mut S,
    sink: &mut W,
) -> (D, Result<(), DurableFault>)
    ensures { (behind : Packet → List Op) → StandBehind behind
        → IsFollowedDurably renew_after behind (string_bytes label) result.1 (model_of D.content D.synced D.sound device)
        (model_of D.content D.synced D.sound result.0) (record {
          given = S.remaining source.old;
          left = S.remaining source.new;
          source_failed = S.has_failed source.new;
          old = W.written sink.old;
          new = W.written sink.new;
          had_failed = W.has_failed sink.old;
          has_failed = W.has_failed sink.new;
        }) }
{
    law_stored();
    let mut service = DurableService::new(alloc, renew_after, label, device);
    let followed = follow_in_groups(alloc, &mut service, source, sink);
    let DurableService { device, fault, .. } = service;
    (device, ended(followed, fault))
}

// How following ended, with why the store could not be used if it was that.
fn ended(followed: Result<(), StreamFault>, fault: Option<StoreFault>) -> Result<(), DurableFault>
    ensures { EndsAs followed result }
{
    match followed {
        Ok(()) => Ok(()),
        Err(StreamFault::Source) => Err(DurableFault::Refused(Refusal::BadScript(0))),
        Err(StreamFault::Sink) => Err(DurableFault::Refused(Refusal::WriteFault)),
        Err(StreamFault::Commit) => match fault {
            Some(fault) => Err(DurableFault::Store(fault)),
            None => Err(DurableFault::Store(StoreFault::OutOfMemory)),
        },
    }
}

//! Acts at one coordinator: an act as the coordinator's call, with the packet of a cut added to those of the world.
//!
//! Memory for one more packet is reserved before a cut, so that a packet that a coordinator has counted cannot get
//! lost. If there is none, the call is still refused for what is wrong with it first.

ghost use Rattle.std.specs.Prelude.{◌≡◌, List, Some, IfOk, IfErr, OnErr, OnOk, map, vec_len, vec_capacity};
ghost use Rattle.fm_records.specs.Options.{or_else};
ghost use Rattle.fm_coord.specs.Events.{Sent, Replica};
ghost use Rattle.fm_coord.specs.Causes.{refusal_for};
ghost use Rattle.fm_coord.specs.Replays.{seen_packet};
ghost use Rattle.fm_coord.specs.States.{bounds, cut_packet, Represents};
ghost use Rattle.fm_world.specs.declared.step.Act.TheVariants as act;
ghost use Rattle.fm_world.specs.Worlds.{event_asked, cause_here};
ghost use Rattle.fm_world.specs.Represents.{view_shown};
ghost use Rattle.fm_world.specs.inner.ActedWorld.{IsActed};
ghost use Rattle.fm_world.specs.inner.Calls.{call_asked, HasRoomFor, IsSpelled, refusal_asked};

use crate::step::Act;
use fm_coord::coordinator::Coordinator;
use fm_coord::entry::{Call, Range};
use fm_coord::output::CallOutput;
use fm_coord::shared::Shared;
use fm_coord::view::View;
use fm_delta::packet::Packet;
use fm_know::laws::law_spelled;
use fm_policy::keeper::NetKeeper;
use fm_records::refusal::Refusal;

// An act at the coordinator, or nothing.
pub(crate) fn act_at<N: NetKeeper>(
    coordinator: &mut Coordinator<N>,
    packets: &mut Vec<Shared<Packet>>,
    by: u32,
    act: &Act,
) -> Result<Option<View>, Refusal>
    ensures acted { (r : Replica) (sent : List Sent) → Represents coordinator.old.state r
        → packets.old.items ≡ map seen_packet sent
        → OnOk result (IsActed coordinator.new.state packets.new.items r sent by act.now) }
    ensures view { IfOk result (λ view. view ≡ view_shown (Some coordinator.old.state) act.now) }
    ensures err { (r : Replica) (sent : List Sent) → Represents coordinator.old.state r
        → packets.old.items ≡ map seen_packet sent → IfErr result
        (λ refusal. refusal ≡ or_else Refusal.OutOfMemory (cause_here r (event_asked sent act.now))) }
    ensures same_state { OnErr result (coordinator.new.state ≡ coordinator.old.state) }
    ensures same_packets { OnErr result (packets.new.items ≡ packets.old.items) }
{
    let asked = call_for(coordinator, packets, act)?;
    let answer = coordinator.call(by, asked)?;
    match answer {
        CallOutput::Packet(packet) => {
            packets.push(packet).unwrap();
            Ok(None)
        }
        CallOutput::View(view) => Ok(Some(view)),
        CallOutput::Done => Ok(None),
        CallOutput::Admitted(_) => Ok(None),
    }
}

// Gives the packet that the coordinator would cut of the range now: it counts as cut, and is added to those of the world.
pub(crate) fn give_at<N: NetKeeper>(
    coordinator: &mut Coordinator<N>,
    packets: &mut Vec<Shared<Packet>>,
    by: u32,
    range: Range,
    made: Shared<Packet>,
) -> Result<(), Refusal>
    requires { made ≡ cut_packet coordinator.old.state range }
    ensures acted { (r : Replica) (sent : List Sent) → Represents coordinator.old.state r
        → packets.old.items ≡ map seen_packet sent
        → OnOk result (IsActed coordinator.new.state packets.new.items r sent by (act.Cut range)) }
    ensures err { IfErr result (λ refusal. refusal ≡ refusal_for (bounds coordinator.old.state) (Call.Cut range)) }
    ensures same_state { OnErr result (coordinator.new.state ≡ coordinator.old.state) }
    ensures same_packets { OnErr result (packets.new.items ≡ packets.old.items) }
{
    let Ok(()) = packets.reserve(1) else {
        coordinator.check_cut(range)?;
        return Err(Refusal::OutOfMemory);
    };
    coordinator.give(by, range, &made)?;
    packets.push(made).unwrap();
    Ok(())
}

// The call of the act: a delivery looks its packet up. For a cut there is room for one more packet then.
// NoPacket, or as the coordinator would refuse the call; then the packets are unchanged.
fn call_for<N: NetKeeper>(
    coordinator: &Coordinator<N>,
    packets: &mut Vec<Shared<Packet>>,
    act: &Act,
) -> Result<Call, Refusal>
    ensures ok { IfOk result (λ call. call_asked packets.old.items act.now ≡ Some call) }
    ensures room { IfOk result (λ call. HasRoomFor call (vec_len packets.new) (vec_capacity packets.new)) }
    ensures err { IfErr result (λ refusal. refusal
        ≡ refusal_asked (bounds coordinator.now.state) (call_asked packets.old.items act.now)) }
    ensures spelled { IsSpelled act.now }
    ensures same { packets.new.items ≡ packets.old.items }
{
    match act {
        Act::Tell(op) => Ok(Call::Tell(*op)),
        Act::Cut(range) => {
            if packets.reserve(1).is_err() {
                coordinator.check_range(*range)?;
                coordinator.check_room()?;
                return Err(Refusal::OutOfMemory);
            }
            Ok(Call::Cut(*range))
        }
        Act::Deliver(i) => match packets.get(*i) {
            None => Err(Refusal::NoPacket),
            Some(packet) => merge_of(coordinator, packet.get()),
        },
        Act::Trim(n) => Ok(Call::Trim(*n)),
        Act::View => Ok(Call::View),
        Act::Commit(plan) => match plan.copy() {
            Ok(plan) => Ok(Call::Commit(plan)),
            Err(_) => {
                coordinator.check_room()?;
                Err(Refusal::OutOfMemory)
            }
        },
        Act::Take(packet) => {
            law_spelled(&packet.value);
            merge_of(coordinator, packet)
        }
    }
}

// The merge of the packet, whose records are shared if they were.
fn merge_of<N: NetKeeper>(coordinator: &Coordinator<N>, packet: &Packet) -> Result<Call, Refusal>
    ensures ok { IfOk result (λ call. call ≡ Call.Merge packet.now) }
    ensures err { IfErr result (λ refusal. refusal
        ≡ refusal_for (bounds coordinator.now.state) (Call.Merge packet.now)) }
{
    match packet.copy() {
        Ok(copy) => Ok(Call::Merge(copy)),
        Err(_) => {
            coordinator.check_room()?;
            Err(Refusal::OutOfMemory)
        }
    }
}

//! Coordinators that exchange all that they know: anti-entropy (Demers et al., 1987), one round with complete states.
//!
//! Each cuts all that it knows before any of them merges, so that afterwards all know the same, whatever they knew
//! before.
ghost use Rattle.std.specs.Prelude.{◌≡◌, ◌++◌, map, IfErr, OnErr, OnOk};
ghost use Rattle.fm_gossip.specs.Exchanges.{whole_packet, cut_off, merged_in, of_others, told_by_others, after_exchange, StopsExchange, AreLeftCutting, IsLeftMerging, AreLeftMerging, AreLeft};

use fm_coord::coordinator::Coordinator;
use fm_coord::entry::Range;
use fm_coord::shared::Shared;
use fm_delta::packet::Packet;
use fm_policy::keeper::NetKeeper;
use fm_records::refusal::Refusal;
use std::alloc::Global;

/// Each coordinator cuts all that it knows, and then merges the packet of each of the others, in order.
/// HistoryFull, OutOfMemory; then the first of them cut and the others are as they were. Or all cut, the first merged
/// all packets of the others, the next one those up to a refused one, and the others none.
pub fn exchange<N: NetKeeper>(
    alloc: Global,
    coordinators: &mut [Coordinator<N>],
) -> Result<(), Refusal>
    ensures ok { OnOk result (map (λ c. c.state) coordinators.new
        ≡ after_exchange (map (λ c. c.state) coordinators.old)) }
    ensures left { OnErr result (AreLeft (map (λ c. c.state) coordinators.old) (map (λ c. c.state) coordinators.new)) }
    ensures err { IfErr result StopsExchange }
{
    let mut packets = Vec::new(alloc);
    cut_all(coordinators, &mut packets)?;
    tell_all(coordinators, packets.as_slice())
}

// Each cuts all that it knows. The packets are added to the list.
#[tactic(auto, using(crate::proofs::Causes::cut_stops))]
fn cut_all<N: NetKeeper>(
    coordinators: &mut [Coordinator<N>],
    packets: &mut Vec<Shared<Packet>>,
) -> Result<(), Refusal>
    ensures cut { OnOk result (map (λ c. c.state) coordinators.new
        ≡ map cut_off (map (λ c. c.state) coordinators.old)) }
    ensures packets { OnOk result (packets.new.items
        ≡ packets.old.items ++ map whole_packet (map (λ c. c.state) coordinators.old)) }
    ensures left { OnErr result
        (AreLeftCutting (map (λ c. c.state) coordinators.old) (map (λ c. c.state) coordinators.new)) }
    ensures err { IfErr result StopsExchange }
{
    let Some((first, rest)) = coordinators.split_first_mut() else {
        return Ok(());
    };
    packets.push(first.cut(0, Range::Full)?)?;
    cut_all(rest, packets)
}

// Each merges the packets of the others.
fn tell_all<N: NetKeeper>(
    coordinators: &mut [Coordinator<N>],
    packets: &[Shared<Packet>],
) -> Result<(), Refusal>
    ensures told { OnOk result (map (λ c. c.state) coordinators.new
        ≡ map (told_by_others packets.now) (map (λ c. c.state) coordinators.old)) }
    ensures left { OnErr result (AreLeftMerging packets.now
        (map (λ c. c.state) coordinators.old) (map (λ c. c.state) coordinators.new)) }
    ensures err { IfErr result StopsExchange }
{
    let Some((first, rest)) = coordinators.split_first_mut() else {
        return Ok(());
    };
    merge_others(first, packets)?;
    tell_all(rest, packets)
}

// Merges the packets that others sent, in order.
#[tactic(auto, using(crate::proofs::Causes::merge_stops))]
fn merge_others<N: NetKeeper>(
    coordinator: &mut Coordinator<N>,
    packets: &[Shared<Packet>],
) -> Result<(), Refusal>
    ensures merged { OnOk result (coordinator.new.state ≡ told_by_others packets.now coordinator.old.state) }
    ensures left { OnErr result (IsLeftMerging packets.now coordinator.old.state coordinator.new.state) }
    ensures err { IfErr result StopsExchange }
{
    let own = coordinator.number().value();
    let mut rest = packets;
    while let Some((packet, further)) = rest.split_first() {
        let packet = packet.get();
        if packet.sender.value() != own {
            coordinator.merge(0, packet.copy()?)?;
        }
        rest = further;
    }
    Ok(())
}

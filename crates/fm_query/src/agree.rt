//! Whether coordinators know the same: each is compared with the first, which is enough.

ghost use Rattle.std.specs.Prelude.{◌≡◌, List, map, string_bytes, IfOk, IsOkUnless};
ghost use Rattle.fm_coord.specs.Events.{Replica};
ghost use Rattle.fm_world.specs.Represents.{AllStand, WorldRepresents, state_of};
ghost use Rattle.fm_world.specs.Worlds.{WorldOfSets};
ghost use Rattle.fm_query.specs.QueryTexts.{difference, first_other, agreement_text};

use fm_coord::coordinator::Coordinator;
use fm_know::knowledge::Knowledge;
use fm_policy::keeper::NetKeeper;
use fm_records::ids::CoordId;
use fm_records::refusal::Refusal;
use fm_world::world::World;
use std::alloc::Global;

/// Two coordinators that do not know the same: the first of all, and the first that knows something else.
#[derive(Debug, Clone, Copy, PartialEq, Eq, Drop)]
pub struct Disagreement {
    pub first: CoordId,
    pub other: CoordId,
}

/// The first coordinator of the world, and the first that knows something else, if one does. It compares what each
/// knows with what the first knows.
pub fn difference<N: NetKeeper>(world: &World<N>) -> Option<Disagreement>
    ensures { (w : WorldOfSets) → WorldRepresents world.now w → result ≡ difference w.replicas }
{
    let (first, others) = world.coordinators().split_first()?;
    let other = first_other(first.knowledge(), others)?;
    Some(Disagreement {
        first: first.number(),
        other,
    })
}

// The number of the first coordinator that knows something else.
fn first_other<N: NetKeeper>(knowledge: &Knowledge, others: &[Coordinator<N>]) -> Option<CoordId>
    ensures { (rs : List Replica) → AllStand (map state_of others.now) rs → result ≡ first_other knowledge.now rs }
{
    match others.split_first() {
        None => None,
        Some((next, rest)) => {
            if knowledge == next.knowledge() {
                first_other(knowledge, rest)
            } else {
                Some(next.number())
            }
        }
    }
}

/// `same`, or `differ A B` of two that do not know the same, as a line. Refused only if memory runs out.
pub fn agreement_text(alloc: Global, difference: Option<Disagreement>) -> Result<String, Refusal>
    ensures ok { IfOk result (λ line. string_bytes line ≡ agreement_text difference) }
    ensures err { IsOkUnless result Refusal.OutOfMemory }
{
    match difference {
        None => Ok(String::from_str(alloc, "same\n")?),
        Some(two) => {
            let first = two.first.value();
            let other = two.other.value();
            Ok(format!(in alloc; "differ {first} {other}\n")?)
        }
    }
}

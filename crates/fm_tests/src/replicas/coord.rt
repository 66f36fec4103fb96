//! The calls of one coordinator, and how often its keeper builds.

ghost use Rattle.std.specs.Prelude.{◌≡◌, Some, is_some, IsTrue};
ghost use Rattle.fm_net.specs.Network.{net_of};

use crate::coordinators::{building, coordinator_id, dump_of, placing, three_told};
use crate::samples::{JOB, PROGRESS, PROPOSAL, TASK};
use fm_coord::coordinator::Coordinator;
use fm_coord::entry::Range;
use fm_coord::shared::Shared;
use fm_coord::view::View;
use fm_delta::packet::Packet;
use fm_dimacs::out::Over;
use fm_know::knowledge::Knowledge;
use fm_lattice::join::OutOfMemory;
use fm_net::network::Network;
use fm_policy::changed::Changed;
use fm_policy::keeper::NetKeeper;
use fm_policy::rebuilder::Rebuilder;
use fm_records::ids::{MachineId, TaskId};
use fm_records::ops::Op;
use fm_records::refusal::Refusal;
use fm_round::plan::{Admitted, Answer, Place, Plan};
use std::alloc::Global;

// The functions below have no contract: the tests are of what is answered, and proofs of them stay short. Each may be
// refused at few places, and holds few values there: a proof considers what is dropped at each.

type Node = Coordinator<Rebuilder>;

fn tell(node: &mut Node, op: Op) -> Result<(), Refusal> {
    node.tell(0, op)
}

fn cut(node: &mut Node, range: Range) -> Result<Shared<Packet>, Refusal> {
    node.cut(0, range)
}

// What a coordinator is asked for.
#[derive(Clone, Copy, Drop)]
enum Asked {
    View,
    Cut(u64, u64),
    Trim(u64),
}

fn ask(node: &mut Node, asked: Asked) -> Result<(), Refusal> {
    match asked {
        Asked::View => see(node),
        Asked::Cut(from, to) => cut_off(node, from, to),
        Asked::Trim(n) => node.trim(0, n),
    }
}

fn see(node: &mut Node) -> Result<(), Refusal> {
    node.view(0)?;
    Ok(())
}

fn cut_off(node: &mut Node, from: u64, to: u64) -> Result<(), Refusal> {
    cut(node, Range::Interval(from, to))?;
    Ok(())
}

fn view(node: &mut Node) -> Result<View, Refusal> {
    node.view(0)
}

// At which entry a first view is, and of how many nodes and arcs.
fn seen(node: &mut Node) -> Result<(usize, usize, usize), Refusal> {
    let seen = view(node)?;
    let network = seen.network.get();
    Ok((seen.at, network.nodes_len(), network.arcs_len()))
}

// The same after three tells, with the entries that there are then, and whether the network was fresh before and is
// now.
fn seen_after_three(alloc: Global) -> Result<((usize, usize, usize), usize, bool, bool), Refusal> {
    let mut node = three_told(alloc)?;
    let was_fresh = node.is_fresh();
    let seen = seen(&mut node)?;
    Ok((seen, node.history().len(), was_fresh, node.is_fresh()))
}

#[test]
fn a_view_shows_what_three_tells_came_to(rt: HostRuntime) {
    let seen = seen_after_three(rt.alloc());
    assert_eq!(rt; seen, Ok(((3, 5, 5), 4, false, true)));
}

// Whether each is answered as is said beside it.
fn are_answered(node: &mut Node, asked: &[(Asked, Result<(), Refusal>)]) -> bool {
    for (it, expected) in asked {
        if ask(node, *it) != *expected {
            return false;
        }
    }
    true
}

// Whether cuts and trims are answered so after three tells, and floor, end and entries then.
fn kept(
    alloc: Global,
    asked: &[(Asked, Result<(), Refusal>)],
) -> Result<(bool, u64, u64, usize), Refusal> {
    let mut node = three_told(alloc)?;
    let are_answered = are_answered(&mut node, asked);
    Ok((are_answered, node.floor(), node.end(), node.history().len()))
}

#[test]
fn cuts_and_trims_within_the_buffer_are_taken(rt: HostRuntime) {
    let asked = [
        (Asked::Cut(3, 3), Ok(())),
        (Asked::Cut(4, 3), Err(Refusal::BadInterval)),
        (Asked::Cut(0, 4), Err(Refusal::BadInterval)),
        (Asked::Trim(2), Ok(())),
        (Asked::Cut(1, 3), Err(Refusal::Trimmed(2))),
        (Asked::Trim(1), Err(Refusal::BadInterval)),
    ];
    assert_eq!(rt; kept(rt.alloc(), &asked), Ok((true, 2, 3, 5)));
}

// The coordinator with a packet of all that it knows.
fn with_packet(mut node: Node) -> Result<(Node, Packet), Refusal> {
    let shared = cut(&mut node, Range::Full)?;
    let packet = shared.get().copy()?;
    Ok((node, packet))
}

// A second coordinator, which merged the packet.
fn merged(alloc: Global, packet: Packet) -> Result<Node, Refusal> {
    let mut node = building(alloc, 2, 100)?;
    node.merge(0, packet)?;
    Ok(node)
}

fn know_the_same(first: &Node, second: &Node) -> bool {
    first.knowledge() == second.knowledge()
}

// Whether a second coordinator that merges the packet knows the same then, and its entries.
fn told_the_same(alloc: Global, first: &Node, packet: Packet) -> Result<(bool, usize), Refusal> {
    let second = merged(alloc, packet)?;
    Ok((know_the_same(first, &second), second.history().len()))
}

// The same of a packet of all that a coordinator knows after three tells.
fn told_by_a_packet(alloc: Global) -> Result<(bool, usize), Refusal> {
    let (first, packet) = with_packet(three_told(alloc)?)?;
    told_the_same(alloc, &first, packet)
}

#[test]
fn a_full_packet_tells_all(rt: HostRuntime) {
    assert_eq!(rt; told_by_a_packet(rt.alloc()), Ok((true, 1)));
}

// How two tells are answered if there is room for one entry, and how many there are then.
fn told_twice(alloc: Global) -> Result<(bool, Result<(), Refusal>, usize), Refusal> {
    let mut node = building(alloc, 1, 1)?;
    let is_told = tell(&mut node, JOB.op()).is_ok();
    let again = tell(&mut node, TASK.op());
    Ok((is_told, again, node.history().len()))
}

#[test]
fn a_full_history_takes_no_call(rt: HostRuntime) {
    let told = told_twice(rt.alloc());
    assert_eq!(rt; told, Ok((true, Err(Refusal::HistoryFull), 1)));
}

fn commit(node: &mut Node, plan: Plan) -> Result<Shared<Admitted>, Refusal> {
    node.commit(0, plan)
}

// The only answer to the plan.
fn answered(node: &mut Node, plan: Plan) -> Result<Option<Answer>, Refusal> {
    let admitted = commit(node, plan)?;
    match admitted.get().answers.as_slice() {
        [answer] => Ok(Some(*answer)),
        _ => Ok(None),
    }
}

// The answer to a plan that places the task on the machine, who holds the task then, and the entries.
type Placed = (Option<Answer>, Option<MachineId>, usize);

fn placed(alloc: Global, mut node: Node) -> Result<Placed, Refusal> {
    let place = Place {
        task: TaskId::new(17),
        machine: MachineId::new(10),
        incarnation: 1,
    };
    let answer = answered(&mut node, placing(alloc, place)?)?;
    let holder = node.knowledge().holder(TaskId::new(17));
    Ok((answer, holder, node.history().len()))
}

fn placed_after_three(alloc: Global) -> Result<Placed, Refusal> {
    placed(alloc, three_told(alloc)?)
}

#[test]
fn a_commit_places_a_task(rt: HostRuntime) {
    let placed = placed_after_three(rt.alloc());
    let machine = MachineId::new(10);
    assert_eq!(rt; placed, Ok((Some(Answer::Accepted), Some(machine), 4)));
}

// A coordinator that knows that the task's last attempt runs, and is proposed for a machine that is not known.
fn spent(alloc: Global) -> Result<Node, Refusal> {
    let mut node = three_told(alloc)?;
    let last = PROGRESS.attempt(u32::MAX).op();
    let elsewhere = PROPOSAL.attempt(u32::MAX).machine(11).op();
    for op in [last, elsewhere] {
        tell(&mut node, op)?;
    }
    Ok(node)
}

fn placed_where_spent(alloc: Global) -> Result<Placed, Refusal> {
    placed(alloc, spent(alloc)?)
}

#[test]
fn a_spent_attempt_is_not_placed(rt: HostRuntime) {
    let placed = placed_where_spent(rt.alloc());
    assert_eq!(rt; placed, Ok((Some(Answer::AttemptsSpent), None, 6)));
}

// The text of a coordinator to which nothing happened, and its entries then.
fn first_dump(alloc: Global) -> Result<(Vec<u8>, usize), Refusal> {
    let mut node = building(alloc, 1, 1)?;
    let text = dump_of(alloc, &mut node)?;
    Ok((text, node.history().len()))
}

#[test]
fn a_dump_of_nothing_is_the_sink(rt: HostRuntime) {
    let is_sink = match first_dump(rt.alloc()) {
        Ok((text, 0)) => text.as_slice() == b"c 1 S\np min 1 0\n".as_slice(),
        _ => false,
    };
    assert!(rt; is_sink);
}

// A keeper that counts how often it builds, and the keys that it is given.
#[derive(Drop)]
struct Counting {
    inner: Rebuilder,
    builds: usize,
    keys: usize,
}

impl NetKeeper for Counting {
    ghost fresh = { λ c. is_some c.inner };

    ghost is_for = { λ c k. c.inner ≡ Some (net_of k) };

    ghost follows = { λ c k. IsTrue (is_some c.inner) → c.inner ≡ Some (net_of k) };

    ghost fresh_follows = { λ _ _ _ _ given _. given };

    ghost absorbs = { λ old _ new. new.builds ≡ old.builds };

    fn absorb(
        &mut self,
        alloc: Global,
        now: &Knowledge,
        changed: &Changed,
    ) -> Result<(), OutOfMemory> {
        let handed = changed.jobs().len() + changed.tasks().len() + changed.machines().len();
        self.keys = self.keys.saturating_add(handed);
        self.inner.absorb(alloc, now, changed)
    }

    fn rebuild(&mut self, alloc: Global, now: &Knowledge) -> Result<(), OutOfMemory> {
        self.builds = self.builds.saturating_add(1);
        self.inner.rebuild(alloc, now)
    }

    fn refresh(&mut self, alloc: Global, now: &Knowledge) -> Result<(), OutOfMemory> {
        if self.inner.is_fresh() {
            return Ok(());
        }
        self.rebuild(alloc, now)
    }

    fn is_fresh(&self) -> bool {
        self.inner.is_fresh()
    }

    fn network(&self) -> &Network {
        self.inner.network()
    }

    fn share(&self) -> Result<Shared<Network>, OutOfMemory> {
        self.inner.share()
    }
}

type Counted = Coordinator<Counting>;

fn counted(alloc: Global) -> Result<Counted, Refusal> {
    let number = coordinator_id(1)?;
    let keeper = Counting {
        inner: Rebuilder::new(alloc)?,
        builds: 0,
        keys: 0,
    };
    Ok(Coordinator::new(alloc, number, 1_000, keeper))
}

// What a coordinator that counts is asked for: to be told of so many tasks, one by one, to be looked at, or to be
// dumped.
#[derive(Clone, Copy, Drop)]
enum Want {
    Tasks(u32),
    View,
    Dump,
}

fn tell_tasks(node: &mut Counted, many: u32) -> Result<(), Refusal> {
    for n in 0..many {
        node.tell(0, TASK.id(u128::from(n)).op())?;
    }
    Ok(())
}

fn see_counted(node: &mut Counted) -> Result<(), Refusal> {
    node.view(0)?;
    Ok(())
}

fn dump_counted(alloc: Global, node: &mut Counted) -> Result<(), Refusal> {
    let mut out = Over::new(Vec::new(alloc));
    node.dump(&mut out)
}

fn give(alloc: Global, node: &mut Counted, want: Want) -> Result<(), Refusal> {
    match want {
        Want::Tasks(many) => tell_tasks(node, many),
        Want::View => see_counted(node),
        Want::Dump => dump_counted(alloc, node),
    }
}

// How many keys the keeper was given and how often it built after these, and whether it is fresh then.
fn counts(alloc: Global, wants: &[Want]) -> Result<(usize, usize, bool), Refusal> {
    let mut node = counted(alloc)?;
    for want in wants {
        give(alloc, &mut node, *want)?;
    }
    let keeper = node.keeper();
    Ok((keeper.keys, keeper.builds, node.is_fresh()))
}

#[test]
fn a_keeper_is_handed_what_is_new_alone(rt: HostRuntime) {
    let counts = counts(rt.alloc(), &[Want::Tasks(300)]);
    assert_eq!(rt; counts, Ok((300, 0, false)));
}

#[test]
fn a_network_is_built_once_for_two_views(rt: HostRuntime) {
    let twice = [Want::Tasks(2), Want::View, Want::View];
    assert_eq!(rt; counts(rt.alloc(), &twice), Ok((2, 1, true)));
    let more = [Want::Tasks(2), Want::View, Want::View, Want::Tasks(1)];
    assert_eq!(rt; counts(rt.alloc(), &more), Ok((3, 1, false)));
}

#[test]
fn a_network_is_built_once_for_two_dumps_and_a_view(rt: HostRuntime) {
    let first = [Want::Tasks(2), Want::Dump];
    assert_eq!(rt; counts(rt.alloc(), &first), Ok((2, 1, true)));
    let all = [Want::Tasks(2), Want::Dump, Want::Dump, Want::View];
    assert_eq!(rt; counts(rt.alloc(), &all), Ok((2, 1, true)));
}

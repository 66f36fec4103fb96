//! Queries of a world, and what answers them, in whatever way the program is asked.
//!
//! Commands over scripts and lines of streams both ask queries, and one definition says what text answers each. A query
//! changes nothing but whether a network is fresh.

ghost use Rattle.std.specs.Prelude.{◌≡◌, IfOk, IfErr};
ghost use Rattle.fm_query.specs.Queries.{ForEachWorld, IsText, differs_in, IsUnanswered};

use crate::agree::{agreement_text, difference};
use crate::end_text::end_text;
use crate::list_text::list_of;
use crate::next_text::next_text;
use crate::over_text::over_text;
use crate::packet_text::packet_line;
use crate::reasons_text::why_text;
use crate::size_text::size_text;
use crate::solution_text::{least_plan_text, solution_text};
use crate::stops_text::stops_text;
use crate::version_text::version_text;
use crate::winners_text::winners_text;
use fm_dimacs::out::Over;
use fm_policy::keeper::NetKeeper;
use fm_question::question::{Listing, Question, Subject};
use fm_records::ids::{CoordId, TaskId};
use fm_records::refusal::Refusal;
use fm_world::world::World;
use std::alloc::Global;

/// What can be asked of a world of coordinators.
#[derive(Debug, Clone, Copy, PartialEq, Eq, Drop)]
pub enum Query {
    /// The question, to the coordinator.
    About(CoordId, Question),
    /// Whether all coordinators know the same: `same`, or `differ A B` of the first and the first that knows something
    /// else.
    Agree,
    /// The packet that was cut as the one with the number, counted from 0, in hexadecimal digits.
    Packet(usize),
    /// The version of the program.
    Version,
}

/// What answers a query.
#[derive(Debug, Drop)]
pub struct QueryAnswer {
    /// The text, each of its lines ended by a line feed.
    pub text: Vec<u8>,
    /// Whether two coordinators were found that do not know the same. Only `Agree` looks for them.
    pub differs: bool,
}

/// The world's answer to the query. NoCoordinator or NoPacket if the coordinator or packet does not exist; VersionsSpent or
/// AttemptsSpent if there is no next version or attempt, which only `Next` asks for; else refused only if memory runs
/// out. Knowledge, deltas and histories are unchanged, also after a refusal; `Graph` leaves the coordinator's network
/// fresh. The cost is that of building the network (`Graph`, if it is stale), of solving it, of one walk over what is
/// known, or of a look-up (`End`, `Next`). `List`, but of jobs, and `Size` have the coordinator make its tally, which it
/// keeps until something is told.
pub fn ask<N: NetKeeper>(
    alloc: Global,
    world: &mut World<N>,
    query: Query,
) -> Result<QueryAnswer, Refusal>
    ensures text { ForEachWorld world.old (λ w. IfOk result (λ a. IsText query w a.text.items)) }
    ensures differs { ForEachWorld world.old (λ w. IfOk result (λ a. a.differs ≡ differs_in query w)) }
    ensures err { ForEachWorld world.old (λ w. IfErr result (IsUnanswered query w)) }
    ensures same { world.new ≡ world.old }
{
    let text = match query {
        Query::About(at, question) => about(alloc, world, at, question)?,
        Query::Packet(number) => packet(alloc, world, number)?,
        Query::Version => version_text(alloc)?.into_bytes(),
        Query::Agree => return agreement(alloc, world),
    };
    Ok(QueryAnswer {
        text,
        differs: false,
    })
}

// The coordinator's answer to the question.
fn about<N: NetKeeper>(
    alloc: Global,
    world: &mut World<N>,
    at: CoordId,
    question: Question,
) -> Result<Vec<u8>, Refusal>
    ensures ok { ForEachWorld world.old (λ w. IfOk result (λ text. IsText (Query.About at question) w text.items)) }
    ensures err { ForEachWorld world.old (λ w. IfErr result (IsUnanswered (Query.About at question) w)) }
    ensures same { world.new ≡ world.old }
{
    match question {
        Question::Graph => graph(alloc, world, at),
        Question::Solve => solution(alloc, world, at),
        Question::Plan => plan(alloc, world, at),
        Question::Winners => winners(alloc, world, at),
        Question::Stops => stops(alloc, world, at),
        Question::End => end(alloc, world, at),
        Question::Why(task) => reasons(alloc, world, at, task),
        Question::List(listing) => {
            refresh_for(world, at, listing);
            list(alloc, world, at, listing)
        }
        Question::Next(subject) => next(alloc, world, at, subject),
        Question::Size => {
            world.refresh_tally(at.value());
            size(alloc, world, at)
        }
        Question::Over => over(alloc, world, at),
    }
}

// Has the coordinator make its tally, if the list needs one and there is memory for it.
fn refresh_for<N: NetKeeper>(world: &mut World<N>, at: CoordId, listing: Listing)
    ensures { world.new ≡ world.old }
{
    match listing {
        Listing::Jobs => {}
        Listing::All | Listing::Machines | Listing::Tasks | Listing::Waiting => {
            world.refresh_tally(at.value());
        }
    }
}

// The network of what the coordinator knows.
fn graph<N: NetKeeper>(alloc: Global, world: &mut World<N>, at: CoordId) -> Result<Vec<u8>, Refusal>
    ensures ok { ForEachWorld world.old (λ w. IfOk result (λ text. IsText (Query.About at Question.Graph) w text.items)) }
    ensures err { ForEachWorld world.old (λ w. IfErr result (IsUnanswered (Query.About at Question.Graph) w)) }
    ensures same { world.new ≡ world.old }
{
    let mut page = Over::new(Vec::new(alloc));
    match world.dump(at, &mut page) {
        Ok(()) => Ok(page.into_inner()),
        Err(Refusal::NoCoordinator) => Err(Refusal::NoCoordinator),
        Err(_) => Err(Refusal::OutOfMemory),
    }
}

// A least flow of that network.
fn solution<N: NetKeeper>(alloc: Global, world: &World<N>, at: CoordId) -> Result<Vec<u8>, Refusal>
    ensures ok { ForEachWorld world.now (λ w. IfOk result (λ text. IsText (Query.About at Question.Solve) w text.items)) }
    ensures err { ForEachWorld world.now (λ w. IfErr result (IsUnanswered (Query.About at Question.Solve) w)) }
{
    match world.coordinator(at) {
        None => Err(Refusal::NoCoordinator),
        Some(coordinator) => solution_text(alloc, coordinator),
    }
}

// The plan of a least flow of that network.
fn plan<N: NetKeeper>(alloc: Global, world: &World<N>, at: CoordId) -> Result<Vec<u8>, Refusal>
    ensures ok { ForEachWorld world.now (λ w. IfOk result (λ text. IsText (Query.About at Question.Plan) w text.items)) }
    ensures err { ForEachWorld world.now (λ w. IfErr result (IsUnanswered (Query.About at Question.Plan) w)) }
{
    match world.coordinator(at) {
        None => Err(Refusal::NoCoordinator),
        Some(coordinator) => Ok(least_plan_text(alloc, coordinator)?.into_bytes()),
    }
}

// What the coordinator has to stop.
fn stops<N: NetKeeper>(alloc: Global, world: &World<N>, at: CoordId) -> Result<Vec<u8>, Refusal>
    ensures ok { ForEachWorld world.now (λ w. IfOk result (λ text. IsText (Query.About at Question.Stops) w text.items)) }
    ensures err { ForEachWorld world.now (λ w. IfErr result (IsUnanswered (Query.About at Question.Stops) w)) }
{
    match world.coordinator(at) {
        None => Err(Refusal::NoCoordinator),
        Some(coordinator) => {
            let number = coordinator.number();
            Ok(stops_text(alloc, coordinator.knowledge(), number)?.into_bytes())
        },
    }
}

// Which deltas the coordinator keeps.
fn end<N: NetKeeper>(alloc: Global, world: &World<N>, at: CoordId) -> Result<Vec<u8>, Refusal>
    ensures ok { ForEachWorld world.now (λ w. IfOk result (λ text. IsText (Query.About at Question.End) w text.items)) }
    ensures err { ForEachWorld world.now (λ w. IfErr result (IsUnanswered (Query.About at Question.End) w)) }
{
    match world.coordinator(at) {
        None => Err(Refusal::NoCoordinator),
        Some(coordinator) => Ok(end_text(alloc, coordinator)?.into_bytes()),
    }
}

// Why the task waits or runs, by what the coordinator knows.
fn reasons<N: NetKeeper>(
    alloc: Global,
    world: &World<N>,
    at: CoordId,
    task: TaskId,
) -> Result<Vec<u8>, Refusal>
    ensures ok { ForEachWorld world.now (λ w. IfOk result (λ text. IsText (Query.About at (Question.Why task)) w text.items)) }
    ensures err { ForEachWorld world.now (λ w. IfErr result (IsUnanswered (Query.About at (Question.Why task)) w)) }
{
    match world.coordinator(at) {
        None => Err(Refusal::NoCoordinator),
        Some(coordinator) => Ok(why_text(alloc, coordinator.knowledge(), task)?.into_bytes()),
    }
}

// Who won, by what the coordinator knows.
fn winners<N: NetKeeper>(alloc: Global, world: &World<N>, at: CoordId) -> Result<Vec<u8>, Refusal>
    ensures ok { ForEachWorld world.now (λ w. IfOk result (λ text. IsText (Query.About at Question.Winners) w text.items)) }
    ensures err { ForEachWorld world.now (λ w. IfErr result (IsUnanswered (Query.About at Question.Winners) w)) }
{
    match world.coordinator(at) {
        None => Err(Refusal::NoCoordinator),
        Some(coordinator) => Ok(winners_text(alloc, coordinator.knowledge())?.into_bytes()),
    }
}

// The records that the coordinator knows.
fn list<N: NetKeeper>(
    alloc: Global,
    world: &World<N>,
    at: CoordId,
    listing: Listing,
) -> Result<Vec<u8>, Refusal>
    ensures ok { ForEachWorld world.now (λ w.
        IfOk result (λ text. IsText (Query.About at (Question.List listing)) w text.items)) }
    ensures err { ForEachWorld world.now (λ w. IfErr result (IsUnanswered (Query.About at (Question.List listing)) w)) }
{
    match world.coordinator(at) {
        None => Err(Refusal::NoCoordinator),
        Some(coordinator) => Ok(list_of(alloc, coordinator, listing)?.into_bytes()),
    }
}

// The next version or attempt, after what the coordinator knows.
fn next<N: NetKeeper>(
    alloc: Global,
    world: &World<N>,
    at: CoordId,
    subject: Subject,
) -> Result<Vec<u8>, Refusal>
    ensures ok { ForEachWorld world.now (λ w.
        IfOk result (λ text. IsText (Query.About at (Question.Next subject)) w text.items)) }
    ensures err { ForEachWorld world.now (λ w. IfErr result (IsUnanswered (Query.About at (Question.Next subject)) w)) }
{
    match world.coordinator(at) {
        None => Err(Refusal::NoCoordinator),
        Some(coordinator) => match next_text(alloc, coordinator.knowledge(), subject) {
            Ok(text) => Ok(text.into_bytes()),
            Err(refusal) => Err(refusal),
        },
    }
}

// How much the coordinator knows.
fn size<N: NetKeeper>(alloc: Global, world: &World<N>, at: CoordId) -> Result<Vec<u8>, Refusal>
    ensures ok { ForEachWorld world.now (λ w. IfOk result (λ text. IsText (Query.About at Question.Size) w text.items)) }
    ensures err { ForEachWorld world.now (λ w. IfErr result (IsUnanswered (Query.About at Question.Size) w)) }
{
    match world.coordinator(at) {
        None => Err(Refusal::NoCoordinator),
        Some(coordinator) => Ok(size_text(alloc, coordinator)?.into_bytes()),
    }
}

// The machines whose held tasks request more than their bandwidth, by what the coordinator knows.
fn over<N: NetKeeper>(alloc: Global, world: &World<N>, at: CoordId) -> Result<Vec<u8>, Refusal>
    ensures ok { ForEachWorld world.now (λ w. IfOk result (λ text. IsText (Query.About at Question.Over) w text.items)) }
    ensures err { ForEachWorld world.now (λ w. IfErr result (IsUnanswered (Query.About at Question.Over) w)) }
{
    match world.coordinator(at) {
        None => Err(Refusal::NoCoordinator),
        Some(coordinator) => Ok(over_text(alloc, coordinator.knowledge())?.into_bytes()),
    }
}

// The digits of the packet with the number.
fn packet<N: NetKeeper>(alloc: Global, world: &World<N>, number: usize) -> Result<Vec<u8>, Refusal>
    ensures ok { ForEachWorld world.now (λ w. IfOk result (λ text. IsText (Query.Packet number) w text.items)) }
    ensures err { ForEachWorld world.now (λ w. IfErr result (IsUnanswered (Query.Packet number) w)) }
{
    match world.packet(number) {
        None => Err(Refusal::NoPacket),
        Some(packet) => Ok(packet_line(alloc, packet)?.into_bytes()),
    }
}

// Whether all coordinators know the same.
fn agreement<N: NetKeeper>(alloc: Global, world: &World<N>) -> Result<QueryAnswer, Refusal>
    ensures text { ForEachWorld world.now (λ w. IfOk result (λ a. IsText Query.Agree w a.text.items)) }
    ensures differs { ForEachWorld world.now (λ w. IfOk result (λ a. a.differs ≡ differs_in Query.Agree w)) }
    ensures err { IfErr result (λ refusal. refusal ≡ Refusal.OutOfMemory) }
{
    let found = difference(world);
    let text = agreement_text(alloc, found)?.into_bytes();
    Ok(QueryAnswer {
        text,
        differs: found.is_some(),
    })
}

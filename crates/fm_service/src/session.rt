//! Coordinators that do what requests ask for, and are renewed once a history is long.
//!
//! A line that is refused changes nothing, so each text is made before its step is taken (`acting`). Of each
//! coordinator it is kept up to which delta its news were sent. So the next news have only what came since, or all that
//! is known if some of that was trimmed.

ghost use Rattle.std.specs.Prelude.{◌≡◌, ◌⊎◌, List, [], None, Some, OnErr, IfOk, IfErr, IsTrue, length, map, cond, nat_le, nat_lt};
ghost use Rattle.std.specs.List.{list_any};
ghost use Rattle.fm_coord.specs.declared.entry.Range.TheVariants as range;
ghost use Rattle.fm_world.specs.Worlds.{WorldOfSets, refusal_of};
ghost use Rattle.fm_world.specs.Represents.{WorldRepresents, state_of, AllStand};
ghost use Rattle.fm_coord.specs.Events.{Replica};
ghost use Rattle.fm_script.specs.declared.script.ScriptAct.TheVariants as act;
ghost use Rattle.fm_script.specs.Requests.{request_model};
ghost use Rattle.fm_script.specs.Requests as asked;
ghost use Rattle.fm_service.specs.WorldSteps.{step_at, WorldStep};
ghost use Rattle.fm_service.specs.StreamSteps.{Following, CutsMaybe, CutRefused, at_world, packet_number_at, is_due, fresh};
ghost use Rattle.fm_service.specs.Renewing.{renewed_world};
ghost use Rattle.fm_service.specs.Sessions.{SessionAt};
ghost use Rattle.fm_service.specs.inner.SessionSteps.{Goes, StopsRequest, Accepts, Rejects};

use crate::acting::{cut, prepare_cut, round, share_for, take_step};
use crate::cut_names::NamedPackets;
use crate::own_news::own_news_since;
use crate::renewing::renewed;
use crate::verdict::check_line;
use fm_coord::coordinator::Coordinator;
use fm_coord::entry::Range;
use fm_edit::keepers::Keeper;
use fm_know::laws::law_can_be;
use fm_query::packet_text::packet_in;
use fm_query::query::{Query, QueryAnswer, ask};
use fm_question::question::Question;
use fm_records::refusal::Refusal;
use fm_script::parse_request::read_line;
use fm_script::request::{Request, StreamLine};
use fm_script::script::{RoundKind, ScriptAct, ScriptStep};
use fm_world::step::Act as WorldAct;
use fm_world::world::World;
use std::alloc::Global;

/// Coordinators, the packets that they cut under a name, and for each number of a coordinator how many of its deltas
/// were sent as news, up to which delta its own were sent, and up to which delta they are stored.
#[derive(Drop)]
pub(crate) struct Session {
    pub(crate) alloc: Global,
    pub(crate) world: World<Keeper>,
    pub(crate) named: NamedPackets,
    pub(crate) marks: [u64; 256],
    pub(crate) own_marks: [u64; 256],
    pub(crate) stored_marks: [u64; 256],
}

impl Session {
    /// The coordinators of the world, of which nothing was sent or stored.
    pub(crate) fn new(alloc: Global, world: World<Keeper>) -> Session
        ensures { (w : WorldOfSets) → WorldRepresents world w → SessionAt result (fresh w) }
    {
        Session {
            alloc,
            world,
            named: NamedPackets::new(alloc),
            marks: [0u64; 256],
            own_marks: [0u64; 256],
            stored_marks: [0u64; 256],
        }
    }

    /// Does what the line asks for, and returns its text. Then, if a history has as many entries as that, the
    /// coordinators are renewed, if there is memory for it. A line that is refused changes nothing, and neither does one that asks to
    /// check another.
    pub(crate) fn answer(&mut self, most: usize, line: &[u8]) -> Result<Vec<u8>, Refusal>
        ensures ok { Accepts most result self.old self.new line.now }
        ensures err { Rejects result self.old line.now }
        ensures unchanged { OnErr result (self.new ≡ self.old) }
    {
        let request = match read_line(self.alloc, line, self.named.names())? {
            StreamLine::Request(request) => request,
            StreamLine::Check(checked) => return check_line(self, &checked),
        };
        let text = self.execute(request)?;
        self.settle(most);
        Ok(text)
    }

    // Does what is requested.
    fn execute(&mut self, request: Request) -> Result<Vec<u8>, Refusal>
        ensures ok { Goes result self.old self.new (request_model request) }
        ensures err { StopsRequest result self.old (request_model request) }
        ensures unchanged { OnErr result (self.new ≡ self.old) }
    {
        match request {
            Request::Open(_) => Err(Refusal::BadScript(0)),
            Request::Do(step) => self.act(step),
            Request::Cut { at, range, name } => match name {
                None => self.cut(at, range),
                Some(name) => self.cut_named(at, range, &name),
            },
            Request::News { at } => self.news(at),
            Request::OwnNews { at } => self.own_news(at),
            Request::Take { at, digits } => self.take_in(at, &digits),
            Request::Ask { at, question } => self.ask(at, question),
            Request::Agree => self.agree(),
            Request::Version => self.version(),
            Request::Renew => self.renew(),
        }
    }

    // A step as in a script.
    fn act(&mut self, step: ScriptStep) -> Result<Vec<u8>, Refusal>
        ensures ok { Goes result self.old self.new (asked.Does step) }
        ensures err { StopsRequest result self.old (asked.Does step) }
        ensures unchanged { OnErr result (self.new ≡ self.old) }
    {
        let ScriptStep { at, act } = step;
        match act {
            ScriptAct::Tell(op) => self.step(at, WorldAct::Tell(op)),
            ScriptAct::Deliver(place) => {
                let number = self.number_at(place);
                self.step(at, WorldAct::Deliver(number))
            }
            ScriptAct::Trim(n) => self.step(at, WorldAct::Trim(n)),
            ScriptAct::Cut(range) => self.cut(at, range),
            ScriptAct::Round(kind) => self.round(at, &kind),
        }
    }

    // A step of the world, without a text.
    fn step(&mut self, at: u8, act: WorldAct) -> Result<Vec<u8>, Refusal>
        ensures ok { (k : Following) → SessionAt self.old k → IfOk result (λ text. (text.items ≡ [])
            × ((v : WorldOfSets) × WorldStep k.world (step_at at act) v × SessionAt self.new (at_world k v))) }
        ensures err { (k : Following) → SessionAt self.old k
            → IfErr result (λ e. e ≡ refusal_of k.world (step_at at act)) }
        ensures unchanged { OnErr result (self.new ≡ self.old) }
    {
        take_step(&mut self.world, at, act)?;
        Ok(Vec::new(self.alloc))
    }

    /// The number of the packet whose name has the place, or one after those of all packets.
    pub(crate) fn number_at(&self, place: usize) -> usize
        ensures { (k : Following) → SessionAt self.now k → result ≡ packet_number_at k place }
    {
        self.named
            .number(place)
            .unwrap_or(self.world.packet_count())
    }

    // A round.
    fn round(&mut self, at: u8, kind: &RoundKind) -> Result<Vec<u8>, Refusal>
        ensures ok { Goes result self.old self.new (asked.Does (record { at = at; act = act.Round kind.now })) }
        ensures err { StopsRequest result self.old (asked.Does (record { at = at; act = act.Round kind.now })) }
        ensures unchanged { OnErr result (self.new ≡ self.old) }
    {
        round(self.alloc, &mut self.world, at, kind)
    }

    // A cut whose packet has no name.
    fn cut(&mut self, at: u8, range: Range) -> Result<Vec<u8>, Refusal>
        ensures ok { Goes result self.old self.new (asked.Cuts at range None) }
        ensures err { StopsRequest result self.old (asked.Cuts at range None) }
        ensures unchanged { OnErr result (self.new ≡ self.old) }
    {
        cut(self.alloc, &mut self.world, at, range)
    }

    // A cut whose packet gets the name.
    fn cut_named(&mut self, at: u8, range: Range, name: &str) -> Result<Vec<u8>, Refusal>
        ensures ok { Goes result self.old self.new (asked.Cuts at range (Some name.now)) }
        ensures err { StopsRequest result self.old (asked.Cuts at range (Some name.now)) }
        ensures unchanged { OnErr result (self.new ≡ self.old) }
    {
        share_for(&mut self.world, at, range);
        self.cut_prepared(at, range, name)
    }

    // The same, of a packet that shares its records or does not.
    fn cut_prepared(&mut self, at: u8, range: Range, name: &str) -> Result<Vec<u8>, Refusal>
        ensures ok { Goes result self.old self.new (asked.Cuts at range (Some name.now)) }
        ensures err { StopsRequest result self.old (asked.Cuts at range (Some name.now)) }
        ensures unchanged { OnErr result (self.new ≡ self.old) }
    {
        let prepared = prepare_cut(self.alloc, &self.world, at, range)?;
        if !self.named.add(name, self.world.packet_count())? {
            return Err(Refusal::BadScript(0));
        }
        if let Err(refusal) = self.world.give(at, 0, range, prepared.packet) {
            self.named.remove_last();
            return Err(refusal);
        }
        Ok(prepared.line)
    }

    // A cut of the deltas that were not sent as news, or of all that is known if some of these were trimmed.
    fn news(&mut self, at: u8) -> Result<Vec<u8>, Refusal>
        ensures ok { Goes result self.old self.new (asked.News at) }
        ensures err { StopsRequest result self.old (asked.News at) }
        ensures unchanged { OnErr result (self.new ≡ self.old) }
    {
        let Some(coordinator) = self.world.numbered(at) else {
            return Err(Refusal::NoCoordinator);
        };
        let mark = self.marks[usize::from(at)];
        let end = coordinator.end();
        let range = news_between(mark, coordinator.floor(), end);
        let text = self.cut(at, range)?;
        self.marks[usize::from(at)] = end;
        Ok(text)
    }

    // A cut of the first longest run of own deltas that were not sent so, or of all that is known if some delta was
    // trimmed since; without one there is no cut.
    fn own_news(&mut self, at: u8) -> Result<Vec<u8>, Refusal>
        ensures ok { Goes result self.old self.new (asked.OwnNews at) }
        ensures err { StopsRequest result self.old (asked.OwnNews at) }
        ensures unchanged { OnErr result (self.new ≡ self.old) }
    {
        let Some(coordinator) = self.world.numbered(at) else {
            return Err(Refusal::NoCoordinator);
        };
        let news = own_news_since(coordinator, self.own_marks[usize::from(at)]);
        let text = self.cut_maybe(at, news.range)?;
        self.own_marks[usize::from(at)] = news.mark;
        Ok(text)
    }

    // A cut whose packet has no name, if there is something to cut.
    fn cut_maybe(&mut self, at: u8, range: Option<Range>) -> Result<Vec<u8>, Refusal>
        ensures ok { (k : Following) → SessionAt self.old k → IfOk result (λ text. (v : WorldOfSets)
            × CutsMaybe k.world at range text.items v × SessionAt self.new (at_world k v)) }
        ensures err { (k : Following) → SessionAt self.old k → IfErr result (CutRefused k at range) }
        ensures unchanged { OnErr result (self.new ≡ self.old) }
    {
        match range {
            Some(range) => self.cut(at, range),
            None => Ok(Vec::new(self.alloc)),
        }
    }

    // Merges the packet that the digits encode.
    fn take_in(&mut self, at: u8, digits: &str) -> Result<Vec<u8>, Refusal>
        ensures ok { Goes result self.old self.new (asked.Takes at digits.now) }
        ensures err { StopsRequest result self.old (asked.Takes at digits.now) }
        ensures unchanged { OnErr result (self.new ≡ self.old) }
    {
        let packet = packet_in(self.alloc, digits.as_bytes())?;
        law_can_be(&packet.value);
        self.world.take(at, 0, packet)?;
        Ok(Vec::new(self.alloc))
    }

    // Answers what a coordinator is asked.
    fn ask(&mut self, at: u8, question: Question) -> Result<Vec<u8>, Refusal>
        ensures ok { Goes result self.old self.new (asked.Asks at question) }
        ensures err { StopsRequest result self.old (asked.Asks at question) }
        ensures unchanged { OnErr result (self.new ≡ self.old) }
    {
        let Some(coordinator) = self.world.numbered(at) else {
            return Err(Refusal::NoCoordinator);
        };
        let query = Query::About(coordinator.number(), question);
        let QueryAnswer { text, differs: _ } = ask(self.alloc, &mut self.world, query)?;
        Ok(text)
    }

    // Answers whether all coordinators know the same.
    fn agree(&mut self) -> Result<Vec<u8>, Refusal>
        ensures ok { Goes result self.old self.new asked.Agrees }
        ensures err { StopsRequest result self.old asked.Agrees }
        ensures unchanged { OnErr result (self.new ≡ self.old) }
    {
        let QueryAnswer { text, differs: _ } = ask(self.alloc, &mut self.world, Query::Agree)?;
        Ok(text)
    }

    // Answers which version of the program this is.
    fn version(&mut self) -> Result<Vec<u8>, Refusal>
        ensures ok { Goes result self.old self.new asked.Versions }
        ensures err { StopsRequest result self.old asked.Versions }
        ensures unchanged { OnErr result (self.new ≡ self.old) }
    {
        let QueryAnswer { text, differs: _ } = ask(self.alloc, &mut self.world, Query::Version)?;
        Ok(text)
    }

    // Renews the coordinators.
    fn renew(&mut self) -> Result<Vec<u8>, Refusal>
        ensures ok { Goes result self.old self.new asked.Renews }
        ensures err { StopsRequest result self.old asked.Renews }
        ensures unchanged { OnErr result (self.new ≡ self.old) }
    {
        let world = renewed(self.alloc, &self.world)?;
        *self = Session::new(self.alloc, world);
        Ok(Vec::new(self.alloc))
    }

    // Renews the coordinators if a history has as many entries as that, and if there is memory for it.
    fn settle(&mut self, most: usize)
        ensures { (k : Following) → SessionAt self.old k
            → (self.new ≡ self.old) ⊎ (is_due most k.world × SessionAt self.new (fresh (renewed_world k.world))) }
    {
        if is_due(self.world.coordinators(), most) {
            let _ = self.renew();
        }
    }
}

// Whether a history has as many entries as that.
fn is_due(coordinators: &[Coordinator<Keeper>], most: usize) -> bool
    ensures { IsTrue result → (rs : List Replica) → AllStand (map state_of coordinators.now) rs
        → IsTrue (list_any (λ r. nat_le most (length r.steps)) rs) }
{
    match coordinators.split_first() {
        None => false,
        Some((first, rest)) => first.history().len() >= most || is_due(rest, most),
    }
}

/// What is news: the deltas from the mark to the end, or all that is known if some of these were trimmed.
pub(crate) fn news_between(mark: u64, floor: u64, end: u64) -> Range
    ensures { result ≡ cond (nat_lt mark floor) range.Full (range.Interval mark end) }
{
    if mark < floor {
        Range::Full
    } else {
        Range::Interval(mark, end)
    }
}

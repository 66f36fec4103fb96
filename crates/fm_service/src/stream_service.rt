//! The responder to the lines of a stream: it has no coordinators before the line that lists the coordinators.

ghost use Rattle.std.specs.Prelude.{◌≡◌, List, map, Option, Some, None, Err, is_some, option_map, IfOk, IfErr, OnOk, OnErr};
ghost use Rattle.fm_records.specs.declared.ops.Op.{Op};
ghost use Rattle.fm_delta.specs.declared.packet.Packet.{Packet};
ghost use Rattle.fm_coord.specs.Replays.{seen_packet};
ghost use Rattle.fm_io.specs.Replies.{refusal_reply};
ghost use Rattle.fm_script.specs.Requests.{request_model, IsPlain};
ghost use Rattle.fm_service.specs.StreamSteps.{Following, StandBehind, IsRefused, RefusesIn};
ghost use Rattle.fm_service.specs.Sessions.{IsIn};
ghost use Rattle.fm_service.specs.Storing.{numbers_listed, unstored_in, full_packets_in, all_stored, Restores, RestoresUntil};
ghost use Rattle.fm_service.specs.inner.SessionSteps.{Begins, Opens};

use crate::session::Session;
use crate::storing::{full_packets, mark_all, numbers_of, restore, unstored_packets};
use crate::verdict::check_first;
use fm_delta::packet::Packet;
use fm_io::responder::Responder;
use fm_lattice::join::OutOfMemory;
use fm_records::ids::CoordId;
use fm_records::refusal::Refusal;
use fm_script::initial_world::open;
use fm_script::names::Names;
use fm_script::parse_request::read_line;
use fm_script::request::{Request, StreamLine};
use std::alloc::Global;

/// Coordinators that answer lines, once a line lists them.
#[derive(Drop)]
pub struct StreamService {
    pub(crate) alloc: Global,
    pub(crate) renew_after: usize,
    pub(crate) session: Option<Session>,
}

impl StreamService {
    /// No coordinators yet. Between two lines all are renewed once a history has as many entries as
    /// `renew_after`, if there is memory for it. It allocates nothing.
    pub fn new(alloc: Global, renew_after: usize) -> StreamService
        ensures most { result.renew_after ≡ renew_after }
        ensures start { IsIn result.session None }
    {
        StreamService {
            alloc,
            renew_after,
            session: None,
        }
    }

    /// Whether a line has listed the coordinators.
    pub fn is_open(&self) -> bool
        ensures { (o : Option Following) → IsIn self.now.session o → result ≡ is_some o }
    {
        self.session.is_some()
    }

    /// The coordinators' numbers, in the order in which they were listed; none before that. Refused only if memory runs
    /// out.
    pub fn numbers(&self, alloc: Global) -> Result<Vec<CoordId>, OutOfMemory>
        ensures { (o : Option Following) → IsIn self.now.session o
            → IfOk result (λ numbers. numbers.items ≡ numbers_listed o) }
    {
        match &self.session {
            None => Ok(Vec::new(alloc)),
            Some(session) => numbers_of(alloc, session),
        }
    }

    /// What is not stored of each coordinator, in the order in which they were listed: a packet for each that has deltas
    /// from its stored mark on, with its number and the packet number 0. It says these deltas, or all that is known if
    /// some of them were trimmed or the history is full. Nothing changes. Refused only if memory runs out. A packet
    /// costs what a cut costs; each coordinator is looked up.
    pub fn unstored(&self, alloc: Global) -> Result<Vec<Packet>, OutOfMemory>
        ensures { (o : Option Following) → IsIn self.now.session o
            → IfOk result (λ packets. packets.items ≡ map seen_packet (unstored_in o)) }
    {
        match &self.session {
            None => Ok(Vec::new(alloc)),
            Some(session) => unstored_packets(alloc, session),
        }
    }

    /// All that each coordinator knows, in the order in which they were listed: a packet for each, with its number and the
    /// packet number 0. Nothing changes. Refused only if memory runs out. It copies the records that are in no shared
    /// block.
    pub fn full_packets(&self, alloc: Global) -> Result<Vec<Packet>, OutOfMemory>
        ensures { (o : Option Following) → IsIn self.now.session o
            → IfOk result (λ packets. packets.items ≡ map seen_packet (full_packets_in o)) }
    {
        match &self.session {
            None => Ok(Vec::new(alloc)),
            Some(session) => full_packets(alloc, session),
        }
    }

    /// Marks all deltas of each coordinator as stored. A renewal takes the marks back. O(n) in the coordinators; it
    /// allocates nothing.
    pub fn mark_stored(&mut self)
        ensures most { self.new.renew_after ≡ self.old.renew_after }
        ensures stored { (o : Option Following) → IsIn self.old.session o
            → IsIn self.new.session (option_map all_stored o) }
    {
        if let Some(session) = &mut self.session {
            mark_all(session);
        }
    }

    /// Merges stored packets, each by the coordinator that is its sender, and then marks all as stored. It is for
    /// coordinators that were just listed. Refused with NoCoordinator if none is listed yet; else as the merge of a
    /// packet: NoCoordinator, HistoryFull, OutOfMemory. Then the packets before that one are merged, and nothing is
    /// marked.
    pub fn begin_with(&mut self, packets: Vec<Packet>) -> Result<(), Refusal>
        ensures most { self.new.renew_after ≡ self.old.renew_after }
        ensures ok { (behind : Packet → List Op) → StandBehind behind → (k : Following) → IsIn self.old.session (Some k)
            → OnOk result ((j : Following) × Restores behind k packets.items j × IsIn self.new.session (Some j)) }
        ensures err { (behind : Packet → List Op) → StandBehind behind → (k : Following) → IsIn self.old.session (Some k)
            → IfErr result (λ e. (j : Following) × RestoresUntil behind k packets.items e j × IsIn self.new.session (Some j)) }
        ensures closed { IsIn self.old.session None → (result ≡ Err Refusal.NoCoordinator) × (self.new ≡ self.old) }
    {
        match &mut self.session {
            None => Err(Refusal::NoCoordinator),
            Some(session) => restore(session, packets),
        }
    }

    // What the first line is answered: it lists the coordinators, or asks to check another line.
    fn begin(&mut self, line: &[u8]) -> Result<Vec<u8>, Refusal>
        requires { self.old.session ≡ None }
        ensures most { self.new.renew_after ≡ self.old.renew_after }
        ensures ok { Begins self.old.renew_after result self.new line.now }
        ensures err { IfErr result (λ e. IsRefused None line.now (refusal_reply e) None) }
        ensures unchanged { OnErr result (self.new ≡ self.old) }
    {
        match read_line(self.alloc, line, &Names::new(self.alloc))? {
            StreamLine::Check(checked) => check_first(self.alloc, &checked),
            StreamLine::Request(request) => self.open(request),
        }
    }

    // The coordinators that the request lists.
    fn open(&mut self, request: Request) -> Result<Vec<u8>, Refusal>
        requires { IsPlain (request_model request) }
        ensures most { self.new.renew_after ≡ self.old.renew_after }
        ensures ok { Opens result self.new (request_model request) }
        ensures err { IfErr result (RefusesIn None (request_model request)) }
        ensures unchanged { OnErr result (self.new ≡ self.old) }
    {
        match request {
            Request::Open(listed) => {
                let world = open(self.alloc, &listed)?;
                self.session = Some(Session::new(self.alloc, world));
                Ok(Vec::new(self.alloc))
            }
            _ => Err(Refusal::BadScript(0)),
        }
    }
}

impl Responder for StreamService {
    ghost use Rattle.fm_service.specs.Sessions.{AnswersSo};

    ghost answers = { λ old line text new. AnswersSo old line text new };

    fn answer(&mut self, line: &[u8]) -> Result<Vec<u8>, Refusal> {
        let most = self.renew_after;
        match &mut self.session {
            Some(session) => session.answer(most, line),
            None => self.begin(line),
        }
    }
}

//! Why a request would be refused now, without carrying it out.

ghost use Rattle.std.specs.Prelude.{◌≡◌, IfOk, IsOkUnless, Option, option_map, string_bytes};
ghost use Rattle.fm_script.specs.Requests.{request_model, Takes, Asks, Cuts};
ghost use Rattle.fm_world.specs.Worlds.{with_number, cause_of};
ghost use Rattle.fm_world.specs.declared.step.Act.TheVariants as act;
ghost use Rattle.fm_query.specs.NextText.{IsNoNext};
ghost use Rattle.fm_service.specs.WorldSteps.{step_at};
ghost use Rattle.fm_service.specs.StreamSteps.{Following, RefusesAt, IsVerdict, CutRefused, asked_for, mark_at, own_mark_at, news_of, own_news_of};
ghost use Rattle.fm_service.specs.Sessions.{SessionAt};

use crate::causes::{cut_cause, delivery_cause, entry_cause, tell_cause, trim_cause};
use crate::own_news::own_news_since;
use crate::session::{Session, news_between};
use fm_coord::entry::Range;
use fm_know::knowledge::Knowledge;
use fm_query::next_text::next_text;
use fm_query::packet_text::packet_fault;
use fm_question::question::{Question, Subject};
use fm_records::refusal::Refusal;
use fm_script::request::Request;
use fm_script::script::{ScriptAct, ScriptStep};
use std::alloc::Global;

/// Why the request would be refused now, if it would be for another reason than that memory runs out. OutOfMemory if there is none
/// to find that. The digits of a packet are read; else it costs look-ups.
pub(crate) fn request_cause(
    session: &Session,
    request: &Request,
) -> Result<Option<Refusal>, Refusal>
    ensures ok { (k : Following) → SessionAt session.now k
        → IfOk result (IsVerdict (RefusesAt k (request_model request.now))) }
    ensures err { IsOkUnless result Refusal.OutOfMemory }
{
    match request {
        Request::Open(_) => Ok(Some(Refusal::BadScript(0))),
        Request::Do(step) => Ok(step_cause(session, step)),
        Request::Cut { at, range, name } => Ok(cut_request_cause(session, *at, *range, name)),
        Request::News { at } => Ok(news_cause(session, *at)),
        Request::OwnNews { at } => Ok(own_news_cause(session, *at)),
        Request::Take { at, digits } => packet_cause(session, *at, digits),
        Request::Ask { at, question } => question_cause(session, *at, *question),
        Request::Agree | Request::Version | Request::Renew => Ok(None),
    }
}

// Why a step as in a script would be refused.
fn step_cause(session: &Session, step: &ScriptStep) -> Option<Refusal>
    ensures { (k : Following) → SessionAt session.now k
        → result ≡ cause_of k.world (step_at step.now.at (asked_for k step.now.act)) }
{
    let world = &session.world;
    match &step.act {
        ScriptAct::Tell(op) => tell_cause(world, step.at, *op),
        ScriptAct::Cut(range) => cut_cause(world, step.at, *range),
        ScriptAct::Deliver(place) => delivery_cause(world, step.at, session.number_at(*place)),
        ScriptAct::Trim(floor) => trim_cause(world, step.at, *floor),
        ScriptAct::Round(_) => entry_cause(world, step.at),
    }
}

// Why a cut would be refused, under a name or under none.
fn cut_request_cause(
    session: &Session,
    at: u8,
    range: Range,
    name: &Option<String>,
) -> Option<Refusal>
    ensures { (k : Following) → SessionAt session.now k
        → IsVerdict (RefusesAt k (Cuts at range (option_map string_bytes name.now))) result }
{
    if let Some(name) = name {
        if session.named.names().place(name).is_some() {
            return Some(Refusal::BadScript(0));
        }
    }
    cut_cause(&session.world, at, range)
}

// Why a cut of the news would be refused.
fn news_cause(session: &Session, at: u8) -> Option<Refusal>
    ensures { (k : Following) → SessionAt session.now k → result
        ≡ cause_of k.world (step_at at (act.Cut (news_of (mark_at k at) (with_number k.world.replicas at)))) }
{
    let Some(coordinator) = session.world.numbered(at) else {
        return Some(Refusal::NoCoordinator);
    };
    let mark = session.marks[usize::from(at)];
    let range = news_between(mark, coordinator.floor(), coordinator.end());
    cut_cause(&session.world, at, range)
}

// Why a cut of the own news would be refused, if there are any.
fn own_news_cause(session: &Session, at: u8) -> Option<Refusal>
    ensures { (k : Following) → SessionAt session.now k → IsVerdict
        (CutRefused k at (own_news_of (own_mark_at k at) (with_number k.world.replicas at))) result }
{
    let Some(coordinator) = session.world.numbered(at) else {
        return Some(Refusal::NoCoordinator);
    };
    let news = own_news_since(coordinator, session.own_marks[usize::from(at)]);
    match news.range {
        Some(range) => cut_cause(&session.world, at, range),
        None => None,
    }
}

// Why the packet that the digits encode would not be merged.
fn packet_cause(session: &Session, at: u8, digits: &str) -> Result<Option<Refusal>, Refusal>
    ensures ok { (k : Following) → SessionAt session.now k
        → IfOk result (IsVerdict (RefusesAt k (Takes at digits.now))) }
    ensures err { IsOkUnless result Refusal.OutOfMemory }
{
    match packet_fault(session.alloc, digits.as_bytes())? {
        Some(refusal) => Ok(Some(refusal)),
        None => Ok(entry_cause(&session.world, at)),
    }
}

// Why a question would not be answered.
fn question_cause(session: &Session, at: u8, question: Question) -> Result<Option<Refusal>, Refusal>
    ensures ok { (k : Following) → SessionAt session.now k
        → IfOk result (IsVerdict (RefusesAt k (Asks at question))) }
    ensures err { IsOkUnless result Refusal.OutOfMemory }
{
    let Some(coordinator) = session.world.numbered(at) else {
        return Ok(Some(Refusal::NoCoordinator));
    };
    match question {
        Question::Next(subject) => next_cause(session.alloc, coordinator.knowledge(), subject),
        _ => Ok(None),
    }
}

// Why there is no next version or attempt.
fn next_cause(
    alloc: Global,
    knowledge: &Knowledge,
    subject: Subject,
) -> Result<Option<Refusal>, Refusal>
    ensures ok { IfOk result (IsVerdict (IsNoNext knowledge.now subject)) }
    ensures err { IsOkUnless result Refusal.OutOfMemory }
{
    match next_text(alloc, knowledge, subject) {
        Ok(_) => Ok(None),
        Err(Refusal::OutOfMemory) => Err(Refusal::OutOfMemory),
        Err(refusal) => Ok(Some(refusal)),
    }
}

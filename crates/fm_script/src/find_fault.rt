//! The first fault of a script, found without running it.
//!
//! A value that is no step is looked at again, member by member, to say what is wanted there.

ghost use Rattle.std.specs.Prelude.{◌≡◌, IfOk, Some, [], codes, is_some, map, not, option_map};
ghost use Rattle.std.specs.Option.{option_or};
ghost use Rattle.serde_json.specs.View.{view};
ghost use Rattle.fm_records.specs.declared.ops.Field.{Field};
ghost use Rattle.fm_records.specs.Ops.{op_fault};
ghost use Rattle.fm_records.specs.Options.{when};
ghost use Rattle.fm_script.specs.Json.{bind, id_at, text_at};
ghost use Rattle.fm_script.specs.Script.{phase_named};
ghost use Rattle.fm_script.specs.ScriptFaults.{IsFirstFault, value_fault, first_at_fault, refused_of, step_form, act_form, cut_form, op_form, lacks, fields_of, first_lacking, step_refused, act_refused};
ghost use Rattle.fm_script.specs.declared.script_fault.OpKind.TheVariants as kind;

use crate::coordinators::is_listed;
use crate::names::Names;
use crate::parse_script::{
    coordinators_in, delivery_in, flag_in, is_object_of, items_in, keep_name, number_8_in,
    number_32_in, number_in, phase_in, prefer_in, range_in, relief_in, round_in, step_in, text_in,
};
use crate::script::{ScriptAct, ScriptStep};
use crate::script_fault::{CutFault, FieldName, OpKind, ScriptFault, StepFault, TellFault};
use fm_lattice::join::OutOfMemory;
use fm_records::ids::{CoordId, JobId};
use fm_records::ops::Op;
use fm_records::refusal::Refusal;
use serde_json::Value;
use std::alloc::Global;

/// The first fault of the script that a JSON text is to spell, as far as it is found without running it; none if there
/// is none. A text or a step of no known form comes first, as `read_script` refuses it. Else it is the first step whose
/// coordinator is not listed, or which delivers a packet that no earlier step cuts, or which tells a field out of its
/// range. Intervals of cuts, trims and full histories are not looked at. Refused only if memory runs out.
pub fn find_fault(alloc: Global, text: &[u8]) -> Result<Option<ScriptFault>, OutOfMemory>
    ensures { IfOk result (λ fault. IsFirstFault text.now fault) }
{
    match Value::from_slice(alloc, text) {
        Ok(value) => fault_in(alloc, &value),
        Err(error) if error.is_memory() => Err(OutOfMemory),
        Err(_) => Ok(Some(ScriptFault::NoJson)),
    }
}

// The first fault of a value.
fn fault_in(alloc: Global, value: &Value) -> Result<Option<ScriptFault>, OutOfMemory>
    ensures { IfOk result (λ fault. fault ≡ value_fault (view value.now)) }
{
    let Some(listed) = items_in(value, "coordinators") else {
        return Ok(Some(ScriptFault::Coordinators));
    };
    let Some(coordinators) = coordinators_in(alloc, listed)? else {
        return Ok(Some(ScriptFault::Coordinators));
    };
    let Some(items) = items_in(value, "steps") else {
        return Ok(Some(ScriptFault::Steps));
    };
    fault_of_steps(alloc, &coordinators, items)
}

// The first item that is no step; or else the first that asks for what it cannot get.
fn fault_of_steps(
    alloc: Global,
    listed: &[CoordId],
    items: &[Value],
) -> Result<Option<ScriptFault>, OutOfMemory>
    ensures { IfOk result (λ fault. fault ≡ option_or
        (first_at_fault step_form [] 1 (map view items.now))
        (first_at_fault (refused_of listed.now) [] 1 (map view items.now))) }
{
    let mut names = Names::new(alloc);
    let mut refused = None;
    for (place, item) in items.iter().enumerate() {
        let Some(step) = step_in(item, &names) else {
            return Ok(at_step(place + 1, step_form(item, &names)));
        };
        let here = at_step(place + 1, step_refused(listed, names.len(), &step));
        refused = refused.or(here);
        keep_name(item, &mut names)?;
    }
    Ok(refused)
}

// The fault as that of a step.
fn at_step(place: usize, fault: Option<StepFault>) -> Option<ScriptFault>
    ensures { result ≡ option_map (ScriptFault.Step place) fault }
{
    match fault {
        Some(fault) => Some(ScriptFault::Step(place, fault)),
        None => None,
    }
}

// Why a value is no step; nothing if it is one.
fn step_form(value: &Value, names: &Names) -> Option<StepFault>
    ensures { result ≡ step_form names.now (view value.now) }
{
    if !is_object_of(value, 2) {
        return Some(StepFault::Members);
    }
    if number_8_in(value, "at").is_none() {
        return Some(StepFault::At);
    }
    act_form(value, names)
}

// Why a value has nothing that happens; nothing if it has.
fn act_form(value: &Value, names: &Names) -> Option<StepFault>
    ensures { result ≡ act_form names.now (view value.now) }
{
    if let Some(cut) = value.get("cut") {
        Some(StepFault::Cut(cut_form(cut, names)?))
    } else if let Some(told) = value.get("tell") {
        Some(StepFault::Tell(op_form(told)?))
    } else if let Some(packet) = value.get("deliver") {
        unless(delivery_in(packet, names).is_some(), StepFault::Deliver)
    } else if let Some(floor) = value.get("trim") {
        unless(floor.as_u64().is_some(), StepFault::Trim)
    } else if let Some(asked) = value.get("round") {
        unless(round_in(asked).is_some(), StepFault::Round)
    } else if let Some(asked) = value.get("relieve") {
        unless(relief_in(asked).is_some(), StepFault::Relieve)
    } else {
        Some(StepFault::Act)
    }
}

// The fault, unless all is well.
fn unless(is_well: bool, fault: StepFault) -> Option<StepFault>
    ensures { result ≡ when (not is_well) fault }
{
    if is_well { None } else { Some(fault) }
}

// Why a value is no cut.
fn cut_form(cut: &Value, names: &Names) -> Option<CutFault>
    ensures { result ≡ cut_form names.now (view cut.now) }
{
    let Some(name) = text_in(cut, "name") else {
        return Some(CutFault::Name);
    };
    if range_in(cut).is_none() {
        return Some(CutFault::Range);
    }
    if names.place(name).is_some() {
        return Some(CutFault::NameTaken);
    }
    None
}

// Why a value is no operation.
fn op_form(value: &Value) -> Option<TellFault>
    ensures { result ≡ op_form (view value.now) }
{
    if !is_object_of(value, 1) {
        return Some(TellFault::Kind);
    }
    if let Some(fields) = value.get("job") {
        job_lacks(fields)
    } else if let Some(fields) = value.get("spec") {
        spec_lacks(fields)
    } else if let Some(fields) = value.get("progress") {
        progress_lacks(fields)
    } else if let Some(fields) = value.get("machine") {
        machine_lacks(fields)
    } else if let Some(fields) = value.get("report") {
        report_lacks(fields)
    } else if let Some(fields) = value.get("propose") {
        propose_lacks(fields)
    } else {
        Some(TellFault::Kind)
    }
}

// The first field that is missing or of another type, for each kind.
fn job_lacks(fields: &Value) -> Option<TellFault>
    ensures { result ≡ lacks kind.Job (view fields.now) }
{
    let lacking = first_lacking(&[
        (FieldName::Id, has_id(fields, "id")),
        (FieldName::Version, number_in(fields, "version").is_some()),
        (FieldName::Writer, number_8_in(fields, "writer").is_some()),
        (FieldName::Withdrawn, flag_in(fields, "withdrawn").is_some()),
        (FieldName::Wait, number_32_in(fields, "wait").is_some()),
        (
            FieldName::Preempt,
            number_32_in(fields, "preempt").is_some(),
        ),
    ])?;
    Some(TellFault::Lacks(OpKind::Job, lacking))
}

fn spec_lacks(fields: &Value) -> Option<TellFault>
    ensures { result ≡ lacks kind.Spec (view fields.now) }
{
    let lacking = first_lacking(&[
        (FieldName::Id, has_id(fields, "id")),
        (FieldName::Version, number_in(fields, "version").is_some()),
        (FieldName::Writer, number_8_in(fields, "writer").is_some()),
        (FieldName::Withdrawn, flag_in(fields, "withdrawn").is_some()),
        (FieldName::Job, has_id(fields, "job")),
        (
            FieldName::Request,
            number_32_in(fields, "request").is_some(),
        ),
        (FieldName::Prefer, prefer_in(fields).is_some()),
    ])?;
    Some(TellFault::Lacks(OpKind::Spec, lacking))
}

fn progress_lacks(fields: &Value) -> Option<TellFault>
    ensures { result ≡ lacks kind.Progress (view fields.now) }
{
    let lacking = first_lacking(&[
        (FieldName::Id, has_id(fields, "id")),
        (
            FieldName::Attempt,
            number_32_in(fields, "attempt").is_some(),
        ),
        (FieldName::Phase, has_phase(fields)),
    ])?;
    Some(TellFault::Lacks(OpKind::Progress, lacking))
}

fn machine_lacks(fields: &Value) -> Option<TellFault>
    ensures { result ≡ lacks kind.Machine (view fields.now) }
{
    let lacking = first_lacking(&[
        (FieldName::Id, has_id(fields, "id")),
        (
            FieldName::Incarnation,
            number_in(fields, "incarnation").is_some(),
        ),
        (FieldName::Version, number_in(fields, "version").is_some()),
        (FieldName::Writer, number_8_in(fields, "writer").is_some()),
        (FieldName::Up, flag_in(fields, "up").is_some()),
        (FieldName::Slots, number_32_in(fields, "slots").is_some()),
        (FieldName::Nic, number_32_in(fields, "nic").is_some()),
    ])?;
    Some(TellFault::Lacks(OpKind::Machine, lacking))
}

fn report_lacks(fields: &Value) -> Option<TellFault>
    ensures { result ≡ lacks kind.Report (view fields.now) }
{
    let lacking = first_lacking(&[
        (FieldName::Id, has_id(fields, "id")),
        (
            FieldName::Incarnation,
            number_in(fields, "incarnation").is_some(),
        ),
        (FieldName::Number, number_in(fields, "number").is_some()),
        (FieldName::Used, number_32_in(fields, "used").is_some()),
    ])?;
    Some(TellFault::Lacks(OpKind::Report, lacking))
}

fn propose_lacks(fields: &Value) -> Option<TellFault>
    ensures { result ≡ lacks kind.Propose (view fields.now) }
{
    let lacking = first_lacking(&[
        (FieldName::Id, has_id(fields, "id")),
        (
            FieldName::Attempt,
            number_32_in(fields, "attempt").is_some(),
        ),
        (
            FieldName::Coordinator,
            number_8_in(fields, "coordinator").is_some(),
        ),
        (FieldName::Machine, has_id(fields, "machine")),
        (
            FieldName::Incarnation,
            number_in(fields, "incarnation").is_some(),
        ),
    ])?;
    Some(TellFault::Lacks(OpKind::Propose, lacking))
}

// The first of the members that is not there.
fn first_lacking(members: &[(FieldName, bool)]) -> Option<FieldName>
    ensures { result ≡ first_lacking members.now }
{
    let ((member, is_there), rest) = members.split_first()?;
    if *is_there {
        first_lacking(rest)
    } else {
        Some(*member)
    }
}

// Whether the text in the member of the name spells an id.
fn has_id(fields: &Value, name: &str) -> bool
    ensures { result ≡ is_some (id_at name.now (view fields.now)) }
{
    match text_in(fields, name) {
        Some(text) => JobId::read(text).is_some(),
        None => false,
    }
}

// Whether the fields have a phase.
fn has_phase(fields: &Value) -> bool
    ensures { result ≡ is_some (bind (text_at (codes "phase") (view fields.now)) phase_named) }
{
    match text_in(fields, "phase") {
        Some(name) => phase_in(name).is_some(),
        None => false,
    }
}

// What a step asks for that it cannot get, behind so many cuts.
fn step_refused(listed: &[CoordId], cuts: usize, step: &ScriptStep) -> Option<StepFault>
    ensures { result ≡ step_refused listed.now cuts step.now }
{
    if is_listed(listed, step.at) {
        act_refused(cuts, &step.act)
    } else {
        Some(StepFault::NoCoordinator(step.at))
    }
}

fn act_refused(cuts: usize, act: &ScriptAct) -> Option<StepFault>
    ensures { result ≡ act_refused cuts act.now }
{
    match act {
        ScriptAct::Tell(op) => out_of_range(op),
        ScriptAct::Deliver(place) => unless(*place < cuts, StepFault::NoPacket),
        ScriptAct::Cut(_) | ScriptAct::Trim(_) | ScriptAct::Round(_) => None,
    }
}

// The first field of an operation that is out of its range.
fn out_of_range(op: &Op) -> Option<StepFault>
    ensures { result ≡ option_map StepFault.OutOfRange (op_fault op.now) }
{
    match op.check() {
        Ok(()) => None,
        Err(refusal) => field_in(refusal),
    }
}

// The field that the refusal of an operation names.
fn field_in(refusal: Refusal) -> Option<StepFault>
    ensures { (field : Field) → refusal ≡ Refusal.BadOp field → result ≡ Some (StepFault.OutOfRange field) }
{
    match refusal {
        Refusal::BadOp(field) => Some(StepFault::OutOfRange(field)),
        _ => None,
    }
}

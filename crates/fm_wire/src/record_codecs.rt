//! The values of records: registers, progress, states, reports and spots. The versions differ in what ends a spec.

ghost use Rattle.std.specs.Prelude.{◌≡◌, ◌++◌, Option, Some, OnOk, cond, true};
ghost use Rattle.fm_wire.specs.Grammar.{job, spec, optional_spec, has_of, task, phase, flag, state, report, parts, parts_of, machine, spot};
ghost use Rattle.fm_wire.specs.declared.version.Version.TheVariants.{Fdg2};
ghost use Rattle.fm_wire.specs.inner.Decoding.{DecodesTo};
ghost use Rattle.fm_wire.specs.Formats.{◌⨾◌, bytes_of, part};
ghost use Rattle.std.specs.Int.{w8};

use crate::codec::VersionedCodec;
use crate::number_codecs::{put_u8, put_u32, put_u64, put_u128, u8_at, u32_at, u64_at, u128_at};
use crate::preferences::{preferences_at, put_preferences};
use crate::version::Version;
use fm_lattice::constructors::{Both, Lex, Max, Min, Opt};
use fm_lattice::join::OutOfMemory;
use fm_records::ids::{JobId, MachineId};
use fm_records::ops::{MOST_BANDWIDTH, MOST_PRICE, MOST_SLOTS, Phase};
use fm_records::records::{
    JobReg, MachineRec, MachineReg, Progress, Report, SpecReg, Spot, TaskRec,
};

// What may be known of a machine at its incarnation: its state, and its report.
pub(crate) type Parts = Both<Opt<Max<MachineReg>>, Opt<Max<Report>>>;

const GREATEST_COORDINATOR: u8 = 64;

#[tactic(auto, unfolding(crate::specs::Grammar::job))]
impl VersionedCodec for Max<JobReg> {
    ghost format = { λ _. job };

    fn put(&self, out: &mut Vec<u8>) -> Result<(), OutOfMemory> {
        let job = &self.0;
        put_u64(out, job.version)?;
        put_u8(out, job.writer)?;
        put_flag(out, job.withdrawn)?;
        put_u32(out, job.wait)?;
        put_u32(out, job.preempt)
    }

    fn at(_: Version, bytes: &[u8]) -> Result<(Max<JobReg>, &[u8]), usize> {
        let (version, rest) = u64_at(bytes)?;
        let (writer, rest) = u8_at(rest, 1, GREATEST_COORDINATOR)?;
        let (withdrawn, rest) = flag_at(rest)?;
        let (wait, rest) = u32_at(rest, 0, MOST_PRICE)?;
        let (preempt, rest) = u32_at(rest, 0, MOST_PRICE)?;
        let job = JobReg {
            version,
            writer,
            withdrawn,
            wait,
            preempt,
        };
        Ok((Max(job), rest))
    }
}

#[tactic(auto, unfolding(crate::specs::Grammar::task))]
impl VersionedCodec for TaskRec {
    ghost format = { task };

    fn put(&self, out: &mut Vec<u8>) -> Result<(), OutOfMemory> {
        let progress = &self.1.0;
        put_u32(out, progress.attempt)?;
        put_u8(out, progress.phase as u8)?;
        put_optional_spec(out, &self.0.0)
    }

    fn at(version: Version, bytes: &[u8]) -> Result<(TaskRec, &[u8]), usize> {
        let (attempt, rest) = u32_at(bytes, 0, u32::MAX)?;
        let (phase, rest) = phase_at(rest)?;
        match optional_spec_at(version, rest) {
            Ok((spec, rest)) => Ok((Both(Opt(spec), Max(Progress { attempt, phase })), rest)),
            Err(left) => Err(left),
        }
    }
}

#[tactic(auto, unfolding(crate::specs::Grammar::machine))]
impl VersionedCodec for MachineRec {
    ghost format = { λ _. machine };

    fn put(&self, out: &mut Vec<u8>) -> Result<(), OutOfMemory> {
        put_u64(out, self.0)?;
        put_parts(out, &self.1)
    }

    fn at(_: Version, bytes: &[u8]) -> Result<(MachineRec, &[u8]), usize> {
        let (incarnation, rest) = u64_at(bytes)?;
        match parts_at(rest) {
            Ok((parts, rest)) => Ok((Lex(incarnation, parts), rest)),
            Err(left) => Err(left),
        }
    }
}

#[tactic(auto, unfolding(crate::specs::Grammar::spot))]
impl VersionedCodec for Min<Spot> {
    ghost format = { λ _. spot };

    fn put(&self, out: &mut Vec<u8>) -> Result<(), OutOfMemory> {
        put_u128(out, self.0.machine.value())?;
        put_u64(out, self.0.incarnation)
    }

    fn at(_: Version, bytes: &[u8]) -> Result<(Min<Spot>, &[u8]), usize> {
        let (machine, rest) = u128_at(bytes)?;
        let (incarnation, rest) = u64_at(rest)?;
        let spot = Spot {
            machine: MachineId::new(machine),
            incarnation,
        };
        Ok((Min(spot), rest))
    }
}

// Adds a byte that is 1 and the spec, or a byte that is 0 if there is none.
#[tactic(auto, unfolding(crate::specs::Grammar::optional_spec))]
fn put_optional_spec(out: &mut Vec<u8>, spec: &Option<Max<SpecReg>>) -> Result<(), OutOfMemory>
    ensures { OnOk result (out.new.items ≡ out.old.items ++ (optional_spec Fdg2).spell spec.now) }
{
    match spec {
        None => put_u8(out, 0),
        Some(spec) => {
            put_u8(out, 1)?;
            put_spec(out, &spec.0)
        }
    }
}

// The spec, if a byte says that it follows.
#[tactic(auto, unfolding(crate::specs::Grammar::optional_spec))]
fn optional_spec_at(version: Version, bytes: &[u8]) -> Result<(Option<Max<SpecReg>>, &[u8]), usize>
    ensures { DecodesTo (λ x. (x.0, x.1.now)) result ((optional_spec version).read bytes.now) }
{
    let (has, rest) = u8_at(bytes, 0, 1)?;
    if has == 0 {
        return Ok((None, rest));
    }
    match spec_at(version, rest) {
        Ok((spec, rest)) => Ok((Some(Max(spec)), rest)),
        Err(left) => Err(left),
    }
}

// Adds the spelling of the spec.
#[tactic(auto, unfolding(crate::specs::Grammar::spec))]
fn put_spec(out: &mut Vec<u8>, register: &SpecReg) -> Result<(), OutOfMemory>
    ensures { OnOk result (out.new.items ≡ out.old.items ++ (spec Fdg2).spell register.now) }
{
    put_u64(out, register.version)?;
    put_u8(out, register.writer)?;
    put_flag(out, register.withdrawn)?;
    put_u128(out, register.job.value())?;
    put_u32(out, register.request)?;
    put_preferences(out, &register.prefer)
}

// The spec that the version spells at the front.
#[tactic(auto, unfolding(crate::specs::Grammar::spec))]
fn spec_at(version: Version, bytes: &[u8]) -> Result<(SpecReg, &[u8]), usize>
    ensures { DecodesTo (λ x. (x.0, x.1.now)) result ((spec version).read bytes.now) }
{
    let (number, rest) = u64_at(bytes)?;
    let (writer, rest) = u8_at(rest, 1, GREATEST_COORDINATOR)?;
    let (withdrawn, rest) = flag_at(rest)?;
    let (job, rest) = u128_at(rest)?;
    let (request, rest) = u32_at(rest, 0, MOST_BANDWIDTH)?;
    match preferences_at(version, rest) {
        Ok((prefer, rest)) => {
            let spec = SpecReg {
                version: number,
                writer,
                withdrawn,
                job: JobId::new(job),
                request,
                prefer,
            };
            Ok((spec, rest))
        }
        Err(left) => Err(left),
    }
}

// Adds a byte that says which of state and report are there, and then these.
#[tactic(auto, unfolding(crate::specs::Grammar::parts))]
fn put_parts(out: &mut Vec<u8>, known: &Parts) -> Result<(), OutOfMemory>
    ensures { OnOk result (out.new.items ≡ out.old.items ++ parts.spell known.now) }
{
    match (&known.0.0, &known.1.0) {
        (None, None) => put_u8(out, 0),
        (Some(state), None) => {
            put_u8(out, 1)?;
            put_state(out, &state.0)
        }
        (None, Some(report)) => {
            put_u8(out, 2)?;
            put_report(out, &report.0)
        }
        (Some(state), Some(report)) => put_both(out, &state.0, &report.0),
    }
}

// Adds the byte that says that both are there, and both.
#[tactic(auto, unfolding(crate::specs::Grammar::parts))]
fn put_both(
    out: &mut Vec<u8>,
    state_register: &MachineReg,
    report_register: &Report,
) -> Result<(), OutOfMemory>
    ensures { OnOk result (out.new.items ≡ out.old.items
        ++ parts.spell (Some state_register.now, Some report_register.now)) }
{
    put_u8(out, 3)?;
    put_state(out, state_register)?;
    put_report(out, report_register)
}

// The state, the report, or both, after a byte that says which follow.
#[tactic(auto, unfolding(crate::specs::Grammar::parts))]
fn parts_at(bytes: &[u8]) -> Result<(Parts, &[u8]), usize>
    ensures { DecodesTo (λ x. (x.0, x.1.now)) result (parts.read bytes.now) }
{
    let (parts, rest) = u8_at(bytes, 1, 3)?;
    match parts {
        1 => {
            let (state, rest) = state_at(rest)?;
            Ok((Both(Opt(Some(Max(state))), Opt(None)), rest))
        }
        2 => {
            let (report, rest) = report_at(rest)?;
            Ok((Both(Opt(None), Opt(Some(Max(report)))), rest))
        }
        _ => both_at(rest),
    }
}

// The state and the report.
#[tactic(auto, unfolding(crate::specs::Grammar::parts))]
fn both_at(bytes: &[u8]) -> Result<(Parts, &[u8]), usize>
    ensures { DecodesTo (λ x. (x.0, x.1.now)) result ((part true state ⨾ part true report).read bytes.now) }
{
    let (state, rest) = state_at(bytes)?;
    let (report, rest) = report_at(rest)?;
    Ok((Both(Opt(Some(Max(state))), Opt(Some(Max(report)))), rest))
}

// Adds the spelling of the state.
#[tactic(auto, unfolding(crate::specs::Grammar::state))]
fn put_state(out: &mut Vec<u8>, register: &MachineReg) -> Result<(), OutOfMemory>
    ensures { OnOk result (out.new.items ≡ out.old.items ++ state.spell register.now) }
{
    put_u64(out, register.version)?;
    put_u8(out, register.writer)?;
    put_flag(out, register.up)?;
    put_u32(out, register.slots)?;
    put_u32(out, register.nic)
}

// The state at the front.
#[tactic(auto, unfolding(crate::specs::Grammar::state))]
fn state_at(bytes: &[u8]) -> Result<(MachineReg, &[u8]), usize>
    ensures { DecodesTo (λ x. (x.0, x.1.now)) result (state.read bytes.now) }
{
    let (version, rest) = u64_at(bytes)?;
    let (writer, rest) = u8_at(rest, 1, GREATEST_COORDINATOR)?;
    let (up, rest) = flag_at(rest)?;
    let (slots, rest) = u32_at(rest, 1, MOST_SLOTS)?;
    let (nic, rest) = u32_at(rest, 0, MOST_BANDWIDTH)?;
    let state = MachineReg {
        version,
        writer,
        up,
        slots,
        nic,
    };
    Ok((state, rest))
}

// Adds the spelling of the report.
#[tactic(auto, unfolding(crate::specs::Grammar::report))]
fn put_report(out: &mut Vec<u8>, register: &Report) -> Result<(), OutOfMemory>
    ensures { OnOk result (out.new.items ≡ out.old.items ++ report.spell register.now) }
{
    put_u64(out, register.number)?;
    put_u32(out, register.used)
}

// The report at the front.
#[tactic(auto, unfolding(crate::specs::Grammar::report))]
fn report_at(bytes: &[u8]) -> Result<(Report, &[u8]), usize>
    ensures { DecodesTo (λ x. (x.0, x.1.now)) result (report.read bytes.now) }
{
    let (number, rest) = u64_at(bytes)?;
    let (used, rest) = u32_at(rest, 0, MOST_PRICE)?;
    Ok((Report { number, used }, rest))
}

// Adds a byte, 1 if the flag is set and else 0.
fn put_flag(out: &mut Vec<u8>, flag: bool) -> Result<(), OutOfMemory>
    ensures { OnOk result (out.new.items ≡ out.old.items ++ bytes_of w8 (cond flag 1 0)) }
{
    put_u8(out, flag as u8)
}

// The flag of one byte.
fn flag_at(bytes: &[u8]) -> Result<(bool, &[u8]), usize>
    ensures { DecodesTo (λ x. (x.0, x.1.now)) result (flag.read bytes.now) }
{
    let (flag, rest) = u8_at(bytes, 0, 1)?;
    Ok((flag == 1, rest))
}

// The phase of one byte.
fn phase_at(bytes: &[u8]) -> Result<(Phase, &[u8]), usize>
    ensures { DecodesTo (λ x. (x.0, x.1.now)) result (phase.read bytes.now) }
{
    let (phase, rest) = u8_at(bytes, 0, 2)?;
    match phase {
        0 => Ok((Phase::Pending, rest)),
        1 => Ok((Phase::Running, rest)),
        _ => Ok((Phase::Done, rest)),
    }
}

//! Ids, operations with their ranges, records with their orders, and refusals.

use crate::samples::{JOB, MACHINE, PROGRESS, PROPOSAL, REPORT, TASK};
use fm_lattice::constructors::{Both, Lex, Max, Min, Opt};
use fm_lattice::join::{Join, OutOfMemory};
use fm_lattice::map::JoinMap;
use fm_records::ids::{CoordId, JobId, MachineId, TaskId};
use fm_records::laws::{self, order, record_equality};
use fm_records::ops::{Field, Op, Phase};
use fm_records::prefer::Prefer;
use fm_records::records::{
    JobReg, MachineRec, MachineReg, Progress, Proposals, Report, SpecReg, Spot,
};
use fm_records::refusal::Refusal;
use std::alloc::{AllocError, Global};
use std::cmp::Ordering;
use std::test::Fail;

// Operations whose fields the tables below have in columns.

fn job(writer: u8, wait: u32, preempt: u32) -> Op {
    JOB.writer(writer).wait(wait).preempt(preempt).op()
}

fn spec(writer: u8, request: u32) -> Op {
    TASK.writer(writer).request(request).op()
}

fn preferring(writer: u8, request: u32, machines: &[(MachineId, u32)]) -> Op {
    TASK.writer(writer).request(request).prefer(machines).op()
}

fn machine_with(machine: u128, credit: u32) -> (MachineId, u32) {
    (MachineId::new(machine), credit)
}

fn progress(attempt: u32, phase: Phase) -> Op {
    PROGRESS.attempt(attempt).phase(phase).op()
}

fn machine(writer: u8, slots: u32, nic: u32) -> Op {
    MACHINE.writer(writer).slots(slots).nic(nic).op()
}

fn report(used: u32) -> Op {
    REPORT.number(3).used(used).op()
}

fn propose(coordinator: u8) -> Op {
    PROPOSAL.coordinator(coordinator).op()
}

#[test]
fn fields_within_their_ranges_are_taken(rt: HostRuntime) {
    for op in [
        job(1, 0, 0),
        job(64, 1_000_000_000, 1_000_000_000),
        spec(1, 0),
        spec(64, 1_000_000),
        preferring(
            1,
            100,
            &[
                machine_with(0, 0),
                machine_with(10, 1_000_000_000),
                machine_with(11, 1),
                machine_with(u128::MAX, 1),
            ],
        ),
        progress(0, Phase::Pending),
        progress(u32::MAX, Phase::Done),
        machine(1, 1, 0),
        machine(64, 1_000, 1_000_000),
        report(0),
        report(1_000_000_000),
        propose(1),
        propose(64),
    ] {
        assert_eq!(rt; op.check(), Ok(()), "at {op:?}");
    }
}

#[test]
fn the_first_field_out_of_range_is_named(rt: HostRuntime) {
    for (op, field) in [
        (job(0, 500, 800), Field::Writer),
        (job(65, 1_000_000_001, 800), Field::Writer),
        (job(1, 1_000_000_001, 1_000_000_001), Field::Wait),
        (job(1, 500, 1_000_000_001), Field::Preempt),
        (spec(0, 100), Field::Writer),
        (spec(65, 1_000_001), Field::Writer),
        (spec(1, 1_000_001), Field::Request),
        (
            preferring(1, 1_000_001, &[machine_with(11, 1), machine_with(10, 1)]),
            Field::Request,
        ),
        (
            preferring(1, 100, &[machine_with(11, 1), machine_with(10, 1)]),
            Field::Prefer,
        ),
        (
            preferring(1, 100, &[machine_with(10, 1), machine_with(10, 2)]),
            Field::Prefer,
        ),
        (
            preferring(1, 100, &[machine_with(10, 1_000_000_001)]),
            Field::Prefer,
        ),
        (machine(0, 0, 1000), Field::Writer),
        (machine(65, 2, 1000), Field::Writer),
        (machine(1, 0, 1_000_001), Field::Slots),
        (machine(1, 1_001, 1000), Field::Slots),
        (machine(1, 2, 1_000_001), Field::Nic),
        (report(1_000_000_001), Field::Used),
        (propose(0), Field::Coordinator),
        (propose(65), Field::Coordinator),
    ] {
        assert_eq!(rt; op.check(), Err(Refusal::BadOp(field)), "at {op:?}");
    }
}

#[test]
fn coordinators_are_numbered_from_1_to_64(rt: HostRuntime) {
    assert_eq!(rt; CoordId::new(0), None);
    assert_eq!(rt; CoordId::new(1).map(|c| c.value()), Some(1));
    assert_eq!(rt; CoordId::new(64).map(|c| c.value()), Some(64));
    assert_eq!(rt; CoordId::new(65), None);
}

// Whether the text is read as this number, of whatever it is.
fn is_read(text: &str, number: u128) -> bool {
    JobId::read(text) == Some(JobId::new(number))
        && TaskId::read(text) == Some(TaskId::new(number))
        && MachineId::read(text) == Some(MachineId::new(number))
}

fn is_no_id(text: &str) -> bool {
    JobId::read(text).is_none() && TaskId::read(text).is_none() && MachineId::read(text).is_none()
}

#[test]
fn ids_are_read_in_every_form(rt: HostRuntime) -> Result<(), Fail> {
    let number = 0x00112233_4455_6677_8899_aabbccddeeff;
    for text in [
        "00112233-4455-6677-8899-aabbccddeeff",
        "00112233-4455-6677-8899-AABBCCDDEEFF",
        "00112233445566778899aabbccddeeff",
        "{00112233-4455-6677-8899-aabbccddeeff}",
        "urn:uuid:00112233-4455-6677-8899-aabbccddeeff",
    ] {
        assert!(rt; is_read(text, number), "at {text}");
    }
    for text in [
        "",
        "0",
        "00112233-4455-6677-8899-aabbccddeef",
        "00112233-4455-6677-8899-aabbccddeefff",
        "00112233-4455-6677-8899-aabbccddeefg",
        "00112233-4455-6677-88990-aabbccddeef",
        "00112233 4455-6677-8899-aabbccddeeff",
        " 00112233-4455-6677-8899-aabbccddeeff",
        "00112233-4455-6677-8899-aabbccddeeff\n",
        "{00112233-4455-6677-8899-aabbccddeeff",
        "(00112233-4455-6677-8899-aabbccddeeff)",
        "uuid:00112233-4455-6677-8899-aabbccddeeff",
    ] {
        assert!(rt; is_no_id(text), "at {text}");
    }
    Ok(())
}

#[test]
fn the_text_of_an_id_is_lower_case_with_hyphens(rt: HostRuntime) -> Result<(), Fail> {
    let alloc = rt.alloc();
    assert_eq!(rt;
        JobId::new(1).text(alloc)?.as_str(),
        "00000000-0000-0000-0000-000000000001"
    );
    assert_eq!(rt;
        TaskId::new(u128::MAX).text(alloc)?.as_str(),
        "ffffffff-ffff-ffff-ffff-ffffffffffff"
    );
    let id = MachineId::new(0xABCDEF01_2345_6789_ABCD_EF0123456789);
    assert_eq!(rt;
        id.text(alloc)?.as_str(),
        "abcdef01-2345-6789-abcd-ef0123456789"
    );
    assert_eq!(rt; JobId::new(7).value(), 7);
    assert_eq!(rt; TaskId::new(8).value(), 8);
    assert_eq!(rt; id.value(), 0xABCDEF01_2345_6789_ABCD_EF0123456789);
    Ok(())
}

fn is_job(op: &Op, register: JobReg) -> bool {
    JobReg::of(op) == Some(register)
}

fn is_spec(op: &Op, register: SpecReg) -> bool {
    SpecReg::of(op) == Some(register)
}

fn is_progress(op: &Op, progress: Progress) -> bool {
    Progress::of(op) == Some(progress)
}

fn is_machine(op: &Op, register: MachineReg) -> bool {
    MachineReg::of(op) == Some(register)
}

fn is_report(op: &Op, report: Report) -> bool {
    Report::of(op) == Some(report)
}

fn is_spot(op: &Op, spot: Spot) -> bool {
    Spot::of(op) == Some(spot)
}

#[test]
fn records_hold_the_fields_of_their_operation(rt: HostRuntime) {
    let sent = Report {
        number: 3,
        used: 950,
    };
    assert!(rt; is_job(&job(2, 500, 800), job_register(1, 2, false, 500, 800)));
    assert!(rt; is_spec(&spec(3, 100), spec_register(1, 3, false, 1, 100)));
    assert!(rt;
        is_progress(
            &progress(4, Phase::Running),
            Progress::new(4, Phase::Running)
        )
    );
    assert!(rt; is_machine(&machine(5, 2, 1000), machine_register(1, 5, true, 2, 1000)));
    assert!(rt; is_report(&report(950), sent));
    assert!(rt; is_spot(&propose(1), spot(10, 1)));
}

fn has_record(op: &Op) -> [bool; 6] {
    [
        JobReg::of(op).is_some(),
        SpecReg::of(op).is_some(),
        Progress::of(op).is_some(),
        MachineReg::of(op).is_some(),
        Report::of(op).is_some(),
        Spot::of(op).is_some(),
    ]
}

#[test]
fn an_operation_gives_the_record_of_its_kind_alone(rt: HostRuntime) {
    for (op, want) in [
        (job(1, 500, 800), [true, false, false, false, false, false]),
        (spec(1, 100), [false, true, false, false, false, false]),
        (
            progress(0, Phase::Pending),
            [false, false, true, false, false, false],
        ),
        (
            machine(1, 2, 1000),
            [false, false, false, true, false, false],
        ),
        (report(950), [false, false, false, false, true, false]),
        (propose(1), [false, false, false, false, false, true]),
    ] {
        assert_eq!(rt; has_record(&op), want, "at {op:?}");
    }
}

#[test]
fn a_refused_operation_gives_no_record(rt: HostRuntime) {
    for op in [
        job(0, 500, 800),
        spec(0, 100),
        machine(0, 2, 1000),
        report(1_000_000_001),
        propose(0),
    ] {
        assert_eq!(rt; has_record(&op), [false; 6], "at {op:?}");
    }
}

fn job_register(version: u64, writer: u8, withdrawn: bool, wait: u32, preempt: u32) -> JobReg {
    JobReg {
        version,
        writer,
        withdrawn,
        wait,
        preempt,
    }
}

fn spec_register(version: u64, writer: u8, withdrawn: bool, job: u128, request: u32) -> SpecReg {
    SpecReg {
        version,
        writer,
        withdrawn,
        job: JobId::new(job),
        request,
        prefer: Prefer::default(),
    }
}

fn spec_preferring(machines: &[(MachineId, u32)]) -> SpecReg {
    let mut spec = spec_register(2, 2, true, 2, 2);
    spec.prefer = Prefer::new(machines).unwrap_or_default();
    spec
}

fn machine_register(version: u64, writer: u8, up: bool, slots: u32, nic: u32) -> MachineReg {
    MachineReg {
        version,
        writer,
        up,
        slots,
        nic,
    }
}

fn spot(machine: u128, incarnation: u64) -> Spot {
    Spot {
        machine: MachineId::new(machine),
        incarnation,
    }
}

// Each of a table is less than the next, by one field that those before it leave equal.
#[test]
fn registers_of_jobs_are_ordered_by_their_fields(rt: HostRuntime) {
    for pair in [
        job_register(1, 9, true, 9, 9),
        job_register(2, 1, true, 9, 9),
        job_register(2, 2, false, 9, 9),
        job_register(2, 2, true, 1, 9),
        job_register(2, 2, true, 2, 1),
        job_register(2, 2, true, 2, 2),
    ]
    .windows(2)
    {
        assert_eq!(rt; order::job_registers(&pair[0], &pair[1]), Ordering::Less);
        assert_eq!(rt; order::job_registers(&pair[1], &pair[0]), Ordering::Greater);
    }
}

#[test]
fn specs_are_ordered_by_their_fields(rt: HostRuntime) {
    for pair in [
        spec_register(1, 9, true, 9, 9),
        spec_register(2, 1, true, 9, 9),
        spec_register(2, 2, false, 9, 9),
        spec_register(2, 2, true, 1, 9),
        spec_register(2, 2, true, 2, 1),
        spec_register(2, 2, true, 2, 2),
        spec_preferring(&[machine_with(10, 1)]),
        spec_preferring(&[machine_with(10, 1), machine_with(11, 1)]),
        spec_preferring(&[machine_with(10, 2)]),
        spec_preferring(&[machine_with(11, 0)]),
    ]
    .windows(2)
    {
        assert_eq!(rt; order::specs(&pair[0], &pair[1]), Ordering::Less);
        assert_eq!(rt; order::specs(&pair[1], &pair[0]), Ordering::Greater);
    }
}

#[test]
fn a_row_takes_four_machines(rt: HostRuntime) {
    let five = [
        machine_with(1, 5),
        machine_with(2, 4),
        machine_with(3, 3),
        machine_with(4, 2),
        machine_with(5, 1),
    ];
    assert_eq!(rt; Prefer::new(&five), None);
    for count in 0..5 {
        let prefer = Prefer::new(&five[..count]).unwrap_or_default();
        assert_eq!(rt; prefer.entries(), &five[..count]);
        assert_eq!(rt; spec_preferring(&five[..count]).prefer(), prefer);
        assert!(rt; record_equality::preferences(&prefer, &prefer));
    }
    let (some, more) = (Prefer::new(&five[..1]), Prefer::new(&five[..2]));
    if let (Some(some), Some(more)) = (some, more) {
        assert!(rt; !record_equality::preferences(&some, &more));
        assert_eq!(rt; order::preferences(&some, &more), Ordering::Less);
        assert_eq!(rt; order::preferences(&more, &some), Ordering::Greater);
    }
}

#[test]
fn states_of_machines_are_ordered_by_their_fields(rt: HostRuntime) {
    for pair in [
        machine_register(1, 9, true, 9, 9),
        machine_register(2, 1, true, 9, 9),
        machine_register(2, 2, false, 9, 9),
        machine_register(2, 2, true, 1, 9),
        machine_register(2, 2, true, 2, 1),
        machine_register(2, 2, true, 2, 2),
    ]
    .windows(2)
    {
        assert_eq!(rt;
            order::machine_registers(&pair[0], &pair[1]),
            Ordering::Less
        );
        assert_eq!(rt;
            order::machine_registers(&pair[1], &pair[0]),
            Ordering::Greater
        );
    }
}

#[test]
fn a_later_attempt_is_above_one_that_is_done(rt: HostRuntime) {
    for pair in [
        Progress::new(0, Phase::Done),
        Progress::new(1, Phase::Pending),
        Progress::new(1, Phase::Running),
        Progress::new(1, Phase::Done),
    ]
    .windows(2)
    {
        assert_eq!(rt; order::progresses(&pair[0], &pair[1]), Ordering::Less);
        assert_eq!(rt; order::progresses(&pair[1], &pair[0]), Ordering::Greater);
    }
}

#[test]
fn reports_and_spots_are_ordered_by_their_fields(rt: HostRuntime) {
    let report = |number, used| Report { number, used };
    assert_eq!(rt;
        order::reports(&report(2, 950), &report(3, 0)),
        Ordering::Less
    );
    assert_eq!(rt;
        order::reports(&report(3, 1), &report(3, 0)),
        Ordering::Greater
    );
    assert_eq!(rt; order::spots(&spot(10, 9), &spot(11, 1)), Ordering::Less);
    assert_eq!(rt; order::spots(&spot(11, 2), &spot(11, 1)), Ordering::Greater);
    assert_eq!(rt;
        order::job_ids(&JobId::new(9), &JobId::new(1 << 100)),
        Ordering::Less
    );
}

#[test]
fn equality_tells_values_apart(rt: HostRuntime) {
    assert!(rt; record_equality::ops(&job(1, 500, 800), &job(1, 500, 800)));
    assert!(rt; !record_equality::ops(&job(1, 500, 800), &job(1, 500, 801)));
    assert!(rt; record_equality::refusals(&Refusal::Trimmed(2), &Refusal::Trimmed(2)));
    assert!(rt; !record_equality::refusals(&Refusal::Trimmed(2), &Refusal::BadPacket(2)));
}

fn is_said(alloc: Global, refusal: Refusal, number: u32, text: &str) -> Result<bool, Fail> {
    let said = refusal.to_string(alloc)?;
    Ok(refusal.number() == number && said.as_str() == text)
}

#[test]
fn refusals_have_numbers_and_texts(rt: HostRuntime) -> Result<(), Fail> {
    for (number, refusal, text) in [
        (1, Refusal::OutOfMemory, "there is not enough memory"),
        (
            2,
            Refusal::BadOp(Field::Wait),
            "the operation's field wait is out of its range",
        ),
        (3, Refusal::HistoryFull, "the history is full"),
        (4, Refusal::BadInterval, "the buffer has no such interval"),
        (5, Refusal::Trimmed(2), "the buffer is trimmed up to 2"),
        (
            6,
            Refusal::BadPacket(55),
            "the bytes are no packet: see byte 55",
        ),
        (7, Refusal::Uncertified, "the flow is not certified"),
        (
            8,
            Refusal::NoCoordinator,
            "there is no coordinator of this number",
        ),
        (9, Refusal::NoPacket, "there is no such packet"),
        (10, Refusal::InboxFull, "the inbox is full"),
        (11, Refusal::InboxEmpty, "the inbox is empty"),
        (
            12,
            Refusal::Stuck,
            "the logs cannot be gathered into one order",
        ),
        (13, Refusal::NotMine(1), "seat 1 does not match"),
        (14, Refusal::VersionsSpent, "there is no greater version"),
        (15, Refusal::AttemptsSpent, "there is no later attempt"),
        (16, Refusal::BadScript(4), "the script is wrong at step 4"),
        (17, Refusal::WriteFault, "the output could not be written"),
        (
            18,
            Refusal::BadDimacs(13),
            "the network is wrong at line 13",
        ),
    ] {
        assert!(rt; is_said(rt.alloc(), refusal, number, text)?, "{text}");
    }
    Ok(())
}

#[test]
fn want_of_memory_is_a_refusal(rt: HostRuntime) {
    assert_eq!(rt; Refusal::from(OutOfMemory), Refusal::OutOfMemory);
    assert_eq!(rt; Refusal::from(AllocError), Refusal::OutOfMemory);
}

fn is_named(alloc: Global, field: Field, name: &str) -> Result<bool, Fail> {
    let said = field.to_string(alloc)?;
    Ok(said.as_str() == name)
}

#[test]
fn fields_have_names(rt: HostRuntime) -> Result<(), Fail> {
    for (field, name) in [
        (Field::Writer, "writer"),
        (Field::Wait, "wait"),
        (Field::Preempt, "preempt"),
        (Field::Request, "request"),
        (Field::Prefer, "prefer"),
        (Field::Slots, "slots"),
        (Field::Nic, "nic"),
        (Field::Used, "used"),
        (Field::Coordinator, "coordinator"),
    ] {
        assert!(rt; is_named(rt.alloc(), field, name)?, "{name}");
    }
    Ok(())
}

// The join of three. It has no contract, as the functions below: the tests are of what is answered, and proofs of them stay short.
fn joined<T: Join>(a: &T, b: &T, c: &T) -> Result<T, Fail> {
    let two = a.joined(b)?;
    Ok(two.joined(c)?)
}

// Whether the three are below what they come to, which is not below the second.
fn are_below<T: Join>(a: &T, b: &T, c: &T, all: &T) -> bool {
    a.leq(all) && b.leq(all) && c.leq(all) && !all.leq(b)
}

fn spots(alloc: Global, coordinator: CoordId, machine: u128) -> Result<Spots, Fail> {
    let mut spots = JoinMap::new(alloc);
    spots.put(coordinator, Min(spot(machine, 1)))?;
    Ok(spots)
}

type Spots = JoinMap<CoordId, Min<Spot>>;

fn proposals(alloc: Global, coordinator: CoordId, machine: u128) -> Result<Proposals, Fail> {
    let spots = spots(alloc, coordinator, machine)?;
    let mut proposals = JoinMap::new(alloc);
    proposals.put((TaskId::new(17), 0), spots)?;
    Ok(proposals)
}

// The machine at which the coordinator would run the task.
fn machine_of(proposals: &Proposals, coordinator: CoordId) -> Option<u128> {
    let spots = proposals.get(&(TaskId::new(17), 0))?;
    let spot = spots.get(&coordinator)?;
    Some(spot.0.machine.value())
}

fn cite_proposals(a: &Proposals, b: &Proposals, c: &Proposals) {
    laws::law_proposals(a, b, c);
}

#[test]
fn the_laws_of_join_hold_of_proposals(rt: HostRuntime) -> Result<(), Fail> {
    if let (Some(one), Some(two)) = (CoordId::new(1), CoordId::new(2)) {
        let a = proposals(rt.alloc(), one, 11)?;
        let b = proposals(rt.alloc(), one, 10)?;
        let c = proposals(rt.alloc(), two, 9)?;
        cite_proposals(&a, &b, &c);
        let all = joined(&a, &b, &c)?;
        assert!(rt; are_below(&a, &b, &c, &all));
        assert_eq!(rt; machine_of(&all, one), Some(10));
    }
    Ok(())
}

// A state and a report, or one of them, in an incarnation.
fn machines(
    alloc: Global,
    incarnation: u64,
    state: Option<MachineReg>,
    report: Option<Report>,
) -> Result<laws::Machines, Fail> {
    let mut machines = JoinMap::new(alloc);
    machines.put(MachineId::new(10), known_of(incarnation, state, report))?;
    Ok(machines)
}

fn known_of(incarnation: u64, state: Option<MachineReg>, report: Option<Report>) -> MachineRec {
    let state = state.map(|state| Max(state));
    let report = report.map(|report| Max(report));
    Lex(incarnation, Both(Opt(state), Opt(report)))
}

fn is_known(machines: &laws::Machines, known: MachineRec) -> bool {
    machines.get(&MachineId::new(10)) == Some(&known)
}

fn cite_machines(a: &laws::Machines, b: &laws::Machines, c: &laws::Machines) {
    laws::law_machines(a, b, c);
}

#[test]
fn the_laws_of_join_hold_of_machines(rt: HostRuntime) -> Result<(), Fail> {
    let state = Some(machine_register(1, 1, true, 2, 1000));
    let report = Some(Report {
        number: 3,
        used: 950,
    });
    let a = machines(rt.alloc(), 1, state, None)?;
    let b = machines(rt.alloc(), 1, None, report)?;
    let c = machines(rt.alloc(), 2, None, None)?;
    cite_machines(&a, &b, &c);
    assert!(rt; is_known(&joined(&a, &a, &b)?, known_of(1, state, report)));
    assert!(rt; is_known(&joined(&a, &b, &c)?, known_of(2, None, None)));
    Ok(())
}

#[test]
fn the_laws_can_be_cited(rt: HostRuntime) {
    laws::law_greatest::<JobReg>();
    laws::law_known();
    laws::law_facts();
    laws::law_same();
    laws::law_union();
    laws::law_ops();
    laws::law_can_be();
    laws::law_tables();
}

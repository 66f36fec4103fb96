//! Scripts and lines of a stream: each kind of operation, step and line is read.

use fm_script::names::Names;
use fm_script::parse_request::read_line;
use fm_script::parse_script::read_script;
use std::alloc::Global;
use std::test::Fail;

// One operation of each kind, with a number of its own in each field that takes one.
const JOB: &str =
    r#"{"job":{"id":"00000000-0000-0000-0000-000000000001","version":2,"writer":3,"withdrawn":true,"wait":4,"preempt":5}}"#;

const SPEC: &str =
    r#"{"spec":{"id":"00000000-0000-0000-0000-000000000006","version":7,"writer":8,"withdrawn":false,"job":"00000000-0000-0000-0000-000000000009","request":10}}"#;

const PROGRESS: &str =
    r#"{"progress":{"id":"00000000-0000-0000-0000-00000000000b","attempt":12,"phase":"running"}}"#;

const MACHINE: &str =
    r#"{"machine":{"id":"00000000-0000-0000-0000-00000000000d","incarnation":14,"version":15,"writer":16,"up":true,"slots":17,"nic":18}}"#;

const REPORT: &str =
    r#"{"report":{"id":"00000000-0000-0000-0000-000000000013","incarnation":20,"number":21,"used":22}}"#;

const PROPOSE: &str =
    r#"{"propose":{"id":"00000000-0000-0000-0000-000000000017","attempt":24,"coordinator":25,"machine":"00000000-0000-0000-0000-00000000001a","incarnation":27}}"#;

// Operations, as they are read.
static READ: [(&str, &str); 6] = [
    (
        JOB,
        "Job { id: JobId { number: 1 }, version: 2, writer: 3, withdrawn: true, wait: 4, preempt: 5 }",
    ),
    (
        SPEC,
        "Spec { id: TaskId { number: 6 }, version: 7, writer: 8, withdrawn: false, job: JobId { number: 9 }, request: 10, prefer: Prefer { row: [(MachineId { number: 0 }, 0), (MachineId { number: 0 }, 0), (MachineId { number: 0 }, 0), (MachineId { number: 0 }, 0)], len: 0 } }",
    ),
    (
        PROGRESS,
        "Progress { id: TaskId { number: 11 }, attempt: 12, phase: Running }",
    ),
    (
        MACHINE,
        "Machine { id: MachineId { number: 13 }, incarnation: 14, version: 15, writer: 16, up: true, slots: 17, nic: 18 }",
    ),
    (
        REPORT,
        "Report { id: MachineId { number: 19 }, incarnation: 20, number: 21, used: 22 }",
    ),
    (
        PROPOSE,
        "Propose { id: TaskId { number: 23 }, attempt: 24, coordinator: 25, machine: MachineId { number: 26 }, incarnation: 27 }",
    ),
];

// Steps other than those of one operation, as they are read with the names of their packets.
static READ_STEPS: [(&str, &str, &str); 18] = [
    ("", "{}", "[]"),
    (
        r#"{"at":0,"cut":{"name":"a","from":0,"to":18446744073709551615}}"#,
        r#"{"a": ()}"#,
        "[ScriptStep { at: 0, act: Cut(Interval(0, 18446744073709551615)) }]",
    ),
    (
        r#"{"at":1,"cut":{"name":"a","from":7,"to":2}}"#,
        r#"{"a": ()}"#,
        "[ScriptStep { at: 1, act: Cut(Interval(7, 2)) }]",
    ),
    (
        r#"{"cut":{"name":"a"},"at":255}"#,
        r#"{"a": ()}"#,
        "[ScriptStep { at: 255, act: Cut(Full) }]",
    ),
    (
        r#"{"at":1,"cut":{"more":[0],"name":"","by":null}}"#,
        r#"{"": ()}"#,
        "[ScriptStep { at: 1, act: Cut(Full) }]",
    ),
    (
        r#"{"at":1,"cut":{"more":0,"to":2,"name":"a","from":1}}"#,
        r#"{"a": ()}"#,
        "[ScriptStep { at: 1, act: Cut(Interval(1, 2)) }]",
    ),
    (
        r#"{"at":1,"cut":{"name":"a","from":null,"name":"b","to":1,"from":0}}"#,
        r#"{"b": ()}"#,
        "[ScriptStep { at: 1, act: Cut(Interval(0, 1)) }]",
    ),
    (
        r#"{"at":1,"deliver":"a"}"#,
        "{}",
        "[ScriptStep { at: 1, act: Deliver(0) }]",
    ),
    (
        r#"{"at":1,"cut":{"name":"b"}},{"at":2,"deliver":"a"},{"at":3,"cut":{"name":"a"}}"#,
        r#"{"b": (), "a": ()}"#,
        "[ScriptStep { at: 1, act: Cut(Full) }, ScriptStep { at: 2, act: Deliver(1) }, ScriptStep { at: 3, act: Cut(Full) }]",
    ),
    (
        r#"{"at":1,"cut":{"name":"b"}},{"at":2,"cut":{"name":"a"}},{"at":3,"deliver":"b"},{"at":4,"deliver":"a"}"#,
        r#"{"b": (), "a": ()}"#,
        "[ScriptStep { at: 1, act: Cut(Full) }, ScriptStep { at: 2, act: Cut(Full) }, ScriptStep { at: 3, act: Deliver(0) }, ScriptStep { at: 4, act: Deliver(1) }]",
    ),
    (
        r#"{"at":1,"cut":{"name":"a"}},{"at":2,"deliver":"A"},{"at":3,"deliver":""}"#,
        r#"{"a": ()}"#,
        "[ScriptStep { at: 1, act: Cut(Full) }, ScriptStep { at: 2, act: Deliver(1) }, ScriptStep { at: 3, act: Deliver(1) }]",
    ),
    (
        r#"{"at":1,"trim":0}"#,
        "{}",
        "[ScriptStep { at: 1, act: Trim(0) }]",
    ),
    (
        r#"{"at":1,"trim":18446744073709551615}"#,
        "{}",
        "[ScriptStep { at: 1, act: Trim(18446744073709551615) }]",
    ),
    (
        r#"{"at":1,"round":true}"#,
        "{}",
        "[ScriptStep { at: 1, act: Round(Share(Share { writers: None, each: None })) }]",
    ),
    (
        r#"{"at":2,"round":true},{"round":true,"at":2}"#,
        "{}",
        "[ScriptStep { at: 2, act: Round(Share(Share { writers: None, each: None })) }, ScriptStep { at: 2, act: Round(Share(Share { writers: None, each: None })) }]",
    ),
    (
        r#"{"at":1,"round":{"each":2}}"#,
        "{}",
        "[ScriptStep { at: 1, act: Round(Share(Share { writers: None, each: Some(2) })) }]",
    ),
    (
        r#"{"at":1,"round":{}}"#,
        "{}",
        "[ScriptStep { at: 1, act: Round(Share(Share { writers: None, each: None })) }]",
    ),
    (
        r#"{"at":1,"relieve":true},{"relieve":true,"at":2}"#,
        "{}",
        "[ScriptStep { at: 1, act: Round(Relief) }, ScriptStep { at: 2, act: Round(Relief) }]",
    ),
];

// Lines of a stream, as they are read.
static READ_LINES: [(&str, &str); 26] = [
    (
        r#"{"coordinators":[64,1]}"#,
        "Request(Open([CoordId { number: 64 }, CoordId { number: 1 }]))",
    ),
    (
        r#"{"at":255,"trim":7}"#,
        "Request(Do(ScriptStep { at: 255, act: Trim(7) }))",
    ),
    (
        r#"{"deliver":"b","at":1}"#,
        "Request(Do(ScriptStep { at: 1, act: Deliver(1) }))",
    ),
    (
        r#"{"at":1,"cut":{}}"#,
        "Request(Cut { at: 1, range: Full, name: None })",
    ),
    (
        r#"{"at":1,"cut":{"to":0,"more":[],"from":18446744073709551615}}"#,
        "Request(Cut { at: 1, range: Interval(18446744073709551615, 0), name: None })",
    ),
    (
        r#"{"at":1,"cut":{"name":"b"}}"#,
        r#"Request(Cut { at: 1, range: Full, name: Some("b") })"#,
    ),
    (r#"{"at":0,"news":true}"#, "Request(News { at: 0 })"),
    (
        r#"{"at":2,"take":"46444732"}"#,
        r#"Request(Take { at: 2, digits: "46444732" })"#,
    ),
    (
        r#"{"at":1,"ask":"graph"}"#,
        "Request(Ask { at: 1, question: Graph })",
    ),
    (
        r#"{"at":1,"ask":"solve"}"#,
        "Request(Ask { at: 1, question: Solve })",
    ),
    (
        r#"{"at":1,"ask":"plan"}"#,
        "Request(Ask { at: 1, question: Plan })",
    ),
    (
        r#"{"at":1,"ask":"winners"}"#,
        "Request(Ask { at: 1, question: Winners })",
    ),
    (
        r#"{"at":1,"ask":"stops"}"#,
        "Request(Ask { at: 1, question: Stops })",
    ),
    (
        r#"{"at":1,"ask":"list"}"#,
        "Request(Ask { at: 1, question: List(All) })",
    ),
    (
        r#"{"at":1,"ask":"list","of":"waiting"}"#,
        "Request(Ask { at: 1, question: List(Waiting) })",
    ),
    (
        r#"{"at":1,"ask":"why","task":"00000000-0000-0000-0000-000000000015"}"#,
        "Request(Ask { at: 1, question: Why(TaskId { number: 21 }) })",
    ),
    (
        r#"{"at":1,"ask":"next","job":"00000000-0000-0000-0000-000000000001"}"#,
        "Request(Ask { at: 1, question: Next(Job(JobId { number: 1 })) })",
    ),
    (
        r#"{"at":1,"ask":"next","task":"00000000-0000-0000-0000-000000000015"}"#,
        "Request(Ask { at: 1, question: Next(Task(TaskId { number: 21 })) })",
    ),
    (
        r#"{"incarnation":18446744073709551615,"machine":"00000000-0000-0000-0000-00000000000a","ask":"next","at":1}"#,
        "Request(Ask { at: 1, question: Next(Machine(MachineId { number: 10 }, 18446744073709551615)) })",
    ),
    (r#" { "ask" : "agree" } "#, "Request(Agree)"),
    (r#"{"ask":"version"}"#, "Request(Version)"),
    (r#"{"renew":true}"#, "Request(Renew)"),
    (
        r#"{"ask":"check","line":{"at":7,"trim":3}}"#,
        "Check(CheckedLine { at: 7, asked: Request(Do(ScriptStep { at: 7, act: Trim(3) })) })",
    ),
    (
        r#"{"line":{"at":256,"trim":3},"ask":"check"}"#,
        "Check(CheckedLine { at: 0, asked: Nothing })",
    ),
    (
        r#"{"ask":"check","line":{"line":{},"ask":"check"}}"#,
        "Check(CheckedLine { at: 0, asked: Check })",
    ),
    (
        r#"{"ask":"check","line":{"line":[],"ask":"check"}}"#,
        "Check(CheckedLine { at: 0, asked: Nothing })",
    ),
];

// The script that the text spells, as it is printed.
fn printed(alloc: Global, text: &str) -> Result<String, Fail> {
    let script = read_script(alloc, text.as_bytes())?;
    Ok(format!(in alloc; "{script:?}")?)
}

#[test]
fn each_kind_of_operation_is_read(rt: HostRuntime) -> Result<(), Fail> {
    let alloc = rt.alloc();
    for (op, read) in &READ {
        let text = format!(in alloc;
            "{{\"coordinators\":[64],\"more\":0,\"steps\":[{{\"tell\":{op},\"at\":255}}]}}"
        )?;
        let wanted = format!(in alloc;
            "Script {{ coordinators: [CoordId {{ number: 64 }}], names: Names {{ alloc: Global, places: {{}} }}, steps: [ScriptStep {{ at: 255, act: Tell({read}) }}] }}"
        )?;
        assert_eq!(rt; printed(alloc, text.as_str())?, wanted);
    }
    Ok(())
}

#[test]
fn each_kind_of_step_is_read(rt: HostRuntime) -> Result<(), Fail> {
    let alloc = rt.alloc();
    for (items, names, read) in &READ_STEPS {
        let text = format!(in alloc; "{{\"coordinators\":[1],\"steps\":[{items}]}}")?;
        let wanted = format!(in alloc;
            "Script {{ coordinators: [CoordId {{ number: 1 }}], names: Names {{ alloc: Global, places: {names} }}, steps: {read} }}"
        )?;
        assert_eq!(rt; printed(alloc, text.as_str())?, wanted);
    }
    Ok(())
}

#[test]
fn each_kind_of_line_is_read(rt: HostRuntime) -> Result<(), Fail> {
    let alloc = rt.alloc();
    let mut names = Names::new(alloc);
    names.add("a")?;
    for (line, read) in &READ_LINES {
        let asked = read_line(alloc, line.as_bytes(), &names)?;
        let printed = format!(in alloc; "{asked:?}")?;
        assert_eq!(rt; printed.as_str(), *read);
    }
    Ok(())
}

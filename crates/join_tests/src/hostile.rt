// Runs whose reads and writes fail, as data, each by every command.
ghost use denote.Param.Send.{IsSync};

use crate::cases::{REFUSED, expect};
use crate::expected::expect_case;
use crate::refusals::refusals;
use chem_model::Memory;
use std::alloc::Global;
use std::marker::Sync;
use std::process::Abort;
use std::sync::Wait;
use std::test::Fail;
use std::thread::Threads;
use worked_calls::{Ends, Outcome, call_into, sink_with, source_with};
use worked_texts::{Case, QUIET};

// More bytes than any line or text of these runs has.
const ROOM: u32 = 4096;

// The words of each command that runs a text.
const COMMANDS: &[&[&str]] = &[
    &["alone", "--budget", "10"],
    &["rounds", "--budget", "10"],
    &["run", "--budget", "10"],
    &["lossy", "--budget", "10"],
];

// A case, and the numbers of the reads, of the writes and of the writes to the sink of errors that
// fail in it. The source gives 16 bytes a read, the sinks take 4 and 8 bytes a write.
#[derive(Drop)]
struct Fault {
    reads: &'static [u32],
    writes: &'static [u32],
    lines: &'static [u32],
    case: Case,
}

// Of the four reads one fails.
const READ_FAULT: Case = Case {
    text: &[(1, "observe out/1; site s [ x(u) => out(u) : x(s) ]")],
    status: 3,
    err: "read fault\n",
    ..REFUSED
};

// Of the five writes one fails. The run is kept.
const WRITE_FAULT: Case = Case {
    text: &[(1, "observe out/1; site s [ x(u) => out(u) : x(s) ]")],
    status: 4,
    out: "",
    err: "write fault\n",
    events: Some(1),
    ..QUIET
};

// An unknown name.
const UNKNOWN: Case = Case {
    text: &[(1, "site s [ none : q() ]")],
    err: "scope 1 at 16\n",
    ..REFUSED
};

// Nothing fails.
const NO_FAULT: Fault = Fault {
    reads: &[],
    writes: &[],
    lines: &[],
    case: UNKNOWN,
};

const FAULTS_OF_READS: &[Fault] = &[
    // Whichever read fails, also the one that would find the end, nothing but the line of the fault
    // is written.
    Fault {
        reads: &[1],
        case: READ_FAULT,
        ..NO_FAULT
    },
    Fault {
        reads: &[2],
        case: READ_FAULT,
        ..NO_FAULT
    },
    Fault {
        reads: &[3],
        case: READ_FAULT,
        ..NO_FAULT
    },
    Fault {
        reads: &[4],
        case: READ_FAULT,
        ..NO_FAULT
    },
    // A text that is refused at its first byte is read to its end first.
    Fault {
        reads: &[2],
        case: Case {
            text: &[(40, "$")],
            ..READ_FAULT
        },
        ..NO_FAULT
    },
];

const FAULTS_OF_WRITES: &[Fault] = &[
    // Whichever write fails, what was written before it stands there.
    Fault {
        writes: &[1],
        case: WRITE_FAULT,
        ..NO_FAULT
    },
    Fault {
        writes: &[2],
        case: Case {
            out: "out(",
            ..WRITE_FAULT
        },
        ..NO_FAULT
    },
    Fault {
        writes: &[3],
        case: Case {
            out: "out(s)\nq",
            ..WRITE_FAULT
        },
        ..NO_FAULT
    },
    Fault {
        writes: &[4],
        case: Case {
            out: "out(s)\nquies",
            ..WRITE_FAULT
        },
        ..NO_FAULT
    },
    Fault {
        writes: &[5],
        case: Case {
            out: "out(s)\nquiescent",
            ..WRITE_FAULT
        },
        ..NO_FAULT
    },
];

const FAULTS_OF_LINES: &[Fault] = &[
    // A line that is lost, or cut, leaves the status of its cause.
    Fault {
        lines: &[1],
        case: Case { err: "", ..UNKNOWN },
        ..NO_FAULT
    },
    Fault {
        lines: &[2],
        case: Case {
            err: "scope 1 ",
            ..UNKNOWN
        },
        ..NO_FAULT
    },
    Fault {
        reads: &[3],
        lines: &[1],
        case: Case {
            err: "",
            ..READ_FAULT
        },
        ..NO_FAULT
    },
    Fault {
        writes: &[2],
        lines: &[2],
        case: Case {
            out: "out(",
            err: "write fa",
            ..WRITE_FAULT
        },
        ..NO_FAULT
    },
    // Calls that aren't made can't fail.
    Fault {
        reads: &[5],
        writes: &[6],
        lines: &[1],
        case: Case {
            status: 0,
            out: "out(s)\nquiescent\n",
            err: "",
            ..WRITE_FAULT
        },
    },
];

// The source and the sinks of which the reads and writes of the fault fail.
fn ends_with(alloc: Global, fault: &Fault) -> Result<Box<Ends>, Memory> {
    let text = fault.case.source(alloc)?;
    let source = source_with(alloc, text.as_slice(), 16, fault.reads)?;
    let out = sink_with(alloc, ROOM, 4, fault.writes)?;
    let err = sink_with(alloc, ROOM, 8, fault.lines)?;
    Ok(Box::new(alloc, Ends { source, out, err })?)
}

// A run with these words, in which the reads and writes of the fault fail.
fn run_with<R: AllocGlobal + Abort + Threads + Wait + Sync>(
    rt: &R,
    words: &[&str],
    fault: &Fault,
) -> Result<Outcome, Memory>
    requires { IsSync R.row }
{
    let mut ends = ends_with(rt.alloc(), fault)?;
    call_into(rt, words, &mut ends)
}

// That a run with these words ends as the fault says.
fn expect_fault<R: AllocGlobal + Abort + Threads + Wait + Sync>(
    rt: &R,
    words: &[&str],
    fault: &Fault,
) -> Result<(), Fail>
    requires { IsSync R.row }
{
    let run = run_with(rt, words, fault)?;
    expect_case(rt, &run, &fault.case);
    Ok(())
}

// Each table is handed out by a function that does nothing else, since the proof of one that names
// it goes over the table at each step.
fn commands() -> &'static [&'static [&'static str]] {
    COMMANDS
}

fn faults_of_reads() -> &'static [Fault] {
    FAULTS_OF_READS
}

fn faults_of_writes() -> &'static [Fault] {
    FAULTS_OF_WRITES
}

fn faults_of_lines() -> &'static [Fault] {
    FAULTS_OF_LINES
}

// That a run with these words ends as each of these faults says.
fn expect_faults<R: AllocGlobal + Abort + Threads + Wait + Sync>(
    rt: &R,
    words: &[&str],
    faults: &[Fault],
) -> Result<(), Fail>
    requires { IsSync R.row }
{
    for fault in faults {
        expect_fault(rt, words, fault)?;
    }
    Ok(())
}

// That a run with these words ends as each fault says.
fn expect_each_fault<R: AllocGlobal + Abort + Threads + Wait + Sync>(
    rt: &R,
    words: &[&str],
) -> Result<(), Fail>
    requires { IsSync R.row }
{
    expect_faults(rt, words, faults_of_reads())?;
    expect_faults(rt, words, faults_of_writes())?;
    expect_faults(rt, words, faults_of_lines())
}

#[test]
fn faults_by_each_command(rt: HostRuntime) -> Result<(), Fail> {
    for words in commands() {
        expect_each_fault(&rt, *words)?;
    }
    Ok(())
}

// That each of these texts is refused with these words.
fn expect_refused<R: AllocGlobal + Abort + Threads + Wait + Sync>(
    rt: &R,
    words: &[&str],
    cases: &[Case],
) -> Result<(), Fail>
    requires { IsSync R.row }
{
    for case in cases {
        expect(rt, words, case)?;
    }
    Ok(())
}

// That each of these texts is refused alike by each command.
fn expect_refused_by_each<R: AllocGlobal + Abort + Threads + Wait + Sync>(
    rt: &R,
    cases: &[Case],
) -> Result<(), Fail>
    requires { IsSync R.row }
{
    for words in commands() {
        expect_refused(rt, *words, cases)?;
    }
    Ok(())
}

#[test]
fn refusals_by_each_command(rt: HostRuntime) -> Result<(), Fail> {
    for cases in refusals() {
        expect_refused_by_each(&rt, cases)?;
    }
    Ok(())
}

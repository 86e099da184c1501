//! Commands on devices that fail: sinks that can not be flushed, and sources that can not be read. And the faults that no
//! input brings about.
use crate::asserted::{OrFail, assert_equal};
use metric_audit::AuditFault;
use metric_io::{CutSink, CutSource};
use metric_kit_commands::{KitFault, ReplayOptions, check_run, make_run, replay, show_run};
use metric_kit_program::{ThreadsOptions, threads_run};
use metric_provider::FinishFault;
use std::alloc::Global;
use std::process::Abort;
use std::sync::Wait;
use std::thread::Threads;

#[derive(Clone, Copy)]
enum Command {
    Make,
    Check,
    Show,
    Replay(ReplayOptions),
    Threads(ThreadsOptions),
}

const TRIAL: Command = Command::Replay(ReplayOptions {
    trial: true,
    audit: false,
});

const REPLAY: Command = Command::Replay(ReplayOptions {
    trial: false,
    audit: false,
});

const AUDITED_TRIAL: Command = Command::Replay(ReplayOptions {
    trial: true,
    audit: true,
});

const AUDITED: Command = Command::Replay(ReplayOptions {
    trial: false,
    audit: true,
});

const INPUT: &str = r#"%% catalogue
format = 1
[[meter]]
name = "m"
instrument = [{ name = "x", kind = "counter", range = [0, 9] }]
[[recorder]]
name = "r"
budget = [{ instrument = 0, amount = 12 }]
%% config
format = 1
reader = [{ name = "main" }]
%% certificate
format = 1
reason = []
stream = [{ reader = 0, instrument = 0, by = "product", sets = 1 }]
bound = [{ instrument = 0, total = "12", amount = "108", low = "0", high = "108" }]
order = [{ reader = 0, streams = [0] }]
%% script
start 0
record 0 0 5
"#;

const MADE: &str = r#"format = 1
reason = []

[[bound]]
amount = "108"
high = "108"
instrument = 0
low = "0"
total = "12"

[[order]]
reader = 0
streams = [0]

[[stream]]
by = "product"
instrument = 0
reader = 0
sets = 1
"#;

const SHOWN: &str =
    "stream 0 reader=\"main\" instrument=0 view=- name=\"x\" kind=sum monotonic=yes temporality=cumulative limit=2000 keys=[]\n";

// Each command, and what it writes.
const WRITTEN: &[(Command, &str)] = &[
    (Command::Make, MADE),
    (Command::Check, "accepted\n"),
    (Command::Show, SHOWN),
    (TRIAL, "accepted\n"),
    (REPLAY, "accepted\n"),
    (AUDITED_TRIAL, "accepted\naudited 1\n"),
    (AUDITED, "accepted\naudited 1\n"),
    (
        Command::Threads(ThreadsOptions { each: 4 }),
        "instrument 0 count 4 sum 36\n",
    ),
];

fn run<R: Threads + Wait + Sync>(
    rt: &R,
    alloc: Global,
    command: Command,
    source: &mut CutSource<'_>,
    sink: &mut CutSink,
) -> Result<(), KitFault> {
    match command {
        Command::Make => make_run(alloc, source, sink),
        Command::Check => check_run(alloc, source, sink),
        Command::Show => show_run(alloc, source, sink),
        Command::Replay(options) => replay(alloc, options, source, sink),
        Command::Threads(options) => threads_run(rt, alloc, options, source, sink),
    }
}

// Whether a command writes this and is told that the flush failed.
fn is_unflushed<R: Threads + Wait + Sync>(
    rt: &R,
    alloc: Global,
    command: Command,
    written: &str,
) -> bool {
    let mut source = CutSource::new(INPUT.as_bytes(), None);
    let mut sink = CutSink::new(alloc, None).with_failing_flush();
    let end = run(rt, alloc, command, &mut source, &mut sink);
    end == Err(KitFault::Write) && sink.taken() == written.as_bytes()
}

#[test]
fn a_flush_that_fails_is_a_write(rt: HostRuntime) {
    for (command, written) in WRITTEN {
        let is_told = is_unflushed(&rt, rt.alloc(), *command, written);
        assert_equal(&rt, (*written, is_told), (*written, true));
    }
}

// Whether a command of which this read fails is told so, and writes nothing.
fn is_unread<R: Threads + Wait + Sync>(
    rt: &R,
    alloc: Global,
    command: Command,
    failing: u64,
) -> bool {
    let mut source = CutSource::new(INPUT.as_bytes(), Some(failing)).in_pieces(50);
    let mut sink = CutSink::new(alloc, None);
    let end = run(rt, alloc, command, &mut source, &mut sink);
    end == Err(KitFault::Read) && sink.taken().is_empty()
}

// The first failing read after which anything else is told.
fn first_untold<R: Threads + Wait + Sync>(rt: &R, alloc: Global, command: Command) -> Option<u64> {
    for failing in 1..10 {
        if !is_unread(rt, alloc, command, failing) {
            return Some(failing);
        }
    }
    None
}

#[test]
fn a_reader_that_fails_writes_nothing(rt: HostRuntime) {
    for (command, _) in WRITTEN {
        assert_equal(&rt, first_untold(&rt, rt.alloc(), *command), None);
    }
}

// Faults that no input brings about, each with its line and its status.
const STOPS: &[(KitFault, &str)] = &[
    (KitFault::Read, "refused: input, 3"),
    (KitFault::Write, "refused: write, 5"),
    (KitFault::Memory, "refused: memory, 4"),
    (
        KitFault::Audit(AuditFault::Slips { recorder: 3 }),
        "refused: audit 1 Slips of recorder 3, 1",
    ),
    (
        KitFault::Audit(AuditFault::Batch { at: 1 }),
        "refused: audit 2 Batch at 1, 1",
    ),
    (
        KitFault::Audit(AuditFault::Entry { at: 1 }),
        "refused: audit 4 Entry at 1, 1",
    ),
    (
        KitFault::Finish(FinishFault::RecorderMissing),
        "refused: finish 1 RecorderMissing, 1",
    ),
    (
        KitFault::Finish(FinishFault::Stranger),
        "refused: finish 2 Stranger, 1",
    ),
    (
        KitFault::Finish(FinishFault::AuditMismatch),
        "refused: finish 3 AuditMismatch, 1",
    ),
];

#[test]
fn each_other_fault_has_a_line_and_a_status(rt: HostRuntime) {
    for (fault, wanted) in STOPS {
        let line = fault.line(rt.alloc()).or_fail(&rt);
        let told = format!(in rt.alloc(); "{line}, {}", fault.status()).or_fail(&rt);
        assert_equal(&rt, told.as_str(), *wanted);
    }
}

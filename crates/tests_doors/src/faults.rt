//! Faults of lists, of exporters and of services, as they are printed.
use crate::page::Page;
use metric_sdk::{
    AllFault, CheckFault, ClaimFault, ClaimPlace, ExportFault, ExposureFault, FinishFault,
    ListFault, OutletFault, Refusal, RollFault, ServiceFault, SetsFault, SetupFault, TargetFault,
    TellFault, TimedFault, TimerFault, Uncollected, UnendedFault,
};
use std::fmt::Display;
use std::process::Abort;

#[test]
fn faults_of_lists_tell_where_they_end(rt: HostRuntime) {
    let sets = SetsFault {
        place: 3,
        refusal: Refusal::Budget,
    };
    let all = AllFault {
        done: Vec::new(rt.alloc()),
        instrument: 2,
        refusal: Refusal::Memory,
    };
    let mut page = Page::new(&rt, rt.alloc());
    page.say(sets);
    page.say(&all);
    page.tell(all);
    page.assert("recording 3: 9 Budget\ninstrument 2: 11 Memory\ninstrument 2: 11 Memory\n");
}

// The faults of exporters, in the order of their numbers.
const FAULTS: &[ExportFault] = &[
    ExportFault::Write,
    ExportFault::ShutDown,
    ExportFault::Memory,
    ExportFault::Kept,
    ExportFault::OtherPlan,
    ExportFault::OtherReader,
];

#[test]
fn faults_of_exporters_are_printed(rt: HostRuntime) {
    let mut page = Page::new(&rt, rt.alloc());
    for fault in FAULTS {
        page.say(*fault);
    }
    page.assert("1 Write\n2 ShutDown\n3 Memory\n4 Kept\n5 OtherPlan\n6 OtherReader\n");
}

const SERVICES: &[ServiceFault] = &[
    ServiceFault::Setup(SetupFault::Memory),
    ServiceFault::Check(ClaimFault {
        fault: CheckFault::StreamStrange,
        place: ClaimPlace::Stream(3),
    }),
    ServiceFault::Refused(Refusal::Closed),
    ServiceFault::RefusedAt(3, Refusal::Budget),
    ServiceFault::Uncollected(2, Refusal::Stranger),
    ServiceFault::Export(ExportFault::Write),
    ServiceFault::Finish(FinishFault::AuditMismatch),
    ServiceFault::Roll(RollFault::Early(7)),
    ServiceFault::Memory,
];

const UNENDED: &[UnendedFault] = &[
    UnendedFault::Memory,
    UnendedFault::Uncollected,
    UnendedFault::Finish(FinishFault::Stranger),
    UnendedFault::Roll(RollFault::SameRun),
];

const UNTOLD: &[TellFault] = &[
    TellFault::UnknownReader,
    TellFault::Exporter(ExportFault::OtherReader),
    TellFault::Exporter(ExportFault::Memory),
];

const OUTLETS: &[OutletFault] = &[
    OutletFault::UnknownReader,
    OutletFault::Exposed(ExposureFault::Delta { stream: 4 }),
    OutletFault::Target(TargetFault::BadLabel { attribute: 5 }),
    OutletFault::Memory,
];

const LISTS: &[ListFault] = &[ListFault::OtherInstrument, ListFault::Memory];

const TIMERS: &[TimerFault] = &[TimerFault::OtherPlan, TimerFault::OtherUnit];

const TIMED: &[TimedFault] = &[TimedFault::Clock, TimedFault::Refused(Refusal::ValueRange)];

// All of them, in order.
const SAID: &str = "memory
check 6 StreamStrange
refused: 8 Closed
refused at 3: 9 Budget
collection of instrument 2 refused: 12 Stranger
export 1 Write
finish 3 AuditMismatch
roll over: the next run starts before 7, the last time of this one
memory
out of memory
not collected
2 Stranger
the next run has the number of this one
no such reader, or it has its exporter
the exporter was made for another reader
3 Memory
1 UnknownReader
2 Exposed: 1 Delta of stream 4
3 Target: 1 BadLabel of attribute 5
4 Memory
the attributes are bound to another instrument
no memory
the attributes are bound in another plan
the instrument's unit is none of ns, us, ms, s
the clock could not be read
7 ValueRange
, all instruments: Memory
";

fn say_each<R: Abort, T: Display + Copy + Drop>(page: &mut Page<'_, R>, faults: &[T]) {
    for fault in faults {
        page.say(*fault);
    }
}

#[test]
fn faults_of_services_are_printed(rt: HostRuntime) {
    let mut page = Page::new(&rt, rt.alloc());
    say_each(&mut page, SERVICES);
    say_each(&mut page, UNENDED);
    say_each(&mut page, UNTOLD);
    say_each(&mut page, OUTLETS);
    say_each(&mut page, LISTS);
    say_each(&mut page, TIMERS);
    say_each(&mut page, TIMED);
    page.say(Uncollected::All);
    page.assert(SAID);
}

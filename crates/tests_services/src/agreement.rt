//! The answers of seats in one thread beside the replies of a core.
use crate::asserted::OrFail;
use crate::page::Page;
use crate::samples::{BOTH, CODES, HITS, MAIN, PAIRS, SPARED};
use crate::seats::{BookSeats, seats_in_lanes};
use metric_audit::Audited;
use metric_base::Items;
use metric_core::Core;
use metric_history::{Book, Event};
use metric_journal::JournalBook;
use metric_marked::Marked;
use metric_parts::{Needs, parts_of};
use metric_script::events_of;
use metric_sdk::certified_plan;
use metric_text::lines;
use std::alloc::Global;
use std::process::Abort;
use std::sync::Wait;

const SCRIPT: Needs = Needs {
    certificate: false,
    script: true,
};

/// The start of a script, and its events.
#[derive(Drop)]
pub(crate) struct Script {
    pub start: u64,
    pub events: Items<Event>,
}

/// The script of an input whose only part with lines it is.
pub(crate) fn script_of<R: Abort>(rt: &R, alloc: Global, input: &str) -> Script {
    let lines = lines(alloc, input.as_bytes()).or_fail(rt);
    script_in(rt, alloc, &lines)
}

fn script_in<R: Abort>(rt: &R, alloc: Global, lines: &[&[u8]]) -> Script {
    let parts = parts_of(alloc, lines, SCRIPT).or_fail(rt);
    let script = parts.script.as_ref().expect(rt, "no script");
    let read = events_of(alloc, script).or_fail(rt);
    Script {
        start: read.start,
        events: read.events.all(alloc).or_fail(rt),
    }
}

/// Writes a line for the reply of a core to each event.
pub(crate) fn tell_core<R: Abort, B: Book>(
    page: &mut Page<'_, R>,
    catalogue: &str,
    config: &str,
    script: &Script,
) {
    let plan = certified_plan(page.alloc, catalogue, config).or_fail(page.rt);
    let Ok(mut core) = Core::<B>::new(page.alloc, plan, script.start) else {
        panic!(page.rt; "memory");
    };
    let replies = core.run(page.alloc, script.events.as_slice());
    for reply in &replies.or_fail(page.rt) {
        page.reply(reply);
    }
}

/// Writes a line for the answer of a seat or the provider to each event, where an instrument has so many lanes at most.
pub(crate) fn tell_seats<R: Abort + Wait, B: Book>(
    page: &mut Page<'_, R>,
    catalogue: &str,
    config: &str,
    script: &Script,
    lanes: u32,
) {
    let (rt, alloc, start) = (page.rt, page.alloc, script.start);
    let mut seats: BookSeats<B> = seats_in_lanes(rt, alloc, catalogue, config, start, (1, lanes));
    seats.tell_answers(page, script.events.as_slice());
}

struct Sample {
    catalogue: &'static str,
    config: &'static str,
    script: &'static str,
    answers: &'static str,
}

const ROUTES: &str = "format = 1
[[meter]]
name = 'm'
[[meter.instrument]]
name = 'hits'
kind = 'counter'
range = [0, 100]
[[meter.instrument.key]]
name = 'route'
values = ['/a', '/b']
[[recorder]]
name = 'r'
[[recorder.budget]]
instrument = 0
amount = 10
";

const SMALL: &str = "format = 1
[[meter]]
name = 'm'
[[meter.instrument]]
name = 'c'
kind = 'counter'
range = [0, 9]
[[recorder]]
name = 'r'
[[recorder.budget]]
instrument = 0
amount = 2
";

// A gauge, of which two recorders set the level.
const LEVEL: &str = "format = 1
[[meter]]
name = 'm'
instrument = [{ name = 'level', kind = 'gauge', range = [0, 9] }]
[[recorder]]
name = 'r'
budget = [{ instrument = 0, amount = 2 }]
[[recorder]]
name = 's'
budget = [{ instrument = 0, amount = 1 }]
";

const SAMPLES: &[Sample] = &[
    Sample {
        catalogue: ROUTES,
        config: MAIN,
        script: "%% catalogue
%% config
%% script
start 0
record 0 0 5 \"route\"=\"/b\"
record 0 0 1 \"route\"=\"/a\"
record 0 0 2 \"route\"=\"/b\"
collect 0 0 10
collect 0 0 20
",
        answers: "accepted
accepted
accepted
0 0, 0 to 3, 0 to 10: stream 0 [1 0] 1 [2 0] 7
0 0, 0 to 3, 0 to 20: stream 0 [1 0] 1 [2 0] 7
",
    },
    // The later of two last values is known in one lane alone.
    Sample {
        catalogue: LEVEL,
        config: MAIN,
        script: "%% catalogue
%% config
%% script
start 0
record 0 0 5
record 1 0 7
record 0 0 3
collect 0 0 10
",
        answers: "accepted
accepted
accepted
0 0, 0 to 3, 0 to 10: stream 0 [0 0] 3
",
    },
    Sample {
        catalogue: HITS,
        config: BOTH,
        script: "%% catalogue
%% config
%% script
start 0
record 0 0 5
collect 1 0 10
record 0 0 7
collect 0 0 20
collect 1 0 30
collect 1 0 25
",
        answers: "accepted
1 0, 0 to 1, 0 to 10: stream 1 [0 0] 5
accepted
0 0, 0 to 2, 0 to 20: stream 0 [0 0] 12
1 0, 1 to 2, 10 to 30: stream 1 [0 0] 7
1 0, 2 to 2, 30 to 30: stream 1
",
    },
    Sample {
        catalogue: SMALL,
        config: MAIN,
        script: "%% catalogue
%% config
%% script
start 0
record 0 0 4
record 0 0 4
record 0 0 4
close 0
record 0 0 4
collect 0 0 1
close 0
",
        answers: "accepted
accepted
9 Budget
done
8 Closed
0 0, 0 to 2, 0 to 1: stream 0 [0 0] 8
8 Closed
",
    },
    // The first refusal comes, in the order of their numbers, and all budget is left.
    Sample {
        catalogue: CODES,
        config: MAIN,
        script: "%% catalogue
%% config
%% script
start 0
record 0 1 1
record 0 1 10 \"zone\"=1 \"zone\"=1
record 0 0 1 \"route\"=\"/a\" \"route\"=\"/b\"
record 0 0 10 \"zone\"=1 \"zone\"=1
record 0 0 1 \"zone\"=1 \"route\"=\"/b\"
record 0 0 10 \"zone\"=1 \"code\"=404
record 0 0 1 \"route\"=\"/a\" \"code\"=\"200\"
record 0 0 10 \"code\"=404
record 0 0 1 \"code\"=200
record 0 0 10 \"code\"=200
record 0 0 10 \"route\"=\"/a\"
record 0 0 1 \"route\"=\"/a\"
record 0 0 10 \"route\"=\"/a\"
record 0 0 1 \"route\"=\"/a\"
close 0
record 0 0 10 \"route\"=\"/a\"
record 0 0 1 \"route\"=\"/a\"
collect 0 1 5
close 1
",
        answers: "1 UnknownInstrument
1 UnknownInstrument
3 DuplicateKey
3 DuplicateKey
4 UnknownKey
4 UnknownKey
5 UnknownValue
5 UnknownValue
6 MissingKey
6 MissingKey
7 ValueRange
accepted
7 ValueRange
9 Budget
done
7 ValueRange
8 Closed
1 UnknownInstrument
1 UnknownInstrument
",
    },
    // A combination that is not allowed is refused after a key that is missing and before the range.
    Sample {
        catalogue: PAIRS,
        config: MAIN,
        script: "%% catalogue
%% config
%% script
start 0
record 0 0 10 \"a\"=\"x\"
record 0 0 10 \"a\"=\"x\" \"b\"=\"q\"
record 0 0 10 \"a\"=\"x\" \"b\"=\"p\"
record 0 0 1 \"b\"=\"q\" \"a\"=\"y\"
record 0 0 1 \"b\"=\"p\" \"a\"=\"y\"
record 0 0 2 \"b\"=\"p\" \"a\"=\"x\"
record 0 0 2 \"b\"=\"q\" \"a\"=\"x\"
record 0 0 2 \"b\"=\"p\" \"a\"=\"x\"
collect 0 0 5
",
        answers: "6 MissingKey
13 Combination
7 ValueRange
accepted
13 Combination
accepted
13 Combination
9 Budget
0 0, 0 to 2, 0 to 5: stream 0 [1 1] 2 [2 2] 1
",
    },
    // A grant moves what is left of the spare to a recorder, which may then record more.
    Sample {
        catalogue: SPARED,
        config: MAIN,
        script: "%% catalogue
%% config
%% script
start 0
record 0 0 4
record 0 0 4
grant 0 1 1
grant 2 0 1
grant 2 1 1
grant 0 0 1
record 0 0 5
record 0 0 5
grant 1 0 2
record 1 0 6
grant 1 0 1
record 1 0 6
record 1 0 6
grant 0 0 1
grant 0 0 0
collect 0 0 1
close 0
grant 0 0 0
grant 2 0 0
",
        answers: "accepted
9 Budget
1 UnknownInstrument
2 UnknownRecorder
1 UnknownInstrument
granted
accepted
9 Budget
14 NoSpare
9 Budget
granted
accepted
9 Budget
14 NoSpare
granted
0 0, 0 to 3, 0 to 1: stream 0 [0 0] 15
done
8 Closed
2 UnknownRecorder
",
    },
];

// Writes the answers of seats after those of a core.
fn tell_both<R: Abort + Wait, B: Book>(page: &mut Page<'_, R>, sample: &Sample) {
    let script = script_of(page.rt, page.alloc, sample.script);
    let (catalogue, config) = (sample.catalogue, sample.config);
    tell_core::<R, B>(page, catalogue, config, &script);
    for lanes in [1, 3] {
        tell_seats::<R, B>(page, catalogue, config, &script, lanes);
    }
}

#[test]
fn seats_answer_as_core(rt: HostRuntime) {
    for sample in SAMPLES {
        let mut page = Page::new(&rt, rt.alloc());
        tell_both::<_, JournalBook>(&mut page, sample);
        tell_both::<_, Marked>(&mut page, sample);
        tell_both::<_, Audited>(&mut page, sample);
        let wanted = sample.answers.repeat(rt.alloc(), 9).or_fail(&rt);
        page.assert(wanted.as_str());
    }
}

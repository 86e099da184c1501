//! Lives of providers with their seats, from the first recording to the totals.
use crate::asserted::OrFail;
use crate::lives::{Act, live};
use crate::page::Page;
use crate::samples::{BOTH, HITS, MAIN, PAIR, SPARED};
use metric_audit::Audited;
use metric_marked::Marked;

// The files of a provider, since when it runs, what happens in its run of number 1, and what is told.
struct Life {
    catalogue: &'static str,
    config: &'static str,
    since: u64,
    acts: &'static [Act],
    told: &'static str,
}

// Both recorders record on both instruments; a third one is there only where a run has a stranger.
const RECORDED: &str = "record 0 0 1
record 0 1 2
record 1 0 3
record 1 1 0
collect 1 0 10
record 1 0 2
record 2 0 2
";

// Each reader's last batch is of another instrument.
const COLLECTED: &str = "record 0 0 1
record 1 1 2
collect 0 0 10
collect 1 1 20
";

const UNCOLLECTED: &str = "record 0 0 1
record 1 1 2
";

const AFTER: &str = "record 0 0 2
record 1 1 1
collect 0 0 30
collect 1 1 40
";

// Two counters, each with a spare of its own. One recorder alone has a budget, and on the first alone.
const SPARES: &str = "format = 2
[[meter]]
name = 'm'
instrument = [
    { name = 'c', kind = 'counter', range = [0, 9], spare = 2 },
    { name = 'd', kind = 'counter', range = [0, 9], spare = 1 },
]
[[recorder]]
name = 'r'
budget = [{ instrument = 0, amount = 1 }]
[[recorder]]
name = 's'
";

const LIVES: &[Life] = &[
    // Runs end with the seats of all recorders.
    Life {
        catalogue: PAIR,
        config: BOTH,
        since: 0,
        acts: &[
            Act::Keep(&[0, 1]),
            Act::Add(None, 1),
            Act::Script(RECORDED),
            Act::Recorders,
            Act::Readers,
            Act::Last,
            Act::Finish,
        ],
        told: "accepted
accepted
accepted
accepted
1 0, 0 to 2, 0 to 10: stream 2 [0 0] 4
accepted
2 UnknownRecorder
(0, [Some(Told { count: 1, amount: 1 }), Some(Told { count: 1, amount: 2 }), None], Ok([0, 0, 0, 0, 0, 0, 0, 0]))
(1, [Some(Told { count: 2, amount: 5 }), Some(Told { count: 1, amount: 0 }), None], Ok([0, 0, 0, 0, 0, 0, 0, 0]))
0 0, 0 to 3, 0 to 20: stream 0 [0 0] 6
0 1, 0 to 2, 0 to 20: stream 1 [0 0] 2
(0, [Some(3), Some(2), None])
1 0, 2 to 3, 10 to 20: stream 2 [0 0] 2
1 1, 0 to 2, 0 to 20: stream 3 [0 0] 2
(1, [Some(3), Some(2), None])
1 0, 3 to 3, 20 to 30: stream 2
1 1, 2 to 2, 20 to 30: stream 3
([Total { count: 3, sum: 6 }, Total { count: 2, sum: 2 }], 2, 2)
",
    },
    Life {
        catalogue: PAIR,
        config: BOTH,
        since: 0,
        acts: &[
            Act::Keep(&[0, 1]),
            Act::Add(Some(2), 1),
            Act::Script(RECORDED),
            Act::Recorders,
            Act::Readers,
            Act::Last,
            Act::Finish,
        ],
        told: "accepted
accepted
accepted
accepted
1 0, 0 to 2, 0 to 10: stream 2 [0 0] 4
accepted
12 Stranger
(0, [Some(Told { count: 1, amount: 1 }), Some(Told { count: 1, amount: 2 }), None], Ok([0, 0, 0, 0, 0, 0, 0, 0]))
(1, [Some(Told { count: 2, amount: 5 }), Some(Told { count: 1, amount: 0 }), None], Ok([0, 0, 0, 0, 0, 0, 0, 0]))
(1, [Some(Told { count: 0, amount: 0 }), Some(Told { count: 0, amount: 0 }), None], Err(Stranger))
0 0, 0 to 3, 0 to 20: stream 0 [0 0] 6
0 1, 0 to 2, 0 to 20: stream 1 [0 0] 2
(0, [Some(3), Some(2), None])
1 0, 2 to 3, 10 to 20: stream 2 [0 0] 2
1 1, 0 to 2, 0 to 20: stream 3 [0 0] 2
(1, [Some(3), Some(2), None])
1 0, 3 to 3, 20 to 30: stream 2
1 1, 2 to 2, 20 to 30: stream 3
2 Stranger
3
",
    },
    Life {
        catalogue: PAIR,
        config: BOTH,
        since: 0,
        acts: &[
            Act::Keep(&[0]),
            Act::Add(None, 1),
            Act::Script(RECORDED),
            Act::Recorders,
            Act::Readers,
            Act::Last,
            Act::Finish,
        ],
        told: "accepted
accepted
2 UnknownRecorder
2 UnknownRecorder
1 0, 0 to 1, 0 to 10: stream 2 [0 0] 1
2 UnknownRecorder
2 UnknownRecorder
(0, [Some(Told { count: 1, amount: 1 }), Some(Told { count: 1, amount: 2 }), None], Ok([0, 0, 0, 0, 0, 0, 0, 0]))
0 0, 0 to 1, 0 to 20: stream 0 [0 0] 1
0 1, 0 to 1, 0 to 20: stream 1 [0 0] 2
(0, [Some(1), Some(1), None])
1 0, 1 to 1, 10 to 20: stream 2
1 1, 0 to 1, 0 to 20: stream 3 [0 0] 2
(1, [Some(1), Some(1), None])
1 0, 1 to 1, 20 to 30: stream 2
1 1, 1 to 1, 20 to 30: stream 3
1 RecorderMissing
1
",
    },
    // A counter comes to its recordings.
    Life {
        catalogue: HITS,
        config: BOTH,
        since: 0,
        acts: &[
            Act::Script("record 0 0 5\ncollect 0 0 10\nclose 0\nrecord 0 0 5\nclose 0\n"),
            Act::Recorders,
            Act::Seen,
            Act::Finish,
        ],
        told: "accepted
0 0, 0 to 1, 0 to 10: stream 0 [0 0] 5
done
8 Closed
8 Closed
(0, [Some(Told { count: 1, amount: 5 }), None, None], Err(UnknownInstrument))
(0, [Some(1), None, None])
(1, [Some(0), None, None])
([Total { count: 1, sum: 5 }], 1, 1)
",
    },
    // A run starts no earlier than the last batches.
    Life {
        catalogue: PAIR,
        config: BOTH,
        since: 7,
        acts: &[
            Act::Script(COLLECTED),
            Act::RollOver(19, 2),
            Act::Script(AFTER),
            Act::Finish,
        ],
        told: "accepted
accepted
0 0, 0 to 1, 7 to 10: stream 0 [0 0] 1
1 1, 0 to 1, 7 to 20: stream 3 [0 0] 2
the next run starts before 20, the last time of this one
2
accepted
accepted
0 0, 0 to 2, 7 to 30: stream 0 [0 0] 3
1 1, 1 to 2, 20 to 40: stream 3 [0 0] 1
([Total { count: 2, sum: 3 }, Total { count: 2, sum: 3 }], 2, 2)
",
    },
    Life {
        catalogue: PAIR,
        config: BOTH,
        since: 7,
        acts: &[
            Act::Script(COLLECTED),
            Act::RollOver(20, 2),
            Act::Script(AFTER),
            Act::Finish,
        ],
        told: "accepted
accepted
0 0, 0 to 1, 7 to 10: stream 0 [0 0] 1
1 1, 0 to 1, 7 to 20: stream 3 [0 0] 2
[Total { count: 1, sum: 1 }, Total { count: 1, sum: 2 }]
accepted
accepted
0 0, 0 to 1, 20 to 30: stream 0 [0 0] 2
1 1, 0 to 1, 20 to 40: stream 3 [0 0] 1
([Total { count: 1, sum: 2 }, Total { count: 1, sum: 1 }], 2, 2)
",
    },
    Life {
        catalogue: PAIR,
        config: BOTH,
        since: 7,
        acts: &[
            Act::Script(UNCOLLECTED),
            Act::RollOver(6, 2),
            Act::Script(AFTER),
            Act::Finish,
        ],
        told: "accepted
accepted
the next run starts before 7, the last time of this one
2
accepted
accepted
0 0, 0 to 2, 7 to 30: stream 0 [0 0] 3
1 1, 0 to 2, 7 to 40: stream 3 [0 0] 3
([Total { count: 2, sum: 3 }, Total { count: 2, sum: 3 }], 2, 2)
",
    },
    // What is spared is recorded, beside the budget, by what recorders are granted.
    Life {
        catalogue: SPARES,
        config: MAIN,
        since: 0,
        acts: &[
            Act::Ask(1, 1, 1),
            Act::Script("record 1 0 7\nrecord 0 1 7\nrecord 1 1 7\nrecord 1 1 7\ngrant 0 1 1\n"),
            Act::Script("record 0 0 4\nrecord 0 0 5\n"),
            Act::Ask(0, 0, 3),
            Act::Ask(0, 0, 1),
            Act::Script("record 0 0 5\nrecord 0 0 5\ngrant 2 0 1\nrecord 1 0 6\ngrant 1 0 1\n"),
            Act::Script("record 1 0 6\nrecord 1 0 6\n"),
            Act::Ask(1, 0, 1),
            Act::Ask(1, 0, 0),
            Act::Finish,
        ],
        told: "granted
9 Budget
9 Budget
accepted
9 Budget
14 NoSpare
accepted
9 Budget
14 NoSpare
granted
accepted
9 Budget
2 UnknownRecorder
9 Budget
granted
accepted
9 Budget
14 NoSpare
granted
([Total { count: 3, sum: 15 }, Total { count: 1, sum: 7 }], 2, 2)
",
    },
    // A stranger is granted nothing.
    Life {
        catalogue: SPARED,
        config: MAIN,
        since: 0,
        acts: &[Act::Bring(2, "", 2), Act::Ask(0, 0, 0), Act::Ask(1, 0, 0)],
        told: "12 Stranger
12 Stranger
",
    },
];

#[test]
fn providers_live_with_their_seats(rt: HostRuntime) {
    for life in LIVES {
        let mut page = Page::new(&rt, rt.alloc());
        let files = (life.catalogue, life.config, life.since);
        live::<_, Marked>(&mut page, files, 1, life.acts, &[]);
        page.assert(life.told);
    }
}

// Two counters with ranges of their own.
const UNLIKE: &str = "format = 1
[[meter]]
name = 'm'
instrument = [
    { name = 'A', kind = 'counter', range = [0, 9] },
    { name = 'B', kind = 'counter', range = [0, 99] },
]
[[recorder]]
name = 'r'
budget = [{ instrument = 0, amount = 10 }, { instrument = 1, amount = 10 }]
";

// Seats that are brought to an end of another provider's run, and why it does not end with them: seats of a run with
// the same number come with another sum of either counter, or with other numbers of recordings; they are of another
// run; or there are none.
const BROUGHT: &[(&[Act], &str)] = &[
    (
        &[
            Act::Bring(1, "record 0 0 4\nrecord 0 1 50\n", 1),
            Act::Finish,
        ],
        "3 AuditMismatch\n1\n",
    ),
    (
        &[
            Act::Bring(1, "record 0 0 5\nrecord 0 1 49\n", 1),
            Act::Finish,
        ],
        "3 AuditMismatch\n1\n",
    ),
    (
        &[
            Act::Bring(1, "record 0 0 5\nrecord 0 0 0\n", 1),
            Act::Finish,
        ],
        "3 AuditMismatch\n1\n",
    ),
    (
        &[
            Act::Bring(2, "record 0 0 5\nrecord 0 1 50\n", 1),
            Act::Finish,
        ],
        "2 Stranger\n1\n",
    ),
    (
        &[
            Act::Bring(1, "record 0 0 5\nrecord 0 1 50\n", 0),
            Act::Finish,
        ],
        "1 RecorderMissing\n0\n",
    ),
    (
        &[
            Act::Bring(1, "record 0 0 4\nrecord 0 1 50\n", 1),
            Act::RollOver(100, 3),
        ],
        "3 AuditMismatch\n1\n",
    ),
    (
        &[
            Act::Bring(1, "record 0 0 5\nrecord 0 1 49\n", 1),
            Act::RollOver(100, 3),
        ],
        "3 AuditMismatch\n1\n",
    ),
    (
        &[
            Act::Bring(1, "record 0 0 5\nrecord 0 0 0\n", 1),
            Act::RollOver(100, 3),
        ],
        "3 AuditMismatch\n1\n",
    ),
    (
        &[
            Act::Bring(2, "record 0 0 5\nrecord 0 1 50\n", 1),
            Act::RollOver(100, 3),
        ],
        "2 Stranger\n1\n",
    ),
    (
        &[
            Act::Bring(1, "record 0 0 5\nrecord 0 1 50\n", 0),
            Act::RollOver(100, 3),
        ],
        "1 RecorderMissing\n0\n",
    ),
];

// What happens before and after.
const GOES_ON: &[Act] = &[
    Act::Script("record 0 0 5\nrecord 0 1 50\ncollect 0 0 10\n"),
    Act::Given(0),
    Act::Given(1),
    Act::Back,
    Act::Script("record 0 0 2\nrecord 0 1 30\ncollect 0 1 20\n"),
    Act::Finish,
];

// What is told before the refusal, and after it.
const BEFORE: &str = "accepted
accepted
0 0, 0 to 1, 7 to 10: stream 0 [0 0] 5
accepted
accepted
";

const THEREAFTER: &str = "accepted
accepted
0 1, 0 to 2, 7 to 20: stream 1 [0 0] 80
([Total { count: 2, sum: 7 }, Total { count: 2, sum: 80 }], 2, 2)
";

#[test]
fn a_provider_goes_on_after_the_seats_of_another(rt: HostRuntime) {
    for (given, refused) in BROUGHT {
        let mut page = Page::new(&rt, rt.alloc());
        live::<_, Marked>(&mut page, (UNLIKE, MAIN, 7), 1, GOES_ON, given);
        let wanted = [BEFORE, *refused, THEREAFTER].concat(rt.alloc());
        page.assert(wanted.or_fail(&rt).as_str());
    }
}

// A counter of six recorders with a spare: a lane for each, where so many may be.
const SIX: &str = "format = 2
[[meter]]
name = 'm'
instrument = [{ name = 'A', kind = 'counter', range = [0, 9], spare = 100_000 }]
[[recorder]]
name = 'a'
budget = [{ instrument = 0, amount = 2 }]
[[recorder]]
name = 'b'
budget = [{ instrument = 0, amount = 2 }]
[[recorder]]
name = 'c'
budget = [{ instrument = 0, amount = 2 }]
[[recorder]]
name = 'd'
budget = [{ instrument = 0, amount = 2 }]
[[recorder]]
name = 'e'
budget = [{ instrument = 0, amount = 2 }]
[[recorder]]
name = 'f'
budget = [{ instrument = 0, amount = 2 }]
";

const EACH: &str = "record 0 0 1
record 1 0 2
record 2 0 3
record 3 0 4
record 4 0 5
record 5 0 6
collect 0 0 10
";

// Each records again, and then nobody. A collection of an earlier moment has the time of the one before.
const AGAIN: &str = "record 5 0 1
record 4 0 1
record 3 0 1
record 2 0 1
record 1 0 1
record 0 0 1
collect 0 0 20
collect 0 0 15
collect 0 0 30
close 0
record 0 0 1
record 1 0 1
record 2 0 1
record 3 0 1
record 4 0 1
record 5 0 1
";

// What is told before an end is refused, and after it.
const BY_EACH: &str = "accepted
accepted
accepted
accepted
accepted
accepted
0 0, 0 to 6, 7 to 10: stream 0 [0 0] 21
granted
granted
14 NoSpare
(0, Ok(1))
(1, Ok(1))
(2, Ok(1))
(3, Ok(40001))
(4, Ok(1))
(5, Ok(30001))
Ok(30000)
";

const BY_EACH_AGAIN: &str = "accepted
accepted
accepted
accepted
accepted
accepted
0 0, 0 to 12, 7 to 20: stream 0 [0 0] 27
0 0, 0 to 12, 7 to 20: stream 0 [0 0] 27
0 0, 0 to 12, 7 to 30: stream 0 [0 0] 27
done
8 Closed
8 Closed
8 Closed
8 Closed
8 Closed
8 Closed
([Total { count: 12, sum: 27 }], 1, 1)
";

// How many lanes there may be, how many there are, and an end that is refused: the seats of another run of the same
// number, in which each recorded less, do not end this one, and a seat less neither.
const LANED: &[(u32, &[Act], &str)] = &[
    (
        1,
        &[Act::Bring(1, "", 6), Act::Finish],
        "1\n3 AuditMismatch\n6\n",
    ),
    (
        2,
        &[Act::Bring(1, "", 6), Act::Finish],
        "2\n3 AuditMismatch\n6\n",
    ),
    (
        6,
        &[Act::Bring(1, "", 6), Act::Finish],
        "6\n3 AuditMismatch\n6\n",
    ),
    (
        64,
        &[Act::Bring(1, "", 6), Act::RollOver(100, 3)],
        "6\n3 AuditMismatch\n6\n",
    ),
    (
        2,
        &[Act::Bring(1, "", 6), Act::RollOver(100, 3)],
        "2\n3 AuditMismatch\n6\n",
    ),
    (
        1,
        &[Act::Bring(1, "", 5), Act::Finish],
        "1\n1 RecorderMissing\n5\n",
    ),
    (
        2,
        &[Act::Bring(1, "", 5), Act::Finish],
        "2\n1 RecorderMissing\n5\n",
    ),
    (
        6,
        &[Act::Bring(1, "", 5), Act::Finish],
        "6\n1 RecorderMissing\n5\n",
    ),
    (
        64,
        &[Act::Bring(1, "", 5), Act::RollOver(100, 3)],
        "6\n1 RecorderMissing\n5\n",
    ),
    (
        2,
        &[Act::Bring(1, "", 5), Act::RollOver(100, 3)],
        "2\n1 RecorderMissing\n5\n",
    ),
];

// What happens before and after.
const IN_LANES: &[Act] = &[
    Act::Script(EACH),
    Act::Ask(3, 0, 40_000),
    Act::Ask(5, 0, 30_000),
    Act::Ask(0, 0, 40_000),
    Act::Left,
    Act::Lanes,
    Act::Given(0),
    Act::Given(1),
    Act::Back,
    Act::Script(AGAIN),
    Act::Finish,
];

#[test]
fn each_lane_is_asked_and_stays_in_its_place(rt: HostRuntime) {
    for (lanes, given, refused) in LANED {
        let mut page = Page::new(&rt, rt.alloc());
        live::<_, Marked>(&mut page, (SIX, MAIN, 7), *lanes, IN_LANES, given);
        let wanted = [BY_EACH, *refused, BY_EACH_AGAIN].concat(rt.alloc());
        page.assert(wanted.or_fail(&rt).as_str());
    }
}

// The recorders of whom seats are brought, the number of the run of another provider whose first seat comes with them,
// if one does, and what is told, up to the lengths of the journals. A provider that is not ended ends without the last
// seat.
const THERE: &[(&[u32], Option<u64>, &str)] = &[
    (
        &[0, 1],
        None,
        "([Total { count: 3, sum: 6 }, Total { count: 2, sum: 2 }], [])\n",
    ),
    (
        &[0],
        None,
        "([Total { count: 1, sum: 1 }, Total { count: 1, sum: 2 }], [1])\n",
    ),
    (
        &[1],
        None,
        "([Total { count: 2, sum: 5 }, Total { count: 1, sum: 0 }], [0])\n",
    ),
    (
        &[],
        None,
        "([Total { count: 0, sum: 0 }, Total { count: 0, sum: 0 }], [0, 1])\n",
    ),
    (
        &[1],
        Some(2),
        "2 Stranger\n2\n([Total { count: 2, sum: 5 }, Total { count: 1, sum: 0 }], [0])\n",
    ),
    (
        &[1],
        Some(1),
        "3 AuditMismatch\n2\n([Total { count: 2, sum: 5 }, Total { count: 1, sum: 0 }], [0])\n",
    ),
    (
        &[0, 1],
        Some(1),
        "2 Stranger\n3\n([Total { count: 3, sum: 6 }, Total { count: 2, sum: 2 }], [])\n",
    ),
];

// The answers to the recordings before.
const ACCEPTED: &str = "accepted
accepted
accepted
accepted
accepted
";

const ALL_THERE: &[Act] = &[
    Act::Script("record 0 0 1\nrecord 0 1 2\nrecord 1 0 3\nrecord 1 1 0\nrecord 1 0 2\n"),
    Act::Given(0),
    Act::Given(1),
    Act::FinishPartly,
    Act::Drop,
    Act::FinishPartly,
];

#[test]
fn the_seats_that_are_there_end_a_provider(rt: HostRuntime) {
    for (seats, other, told) in THERE {
        let mut page = Page::new(&rt, rt.alloc());
        let given = [Act::Keep(seats), Act::Add(*other, 0)];
        live::<_, Marked>(&mut page, (PAIR, BOTH, 0), 1, ALL_THERE, &given);
        live::<_, Audited>(&mut page, (PAIR, BOTH, 0), 1, ALL_THERE, &given);
        let wanted = [ACCEPTED, *told, "0\n0\n", ACCEPTED, *told, "3\n2\n"];
        page.assert(wanted.concat(rt.alloc()).or_fail(&rt).as_str());
    }
}

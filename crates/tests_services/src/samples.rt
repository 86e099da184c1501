//! Catalogues and configs.

/// A counter without keys.
pub(crate) const HITS: &str = "format = 1
[[meter]]
name = 'm'
[[meter.instrument]]
name = 'hits'
kind = 'counter'
range = [0, 100]
[[recorder]]
name = 'r'
[[recorder.budget]]
instrument = 0
amount = 10
";

/// A counter with a spare of two recordings, a recorder with a budget of one, and one without.
pub(crate) const SPARED: &str = "format = 2
[[meter]]
name = 'm'
[[meter.instrument]]
name = 'c'
kind = 'counter'
range = [0, 9]
spare = 2
[[recorder]]
name = 'r'
budget = [{ instrument = 0, amount = 1 }]
[[recorder]]
name = 's'
";

/// A counter with a required and an optional key, and a budget of one recording.
pub(crate) const CODES: &str = "format = 1
[[meter]]
name = 'm'
[[meter.instrument]]
name = 'c'
kind = 'counter'
range = [0, 9]
[[meter.instrument.key]]
name = 'route'
values = ['/a']
[[meter.instrument.key]]
name = 'code'
values = [200]
optional = true
[[recorder]]
name = 'r'
[[recorder.budget]]
instrument = 0
amount = 1
";

/// A counter of values from 1 with a key of two values, a budget of three recordings, and a spare of one.
pub(crate) const ROUTES: &str = "format = 2
[[meter]]
name = 'm'
[[meter.instrument]]
name = 'c'
kind = 'counter'
range = [1, 9]
key = [{ name = 'route', values = ['/a', '/b'] }]
spare = 1
[[recorder]]
name = 'r'
budget = [{ instrument = 0, amount = 3 }]
";

/// The same with a budget of twenty recordings.
pub(crate) const LONG: &str = "format = 1
[[meter]]
name = 'm'
[[meter.instrument]]
name = 'c'
kind = 'counter'
range = [1, 9]
key = [{ name = 'route', values = ['/a', '/b'] }]
[[recorder]]
name = 'r'
budget = [{ instrument = 0, amount = 20 }]
";

/// A counter with two of the four combinations of two keys, and a budget of two recordings.
pub(crate) const PAIRS: &str = "format = 2
[[meter]]
name = 'm'
[[meter.instrument]]
name = 'c'
kind = 'counter'
range = [0, 9]
key = [{ name = 'a', values = ['x', 'y'] }, { name = 'b', values = ['p', 'q'] }]
allowed = [[1, 1], [2, 2]]
[[recorder]]
name = 'r'
[[recorder.budget]]
instrument = 0
amount = 2
";

/// Two counters and two recorders.
pub(crate) const PAIR: &str = "format = 1
[[meter]]
name = 'm'
instrument = [
    { name = 'A', kind = 'counter', range = [0, 3] },
    { name = 'B', kind = 'counter', range = [0, 3] },
]
[[recorder]]
name = 'r0'
budget = [{ instrument = 0, amount = 10 }, { instrument = 1, amount = 10 }]
[[recorder]]
name = 'r1'
budget = [{ instrument = 0, amount = 10 }, { instrument = 1, amount = 10 }]
";

/// One cumulative reader.
pub(crate) const MAIN: &str = "format = 1\nreader = [{ name = 'main' }]\n";

/// A cumulative reader and a delta reader.
pub(crate) const BOTH: &str = "format = 1
[[reader]]
name = 'C'
[[reader]]
name = 'D'
temporality = { counter = 'delta' }
";

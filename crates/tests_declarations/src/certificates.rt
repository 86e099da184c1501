//! Certificates as they are read, and written again.
use crate::asserted::{OrFail, assert_equal};
use metric_cert::Certificate;
use std::alloc::{AllocError, Global};

// The certificate that a text is, as it is written, or the fault as it is printed.
fn rewritten(alloc: Global, text: &str) -> Result<String, AllocError> {
    match Certificate::read(alloc, text) {
        Ok(certificate) => certificate.write(alloc),
        Err(fault) => fault.to_string(alloc),
    }
}

// Every field, the fields of each table in another order, and numbers at their edges.
const WHOLE: &str = r#"
bound = [{ instrument = 4294967295, total = "18446744073709551615", amount = "0", low = "-170141183460469231731687303715884105728", high = "170141183460469231731687303715884105727" }, { instrument = 1, total = "7", amount = "8", low = "-9", high = "10" }]
order = [{ reader = 3, streams = [] }, { reader = 2, streams = [4294967295, 0] }]
reason = [{ view = 7, instrument = 8, takes = [] }, { view = 0, instrument = 9, rows = [[], [0, 65535]] }, { view = 1, instrument = 2, miss = "instrument_unit" }, { view = 1, instrument = 2, takes = [65535, 3] }]
format = 1
stream = [{ reader = 1, instrument = 2, view = 3, by = "budget", sets = 4 }, { reader = 5, instrument = 6, by = "product", sets = 0 }]
"#;

// The same as it is written.
const WRITTEN: &str = r#"format = 1

[[bound]]
amount = "0"
high = "170141183460469231731687303715884105727"
instrument = 4294967295
low = "-170141183460469231731687303715884105728"
total = "18446744073709551615"

[[bound]]
amount = "8"
high = "10"
instrument = 1
low = "-9"
total = "7"

[[order]]
reader = 3
streams = []

[[order]]
reader = 2
streams = [4294967295, 0]

[[reason]]
instrument = 8
takes = []
view = 7

[[reason]]
instrument = 9
rows = [[], [0, 65535]]
view = 0

[[reason]]
instrument = 2
miss = "instrument_unit"
view = 1

[[reason]]
instrument = 2
takes = [65535, 3]
view = 1

[[stream]]
by = "budget"
instrument = 2
reader = 1
sets = 4
view = 3

[[stream]]
by = "product"
instrument = 6
reader = 5
sets = 0
"#;

// Streams by list, in format 2.
const LISTED: &str = r#"
stream = [{ list = [[0, 1, 2, 3, 4, 5, 6, 65535], [1, 0, 0, 0, 0, 0, 0, 0]], reader = 1, instrument = 2, view = 3, by = "list", sets = 2 }, { reader = 5, instrument = 6, sets = 0, list = [], by = "list" }]
order = []
bound = []
reason = []
format = 2
"#;

const LISTED_WRITTEN: &str = r#"bound = []
format = 2
order = []
reason = []

[[stream]]
by = "list"
instrument = 2
list = [[0, 1, 2, 3, 4, 5, 6, 65535], [1, 0, 0, 0, 0, 0, 0, 0]]
reader = 1
sets = 2
view = 3

[[stream]]
by = "list"
instrument = 6
list = []
reader = 5
sets = 0
"#;

#[test]
fn every_field_is_read_and_written(rt: HostRuntime) {
    let told = rewritten(rt.alloc(), WHOLE).or_fail(&rt);
    assert_equal(&rt, told.as_str(), WRITTEN);
    let told = rewritten(rt.alloc(), LISTED).or_fail(&rt);
    assert_equal(&rt, told.as_str(), LISTED_WRITTEN);
}

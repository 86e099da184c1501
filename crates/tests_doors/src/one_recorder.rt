//! A test of a run of one recorder, which is opened and ends by callers with contracts of their own.
use crate::asserted::OrFail;
use crate::page::Page;
use crate::proved_caller::{opened, totals_of_one};
use metric_sdk::counter;

const CATALOGUE: &str = "format = 1
[[meter]]
name = 'm'
[[meter.instrument]]
name = 'c'
kind = 'counter'
range = [1, 9]
[[recorder]]
name = 'r'
budget = [{ instrument = 0, amount = 3 }]
";

const CONFIG: &str = "format = 1\n[[reader]]\nname = 'q'\n";

#[test]
fn a_run_of_one_recorder_comes_to_what_it_was_told(rt: HostRuntime) {
    let mut page = Page::new(&rt, rt.alloc());
    let (provider, mut recorders, _readers) = opened(&rt, rt.alloc(), CATALOGUE, CONFIG).or_fail(
        &rt,
    );
    let orders = counter(provider.plan(), "m", "c", &[]).or_fail(&rt);
    let mut recorder = recorders.pop().expect(&rt, "no recorder");
    for value in [4, 5] {
        let answer = orders.add(&rt, &provider, &mut recorder, &[], value);
        answer.or_fail(&rt);
    }
    let totals = totals_of_one(&rt, rt.alloc(), provider, recorder).or_fail(&rt);
    page.tell(totals.instruments.as_slice());
    drop(totals);
    page.assert("[Total { count: 2, sum: 9 }]\n");
}

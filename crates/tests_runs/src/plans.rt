//! Plans, read from texts.
use crate::asserted::OrFail;
use metric_catalogue::Catalogue;
use metric_check::check;
use metric_facts::Facts;
use metric_make::make;
use metric_plan::Plan;
use metric_views::Config;
use std::alloc::Global;
use std::process::Abort;

/// The plan of a trial.
pub(crate) fn plan_of<R: Abort>(rt: &R, alloc: Global, catalogue: &str, config: &str) -> Plan {
    let catalogue = Catalogue::read(alloc, catalogue).or_fail(rt);
    let config = Config::read(alloc, config).or_fail(rt);
    match Plan::trial(alloc, catalogue, config) {
        Ok(plan) => plan,
        Err((_, _, fault)) => Err(fault).or_fail(rt),
    }
}

/// The plan of the certificate that is made.
pub(crate) fn certified_plan<R: Abort>(
    rt: &R,
    alloc: Global,
    catalogue: &str,
    config: &str,
) -> Plan {
    let catalogue = Catalogue::read(alloc, catalogue).or_fail(rt);
    let config = Config::read(alloc, config).or_fail(rt);
    let certificate = make(alloc, &catalogue, &config).or_fail(rt);
    match check(alloc, catalogue, config, &certificate) {
        Ok(plan) => plan,
        Err((_, _, fault)) => Err(fault).or_fail(rt),
    }
}

fn is_dense(facts: &Facts) -> bool {
    facts.streams.as_slice().iter().all(|s| s.by_product)
}

/// The certified plan, whose streams are all by product.
pub(crate) fn dense_plan_of<R: Abort>(
    rt: &R,
    alloc: Global,
    catalogue: &str,
    config: &str,
) -> Plan {
    let plan = certified_plan(rt, alloc, catalogue, config);
    if plan.all_facts().iter().all(|facts| is_dense(facts)) {
        plan
    } else {
        panic!(rt; "a stream that is not by product")
    }
}

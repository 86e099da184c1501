//! What the library tells a person where the programs tell something else: they read format 3, and say in their own words
//! that memory is out.
use crate::asserted::{OrFail, assert_equal};
use metric_catalogue::{Catalogue, CatalogueFault};
use metric_check::{CheckFault, ClaimFault, ClaimPlace};
use metric_messages::{NamedText, diagnose_catalogue, diagnose_check};
use std::alloc::Global;

// Promises nothing of the text, so that no test is proved by its parts.
fn fault_of(alloc: Global, text: &str) -> Option<CatalogueFault> {
    Catalogue::read(alloc, text).err()
}

#[test]
fn a_format_of_the_program_alone_is_told(rt: HostRuntime) {
    let (name, text, alloc) = ("catalogue.toml", "# one\nformat = 3", rt.alloc());
    let fault = fault_of(alloc, text).expect(&rt, "read");
    let told = diagnose_catalogue(alloc, NamedText { name, text }, fault).or_fail(&rt);
    let told = format!(in alloc; "{told}").or_fail(&rt);
    let wanted = "catalogue.toml:2:1: catalogue format 3 is not supported (only 1 and 2)";
    assert_equal(&rt, told.as_str(), wanted);
}

#[test]
fn want_of_memory_in_a_check_is_told(rt: HostRuntime) {
    let (name, text, alloc) = ("w.toml", "format = 1", rt.alloc());
    let claim = ClaimFault {
        fault: CheckFault::Memory,
        place: ClaimPlace::Nowhere,
    };
    let told = diagnose_check(alloc, NamedText { name, text }, claim).or_fail(&rt);
    let told = format!(in alloc; "{told}").or_fail(&rt);
    assert_equal(&rt, told.as_str(), "w.toml: out of memory");
}

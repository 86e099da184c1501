//! The faults of a certificate.
ghost use Rattle.std.specs.Prelude.{◌≡◌, IfOk, None};
ghost use Rattle.metric_messages.specs.Marks.{StandsInCertificate};

use crate::diagnosis::Diagnosis;
use crate::sources::NamedText;
use crate::spot::{Spot, diagnose};
use crate::toml_fault::{MEMORY, want_of_memory};
use metric_cert::{CertFault, CertPlace};
use metric_check::{CheckFault, ClaimFault, ClaimPlace};
use std::alloc::{AllocError, Global};
use std::fmt;

/// What a person is told of a fault of a certificate's text: where it breaks off, or the first table that is none of a
/// certificate. Fails only when out of memory.
pub fn diagnose_certificate<'t>(
    alloc: Global,
    source: NamedText<'t>,
    fault: CertFault,
) -> Result<Diagnosis<'t, CertFault>, AllocError>
    ensures fault { IfOk result (λ told. told.fault ≡ fault) }
    ensures file { IfOk result (λ told. told.file.now ≡ source.entry.name.now) }
    ensures place { IfOk result (λ told.
        StandsInCertificate source.entry.text.now fault told.position) }
{
    let spot = match fault {
        CertFault::NotToml => Spot::Text,
        CertFault::Shape(CertPlace::Top) => Spot::Nowhere(SHAPE),
        CertFault::Shape(CertPlace::Entry { list, number }) => Spot::Entry(list, number),
        CertFault::Memory => Spot::Nowhere(MEMORY),
    };
    diagnose(alloc, source, fault, spot)
}

const SHAPE: &str =
    "the tables are not those of a certificate: it was altered, or is of another format; make it anew";

/// What a person is told of a certificate that was read and is not accepted: that it is of other files or was altered,
/// what the check compared, and the number of the entry that it stopped at. It has no position. Fails only when out of
/// memory.
pub fn diagnose_check<'t>(
    alloc: Global,
    source: NamedText<'t>,
    fault: ClaimFault,
) -> Result<Diagnosis<'t, ClaimFault>, AllocError>
    ensures fault { IfOk result (λ told. told.fault ≡ fault) }
    ensures file { IfOk result (λ told. told.file.now ≡ source.entry.name.now) }
    ensures place { IfOk result (λ told. told.position ≡ None) }
{
    let words = words_of(alloc, fault)?;
    Ok(Diagnosis::new(source, fault, None, words))
}

fn words_of(alloc: Global, claim: ClaimFault) -> Result<String, AllocError> {
    if matches!(claim.fault, CheckFault::Memory) {
        return want_of_memory(alloc);
    }
    let compared = compared_by(claim.fault);
    let entry = Entry(claim.place);
    format!(in alloc;
        "the certificate is of other files, or was altered: {compared}{entry}; make it anew"
    )
}

// The entry that a fault is of, behind what is told of it.
#[derive(Drop)]
struct Entry(ClaimPlace);

impl fmt::Display for Entry {
    fn fmt<W: fmt::Write>(&self, f: &mut fmt::Formatter<W>) -> fmt::Result {
        match self.0 {
            ClaimPlace::Reason(number) => write!(f, " (reason {number})"),
            ClaimPlace::Stream(number) => write!(f, " (stream {number})"),
            ClaimPlace::Bound(number) => write!(f, " (instrument {number})"),
            ClaimPlace::Orders | ClaimPlace::Nowhere => Ok(()),
        }
    }
}

// What the step that finds a fault compares.
fn compared_by(fault: CheckFault) -> &'static str {
    match fault {
        CheckFault::PairMissing => "its reasons are not one for each view and instrument, in order",
        CheckFault::BadTakes =>
            "a reason does not spell the name of an instrument that a view selects",
        CheckFault::BadRows =>
            "a reason does not show that a view leaves the name of an instrument out",
        CheckFault::BadMiss =>
            "a reason names a criterion of a view that holds, or hides one that fails",
        CheckFault::StreamMissing => "a stream of these files is not in its place",
        CheckFault::StreamStrange => "it has a stream that these files do not give",
        CheckFault::BadOrder => "the streams of a reader are not in the order of their identities",
        CheckFault::BadSets => "a stream may have another number of series than it says",
        CheckFault::LimitExceeded => "a stream may have more series than its limit",
        CheckFault::SumLow => "the least sum of an instrument is another than it says, or too low",
        CheckFault::SumHigh =>
            "the greatest sum of an instrument is another than it says, or too high",
        CheckFault::CountRange => {
            "the budgets and the spare of an instrument are another number than it says, or too many"
        }
        CheckFault::AmountRange => {
            "the sums of an instrument are further apart than it says, or too far"
        }
        CheckFault::Memory => "",
    }
}

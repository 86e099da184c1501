//! What the clauses of [`MetricExporter`](crate::MetricExporter) come to over a whole run of calls.
ghost use Rattle.metric_export.specs.Calls.{IsFaultOfDevice, StaysShutDown};

/// After a call of `shutdown`, whatever it answered, every call of an exporter answers `ShutDown`. Does
/// nothing.
#[tactic(auto, using(crate::proofs::CallLaws::stays_shut_down))]
pub fn shut_down_exporters_stay_shut_down()
    ensures { StaysShutDown }
{}

/// A call of a new exporter answers `Write` only where its device failed in that call or an earlier
/// one. Does nothing.
#[tactic(auto, using(crate::proofs::CallLaws::faults_of_device))]
pub fn write_faults_are_of_the_device()
    ensures { IsFaultOfDevice }
{}

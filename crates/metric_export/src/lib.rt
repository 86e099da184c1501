//! Exporters, to which batches are handed on.
//!
//! [`write_batch`] writes the text of one batch to a sink, [`write_encoded`] its bytes in another [`Encoding`],
//! [`copy_batch`] copies one, and [`attributes`] are those of a point. A [`MetricExporter`] takes batch after batch
//! until it is shut down (Metrics SDK, push metric exporter); [`TextExporter`] writes them to a sink, a
//! [`KeepingExporter`] keeps the batches in memory, and a [`Queued`] keeps those that the exporter below it refused and
//! tries them again; a [`ToldQueue`] tells its [`QueueCounts`]. [`export_each`] hands a list on. None of them waits.
#![tactic(auto)]

mod batch;
mod belonging;
mod copies;
mod encoding;
mod exporter;
mod fault;
mod handing;
mod keeping_exporter;
mod laws;
mod lent;
mod point_attributes;
mod queued;
mod reopening_exporter;
mod state;
mod text_exporter;
mod told_queue;

pub use batch::{write_batch, write_encoded};
pub use belonging::{own_batch, own_plan};
pub use copies::copy_batch;
pub use encoding::{Encoding, Plain};
pub use exporter::MetricExporter;
pub use fault::ExportFault;
pub use handing::{Handed, export_each, has_points};
pub use keeping_exporter::KeepingExporter;
pub use laws::{shut_down_exporters_stay_shut_down, write_faults_are_of_the_device};
pub use point_attributes::attributes;
pub use queued::{Queued, every_batch_is_accounted_for};
pub use reopening_exporter::{OpenSink, ReopeningExporter};
pub use state::ExporterState;
pub use text_exporter::TextExporter;
pub use told_queue::{QueueCounts, ToldQueue};

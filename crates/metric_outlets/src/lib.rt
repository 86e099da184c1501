//! Encodings that tools read. Exporters that write to a sink take them:
//! [`TextExporter::of`](metric_export::TextExporter::of) and its like. And an exporter that replaces a page.
#![tactic(auto)]

mod exposition;
mod otlp_bytes;
mod otlp_lines;
mod outlet_fault;
mod page_exporter;
mod served;

pub use exposition::Exposition;
pub use otlp_bytes::OtlpBytes;
pub use otlp_lines::OtlpLines;
pub use outlet_fault::OutletFault;
pub use page_exporter::{PageExporter, Pages};
pub use served::Served;

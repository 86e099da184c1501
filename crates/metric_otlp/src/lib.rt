//! Batches in the OpenTelemetry protocol (OTLP 1.x): as the bytes of a request, and as lines of JSON.
//!
//! A batch is a message `ExportMetricsServiceRequest` (opentelemetry.proto.collector.metrics.v1) with one
//! `ResourceMetrics`, so that requests one after the other are the request of all their batches. A batch without
//! points is nothing.
#![tactic(auto)]

mod attribute;
mod attribute_json;
mod field;
mod json;
mod laws;
mod line;
mod member;
mod metric;
mod point;
mod point_json;
mod report;
mod request;
mod series;

pub use laws::requests_join;
pub use line::push_line;
pub use request::push_request;

//! The instruments of a certified plan, for a host that calls them by C.
//!
//! A host keeps a handle for each instrument, each recorder and each reader: a struct of one pointer, null before it is
//! opened and after it is freed. Each call is total: a handle that is null or holds another kind, a buffer that is too
//! short and bytes that are no UTF-8 are answers. The host keeps a mutex for each instrument, and makes each call on it under that; a
//! recorder or a reader belongs to one thread at a time.
//!
//! | Answer | What it says |
//! |---|---|
//! | 0 | done |
//! | 1 to 14 | the number of a refusal |
//! | 100 | a handle is null, or holds another kind |
//! | 101 | bytes are no UTF-8, a length leads past the texts, or an attribute is of no kind |
//! | 102 | a buffer, or a list of handles, is too short |
//! | 103 | the catalogue or the config is at fault |
//! | 104 | the seat of some recorder is not there |
//! | 105 | an instrument's state is not what its recorders were told |
//! | 106 | there is nothing of this number |
//! | 107 | a resource has more than 64 attributes |
//! | 108 | an attribute of a resource has an empty key |
//! | 109 | a handle that is to be filled holds something |
#![tactic(auto)]

mod attributes;
mod batch_numbers;
mod batch_texts;
mod batches;
mod budgets;
mod certified;
mod codes;
mod collections;
mod empty;
mod ending;
mod expecting;
mod explaining;
mod exposed;
mod grants;
mod handles;
mod headrooms;
mod held;
mod in_order;
pub mod laws;
mod linting;
mod names;
mod next;
mod no_plan;
mod opening;
mod otlp;
mod pages;
mod pairs;
mod parts;
mod plan_streams;
mod prepared;
mod ranges;
mod recordings;
mod resources;
mod settlements;
mod telling;
mod texts;
mod warnings;

pub use attributes::Attribute;
pub use batch_numbers::{wormweekly_boundaries, wormweekly_buckets};
pub use batch_texts::{wormweekly_key, wormweekly_stream_text, wormweekly_value};
pub use batches::{
    BatchOut, PointOut, StreamOut, wormweekly_batch, wormweekly_point, wormweekly_stream,
};
pub use budgets::{wormweekly_ask, wormweekly_budget, wormweekly_spare};
pub use certified::wormweekly_open_certified_run;
pub use collections::{wormweekly_collect, wormweekly_collect_also, wormweekly_text};
pub use ending::{
    may_be_sent, wormweekly_close, wormweekly_free_instrument, wormweekly_free_reader,
    wormweekly_free_recorder,
};
pub use expecting::wormweekly_expect;
pub use explaining::wormweekly_explain;
pub use exposed::wormweekly_expose;
pub use grants::wormweekly_grant;
pub use handles::Handle;
pub use headrooms::{HeadroomOut, wormweekly_headrooms};
pub use linting::wormweekly_lint;
pub use names::{wormweekly_name, wormweekly_reader_name};
pub use next::wormweekly_next_run;
pub use opening::{Counts, wormweekly_open_run};
pub use otlp::wormweekly_otlp;
pub use pages::{wormweekly_prometheus, wormweekly_prometheus_target};
pub use plan_streams::{PlanStreamOut, wormweekly_plan_stream};
pub use prepared::{wormweekly_prepare, wormweekly_record_list, wormweekly_record_prepared};
pub use ranges::{RangeOut, wormweekly_range};
pub use recordings::wormweekly_record;
pub use settlements::{TotalOut, wormweekly_settle};
pub use warnings::wormweekly_warnings;

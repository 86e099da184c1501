//! What a person is told of a fault: where it stands, and its cause in words.
//!
//! | What answered | What tells it |
//! |---|---|
//! | `Catalogue::open` and `read` | `diagnose_catalogue` |
//! | `Config::read` | `diagnose_config` |
//! | the reader of a certificate | `diagnose_certificate` |
//! | the check of a certificate that was read | `diagnose_check` |
//! | `make`, of a catalogue and a config that are not safe | `diagnose_make` |
//! | `lint`, each remark | `diagnose_remark` |
//! | `exposure_faults`, each fault | `diagnose_exposure` |
//! | what reads any other text | `diagnose_at` |
//!
//! Each call takes the fault with the texts that it is of, and gives a `Diagnosis` of it, which keeps the fault itself.
//! Printed, it is one line, and its `excerpt` shows the place:
//!
//! ```text
//! catalogue.toml:10:1: instrument 1 "jobs": unknown kind "guage"; expected counter, up_down_counter, histogram or gauge; did you mean gauge?
//!    10 | kind = "guage"
//!       | ^
//! ```
//!
//! `specs/Marks.antt`, `specs/Places.antt` and `specs/Exposures.antt` say where a fault stands, and in which file; what the
//! words say, no contract does.
#![tactic(auto)]

mod buckets;
mod catalogue;
mod catalogue_cause;
mod cause;
mod certificate;
mod choices;
mod collected;
mod config;
mod config_cause;
mod diagnosis;
mod excerpt;
mod exposures;
mod finder;
mod lexer;
mod marked;
mod missed;
mod mistake;
mod named;
mod near;
mod placed;
mod places;
mod reasons;
mod remarks;
mod room;
mod sentence;
mod shown;
mod site;
mod sources;
mod spot;
mod standing;
mod standing_tables;
mod stream_places;
mod tables;
mod toml_fault;
mod unsafe_parts;
mod unused;
mod way;

pub use catalogue::diagnose_catalogue;
pub use certificate::{diagnose_certificate, diagnose_check};
pub use config::diagnose_config;
pub use diagnosis::Diagnosis;
pub use excerpt::Excerpt;
pub use exposures::diagnose_exposure;
pub use named::{NamedStream, stream_of};
pub use near::nearest;
pub use placed::diagnose_at;
pub use remarks::diagnose_remark;
pub use shown::Quoted;
pub use sources::{NamedText, Pair};
pub use unsafe_parts::diagnose_make;

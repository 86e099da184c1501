//! What an operator and a service want to know before they run: how often each instrument may be recorded, what looks
//! like a mistake in a catalogue and a config, what a refusal is about, and where a fault stands in its text.
//!
//! `specs/Limits.antt` and `specs/Headrooms.antt` say what a headroom is, `specs/Remarks.antt` what is remarked, and
//! `specs/Explanations.antt` what a refusal is about.
#![tactic(auto)]

mod collected;
mod explanation;
mod headroom;
mod histograms;
mod limit;
mod linting;
mod position;
mod remark;
mod said;
mod selected;
mod unused;
mod values;

pub use explanation::{Explanation, Mistake, explain_refusal};
pub use headroom::{Headroom, headrooms, sets_of};
pub use limit::Limit;
pub use linting::{lint, remark_of};
pub use position::{Position, begins, locate_in_catalogue, locate_in_config};
pub use remark::{KeyList, Remark, is_kind};

//! The attributes of what produces the metrics, as every way out of them tells them.
#![tactic(auto)]

mod fault;
mod resource;

pub use fault::ResourceFault;
pub use resource::Resource;

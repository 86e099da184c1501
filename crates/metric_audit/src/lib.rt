//! A book that can be audited, and the audit.
//!
//! `Audited` keeps the recordings beside the running tables. Whoever is handed the journal, each recorder's slips and
//! the batches can show by `audit` that they agree, and by `audit_all` those of a whole run.
#![tactic(auto)]

mod audited;
mod auditing;
mod batches;
mod entries;
mod fault;
mod reader_facts;
mod replay;
mod run_audit;
mod same;
mod slips;
mod sorted;

pub use audited::Audited;
pub use auditing::audit;
pub use fault::AuditFault;
pub use run_audit::{Extent, RunAuditFault, RunLists, audit_all};

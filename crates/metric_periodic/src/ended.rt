//! How the run of an outlet ended.
ghost use Rattle.std.specs.Prelude.{◌≡◌};
ghost use Rattle.metric_periodic.specs.Outlets.{is_clean, is_collected, is_exported};

use crate::each::RefusedInstrument;
use metric_export::ExportFault;
use metric_history::Batch;
use std::fmt;

/// What was refused to the last collection of a reader.
#[derive(Drop)]
pub enum Uncollected {
    /// All instruments: memory ran out for the list of their batches.
    All,
    /// These instruments, in order, each with its cause. The batches of the others were handed on.
    Instruments(Vec<RefusedInstrument>),
}

/// Batches that an exporter neither took nor keeps.
#[derive(Drop)]
pub struct Unexported {
    /// In order. The exporter refused the first, and was not handed the others. They can be exported later, by the
    /// plan.
    pub batches: Vec<Batch>,
    /// Why.
    pub fault: ExportFault,
}

/// How the run of an outlet ended: what is left of it.
#[derive(Drop)]
pub struct ReaderEnd {
    /// The number of its reader.
    pub reader: u32,
    /// What was refused to its last collection, if anything was.
    pub uncollected: Option<Uncollected>,
    /// What its last collection returned and the exporter neither took nor keeps.
    pub unexported: Option<Unexported>,
    /// Why the exporter did not send everything it keeps, if it did not: it still keeps that.
    pub unsent: Option<ExportFault>,
    /// Why the exporter was not flushed, if it was not.
    pub unflushed: Option<ExportFault>,
}

impl ReaderEnd {
    /// Whether no instrument was refused.
    pub fn is_collected(&self) -> bool
        ensures { result ≡ is_collected self.now }
    {
        self.uncollected.is_none()
    }

    /// Whether no batch is handed back: the exporter took or keeps each.
    pub fn is_exported(&self) -> bool
        ensures { result ≡ is_exported self.now }
    {
        self.unexported.is_none()
    }

    /// Whether nothing is left.
    pub fn is_clean(&self) -> bool
        ensures { result ≡ is_clean self.now }
    {
        self.is_collected()
            && self.is_exported()
            && self.unsent.is_none()
            && self.unflushed.is_none()
    }
}

impl fmt::Display for ReaderEnd {
    fn fmt<W: fmt::Write>(&self, f: &mut fmt::Formatter<W>) -> fmt::Result {
        write!(f, "reader {}", self.reader)?;
        if let Some(left) = &self.uncollected {
            write!(f, "{left}")?;
        }
        if let Some(left) = &self.unexported {
            let (count, fault) = (left.batches.len(), left.fault);
            write!(f, ", {count} batches not exported: {fault}")?;
        }
        if let Some(fault) = self.unsent {
            write!(f, ", not sent: {fault}")?;
        }
        match self.unflushed {
            Some(fault) => write!(f, ", not flushed: {fault}"),
            None => Ok(()),
        }
    }
}

impl fmt::Display for Uncollected {
    fn fmt<W: fmt::Write>(&self, f: &mut fmt::Formatter<W>) -> fmt::Result {
        match self {
            Uncollected::All => f.write_str(", all instruments: Memory"),
            Uncollected::Instruments(refused) => {
                for RefusedInstrument {
                    instrument,
                    refusal,
                } in refused {
                    write!(f, ", instrument {instrument}: {refusal}")?;
                }
                Ok(())
            }
        }
    }
}

//! What is left of a service whose run did not end cleanly.
use crate::service::{Service, TellFault, TellLeft};
use metric_export::ExportFault;
use metric_history::Book;
use metric_periodic::ReaderEnd;
use metric_plan::Plan;
use metric_provider::{FinishFault, Gate, Recorder, RollFault, Totals};
use std::fmt;

/// The next run of a service, and what the one before came to.
#[derive(Drop)]
pub struct NextRun<O, B: Book, G: Gate> {
    /// The service, in its next run.
    pub service: Service<O, B, G>,
    /// The seat of each recorder for the next run, in order, told of nothing.
    pub recorders: Vec<Recorder>,
    /// What the run before came to.
    pub totals: Totals,
}

/// What a service came to.
#[derive(Drop)]
pub struct Ended<O> {
    /// What its last run came to.
    pub totals: Totals,
    /// The plan, by which what was not exported can be exported.
    pub plan: Plan,
    /// The outlets, whose exporters are flushed and open.
    pub outlets: O,
}

/// Why a run goes on.
#[derive(Clone, Copy, Debug, PartialEq, Eq, Drop)]
pub enum UnendedFault {
    /// Out of memory to list how the readers end: none was asked.
    Memory,
    /// The last collection of a reader was refused an instrument: its recordings would be missing.
    Uncollected,
    /// The provider was not finished.
    Finish(FinishFault),
    /// The provider did not roll over.
    Roll(RollFault),
}

/// A service whose run goes on.
#[derive(Drop)]
pub struct Unended<O, B: Book, G: Gate> {
    /// The service.
    pub service: Service<O, B, G>,
    /// The seats of its recorders.
    pub recorders: Vec<Recorder>,
    /// Why.
    pub fault: UnendedFault,
}

impl<O, B: Book, G: Gate> Unended<O, B, G> {
    // The name of the first recorder whose seat is missing, where that is why.
    fn missing(&self) -> Option<&str> {
        let is_missing = matches!(
            self.fault,
            UnendedFault::Finish(FinishFault::RecorderMissing)
                | UnendedFault::Roll(RollFault::Finish(FinishFault::RecorderMissing))
        );
        if !is_missing {
            return None;
        }
        let declared = self.service.plan().catalogue().recorders();
        for (number, recorder) in declared.iter().enumerate() {
            if !self
                .recorders
                .iter()
                .any(|seat| seat.number() as usize == number)
            {
                return Some(recorder.name.as_str());
            }
        }
        None
    }
}

/// What is left where a run did not end cleanly: of a roll-over the [`NextRun`] or of an end what was [`Ended`], if the
/// run ended, and whatever else is left.
#[derive(Drop)]
pub struct Left<T, O, B: Book, G: Gate> {
    /// What the run ended with, or the service, which goes on.
    pub done: Result<T, Unended<O, B, G>>,
    /// How each outlet ended, in their order, with the batches that nobody took and nobody keeps. They can be exported
    /// later, by the plan.
    pub ends: Vec<ReaderEnd>,
    /// Whether the last batches of each reader count all recordings of the totals, where the run ended. Else recordings
    /// were made after its last collection, by a seat that was not at rest.
    pub is_counted: bool,
    /// Whether each outlet has the seat of its reader in the next run, where one began. Else it keeps its old one,
    /// whose collections are refused.
    pub are_seated: bool,
}

impl<T: Drop, O: Drop, B: Book, G: Gate> fmt::Display for Left<T, O, B, G> {
    fn fmt<W: fmt::Write>(&self, f: &mut fmt::Formatter<W>) -> fmt::Result {
        match &self.done {
            Ok(_) => f.write_str("ended")?,
            Err(unended) => {
                write!(f, "not ended: {}", unended.fault)?;
                if let Some(recorder) = unended.missing() {
                    write!(f, ": {recorder}")?;
                }
            }
        }
        if !self.is_counted {
            f.write_str("; recordings after the last collection")?;
        }
        if !self.are_seated {
            f.write_str("; a reader has no seat in the next run")?;
        }
        for end in &self.ends {
            if !end.is_clean() {
                write!(f, "; {end}")?;
            }
        }
        Ok(())
    }
}

impl<T: Drop, O: Drop, B: Book, G: Gate> fmt::Debug for Left<T, O, B, G> {
    fn fmt<W: fmt::Write>(&self, f: &mut fmt::Formatter<W>) -> fmt::Result {
        write!(f, "{self}")
    }
}

impl<T: Drop, O: Drop, B: Book, G: Gate> std::error::Error for Left<T, O, B, G> {}

impl fmt::Display for UnendedFault {
    fn fmt<W: fmt::Write>(&self, f: &mut fmt::Formatter<W>) -> fmt::Result {
        match self {
            UnendedFault::Memory => f.write_str("out of memory"),
            UnendedFault::Uncollected => f.write_str("not collected"),
            UnendedFault::Finish(fault) => write!(f, "{fault}"),
            UnendedFault::Roll(fault) => write!(f, "{fault}"),
        }
    }
}

impl fmt::Display for TellFault {
    fn fmt<W: fmt::Write>(&self, f: &mut fmt::Formatter<W>) -> fmt::Result {
        match self {
            TellFault::UnknownReader => f.write_str("no such reader, or it has its exporter"),
            TellFault::Untold(reader) => {
                write!(f, "reader {reader} has no exporter, and is not ignored")
            }
            TellFault::Exporter(ExportFault::OtherReader) => {
                f.write_str("the exporter was made for another reader")
            }
            TellFault::Exporter(fault) => write!(f, "{fault}"),
        }
    }
}

impl<E: Drop, O: Drop, B: Book, G: Gate> fmt::Display for TellLeft<E, O, B, G> {
    fn fmt<W: fmt::Write>(&self, f: &mut fmt::Formatter<W>) -> fmt::Result {
        write!(f, "{}", self.fault)
    }
}

impl<E: Drop, O: Drop, B: Book, G: Gate> fmt::Debug for TellLeft<E, O, B, G> {
    fn fmt<W: fmt::Write>(&self, f: &mut fmt::Formatter<W>) -> fmt::Result {
        write!(f, "{self}")
    }
}

impl<E: Drop, O: Drop, B: Book, G: Gate> std::error::Error for TellLeft<E, O, B, G> {}

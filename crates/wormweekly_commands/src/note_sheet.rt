//! Remarks as rows, for machines.
use crate::message::{TITLES, put_position};
use crate::notes::Notes;
use crate::noting::MOST_NOTES;
use crate::parts::Texts;
use crate::telling::pair_of;
use metric_command_lines::Request;
use metric_exposure::ExposureFault;
use metric_lint::Remark;
use metric_messages::{Diagnosis, Pair, diagnose_exposure, diagnose_remark};
use metric_sheet::{Cell, Row, Sheet};
use std::alloc::{AllocError, Global};

/// The remarks: the first with their places, and the others in words alone.
#[derive(Clone, Copy)]
pub(crate) struct NoteSheet<'a> {
    pub request: &'a Request,
    pub texts: &'a Texts,
    pub notes: &'a Notes,
}

impl Sheet for NoteSheet<'_> {
    fn titles(&self) -> &'static [&'static str] {
        TITLES.as_slice()
    }

    fn rows(&self) -> usize {
        self.notes.count()
    }

    fn row(&self, alloc: Global, number: usize) -> Result<Vec<Cell>, AllocError> {
        let mut row = Row::new(alloc);
        let told = self.notes.told_at(number);
        if number < MOST_NOTES {
            self.put_note(&mut row, told)?;
        } else {
            self.put_words(&mut row, told);
        }
        row.cells()
    }
}

impl NoteSheet<'_> {
    // The cells of the remark of a number, where there is one.
    fn put_note(&self, row: &mut Row, number: usize) -> Result<(), AllocError> {
        let pair = pair_of(&self.request.files, self.texts, &self.notes.declared);
        let remarks = self.notes.remarks.as_slice();
        match remarks.get(number) {
            Some(remark) => {
                let told = diagnose_remark(row.alloc(), pair, *remark)?;
                put_told(row, remark.kind(), &told);
                Ok(())
            }
            None => self.put_exposure(row, pair, number.saturating_sub(remarks.len())),
        }
    }

    // The kind and the words of the remark of a number, where there is one.
    fn put_words(&self, row: &mut Row, number: usize) {
        let remarks = self.notes.remarks.as_slice();
        if let Some(remark) = remarks.get(number) {
            row.text(remark.kind());
            put_nowhere(row);
            row.put(remark_cell(row.alloc(), *remark));
        } else if let Some(exposure) = self
            .notes
            .exposures
            .get(number.saturating_sub(remarks.len()))
        {
            row.text("exposure");
            put_nowhere(row);
            row.put(exposure_cell(row.alloc(), exposure.fault));
        }
    }

    fn put_exposure(&self, row: &mut Row, pair: Pair<'_>, number: usize) -> Result<(), AllocError> {
        let streams = self.notes.streams.as_slice();
        if let Some(exposure) = self.notes.exposures.get(number) {
            let outlet = exposure.outlet;
            let told = diagnose_exposure(row.alloc(), pair, streams, outlet, exposure.fault)?;
            put_told(row, "exposure", &told);
        }
        Ok(())
    }
}

fn put_told<F>(row: &mut Row, kind: &str, told: &Diagnosis<'_, F>) {
    row.text(kind);
    row.text(told.file);
    put_position(row, told.position);
    row.text(told.words.as_str());
}

// What has no place.
fn put_nowhere(row: &mut Row) {
    row.nothing();
    row.nothing();
    row.nothing();
}

fn remark_cell(alloc: Global, remark: Remark) -> Result<Cell, AllocError> {
    Ok(Cell::Text(format!(in alloc; "{remark}")?))
}

fn exposure_cell(alloc: Global, fault: ExposureFault) -> Result<Cell, AllocError> {
    Ok(Cell::Text(format!(in alloc; "{fault}")?))
}

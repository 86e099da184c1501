//! How often an instrument may be recorded, and between which numbers its sums stay.
ghost use Rattle.std.specs.Prelude.{◌≡◌};
ghost use Rattle.toml.specs.View.{table_view};
ghost use Rattle.metric_table.specs.Fields.{only};
ghost use Rattle.metric_cert.specs.Bounds.{bound_fields};
ghost use Rattle.metric_cert.specs.Reading.{shape_faults};

use crate::fault::{CertFault, shape_faults};
use crate::fields::Fields;
use crate::numbers::{Decimal, Number, SignedDecimal};
use crate::tables::{needed, put};
use metric_table::only;
use std::alloc::{AllocError, Global};
use toml::Table;

/// The bounds of an instrument.
#[derive(Clone, Copy, Debug, Drop)]
pub struct InstrumentBound {
    /// The number of the instrument.
    pub instrument: u32,
    /// How often it may be recorded: the sum of its budgets and its spare.
    pub total: u64,
    /// How far apart two sums of its values may be.
    pub amount: u64,
    /// The least sum of its values.
    pub low: i128,
    /// The greatest sum of its values.
    pub high: i128,
}

/// The table of the bounds of an instrument.
pub(crate) struct BoundTable;

impl Fields for BoundTable {
    ghost use Rattle.metric_cert.specs.Bounds.{bound_of};

    type Read = InstrumentBound;

    ghost step = { bound_of };

    ghost levels = { 0 };

    #[tactic(auto, unfolding(crate::specs::Bounds::bound_of))]
    fn read(alloc: Global, table: &Table) -> Result<InstrumentBound, CertFault> {
        only_bound(table)?;
        let instrument = needed::<Number>(alloc, table, "instrument")?;
        let total = needed::<Decimal>(alloc, table, "total")?;
        let amount = needed::<Decimal>(alloc, table, "amount")?;
        let low = needed::<SignedDecimal>(alloc, table, "low")?;
        let high = needed::<SignedDecimal>(alloc, table, "high")?;
        Ok(InstrumentBound {
            instrument,
            total,
            amount,
            low,
            high,
        })
    }

    fn put(alloc: Global, table: &mut Table, entry: &InstrumentBound) -> Result<(), AllocError> {
        put::<Number>(alloc, table, "instrument", &entry.instrument)?;
        put::<Decimal>(alloc, table, "total", &entry.total)?;
        put::<Decimal>(alloc, table, "amount", &entry.amount)?;
        put::<SignedDecimal>(alloc, table, "low", &entry.low)?;
        put::<SignedDecimal>(alloc, table, "high", &entry.high)
    }
}

fn only_bound(table: &Table) -> Result<(), CertFault>
    ensures { result ≡ only shape_faults bound_fields (table_view table.now) }
{
    only(
        table,
        &["instrument", "total", "amount", "low", "high"],
        &shape_faults(),
    )
}

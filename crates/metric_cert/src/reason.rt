//! Why a view selects an instrument, or why it does not.
ghost use Rattle.std.specs.Prelude.{◌≡◌, OnOk};
ghost use Rattle.toml.specs.View.{table_view};
ghost use Rattle.metric_base.specs.Steps.{Gives};
ghost use Rattle.metric_table.specs.Fields.{only};
ghost use Rattle.metric_cert.specs.Names.{criterion_name, criterion_named};
ghost use Rattle.metric_cert.specs.Reading.{shape_faults};
ghost use Rattle.metric_cert.specs.Reasons.{PutsEvidence, evidence_of, one_of, reason_fields};

use crate::entry::EntryKind;
use crate::fault::{CertFault, MISSHAPEN, shape_faults};
use crate::fields::Fields;
use crate::lists::ListOf;
use crate::numbers::{Number, ShortNumber};
use crate::tables::{needed, optional, put};
use metric_base::Items;
use metric_glob::Reason;
use metric_table::{only, text_of};
use std::alloc::{AllocError, Global};
use toml::{Table, Value};

/// A criterion of a view beside the pattern of the instrument's name (Metrics SDK, instrument selection
/// criteria).
#[derive(Clone, Copy, Debug, PartialEq, Eq, Drop)]
pub enum Criterion {
    /// The kind of the instrument.
    InstrumentType,
    /// The unit of the instrument.
    InstrumentUnit,
    /// The name of the meter.
    MeterName,
    /// The version of the meter.
    MeterVersion,
    /// The schema URL of the meter.
    MeterSchemaUrl,
}

impl Criterion {
    /// The criterion of this name in files.
    pub fn named(text: &str) -> Option<Criterion>
        ensures { result ≡ criterion_named text.now }
    {
        match text {
            "instrument_type" => Some(Criterion::InstrumentType),
            "instrument_unit" => Some(Criterion::InstrumentUnit),
            "meter_name" => Some(Criterion::MeterName),
            "meter_version" => Some(Criterion::MeterVersion),
            "meter_schema_url" => Some(Criterion::MeterSchemaUrl),
            _ => None,
        }
    }

    /// The name in files.
    pub fn name(&self) -> &'static str
        ensures { result.now ≡ criterion_name self.now }
    {
        match self {
            Criterion::InstrumentType => "instrument_type",
            Criterion::InstrumentUnit => "instrument_unit",
            Criterion::MeterName => "meter_name",
            Criterion::MeterVersion => "meter_version",
            Criterion::MeterSchemaUrl => "meter_schema_url",
        }
    }
}

/// What shows that a view selects an instrument, or that it does not.
#[derive(Debug, Drop)]
pub enum Evidence {
    /// The view's name pattern matches the instrument's name, or does not.
    Name(Reason),
    /// This criterion is given and fails.
    Miss(Criterion),
}

/// Why a view selects an instrument, or why it does not.
#[derive(Debug, Drop)]
pub struct SelectionReason {
    /// The number of the view.
    pub view: u32,
    /// The number of the instrument.
    pub instrument: u32,
    /// What shows it.
    pub evidence: Evidence,
}

// How many characters each `*` takes, or a row of pattern places.
type Takes = ListOf<ShortNumber>;

/// The word for a criterion.
pub(crate) struct CriterionWord;

impl EntryKind for CriterionWord {
    ghost use Rattle.metric_cert.specs.Names.{criterion_of};

    type Read = Criterion;

    ghost step = { criterion_of };

    ghost levels = { 0 };

    #[tactic(auto, unfolding(crate::specs::Names::criterion_of))]
    fn read(_alloc: Global, value: &Value) -> Result<Criterion, CertFault> {
        let text = text_of(value, &shape_faults())?;
        Criterion::named(text).ok_or(MISSHAPEN)
    }

    fn write(alloc: Global, entry: &Criterion) -> Result<Value, AllocError> {
        let value = Value::string(alloc, entry.name())?;
        Ok(value)
    }
}

/// The table of a reason.
pub(crate) struct ReasonTable;

impl Fields for ReasonTable {
    ghost use Rattle.metric_cert.specs.Reasons.{reason_of};

    type Read = SelectionReason;

    ghost step = { reason_of };

    ghost levels = { 2 };

    #[tactic(auto, unfolding(crate::specs::Reasons::reason_of))]
    fn read(alloc: Global, table: &Table) -> Result<SelectionReason, CertFault> {
        only_reason(table)?;
        let view = needed::<Number>(alloc, table, "view")?;
        let instrument = needed::<Number>(alloc, table, "instrument")?;
        let evidence = evidence_of(alloc, table)?;
        Ok(SelectionReason {
            view,
            instrument,
            evidence,
        })
    }

    fn put(alloc: Global, table: &mut Table, entry: &SelectionReason) -> Result<(), AllocError> {
        put::<Number>(alloc, table, "view", &entry.view)?;
        put::<Number>(alloc, table, "instrument", &entry.instrument)?;
        put_evidence(alloc, table, &entry.evidence)
    }
}

fn only_reason(table: &Table) -> Result<(), CertFault>
    ensures { result ≡ only shape_faults reason_fields (table_view table.now) }
{
    only(
        table,
        &["view", "instrument", "takes", "rows", "miss"],
        &shape_faults(),
    )
}

#[tactic(auto, unfolding(crate::specs::Reasons::evidence_of))]
fn evidence_of(alloc: Global, table: &Table) -> Result<Evidence, CertFault>
    ensures { Gives CertFault.Memory result (evidence_of (table_view table.now)) }
{
    let takes = optional::<Takes>(alloc, table, "takes")?;
    let rows = optional::<ListOf<Takes>>(alloc, table, "rows")?;
    let miss = optional::<CriterionWord>(alloc, table, "miss")?;
    one_of(takes, rows, miss).ok_or(MISSHAPEN)
}

fn one_of(
    takes: Option<Items<u16>>,
    rows: Option<Items<Items<u16>>>,
    miss: Option<Criterion>,
) -> Option<Evidence>
    ensures { result ≡ one_of takes rows miss }
{
    match (takes, rows, miss) {
        (Some(takes), None, None) => Some(Evidence::Name(Reason::Takes(takes))),
        (None, Some(rows), None) => Some(Evidence::Name(Reason::Rows(rows))),
        (None, None, Some(criterion)) => Some(Evidence::Miss(criterion)),
        _ => None,
    }
}

fn put_evidence(alloc: Global, table: &mut Table, evidence: &Evidence) -> Result<(), AllocError>
    ensures { OnOk result
        (PutsEvidence evidence.now (table_view table.old) (table_view table.new)) }
{
    match evidence {
        Evidence::Name(Reason::Takes(takes)) => put::<Takes>(alloc, table, "takes", takes),
        Evidence::Name(Reason::Rows(rows)) => put::<ListOf<Takes>>(alloc, table, "rows", rows),
        Evidence::Miss(criterion) => put::<CriterionWord>(alloc, table, "miss", criterion),
    }
}

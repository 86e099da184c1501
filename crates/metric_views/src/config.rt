//! What a config says.
ghost use Rattle.std.specs.Prelude.{◌≡◌, ◌≤◌, length};
ghost use Rattle.metric_base.specs.Steps.{Gives};
ghost use Rattle.metric_views.specs.Configs.{config_of};
ghost use Rattle.metric_views.specs.Sound.{IsSoundSetup};

use crate::choices::{Aggregation, ByKind, Temporality};
use crate::fault::ViewFault;
use crate::reading::setup_of;
use metric_base::{Boundaries, Few, Shared, Text};
use metric_contents::Kind;
use metric_glob::Pattern;
use metric_names::Name;
use std::alloc::Global;
use std::marker::Model;

/// A metric reader (Metrics SDK, MetricReader), with what it chooses for each kind of instrument.
#[derive(Drop)]
pub struct Reader {
    /// The name, 1 to 1,023 characters, which no other reader has.
    pub name: Text,
    /// Delta or cumulative.
    pub temporality: ByKind<Temporality>,
    /// The aggregation where a view names none.
    pub aggregation: ByKind<Aggregation>,
    /// The cardinality limit where a view gives none, 1 to 1,000,000.
    pub limit: ByKind<u32>,
}

/// The criteria by which a view selects instruments (Metrics SDK, instrument selection criteria). All
/// that are given must hold.
pub struct Criteria {
    /// A pattern of the instrument's name.
    pub instrument_name: Option<Pattern>,
    /// The instrument's kind.
    pub instrument_type: Option<Kind>,
    /// The instrument's unit, at most 1,023 characters, as the other texts.
    pub instrument_unit: Option<Text>,
    /// The meter's name.
    pub meter_name: Option<Text>,
    /// The meter's version.
    pub meter_version: Option<Text>,
    /// The meter's schema URL.
    pub meter_schema_url: Option<Text>,
}

impl Drop for Criteria {
    // A call of its own, so that what owns criteria does not carry the steps of dropping each part.
    fn drop(self) {
        let Criteria {
            instrument_name: _instrument_name,
            instrument_type: _,
            instrument_unit: _instrument_unit,
            meter_name: _meter_name,
            meter_version: _meter_version,
            meter_schema_url: _meter_schema_url,
        } = self;
    }
}

/// What a view gives the streams that it makes (Metrics SDK, stream configuration). What they hold of it is
/// shared.
pub struct Settings {
    /// The stream's name.
    pub stream_name: Option<Shared<Name>>,
    /// The stream's description, at most 1,023 characters.
    pub description: Option<Shared<Text>>,
    /// The aggregation.
    pub aggregation: Option<Aggregation>,
    /// The boundaries of a histogram.
    pub boundaries: Option<Shared<Boundaries>>,
    /// The attribute keys that are kept, each of at most 1,023 characters.
    pub keep: Option<Few<Text, 64>>,
    /// The attribute keys that are left out, each of at most 1,023 characters.
    pub exclude: Option<Few<Text, 64>>,
    /// The cardinality limit, 1 to 1,000,000.
    pub limit: Option<u32>,
}

impl Drop for Settings {
    // A call of its own, so that what owns settings does not carry the steps of dropping each part.
    fn drop(self) {
        let Settings {
            stream_name: _stream_name,
            description: _description,
            aggregation: _,
            boundaries: _boundaries,
            keep: _keep,
            exclude: _exclude,
            limit: _,
        } = self;
    }
}

/// A view (Metrics SDK, View).
#[derive(Drop)]
pub struct View {
    /// Which instruments it selects.
    pub criteria: Criteria,
    /// What it gives their streams.
    pub settings: Settings,
}

/// What a config says: its readers and views, each list in the order of the file.
pub struct Setup {
    /// The readers.
    pub readers: Few<Reader, 16>,
    /// The views.
    pub views: Few<View, 256>,
}

impl Drop for Setup {
    // A call of its own, so that what owns a config does not carry the steps of dropping each part.
    fn drop(self) {
        let Setup {
            readers: _readers,
            views: _views,
        } = self;
    }
}

/// The metric readers and views of a service, which are numbered from 0 in the order of the file.
#[derive(Drop)]
pub struct Config {
    setup: Setup,
}

impl Model for Config {
    ghost use Rattle.metric_views.specs.declared.config.Setup.{Setup};
    ghost use Rattle.metric_views.specs.Sound.{IsSoundSetup};

    ghost Value = { Setup };

    ghost view = { λ c. c.setup };

    ghost invariant = { λ c. IsSoundSetup c.setup };
}

impl Config {
    /// The config that a text is. What is no TOML is `NotToml`; the other faults are tried in the
    /// order of the walk: the top table, each reader, each view; within a table unknown fields, then its
    /// fields in order.
    pub fn read(alloc: Global, text: &str) -> Result<Config, ViewFault>
        ensures { Gives ViewFault.Memory result (config_of text.now) }
    {
        let setup = setup_of(alloc, text)?;
        Ok(Config { setup })
    }

    /// The readers in the order of the file.
    pub fn readers(&self) -> &[Reader]
        ensures readers { result.now ≡ self.now.readers }
        ensures few { length self.now.readers ≤ 16 }
        ensures sound { IsSoundSetup self.now }
    {
        self.setup.readers.as_slice()
    }

    /// The views in the order of the file.
    pub fn views(&self) -> &[View]
        ensures views { result.now ≡ self.now.views }
        ensures few { length self.now.views ≤ 256 }
        ensures sound { IsSoundSetup self.now }
    {
        self.setup.views.as_slice()
    }
}

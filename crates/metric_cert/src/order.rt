//! In which order the streams of a reader rise.
use crate::fault::{CertFault, shape_faults};
use crate::fields::Fields;
use crate::lists::ListOf;
use crate::numbers::Number;
use crate::tables::{needed, put};
use metric_base::Items;
use metric_table::only;
use std::alloc::{AllocError, Global};
use toml::Table;

/// The numbers of a reader's streams, by meter name, version, schema URL and folded stream name.
#[derive(Drop)]
pub struct ReaderOrder {
    /// The number of the reader.
    pub reader: u32,
    /// The numbers of its streams.
    pub streams: Items<u32>,
}

/// The table of the order of a reader.
pub(crate) struct OrderTable;

impl Fields for OrderTable {
    ghost use Rattle.metric_cert.specs.Orders.{order_of};

    type Read = ReaderOrder;

    ghost step = { order_of };

    ghost levels = { 1 };

    #[tactic(auto, unfolding(crate::specs::Orders::order_of))]
    fn read(alloc: Global, table: &Table) -> Result<ReaderOrder, CertFault> {
        only(table, &["reader", "streams"], &shape_faults())?;
        let reader = needed::<Number>(alloc, table, "reader")?;
        let streams = needed::<ListOf<Number>>(alloc, table, "streams")?;
        Ok(ReaderOrder { reader, streams })
    }

    fn put(alloc: Global, table: &mut Table, entry: &ReaderOrder) -> Result<(), AllocError> {
        put::<Number>(alloc, table, "reader", &entry.reader)?;
        put::<ListOf<Number>>(alloc, table, "streams", &entry.streams)
    }
}

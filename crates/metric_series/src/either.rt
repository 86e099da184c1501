//! Either of two tables.
use crate::fault::SeriesFault;
use crate::place::Place;
use crate::table::Table;
use metric_contents::SetKey;
use metric_history::Point;
use std::alloc::{AllocError, Global};

/// A table of one of two kinds, as its maker chose. Each call looks at the kind once.
#[derive(Drop)]
pub enum Either<A, B> {
    /// One of the first kind.
    Left(A),
    /// One of the second.
    Right(B),
}

impl<A: Table, B: Table> Table for Either<A, B> {
    ghost use Rattle.metric_series.specs.Eithers.{HasRoom, IsReady, Stands, Takes};

    ghost stands = { Stands A.Table B.Table };

    ghost takes = { Takes A.Table B.Table };

    ghost has_room = { HasRoom A.Table B.Table };

    ghost is_ready = { IsReady A.Table B.Table };

    fn fits(&self, set: &SetKey, value: i64) -> bool {
        match self {
            Either::Left(table) => table.fits(set, value),
            Either::Right(table) => table.fits(set, value),
        }
    }

    fn ready(&mut self, set: &SetKey, value: i64) -> Result<Place, SeriesFault> {
        match self {
            Either::Left(table) => table.ready(set, value),
            Either::Right(table) => table.ready(set, value),
        }
    }

    fn put(&mut self, place: Place, value: i64) {
        match self {
            Either::Left(table) => table.put(place, value),
            Either::Right(table) => table.put(place, value),
        }
    }

    fn add(&mut self, set: &SetKey, value: i64) -> Result<(), SeriesFault> {
        match self {
            Either::Left(table) => table.add(set, value),
            Either::Right(table) => table.add(set, value),
        }
    }

    fn unready(&mut self, place: Place) {
        match self {
            Either::Left(table) => table.unready(place),
            Either::Right(table) => table.unready(place),
        }
    }

    fn reset(&mut self) {
        match self {
            Either::Left(table) => table.reset(),
            Either::Right(table) => table.reset(),
        }
    }

    fn points(&self, alloc: Global) -> Result<Vec<Point>, AllocError> {
        match self {
            Either::Left(table) => table.points(alloc),
            Either::Right(table) => table.points(alloc),
        }
    }
}

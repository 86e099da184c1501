//! What each table of series does.
ghost use Rattle.std.specs.Prelude.{◌≡◌, ◌≢◌, ℕ, ℤ, List, OnOk, OnErr, IfOk};
ghost use Rattle.metric_history.specs.declared.entry.Entry.{Entry};
ghost use Rattle.metric_series.specs.Calls.{ForgetsAll, JudgesRange, JudgesValue, KeepsPlaces, ReportsPoints, TakesRecording};
ghost use Rattle.metric_series.specs.declared.place.Place.{Place as places};
ghost use Rattle.metric_views.specs.declared.stream.Stream.{Stream};

use crate::fault::SeriesFault;
use crate::place::Place;
use metric_contents::SetKey;
use metric_history::Point;
use std::alloc::{AllocError, Global};

/// The series of a stream, each with its running value (Metrics SDK, aggregation and cardinality limits).
///
/// A table may stand for several lists of recordings, since it keeps their numbers only; each of its calls does
/// what it says for all of them.
pub trait Table: Drop {
    // The table keeps the numbers of these recordings in this stream.
    ghost stands: { Self → Stream → List Entry → Type 0 };

    // The table has a place for values of this set.
    ghost takes: { Self → List ℕ → Type 0 };

    // All memory that values will need was taken when the table was made.
    ghost has_room: { Self → Type 0 };

    // The second table is the first one, made ready for a value of a set that falls to a place.
    ghost is_ready: { Self → Self → List ℕ → ℤ → places → Type 0 };

    /// Whether the series into which a value falls stays in range with it.
    fn fits(&self, set: &SetKey, value: i64) -> bool
        requires { takes self.now set.now }
        ensures { JudgesValue (stands self.now) set.now value result };

    /// Takes all memory that a value of a set will need, and answers where the value falls: an empty aggregate is
    /// put in for a series that is new and will be held. The table then stands for no recordings, until
    /// [`put`](Table::put), which can not fail, or [`unready`](Table::unready). `SumRange` comes exactly where the
    /// series into which the value falls would leave its range, and `Memory` never where the table has room for all
    /// values. Refused, the table is as it was.
    fn ready(&mut self, set: &SetKey, value: i64) -> Result<Place, SeriesFault>
        requires { takes self.old set.now }
        ensures in_range { JudgesRange (stands self.old) set.now value result }
        ensures room { has_room self.old → result ≢ Err SeriesFault.Memory }
        ensures places { KeepsPlaces takes has_room self.old self.new }
        ensures ok { IfOk result (is_ready self.old self.new set.now value) }
        ensures err { OnErr result (self.new ≡ self.old) };

    /// Adds the value for which the table was made ready, at its place. Allocates no memory.
    fn put(&mut self, place: Place, value: i64)
        requires { (old : Self) × (set : List ℕ) × is_ready old self.old set value place }
        ensures places { KeepsPlaces takes has_room self.old self.new }
        ensures stands { (old : Self) (set : List ℕ) → is_ready old self.old set value place
            → TakesRecording (stands old) (stands self.new) set value };

    /// Takes the empty aggregate out again that was put in for a value, so that the table is what it was before.
    fn unready(&mut self, place: Place)
        ensures places { KeepsPlaces takes has_room self.old self.new }
        ensures restored { (old : Self) (set : List ℕ) (value : ℤ)
            → is_ready old self.old set value place → self.new ≡ old };

    /// Adds a value to the series of a set: to the series of the kept keys' values where it is held or a place is left,
    /// else to the overflow series. `SumRange` comes exactly where that series would leave its range. A refused value
    /// changes nothing. A value of a held series allocates no memory, nor does any where the table has room for all
    /// values.
    fn add(&mut self, set: &SetKey, value: i64) -> Result<(), SeriesFault>
        requires { takes self.old set.now }
        ensures in_range { JudgesRange (stands self.old) set.now value result }
        ensures room { has_room self.old → result ≢ Err SeriesFault.Memory }
        ensures places { KeepsPlaces takes has_room self.old self.new }
        ensures stands { OnOk result
            (TakesRecording (stands self.old) (stands self.new) set.now value) }
        ensures err { OnErr result (self.new ≡ self.old) }
    {
        let place = self.ready(set, value)?;
        self.put(place, value);
        Ok(())
    }

    /// Forgets all recordings, and what the table was made ready for. Allocates no memory.
    fn reset(&mut self)
        ensures places { KeepsPlaces takes has_room self.old self.new }
        ensures forgets { ForgetsAll (stands self.old) (stands self.new) }
        ensures readied { (old : Self) (set : List ℕ) (value : ℤ) (place : places)
            → is_ready old self.old set value place → ForgetsAll (stands old) (stands self.new) };

    /// The points of the held series in ascending order of their set keys, then the overflow point where some value
    /// fell into the overflow series. Fails only when out of memory.
    fn points(&self, alloc: Global) -> Result<Vec<Point>, AllocError>
        ensures { IfOk result (λ points. ReportsPoints (stands self.now) points.items) };
}

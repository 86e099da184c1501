//! All outlets of a service, as one value.
ghost use Rattle.std.specs.Prelude.{◌≡◌, ◌≤◌, ◌+◌, ◌-◌, ◌^◌, ◌++◌, ℕ, Bool, List, false, min};
ghost use Rattle.std.specs.Prelude.{true, vec_capacity, vec_len};
ghost use Rattle.metric_seat.specs.Seats.{CollectorValue, ProviderValue};
ghost use Rattle.metric_seat.specs.declared.total.Total.{Total};
ghost use Rattle.metric_periodic.specs.declared.ended.ReaderEnd.{ReaderEnd};

use crate::ended::ReaderEnd;
use metric_history::Book;
use metric_provider::{Collector, Gate, Provider, Total};
use std::alloc::Global;
use std::sync::Wait;

/// The outlets of a service: none, an [`Outlet`](crate::Outlet), or a pair of these, each with an exporter of a type of
/// its own. What is asked of them is asked of each once, in order.
///
/// Contracts see what each call does to them, by which a service promises that none is left out.
pub trait Outlets: Drop {
    // How many there are.
    ghost count: { Self → ℕ };

    // What a call for a turn does, by the moment and whether turns were asked for, and when the next one is due.
    ghost turns: { ProviderValue → ℕ → Bool → Self → Self → ℕ → Type 0 };

    // What the end of a run does, and how each ended.
    ghost ends: { ProviderValue → ℕ → Self → Self → List ReaderEnd → Type 0 };

    // That the last batches count all that these totals do.
    ghost counts: { Self → List Total → Type 0 };

    // What the next run does to them and to the seats of its readers, by whether each had one there.
    ghost begins: { Self → Self → List CollectorValue → List CollectorValue → Bool → Type 0 };

    /// How many there are, up to 2^64 - 1.
    fn count(&self) -> usize
        ensures { result ≡ min (count self.now) (2 ^ 64 - 1) };

    /// A turn of each that is due at this moment, or of all where that was asked for. When the next one is due: at the
    /// greatest moment where there is no outlet.
    fn turn_if_due<R: Wait, B: Book, G: Gate>(
        &mut self,
        rt: &R,
        alloc: Global,
        provider: &Provider<B, G>,
        now: u64,
        is_asked: bool,
    ) -> u64
        ensures { turns provider.now now is_asked self.old self.new result };

    /// The last turn of each in a run, as [`Outlet::end_run`](crate::Outlet::end_run) makes it. How each ended is put
    /// last, in order.
    fn end_each<R: Wait, B: Book, G: Gate>(
        &mut self,
        rt: &R,
        alloc: Global,
        provider: &Provider<B, G>,
        now: u64,
        all: &mut Vec<ReaderEnd>,
    )
        requires room { vec_len all.old + count self.old ≤ vec_capacity all.old }
        ensures ended { (told : List ReaderEnd) × (ends provider.now now self.old self.new told
            × (all.new.items ≡ all.old.items ++ told)) }
        ensures len { vec_len all.new ≡ vec_len all.old + count self.old }
        ensures room { vec_capacity all.new ≡ vec_capacity all.old }
        ensures count { count self.new ≡ count self.old };

    /// Whether the last batches of each count all recordings that these totals do.
    fn are_counted(&self, totals: &[Total]) -> bool
        ensures counted { result ≡ true → counts self.now totals.now }
        ensures uncounted { result ≡ false → counts self.now totals.now → ⊥ };

    /// Goes on in the next run: each takes the seat of its reader out of those of that run, and leaves the others in
    /// their order. The exporters and their counts go on. Whether there was a seat for each; an outlet with none stays
    /// as it is.
    fn begin_each(&mut self, seats: &mut Vec<Collector>) -> bool
        ensures { begins self.old self.new seats.old.items seats.new.items result };
}

impl Outlets for () {
    ghost use Rattle.std.specs.Prelude.{[]};

    ghost count = { λ _. 0 };

    ghost turns = { λ _ _ _ old new next. (new ≡ old) × (next ≡ 2 ^ 64 - 1) };

    ghost ends = { λ _ _ old new told. (new ≡ old) × (told ≡ []) };

    ghost counts = { λ _ _. Unit {0} };

    ghost begins = { λ old new seats left are_there.
        (new ≡ old) × ((left ≡ seats) × (are_there ≡ true)) };

    fn count(&self) -> usize {
        0
    }

    fn turn_if_due<R: Wait, B: Book, G: Gate>(
        &mut self,
        _rt: &R,
        _alloc: Global,
        _provider: &Provider<B, G>,
        _now: u64,
        _is_asked: bool,
    ) -> u64 {
        u64::MAX
    }

    fn end_each<R: Wait, B: Book, G: Gate>(
        &mut self,
        _rt: &R,
        _alloc: Global,
        _provider: &Provider<B, G>,
        _now: u64,
        _all: &mut Vec<ReaderEnd>,
    ) {}

    fn are_counted(&self, _totals: &[Total]) -> bool {
        true
    }

    fn begin_each(&mut self, _seats: &mut Vec<Collector>) -> bool {
        true
    }
}

impl<A: Outlets, C: Outlets> Outlets for (A, C) {
    ghost use Rattle.std.specs.Prelude.{◌&&◌};

    ghost count = { λ both. A.count both.0 + C.count both.1 };

    ghost turns = { λ p now is_asked old new next. (first : ℕ) × ((second : ℕ)
        × ((next ≡ min first second) × (A.turns p now is_asked old.0 new.0 first
        × C.turns p now is_asked old.1 new.1 second))) };

    ghost ends = { λ p now old new told. (first : List ReaderEnd) × ((second : List ReaderEnd)
        × ((told ≡ first ++ second) × (A.ends p now old.0 new.0 first
        × C.ends p now old.1 new.1 second))) };

    ghost counts = { λ both totals. A.counts both.0 totals × C.counts both.1 totals };

    ghost begins = { λ old new seats left are_there. (mid : List CollectorValue)
        × ((first : Bool) × ((second : Bool) × ((are_there ≡ (first && second))
        × (A.begins old.0 new.0 seats mid first × C.begins old.1 new.1 mid left second)))) };

    fn count(&self) -> usize {
        self.0.count().saturating_add(self.1.count())
    }

    fn turn_if_due<R: Wait, B: Book, G: Gate>(
        &mut self,
        rt: &R,
        alloc: Global,
        provider: &Provider<B, G>,
        now: u64,
        is_asked: bool,
    ) -> u64 {
        let first = self.0.turn_if_due(rt, alloc, provider, now, is_asked);
        let second = self.1.turn_if_due(rt, alloc, provider, now, is_asked);
        first.min(second)
    }

    fn end_each<R: Wait, B: Book, G: Gate>(
        &mut self,
        rt: &R,
        alloc: Global,
        provider: &Provider<B, G>,
        now: u64,
        all: &mut Vec<ReaderEnd>,
    ) {
        self.0.end_each(rt, alloc, provider, now, all);
        self.1.end_each(rt, alloc, provider, now, all);
    }

    fn are_counted(&self, totals: &[Total]) -> bool {
        self.0.are_counted(totals) && self.1.are_counted(totals)
    }

    fn begin_each(&mut self, seats: &mut Vec<Collector>) -> bool {
        let first = self.0.begin_each(seats);
        let second = self.1.begin_each(seats);
        first && second
    }
}

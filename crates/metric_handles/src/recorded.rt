//! Seats whose recorder is known.
ghost use Rattle.std.specs.Prelude.{◌≡◌, ℕ};
ghost use Rattle.metric_seat.specs.Seats.{ProviderValue};

use crate::seat::Seat;
use metric_history::Book;
use metric_provider::{Gate, Provider, Recorder};
use std::sync::Wait;

/// A [`Seat`] whose recorder's seat can be asked what it was told of, and what it has left, and that may ask for more.
pub trait Recorded: Seat {
    // What making room comes to: the provider, the seat before and after it, the number of the instrument, and for how
    // many recordings more.
    ghost makes_room: { ProviderValue → Self → Self → ℕ → ℕ → Type 0 };

    /// The recorder's seat.
    fn recorder(&self) -> &Recorder
        ensures { result.now ≡ Self.seat self.now };

    /// Sees that so many recordings more have room on an instrument, where the seat asks for more:
    /// [`Asking::make_room`](crate::Asking::make_room), also of the seat that a [`Counted`](crate::Counted) one counts
    /// for. A recorder's own seat asks for nothing.
    fn make_room<R: Wait, B: Book, G: Gate>(
        &mut self,
        rt: &R,
        provider: &Provider<B, G>,
        instrument: u32,
        needed: u64,
    )
        ensures seat { Self.seat self.new ≡ Self.seat self.old }
        ensures room { makes_room provider.now self.old self.new instrument needed };
}

impl Recorded for Recorder {
    ghost makes_room = { λ _ old new _ _. new ≡ old };

    fn recorder(&self) -> &Recorder {
        self
    }

    fn make_room<R: Wait, B: Book, G: Gate>(
        &mut self,
        _rt: &R,
        _provider: &Provider<B, G>,
        _instrument: u32,
        _needed: u64,
    ) {}
}

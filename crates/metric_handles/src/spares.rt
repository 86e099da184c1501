//! What recordings are asked of beside a budget.
ghost use Rattle.std.specs.Prelude.{◌≡◌, ℕ, Result, false};
ghost use Rattle.metric_contents.specs.declared.refusal.Refusal.{Refusal as refusals};
ghost use Rattle.metric_handles.specs.Asking.{FindsRoom, TakesRest};

use crate::rooms::RoomsOf;
use metric_contents::Refusal;
use metric_history::Book;
use metric_provider::Gate;
use std::sync::Wait;

/// What tells the room of a recorder on an instrument and the instrument's spare, and grants of it. As a trait, so that
/// what asks for recordings cannot but ask it.
pub(crate) trait Spares {
    // What a room, a spare and a grant come to.
    ghost tells: { Self → ℕ → Result ℕ refusals → Type 0 };

    ghost spares: { Self → ℕ → Result ℕ refusals → Type 0 };

    ghost grants: { Self → ℕ → ℕ → Result (Unit {0}) refusals → Type 0 };

    /// How many recordings may still be made on an instrument.
    fn room_on(&self, instrument: u32) -> Result<u64, Refusal>
        ensures { tells self.now instrument result };

    /// How many may still be granted on it.
    fn spare_on(&self, instrument: u32) -> Result<u64, Refusal>
        ensures { spares self.now instrument result };

    /// Asks for so many more on it.
    fn ask(&self, instrument: u32, amount: u64) -> Result<(), Refusal>
        ensures { grants self.now instrument amount result };
}

impl<R: Wait, B: Book, G: Gate> Spares for RoomsOf<'_, R, B, G> {
    ghost use Rattle.std.specs.Prelude.{slice_get};
    ghost use Rattle.metric_provider.specs.Granting.{AnswersAsking};
    ghost use Rattle.metric_provider.specs.Rooms.{AnswersRoom, AnswersSpare};
    ghost use Rattle.metric_seat.specs.Recordings.{told_at};
    ghost use Rattle.metric_seat.specs.Seats.{is_recorder_of};

    ghost tells = { λ s instrument result.
        let p = s.provider.now in let own = s.recorder.now in
        AnswersRoom (is_recorder_of p own) (slice_get p.plan.facts.instruments instrument)
        own.number (told_at own instrument) result };

    ghost spares = { λ s instrument result.
        AnswersSpare (slice_get s.provider.now.plan.facts.instruments instrument) result };

    ghost grants = { λ s instrument amount result.
        AnswersAsking s.provider.now s.recorder.now instrument amount result };

    fn room_on(&self, instrument: u32) -> Result<u64, Refusal> {
        self.recorder.room(self.rt, self.provider, instrument)
    }

    fn spare_on(&self, instrument: u32) -> Result<u64, Refusal> {
        self.provider.spare_left(self.rt, instrument)
    }

    fn ask(&self, instrument: u32, amount: u64) -> Result<(), Refusal> {
        self.recorder
            .ask(self.rt, self.provider, instrument, amount)
    }
}

/// The room that was found, and whether fewer recordings were left than were needed.
#[derive(Clone, Copy)]
pub(crate) struct Found {
    pub room: u64,
    pub wants: bool,
}

/// The room for so many recordings on an instrument, for which at least so many more are asked at once.
pub(crate) fn find_room<M: Spares>(from: &M, instrument: u32, each: u64, needed: u64) -> Found
    ensures { FindsRoom (M.tells from.now instrument) (M.spares from.now instrument)
        (M.grants from.now instrument) each needed result }
{
    let Ok(room) = from.room_on(instrument) else {
        return enough(0);
    };
    if needed <= room {
        return enough(room);
    }
    let amount = each.max(needed - room);
    match from.ask(instrument, amount) {
        Ok(()) => enough(room.saturating_add(amount)),
        Err(Refusal::NoSpare) => take_rest(from, instrument, room, amount, needed),
        Err(_) => enough(room),
    }
}

// The room, with what is left of the spare, where that is less than an amount.
fn take_rest<M: Spares>(from: &M, instrument: u32, room: u64, amount: u64, needed: u64) -> Found
    ensures { TakesRest (M.spares from.now instrument) (M.grants from.now instrument)
        room amount needed result }
{
    let Ok(left) = from.spare_on(instrument) else {
        return enough(room);
    };
    let rest = left.min(amount);
    if from.ask(instrument, rest).is_err() {
        return enough(room);
    }
    let room = room.saturating_add(rest);
    Found {
        room,
        wants: room < needed,
    }
}

// So much room, of which nobody knows that it is too little.
fn enough(room: u64) -> Found
    ensures { result ≡ record { room = room; wants = false } }
{
    Found { room, wants: false }
}

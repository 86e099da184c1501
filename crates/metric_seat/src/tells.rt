//! What tells of a recorder.
ghost use Rattle.std.specs.Prelude.{◌≡◌, ℕ};
ghost use Rattle.metric_slot.specs.declared.told.Told.{Told as tellings};

use metric_slot::Told;

/// What tells of one recorder. A seat tells of each instrument of its plan, what was taken down of a seat of one.
pub trait Tells {
    // The number of the recorder.
    ghost numbered: { Self → ℕ };

    // What it was told of the instrument of a number.
    ghost tells: { Self → ℕ → tellings };

    /// The number of the recorder.
    fn number(&self) -> u32
        ensures { result ≡ numbered self.now };

    /// What the recorder was told of its accepted recordings on the instrument of a number.
    fn told_at(&self, instrument: u32) -> Told
        ensures { result ≡ tells self.now instrument };
}

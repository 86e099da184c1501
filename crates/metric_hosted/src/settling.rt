//! What the seats of an instrument tell of it.
ghost use Rattle.std.specs.Prelude.{◌≡◌};
ghost use Rattle.metric_hosted.specs.Settlements.{are_known, seated};

use metric_seat::{FinishFault, Tells, are_distinct, has_each};
use metric_slot::Told;

/// What the seat of a recorder was told of one instrument.
#[derive(Clone, Copy, Debug, PartialEq, Eq, Drop)]
pub struct SeatTold {
    /// The number of the recorder.
    pub number: u32,
    /// What it was told.
    pub told: Told,
}

// It tells the same of any number: the instrument that it is compared with is the one that it was taken down of.
impl Tells for SeatTold {
    ghost use Rattle.metric_hosted.specs.Settlements.{recorder_of, told_of};

    ghost numbered = { recorder_of };

    ghost tells = { λ seat _. told_of seat };

    fn number(&self) -> u32 {
        self.number
    }

    fn told_at(&self, _instrument: u32) -> Told {
        self.told
    }
}

// Whether the seats are one of each of so many recorders, or the first fault.
pub(crate) fn seated(seats: &[SeatTold], recorders: usize) -> Result<(), FinishFault>
    ensures { result ≡ seated recorders seats.now }
{
    if !are_known(seats, recorders) {
        return Err(FinishFault::Stranger);
    }
    if !are_distinct(seats) {
        return Err(FinishFault::Stranger);
    }
    if !has_each(seats, recorders) {
        return Err(FinishFault::RecorderMissing);
    }
    Ok(())
}

// Whether each seat is of one of so many recorders.
fn are_known(seats: &[SeatTold], recorders: usize) -> bool
    ensures { result ≡ are_known seats.now recorders }
{
    seats.iter().all(|seat| (seat.number as usize) < recorders)
}

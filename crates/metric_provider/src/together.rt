//! The lanes of an instrument, counted together.
ghost use Rattle.std.specs.Prelude.{◌≡◌, ◌↔◌, ◌<◌, ◌*◌, ◌^◌, pos, neg_ℤ, ◌≤ℤ◌, IsTrue};
ghost use Rattle.metric_provider.specs.Lanes.{count_over, spent_over, total_over};

use metric_facts::Facts;
use metric_history::Book;
use metric_seat::Tally;
use metric_slot::Slot;

/// The lanes of an instrument with these facts. A u64 counts their recordings.
#[derive(Drop)]
pub(crate) struct Together<'a, B: Book> {
    pub(crate) facts: &'a Facts,
    pub(crate) lanes: &'a [Slot<B>],
    ghost few: { count_over lanes.now < 2 ^ 64 },
}

impl<B: Book> Tally for Together<'_, B> {
    ghost use Rattle.metric_provider.specs.Lanes.{numbers_over};

    ghost numbers = { λ t. numbers_over t.facts.now.lo t.lanes.now };

    fn least(&self) -> i64 {
        self.facts.lo
    }

    fn spent_by(&self, recorder: u32) -> u128 {
        spent_over(self.lanes, recorder)
    }

    fn counted(&self) -> u64 {
        count_over(self.lanes) as u64
    }

    fn summed(&self) -> i128 {
        total_over(self.lanes)
    }
}

/// Whether a u64 counts their recordings.
pub(crate) fn is_counted<B: Book>(lanes: &[Slot<B>]) -> bool
    ensures { IsTrue result ↔ (count_over lanes.now < 2 ^ 64) }
{
    count_over(lanes) <= u128::from(u64::MAX)
}

// How many recordings they have.
fn count_over<B: Book>(lanes: &[Slot<B>]) -> u128
    ensures { result ≡ count_over lanes.now }
{
    let mut count = 0;
    for slot in lanes {
        count += u128::from(slot.cell().count());
    }
    count
}

// How many recordings of a recorder they have.
fn spent_over<B: Book>(lanes: &[Slot<B>], recorder: u32) -> u128
    ensures { result ≡ spent_over lanes.now recorder }
{
    let mut spent = 0;
    for slot in lanes {
        spent += u128::from(slot.cell().spent(recorder));
    }
    spent
}

// The sum of their values.
fn total_over<B: Book>(lanes: &[Slot<B>]) -> i128
    requires { count_over lanes.now < 2 ^ 64 }
    ensures { result ≡ total_over lanes.now }
{
    let mut total: i128 = 0;
    for slot in lanes {
        let own = lane_sum(slot);
        total += own;
    }
    total
}

// The sum of a lane's values, of which each is an i64.
fn lane_sum<B: Book>(slot: &Slot<B>) -> i128
    ensures sum { result ≡ slot.now.total }
    ensures low { neg_ℤ (pos (2 ^ 63 * slot.now.count)) ≤ℤ result }
    ensures high { result ≤ℤ pos (2 ^ 63 * slot.now.count) }
{
    let cell = slot.cell();
    cell.sum()
}

//! What a recorder was told.
ghost use Rattle.std.specs.Prelude.{◌≡◌, ◌↔◌, pos, ◌≤ℤ◌, IsTrue};
ghost use Rattle.metric_bounds.specs.Amounts.{amount_with};
ghost use Rattle.metric_slot.specs.Tellings.{HasRoom, told_more};

use metric_bounds::amount;
use metric_facts::Facts;

/// What a recorder was told of its accepted recordings on one instrument.
#[derive(Clone, Copy, Debug, PartialEq, Eq, Drop)]
pub struct Told {
    /// How many there are.
    pub count: u64,
    /// The sum of how far each value is above the least that the instrument takes.
    pub amount: u64,
}

impl Told {
    // Whether so many values of the instrument can be so far above its least.
    #[inline(always)]
    pub fn is_within(&self, facts: &Facts) -> bool
        requires { facts.now.lo ≤ℤ facts.now.hi }
        ensures { let most = amount_with self.now.count facts.now.lo facts.now.hi in
            IsTrue result ↔ (pos self.now.amount ≤ℤ most) }
    {
        u128::from(self.amount) <= amount(self.count, facts.lo, facts.hi)
    }

    // Tells of one recording more.
    #[inline(always)]
    pub fn add(&mut self, facts: &Facts, value: &i64)
        requires { HasRoom self.old facts.now.lo value.now }
        ensures { self.new ≡ told_more self.old facts.now.lo value.now }
    {
        self.count += 1;
        self.amount += value.abs_diff(facts.lo);
    }
}

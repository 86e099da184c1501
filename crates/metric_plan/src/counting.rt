//! Whether the recordings of each instrument can be counted.
ghost use Rattle.std.specs.Prelude.{◌≡◌};
ghost use Rattle.metric_plan.specs.Counting.{is_counted};

use metric_bounds::total;
use metric_catalogue::Catalogue;

// Whether the budgets and the spare budget of each instrument are together a u64.
pub(crate) fn is_counted(catalogue: &Catalogue) -> bool
    ensures { result ≡ is_counted catalogue.now }
{
    for (number, _) in catalogue.instruments().iter().enumerate() {
        if total(catalogue, number as u32) > u128::from(u64::MAX) {
            return false;
        }
    }
    true
}

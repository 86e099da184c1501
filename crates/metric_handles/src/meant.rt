//! Handles of what a program was made for.
ghost use Rattle.metric_handles.specs.Meant.{IsExpected, IsHandleOf};
ghost use Rattle.metric_handles.specs.Named.{is_found};
ghost use Rattle.metric_meaning.specs.Agreeing.{shape_by};

use crate::fault::{HandleFault, NoHandle};
use crate::handle::Handle;
use crate::kinds::OfKind;
use crate::named::number_of_kind;
use metric_meaning::{Expected, first_difference};
use metric_plan::Plan;

/// The handle of the instrument that a program was made for, as code that `wormweekly bind` made: its meter, name, kind
/// and unit are as they are expected, and so are its first keys, each optional exactly where that is said, with values
/// that begin with those that are expected; each further key may be left out. Then a set key of the ranks of expected
/// values names these values ([`Handle::bind_set`]).
///
/// # Errors
///
/// [`NoHandle`] with the first [`HandleFault`]: of the names, of the kind, and `OtherMeaning` exactly where the
/// instrument is there and means something else. It says in words in what it differs first.
pub fn expected<K: OfKind>(plan: &Plan, expected: &Expected<'_>) -> Result<Handle<K>, NoHandle>
    ensures { IsExpected plan.now K.KIND (shape_by expected.now) (is_found result) }
{
    let found = number_of_kind(plan.catalogue(), K::KIND, expected.meter, expected.name);
    compared(plan, expected, found)
}

// The handle of the instrument that was found, where it means what is expected.
fn compared<K>(
    plan: &Plan,
    expected: &Expected<'_>,
    found: Result<u32, HandleFault>,
) -> Result<Handle<K>, NoHandle>
    ensures { IsHandleOf plan.now (shape_by expected.now) (is_found result) found }
{
    let Expected { meter, name, .. } = *expected;
    let number = match found {
        Ok(number) => number,
        Err(fault) => return Err(NoHandle::new(meter, name, None::<&str>, fault)),
    };
    match first_difference(plan.catalogue(), number as usize, expected) {
        None => Ok(Handle::of(plan, number)),
        Some(difference) => {
            let fault = HandleFault::OtherMeaning;
            Err(NoHandle::new(meter, name, Some(difference), fault))
        }
    }
}

//! What keys are compared for at the start. The functions do nothing.
ghost use Rattle.metric_handles.specs.KeysGiven.{BindsKeys, RecordsKeys};

use metric_contents::encode_ignores_order;
use metric_history::Book;

/// Attributes with just the keys with which a handle was found, in any order, are bound with the same contents, or
/// refused for their values alone, as `UnknownValue` or `Combination`.
pub fn compared_keys_are_bound()
    ensures { BindsKeys }
{
    encode_ignores_order();
}

/// A recording with them, on a provider of a plan with the same contents, is never refused as `DuplicateKey`,
/// `UnknownKey` or `MissingKey`.
pub fn compared_keys_are_recorded<B: Book>()
    ensures { RecordsKeys B.KEEPS_ENTRIES B.spares_memory }
{
    encode_ignores_order();
}

//! Whether a journal has only recordings that its instrument can have accepted.
ghost use Rattle.std.specs.Prelude.{◌≡◌};
ghost use Rattle.metric_audit.specs.Audits.{first_impossible, is_possible};

use metric_facts::{Facts, is_allowed_set};
use metric_history::Entry;

/// Whether a recording is of a set that the instrument allows, with a value in range.
pub(crate) fn is_admitted(facts: &Facts, entry: &Entry) -> bool
    ensures { result ≡ is_possible facts.now entry.now }
{
    is_allowed_set(facts, &entry.set) && facts.admits(&entry.value)
}

/// The place of the first recording that the instrument would have refused.
pub(crate) fn first_impossible(facts: &Facts, entries: &[Entry]) -> Option<usize>
    ensures { result ≡ first_impossible facts.now entries.now }
{
    entries.iter().position(|entry| !is_admitted(facts, entry))
}

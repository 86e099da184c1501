//! What holds of selectors that are told, as a law of the definitions.
ghost use Rattle.metric_queries.specs.Laws.{KeysAreEnough, SetsAreFound, ToldMatchNothing};

use metric_exposure::names_and_labels_are_sound;

/// Where a reader's streams pass for pages, a selector that does not match key by key matches no line that a page can
/// have of any set. Does nothing.
pub fn keys_are_enough()
    ensures { KeysAreEnough }
{
    names_and_labels_are_sound();
}

/// Where a reader's streams pass for pages, a selector that matches key by key matches a line that a page can have of some
/// set. Does nothing.
pub fn sets_are_found()
    ensures { SetsAreFound }
{
    names_and_labels_are_sound();
}

/// Where a reason is told of a selector ([`remarks_of`](crate::remarks_of)), it matches no line that a page can have of any
/// stream, of any set and in any window. Does nothing.
pub fn told_match_nothing()
    ensures { ToldMatchNothing }
{
    keys_are_enough();
}

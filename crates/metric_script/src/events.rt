//! What a script says, and its events as they are asked for.
ghost use Rattle.std.specs.Prelude.{◌≡◌, ◌++◌, [], IfOk, IsOk};

use crate::reading::{begin, taken};
use crate::stop::Lines;
use metric_base::Items;
use metric_history::Event;
use metric_parts::Script;
use std::alloc::{AllocError, Global};
use std::marker::Model;

/// What a script says: when it starts, and the events in order.
#[derive(Drop)]
pub struct ScriptEvents<'a> {
    /// The time at which the script starts, in nanoseconds.
    pub start: u64,
    /// The events in order.
    pub events: EventLines<'a>,
}

/// The events of lines of a script, which are read as they are asked for: a long script takes no memory beside its
/// text.
#[derive(Drop)]
pub struct EventLines<'a> {
    lines: Lines<'a>,
}

impl<'a> Model for EventLines<'a> {
    ghost use Rattle.std.specs.Prelude.{List, IsOk};
    ghost use Rattle.metric_history.specs.declared.event.Event.{Event as Spelled};
    ghost use Rattle.metric_parts.specs.Reading.{texts};
    ghost use Rattle.metric_script.specs.Events.{events_in, read_events};

    ghost Value = { List Spelled };

    ghost view = { λ e. read_events (events_in (texts e.lines.now)) };

    ghost invariant = { λ e. IsOk (events_in (texts e.lines.now)) };
}

impl<'a> EventLines<'a> {
    ghost use Rattle.metric_parts.specs.Reading.{texts};
    ghost use Rattle.metric_script.specs.Events.{events_in, read_events};
    ghost use Rattle.metric_script.specs.Scripts.{IsSomeScript};
    ghost use Rattle.metric_script.specs.Stops.{script_events};

    // The events of lines, each of which is passed over or spells one.
    pub(crate) fn of(lines: Lines<'a>) -> EventLines<'a>
        requires { IsOk (events_in (texts lines.now)) }
        ensures { result ≡ read_events (events_in (texts lines.entry.now)) }
    {
        EventLines { lines }
    }

    /// The events of what is a script.
    pub fn of_script(script: &Script<'a>) -> EventLines<'a>
        requires { IsSomeScript script.now.lines }
        ensures { result ≡ script_events script.now.lines }
    {
        match begin(script.lines()) {
            Ok((_, lines)) => EventLines::of(lines),
            Err(_) => EventLines::of(&[]),
        }
    }

    /// The first events and the others: some while there are any, at most 1,024, and a collection only as the last.
    ///
    /// # Errors
    ///
    /// Out of memory.
    pub fn split(&self, alloc: Global) -> Result<(Items<Event>, EventLines<'a>), AllocError>
        ensures all { IfOk result (λ parts. self.now ≡ parts.0 ++ parts.1) }
        ensures some { IfOk result (λ parts. parts.0 ≡ [] → self.now ≡ []) }
    {
        let (events, lines) = taken(alloc, self.lines, true)?;
        Ok((events, EventLines::of(lines)))
    }

    /// All events at once.
    ///
    /// # Errors
    ///
    /// Out of memory.
    pub fn all(&self, alloc: Global) -> Result<Items<Event>, AllocError>
        ensures { IfOk result (λ events. events ≡ self.now) }
    {
        let (events, _) = taken(alloc, self.lines, false)?;
        Ok(events)
    }
}

//! The lines of a script read into its start and its events.
ghost use Rattle.std.specs.Prelude.{◌≡◌, ◌≤◌, Ok, Some, false, length, drop, IfErr, IfOk, IsTrue, OnOk};
ghost use Rattle.metric_parts.specs.Faults.{OnInput};
ghost use Rattle.metric_parts.specs.Reading.{seen, texts};
ghost use Rattle.metric_script.specs.Events.{after_events, events_in, is_line_of_event};
ghost use Rattle.metric_script.specs.Reading.{event_in};
ghost use Rattle.metric_script.specs.Scripts.{IsScript, IsFirstFaultAt};
ghost use Rattle.metric_script.specs.Stops.{TellsLines, begun_in, script_in};

use crate::events::{EventLines, ScriptEvents};
use crate::line::{event_of, is_passed_over, start_of};
use crate::stop::{Lines, Stop};
use metric_base::Items;
use metric_history::Event;
use metric_parts::{InputFault, Script};
use metric_text::SpellingFault;
use std::alloc::{AllocError, Global};

// So many events of a piece at most stand before its last.
const MOST_BEFORE: usize = 1023;

/// The start of a script and its events in order.
///
/// A line that is empty or begins with `#` is passed over. The first other line is `start T`, and
/// each further one is `record R I V [K=A]...`, `collect Q I T`, `close I` or `grant R I N`, with one
/// space between two words and none at the line's ends. Numbers are in decimal and keys and texts in
/// quotes, each in its one spelling. Times are in nanoseconds.
///
/// # Errors
///
/// [`InputFault::Input`] with the number that the first line with which no script goes on has in
/// the input, or with one more than the number of lines where no line is the start, and
/// [`InputFault::Memory`].
pub fn events_of<'a>(alloc: Global, script: &Script<'a>) -> Result<ScriptEvents<'a>, InputFault>
    ensures found { IfOk result (λ read. IsScript script.now.lines read.start read.events) }
    ensures read { IfOk result (λ read. script_in script.now.lines ≡ Ok read) }
    ensures input { IfErr result (λ fault. OnInput fault (IsFirstFaultAt script.now)) }
{
    let lines = script.lines();
    match read(alloc, lines) {
        Ok(events) => Ok(events),
        Err(Stop::At(rest)) => Err(InputFault::Input {
            line: script.line_number(lines.len() - rest.len()),
        }),
        Err(Stop::Memory) => Err(InputFault::Memory),
    }
}

#[tactic(auto, unfolding(crate::specs::Stops::script_in))]
fn read<'a>(alloc: Global, lines: Lines<'a>) -> Result<ScriptEvents<'a>, Stop<'a>>
    ensures { TellsLines (λ read. read) result (script_in (texts lines.entry.now)) }
{
    let (start, rest) = match begin(lines) {
        Ok(begun) => begun,
        Err(rest) => return Err(Stop::At(rest)),
    };
    let events = events(alloc, rest)?;
    Ok(ScriptEvents { start, events })
}

/// The time of the start and the lines after it, or the lines from the first that is no start.
pub(crate) fn begin<'a>(lines: Lines<'a>) -> Result<(u64, Lines<'a>), Lines<'a>>
    ensures { seen (λ x. (x.0, texts x.1.now)) result ≡ begun_in (texts lines.entry.now) }
{
    for (place, line) in lines.iter().enumerate() {
        if !is_passed_over(line) {
            return match start_of(line) {
                Some(start) => Ok((start, lines_from(lines, place + 1))),
                None => Err(lines_from(lines, place)),
            };
        }
    }
    Err(lines_from(lines, lines.len()))
}

// The lines after the start, where each is passed over or spells an event.
fn events<'a>(alloc: Global, lines: Lines<'a>) -> Result<EventLines<'a>, Stop<'a>>
    ensures { TellsLines (λ events. events) result (events_in (texts lines.entry.now)) }
{
    for (place, line) in lines.iter().enumerate() {
        if let Err(fault) = check_line(alloc, line) {
            return Err(Stop::at(lines_from(lines, place), fault));
        }
    }
    Ok(EventLines::of(lines))
}

// Reads a line that is passed over or spells an event.
fn check_line(alloc: Global, line: &[u8]) -> Result<(), SpellingFault>
    ensures ok { OnOk result (IsTrue (is_line_of_event line.now)) }
    ensures bad { IfErr result (λ fault. fault ≡ SpellingFault.Bad
        → is_line_of_event line.now ≡ false) }
{
    if !is_passed_over(line) {
        event_of(alloc, line)?;
    }
    Ok(())
}

/// The first events of lines and the lines after them: one piece, which ends with the first collection, since its batch
/// may take much memory, or else all. Each line is passed over or spells an event, so that only memory can run out.
pub(crate) fn taken<'a>(
    alloc: Global,
    lines: Lines<'a>,
    is_piece: bool,
) -> Result<(Items<Event>, Lines<'a>), AllocError>
    ensures all { IfOk result (λ taken. after_events taken.0 (events_in (texts taken.1.now))
        ≡ events_in (texts lines.entry.now)) }
    ensures some { IfOk result (λ taken. length taken.0 ≡ 0 → length taken.1.now ≡ 0) }
    ensures whole { IfOk result (λ taken. is_piece ≡ false → length taken.1.now ≡ 0) }
{
    let mut events = Items::new(alloc);
    for (place, line) in lines.iter().enumerate() {
        if !is_passed_over(line) {
            let event = event_at(alloc, line)?;
            let is_last = is_piece && is_last(&event, events.len());
            events.push(event)?;
            if is_last {
                return Ok((events, lines_from(lines, place + 1)));
            }
        }
    }
    Ok((events, lines_from(lines, lines.len())))
}

// Whether a piece ends with the event, before which it has so many.
fn is_last(event: &Event, before: usize) -> bool {
    before >= MOST_BEFORE || matches!(event, Event::Collect { .. })
}

// The event of a line that spells one.
fn event_at(alloc: Global, line: &[u8]) -> Result<Event, AllocError>
    ensures { IfOk result (λ event. event_in line.now ≡ Some event) }
{
    match event_of(alloc, line) {
        Ok(event) => Ok(event),
        Err(_) => Err(AllocError),
    }
}

// The lines from this place on.
fn lines_from<'a>(lines: Lines<'a>, place: usize) -> Lines<'a>
    requires { place ≤ length lines.now }
    ensures { result.now ≡ drop place lines.entry.now }
{
    lines.split_at(place).1
}

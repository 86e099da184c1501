//! What is told of events that a replay refuses.
ghost use Rattle.std.specs.Prelude.{IsSome};

use crate::delivering::print;
use crate::replaying::is_trial;
use crate::shown_path::shown;
use metric_base::Text;
use metric_command_lines::{Form, Request};
use metric_contents::Refusal;
use metric_history::Reply;
use metric_io::Sink;
use metric_kit_commands::{KitFault, Tally, tally_replies};
use metric_parts::Parts;
use std::alloc::{AllocError, Global};

// How many reasons `Refusal::ALL` has.
const REASONS: usize = 15;

/// Tells how many events of the script of a replay are refused, and for what, where its form has batches alone. The
/// replay is done whatever becomes of the telling.
pub(crate) fn tell_refused<E: Sink>(
    alloc: Global,
    request: &Request,
    parts: &Parts<'_>,
    errors: &mut E,
)
    requires { IsSome parts.now.script }
{
    if request.options.form == Form::Replies {
        return;
    }
    let mut refusals = Refusals {
        events: 0,
        counts: [0; REASONS],
    };
    let _told = match tally_replies(alloc, is_trial(parts), parts, &mut refusals) {
        Ok(()) => print_refused(alloc, &request.files.script, &refusals, errors),
        Err(_) => print(errors, "out of memory\n"),
    };
}

// How many events there are, and how many are refused for each reason, in the order of `Refusal::ALL`.
#[derive(Drop)]
struct Refusals {
    events: u64,
    counts: [u64; REASONS],
}

impl Tally for Refusals {
    ghost tells = { λ _ _ _. Unit {0} };

    fn add(&mut self, replies: Vec<Reply>) -> Result<(), AllocError> {
        for reply in &replies {
            self.events = self.events.saturating_add(1);
            if let Reply::Refused(refusal) = reply {
                self.count(*refusal);
            }
        }
        Ok(())
    }
}

impl Refusals {
    fn count(&mut self, refusal: Refusal) {
        for place in 0..REASONS {
            if Refusal::ALL[place] == refusal {
                self.counts[place] = self.counts[place].saturating_add(1);
            }
        }
    }
}

fn print_refused<E: Sink>(
    alloc: Global,
    path: &Option<Text>,
    refusals: &Refusals,
    errors: &mut E,
) -> Result<(), KitFault> {
    let path = match path {
        Some(path) => shown(path.as_str()),
        None => "script",
    };
    match refused_message(alloc, path, refusals) {
        Ok(text) => print(errors, text.as_str()),
        Err(_) => print(errors, "out of memory\n"),
    }
}

// How many events are refused, and for what; nothing where none is.
fn refused_message(alloc: Global, path: &str, refusals: &Refusals) -> Result<String, AllocError> {
    let mut told = String::new(alloc);
    let refused = refusals
        .counts
        .iter()
        .fold(0u64, |sum, count| sum.saturating_add(*count));
    if refused > 0 {
        let all = refusals.events;
        write!(told, "{path}: events refused: {refused} of {all}")?;
        push_kinds(&mut told, refusals)?;
    }
    Ok(told)
}

// Puts the refusals that came last, in the order in which they are tried.
fn push_kinds(told: &mut String, refusals: &Refusals) -> Result<(), AllocError> {
    let mut is_first = true;
    for (place, refusal) in Refusal::ALL.iter().enumerate() {
        let count = refusals.counts[place];
        if count > 0 {
            let before = if is_first { " (" } else { ", " };
            let name = refusal.name();
            write!(told, "{before}{count} {name}")?;
            is_first = false;
        }
    }
    told.push_str(")\n")
}

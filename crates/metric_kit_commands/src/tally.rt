//! What is kept of the replies of a run.
ghost use Rattle.std.specs.Prelude.{◌≡◌, [], IfErr, OnOk};
ghost use Rattle.metric_core.specs.CoreStands.{CoreStands};
ghost use Rattle.metric_kit_commands.specs.Commands.{HasNeeded};
ghost use Rattle.metric_kit_commands.specs.Faults.{IsOfInput};
ghost use Rattle.metric_kit_commands.specs.Replaying.{IsReplayFault, IsTallied, needs_of, plain_options};
ghost use Rattle.metric_kit_commands.specs.Runs.{due_replies};

use crate::fault::KitFault;
use crate::pieces::run_piece;
use crate::prepared::{PreparedRun, event_lines, prepared_run};
use crate::replays::plain_options;
use metric_core::Core;
use metric_history::{Book, Reply};
use metric_marked::Marked;
use metric_parts::Parts;
use metric_script::EventLines;
use std::alloc::{AllocError, Global};

/// What is kept of replies, which come in pieces.
pub trait Tally {
    ghost use Rattle.std.specs.Prelude.{◌++◌, List};
    ghost use Rattle.metric_history.specs.declared.event.Reply.{Reply as Told};

    // What it has become since it began tells of these replies.
    ghost tells: { Self → Self → List Told → Type 0 };

    /// Adds the next replies.
    ///
    /// # Errors
    ///
    /// Out of memory.
    fn add(&mut self, replies: Vec<Reply>) -> Result<(), AllocError>
        ensures { OnOk result ((begun : Self) (told : List Told) → tells begun self.old told
            → tells begun self.new (told ++ replies.items)) };
}

/// The replies to the script of parts, without an audit, tallied: memory holds a few of them and one batch at a time.
///
/// # Errors
///
/// The first fault of the parts, or [`KitFault::Memory`].
pub fn tally_replies<T: Tally>(
    alloc: Global,
    trial: bool,
    parts: &Parts<'_>,
    tally: &mut T,
) -> Result<(), KitFault>
    requires needed { HasNeeded (needs_of (plain_options trial)) parts.now }
    requires begins { T.tells tally.old tally.old [] }
    ensures told { OnOk result (IsTallied (plain_options trial) parts.now
        (T.tells tally.old tally.new)) }
    ensures first { IfErr result (λ fault. IsReplayFault (plain_options trial) fault parts.now) }
    ensures own { IfErr result IsOfInput }
{
    let run = prepared_run(alloc, plain_options(trial), parts)?;
    let PreparedRun { mut core, start: _ } = run;
    tally_run::<Marked, T>(alloc, tally, &mut core, event_lines(parts))
}

/// Runs events on a core that has run nothing, and tallies the replies.
pub(crate) fn tally_run<B: Book, T: Tally>(
    alloc: Global,
    tally: &mut T,
    core: &mut Core<B>,
    events: EventLines<'_>,
) -> Result<(), KitFault>
    requires stands { CoreStands B.stands core.old [] }
    requires begins { T.tells tally.old tally.old [] }
    ensures told { OnOk result (T.tells tally.old tally.new
        (due_replies core.old.plan.facts core.old.start [] events.entry)) }
    ensures plan { core.new.plan ≡ core.old.plan }
    ensures memory { IfErr result (λ fault. fault ≡ KitFault.Memory) }
{
    let mut rest = events;
    loop {
        let (piece, later) = rest.split(alloc)?;
        if piece.is_empty() {
            return Ok(());
        }
        let replies = run_piece(alloc, core, piece.as_slice())?;
        tally.add(replies)?;
        rest = later;
    }
}

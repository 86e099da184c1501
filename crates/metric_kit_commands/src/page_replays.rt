//! A script replayed, of which the last batches of a reader are written, as a page has them.
ghost use Rattle.std.specs.Prelude.{◌≡◌, ◌++◌, [], ℕ, List, Option, false, IfErr, IfOk, IsSome, OnOk};
ghost use Rattle.metric_kit_commands.specs.Commands.{HasNeeded, RunsParts, sink_run};
ghost use Rattle.metric_kit_commands.specs.Faults.{IsOfInput};
ghost use Rattle.metric_kit_commands.specs.Pages.{AreLast, IsPage, IsPageRun, Keeps, KeepsLast, page_of_last};
ghost use Rattle.metric_kit_commands.specs.Replaying.{IsReplayFault, needs_of, plain_options};

use crate::command::{Command, run_parts};
use crate::fault::KitFault;
use crate::options::ReplayOptions;
use crate::parts::write_text;
use crate::prepared::{PreparedRun, event_lines, prepared_run};
use crate::replays::plain_options;
use crate::tally::{Tally, tally_run};
use metric_core::Core;
use metric_history::{Batch, Reply};
use metric_io::Sink;
use metric_marked::Marked;
use metric_parts::{Needs, Parts};
use metric_plan::Plan;
use std::alloc::{AllocError, Global};

/// How the batches of a page are written.
pub trait PageEncoding {
    ghost use Rattle.metric_plan.specs.Plans.{PlanValue};
    ghost use Rattle.metric_history.specs.declared.batch.Batch.{Batch as BatchValue};

    // What they are, by the plan and the batch of each instrument.
    ghost text: { Self → PlanValue → List (Option BatchValue) → List ℕ };

    /// Writes them. Fails only when out of memory, and may then have written a part.
    fn push_page(
        &self,
        alloc: Global,
        out: &mut Vec<u8>,
        plan: &Plan,
        batches: &[Option<Batch>],
    ) -> Result<(), AllocError>
        ensures { OnOk result (out.new.items
            ≡ out.old.items ++ text self.now plan.now batches.now) };
}

/// What a page is made of.
#[derive(Clone, Copy)]
pub struct PageForm<'a, E> {
    /// What it begins with.
    pub head: &'a [u8],
    /// The reader whose batches it has.
    pub reader: u32,
    /// What the batches are in it.
    pub encoding: &'a E,
    /// What it ends with.
    pub tail: &'a [u8],
}

/// [`replay_parts`](crate::replay_parts) without an audit, which writes one page: what it begins with, the last batch
/// that the reader collected of each instrument in the order of the catalogue, all of them in one encoding, and what it
/// ends with. Memory holds these batches and a few replies.
///
/// # Errors
///
/// Those of [`replay_parts`](crate::replay_parts).
pub fn replay_page<E: PageEncoding, W: Sink>(
    alloc: Global,
    trial: bool,
    form: &PageForm<'_, E>,
    parts: &Parts<'_>,
    sink: &mut W,
) -> Result<(), KitFault>
    requires { HasNeeded (needs_of (plain_options trial)) parts.now }
    ensures { RunsParts (IsPage (E.text form.now.encoding.now) form.now.reader
        form.now.head.now form.now.tail.now (plain_options trial) parts.now)
        (λ fault. IsReplayFault (plain_options trial) fault parts.now)
        (sink_run W.contents W.failures sink.old sink.new) result }
{
    run_parts(alloc, &PageReplay { trial, form }, parts, sink)
}

// A replay of which a page is written.
#[derive(Clone, Copy)]
struct PageReplay<'a, E> {
    trial: bool,
    form: &'a PageForm<'a, E>,
}

// A run with the last batches of a reader.
#[derive(Drop)]
struct PageRun {
    core: Core<Marked>,
    batches: LastBatches,
}

// The last batch that a reader collected of each instrument.
#[derive(Drop)]
struct LastBatches {
    reader: u32,
    last: Vec<Option<Batch>>,
}

impl LastBatches {
    // None yet of so many instruments.
    fn none(alloc: Global, reader: u32, count: usize) -> Result<LastBatches, AllocError>
        ensures reader { IfOk result (λ batches. batches.reader ≡ reader) }
        ensures last { IfOk result (λ batches. AreLast reader count batches.last.items []) }
    {
        let mut last = Vec::with_capacity(alloc, count)?;
        for _ in 0..count {
            last.push(None)?;
        }
        Ok(LastBatches { reader, last })
    }

    // Keeps the batch of a reply where it is of the reader and of one of the instruments.
    fn keep(&mut self, reply: Reply)
        ensures reader { self.new.reader ≡ self.old.reader }
        ensures last { KeepsLast self.old.reader self.old.last.items self.new.last.items reply }
    {
        if let Reply::Collected(batch) = reply
            && batch.reader == self.reader
            && (batch.instrument as usize) < self.last.len()
        {
            let place = batch.instrument as usize;
            self.last[place] = Some(batch);
        }
    }

    // Keeps those of replies, one after the other.
    fn keep_all(&mut self, replies: Vec<Reply>)
        ensures { Keeps self.old.reader self.old.last.items self.new.reader self.new.last.items
            replies.items }
    {
        for reply in replies {
            self.keep(reply);
        }
    }
}

impl Tally for LastBatches {
    ghost use Rattle.std.specs.Prelude.{length};
    ghost use Rattle.metric_kit_commands.specs.Pages.{AreLast as Last};

    ghost tells = { λ begun now told. (now.reader ≡ begun.reader)
        × Last begun.reader (length begun.last.items) now.last.items told };

    fn add(&mut self, replies: Vec<Reply>) -> Result<(), AllocError> {
        self.keep_all(replies);
        Ok(())
    }
}

// The run of the script of parts, with the last batches of a reader.
fn page_run(
    alloc: Global,
    options: ReplayOptions,
    reader: u32,
    parts: &Parts<'_>,
) -> Result<PageRun, KitFault>
    requires certificate { options.trial ≡ false → IsSome parts.now.certificate }
    requires script { IsSome parts.now.script }
    ensures ok { IfOk result (λ run. IsPageRun options reader parts.now run.core.plan
        run.batches.last.items) }
    ensures first { IfErr result (λ fault. IsReplayFault options fault parts.now) }
    ensures own { IfErr result IsOfInput }
{
    let run = prepared_run(alloc, options, parts)?;
    let PreparedRun { mut core, start: _ } = run;
    let count = core.plan().catalogue().instruments().len();
    let mut batches = LastBatches::none(alloc, reader, count)?;
    tally_run::<Marked, LastBatches>(alloc, &mut batches, &mut core, event_lines(parts))?;
    Ok(PageRun { core, batches })
}

// The page of the last batches of a reader.
fn page_of<E: PageEncoding>(
    alloc: Global,
    form: &PageForm<'_, E>,
    plan: &Plan,
    batches: &[Option<Batch>],
) -> Result<Vec<u8>, AllocError>
    ensures { IfOk result (λ text. text.items ≡ page_of_last (E.text form.now.encoding.now)
        form.now.head.now form.now.tail.now plan.now batches.now) }
{
    let mut text = Vec::new(alloc);
    text.extend_from_slice(form.head)?;
    form.encoding.push_page(alloc, &mut text, plan, batches)?;
    text.extend_from_slice(form.tail)?;
    Ok(text)
}

impl<E: PageEncoding> Command for PageReplay<'_, E> {
    ghost use Rattle.std.proofs.Common.{inl};
    ghost use Rattle.metric_kit_commands.specs.PageLaws.{last_is_page};
    ghost use Rattle.metric_kit_commands.specs.Pages.{IsPage as IsPageOf, IsPageRun as IsRunOf, page_of_last as text_of_last};
    ghost use Rattle.metric_kit_commands.specs.Replaying.{IsFirstFault as IsFirst, IsReplayFault as IsFault, needs_of as parts_needed, plain_options as options_of, replay_refused};

    type Answer = PageRun;

    ghost needed = { λ c. parts_needed (options_of c.trial) };

    ghost is_answer = { λ c read run. IsRunOf (options_of c.trial) c.form.now.reader read
        run.core.plan run.batches.last.items };

    ghost is_fault = { λ c. IsFault (options_of c.trial) };

    ghost is_due = { λ c. IsPageOf (E.text c.form.now.encoding.now) c.form.now.reader
        c.form.now.head.now c.form.now.tail.now (options_of c.trial) };

    ghost is_first_fault = { λ c. IsFirst (options_of c.trial) };

    ghost text = { λ c _ run. text_of_last (E.text c.form.now.encoding.now)
        c.form.now.head.now c.form.now.tail.now run.core.plan run.batches.last.items };

    fn needed_parts(&self) -> Needs {
        plain_options(self.trial).needs()
    }

    fn answer(&self, alloc: Global, parts: &Parts<'_>) -> Result<PageRun, KitFault> {
        page_run(alloc, plain_options(self.trial), self.form.reader, parts)
    }

    #[tactic(auto, using(metric_io::specs::Prefix::prefixes))]
    fn write<W: Sink>(
        &self,
        alloc: Global,
        sink: &mut W,
        _parts: &Parts<'_>,
        run: PageRun,
    ) -> Result<(), KitFault> {
        let text = page_of(alloc, self.form, run.core.plan(), &run.batches.last)?;
        write_text(sink, &text)
    }

    ghost answered = { λ c _ run known. record {
      plan = run.core.plan;
      replies = known.replies;
      answered = known.answered;
      written = last_is_page (E.text c.form.now.encoding.now) c.form.now.reader
          c.form.now.head.now c.form.now.tail.now run.core.plan known.replies
          run.batches.last.items known.are_last;
    } };

    ghost refused = { λ c. replay_refused (options_of c.trial) };

    ghost unread = { λ _ _ _ found. inl found };

    ghost unremembered = { λ _ _. tt };
}

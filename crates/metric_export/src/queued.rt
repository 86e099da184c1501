//! An exporter that keeps the batches which another one refused.
ghost use Rattle.std.specs.Prelude.{◌≡◌, true, false, ◌<◌, ◌≤◌, ◌+◌, ◌-◌, ◌^◌, [], ◌++◌, None, drop, if◌then◌else◌, length, vec_len};
ghost use Rattle.std.specs.Io.KnownBytes.{Keeps};
ghost use Rattle.metric_export.specs.ExporterCalls.{IsExport};
ghost use Rattle.metric_export.specs.Exports.{is_taken};
ghost use Rattle.metric_export.specs.Queues.{HandsIn, IsAccounted, PassesFlush, PassesShutdown, RetriesKept};
ghost use Rattle.metric_export.specs.Queues.{TriesAll, TriesWhenDue, answered, entered, failures_after, is_due, kept_out};
ghost use Rattle.metric_export.specs.Queues.{longer, new_queue, passed_on, pause_after, paused, retried, wait_after};
ghost use Rattle.metric_export.specs.States.{GoesOn};

use crate::belonging::{own_batch, own_batches};
use crate::copies::push_copy;
use crate::exporter::MetricExporter;
use crate::fault::ExportFault;
use crate::handing::export_each;
use crate::state::ExporterState;
use metric_history::Batch;
use metric_plan::Plan;
use std::alloc::Global;
use std::marker::Model;

// The longest pause between two tries, in exports.
const LONGEST_PAUSE: u32 = 63;

/// An exporter that keeps the batches which the exporter below it refused, up to a number of them, and tries them
/// again, the oldest first, before the next one. So a delta window survives an export that failed.
///
/// Each batch that is handed in goes out once, in order, or is kept, or is told as lost: [`dropped`](Queued::dropped)
/// counts the oldest ones that had to go since more may not be kept, [`unkept`](Queued::unkept) those that were not
/// kept, because memory ran out or none may be kept. An export answers [`ExportFault::Kept`] where the batch did not go
/// out and is kept, and [`ExportFault::Memory`] where it is not: then nobody has it. Where the exporter below wrote a
/// part of a batch, it is still tried again as a whole. A batch of another plan than a kept one is refused by
/// [`ExportFault::OtherPlan`], so a queue serves providers of one plan; one of a reader whose batches the exporter below
/// does not take is refused by [`ExportFault::OtherReader`] and never kept.
///
/// After a try that failed the next export only keeps its batch; after another one the next 3, then 7 and so on up to
/// 63, as long as something is kept. So a device that is out is not asked for each batch.
/// [`retry`](MetricExporter::retry) tries at once, as a reader and a service do at their end.
///
/// What is still kept at the end, as after a shutdown, [`into_parts`](Queued::into_parts) hands back, and another queue
/// can be begun [with it](Queued::with_kept). A batch that is kept takes the memory of a copy.
#[derive(Drop)]
pub struct Queued<E> {
    inner: E,
    kept: Vec<Batch>,
    most: usize,
    pause: u32,
    wait: u32,
    state: ExporterState,
    sent: u64,
    dropped: u64,
    unkept: u64,
    failures: u64,
}

impl<E> Model for Queued<E> {
    ghost use Rattle.metric_export.specs.Queues.{QueuedValue};

    ghost Value = { QueuedValue E };

    ghost view = { λ q. record {
      inner = q.inner;
      kept = q.kept.items;
      most = q.most;
      pause = q.pause;
      wait = q.wait;
      state = q.state;
      sent = q.sent;
      dropped = q.dropped;
      unkept = q.unkept;
      failures = q.failures;
    } };
}

impl<E: MetricExporter> Queued<E> {
    /// An exporter that hands on to this one, and keeps at most so many batches. It keeps none yet.
    pub fn new(alloc: Global, inner: E, most: usize) -> Queued<E>
        ensures { result ≡ new_queue inner [] most }
    {
        Queued::with_kept(inner, Vec::new(alloc), most)
    }

    /// The same, begun with batches that are kept, the oldest first, as [`into_parts`](Queued::into_parts) hands them
    /// back. Where they are more than may be kept, the oldest go with the next export.
    pub fn with_kept(inner: E, kept: Vec<Batch>, most: usize) -> Queued<E>
        ensures { result ≡ new_queue inner kept.items most }
    {
        Queued {
            inner,
            kept,
            most,
            pause: 0,
            wait: 0,
            state: ExporterState::Open,
            sent: 0,
            dropped: 0,
            unkept: 0,
            failures: 0,
        }
    }

    /// The batches that are kept, the oldest first.
    pub fn kept(&self) -> &[Batch]
        ensures { result.now ≡ self.now.kept }
    {
        &self.kept
    }

    /// How many batches went out, up to 2^64 - 1.
    pub fn sent(&self) -> u64
        ensures { result ≡ self.now.sent }
    {
        self.sent
    }

    /// How many batches were dropped since more may not be kept, up to 2^64 - 1.
    pub fn dropped(&self) -> u64
        ensures { result ≡ self.now.dropped }
    {
        self.dropped
    }

    /// How many batches were refused and not kept, because memory ran out or none may be kept, up to 2^64 - 1.
    pub fn unkept(&self) -> u64
        ensures { result ≡ self.now.unkept }
    {
        self.unkept
    }

    /// The exporter below.
    pub fn inner(&self) -> &E
        ensures { result.now ≡ self.now.inner }
    {
        &self.inner
    }

    /// The exporter below, and the batches that are kept, the oldest first.
    pub fn into_parts(self) -> (E, Vec<Batch>)
        ensures inner { result.0 ≡ self.inner }
        ensures kept { result.1.items ≡ self.kept }
    {
        let Queued {
            inner,
            kept,
            most: _,
            pause: _,
            wait: _,
            state: _,
            sent: _,
            dropped: _,
            unkept: _,
            failures: _,
        } = self;
        (inner, kept)
    }
}

impl<E: MetricExporter> MetricExporter for Queued<E> {
    // What was kept goes out before the batch, so an export appends more than its text: neither is known.
    ghost text = { λ _ _ _. [] };

    ghost contents = { λ _. None };

    ghost failures = { λ q. q.failures };

    ghost state = { λ q. q.state };

    ghost takes = { λ q. E.takes q.inner };

    ghost export_gives = { HandsIn E.MetricExporter };

    ghost flush_gives = { PassesFlush E.MetricExporter };

    ghost retry_gives = { RetriesKept E.MetricExporter };

    ghost shutdown_gives = { PassesShutdown E.MetricExporter };

    fn takes(&self, plan: u64, reader: u32) -> bool {
        self.inner.takes(plan, reader)
    }

    fn export(&mut self, alloc: Global, plan: &Plan, batch: &Batch) -> Result<(), ExportFault> {
        self.state.admit()?;
        own_batch(plan, batch, self.inner.takes(batch.plan, batch.reader))?;
        own_batches(&self.inner, plan, &self.kept)?;
        let due = is_due(self.wait, &self.kept);
        let (sent, told) = try_when_due(due, &mut self.inner, alloc, plan, &self.kept, batch);
        let (is_in, lost) = keep(alloc, &mut self.kept, batch, sent, &told, self.most);
        self.sent = self.sent.saturating_add(sent as u64);
        self.dropped = self.dropped.saturating_add(lost as u64);
        self.unkept = self.unkept.saturating_add(kept_out(is_in));
        self.failures = failures_after(self.failures, &told);
        let is_taken = is_taken(&told);
        self.wait = wait_after(due, self.wait, self.pause, is_taken);
        self.pause = pause_after(due, self.pause, is_taken);
        answered(told, is_in)
    }

    fn force_flush(&mut self) -> Result<(), ExportFault> {
        self.state.admit()?;
        let answer = passed_on(self.inner.force_flush());
        self.failures = failures_after(self.failures, &answer);
        answer
    }

    fn retry(&mut self, alloc: Global, plan: &Plan) -> Result<(), ExportFault>
        ensures text { Keeps None None }
        ensures state { GoesOn self.old.state self.new.state result }
        ensures same_takes { E.takes self.new.inner ≡ E.takes self.old.inner }
        ensures gives { RetriesKept E.MetricExporter self.old self.new plan.now result }
    {
        self.state.admit()?;
        own_batches(&self.inner, plan, &self.kept)?;
        let handed = export_each(&mut self.inner, alloc, plan, &self.kept);
        let below = passed_on(self.inner.retry(alloc, plan));
        discard(&mut self.kept, handed.taken);
        self.sent = self.sent.saturating_add(handed.taken as u64);
        self.pause = paused(self.pause, handed.refused.is_none());
        self.wait = self.pause;
        let answer = retried(handed.refused, below);
        self.failures = failures_after(self.failures, &answer);
        answer
    }

    fn shutdown(&mut self) -> Result<(), ExportFault> {
        let admitted = self.state.admit();
        self.state = ExporterState::ShutDown;
        admitted?;
        let answer = passed_on(self.inner.shutdown());
        self.failures = failures_after(self.failures, &answer);
        answer
    }
}

/// Over a whole run, the batches that went out, were dropped or are still kept are those with which the queue was begun
/// and those that were handed in and kept or sent, each once and in order. Does nothing.
#[tactic(auto, using(crate::proofs::QueueLaws::accounted))]
pub fn every_batch_is_accounted_for()
    ensures { IsAccounted }
{}

// Whether a try is due.
fn is_due(wait: u32, kept: &[Batch]) -> bool
    ensures { result ≡ is_due wait kept.now }
{
    wait == 0 || kept.is_empty()
}

// Tries all where that is due; else nothing is tried.
fn try_when_due<E: MetricExporter>(
    due: bool,
    inner: &mut E,
    alloc: Global,
    plan: &Plan,
    kept: &[Batch],
    batch: &Batch,
) -> (usize, Result<(), ExportFault>)
    ensures tries { TriesWhenDue due (IsExport E.MetricExporter plan.now) inner.old inner.new
        kept.now batch.now result.0 result.1 }
    ensures within { result.0 ≤ length kept.now + 1 }
    ensures all { is_taken result.1 ≡ true → result.0 ≡ length kept.now + 1 }
    ensures some { is_taken result.1 ≡ false → result.0 ≤ length kept.now }
{
    if due {
        try_all(inner, alloc, plan, kept, batch)
    } else {
        (0, Err(ExportFault::Memory))
    }
}

// Exports the kept batches and then another one, in order, up to the first that is refused. How many went out, and the
// last answer.
fn try_all<E: MetricExporter>(
    inner: &mut E,
    alloc: Global,
    plan: &Plan,
    kept: &[Batch],
    batch: &Batch,
) -> (usize, Result<(), ExportFault>)
    ensures tries { TriesAll (IsExport E.MetricExporter plan.now) inner.old inner.new kept.now
        batch.now result.0 result.1 }
    ensures all { is_taken result.1 ≡ true → result.0 ≡ length kept.now + 1 }
    ensures some { is_taken result.1 ≡ false → result.0 ≤ length kept.now }
{
    let handed = export_each(inner, alloc, plan, kept);
    match handed.refused {
        Some(fault) => (handed.taken, Err(fault)),
        None => {
            let told = inner.export(alloc, plan, batch);
            (with_last(handed.taken, &told), told)
        }
    }
}

// How many were taken with the last one.
fn with_last(taken: usize, told: &Result<(), ExportFault>) -> usize
    requires { taken < 2 ^ 63 }
    ensures { result ≡ (if is_taken told.now then taken + 1 else taken) }
{
    if is_taken(told) { taken + 1 } else { taken }
}

// Whether the exporter below has the batch for which it answered this.
fn is_taken(told: &Result<(), ExportFault>) -> bool
    ensures { result ≡ is_taken told.now }
{
    match told {
        Ok(()) => true,
        Err(fault) => fault.is_kept(),
    }
}

/// The count of the calls in which the device failed, after one with this answer.
pub(crate) fn failures_after(failures: u64, answer: &Result<(), ExportFault>) -> u64
    ensures { result ≡ failures_after failures answer.now }
{
    match answer {
        Err(ExportFault::Write) => failures.saturating_add(1),
        _ => failures,
    }
}

// What is passed on of an answer of the exporter below, which may have been shut down before.
fn passed_on(told: Result<(), ExportFault>) -> Result<(), ExportFault>
    ensures { result ≡ passed_on told }
{
    match told {
        Err(ExportFault::ShutDown) => Err(ExportFault::Write),
        told => told,
    }
}

// What a queue answers, by what the exporter below answered and whether the batch is kept.
fn answered(told: Result<(), ExportFault>, is_in: bool) -> Result<(), ExportFault>
    ensures { result ≡ answered told is_in }
{
    if is_taken(&told) {
        told
    } else if is_in {
        Err(ExportFault::Kept)
    } else {
        Err(ExportFault::Memory)
    }
}

// What a new try answers.
fn retried(refused: Option<ExportFault>, below: Result<(), ExportFault>) -> Result<(), ExportFault>
    ensures { result ≡ retried refused below }
{
    match refused {
        Some(_) => Err(ExportFault::Kept),
        None => below,
    }
}

// The pause after an export, by whether a try was due.
fn pause_after(due: bool, pause: u32, is_taken: bool) -> u32
    ensures { result ≡ pause_after due pause is_taken }
{
    if due { paused(pause, is_taken) } else { pause }
}

// How many exports are to be let pass after one.
fn wait_after(due: bool, wait: u32, pause: u32, is_taken: bool) -> u32
    ensures { result ≡ wait_after due wait pause is_taken }
{
    if due {
        paused(pause, is_taken)
    } else {
        wait.saturating_sub(1)
    }
}

// The pause after a try.
fn paused(pause: u32, is_taken: bool) -> u32
    ensures { result ≡ paused pause is_taken }
{
    if is_taken { 0 } else { longer(pause) }
}

// A longer pause.
fn longer(pause: u32) -> u32
    ensures { result ≡ longer pause }
{
    if pause < LONGEST_PAUSE / 2 {
        2 * pause + 1
    } else {
        LONGEST_PAUSE
    }
}

// Keeps what is left of the kept batches and one more, after so many that went out, and lets go of the oldest that are
// more than may be kept. Whether the last one went out or was kept, and how many were let go.
fn keep(
    alloc: Global,
    kept: &mut Vec<Batch>,
    batch: &Batch,
    sent: usize,
    told: &Result<(), ExportFault>,
    most: usize,
) -> (bool, usize)
    requires all { is_taken told.now ≡ true → sent ≡ length kept.old.items + 1 }
    requires some { is_taken told.now ≡ false → sent ≤ length kept.old.items }
    ensures taken { is_taken told.now ≡ true → result.0 ≡ true }
    ensures none { is_taken told.now ≡ false → most ≡ 0 → result.0 ≡ false }
    ensures lost { let all = kept.old.items ++ entered result.0 batch.now in
        result.1 ≡ length all - sent - most }
    ensures items { let all = kept.old.items ++ entered result.0 batch.now in
        kept.new.items ≡ drop (sent + result.1) all }
{
    if is_taken(told) {
        kept.clear();
        return (true, 0);
    }
    let is_in = most > 0 && push_copy(alloc, kept, batch);
    let lost = discard_sent(kept, sent, most);
    (is_in, lost)
}

// How many batches more were not kept.
fn kept_out(is_in: bool) -> u64
    ensures { result ≡ kept_out is_in }
{
    match is_in {
        true => 0,
        false => 1,
    }
}

// Lets go of so many that went out, and then of the oldest that are more than may be kept. How many these are.
fn discard_sent(kept: &mut Vec<Batch>, sent: usize, most: usize) -> usize
    requires { sent ≤ vec_len kept.old }
    ensures lost { result ≡ vec_len kept.old - sent - most }
    ensures items { kept.new.items ≡ drop (sent + result) kept.old.items }
{
    let lost = (kept.len() - sent).saturating_sub(most);
    discard(kept, sent + lost);
    lost
}

// Lets go of so many of the oldest batches.
fn discard(kept: &mut Vec<Batch>, count: usize)
    requires { count ≤ vec_len kept.old }
    ensures items { kept.new.items ≡ drop count kept.old.items }
    ensures len { vec_len kept.new + count ≡ vec_len kept.old }
{
    kept.drain(..count);
}

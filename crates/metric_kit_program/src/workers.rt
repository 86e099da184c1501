//! What the threads of recorders and readers do.
ghost use Rattle.std.specs.Prelude.{◌≡◌, IfOk};

use crate::options::ThreadsOptions;
use metric_contents::{Attr, Instrument, Refusal};
use metric_history::{Batch, Book};
use metric_provider::{AllFault, Collector, NoGate, Provider, Recorder};
use std::alloc::{AllocError, Global};
use std::sync::Wait;
use std::thread;
use std::thread::{JoinHandle, Threads};

/// The provider of the threads, over a book.
pub(crate) type Shared<B> = Provider<B, NoGate>;

// The last time of the collections, which come at each moment from 1 on.
const LAST: u64 = 8;

// What a thread has: the seat with which it records, or that with which it collects.
#[derive(Drop)]
enum Job {
    Recorder(Recorder),
    Collector(Collector),
}

// What a thread comes to: the seat with which it recorded, or the batches that it was told.
#[derive(Drop)]
enum Done {
    Recorder(Recorder),
    Batches(Vec<Batch>),
}

/// What the threads of recorders and readers come to.
#[derive(Drop)]
pub(crate) struct Worked {
    /// The seats of the recorders.
    pub recorders: Vec<Recorder>,
    /// The batches that the readers were told, those of one reader in order. None where the books keep no entries: no
    /// audit would need them.
    pub batches: Vec<Batch>,
}

/// Lets the recorders record and the readers collect, each in a thread of its own, and tells what they come to after
/// all of them have ended. Fails if memory ran out in a thread, or for one, or if a thread could not be started.
pub(crate) fn work<R: Threads + Wait + Sync, B: Book + Send + Sync>(
    rt: &R,
    alloc: Global,
    provider: &Shared<B>,
    options: ThreadsOptions,
    recorders: Vec<Recorder>,
    collectors: Vec<Collector>,
) -> Result<Worked, AllocError> {
    let jobs = all_jobs(alloc, recorders, collectors)?;
    thread::scope(thread::scope_env(), rt, |scope| {
        let mut threads = Vec::new(alloc);
        for job in jobs {
            let used = move || do_job(rt, alloc, provider, options, job);
            threads.push(scope.spawn(used)?)?;
        }
        all_worked(rt, alloc, threads)
    })
}

fn all_jobs(
    alloc: Global,
    recorders: Vec<Recorder>,
    collectors: Vec<Collector>,
) -> Result<Vec<Job>, AllocError> {
    let mut jobs = Vec::new(alloc);
    for recorder in recorders {
        jobs.push(Job::Recorder(recorder))?;
    }
    add_collectors(jobs, collectors)
}

fn add_collectors(jobs: Vec<Job>, collectors: Vec<Collector>) -> Result<Vec<Job>, AllocError> {
    let mut jobs = jobs;
    for collector in collectors {
        jobs.push(Job::Collector(collector))?;
    }
    Ok(jobs)
}

// Does what a job is for.
fn do_job<R: Wait, B: Book>(
    rt: &R,
    alloc: Global,
    provider: &Shared<B>,
    options: ThreadsOptions,
    job: Job,
) -> Result<Done, AllocError> {
    match job {
        Job::Recorder(recorder) => record_all(rt, alloc, provider, options, recorder),
        Job::Collector(collector) => collect_all(rt, alloc, provider, collector),
    }
}

// What threads that have ended come to, or a failure of one.
fn all_worked<R: Threads>(
    rt: &R,
    alloc: Global,
    threads: Vec<JoinHandle<Result<Done, AllocError>>>,
) -> Result<Worked, AllocError> {
    let mut recorders = Vec::new(alloc);
    let mut batches = Vec::new(alloc);
    for thread in threads {
        match thread.join(rt)? {
            Done::Recorder(recorder) => recorders.push(recorder)?,
            Done::Batches(told) => push_all(&mut batches, told)?,
        }
    }
    Ok(Worked { recorders, batches })
}

// Puts batches last.
fn push_all(batches: &mut Vec<Batch>, more: Vec<Batch>) -> Result<(), AllocError> {
    for batch in more {
        batches.push(batch)?;
    }
    Ok(())
}

// Records on each instrument in order, so many times.
fn record_all<R: Wait, B: Book>(
    rt: &R,
    alloc: Global,
    provider: &Shared<B>,
    options: ThreadsOptions,
    recorder: Recorder,
) -> Result<Done, AllocError> {
    let mut recorder = recorder;
    let instruments = provider.plan().catalogue().instruments();
    for (number, instrument) in instruments.iter().enumerate() {
        let recording = Recording {
            instrument: number as u32,
            attrs: first_attrs(alloc, instrument)?,
            value: instrument.hi,
        };
        recording.repeat(rt, provider, options.each, &mut recorder)?;
    }
    Ok(Done::Recorder(recorder))
}

// A recording that is made again and again.
#[derive(Drop)]
struct Recording<'a> {
    instrument: u32,
    attrs: Vec<Attr<'a>>,
    value: i64,
}

impl Recording<'_> {
    // Makes the recording so many times. Each refusal other than out of memory is passed over.
    fn repeat<R: Wait, B: Book>(
        &self,
        rt: &R,
        provider: &Shared<B>,
        times: u32,
        recorder: &mut Recorder,
    ) -> Result<(), AllocError> {
        for _ in 0..times {
            let answer = recorder.record(rt, provider, self.instrument, &self.attrs, self.value);
            if matches!(answer, Err(Refusal::Memory)) {
                return Err(AllocError);
            }
        }
        Ok(())
    }
}

// The first declared value of each required key of an instrument.
fn first_attrs(alloc: Global, instrument: &Instrument) -> Result<Vec<Attr<'_>>, AllocError> {
    let mut attrs = Vec::new(alloc);
    for key in instrument.keys.as_slice() {
        if let Some(value) = key.values.as_slice().first()
            && !key.optional
        {
            attrs.push(Attr {
                key: key.name.as_str(),
                value: value.as_ref(),
            })?;
        }
    }
    Ok(attrs)
}

// Collects all instruments at each time. The batches are kept where the books keep their entries.
fn collect_all<R: Wait, B: Book>(
    rt: &R,
    alloc: Global,
    provider: &Shared<B>,
    collector: Collector,
) -> Result<Done, AllocError> {
    let mut collector = collector;
    let mut batches = Vec::new(alloc);
    for now in 1..=LAST {
        let told = told_of(collector.collect_all(rt, alloc, provider, now))?;
        if B::KEEPS_ENTRIES {
            push_all(&mut batches, told)?;
        }
    }
    Ok(Done::Batches(batches))
}

// The batches of a collection, or those before a refusal. Each refusal other than out of memory is passed over.
fn told_of(collected: Result<Vec<Batch>, AllFault>) -> Result<Vec<Batch>, AllocError> {
    match collected {
        Ok(batches) => Ok(batches),
        Err(fault) if matches!(fault.refusal, Refusal::Memory) => Err(AllocError),
        Err(fault) => Ok(fault.done),
    }
}

//! The workers: what each does in a run, by a seat that asks for more where its budget ends.
use anyhow::Result;
use metric_sdk::{AnySeat, Asking, Attr, Counter, MeterProvider, Plan, Recorder, Work, counter};
use std::alloc::Global;
use std::sync::Wait;
use std::time::Clock;

// What each worker does in a run: so many pages of a kind.
const JOBS: [(&str, i64); 4] = [("mail", 1), ("print", 9), ("mail", 2), ("print", 6)];

/// The jobs of the workers, with the instrument that they share.
#[derive(Clone, Copy)]
pub struct Jobs {
    pages: Counter,
}

impl Jobs {
    /// Finds the instrument.
    pub fn new(plan: &Plan) -> Result<Jobs> {
        let pages = counter(plan, "office", "pages", &["kind"])?;
        Ok(Jobs { pages })
    }

    /// Tells what the workers may still record, what can still be granted, and how many workers found too little of it.
    pub fn tell_left<R: Wait + Print>(
        &self,
        rt: &R,
        provider: &MeterProvider,
        workers: &[Asking],
    ) -> Result<()> {
        let (pages, mut room, mut wanting) = (self.pages.number(), 0u64, 0u64);
        for worker in workers {
            room = room.saturating_add(worker.seat().room(rt, provider, pages)?);
            wanting = wanting.saturating_add(u64::from(worker.wants_next_run()));
        }
        let spare = provider.spare_left(rt, pages)?;
        println!(rt; "left: room for {room}, spare for {spare}, too little for {wanting} workers")?;
        Ok(())
    }
}

impl Work<Asking, MeterProvider> for Jobs {
    // Does all jobs. Metrics stop no work: what is refused is missing in the totals.
    fn work<R: Wait + Clock>(&self, rt: &R, provider: &MeterProvider, worker: &mut Asking) {
        let mut at = worker.at(rt, provider);
        for (kind, count) in JOBS {
            let _ = at.add(&self.pages, &[Attr::text("kind", kind)], count);
        }
    }
}

/// A worker for each seat: it asks for 3 recordings more where its budget ends.
pub fn hired(alloc: Global, plan: &Plan, recorders: Vec<Recorder>) -> Result<Vec<Asking>> {
    let mut workers = Vec::new(alloc);
    for recorder in recorders {
        let worker = Asking::new(alloc, plan, recorder, 3).map_err(|(_, refused)| refused)?;
        workers.push(worker)?;
    }
    Ok(workers)
}

/// The seats of the workers, to be handed in.
pub fn seats_of(alloc: Global, workers: Vec<Asking>) -> Result<Vec<Recorder>> {
    let mut seats = Vec::new(alloc);
    for worker in workers {
        seats.push(worker.into_seat())?;
    }
    Ok(seats)
}

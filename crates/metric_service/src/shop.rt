//! What the shop's workers do: how a request is recorded, by names of code that `wormweekly bind` made of the catalogue,
//! and what they counted.
use crate::bound::{Route, Shop, Status, Worker as WorkerNumber};
use anyhow::Result;
use metric_sdk::{AnySeat, Counted, MeterProvider, Plan, Recorder, Work};
use std::alloc::Global;
use std::sync::Wait;
use std::time::Clock;

// Pretended requests, two for each worker: the route, the status, milliseconds and bytes. No route /admin is declared,
// and no status 500 for /cart.
const SERVED: [[(&str, Status, i64, i64); 2]; 4] = [
    [("/", Status::N200, 3, 12_000), ("/", Status::N404, 1, 90)],
    [
        ("/cart", Status::N200, 12, 4_500),
        ("/admin", Status::N404, 1, 90),
    ],
    [
        ("/pay", Status::N500, 1_200, 300),
        ("/cart", Status::N500, 7, 300),
    ],
    [
        ("/pay", Status::N200, 80, 700),
        ("/pay", Status::N200, 95, 700),
    ],
];

/// How many requests a worker has served: those that are recorded, and those of routes that are not declared.
#[derive(Clone, Copy)]
pub(crate) struct Served {
    pub recorded: u64,
    pub unknown: u64,
}

/// A worker: its seat, which counts what it is refused, and what it has served.
pub(crate) type Worker = (Counted, Served);

impl Work<Worker, MeterProvider> for Shop {
    // Serves the requests of a worker, and records each. Metrics stop no service: the seat counts what is refused.
    fn work<R: Wait + Clock>(&self, rt: &R, provider: &MeterProvider, worker: &mut Worker) {
        let (seat, served) = worker;
        let number = seat.seat().number() as usize % SERVED.len();
        for (path, status, took, size) in SERVED[number] {
            let Some(route) = Route::of(path) else {
                served.unknown = served.unknown.saturating_add(1);
                continue;
            };
            let mut at = seat.at(rt, provider);
            let items = i64::from(status == Status::N200);
            let errors = i64::from(status == Status::N500);
            let _ = self.http_requests.add(&mut at, route, status, 1);
            let _ = self.http_errors.add(&mut at, errors);
            let _ = self.http_request_duration.record(&mut at, route, took);
            let _ = self.http_response_size.record(&mut at, route, status, size);
            let _ = self
                .worker_latest_duration
                .record(&mut at, WorkerNumber::ALL[number], took);
            let _ = self.items_sold.add(&mut at, route, items);
            let _ = self.items_in_stock.add(&mut at, -items);
            served.recorded = served.recorded.saturating_add(1);
        }
    }
}

/// A worker for each seat.
pub(crate) fn hired(alloc: Global, plan: &Plan, recorders: Vec<Recorder>) -> Result<Vec<Worker>> {
    let mut workers = Vec::new(alloc);
    for recorder in recorders {
        let seat = Counted::new(alloc, plan, recorder).map_err(|(_, refused)| refused)?;
        let served = Served {
            recorded: 0,
            unknown: 0,
        };
        workers.push((seat, served))?;
    }
    Ok(workers)
}

/// What the workers served, and how many recordings of each instrument were refused, for whatever reason.
pub(crate) fn counted(alloc: Global, workers: &[Worker]) -> Result<(Served, [u64; 7])> {
    let (mut recorded, mut unknown, mut refused) = (0u64, 0u64, [0u64; 7]);
    for (seat, served) in workers {
        recorded = recorded.saturating_add(served.recorded);
        unknown = unknown.saturating_add(served.unknown);
        for refusal in seat.refusals(alloc)? {
            if let Some(count) = refused.get_mut(refusal.instrument as usize) {
                *count = count.saturating_add(refusal.count);
            }
        }
    }
    Ok((Served { recorded, unknown }, refused))
}

//! The quick start: two texts are opened, three orders are recorded, and what was collected is printed.
#![tactic(auto)]

use anyhow::{Context, Result};
use metric_sdk::{AnySeat, Attr, Runs, StdSink, counter, open, write_batch};
use std::io;

const CATALOGUE: &str = "format = 1
[[meter]]
name = 'shop'
[[meter.instrument]]
name = 'orders'
kind = 'counter'
range = [1, 100]
key = [{ name = 'country', values = ['de', 'fr'] }]
[[recorder]]
name = 'main'
budget = [{ instrument = 0, amount = 1000 }]
";

const CONFIG: &str = "format = 1\n[[reader]]\nname = 'console'\n";

fn main(rt: HostRuntime) -> Result<()> {
    let (alloc, mut runs) = (rt.alloc(), Runs::new());
    let opened = open(&rt, alloc, CATALOGUE, CONFIG, 0, &mut runs)?;
    let (provider, mut recorders, mut readers) = opened;
    let orders = counter(provider.plan(), "shop", "orders", &["country"])?;
    let recorder = recorders.first_mut().context("no recorder")?;
    let mut at = recorder.at(&rt, &provider);
    for (country, articles) in [("de", 2), ("fr", 1), ("de", 5)] {
        at.add(&orders, &[Attr::text("country", country)], articles)?;
    }
    let reader = readers.first_mut().context("no reader")?;
    let batch = reader.collect(&rt, alloc, &provider, orders.number(), 1_000)?;
    let mut console = StdSink::new(io::writer(&rt));
    write_batch(alloc, &mut console, provider.plan(), &batch)?;
    Ok(())
}

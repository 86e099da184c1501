//! Replies and batches on a page, with all their parts.
use crate::page::Page;
use metric_aggregate::PointValue;
use metric_contents::Refusal;
use metric_history::{Batch, Point, Reply, StreamPoints};
use std::process::Abort;

impl<R: Abort> Page<'_, R> {
    /// Writes numbers, each after its label.
    pub(crate) fn numbers(&mut self, numbers: &[(&str, u64)]) {
        for (label, number) in numbers {
            self.push(label);
            self.put(number);
        }
    }

    // Writes the set key of a point and its sum or last value; no stream here has more than two keys.
    fn point(&mut self, point: &Point) {
        match (&point.set, &point.value) {
            (Some(set), PointValue::Sum(value) | PointValue::Last(value)) => self.numbers(&[
                (" [", u64::from(set[0])),
                (" ", u64::from(set[1])),
                ("] ", value.unsigned_abs()),
            ]),
            _ => self.push(" no number of a series"),
        }
    }

    fn stream(&mut self, stream: &StreamPoints) {
        self.numbers(&[(" stream ", u64::from(stream.stream))]);
        for point in stream.points.as_slice() {
            self.point(point);
        }
    }

    // Writes of which reader and instrument a batch is, which recordings it covers, and from when to when.
    fn window(&mut self, batch: &Batch) {
        self.numbers(&[
            ("", u64::from(batch.reader)),
            (" ", u64::from(batch.instrument)),
            (", ", batch.from),
            (" to ", batch.mark),
            (", ", batch.start),
            (" to ", batch.time),
        ])
    }

    /// Writes a line with all that a batch has.
    pub(crate) fn batch(&mut self, batch: &Batch) {
        self.window(batch);
        self.push(":");
        for stream in batch.streams.as_slice() {
            self.stream(stream);
        }
        self.push("\n")
    }

    /// Writes a line with all that a reply has.
    pub(crate) fn reply(&mut self, reply: &Reply) {
        match reply {
            Reply::Accepted => self.push("accepted\n"),
            Reply::Done => self.push("done\n"),
            Reply::Granted => self.push("granted\n"),
            Reply::Refused(refusal) => self.say(refusal),
            Reply::Collected(batch) => self.batch(batch),
        }
    }

    /// Writes what a collection answers.
    pub(crate) fn collected(&mut self, answer: Result<Batch, Refusal>) {
        match answer {
            Ok(batch) => self.batch(&batch),
            Err(refusal) => self.say(refusal),
        }
    }

    /// Writes what a call answers that returns nothing: this word where it succeeds.
    pub(crate) fn answered(&mut self, answer: Result<(), Refusal>, word: &str) {
        match answer {
            Ok(()) => self.push(word),
            Err(refusal) => self.say(refusal),
        }
    }
}

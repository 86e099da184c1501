//! Room for a job of several recordings.
ghost use Rattle.std.specs.Prelude.{◌≡◌, ◌↔◌, ◌≤◌, All, IsTrue, IfErr, OnOk};
ghost use Rattle.metric_handles.specs.Jobs.{HasRoomFor, LacksRoom, LacksRoomAt, TellsNeed, needed_in};

use crate::at::At;
use crate::handle::Handle;
use crate::recorded::Recorded;
use crate::rooms::{Rooms, RoomsOf};
use metric_contents::Refusal;
use metric_history::Book;
use metric_provider::{Gate, SetsFault};
use std::sync::Wait;

/// How many recordings of an instrument a job makes, made by [`Handle::need`].
#[derive(Clone, Copy, Debug, PartialEq, Eq, Drop)]
pub struct Need {
    // The fingerprint of the plan.
    pub(crate) plan: u64,
    /// The number of the instrument.
    pub instrument: u32,
    /// How many recordings there are.
    pub count: u64,
}

impl<K> Handle<K> {
    /// So many recordings of the instrument.
    pub fn need(&self, count: u64) -> Need
        ensures { result ≡ record {
          plan = self.now.plan;
          instrument = self.now.number;
          count = count;
        } }
    {
        Need {
            plan: self.plan(),
            instrument: self.number(),
            count,
        }
    }
}

impl<R: Wait, S: Recorded, B: Book, G: Gate> At<'_, R, S, B, G> {
    /// Whether the recorder has room for all recordings of a job, as of a counter and a histogram: then none of them is
    /// refused for its budget, as long as the seat records nothing else on these instruments. Needs of one instrument
    /// are added up. Each instrument is asked under its lock, one after the other, since nobody else can take the
    /// recorder's room; no two locks are held.
    ///
    /// # Errors
    ///
    /// The first need for which there is none, with its place: `Budget` where its instrument has less room than the job
    /// makes on it, else what `Recorder::room` is refused for; `Stranger` where the need is of another plan.
    pub fn has_room(&self, job: &[Need]) -> Result<(), SetsFault>
        ensures ok { let tells = TellsNeed self.now.provider.now (S.seat self.now.seat.now) in
            OnOk result (All (HasRoomFor tells job.now) job.now) }
        ensures err { let tells = TellsNeed self.now.provider.now (S.seat self.now.seat.now) in
            IfErr result (LacksRoomAt tells job.now) }
    {
        let rooms = RoomsOf {
            recorder: self.seat.recorder(),
            rt: self.rt,
            provider: self.provider,
        };
        has_room(&rooms, job)
    }
}

// The first need of a job for which there is no room.
fn has_room<M: Rooms>(rooms: &M, job: &[Need]) -> Result<(), SetsFault>
    ensures ok { OnOk result (All (HasRoomFor (M.tells rooms.now) job.now) job.now) }
    ensures err { IfErr result (LacksRoomAt (M.tells rooms.now) job.now) }
{
    for (place, need) in job.iter().enumerate() {
        match room_for(rooms, job, need) {
            Ok(()) => {}
            Err(refusal) => return Err(SetsFault { place, refusal }),
        }
    }
    Ok(())
}

// Whether there is room for all that a job makes on the instrument of a need.
fn room_for<M: Rooms>(rooms: &M, job: &[Need], need: &Need) -> Result<(), Refusal>
    ensures ok { OnOk result (HasRoomFor (M.tells rooms.now) job.now need.now) }
    ensures err { IfErr result (LacksRoom (M.tells rooms.now) job.now need.now) }
{
    let room = rooms.room(need)?;
    if !is_within(room, job, need.instrument) {
        return Err(Refusal::Budget);
    }
    Ok(())
}

// Whether what a job makes on an instrument is no more than a room.
#[tactic(auto, using(crate::proofs::JobLaws::needed_here, crate::proofs::JobLaws::needed_else))]
fn is_within(room: u64, job: &[Need], instrument: u32) -> bool
    ensures { IsTrue result ↔ (needed_in job.now instrument ≤ room) }
{
    let (mut left, mut rest) = (room, job);
    while let [need, others @ ..] = rest {
        if need.instrument == instrument {
            if need.count > left {
                return false;
            }
            left -= need.count;
        }
        rest = others;
    }
    true
}

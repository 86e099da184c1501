//! Recordings by the seats of recorders.
ghost use Rattle.std.specs.Prelude.{◌≡◌, map, OnOk, OnErr};
ghost use Rattle.metric_contents.specs.Attributes.{given_by};
ghost use Rattle.metric_hosted.specs.Listings.{AnswersList};
ghost use Rattle.metric_hosted.specs.Recordings.{AnswersHosted, RecordsHosted, admission_of, admission_of_key};
ghost use Rattle.metric_hosted.specs.Settlements.{TellsOf};

use crate::instrument::Hosted;
use crate::settling::SeatTold;
use metric_contents::{Attr, Refusal, SetKey};
use metric_facts::same_facts;
use metric_plan::Plan;
use metric_seat::{FinishFault, Measurement, RecorderSeat, SetsFault};

impl Hosted {
    /// Makes a recording of a seat (Metrics API, synchronous instruments), and tells the seat of it. The plan is that
    /// of the seat.
    ///
    /// # Errors
    ///
    /// The first of these: `Stranger` where the instrument's run is of another number, the seat was made for another
    /// number of instruments, or the plan has no recorder of its number; `UnknownInstrument`; those of the attributes
    /// in their order, the last of them `Combination`; `ValueRange`; `Stranger` where the instrument's facts or its
    /// number of the recorder's recordings are not the seat's; `Closed`; `Budget`; `Memory`, which never comes where
    /// all streams of the instrument are by product.
    pub fn record(
        &mut self,
        plan: &Plan,
        seat: &mut RecorderSeat,
        attrs: &[Attr<'_>],
        value: i64,
    ) -> Result<(), Refusal>
        ensures answer { let given = map given_by attrs.now in
            let admission = admission_of plan.now self.old seat.old given value in
            AnswersHosted admission plan.now self.old seat.old value result }
        ensures new { let given = map given_by attrs.now in
            let admission = admission_of plan.now self.old seat.old given value in
            OnOk result (RecordsHosted
            admission plan.now self.old self.new seat.old seat.new value) }
        ensures seat_err { OnErr result (seat.new ≡ seat.old) }
        ensures err { OnErr result (self.new ≡ self.old) }
    {
        let set = seat.admit(plan, self.run(), self.number(), attrs, &value)?;
        self.record_known(plan, seat, set, &value)
    }

    /// Makes a recording of a set key that [`RecorderSeat::prepare`] answered for the instrument, and tells the seat of
    /// it.
    ///
    /// # Errors
    ///
    /// As of [`Hosted::record`], but in the place of those of attributes `UnknownValue` where the set key is not one
    /// of the instrument's, then `Combination` where it is none of its allowed combinations.
    pub fn record_set(
        &mut self,
        plan: &Plan,
        seat: &mut RecorderSeat,
        set: SetKey,
        value: i64,
    ) -> Result<(), Refusal>
        ensures answer { let held = self.old in
            let admission = admission_of_key plan.now held seat.old set value in
            AnswersHosted admission plan.now held seat.old value result }
        ensures new { let held = self.old in
            let admission = admission_of_key plan.now held seat.old set value in
            OnOk result (RecordsHosted
            admission plan.now held self.new seat.old seat.new value) }
        ensures seat_err { OnErr result (seat.new ≡ seat.old) }
        ensures err { OnErr result (self.new ≡ self.old) }
    {
        let set = seat.admit_key(plan, self.run(), self.number(), set, &value)?;
        self.record_known(plan, seat, set, &value)
    }

    /// Makes recordings of set keys, one after the other, up to the first refusal. Those before it are made.
    ///
    /// # Errors
    ///
    /// The first refusal of [`Hosted::record_set`], with the number of recordings that were made.
    pub fn record_sets(
        &mut self,
        plan: &Plan,
        seat: &mut RecorderSeat,
        recordings: &[Measurement],
    ) -> Result<(), SetsFault>
        ensures { AnswersList plan.now
            self.old self.new seat.old seat.new recordings.now result }
    {
        for (place, one) in recordings.iter().enumerate() {
            match self.record_one(plan, seat, one) {
                Ok(()) => {}
                Err(refusal) => return Err(SetsFault { place, refusal }),
            }
        }
        Ok(())
    }

    // Makes one of them.
    fn record_one(
        &mut self,
        plan: &Plan,
        seat: &mut RecorderSeat,
        one: &Measurement,
    ) -> Result<(), Refusal>
        ensures answer { let set = one.now.set in
            let admission = admission_of_key plan.now self.old seat.old set one.now.value in
            AnswersHosted admission plan.now self.old seat.old one.now.value result }
        ensures new { let set = one.now.set in
            let admission = admission_of_key plan.now self.old seat.old set one.now.value in
            OnOk result (RecordsHosted
            admission plan.now self.old self.new seat.old seat.new one.now.value) }
        ensures seat_err { OnErr result (seat.new ≡ seat.old) }
        ensures err { OnErr result (self.new ≡ self.old) }
    {
        self.record_set(plan, seat, one.set, one.value)
    }

    /// What the recorder of a seat was told of the instrument. A seat of another run, or of a plan that does not have
    /// the instrument's facts, is a [`FinishFault::Stranger`].
    pub fn told_of(&self, plan: &Plan, seat: &RecorderSeat) -> Result<SeatTold, FinishFault>
        ensures { TellsOf plan.now self.now seat.now result }
    {
        if !seat.is_of(plan, self.run()) {
            return Err(FinishFault::Stranger);
        }
        let number = self.number();
        if number as usize >= plan.all_facts().len() {
            return Err(FinishFault::Stranger);
        }
        if !same_facts(self.cell().facts(), plan.facts(number)) {
            return Err(FinishFault::Stranger);
        }
        Ok(SeatTold {
            number: seat.number(),
            told: seat.told_at(number),
        })
    }
}

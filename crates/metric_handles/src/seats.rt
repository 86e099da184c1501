//! Seats by name.
ghost use Rattle.std.specs.Prelude.{◌≡◌, ◌<◌, IfSome, length, vec_len};
ghost use Rattle.metric_handles.specs.Seats.{is_reader_named, is_recorder_named, others_of, reader_place, recorder_place, taken_of};

use metric_plan::Plan;
use metric_provider::{Collector, Recorder};

/// Takes the seat of the recorder of this name out of a list, and leaves the others in their order: seats are handed
/// out as lists in the order of the files. Nothing where the plan has no such recorder or the list no seat of it; the
/// list is then as it was. Names of recorders are compared exactly, as where a catalogue is read.
pub fn take_recorder(plan: &Plan, seats: &mut Vec<Recorder>, name: &str) -> Option<Recorder>
    ensures taken { let place = recorder_place plan.now name.now seats.old.items in
        result ≡ taken_of seats.old.items place }
    ensures left { let place = recorder_place plan.now name.now seats.old.items in
        seats.new.items ≡ others_of seats.old.items place }
{
    let place = recorder_place(plan, name, seats.as_slice());
    take_at(seats, place)
}

/// The same of the seat of the reader of this name.
pub fn take_reader(plan: &Plan, seats: &mut Vec<Collector>, name: &str) -> Option<Collector>
    ensures taken { let place = reader_place plan.now name.now seats.old.items in
        result ≡ taken_of seats.old.items place }
    ensures left { let place = reader_place plan.now name.now seats.old.items in
        seats.new.items ≡ others_of seats.old.items place }
{
    let place = reader_place(plan, name, seats.as_slice());
    take_at(seats, place)
}

// Takes what stands at a place out of a list.
fn take_at<S>(seats: &mut Vec<S>, place: Option<usize>) -> Option<S>
    requires { IfSome place (λ place. place < vec_len seats.old) }
    ensures taken { result ≡ taken_of seats.old.items place }
    ensures left { seats.new.items ≡ others_of seats.old.items place }
{
    let place = place?;
    Some(seats.remove(place))
}

// The place of the first seat of the recorder of this name.
fn recorder_place(plan: &Plan, name: &str, seats: &[Recorder]) -> Option<usize>
    ensures place { result ≡ recorder_place plan.now name.now seats.now }
    ensures within { IfSome result (λ place. place < length seats.now) }
{
    seats
        .iter()
        .position(|seat| is_recorder_named(plan, name, seat.number()))
}

// The same of the reader.
fn reader_place(plan: &Plan, name: &str, seats: &[Collector]) -> Option<usize>
    ensures place { result ≡ reader_place plan.now name.now seats.now }
    ensures within { IfSome result (λ place. place < length seats.now) }
{
    seats
        .iter()
        .position(|seat| is_reader_named(plan, name, seat.number()))
}

// Whether the recorder of this number has the name.
fn is_recorder_named(plan: &Plan, name: &str, number: u32) -> bool
    ensures { result ≡ is_recorder_named plan.now name.now number }
{
    match plan.catalogue().recorders().get(number as usize) {
        Some(recorder) => recorder.name.as_str() == name,
        None => false,
    }
}

// Whether the reader of this number has the name.
fn is_reader_named(plan: &Plan, name: &str, number: u32) -> bool
    ensures { result ≡ is_reader_named plan.now name.now number }
{
    match plan.config().readers().get(number as usize) {
        Some(reader) => reader.name.as_str() == name,
        None => false,
    }
}

//! Whether the handles that a run is to fill are null.
ghost use Rattle.std.specs.Prelude.{◌≡◌};
ghost use Rattle.std.specs.List.{list_any};
ghost use Rattle.std.specs.Option.{is_some};
ghost use Rattle.wormweekly_c.specs.Opening.{held_by, held_in, holds_something};

use crate::handles::Handle;
use std::alloc::Global;

/// Whether some handle holds something. All hold the same afterwards.
pub(crate) fn holds_something(
    alloc: Global,
    instruments: &mut [Handle],
    recorders: &mut [Handle],
    readers: &mut [Handle],
) -> bool
    ensures answer { let old = held_by instruments.old recorders.old readers.old in
        result ≡ holds_something old }
    ensures instruments { held_in instruments.new ≡ held_in instruments.old }
    ensures recorders { held_in recorders.new ≡ held_in recorders.old }
    ensures readers { held_in readers.new ≡ held_in readers.old }
{
    let instrument = is_some_open(alloc, instruments);
    let recorder = is_some_open(alloc, recorders);
    let reader = is_some_open(alloc, readers);
    instrument || recorder || reader
}

fn is_some_open(alloc: Global, handles: &mut [Handle]) -> bool
    ensures found { result ≡ list_any is_some (held_in handles.old) }
    ensures kept { held_in handles.new ≡ held_in handles.old }
{
    let mut found = false;
    for handle in handles.iter_mut() {
        let is_open = handle.is_open(alloc);
        found = found || is_open;
    }
    found
}

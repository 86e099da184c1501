//! Things that become others, each in its place.
ghost use Rattle.std.specs.Prelude.{◌≡◌, ◌≤◌, vec_capacity, vec_len};
ghost use Rattle.std.specs.List.{AllZip};

/// What becomes another thing. As a trait, so that each of many cannot but be turned, and stands in its place: what it
/// becomes is known by the call alone.
pub(crate) trait Turns {
    /// What it becomes.
    type Other: Drop;

    // It became this one.
    ghost turns: { Self → Self.Other → Type 0 };

    /// Becomes the other. Allocates no memory.
    fn turn(self) -> Self::Other
        ensures { turns self result };
}

/// Turns each, and hands out what they became, in order, in this room, and theirs. Allocates no memory.
pub(crate) fn turn_each<T: Turns>(all: Vec<T>, room: Vec<T::Other>) -> (Vec<T::Other>, Vec<T>)
    requires { vec_len all ≤ vec_capacity room }
    ensures each { AllZip T.turns all.items result.0.items }
    ensures count { vec_len result.0 ≡ vec_len all }
    ensures left { vec_len result.1 ≡ 0 }
    ensures back { vec_capacity result.1 ≡ vec_capacity all }
{
    let (mut all, mut room) = (all, room);
    room.clear();
    while let Some(one) = all.pop() {
        room.push_reserved(one.turn());
    }
    room.as_mut_slice().reverse();
    (room, all)
}

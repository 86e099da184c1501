//! The walk of two cursors, one in the pattern and one in the text.
//!
//! At a `*` the walk begins with an empty piece. Where it comes to a stop, it goes back to the last
//! `*` and makes its piece longer by one. An earlier `*` need never be tried again.
ghost use Rattle.std.specs.Prelude.{◌≡◌, ◌<◌, length};
ghost use Rattle.metric_glob.specs.Walk.{IsWalk, Moves};

use crate::characters::{is_star, stands};

// The last `*` that the walk has met.
#[derive(Clone, Copy)]
pub(crate) struct Star {
    // the pattern's place after it
    pub(crate) after: usize,
    // where its piece of the text begins
    pub(crate) start: usize,
    // where its piece ends, as far as was tried
    pub(crate) end: usize,
}

// Where the two cursors stand.
#[derive(Clone, Copy)]
pub(crate) struct Walk {
    // the place in the pattern
    pub(crate) place: usize,
    // the place in the text
    pub(crate) at: usize,
    // the last `*`, if there was one
    pub(crate) star: Option<Star>,
}

// What a step did.
#[derive(Clone, Copy)]
pub(crate) enum Step {
    // met a `*`
    Opened,
    // took a character that the pattern's stands for
    Took,
    // made the last `*`'s piece longer by one
    Again,
}

impl Walk {
    // The walk before its first step.
    pub(crate) fn new() -> Walk
        ensures { result ≡ record { place = 0; at = 0; star = None } }
    {
        Walk {
            place: 0,
            at: 0,
            star: None,
        }
    }

    // One step, or None where there is none to make: the text does not match.
    pub(crate) fn step(&mut self, pattern: &[u8], text: &[u8]) -> Option<Step>
        requires walk { IsWalk pattern.now text.now self.old }
        requires within { self.old.at < length text.now }
        ensures moves { Moves pattern.now text.now self.old self.new result }
    {
        if is_star(pattern, self.place) {
            self.place += 1;
            self.star = Some(Star {
                after: self.place,
                start: self.at,
                end: self.at,
            });
            return Some(Step::Opened);
        }
        if stands(pattern, self.place, text[self.at]) {
            self.place += 1;
            self.at += 1;
            return Some(Step::Took);
        }
        let star = self.star?;
        self.place = star.after;
        self.at = star.end + 1;
        self.star = Some(Star {
            end: self.at,
            ..star
        });
        Some(Step::Again)
    }
}

//! Whether a pattern matches a text.
ghost use Rattle.std.specs.Prelude.{◌≡◌, ◌≤◌, length, drop, []};
ghost use Rattle.metric_glob.specs.Matching.{is_match};

use crate::characters::is_star;
use crate::walk::Walk;

// Whether the text matches. Allocates no memory.
pub(crate) fn matches_text(pattern: &[u8], text: &[u8]) -> bool
    ensures { result ≡ is_match pattern.now text.now }
{
    let mut walk = Walk::new();
    'walk: while walk.at < text.len() {
        let Some(_step) = walk.step(pattern, text) else {
            return false;
        };
    }
    only_stars(pattern, walk.place)
}

// Whether nothing but `*` stands from this place on, so that the empty text matches.
pub(crate) fn only_stars(pattern: &[u8], start: usize) -> bool
    requires { start ≤ length pattern.now }
    ensures { result ≡ is_match (drop start pattern.now) [] }
{
    let mut place = start;
    while is_star(pattern, place) {
        place += 1;
    }
    place == pattern.len()
}

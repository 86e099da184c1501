//! The characters of a pattern.
ghost use Rattle.std.specs.Prelude.{◌≡◌, ◌↔◌, IsTrue};
ghost use Rattle.metric_glob.specs.Matching.{stands_for, star_at, stands_at, IsStarAt, StandsAt};

// Stands for any number of characters, none included.
pub(crate) const ANY_TEXT: u8 = b'*';

// Stands for exactly one character, whichever it is.
pub(crate) const ANY_ONE: u8 = b'?';

// Whether a pattern character that takes one stands for this one.
pub(crate) fn stands_for(character: u8, found: u8) -> bool
    ensures { result ≡ stands_for character found }
{
    character == ANY_ONE || character.eq_ignore_ascii_case(&found)
}

// Whether the pattern has a `*` at this place.
pub(crate) fn is_star(pattern: &[u8], place: usize) -> bool
    ensures star { IsTrue result ↔ IsStarAt pattern.now place }
    ensures value { result ≡ star_at pattern.now place }
{
    place < pattern.len() && pattern[place] == ANY_TEXT
}

// Whether the pattern has at this place a character that takes one, and that stands for this one.
pub(crate) fn stands(pattern: &[u8], place: usize, found: u8) -> bool
    ensures stands { IsTrue result ↔ StandsAt pattern.now place found }
    ensures value { result ≡ stands_at pattern.now place found }
{
    place < pattern.len() && pattern[place] != ANY_TEXT && stands_for(pattern[place], found)
}

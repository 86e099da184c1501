//! Whether a key stands twice among attributes.
ghost use Rattle.std.specs.Prelude.{◌≡◌, ◌≤◌, length, map, not, vec_capacity};
ghost use Rattle.std.specs.List.{list_any};
ghost use Rattle.metric_contents.specs.Attributes.{given_by_owned};
ghost use Rattle.metric_contents.specs.Encoding.{has_repeated_key, is_of};

use crate::attributes::{Attribute, OwnedAttr};

// Whether some key stands twice. Each key is compared with all after it.
pub(crate) fn has_repeated_key<A: Attribute>(attrs: &[A]) -> bool
    ensures { result ≡ has_repeated_key (map A.given attrs.now) }
{
    let mut left = attrs;
    while let [first, rest @ ..] = left {
        if is_given(rest, first.key()) {
            return true;
        }
        left = rest;
    }
    false
}

// Whether an attribute is of the key of this name.
#[tactic(auto, using(crate::proofs::Mapped::maps))]
pub(crate) fn is_given<A: Attribute>(attrs: &[A], name: &str) -> bool
    ensures { result ≡ list_any (is_of name.now) (map A.given attrs.now) }
{
    is_key_of_some(attrs, name)
}

fn is_key_of_some<A: Attribute>(attrs: &[A], name: &str) -> bool
    ensures { result ≡ list_any (λ a. is_of name.now (A.given a)) attrs.now }
{
    attrs.iter().any(|attr| attr.key() == name)
}

// Whether some key stands twice, found by sorting the keys in a room that holds them all.
pub(crate) fn has_repeated_key_with_room<'a>(
    attrs: &'a [OwnedAttr],
    room: &mut Vec<&'a str>,
) -> bool
    requires { length attrs.now ≤ vec_capacity room.old }
    ensures exact { result ≡ has_repeated_key (map given_by_owned attrs.now) }
    ensures room { vec_capacity room.new ≡ vec_capacity room.old }
{
    put_keys(attrs, room);
    room.sort_unstable();
    !room.is_sorted_by(|key, next| key < next)
}

// Puts the keys of the attributes into the room in place of what is there.
fn put_keys<'a>(attrs: &'a [OwnedAttr], room: &mut Vec<&'a str>)
    requires { length attrs.now ≤ vec_capacity room.old }
    ensures keys { map (λ k. k.now) room.new.items ≡ map (λ a. a.key) attrs.now }
    ensures room { vec_capacity room.new ≡ vec_capacity room.old }
{
    room.clear();
    for attr in attrs {
        room.push_reserved(attr.key.as_str());
    }
}

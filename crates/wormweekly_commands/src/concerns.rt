//! Which remarks count.
ghost use Rattle.std.specs.Prelude.{◌≡◌, ◌++◌, false, IfOk, OnOk, slice_index_or};
ghost use Rattle.std.specs.List.{flat_map, list_any};
ghost use Rattle.metric_lint.specs.Kinds.{kind_of};
ghost use Rattle.wormweekly_commands.specs.Concerns.{denies, denies_broken, denies_change, denies_some, names, still_open, unless_accepted, unless_named};

use crate::notes::Notes;
use metric_base::{Items, Text};
use metric_diff::Change;
use metric_lint::Remark;
use std::alloc::{AllocError, Global};

/// What has a kind, by whose name it is left out or denied.
pub(crate) trait Kinded {
    ghost use Rattle.std.specs.Prelude.{ℕ, List};

    ghost kind: { Self → List ℕ };

    /// The name of its kind.
    fn kind_name(&self) -> &'static str
        ensures { result.now ≡ kind self.now };
}

impl Kinded for Remark {
    ghost kind = { kind_of };

    fn kind_name(&self) -> &'static str {
        self.kind()
    }
}

impl Kinded for Change {
    ghost use Rattle.metric_diff.specs.Kinds.{kind_of as kind_of_change};

    ghost kind = { kind_of_change };

    fn kind_name(&self) -> &'static str {
        self.kind()
    }
}

/// The remarks or changes whose kinds are not among these words.
pub(crate) fn kept<K: Kinded + Copy + Drop>(
    alloc: Global,
    all: &[K],
    allowed: &[Text],
) -> Result<Items<K>, AllocError>
    ensures { IfOk result (λ kept. kept
        ≡ flat_map (unless_named K.kind allowed.now) all.now) }
{
    let mut kept = Items::new(alloc);
    add_kept(&mut kept, all, allowed)?;
    Ok(kept)
}

#[tactic(auto, using(metric_text::specs::ListLaws::steps))]
fn add_kept<K: Kinded + Copy + Drop>(
    kept: &mut Items<K>,
    all: &[K],
    allowed: &[Text],
) -> Result<(), AllocError>
    ensures { OnOk result (kept.new ≡ kept.old
        ++ flat_map (unless_named K.kind allowed.now) all.now) }
{
    for one in all {
        add_unless_named(kept, *one, allowed)?;
    }
    Ok(())
}

fn add_unless_named<K: Kinded + Copy + Drop>(
    kept: &mut Items<K>,
    one: K,
    allowed: &[Text],
) -> Result<(), AllocError>
    ensures { OnOk result (kept.new ≡ kept.old ++ unless_named K.kind allowed.now one) }
{
    if !names(allowed, one.kind_name()) {
        kept.push(one)?;
    }
    Ok(())
}

/// Whether a kind is among words.
pub(crate) fn names(words: &[Text], kind: &str) -> bool
    ensures { result ≡ names words.now kind.now }
{
    words.iter().any(|word| word.as_str() == kind)
}

/// Whether a kind is denied by words, by its own name or with all.
pub(crate) fn denies(words: &[Text], kind: &str) -> bool
    ensures { result ≡ denies words.now kind.now }
{
    names(words, "remarks") || names(words, kind)
}

/// Whether words deny some remark.
pub(crate) fn denies_some(words: &[Text], notes: &Notes) -> bool
    ensures { result ≡ denies_some words.now notes.now }
{
    denies_remark(words, notes.remarks.as_slice())
        || (!notes.exposures.is_empty() && denies(words, "exposure"))
}

fn denies_remark(words: &[Text], remarks: &[Remark]) -> bool
    ensures { result ≡ list_any (λ remark. denies words.now (kind_of remark)) remarks.now }
{
    remarks.iter().any(|remark| denies(words, remark.kind()))
}

/// The changes that a file does not accept, which is said of each by its place.
pub(crate) fn still_open(
    alloc: Global,
    changes: &[Change],
    accepted: &[bool],
) -> Result<Items<Change>, AllocError>
    ensures { IfOk result (λ left. left ≡ still_open accepted.now changes.now) }
{
    let mut left = Items::new(alloc);
    add_open(&mut left, changes, accepted)?;
    Ok(left)
}

fn add_open(
    left: &mut Items<Change>,
    changes: &[Change],
    accepted: &[bool],
) -> Result<(), AllocError>
    ensures { OnOk result (left.new ≡ left.old ++ still_open accepted.now changes.now) }
{
    for place in 0..changes.len() {
        let change = &changes[place];
        add_unless_accepted(left, place, change, accepted)?;
    }
    Ok(())
}

fn add_unless_accepted(
    left: &mut Items<Change>,
    place: usize,
    change: &Change,
    accepted: &[bool],
) -> Result<(), AllocError>
    ensures { OnOk result (
        left.new ≡ left.old ++ unless_accepted accepted.now (place, change.now)) }
{
    if !is_accepted(accepted, place) {
        left.push(*change)?;
    }
    Ok(())
}

fn is_accepted(accepted: &[bool], place: usize) -> bool
    ensures { result ≡ slice_index_or accepted.now place false }
{
    match accepted.get(place) {
        Some(is_accepted) => *is_accepted,
        None => false,
    }
}

/// Whether words deny a change, by the name of its kind or as one that breaks.
pub(crate) fn denies_change(words: &[Text], change: &Change) -> bool
    ensures { result ≡ denies_change words.now change.now }
{
    (names(words, "breaking") && change.is_breaking()) || names(words, change.kind())
}

/// Whether words deny queries that a change breaks.
pub(crate) fn denies_broken(words: &[Text]) -> bool
    ensures { result ≡ denies_broken words.now }
{
    names(words, "breaking") || names(words, "broken-query")
}

//! What keeps the attributes of a resource out of a page.
ghost use Rattle.std.specs.Prelude.{◌≡◌, ◌+◌, ◌<◌, ◌^◌, IfOk, length};
ghost use Rattle.std.specs.List.{position_from};
ghost use Rattle.std.specs.Str.{bytes_eq};
ghost use Rattle.metric_base.specs.Steps.{Gives};
ghost use Rattle.metric_exposition.specs.TargetFaults.{label_fault, labels_of, target_check, target_fault};

use metric_base::Text;
use metric_contents::OwnedAttr;
use metric_family::{is_bad_label, label_of};
use metric_resource::Resource;
use std::alloc::{AllocError, Global};
use thiserror::Error;

/// Why the attributes of a resource can't be the labels of one line, in the order in which the faults of an attribute
/// are tried. An attribute is told by its place, counted from 0.
#[derive(Clone, Copy, Debug, PartialEq, Eq, Drop, Error)]
pub enum TargetFault {
    /// The key has no letter and no digit, so that its label says nothing.
    #[error("1 BadLabel of attribute {attribute}")]
    BadLabel {
        /// The attribute.
        attribute: usize,
    },
    /// A later key has the same label, as `a.b` and `a_b` have: a server refuses the page.
    #[error("2 LabelCollision of attribute {attribute} and attribute {other}")]
    LabelCollision {
        /// The attribute.
        attribute: usize,
        /// The first later one of the same label.
        other: usize,
    },
    /// Out of memory.
    #[error("3 Memory")]
    Memory,
}

impl From<AllocError> for TargetFault {
    ghost use Rattle.metric_exposition.specs.declared.target.TargetFault.TheVariants.{Memory};

    ghost from_gives = { λ _ fault. fault ≡ Memory };

    fn from(_refused: AllocError) -> TargetFault {
        TargetFault::Memory
    }
}

/// Tells whether the attributes of a resource can be the labels of one line, or their first fault, or `Memory`.
pub fn check_target(alloc: Global, resource: &Resource) -> Result<(), TargetFault>
    ensures { Gives TargetFault.Memory result (target_check resource.now) }
{
    let labels = labels_of(alloc, resource.as_slice())?;
    match target_fault(0, labels.as_slice()) {
        None => Ok(()),
        Some(fault) => Err(fault),
    }
}

// The label of each attribute.
fn labels_of(alloc: Global, attributes: &[OwnedAttr]) -> Result<Vec<Text>, AllocError>
    ensures { IfOk result (λ labels. labels.items ≡ labels_of attributes.now) }
{
    let mut labels = Vec::new(alloc);
    for attribute in attributes {
        labels.push(label_of(alloc, attribute.key.as_str())?)?;
    }
    Ok(labels)
}

// The first fault of the labels from a place on. It calls itself at most as often as a resource has attributes.
fn target_fault(place: usize, labels: &[Text]) -> Option<TargetFault>
    requires { place + length labels.now < 2 ^ 63 }
    ensures { result ≡ target_fault place labels.now }
{
    let (label, later) = labels.split_first()?;
    match label_fault(place, label.as_str(), later) {
        Some(fault) => Some(fault),
        None => target_fault(place + 1, later),
    }
}

// The fault of the label of a place, behind which these stand.
fn label_fault(place: usize, label: &str, later: &[Text]) -> Option<TargetFault>
    requires { place + 1 + length later.now < 2 ^ 63 }
    ensures { result ≡ label_fault place label.now later.now }
{
    if is_bad_label(label) {
        return Some(TargetFault::BadLabel { attribute: place });
    }
    let other = place_of(label, place + 1, later)?;
    Some(TargetFault::LabelCollision {
        attribute: place,
        other,
    })
}

// The place of the first that is this label, where the first of all is at a place.
fn place_of(label: &str, place: usize, labels: &[Text]) -> Option<usize>
    requires { place + length labels.now < 2 ^ 63 }
    ensures { result ≡ position_from (bytes_eq label.now) place labels.now }
{
    let (first, later) = labels.split_first()?;
    if label == first.as_str() {
        Some(place)
    } else {
        place_of(label, place + 1, later)
    }
}

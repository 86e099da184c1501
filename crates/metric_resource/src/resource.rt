//! The attributes of what produces the metrics.
ghost use Rattle.std.specs.Prelude.{◌≡◌, ◌++◌, ◌==◌, OnOk, IfOk, length, map};
ghost use Rattle.std.specs.List.{list_any};
ghost use Rattle.metric_base.specs.Steps.{Gives};
ghost use Rattle.metric_names.specs.Values.{value_of};
ghost use Rattle.metric_resource.specs.Resources.{has_empty_key, has_repeated_key, is_of, owned_by, resource_of};

use crate::fault::ResourceFault;
use metric_base::{Items, Text};
use metric_contents::{Attr, OwnedAttr};
use metric_names::{AttrValue, ValueRef};
use std::alloc::{AllocError, Global};
use std::marker::Model;

// The most attributes that a resource has.
const MOST: usize = 64;

/// The attributes of a resource, which is what produces the metrics (Resource SDK): at most 64, none with an empty
/// key, and none twice. A clause sees the list of the attributes.
#[derive(Drop)]
pub struct Resource {
    attributes: Items<OwnedAttr>,
}

impl Model for Resource {
    ghost use Rattle.std.specs.Prelude.{List};
    ghost use Rattle.metric_contents.specs.declared.attributes.OwnedAttr.{OwnedAttr};

    ghost Value = { List OwnedAttr };

    ghost view = { λ r. r.attributes };
}

impl Resource {
    /// The resource of copies of these attributes, or the first fault that they have.
    #[tactic(auto, unfolding(crate::specs::Resources::resource_of))]
    pub fn new(alloc: Global, attributes: &[Attr<'_>]) -> Result<Resource, ResourceFault>
        ensures { Gives ResourceFault.Memory result (resource_of (map owned_by attributes.now)) }
    {
        // Copies are made one below the other, so no list is copied that is refused.
        if attributes.len() > MOST {
            return Err(ResourceFault::TooMany);
        }
        let mut owned = Vec::new(alloc);
        push_owned(alloc, &mut owned, attributes)?;
        Resource::from_items(Items::from_vec(owned))
    }

    /// The resource of these attributes, or the first fault that they have. Allocates no memory.
    #[tactic(auto, unfolding(crate::specs::Resources::resource_of))]
    pub fn from_items(attributes: Items<OwnedAttr>) -> Result<Resource, ResourceFault>
        ensures { result ≡ resource_of attributes }
    {
        if attributes.len() > MOST {
            return Err(ResourceFault::TooMany);
        }
        if has_empty_key(attributes.as_slice()) {
            return Err(ResourceFault::EmptyKey);
        }
        if has_repeated_key(attributes.as_slice()) {
            return Err(ResourceFault::RepeatedKey);
        }
        Ok(Resource { attributes })
    }

    /// The attributes in order.
    pub fn as_slice(&self) -> &[OwnedAttr]
        ensures { result.now ≡ self.now }
    {
        self.attributes.as_slice()
    }
}

fn has_empty_key(attributes: &[OwnedAttr]) -> bool
    ensures { result ≡ has_empty_key attributes.now }
{
    attributes
        .iter()
        .any(|attribute| attribute.key.as_str().is_empty())
}

fn has_repeated_key(attributes: &[OwnedAttr]) -> bool
    ensures { result ≡ has_repeated_key attributes.now }
{
    match attributes.split_first() {
        None => false,
        Some((first, others)) => has_key(others, first.key.as_str()) || has_repeated_key(others),
    }
}

fn has_key(attributes: &[OwnedAttr], key: &str) -> bool
    ensures { result ≡ list_any (is_of key.now) attributes.now }
{
    attributes
        .iter()
        .any(|attribute| attribute.key.as_str() == key)
}

// Puts copies of attributes last.
fn push_owned(
    alloc: Global,
    owned: &mut Vec<OwnedAttr>,
    attributes: &[Attr<'_>],
) -> Result<(), AllocError>
    ensures { OnOk result (owned.new.items ≡ owned.old.items ++ map owned_by attributes.now) }
{
    let Some((attribute, attributes)) = attributes.split_first() else {
        return Ok(());
    };
    let key = Text::new(alloc, attribute.key)?;
    let value = owned_value(alloc, attribute.value)?;
    owned.push(OwnedAttr { key, value })?;
    push_owned(alloc, owned, attributes)
}

fn owned_value(alloc: Global, value: ValueRef<'_>) -> Result<AttrValue, AllocError>
    ensures { IfOk result (λ own. own ≡ value_of value.entry) }
{
    match value {
        ValueRef::Text(text) => Ok(AttrValue::Text(Text::new(alloc, text)?)),
        ValueRef::Whole(number) => Ok(AttrValue::Whole(number)),
        ValueRef::Flag(flag) => Ok(AttrValue::Flag(flag)),
    }
}

//! The resource whose attributes a host gives.
ghost use Rattle.std.specs.Prelude.{◌≡◌, Some, Ok, IfErr, IfOk};
ghost use Rattle.wormweekly_c.specs.Resources.{IsWhyNone, code_of_none, number_of_fault, resource_from};

use crate::attributes::{Attribute, Unread, all_attributes};
use crate::codes::{DUPLICATE_KEY, EMPTY_KEY, MEMORY, NO_TEXT, TOO_MANY};
use metric_resource::{Resource, ResourceFault};
use std::alloc::Global;

/// Why attributes are no resource.
#[derive(Clone, Copy, Drop)]
pub(crate) enum NoResource {
    /// A length leads past the texts, a text is no UTF-8, or a kind is above 3.
    NoText,
    /// They have this fault.
    Refused(ResourceFault),
}

/// The resource of attributes as a host gives them.
pub(crate) fn resource_from(
    alloc: Global,
    texts: &[u8],
    given: &[Attribute],
) -> Result<Resource, NoResource>
    ensures resource { IfOk result (λ resource.
        resource_from given.now texts.now ≡ Some (Ok resource)) }
    ensures none { IfErr result (IsWhyNone (resource_from given.now texts.now)) }
{
    match all_attributes(alloc, texts, given) {
        Err(Unread::NoText) => Err(NoResource::NoText),
        Err(Unread::Memory) => Err(NoResource::Refused(ResourceFault::Memory)),
        Ok(attrs) => match Resource::new(alloc, attrs.as_slice()) {
            Ok(resource) => Ok(resource),
            Err(fault) => Err(NoResource::Refused(fault)),
        },
    }
}

/// The number that tells why there is none.
pub(crate) fn code_of(why: &NoResource) -> u32
    ensures { result ≡ code_of_none why.now }
{
    match why {
        NoResource::NoText => NO_TEXT,
        NoResource::Refused(fault) => number_of(*fault),
    }
}

fn number_of(fault: ResourceFault) -> u32
    ensures { result ≡ number_of_fault fault }
{
    match fault {
        ResourceFault::TooMany => TOO_MANY,
        ResourceFault::EmptyKey => EMPTY_KEY,
        ResourceFault::RepeatedKey => DUPLICATE_KEY,
        ResourceFault::Memory => MEMORY,
    }
}

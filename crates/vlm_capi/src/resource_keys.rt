//! Reads how C names a resource and a queue.

ghost use Rattle.std.specs.Prelude.{◌≡◌};
ghost use Rattle.vlm_capi.specs.Keys.{key_of, queue_of};

use crate::shown::{RESOURCE_SIZE, VlmResource};
use vlm_words::names::{Name, NameArg};
use vlm_words::resources::{Domain, Queue};

#[tactic(auto, unfolding(crate::specs::Keys::queue_of))]
pub(crate) fn queue_of(number: u32) -> Option<Queue>
    ensures { result ≡ queue_of number }
{
    match number {
        0 => Some(Queue::Granted),
        1 => Some(Queue::Conversion),
        2 => Some(Queue::Waiting),
        _ => None,
    }
}

/// What a resource is found by: its parent resource or 0, the domain of its root, and its name.
#[derive(Clone, Copy)]
pub(crate) struct ResourceKey {
    pub(crate) parent: u32,
    pub(crate) domain: Domain,
    pub(crate) name: Name,
}

#[tactic(auto, unfolding(crate::specs::Keys::key_of))]
pub(crate) fn key_of(fields: &VlmResource) -> Option<ResourceKey>
    ensures { result ≡ key_of fields.now }
{
    if fields.size != RESOURCE_SIZE
        || fields.is_system > 1
        || fields.group > 65_535
        || fields.name_len > 32
    {
        return None;
    }
    let name = NameArg::of(&fields.name[..fields.name_len as usize])
        .name()
        .ok()?;
    let domain = if fields.is_system == 1 {
        Domain::System
    } else {
        Domain::Group(fields.group as u16)
    };
    Some(ResourceKey {
        parent: fields.parent,
        domain,
        name,
    })
}

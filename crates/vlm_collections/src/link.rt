//! Links to the records of a slab.

ghost use Rattle.std.specs.Prelude.{◌≡◌, ◌≤◌, Some, None};

use std::marker::Model;

/// A handle, or no handle, in four bytes.
#[derive(Clone, Copy)]
pub(crate) struct Link {
    // the handle, or `NONE` if there is no handle
    raw: u32,
}

const NONE: u32 = u32::MAX;

/// The greatest handle that a link can store.
pub const LAST_HANDLE: usize = 4_294_967_294;

impl Model for Link {
    ghost use Rattle.std.specs.Prelude.{ℕ, Option};
    ghost use Rattle.std.proofs.Common.{ap};
    ghost use Rattle.vlm_collections.specs.Links.{handle_in, raw_handle, raw_handle-handle_in};

    ghost Value = { Option ℕ };

    ghost view = { λ l. handle_in l.raw };

    ghost inverse = { λ handle. record { raw = raw_handle handle } };

    ghost inverse_ok = { λ a _. ap (λ raw. record { raw = raw }) (raw_handle-handle_in a.raw) };
}

impl Link {
    pub(crate) fn none() -> Self
        ensures { result ≡ None }
    {
        Link { raw: NONE }
    }

    pub(crate) fn to(handle: usize) -> Self
        requires { handle ≤ LAST_HANDLE }
        ensures { result ≡ Some handle }
    {
        Link { raw: handle as u32 }
    }

    pub(crate) fn handle(self) -> Option<usize>
        ensures { result ≡ self }
    {
        if self.raw == NONE {
            None
        } else {
            Some(self.raw as usize)
        }
    }
}

/// The neighbours of a record in a list. In a record that is in no list they mean nothing.
#[derive(Clone, Copy)]
pub struct Links {
    pub(crate) prev: Link,
    pub(crate) next: Link,
}

impl Links {
    pub fn none() -> Self
        ensures prev { result.prev ≡ None }
        ensures next { result.next ≡ None }
    {
        Links {
            prev: Link::none(),
            next: Link::none(),
        }
    }
}

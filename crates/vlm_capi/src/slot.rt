//! The pointer to a core, a hub or a port in memory that C holds.

ghost use Rattle.std.specs.Prelude.{◌≡◌, Option, Some, None, true};
ghost use Rattle.std.specs.Option.{is_some};
ghost use Rattle.vlm_capi.specs.declared.held.Held.{Held};
ghost use Rattle.vlm_capi.specs.Slots.{slot_owns};

use crate::held::Held;
use crate::loose::Loose;
use std::alloc::Global;
use std::marker::Model;

/// Owns what is at its pointer, or nothing if the pointer is null. Dropping a `Slot` leaks what it owns.
#[repr(C)]
#[derive(Drop)]
pub struct Slot {
    at: *mut u8,
    /// What is at the pointer, for proofs alone.
    pub ghost held: { Option Held },
}

impl Model for Slot {
    ghost also_owns = { λ s. slot_owns s.at s.held };
}

impl Slot {
    pub(crate) fn into_loose(self, alloc: Global) -> Loose<Held, Global>
        requires { is_some self.held ≡ true }
        ensures { Some result.value ≡ self.held }
    {
        let Slot { at } = self;
        Loose {
            at: at as *mut Held,
            alloc,
        }
    }

    pub(crate) fn of(loose: Loose<Held, Global>) -> Slot
        ensures { result.held ≡ Some loose.value }
    {
        let Loose { at, alloc: _ } = loose;
        Slot { at: at as *mut u8 }
    }

    pub(crate) fn empty() -> Slot
        ensures { result.held ≡ None }
    {
        Slot {
            at: std::ptr::null_mut(),
        }
    }
}

// Proved in proofs/slot/Slot/TheSendSync.
unsafe impl Send for Slot {}

//! The handle of a core, a hub or a port, in memory that C holds. It lends what it holds to one call at a time.

ghost use Rattle.std.specs.Prelude.{◌≡◌, None, Some};
ghost use Rattle.std.specs.Option.{is_some, option_map};
ghost use Rattle.std.specs.Fn.{FnOnceReturnsAtMut};
ghost use Rattle.vlm_capi.specs.Lending.{LendsCore, LendsHub, LendsPort};

use crate::held::{Held, OwnedHub};
use crate::loose::Loose;
use crate::slot::Slot;
use std::alloc::Global;
use std::mem::replace;
use vlm_core::Core;
use vlm_ports::Port;

/// All bytes 0 are a handle with nothing.
#[repr(C)]
pub struct Handle {
    slot: Slot,
    is_held: bool,
    alloc: Global,
    ghost agrees: { is_held ≡ is_some slot.held },
}

impl Drop for Handle {
    fn drop(self) {
        let Handle {
            slot,
            is_held,
            alloc,
        } = self;
        if is_held {
            free(slot.into_loose(alloc).into_box());
        }
    }
}

impl Handle {
    pub(crate) fn closed(alloc: Global) -> Handle
        ensures { result.slot.held ≡ None }
    {
        Handle {
            slot: Slot::empty(),
            is_held: false,
            alloc,
        }
    }

    pub(crate) fn holding(held: Box<Held>, alloc: Global) -> Handle
        ensures { result.slot.held ≡ Some held.value }
    {
        sendable(Handle {
            slot: Slot::of(Loose::of(held)),
            is_held: true,
            alloc,
        })
    }

    // Takes out what it holds. It holds nothing until `put` puts that back.
    #[inline(always)]
    fn take(&mut self) -> Option<Box<Held>>
        ensures held { option_map (λ b. b.value) result ≡ self.old.slot.held }
        ensures left { self.new.slot.held ≡ None }
    {
        let slot = replace(&mut self.slot, Slot::empty());
        if replace(&mut self.is_held, false) {
            Some(slot.into_loose(self.alloc).into_box())
        } else {
            None
        }
    }

    // Only a handle that holds nothing may get something: a slot frees nothing.
    #[inline(always)]
    fn put(&mut self, held: Box<Held>)
        requires { self.old.slot.held ≡ None }
        ensures { self.new.slot.held ≡ Some held.value }
    {
        self.slot = Slot::of(Loose::of(held));
        self.is_held = true;
    }

    pub(crate) fn is_open(&mut self) -> bool
        ensures told { result ≡ is_some self.old.slot.held }
        ensures same { self.new.slot.held ≡ self.old.slot.held }
    {
        self.is_held
    }

    // Lends the core to a call. A handle without a core stays as it is, and the call does not run.
    #[inline(always)]
    pub(crate) fn with_core<R, F: FnOnce(&mut Core) -> R + Drop>(&mut self, call: F) -> Option<R>
        requires { F.IsAlwaysCallable call }
        ensures { LendsCore (FnOnceReturnsAtMut F.FnOnce call) self.old.slot.held result self.new.slot.held }
    {
        let mut held = self.take()?;
        let result = lend_core(&mut *held, call);
        self.put(held);
        result
    }

    pub(crate) fn with_hub<R, F: FnOnce(&mut OwnedHub) -> R + Drop>(&mut self, call: F) -> Option<R>
        requires { F.IsAlwaysCallable call }
        ensures { LendsHub (FnOnceReturnsAtMut F.FnOnce call) self.old.slot.held result self.new.slot.held }
    {
        let mut held = self.take()?;
        let result = lend_hub(&mut *held, call);
        self.put(held);
        result
    }

    #[inline(always)]
    pub(crate) fn with_port<R, F: FnOnce(&mut Port) -> R + Drop>(&mut self, call: F) -> Option<R>
        requires { F.IsAlwaysCallable call }
        ensures { LendsPort (FnOnceReturnsAtMut F.FnOnce call) self.old.slot.held result self.new.slot.held }
    {
        let mut held = self.take()?;
        let result = lend_port(&mut *held, call);
        self.put(held);
        result
    }
}

#[inline(always)]
fn lend_core<R, F: FnOnce(&mut Core) -> R + Drop>(held: &mut Held, call: F) -> Option<R>
    requires { F.IsAlwaysCallable call }
    ensures { LendsCore (FnOnceReturnsAtMut F.FnOnce call) (Some held.old) result (Some held.new) }
{
    match held {
        Held::Core(core) => Some(call(core)),
        Held::Hub(_) | Held::Port(_) => None,
    }
}

fn lend_hub<R, F: FnOnce(&mut OwnedHub) -> R + Drop>(held: &mut Held, call: F) -> Option<R>
    requires { F.IsAlwaysCallable call }
    ensures { LendsHub (FnOnceReturnsAtMut F.FnOnce call) (Some held.old) result (Some held.new) }
{
    match held {
        Held::Hub(owned) => Some(call(&mut **owned)),
        Held::Core(_) | Held::Port(_) => None,
    }
}

#[inline(always)]
fn lend_port<R, F: FnOnce(&mut Port) -> R + Drop>(held: &mut Held, call: F) -> Option<R>
    requires { F.IsAlwaysCallable call }
    ensures { LendsPort (FnOnceReturnsAtMut F.FnOnce call) (Some held.old) result (Some held.new) }
{
    match held {
        Held::Port(port) => Some(call(port)),
        Held::Core(_) | Held::Hub(_) => None,
    }
}

// Kept out of line: if it were inlined, the stack frame of each call would have room for a `Held`.
#[inline(never)]
fn free(_held: Box<Held>) {}

// Takes only what is `Send`, since C may use a handle in any thread.
fn sendable<T: Send>(value: T) -> T
    ensures { result ≡ value }
{
    value
}

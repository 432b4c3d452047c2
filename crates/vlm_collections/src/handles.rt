//! Handles of records. Each kind of record has a type of handle of its own.

ghost use Rattle.std.specs.Prelude.{◌≡◌, ◌≤◌, None};
ghost use Rattle.std.specs.Option.{ForSome};

use crate::link::{LAST_HANDLE, Link};
use std::marker::{Model, PhantomData};

/// A record's place in its slab, in four bytes. Valid until the record is removed; another record may then get it.
#[derive_where(Clone, Copy, Debug, PartialEq, Eq)]
pub struct At<Kind> {
    at: u32,
    // names the kind, and takes no memory
    kind: PhantomData<Kind>,
}

impl<Kind> Model for At<Kind> {
    ghost use Rattle.std.specs.Prelude.{ℕ};

    ghost Value = { ℕ };

    ghost view = { λ k. k.at };

    ghost inverse = { λ at. record { at = at; kind = record {} } };
}

impl<Kind> At<Kind> {
    pub fn of(slot: usize) -> Self
        requires { slot ≤ LAST_HANDLE }
        ensures { result ≡ slot }
    {
        At {
            at: slot as u32,
            kind: PhantomData,
        }
    }

    pub fn slot(self) -> usize
        ensures { result ≡ self }
    {
        self.at as usize
    }

    // The place as it is stored.
    pub(crate) fn raw(self) -> u32
        ensures { result ≡ self }
    {
        self.at
    }

    pub(crate) fn from_raw(at: u32) -> Self
        ensures { result ≡ at }
    {
        At {
            at,
            kind: PhantomData,
        }
    }

    /// The same place as a handle of another kind, for a list that notes records of several kinds.
    pub fn in_kind<Other>(self) -> At<Other>
        ensures { result ≡ self }
    {
        At {
            at: self.at,
            kind: PhantomData,
        }
    }
}

/// The handle of a record, or no handle, in four bytes.
#[derive_where(Clone, Copy)]
pub struct MaybeAt<Kind> {
    link: Link,
    kind: PhantomData<Kind>,
}

impl<Kind> Model for MaybeAt<Kind> {
    ghost use Rattle.std.specs.Prelude.{ℕ, Option};

    ghost Value = { Option ℕ };

    ghost view = { λ k. k.link };

    ghost inverse = { λ link. record { link = link; kind = record {} } };
}

impl<Kind> MaybeAt<Kind> {
    pub fn of(at: Option<At<Kind>>) -> Self
        requires { ForSome at (λ slot. slot ≤ LAST_HANDLE) }
        ensures { result ≡ at }
    {
        let link = match at {
            Some(at) => Link::to(at.slot()),
            None => Link::none(),
        };
        MaybeAt {
            link,
            kind: PhantomData,
        }
    }

    pub fn get(self) -> Option<At<Kind>>
        ensures { result ≡ self }
    {
        let slot = self.link.handle()?;
        Some(At {
            at: slot as u32,
            kind: PhantomData,
        })
    }
}

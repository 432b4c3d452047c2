//! A board publishes how the resources under some keys are used.

ghost use Rattle.std.specs.Prelude.{◌≡◌, ◌<◌, ◌≤◌, ◌++◌, ◌∷◌, [], All, IfOk, OnErr, OnOk, vec_len};

use crate::watch::faults::BoardFault;
use crate::watch::publisher::Publisher;
use crate::watch::rows::{Change, RootKey};
use crate::watch::told::Told;
use crate::watch::watcher::Watcher;
use std::alloc::{AllocError, Global};
use std::sync::Wait;
use vlm_journal::journaled_core::JournaledCore;

/// Publishes how the resources under some keys are used. It can't be dropped: end it by [`Board::close`].
pub struct Board {
    pub(crate) publisher: Publisher,
    pub(crate) keys: Vec<RootKey>,
    ghost few: { vec_len keys ≤ 16 },
}

impl Board {
    ghost use Rattle.vlm_ports.specs.Watching.{HasPublished, IsNew, keys_of, name_of, published, told_board, told_changes};

    /// A board of 1 to 16 keys with nothing published, and 1 to 8 watchers of it. Refusals, in this order: `Memory` for
    /// the board; then for each watcher in turn `Memory`, and `Seat` if there is no place for it. If it is refused,
    /// there is neither board nor watcher, and the memory is given back. It may wait only then.
    pub fn open<R: Wait>(
        rt: &R,
        alloc: Global,
        keys: Vec<RootKey>,
        watchers: usize,
    ) -> Result<(Board, Vec<Watcher>), BoardFault>
        requires keys { (0 < vec_len keys) × (vec_len keys ≤ 16) }
        requires watchers { (0 < watchers) × (watchers ≤ 8) }
        ensures board { IfOk result (λ r. (keys_of r.0 ≡ keys.items) × (published r.0 ≡ [])) }
        ensures count { IfOk result (λ r. vec_len r.1 ≡ watchers) }
        ensures each { IfOk result (λ r. All (IsNew (name_of r.0) (vec_len keys)) r.1.items) }
    {
        let mut publisher = match Publisher::open(rt, alloc, watchers) {
            Ok(publisher) => publisher,
            Err(AllocError) => return Err(BoardFault::Memory),
        };
        match publisher.watchers(alloc, keys.len(), watchers) {
            Ok(all) => Ok((Board { publisher, keys }, all)),
            Err(fault) => {
                publisher.close(rt);
                Err(fault)
            }
        }
    }

    /// Publishes the rows of the keys in the present state of the journaled core, and answers a told value of all that
    /// is published. If the writer's log can't grow or there were 2 ^ 64 - 1 changes, it is refused, and nothing is
    /// published. It may wait for readers of the change before the last. Its cost grows only with the number of keys.
    pub fn publish<R: Wait>(
        &mut self,
        rt: &R,
        journaled: &JournaledCore,
    ) -> Result<Told, AllocError>
        ensures same { (name_of self.new ≡ name_of self.old) × (keys_of self.new ≡ keys_of self.old) }
        ensures published { OnOk result (HasPublished journaled.now self.old self.new) }
        ensures told { IfOk result (λ told. (told_board told ≡ name_of self.old)
            × (told_changes told ≡ published self.new)) }
        ensures refused { OnErr result (published self.new ≡ published self.old) }
    {
        let change = Change::of(journaled, self.keys.as_slice());
        self.publisher.publish(rt, change)
    }

    /// Another told value of all that is published.
    pub fn tell(&self) -> Told
        ensures board { told_board result ≡ name_of self.now }
        ensures told { told_changes result ≡ published self.now }
    {
        self.publisher.tell()
    }

    /// Ends the board. It waits for the readers that are reading. A watcher that lives on then sees nothing more.
    pub fn close<R: Wait>(self, rt: &R) {
        let Board { publisher, keys: _ } = self;
        publisher.close(rt);
    }
}

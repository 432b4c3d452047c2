//! A watched hub, which publishes how some resources are used.

ghost use Rattle.std.specs.Prelude.{◌≡◌, ◌<◌, ◌≤◌, ◌↔◌, [], All, IfOk, IsTrue, OnErr, OnOk, vec_len};

use crate::hub::Hub;
use crate::watch::{Board, BoardFault, RootKey, Told, Watcher};
use std::alloc::{AllocError, Global};
use std::sync::Wait;

impl Hub {
    ghost use Rattle.vlm_ports.specs.Watching.{IsNew, told_board, told_changes};
    ghost use Rattle.vlm_ports.specs.Watched.{HasPublished, IsSameHub, IsUnwatched, IsWatched, IsWatchedAsBefore, board_name, published, watched_keys};

    /// Whether it is watched: [`Hub::watch`] was Ok.
    pub fn watched(&self) -> bool
        ensures { IsTrue result ↔ IsWatched self.now }
    {
        self.board.is_some()
    }

    /// Makes 1 to 8 watchers of the root resources under 1 to 16 keys, for a hub that is not watched yet. Until the
    /// first publish each watcher sees resources that do not exist. Refusals, in this order: `Memory` for the board;
    /// then for each watcher in turn `Memory`, and `Seat` if there is no place for it. If it is refused, the hub is not
    /// watched, and the memory is given back. It may wait only then. It makes no entry (this project's own).
    pub fn watch<R: Wait>(
        &mut self,
        rt: &R,
        alloc: Global,
        keys: Vec<RootKey>,
        watchers: usize,
    ) -> Result<Vec<Watcher>, BoardFault>
        requires keys { (0 < vec_len keys) × (vec_len keys ≤ 16) }
        requires watchers { (0 < watchers) × (watchers ≤ 8) }
        requires first { IsUnwatched self.old }
        ensures same { IsSameHub self.old self.new }
        ensures watched { OnOk result (IsWatched self.new) }
        ensures board { OnOk result ((watched_keys self.new ≡ keys.items) × (published self.new ≡ [])) }
        ensures count { IfOk result (λ all. vec_len all ≡ watchers) }
        ensures each { IfOk result (λ all.
            All (IsNew (board_name self.new) (vec_len keys)) all.items) }
        ensures refused { OnErr result (IsUnwatched self.new) }
    {
        let (board, all) = Board::open(rt, alloc, keys, watchers)?;
        if let Some(old) = self.board.replace(board) {
            old.close(rt);
        }
        Ok(all)
    }

    /// Publishes the rows of its keys in the present state of the core, with the number of entries so far, to all its
    /// watchers at once, and answers a told value of all that is published. If there is no room for the change, or
    /// there were 2 ^ 64 - 1 changes, it is refused, and nothing is published. It makes no entry and moves nothing. It
    /// may wait for watchers that still read the change before the last. Its cost grows only with the number of keys
    /// (this project's own).
    pub fn publish<R: Wait>(&mut self, rt: &R) -> Result<Told, AllocError>
        requires { IsWatched self.old }
        ensures same { IsSameHub self.old self.new × IsWatchedAsBefore self.old self.new }
        ensures published { OnOk result (HasPublished self.old self.new) }
        ensures told { IfOk result (λ told. (told_board told ≡ board_name self.old)
            × (told_changes told ≡ published self.new)) }
        ensures refused { OnErr result (published self.new ≡ published self.old) }
    {
        let journaled = &self.journaled;
        match &mut self.board {
            Some(board) => board.publish(rt, journaled),
            None => unreachable!(),
        }
    }

    /// Another told value of all that is published, so that each watcher can have its own. It changes nothing.
    pub fn tell(&self) -> Told
        requires { IsWatched self.now }
        ensures board { told_board result ≡ board_name self.now }
        ensures told { told_changes result ≡ published self.now }
    {
        match &self.board {
            Some(board) => board.tell(),
            None => unreachable!(),
        }
    }
}

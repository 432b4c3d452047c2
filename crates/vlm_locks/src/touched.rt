//! The notes of a step: the resources that it touches, for its sweep; before that the locks that it gives up together.

ghost use Rattle.std.specs.Prelude.{◌≡◌, ◌<◌, ◌≤◌, List, [], ◌∷◌, ◌++◌, length, vec_capacity, IfSome, OnErr, OnOk};
ghost use Rattle.vlm_words.specs.declared.locks.LockState.{LockState};
ghost use Rattle.vlm_collections.specs.Lists.{IsIn};
ghost use Rattle.vlm_store.specs.Records.{HasResource, IsSound, IsStored, Stores, resource_at};
ghost use Rattle.vlm_locks.specs.Touched.{IsNoted, RiseByNumber};
ghost use Rattle.vlm_locks.specs.declared.touched.Note.{Note};

use std::alloc::{AllocError, Global};
use std::marker::Model;
use vlm_collections::At;
use vlm_store::{LockAt, ResAt, Store};

/// The kind of a handle in a note: of a resource, or of a lock.
pub struct NotedKind;

/// A note of a resource that a step has touched, or of a lock that it will give up. The step knows which.
#[derive(Clone, Copy)]
pub struct Note {
    // the serial of a resource, or the ID of a lock: notes in this order are in the order of making
    number: u32,
    at: At<NotedKind>,
}

impl Note {
    pub fn of_resource(store: &Store, res: ResAt) -> Note
        requires { HasResource res store.now }
        ensures res { result.at ≡ res }
        ensures serial { IfSome (resource_at res store.now.resources)
            (λ r. result.number ≡ r.serial) }
        ensures sound { IsSound store.now }
    {
        Note {
            number: store.resource_record(res).serial,
            at: res.in_kind(),
        }
    }

    pub fn of_lock(store: &Store, lock: LockAt) -> Note
        requires { IsStored lock store.now }
        ensures lock { result.at ≡ lock }
        ensures lkid { (row : LockState) → Stores store.now lock row → row.lkid ≡ result.number }
    {
        Note {
            number: store.lock_record(lock).row.lkid(),
            at: lock.in_kind(),
        }
    }

    pub fn res(&self) -> ResAt
        ensures { result ≡ self.now.at }
    {
        self.at.in_kind()
    }

    pub fn lock(&self) -> LockAt
        ensures { result ≡ self.now.at }
    {
        self.at.in_kind()
    }
}

/// The notes of a step in the order in which it made them, with room for more.
#[derive(Drop)]
pub struct Touched {
    // a resource may be noted several times
    notes: Vec<Note>,
}

impl Model for Touched {
    ghost use Rattle.vlm_locks.specs.Touched.{Touches};

    ghost Value = { Touches };

    ghost use Rattle.std.specs.Prelude.{vec_capacity};

    ghost view = { λ t. record { noted = t.notes.items; room = vec_capacity t.notes } };
}

impl Touched {
    /// No notes, and no room. It takes no memory.
    pub fn new(alloc: Global) -> Self
        ensures { result.noted ≡ [] }
    {
        Touched {
            notes: Vec::new(alloc),
        }
    }

    /// Makes room for this many notes and one more. The memory grows to twice its size, so most calls move nothing.
    pub fn make_room_beyond(&mut self, count: usize) -> Result<(), AllocError>
        requires { self.old.noted ≡ [] }
        ensures none { self.new.noted ≡ [] }
        ensures room { OnOk result (count < self.new.room) }
        ensures no_less { self.old.room ≤ self.new.room }
        ensures refused { OnErr result (self.new.room ≡ self.old.room) }
    {
        match count.checked_add(1) {
            Some(more) => self.notes.reserve(more),
            None => Err(AllocError),
        }
    }

    pub fn note(&mut self, note: Note)
        requires { length self.old.noted < self.old.room }
        ensures noted { self.new.noted ≡ self.old.noted ++ note ∷ [] }
        ensures room { self.new.room ≡ self.old.room }
    {
        self.notes.push_reserved(note);
    }

    pub fn replace(&mut self, index: usize, note: Note)
        requires { index < length self.old.noted }
        ensures noted { (before after : List Note) (was : Note)
            → self.old.noted ≡ before ++ was ∷ after → index ≡ length before
            → self.new.noted ≡ before ++ note ∷ after }
        ensures room { self.new.room ≡ self.old.room }
    {
        self.notes[index] = note;
    }

    /// Puts the notes in the order of making, each once. It takes no memory.
    pub fn in_order(&mut self)
        ensures rising { RiseByNumber self.new.noted }
        ensures within { (t : Note) → IsIn t self.new.noted → IsIn t self.old.noted }
        ensures each { (t : Note) → IsIn t self.old.noted → IsNoted t.number self.new.noted }
        ensures room { self.new.room ≡ self.old.room }
    {
        self.notes.sort_unstable_by_key(|note| note.number);
        self.notes.dedup_by_key(|note| note.number);
    }

    pub fn notes(&self) -> &[Note]
        ensures { result.now ≡ self.now.noted }
    {
        &self.notes
    }

    pub fn clear(&mut self)
        ensures none { self.new.noted ≡ [] }
        ensures room { self.new.room ≡ self.old.room }
    {
        self.notes.clear();
    }
}

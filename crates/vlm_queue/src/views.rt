//! Views of a resource and of a lock, as copies that outlive the next step.

ghost use Rattle.std.specs.Prelude.{◌≡◌, IfSome};
ghost use Rattle.vlm_words.specs.declared.locks.LockState.{LockState};
ghost use Rattle.vlm_words.specs.Resources.{key_name, key_parent};
ghost use Rattle.vlm_store.specs.Records.{HasResource, IsStored, Stores};
ghost use Rattle.vlm_queue.specs.Views.{resource_view, row_view, usage};
ghost use Rattle.vlm_queue.specs.Walks.{plain_resource_at};

use vlm_store::{LockAt, ResAt, Resource, Store};
use vlm_words::locks::LockState;
use vlm_words::modes::Mode;
use vlm_words::names::Name;
use vlm_words::resources::{Domain, Queue};

/// A resource without its queues.
#[derive(Clone, Copy)]
pub struct ResourceView {
    /// Its serial: the number of its making, from 1.
    pub serial: u32,
    /// The serial of its parent resource, or 0 for a root.
    pub parent: u32,
    /// The domain of its root.
    pub domain: Domain,
    /// Its name.
    pub name: Name,
    /// The 16 bytes of its value block, valid or not.
    pub value: [u8; 16],
    /// Whether the 16 bytes are valid.
    pub valid: bool,
    /// The 48 bytes of the value block's tail, valid or not.
    pub tail: [u8; 48],
    /// Whether the tail is valid.
    pub tail_valid: bool,
}

/// A lock and its modes.
#[derive(Clone, Copy)]
pub struct RowView {
    /// Its ID.
    pub lkid: u32,
    /// The process that owns it.
    pub pid: u32,
    /// `None` while it waits.
    pub held: Option<Mode>,
    /// The mode that its queued request wants; `None` while it is granted.
    pub want: Option<Mode>,
}

/// How many locks use a resource, and its value block.
#[derive(Clone, Copy)]
pub struct Usage {
    /// How many locks hold each mode, from NL to EX, granted or converting.
    pub held: [u32; 6],
    /// How many conversions are queued.
    pub conversions: u32,
    /// How many locks wait, without conversions.
    pub waiters: u32,
    /// The 16 bytes of its value block, valid or not. The tail is left out.
    pub value: [u8; 16],
    /// Whether the 16 bytes are valid.
    pub valid: bool,
}

impl ResourceView {
    /// The view of a record.
    pub fn of(resource: &Resource) -> ResourceView
        ensures { result ≡ record {
          serial = resource.now.serial;
          parent = key_parent resource.now.key;
          domain = resource.now.domain;
          name = key_name resource.now.key;
          value = resource.now.value_block.value;
          valid = resource.now.value_block.valid;
          tail = resource.now.value_block.tail;
          tail_valid = resource.now.value_block.tail_valid;
        } }
    {
        ResourceView {
            serial: resource.serial,
            parent: resource.key.parent(),
            domain: resource.domain,
            name: resource.key.name(),
            value: resource.value_block.value,
            valid: resource.value_block.valid,
            tail: resource.value_block.tail,
            tail_valid: resource.value_block.tail_valid,
        }
    }
}

impl RowView {
    /// The view of a row.
    pub fn of(row: &LockState) -> RowView
        ensures { result ≡ row_view row.now }
    {
        RowView {
            lkid: row.lkid,
            pid: row.pid,
            held: row.held.map(|request| request.mode),
            want: row.want.map(|request| request.mode),
        }
    }
}

/// The view of a resource in the store.
pub fn resource_view(store: &Store, res: ResAt) -> ResourceView
    requires { HasResource res store.now }
    ensures { IfSome (plain_resource_at res store.now) (λ r. result ≡ resource_view r) }
{
    ResourceView::of(store.resource_record(res))
}

/// The view of a lock in the store.
pub fn row_view(store: &Store, lock: LockAt) -> RowView
    requires { IsStored lock store.now }
    ensures { (row : LockState) → Stores store.now lock row → result ≡ row_view row }
{
    RowView::of(&store.lock_record(lock).row.row())
}

/// It takes constant time, since it reads counts.
pub fn usage_of(store: &Store, res: ResAt) -> Usage
    requires { HasResource res store.now }
    ensures { IfSome (plain_resource_at res store.now) (λ r. result ≡ usage r) }
{
    let resource = store.resource_record(res);
    let held = store.held_counts(res);
    Usage {
        held,
        conversions: store.queue_length(res, Queue::Conversion),
        waiters: store.queue_length(res, Queue::Waiting),
        value: resource.value_block.value,
        valid: resource.value_block.valid,
    }
}

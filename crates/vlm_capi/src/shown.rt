//! The structs that readers copy out to C. include/vlm.h describes their members.

ghost use Rattle.std.specs.Prelude.{◌≡◌};
ghost use Rattle.vlm_capi.specs.Shown.{lksb_of, lock_of, lock_or_none, process_of, process_or_none, queue_number, resource_of, resource_or_none};

use crate::numbers::mode_number;
use crate::padding::name_cells;
use std::mem::size_of;
use vlm_core::{LockView, ProcessView, ResourceView};
use vlm_words::blocks::Block;
use vlm_words::resources::{Domain, Queue};

// The `size` that C writes into each struct.
pub(crate) const LKSB_SIZE: u32 = 80;

pub(crate) const PROCESS_SIZE: u32 = 64;

pub(crate) const RESOURCE_SIZE: u32 = 144;

pub(crate) const LOCK_SIZE: u32 = 64;

const _: () = prove!(size_of::<VlmLksb>() == 80);

const _: () = prove!(size_of::<VlmProcess>() == 64);

const _: () = prove!(size_of::<VlmResource>() == 144);

const _: () = prove!(size_of::<VlmLock>() == 64);

/// A lock status block.
#[repr(C)]
#[derive(Clone, Copy)]
pub struct VlmLksb {
    /// The size of the struct in bytes.
    pub size: u32,
    /// 0 while a request is pending, then the condition that ended it.
    pub status: u32,
    /// The lock of the last accepted request, or 0.
    pub lkid: u32,
    /// All zero.
    pub reserved: u32,
    /// The value part.
    pub value: [u8; 16],
    /// The other 48 bytes of the value block.
    pub tail: [u8; 48],
}

/// A living process.
#[repr(C)]
#[derive(Clone, Copy)]
pub struct VlmProcess {
    /// The size of the struct in bytes.
    pub size: u32,
    /// The ID of the process.
    pub pid: u32,
    /// Its node, 1 to 8.
    pub node: u32,
    /// The UIC group.
    pub group: u32,
    /// 1 if it has the privilege SYSLCK, or 0.
    pub syslck: u32,
    /// How many locks it may have (ENQLM).
    pub quota: u32,
    /// How many status blocks it has, numbered from 1.
    pub blocks: u64,
    /// How many ASTs are pending for it.
    pub pending: u64,
    /// How many locks it has, waiting ones included.
    pub locks: u64,
    /// All zero.
    pub reserved: [u32; 4],
}

/// A resource without its queues.
#[repr(C)]
#[derive(Clone, Copy)]
pub struct VlmResource {
    /// The size of the struct in bytes.
    pub size: u32,
    /// Counts the resources from 1, in order of making.
    pub serial: u32,
    /// The serial of its parent, or 0 for a root.
    pub parent: u32,
    /// 1 in the system's domain, 0 in the domain of a group.
    pub is_system: u32,
    /// The UIC group, or 0 in the system's domain.
    pub group: u32,
    /// 1 if `value` is valid, or 0.
    pub value_valid: u32,
    /// 1 if `tail` is valid, or 0.
    pub tail_valid: u32,
    /// How many bytes the name has.
    pub name_len: u32,
    /// `name_len` bytes, then zeros.
    pub name: [u8; 32],
    /// The first 16 bytes of the value block.
    pub value: [u8; 16],
    /// The other 48 bytes of the value block.
    pub tail: [u8; 48],
    /// All zero.
    pub reserved: [u32; 4],
}

/// A lock with its place.
#[repr(C)]
#[derive(Clone, Copy)]
pub struct VlmLock {
    /// The size of the struct in bytes.
    pub size: u32,
    /// 0 after the last lock of a walk.
    pub lkid: u32,
    /// The process that has the lock.
    pub pid: u32,
    /// The granted mode, or 255 for no mode.
    pub held: u32,
    /// The wanted mode, or 255 for no mode.
    pub want: u32,
    /// 0 granted, 1 conversion, 2 waiting.
    pub queue: u32,
    /// The serial of its resource.
    pub resource: u32,
    /// Its parent lock, or 0.
    pub parent: u32,
    /// The status block of its last accepted request.
    pub block: u32,
    /// All zero.
    pub reserved: [u32; 7],
}

pub(crate) fn lksb_of(block: &Block) -> VlmLksb
    ensures { result ≡ lksb_of block.now }
{
    VlmLksb {
        size: LKSB_SIZE,
        status: u32::from(block.status),
        lkid: block.lkid,
        reserved: 0,
        value: block.value,
        tail: block.tail,
    }
}

pub(crate) fn process_of(process: &ProcessView, locks: usize) -> VlmProcess
    ensures { result ≡ process_of (process.now, locks) }
{
    VlmProcess {
        size: PROCESS_SIZE,
        pid: process.pid,
        node: u32::from(process.node),
        group: u32::from(process.group),
        syslck: u32::from(process.syslck),
        quota: u32::from(process.quota),
        blocks: process.blocks as u64,
        pending: process.pending as u64,
        locks: locks as u64,
        reserved: [0; 4],
    }
}

fn queue_number(queue: Queue) -> u32
    ensures { result ≡ queue_number queue }
{
    match queue {
        Queue::Granted => 0,
        Queue::Conversion => 1,
        Queue::Waiting => 2,
    }
}

pub(crate) fn lock_of(lock: &LockView) -> VlmLock
    ensures { result ≡ lock_of lock.now }
{
    VlmLock {
        size: LOCK_SIZE,
        lkid: lock.lkid,
        pid: lock.pid,
        held: mode_number(lock.held),
        want: mode_number(lock.want),
        queue: queue_number(lock.queue),
        resource: lock.resource,
        parent: lock.parent,
        block: u32::from(lock.block),
        reserved: [0; 7],
    }
}

/// The struct of a lock, or one with lock 0 and no mode after the last one.
pub(crate) fn lock_or_none(lock: &Option<LockView>) -> VlmLock
    ensures { result ≡ lock_or_none lock.now }
{
    match lock {
        Some(lock) => lock_of(lock),
        None => VlmLock {
            size: LOCK_SIZE,
            lkid: 0,
            pid: 0,
            held: mode_number(None),
            want: mode_number(None),
            queue: 0,
            resource: 0,
            parent: 0,
            block: 0,
            reserved: [0; 7],
        },
    }
}

pub(crate) fn resource_of(resource: &ResourceView) -> VlmResource
    ensures { result ≡ resource_of resource.now }
{
    let (is_system, group) = match resource.domain {
        Domain::Group(group) => (0, u32::from(group)),
        Domain::System => (1, 0),
    };
    let (name, name_len) = name_cells(resource.name);
    VlmResource {
        size: RESOURCE_SIZE,
        serial: resource.serial,
        parent: resource.parent,
        is_system,
        group,
        value_valid: u32::from(resource.valid),
        tail_valid: u32::from(resource.tail_valid),
        name_len,
        name,
        value: resource.value,
        tail: resource.tail,
        reserved: [0; 4],
    }
}

/// The struct of a resource, or all 0 after the last one.
pub(crate) fn resource_or_none(resource: &Option<ResourceView>) -> VlmResource
    ensures { result ≡ resource_or_none resource.now }
{
    match resource {
        Some(resource) => resource_of(resource),
        None => VlmResource {
            size: RESOURCE_SIZE,
            serial: 0,
            parent: 0,
            is_system: 0,
            group: 0,
            value_valid: 0,
            tail_valid: 0,
            name_len: 0,
            name: [0; 32],
            value: [0; 16],
            tail: [0; 48],
            reserved: [0; 4],
        },
    }
}

/// The struct of a process, or all 0 after the last one.
pub(crate) fn process_or_none(process: &Option<(ProcessView, usize)>) -> VlmProcess
    ensures { result ≡ process_or_none process.now }
{
    match process {
        Some((process, locks)) => process_of(process, *locks),
        None => VlmProcess {
            size: PROCESS_SIZE,
            pid: 0,
            node: 0,
            group: 0,
            syslck: 0,
            quota: 0,
            blocks: 0,
            pending: 0,
            locks: 0,
            reserved: [0; 4],
        },
    }
}

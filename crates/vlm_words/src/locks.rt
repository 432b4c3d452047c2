//! Locks, and the requests that they hold and want.

use crate::flags::EnqFlags;
use crate::modes::Mode;

/// An accepted request: a new lock or a conversion.
#[derive(Clone, Copy)]
pub struct Request {
    /// The number of the request. Numbers rise from 1, and each accepted request has its own.
    pub number: u64,
    /// The completion routine.
    pub completion: Option<u32>,
    /// The blocking routine.
    pub blocking: Option<u32>,
    /// The parameter of both routines.
    pub param: u32,
    /// The flags. Later grants and searches read them too.
    pub flags: EnqFlags,
    /// The requested mode.
    pub mode: Mode,
    /// The number of the status block that its end writes.
    pub block: u8,
}

/// The state of a lock. Each lock is in one queue of one resource.
#[derive(Clone, Copy)]
pub struct LockState {
    /// The ID of the lock.
    pub lkid: u32,
    /// The process that owns the lock.
    pub pid: u32,
    /// The parent lock, or 0.
    pub parent: u32,
    /// Whether the granted request names a blocking routine that has not been queued since the grant.
    pub armed: bool,
    /// The last granted request. It stays while a conversion waits, and is missing while a new lock waits.
    pub held: Option<Request>,
    /// The queued request, if there is one.
    pub want: Option<Request>,
}

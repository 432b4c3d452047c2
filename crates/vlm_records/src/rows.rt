//! The state of a lock in packed form.

ghost use Rattle.std.specs.Prelude.{◌≡◌, ℕ, None, false};
ghost use Rattle.vlm_words.specs.Rows.{wanting_row, granted_row, is_arming};
ghost use Rattle.vlm_words.specs.Dues.{routines_of};
ghost use Rattle.vlm_records.specs.Armed.{armed_rank};
ghost use Rattle.vlm_records.specs.Tallies.{mode_in};
ghost use Rattle.vlm_records.specs.declared.rows.RequestTerms.{RequestTerms};
ghost use Rattle.vlm_records.specs.declared.rows.Routines.{Routines};
ghost use Rattle.vlm_records.specs.Requests.{packed_terms, blocking_shown, completion_shown, tag_of, packed_number, request_shown, packed_routines};

use bitflags::Flags;
use std::marker::Model;
use vlm_words::flags::EnqFlags;
use vlm_words::locks::{LockState, Request};
use vlm_words::modes::Mode;

// Which routines a request names; `Nothing` if there is no request. Every number is a valid routine, so no number can
// say that there is no routine.
#[derive(Clone, Copy)]
enum RequestTag {
    Nothing,
    NoRoutine,
    Completion,
    Blocking,
    Both,
}

// The routines of a request and their parameter. A routine that the request does not name is 0.
#[derive(Clone, Copy)]
struct Routines {
    completion: u32,
    blocking: u32,
    param: u32,
}

#[derive(Clone, Copy)]
struct RequestTerms {
    flags: EnqFlags,
    mode: Mode,
    block: u8,
}

/// The state of a lock in 64 bytes. A `LockState` with its two requests takes 96 bytes, and each function that hands it
/// on copies it. Here the parts of both requests are grouped by size, so that there is no padding between them, and a
/// caller can read a single field.
#[derive(Clone, Copy)]
pub struct StoredState {
    // the numbers of the two requests; 0 without a request
    held_number: u64,
    want_number: u64,
    // their routines and parameters; zeros without a request
    held_routines: Routines,
    want_routines: Routines,
    // the lock, its process, and its parent lock or 0
    lkid: u32,
    pid: u32,
    parent: u32,
    // their flags, modes and status blocks; zeros and NL without a request
    held_terms: RequestTerms,
    want_terms: RequestTerms,
    // whether there is a held request and a wanted one, and which routines each names
    held_tag: RequestTag,
    want_tag: RequestTag,
    armed: bool,
}

impl Model for StoredState {
    ghost use Rattle.vlm_words.specs.declared.locks.LockState.{LockState};

    ghost Value = { LockState };

    ghost use Rattle.vlm_records.specs.Rows.{IsPacked, packed, row_shown};

    ghost view = { row_shown };

    ghost invariant = { IsPacked };

    ghost inverse = { packed };

    ghost inverse_ok = { λ r h. h };
}

fn tag_of(request: &Option<Request>) -> RequestTag
    ensures { result ≡ tag_of request.now }
{
    let Some(request) = request else {
        return RequestTag::Nothing;
    };
    match (request.completion, request.blocking) {
        (None, None) => RequestTag::NoRoutine,
        (Some(_), None) => RequestTag::Completion,
        (None, Some(_)) => RequestTag::Blocking,
        (Some(_), Some(_)) => RequestTag::Both,
    }
}

fn packed_number(request: &Option<Request>) -> u64
    ensures { result ≡ packed_number request.now }
{
    match request {
        Some(request) => request.number,
        None => 0,
    }
}

fn packed_routines(request: &Option<Request>) -> Routines
    ensures { result ≡ packed_routines request.now }
{
    match request {
        Some(request) => Routines {
            completion: request.completion.unwrap_or(0),
            blocking: request.blocking.unwrap_or(0),
            param: request.param,
        },
        None => Routines {
            completion: 0,
            blocking: 0,
            param: 0,
        },
    }
}

fn packed_terms(request: &Option<Request>) -> RequestTerms
    ensures { result ≡ packed_terms request.now }
{
    match request {
        Some(request) => RequestTerms {
            flags: request.flags,
            mode: request.mode,
            block: request.block,
        },
        None => RequestTerms {
            flags: EnqFlags::empty(),
            mode: Mode::Nl,
            block: 0,
        },
    }
}

fn completion_shown(kept: RequestTag, routines: &Routines) -> Option<u32>
    ensures { result ≡ completion_shown kept routines.now }
{
    match kept {
        RequestTag::Completion | RequestTag::Both => Some(routines.completion),
        RequestTag::Nothing | RequestTag::NoRoutine | RequestTag::Blocking => None,
    }
}

fn blocking_shown(kept: RequestTag, routines: &Routines) -> Option<u32>
    ensures { result ≡ blocking_shown kept routines.now }
{
    match kept {
        RequestTag::Blocking | RequestTag::Both => Some(routines.blocking),
        RequestTag::Nothing | RequestTag::NoRoutine | RequestTag::Completion => None,
    }
}

// Each part is computed by itself, so a caller that reads one part does not pay for the others.
fn request_shown(
    kept: RequestTag,
    number: u64,
    routines: &Routines,
    asked: &RequestTerms,
) -> Option<Request>
    ensures { result ≡ request_shown kept number routines.now asked.now }
{
    if matches!(kept, RequestTag::Nothing) {
        return None;
    }
    Some(Request {
        number,
        completion: completion_shown(kept, routines),
        blocking: blocking_shown(kept, routines),
        param: routines.param,
        flags: asked.flags,
        mode: asked.mode,
        block: asked.block,
    })
}

fn mode_shown(kept: RequestTag, asked: &RequestTerms) -> Option<Mode>
    ensures { (number : ℕ) (routines : Routines)
        → result ≡ mode_in (request_shown kept number routines asked.now) }
{
    match kept {
        RequestTag::Nothing => None,
        RequestTag::NoRoutine | RequestTag::Completion | RequestTag::Blocking | RequestTag::Both =>
            Some(asked.mode),
    }
}

// Whether the grant of this request arms its lock: it names a blocking routine.
fn is_arming(kept: RequestTag) -> bool
    ensures { (number : ℕ) (routines : Routines) (asked : RequestTerms)
        → result ≡ is_arming (request_shown kept number routines asked) }
{
    match kept {
        RequestTag::Nothing | RequestTag::NoRoutine | RequestTag::Completion => false,
        RequestTag::Blocking | RequestTag::Both => true,
    }
}

impl StoredState {
    pub fn of(row: &LockState) -> Self
        ensures { result ≡ row.now }
    {
        StoredState {
            held_number: packed_number(&row.held),
            want_number: packed_number(&row.want),
            held_routines: packed_routines(&row.held),
            want_routines: packed_routines(&row.want),
            lkid: row.lkid,
            pid: row.pid,
            parent: row.parent,
            held_terms: packed_terms(&row.held),
            want_terms: packed_terms(&row.want),
            held_tag: tag_of(&row.held),
            want_tag: tag_of(&row.want),
            armed: row.armed,
        }
    }

    pub fn row(&self) -> LockState
        ensures { result ≡ self.now }
    {
        LockState {
            lkid: self.lkid,
            pid: self.pid,
            parent: self.parent,
            armed: self.armed,
            held: self.held(),
            want: self.want(),
        }
    }

    pub fn lkid(&self) -> u32
        ensures { result ≡ self.now.lkid }
    {
        self.lkid
    }

    pub fn pid(&self) -> u32
        ensures { result ≡ self.now.pid }
    {
        self.pid
    }

    /// The parent lock, or 0.
    pub fn parent(&self) -> u32
        ensures { result ≡ self.now.parent }
    {
        self.parent
    }

    /// Whether the held request names a blocking routine that has not been queued since the grant.
    pub fn is_armed(&self) -> bool
        ensures { result ≡ self.now.armed }
    {
        self.armed
    }

    /// The rank of the held mode if the lock is armed, else 0. NL has rank 0 too: no armed list has such a lock.
    #[inline(always)]
    pub(crate) fn armed_rank(&self) -> usize
        ensures { result ≡ armed_rank self.now }
    {
        if !self.armed || matches!(self.held_tag, RequestTag::Nothing) {
            return 0;
        }
        self.held_terms.mode.rank()
    }

    pub fn held(&self) -> Option<Request>
        ensures { result ≡ self.now.held }
    {
        request_shown(
            self.held_tag,
            self.held_number,
            &self.held_routines,
            &self.held_terms,
        )
    }

    /// The mode that the lock holds.
    pub(crate) fn held_mode(&self) -> Option<Mode>
        ensures { result ≡ mode_in self.now.held }
    {
        mode_shown(self.held_tag, &self.held_terms)
    }

    /// The mode that the lock wants.
    pub(crate) fn wanted_mode(&self) -> Option<Mode>
        ensures { result ≡ mode_in self.now.want }
    {
        mode_shown(self.want_tag, &self.want_terms)
    }

    /// How many routines the wanted request names, 0 to 2.
    pub fn wanted_routines(&self) -> usize
        ensures { result ≡ routines_of self.now.want }
    {
        match self.want_tag {
            RequestTag::Nothing | RequestTag::NoRoutine => 0,
            RequestTag::Completion | RequestTag::Blocking => 1,
            RequestTag::Both => 2,
        }
    }

    pub fn want(&self) -> Option<Request>
        ensures { result ≡ self.now.want }
    {
        request_shown(
            self.want_tag,
            self.want_number,
            &self.want_routines,
            &self.want_terms,
        )
    }

    pub fn granted(&self) -> Self
        ensures { result ≡ granted_row self.now }
    {
        StoredState {
            held_number: self.want_number,
            held_routines: self.want_routines,
            held_terms: self.want_terms,
            held_tag: self.want_tag,
            armed: is_arming(self.want_tag),
            ..self.without_want()
        }
    }

    pub fn wanting(&self, request: &Request) -> Self
        ensures { result ≡ wanting_row self.now request.now }
    {
        let want = Some(*request);
        StoredState {
            want_number: packed_number(&want),
            want_routines: packed_routines(&want),
            want_terms: packed_terms(&want),
            want_tag: tag_of(&want),
            ..*self
        }
    }

    pub fn without_want(&self) -> Self
        ensures { result ≡ record self.now { want = None } }
    {
        StoredState {
            want_number: packed_number(&None),
            want_routines: packed_routines(&None),
            want_terms: packed_terms(&None),
            want_tag: tag_of(&None),
            ..*self
        }
    }

    /// The row after its blocking AST is queued.
    pub fn disarmed(&self) -> Self
        ensures { result ≡ record self.now { armed = false } }
    {
        StoredState {
            armed: false,
            ..*self
        }
    }
}

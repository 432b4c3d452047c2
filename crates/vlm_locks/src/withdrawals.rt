//! Withdrawals: how a lock's request ends, and whether the lock goes.

ghost use Rattle.std.specs.Prelude.{◌≡◌};
ghost use Rattle.vlm_model.specs.Endings.{ending_status};
ghost use Rattle.vlm_model.specs.Endings.How.{by_abort};
ghost use Rattle.vlm_model.specs.Rundown.{rundown_of};
ghost use Rattle.vlm_model.specs.Search.{deadlock_of};
ghost use Rattle.vlm_locks.specs.Left.{giving_up};
ghost use Rattle.vlm_locks.specs.Withdrawals.{how_ended, plain_withdrawal, writes_something};

use vlm_words::conditions::Cond;

/// How a request ends without a grant.
#[derive(Clone, Copy)]
pub enum EndReason {
    /// It ends with its lock.
    Aborted,
    Cancelled,
    Deadlocked,
    /// It ends with its process, without a status or an AST.
    RunDown,
}

impl EndReason {
    pub(crate) fn status(self) -> Option<Cond>
        ensures { ending_status (how_ended self) ≡ result }
    {
        match self {
            EndReason::Aborted => Some(Cond::Abort),
            EndReason::Cancelled => Some(Cond::Cancel),
            EndReason::Deadlocked => Some(Cond::Deadlock),
            EndReason::RunDown => None,
        }
    }
}

/// A withdrawal of a lock: its request ends, it may write or invalidate the value block, and it goes or stays granted.
#[derive(Clone, Copy)]
pub struct Withdrawal {
    pub lkid: u32,
    /// How its request ends if the lock waits, and if it converts.
    pub waiting: EndReason,
    pub converting: EndReason,
    /// Whether a lock that converts stays, granted as before.
    pub stays: bool,
    /// Written to the value block if the lock is held at PW or EX.
    pub value: Option<[u8; 16]>,
    /// Written with the value. Without it a write of the value makes the tail of the value block invalid.
    pub tail: Option<[u8; 48]>,
    /// Whether the whole value block is then marked invalid, if the lock is held at PW or EX.
    pub invalidates: bool,
}

impl Withdrawal {
    pub(crate) fn writes(&self) -> bool
        ensures { result ≡ writes_something self.now }
    {
        self.value.is_some() || self.invalidates
    }

    pub(crate) fn rundown(lkid: u32) -> Self
        ensures { plain_withdrawal result ≡ rundown_of lkid }
    {
        Withdrawal {
            lkid,
            waiting: EndReason::RunDown,
            converting: EndReason::RunDown,
            stays: false,
            value: None,
            tail: None,
            invalidates: true,
        }
    }

    /// The withdrawal of a search's victim: a waiting lock goes with its request, and a converting lock stays.
    pub fn victim(lkid: u32) -> Self
        ensures { plain_withdrawal result ≡ deadlock_of lkid }
    {
        Withdrawal {
            lkid,
            waiting: EndReason::Deadlocked,
            converting: EndReason::Deadlocked,
            stays: true,
            value: None,
            tail: None,
            invalidates: false,
        }
    }

    pub(crate) fn together(lkid: u32, invalidates: bool) -> Self
        ensures { plain_withdrawal result ≡ giving_up by_abort by_abort invalidates lkid }
    {
        Withdrawal {
            lkid,
            waiting: EndReason::Aborted,
            converting: EndReason::Aborted,
            stays: false,
            value: None,
            tail: None,
            invalidates,
        }
    }
}

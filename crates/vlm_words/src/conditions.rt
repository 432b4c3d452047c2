//! The conditions: what a step is answered, and what a status block shows.

ghost use Rattle.std.specs.Prelude.{◌≡◌};
ghost use Rattle.vlm_words.specs.Conditions.{condition_number, condition_name};

/// A condition. ABORT, CANCEL, DEADLOCK, VALNOTVALID and WIDENOTVALID appear only in status blocks.
#[derive(Clone, Copy, Debug, PartialEq, Eq)]
pub enum Cond {
    /// The step was done. In a status block: the request was granted.
    Normal = 1,
    /// A request with SYNCSTS was granted at once.
    Synch,
    /// A request with NOQUEUE could not be granted at once.
    Notqueued,
    /// A queued request ended because its lock was given up, or because a waiting request was cancelled.
    Abort,
    /// A queued conversion was cancelled.
    Cancel,
    /// The request was the victim of a search for a deadlock.
    Deadlock,
    /// A request was granted, and the value block that it returned is invalid.
    Valnotvalid,
    /// The lock is granted, so it has no request to cancel.
    Cancelgrant,
    /// The lock to be given up has sublocks.
    Sublocks,
    /// The ID is not a lock of the caller.
    Ivlockid,
    /// The lock to be converted waits or converts already.
    Cvtungrant,
    /// The parent lock waits.
    Parnotgrant,
    /// The parent lock's resource is on the lowest level.
    Exdepth,
    /// The process has as many locks as its quota (ENQLM).
    Exenqlm,
    /// The IDs or the request numbers are used up.
    Nolockid,
    /// Memory was refused, and nothing was changed.
    Insfmem,
    /// The resource name has no byte, or more than 31.
    Ivbuflen,
    /// An unknown flag, a node out of range or out of ordinals, or arguments that do not go together.
    Badparam,
    /// EXPEDITE at a mode other than NL.
    Unsupported,
    /// SYSTEM on a root without the privilege SYSLCK.
    Nosyslck,
    /// The process has no status block with this number.
    Accvio,
    /// No living process has the ID.
    Nonexpr,
    /// The node has departed (own).
    Departed,
    /// A request was granted. Of the value block that it returned with WIDE, only the tail is invalid (own).
    Widenotvalid,
}

impl Cond {
    /// The number of the condition, 1 to 24, as a status block holds it (own).
    pub fn number(self) -> u8
        ensures { result ≡ condition_number self }
    {
        self as u8
    }

    /// The name of the condition, as it is printed: the name of VMS without `SS$_`.
    pub fn text(self) -> &'static str
        ensures { result.now ≡ condition_name self }
    {
        match self {
            Cond::Normal => "NORMAL",
            Cond::Synch => "SYNCH",
            Cond::Notqueued => "NOTQUEUED",
            Cond::Abort => "ABORT",
            Cond::Cancel => "CANCEL",
            Cond::Deadlock => "DEADLOCK",
            Cond::Valnotvalid => "VALNOTVALID",
            Cond::Cancelgrant => "CANCELGRANT",
            Cond::Sublocks => "SUBLOCKS",
            Cond::Ivlockid => "IVLOCKID",
            Cond::Cvtungrant => "CVTUNGRANT",
            Cond::Parnotgrant => "PARNOTGRANT",
            Cond::Exdepth => "EXDEPTH",
            Cond::Exenqlm => "EXENQLM",
            Cond::Nolockid => "NOLOCKID",
            Cond::Insfmem => "INSFMEM",
            Cond::Ivbuflen => "IVBUFLEN",
            Cond::Badparam => "BADPARAM",
            Cond::Unsupported => "UNSUPPORTED",
            Cond::Nosyslck => "NOSYSLCK",
            Cond::Accvio => "ACCVIO",
            Cond::Nonexpr => "NONEXPR",
            Cond::Departed => "DEPARTED",
            Cond::Widenotvalid => "WIDENOTVALID",
        }
    }
}

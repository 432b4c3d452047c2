//! The flags of requests and of dequeues.

ghost use Rattle.std.specs.Prelude.{◌≡◌, ⊤, [], ◌∷◌, codes};
ghost use Rattle.vlm_words.specs.Flags.{cancel, deq_flag_bits, deqall, expedite, flag_bits, has_flag, invvalblk, nodlckblk, nodlckwt, noqueue, quecvt, syncsts, system, valblk, wide};

use bitflags::{Flag, Flags, bitflag_items};

/// The flags of a new request or a conversion ($ENQ). The bits are this project's own.
#[derive(Clone, Copy)]
pub struct EnqFlags(u16);

bitflag_items! {
    impl EnqFlags: u16 {
        /// A grant returns the resource's value block to the request's status block. A conversion may write it from
        /// there instead, by its two modes.
        const VALBLK = 1;
        /// A request that cannot be granted at once is refused.
        const NOQUEUE = 2;
        /// A request that is granted at once answers SYNCH, and queues no completion AST.
        const SYNCSTS = 4;
        /// A root is in the system's domain, not in its caller's group. The caller needs SYSLCK.
        const SYSTEM = 8;
        /// A new request at NL is granted at once, whatever is queued.
        const EXPEDITE = 16;
        /// A conversion is granted at once only if no conversion is queued.
        const QUECVT = 32;
        /// In a search for a deadlock, the queued request waits for nobody.
        const NODLCKWT = 64;
        /// In a search for a deadlock, nobody waits for the request, neither while it is queued nor once it is
        /// granted.
        const NODLCKBLK = 128;
        /// With VALBLK, all 64 bytes of the value block are returned or written (own).
        const WIDE = 256;
    }
}

impl Flags for EnqFlags {
    type Bits = u16;

    ghost exact = { ⊤ };

    ghost table = { (codes "VALBLK", valblk) ∷ (codes "NOQUEUE", noqueue)
        ∷ (codes "SYNCSTS", syncsts) ∷ (codes "SYSTEM", system)
        ∷ (codes "EXPEDITE", expedite) ∷ (codes "QUECVT", quecvt)
        ∷ (codes "NODLCKWT", nodlckwt) ∷ (codes "NODLCKBLK", nodlckblk)
        ∷ (codes "WIDE", wide) ∷ [] };

    ghost set_of = { λ f. f.0 };

    fn flags<'a>() -> &'a [Flag<EnqFlags>] {
        EnqFlags::FLAGS
    }

    fn bits(&self) -> u16 {
        self.0
    }

    fn from_bits_retain(bits: u16) -> EnqFlags {
        EnqFlags(bits)
    }
}

impl EnqFlags {
    /// Whether this set contains the flag.
    #[tactic(auto, unfolding(crate::specs::Flags::has_flag))]
    pub fn has(self, flag: EnqFlags) -> bool
        ensures { result ≡ has_flag (flag_bits self) (flag_bits flag) }
    {
        self.contains(flag)
    }
}

/// The flags of a dequeue ($DEQ). The bits are this project's own.
#[derive(Clone, Copy)]
pub struct DeqFlags(u16);

bitflag_items! {
    impl DeqFlags: u16 {
        /// Gives up all locks below a lock, or with lock 0 all locks of the caller.
        const DEQALL = 1;
        /// Cancels the request. A converting lock stays.
        const CANCEL = 2;
        /// A lock that holds PW or EX marks the value block invalid as it goes.
        const INVVALBLK = 4;
    }
}

impl Flags for DeqFlags {
    type Bits = u16;

    ghost exact = { ⊤ };

    ghost table = { (codes "DEQALL", deqall) ∷ (codes "CANCEL", cancel)
        ∷ (codes "INVVALBLK", invvalblk) ∷ [] };

    ghost set_of = { λ f. f.0 };

    fn flags<'a>() -> &'a [Flag<DeqFlags>] {
        DeqFlags::FLAGS
    }

    fn bits(&self) -> u16 {
        self.0
    }

    fn from_bits_retain(bits: u16) -> DeqFlags {
        DeqFlags(bits)
    }
}

impl DeqFlags {
    /// Whether this set contains the flag.
    #[tactic(auto, unfolding(crate::specs::Flags::has_flag))]
    pub fn has(self, flag: DeqFlags) -> bool
        ensures { result ≡ has_flag (deq_flag_bits self) (deq_flag_bits flag) }
    {
        self.contains(flag)
    }
}

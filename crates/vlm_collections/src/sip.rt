//! SipHash of words.

ghost use Rattle.std.specs.Prelude.{◌≡◌};
ghost use Rattle.vlm_collections.specs.Sip.{compressed, finished, initial, rounded};

/// The state of SipHash-1-3: one round for each word, and three at the end.
#[derive(Clone, Copy)]
pub(crate) struct SipState {
    v0: u64,
    v1: u64,
    v2: u64,
    v3: u64,
}

impl SipState {
    pub fn new(k0: u64, k1: u64) -> SipState
        ensures { result ≡ initial k0 k1 }
    {
        SipState {
            v0: k0 ^ 0x736f_6d65_7073_6575,
            v1: k1 ^ 0x646f_7261_6e64_6f6d,
            v2: k0 ^ 0x6c79_6765_6e65_7261,
            v3: k1 ^ 0x7465_6462_7974_6573,
        }
    }

    #[tactic(auto, unfolding(crate::specs::Sip::rounded))]
    fn round(&mut self)
        ensures { self.new ≡ rounded self.old }
    {
        self.v0 = self.v0.wrapping_add(self.v1);
        self.v2 = self.v2.wrapping_add(self.v3);
        self.v1 = self.v1.rotate_left(13) ^ self.v0;
        self.v3 = self.v3.rotate_left(16) ^ self.v2;
        self.v0 = self.v0.rotate_left(32);
        self.v2 = self.v2.wrapping_add(self.v1);
        self.v0 = self.v0.wrapping_add(self.v3);
        self.v1 = self.v1.rotate_left(17) ^ self.v2;
        self.v3 = self.v3.rotate_left(21) ^ self.v0;
        self.v2 = self.v2.rotate_left(32);
    }

    #[tactic(auto, unfolding(crate::specs::Sip::compressed))]
    pub fn compress(&mut self, word: u64)
        ensures { self.new ≡ compressed self.old word }
    {
        self.v3 ^= word;
        self.round();
        self.v0 ^= word;
    }

    #[tactic(auto, unfolding(crate::specs::Sip::finished))]
    pub fn finish(mut self) -> u32
        ensures { result ≡ finished self }
    {
        self.v2 ^= 0xFF;
        self.round();
        self.round();
        self.round();
        ((self.v0 ^ self.v1 ^ self.v2 ^ self.v3) & 0xFFFF_FFFF) as u32
    }
}

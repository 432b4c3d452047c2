//! The keyed words and flags that follow the places of a line.

ghost use Rattle.std.specs.Prelude.{◌≡◌, Ok, Err, MatchResult};
ghost use Rattle.vlm_lines.specs.Lines.{all_words, declare_word, deq_word, enq_word, node_word, once, request_word, set_word, words_of};

use crate::cuts::next_word;
use crate::faults::LineFault;
use crate::flags::{FlagWords, deq_flag, enq_flag};
use crate::locks::lock;
use crate::names::read_res;
use crate::numbers::{byte, long, short};
use crate::values::{tail_of, value_of};
use crate::words::{after_key, is_text};
use vlm_words::names::NameArg;
use vlm_words::steps::Which;

/// The values of the keyed words and flags so far. They come in any order, each once.
pub(crate) trait Keyed {
    ghost use Rattle.std.specs.Prelude.{ℕ, List, Result};
    ghost use Rattle.vlm_lines.specs.declared.faults.LineFault.{LineFault};

    ghost with_word: { Self → List ℕ → Result Self LineFault };

    /// Adds one more word. After a fault the values are of no use.
    fn add_word(&mut self, word: &[u8]) -> Result<(), LineFault>
        ensures { MatchResult result (λ _. with_word self.old word.now ≡ Ok self.new)
            (λ fault. with_word self.old word.now ≡ Err fault) };

    /// Adds each word.
    final fn add_words(&mut self, words: &[u8]) -> Result<(), LineFault>
        ensures { MatchResult result (λ _. all_words with_word self.old (words_of words.now) ≡ Ok self.new)
            (λ fault. all_words with_word self.old (words_of words.now) ≡ Err fault) }
    {
        let mut rest = words;
        while let Some((word, after)) = next_word(rest) {
            self.add_word(word)?;
            rest = after;
        }
        Ok(())
    }
}

#[derive(Clone, Copy, Default)]
pub(crate) struct DeclareWords {
    pub(crate) node: Option<u8>,
    pub(crate) group: Option<u16>,
    pub(crate) quota: Option<u16>,
    pub(crate) blocks: Option<u8>,
    pub(crate) syslck: bool,
}

impl Keyed for DeclareWords {
    ghost with_word = { declare_word };

    #[tactic(auto, unfolding(crate::specs::Lines::declare_word))]
    fn add_word(&mut self, word: &[u8]) -> Result<(), LineFault> {
        if let Some(digits) = after_key(b"node=", word) {
            self.node = once(self.node, byte(digits))?;
            Ok(())
        } else if let Some(digits) = after_key(b"group=", word) {
            self.group = once(self.group, short(digits))?;
            Ok(())
        } else if let Some(digits) = after_key(b"quota=", word) {
            self.quota = once(self.quota, short(digits))?;
            Ok(())
        } else if let Some(digits) = after_key(b"blocks=", word) {
            self.blocks = once(self.blocks, byte(digits))?;
            Ok(())
        } else if is_text(word, b"syslck") && !self.syslck {
            self.syslck = true;
            Ok(())
        } else {
            Err(LineFault::WrongWord)
        }
    }
}

/// The keyed words and flags of a cvt line. An enq line may have them too.
#[derive(Clone, Copy, Default)]
pub(crate) struct RequestWords {
    pub(crate) block: Option<u8>,
    // the completion routine
    pub(crate) ast: Option<u32>,
    // the blocking routine
    pub(crate) bast: Option<u32>,
    // the parameter of both routines
    pub(crate) param: Option<u32>,
    pub(crate) flags: FlagWords,
}

impl Keyed for RequestWords {
    ghost with_word = { request_word };

    #[tactic(auto, unfolding(crate::specs::Lines::request_word))]
    fn add_word(&mut self, word: &[u8]) -> Result<(), LineFault> {
        if let Some(digits) = after_key(b"block=", word) {
            self.block = once(self.block, byte(digits))?;
            Ok(())
        } else if let Some(digits) = after_key(b"ast=", word) {
            self.ast = once(self.ast, long(digits))?;
            Ok(())
        } else if let Some(digits) = after_key(b"bast=", word) {
            self.bast = once(self.bast, long(digits))?;
            Ok(())
        } else if let Some(digits) = after_key(b"param=", word) {
            self.param = once(self.param, long(digits))?;
            Ok(())
        } else {
            self.flags = self.flags.with(word, enq_flag(word))?;
            Ok(())
        }
    }
}

/// The keyed words and flags of an enq line.
#[derive(Clone, Copy, Default)]
pub(crate) struct EnqWords {
    // the name of the resource, before its check
    pub(crate) resource: Option<NameArg>,
    pub(crate) parent: Option<Which>,
    // the words that a cvt line has too
    pub(crate) request: RequestWords,
}

impl Keyed for EnqWords {
    ghost with_word = { enq_word };

    #[tactic(auto, unfolding(crate::specs::Lines::enq_word))]
    fn add_word(&mut self, word: &[u8]) -> Result<(), LineFault> {
        if let Some(name) = after_key(b"name=", word) {
            self.resource = once(self.resource, read_res(name).ok_or(LineFault::WrongWord))?;
            Ok(())
        } else if let Some(named) = after_key(b"parent=", word) {
            self.parent = once(self.parent, lock(named))?;
            Ok(())
        } else {
            self.request.add_word(word)
        }
    }
}

#[derive(Clone, Copy, Default)]
pub(crate) struct DeqWords {
    pub(crate) value: Option<[u8; 16]>,
    pub(crate) tail: Option<[u8; 48]>,
    pub(crate) flags: FlagWords,
}

impl Keyed for DeqWords {
    ghost with_word = { deq_word };

    #[tactic(auto, unfolding(crate::specs::Lines::deq_word))]
    fn add_word(&mut self, word: &[u8]) -> Result<(), LineFault> {
        if let Some(digits) = after_key(b"value=", word) {
            self.value = once(self.value, value_of(digits))?;
            Ok(())
        } else if let Some(digits) = after_key(b"tail=", word) {
            self.tail = once(self.tail, tail_of(digits))?;
            Ok(())
        } else {
            self.flags = self.flags.with(word, deq_flag(word))?;
            Ok(())
        }
    }
}

#[derive(Clone, Copy, Default)]
pub(crate) struct SetWords {
    pub(crate) block: Option<u8>,
    pub(crate) value: Option<[u8; 16]>,
    pub(crate) tail: Option<[u8; 48]>,
}

impl Keyed for SetWords {
    ghost with_word = { set_word };

    #[tactic(auto, unfolding(crate::specs::Lines::set_word))]
    fn add_word(&mut self, word: &[u8]) -> Result<(), LineFault> {
        if let Some(digits) = after_key(b"block=", word) {
            self.block = once(self.block, byte(digits))?;
            Ok(())
        } else if let Some(digits) = after_key(b"value=", word) {
            self.value = once(self.value, value_of(digits))?;
            Ok(())
        } else if let Some(digits) = after_key(b"tail=", word) {
            self.tail = once(self.tail, tail_of(digits))?;
            Ok(())
        } else {
            Err(LineFault::WrongWord)
        }
    }
}

/// The keyed word of a leave or search line.
#[derive(Clone, Copy, Default)]
pub(crate) struct NodeWords {
    pub(crate) node: Option<u8>,
}

impl Keyed for NodeWords {
    ghost with_word = { node_word };

    #[tactic(auto, unfolding(crate::specs::Lines::node_word))]
    fn add_word(&mut self, word: &[u8]) -> Result<(), LineFault> {
        if let Some(digits) = after_key(b"node=", word) {
            self.node = once(self.node, byte(digits))?;
            Ok(())
        } else {
            Err(LineFault::WrongWord)
        }
    }
}

/// The value of a word, if no word before it had the same key.
pub(crate) fn once<T: Copy>(
    earlier: Option<T>,
    read: Result<T, LineFault>,
) -> Result<Option<T>, LineFault>
    ensures { result ≡ once earlier read }
{
    if earlier.is_some() {
        return Err(LineFault::WrongWord);
    }
    Ok(Some(read?))
}

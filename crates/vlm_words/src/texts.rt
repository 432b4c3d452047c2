//! Short texts of a fixed capacity.

ghost use Rattle.std.specs.Cmp.Lexicographic.{pointwise};
ghost use Rattle.std.specs.Prelude.{◌≡◌, ◌≤◌, ◌+◌, length, nat_eq, take};
ghost use Rattle.vlm_words.specs.NameWords.{word_at};
ghost use Rattle.vlm_words.specs.Padding.{padded};

use std::hash::{Hash, Hasher};
use std::marker::Model;

/// At most `N` bytes, at most 255, kept in place. A copy copies all `N`.
#[derive(Clone, Copy)]
pub struct Text<const N: usize> {
    // the bytes, then zeros
    cells: [u8; N],
    // how many of the cells are bytes of the text
    len: u8,
}

impl<const N: usize> Model for Text<N> {
    ghost use Rattle.std.specs.Prelude.{◌≡◌, ℕ, ◌-◌, List, length, take};
    ghost use Rattle.vlm_words.specs.Padding.{IsPadded, padded, length-text};
    ghost use Rattle.std.proofs.Common.{sym};

    ghost Value = { List ℕ };

    ghost view = { λ t. take t.len t.cells };

    ghost invariant = { λ t. IsPadded N t.len t.cells };

    ghost inverse = { λ text. record { cells = padded N text; len = length text } };

    ghost inverse_ok = { λ t h i. record {
      cells = sym h.clear i;
      len = length-text h i;
    } };
}

impl<const N: usize> Text<N> {
    /// Keeps the first `N` bytes, or all if there are fewer.
    pub fn of(bytes: &[u8]) -> Self
        requires { N ≤ 255 }
        ensures { result ≡ take N bytes.now }
    {
        let len = bytes.len().min(N);
        let mut cells = [0; N];
        cells[..len].copy_from_slice(&bytes[..len]);
        Text {
            cells,
            len: len as u8,
        }
    }

    /// The number of bytes.
    pub fn len(&self) -> u8
        ensures { result ≡ length self.now }
    {
        self.len
    }

    /// The eight bytes from this index on as a word, low byte first. After the end of the text the bytes are zeros.
    pub fn word(&self, at: usize) -> u64
        requires { at + 8 ≤ N }
        ensures { result ≡ word_at (padded N self.now) at }
    {
        let cells = &self.cells;
        u64::from_le_bytes([
            cells[at],
            cells[at + 1],
            cells[at + 2],
            cells[at + 3],
            cells[at + 4],
            cells[at + 5],
            cells[at + 6],
            cells[at + 7],
        ])
    }

    /// The bytes without the padding.
    pub fn bytes(&self) -> &[u8]
        ensures { result.now ≡ self.now }
    {
        &self.cells[..usize::from(self.len)]
    }
}

impl Text<32> {
    /// The same text with a smaller capacity. It copies a fixed number of bytes, so it needs no loop.
    pub fn narrowed(&self) -> Text<31>
        requires { length self.now ≤ 31 }
        ensures { result ≡ self.now }
    {
        let mut cells = [0; 31];
        cells.copy_from_slice(&self.cells[..31]);
        Text {
            cells,
            len: self.len,
        }
    }
}

impl Text<31> {
    /// Whether the texts are equal. Four words cover all 31 cells, so the length of the text does not matter.
    pub fn is_same(&self, other: &Text<31>) -> bool
        ensures { result ≡ pointwise nat_eq self.now other.now }
    {
        self.len == other.len
            && self.word(0) == other.word(0)
            && self.word(8) == other.word(8)
            && self.word(16) == other.word(16)
            && self.word(23) == other.word(23)
    }
}

impl<const N: usize> PartialEq for Text<N> {
    ghost use Rattle.std.specs.Prelude.{nat_eq};
    ghost use Rattle.std.specs.Cmp.{partial_equiv_from_equiv};
    ghost use Rattle.std.specs.Cmp.Lexicographic.{pointwise, nat_list_eq_equiv};

    ghost eq = { pointwise nat_eq };

    ghost laws = { partial_equiv_from_equiv nat_list_eq_equiv };

    fn eq(&self, other: &Self) -> bool {
        self.bytes() == other.bytes()
    }
}

impl<const N: usize> Eq for Text<N> {
    ghost use Rattle.std.specs.Cmp.Lexicographic.{nat_list_eq_equiv};

    ghost laws = { nat_list_eq_equiv };
}

impl<const N: usize> Hash for Text<N> {
    ghost use Rattle.std.specs.Prelude.{[], ◌∷◌};
    ghost use Rattle.std.specs.Cmp.Lexicographic.{bytes_decides};
    ghost use Rattle.std.specs.Hash.{same_Alike};

    ghost hash_input = { λ text. text ∷ [] };

    ghost respects_eq = { (same_Alike (λ text. text ∷ []) bytes_decides).fed };

    // One write: a hasher then takes whole words at once.
    fn hash<H: Hasher>(&self, state: &mut H) {
        state.write(self.bytes());
    }
}

//! Cuts a line into words.

ghost use Rattle.std.specs.Prelude.{◌≡◌, ◌<◌, [], ◌∷◌, length, IfSome, MatchOption};
ghost use Rattle.vlm_lines.specs.Lines.{words_of, is_blank};

/// The first word, and the bytes after it.
pub(crate) fn next_word(bytes: &[u8]) -> Option<(&[u8], &[u8])>
    ensures words { MatchOption result (words_of bytes.now ≡ [])
        (λ p. words_of bytes.now ≡ p.0.now ∷ words_of p.1.now) }
    ensures shorter { IfSome result (λ p. length p.1.now < length bytes.now) }
{
    let start = bytes.iter().position(|byte| !is_blank_byte(*byte))?;
    let (_, rest) = bytes.split_at(start);
    let end = rest.iter().position(|byte| is_blank_byte(*byte));
    Some(rest.split_at(end.unwrap_or(rest.len())))
}

fn is_blank_byte(byte: u8) -> bool
    ensures { result ≡ is_blank byte }
{
    matches!(byte, b' ' | b'\t' | b'\r')
}

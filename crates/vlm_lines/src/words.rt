//! The words of processes and of modes.

ghost use Rattle.std.specs.Prelude.{◌≡◌, MatchOption, true, false};
ghost use Rattle.vlm_lines.specs.Lines.{after_key, has_key, is_text, mode_of, process_name};

use crate::faults::LineFault;
use crate::lines::ProcessName;
use vlm_words::modes::Mode;

/// A process's name: 1 to 15 letters, digits and underscores, the first a letter.
#[tactic(auto, unfolding(crate::specs::Lines::process_name))]
pub(crate) fn process_name(word: &[u8]) -> Result<ProcessName, LineFault>
    ensures { result ≡ process_name word.now }
{
    let all_named = word
        .iter()
        .all(|byte| byte.is_ascii_alphanumeric() || *byte == b'_');
    match word {
        [first, ..] if first.is_ascii_alphabetic() && word.len() <= 15 && all_named => {
            Ok(ProcessName::of(word))
        }
        _ => Err(LineFault::WrongWord),
    }
}

pub(crate) fn is_text(word: &[u8], text: &[u8]) -> bool
    ensures { result ≡ is_text word.now text.now }
{
    word == text
}

#[tactic(auto, unfolding(crate::specs::Lines::mode_of))]
pub(crate) fn mode(word: &[u8]) -> Result<Mode, LineFault>
    ensures { result ≡ mode_of word.now }
{
    if is_text(word, b"NL") {
        Ok(Mode::Nl)
    } else if is_text(word, b"CR") {
        Ok(Mode::Cr)
    } else if is_text(word, b"CW") {
        Ok(Mode::Cw)
    } else if is_text(word, b"PR") {
        Ok(Mode::Pr)
    } else if is_text(word, b"PW") {
        Ok(Mode::Pw)
    } else if is_text(word, b"EX") {
        Ok(Mode::Ex)
    } else {
        Err(LineFault::WrongWord)
    }
}

/// The part of the word after this key, if the word begins with it.
pub(crate) fn after_key<'a>(key: &[u8], word: &'a [u8]) -> Option<&'a [u8]>
    ensures { MatchOption result (has_key key.now word.now ≡ false)
        (λ rest. (has_key key.now word.now ≡ true) × (rest.now ≡ after_key key.now word.now)) }
{
    if word.starts_with(key) {
        Some(&word[key.len()..])
    } else {
        None
    }
}

//! Reads a line by its command.

ghost use Rattle.std.specs.Prelude.{◌≡◌, MatchResult};
ghost use Rattle.vlm_lines.specs.Lines.{block_alone, command_line, cvt_line, declaration_of, declare_line, deq_line, enq_line, line_read, name_alone, next_word, no_more, node_alone, set_line, words_of};

use crate::cuts;
use crate::faults::LineFault;
use crate::keyed::{DeclareWords, DeqWords, EnqWords, Keyed, NodeWords, RequestWords, SetWords};
use crate::lines::{Line, NO_PROCESS, ProcessName};
use crate::locks::lock;
use crate::numbers::byte;
use crate::words::{after_key, is_text, mode, process_name};
use vlm_words::steps::{Conversion, Declaration, Dequeue, NewRequest, ValueSetting, Which};

// The longest line, in bytes.
const LONGEST: usize = 255;

/// Reads a line of a script, without its line feed. The language is this project's own. It takes no memory.
///
/// The checks come in this order. `TooLong`: the line has more than 255 bytes. `UnknownCommand`. Then the first faulty
/// word from left to right: `WrongWord` if it has the wrong form for its place or comes twice, else `NumberOutOfRange`.
/// Last `WrongWord`, if a word is missing. The run finds the two faults of names.
#[tactic(auto, unfolding(crate::specs::Lines::line_read, crate::specs::Lines::line_of))]
pub fn read_line(bytes: &[u8]) -> Result<Line, LineFault>
    ensures { result ≡ line_read bytes.now }
{
    if bytes.len() > LONGEST {
        return Err(LineFault::TooLong);
    }
    let Some((word, rest)) = cuts::next_word(bytes) else {
        return Ok(Line::Empty);
    };
    if after_key(b"#", word).is_some() {
        return Ok(Line::Empty);
    }
    command_line(word, rest)
}

#[tactic(auto, unfolding(crate::specs::Lines::command_line))]
fn command_line(command: &[u8], rest: &[u8]) -> Result<Line, LineFault>
    ensures { result ≡ command_line command.now (words_of rest.now) }
{
    if is_text(command, b"declare") {
        declare_line(rest)
    } else if is_text(command, b"enq") {
        enq_line(rest)
    } else if is_text(command, b"cvt") {
        cvt_line(rest)
    } else if is_text(command, b"deq") {
        deq_line(rest)
    } else if is_text(command, b"set") {
        set_line(rest)
    } else if is_text(command, b"end") {
        Ok(Line::End(name_alone(rest)?))
    } else if is_text(command, b"leave") {
        Ok(Line::Leave(node_alone(rest)?))
    } else if is_text(command, b"search") {
        Ok(Line::Search(node_alone(rest)?))
    } else if is_text(command, b"ast") {
        Ok(Line::Ast(name_alone(rest)?))
    } else if is_text(command, b"block") {
        let (name, number) = block_alone(rest)?;
        Ok(Line::Block(name, number))
    } else if is_text(command, b"tail") {
        let (name, number) = block_alone(rest)?;
        Ok(Line::Tail(name, number))
    } else if is_text(command, b"show") {
        no_more(Line::Show, rest)
    } else if is_text(command, b"tails") {
        no_more(Line::Tails, rest)
    } else {
        Err(LineFault::UnknownCommand)
    }
}

// The words of a declare line: NAME node=N group=N quota=N blocks=N [syslck].
#[tactic(auto, unfolding(crate::specs::Lines::declare_line))]
fn declare_line(line: &[u8]) -> Result<Line, LineFault>
    ensures { result ≡ declare_line (words_of line.now) }
{
    let (first, rest) = needed_word(line)?;
    let name = process_name(first)?;
    let mut words = DeclareWords::default();
    words.add_words(rest)?;
    let declaration = declaration_of(words)?;
    Ok(Line::Declare(name, declaration))
}

#[tactic(auto, unfolding(crate::specs::Lines::declaration_of))]
fn declaration_of(words: DeclareWords) -> Result<Declaration, LineFault>
    ensures { result ≡ declaration_of words }
{
    let node = words.node.ok_or(LineFault::WrongWord)?;
    let group = words.group.ok_or(LineFault::WrongWord)?;
    let quota = words.quota.ok_or(LineFault::WrongWord)?;
    let blocks = words.blocks.ok_or(LineFault::WrongWord)?;
    Ok(Declaration {
        node,
        group,
        syslck: words.syslck,
        quota,
        blocks,
    })
}

// The words of an enq line: NAME MODE name=RES block=N [parent=LOCK] [ast=N] [bast=N] [param=N], and flags.
#[tactic(auto, unfolding(crate::specs::Lines::enq_line))]
fn enq_line(line: &[u8]) -> Result<Line, LineFault>
    ensures { result ≡ enq_line (words_of line.now) }
{
    let (first, after_name) = needed_word(line)?;
    let name = process_name(first)?;
    let (second, rest) = needed_word(after_name)?;
    let mode = mode(second)?;
    let mut words = EnqWords::default();
    words.add_words(rest)?;
    let resource = words.resource.ok_or(LineFault::WrongWord)?;
    let asked = words.request;
    let block = asked.block.ok_or(LineFault::WrongWord)?;
    let request = NewRequest {
        pid: NO_PROCESS,
        mode,
        name: resource,
        block,
        parent: words.parent.unwrap_or(Which::Id(0)),
        flags: asked.flags.flags(),
        ast: asked.ast,
        bast: asked.bast,
        param: asked.param.unwrap_or(0),
    };
    Ok(Line::Enq(name, request))
}

// The words of a cvt line: NAME LOCK MODE block=N [ast=N] [bast=N] [param=N], and flags.
#[tactic(auto, unfolding(crate::specs::Lines::cvt_line))]
fn cvt_line(line: &[u8]) -> Result<Line, LineFault>
    ensures { result ≡ cvt_line (words_of line.now) }
{
    let (first, after_name) = needed_word(line)?;
    let name = process_name(first)?;
    let (second, after_lock) = needed_word(after_name)?;
    let lock = lock(second)?;
    let (third, rest) = needed_word(after_lock)?;
    let mode = mode(third)?;
    let mut words = RequestWords::default();
    words.add_words(rest)?;
    let block = words.block.ok_or(LineFault::WrongWord)?;
    let conversion = Conversion {
        pid: NO_PROCESS,
        lock,
        mode,
        block,
        flags: words.flags.flags(),
        ast: words.ast,
        bast: words.bast,
        param: words.param.unwrap_or(0),
    };
    Ok(Line::Cvt(name, conversion))
}

// The words of a deq line: NAME LOCK [value=HEX] [tail=HEX], and flags.
#[tactic(auto, unfolding(crate::specs::Lines::deq_line))]
fn deq_line(line: &[u8]) -> Result<Line, LineFault>
    ensures { result ≡ deq_line (words_of line.now) }
{
    let (first, after_name) = needed_word(line)?;
    let name = process_name(first)?;
    let (second, rest) = needed_word(after_name)?;
    let lock = lock(second)?;
    let mut words = DeqWords::default();
    words.add_words(rest)?;
    let dequeue = Dequeue {
        pid: NO_PROCESS,
        lock,
        value: words.value,
        tail: words.tail,
        flags: words.flags.flags(),
    };
    Ok(Line::Deq(name, dequeue))
}

// The words of a set line: NAME block=N value=HEX [tail=HEX].
#[tactic(auto, unfolding(crate::specs::Lines::set_line))]
fn set_line(line: &[u8]) -> Result<Line, LineFault>
    ensures { result ≡ set_line (words_of line.now) }
{
    let (first, rest) = needed_word(line)?;
    let name = process_name(first)?;
    let mut words = SetWords::default();
    words.add_words(rest)?;
    let block = words.block.ok_or(LineFault::WrongWord)?;
    let value = words.value.ok_or(LineFault::WrongWord)?;
    let setting = ValueSetting {
        pid: NO_PROCESS,
        block,
        value,
        tail: words.tail,
    };
    Ok(Line::Set(name, setting))
}

// The word of a leave or search line: node=N.
#[tactic(auto, unfolding(crate::specs::Lines::node_alone))]
fn node_alone(line: &[u8]) -> Result<u8, LineFault>
    ensures { result ≡ node_alone (words_of line.now) }
{
    let mut words = NodeWords::default();
    words.add_words(line)?;
    words.node.ok_or(LineFault::WrongWord)
}

// The word of an end or ast line: NAME.
#[tactic(auto, unfolding(crate::specs::Lines::name_alone))]
fn name_alone(line: &[u8]) -> Result<ProcessName, LineFault>
    ensures { result ≡ name_alone (words_of line.now) }
{
    let (first, rest) = needed_word(line)?;
    let name = process_name(first)?;
    no_more(name, rest)
}

// The words of a block or tail line: NAME N.
#[tactic(auto, unfolding(crate::specs::Lines::block_alone))]
fn block_alone(line: &[u8]) -> Result<(ProcessName, u8), LineFault>
    ensures { result ≡ block_alone (words_of line.now) }
{
    let (first, after_name) = needed_word(line)?;
    let name = process_name(first)?;
    let (second, rest) = needed_word(after_name)?;
    let number = byte(second)?;
    no_more((name, number), rest)
}

fn needed_word(line: &[u8]) -> Result<(&[u8], &[u8]), LineFault>
    ensures { MatchResult result
        (λ p. next_word (words_of line.now) ≡ Ok (p.0.now, words_of p.1.now))
        (λ fault. next_word (words_of line.now) ≡ Err fault) }
{
    cuts::next_word(line).ok_or(LineFault::WrongWord)
}

// The value read, if no word follows it.
fn no_more<T: Copy>(read: T, rest: &[u8]) -> Result<T, LineFault>
    ensures { result ≡ no_more read (words_of rest.now) }
{
    if cuts::next_word(rest).is_some() {
        return Err(LineFault::WrongWord);
    }
    Ok(read)
}

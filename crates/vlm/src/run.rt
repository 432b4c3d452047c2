//! Runs the program by the words of its command line.

ghost use Rattle.std.specs.Prelude.{◌≡◌, ◌⊎◌, Err, map};
ghost use Rattle.clap.specs.Words.{kind_of};
ghost use Rattle.vlm.specs.Ends.{EndsAsAsked, EndsByError, FailsHelp, GivesHelp, PrintsEnd, PrintsFault, PrintsLine, PrintsNoRandomBytes, RunsScript, StartsRun, output_of, status_of};

use crate::arguments::{Task, chosen};
use crate::cluster::start_cluster;
use crate::watch::start_watch;
use clap::Error;
use clap::error::ErrorKind;
use std::alloc::Global;
use std::convert::AsStr;
use std::io::{Read, Write};
use std::random::RandomSource;
use std::sync::Wait;
use std::thread::Threads;
use std::time::Clock;
use vlm_script::{HashKeys, PlayFault, play, write_whole};

// The script ran, or help was asked for and given.
pub(crate) const DONE: u8 = 0;
// A line of the script has a fault.
const SCRIPT_FAULT: u8 = 1;
// The command line is refused.
pub(crate) const REFUSED: u8 = 2;
// The run failed for memory, random bytes, a stream, the script's length, or the hub.
pub(crate) const FAILED: u8 = 3;

/// Runs the program on its words, its own name first, and answers its exit status. 0: it is done, or has printed the
/// help that was asked for. 1: the script has a fault. 2: the command line is refused. 3: memory was refused, there
/// were no random bytes, no seat for a watcher or no answer, a read or write failed, or the script is too long. It
/// prints the fault on `faults`; if that fails, the status stays.
pub fn run_words<S: AsStr, R: Read, W: Write, F: Write>(
    rt: &(impl AllocGlobal + RandomSource + Threads + Wait + Clock + Copy + Send + 'static),
    words: &[S],
    reader: &mut R,
    writer: &mut W,
    faults: &mut F,
) -> u8
    ensures { EndsAsAsked (map S.text words.now) (R.remaining reader.old) (R.remaining reader.new)
        (output_of (W.contents writer.old) (F.contents faults.old))
        (output_of (W.contents writer.new) (F.contents faults.new)) result }
{
    let alloc = rt.alloc();
    match chosen(alloc, words) {
        Ok(Task::Play) => start_run(rt, reader, writer, faults),
        Ok(Task::Cluster(nodes)) => start_cluster(rt, nodes, reader, writer, faults),
        Ok(Task::Watch(subject)) => start_watch(rt, subject, reader, writer, faults),
        Err(error) => refused(alloc, &error, writer, faults),
    }
}

// Runs the script, if the system gives the bytes by which the indexes hash.
fn start_run<R: Read, W: Write, F: Write>(
    rt: &(impl AllocGlobal + RandomSource),
    reader: &mut R,
    writer: &mut W,
    faults: &mut F,
) -> u8
    ensures { StartsRun (R.remaining reader.old) (R.remaining reader.new)
        (output_of (W.contents writer.old) (F.contents faults.old))
        (output_of (W.contents writer.new) (F.contents faults.new)) result }
{
    match random_keys(rt) {
        Some(keys) => ended(&play(rt.alloc(), keys, reader, writer), faults),
        None => without_random_bytes(faults),
    }
}

/// The keys of the indexes, if the system gives random bytes.
pub(crate) fn random_keys(rt: &impl RandomSource) -> Option<HashKeys> {
    let mut bytes = [0; 16];
    match rt.fill_bytes(&mut bytes) {
        Ok(()) => Some(HashKeys::of(bytes)),
        Err(_) => None,
    }
}

/// The system gives no random bytes.
pub(crate) fn without_random_bytes<F: Write>(faults: &mut F) -> u8
    ensures status { result ≡ 3 }
    ensures faults { PrintsNoRandomBytes (F.contents faults.old) (F.contents faults.new) }
{
    refused_by(b"no random bytes\n", FAILED, faults)
}

/// Prints a line, and answers this exit status. A line that can't be printed changes no status.
pub(crate) fn refused_by<F: Write>(line: &[u8], status: u8, faults: &mut F) -> u8
    ensures status { result ≡ status }
    ensures faults { PrintsLine line.now (F.contents faults.old) (F.contents faults.new) }
{
    let _ = write_whole(faults, line);
    status
}

/// The exit status of a run that ended so. It prints the fault, if there is one.
pub(crate) fn ended<F: Write>(end: &Result<(), PlayFault>, faults: &mut F) -> u8
    ensures status { result ≡ status_of end.now }
    ensures faults { PrintsEnd end.now (F.contents faults.old) (F.contents faults.new) }
{
    match end {
        Ok(()) => DONE,
        Err(fault) => failed(fault, faults),
    }
}

/// Prints the fault's line, and answers the exit status. A fault that can't be
/// printed changes no status.
pub(crate) fn failed<F: Write>(fault: &PlayFault, faults: &mut F) -> u8
    ensures status { result ≡ status_of (Err fault.now) }
    ensures faults { PrintsFault fault.now (F.contents faults.old) (F.contents faults.new) }
{
    let _ = fault.write_line(faults);
    match fault {
        PlayFault::Line(_, _) => SCRIPT_FAULT,
        _ => FAILED,
    }
}

// Prints the help, or why the words are refused.
fn refused<W: Write, F: Write>(alloc: Global, error: &Error, writer: &mut W, faults: &mut F) -> u8
    ensures { EndsByError (kind_of error.now)
        (output_of (W.contents writer.old) (F.contents faults.old))
        (output_of (W.contents writer.new) (F.contents faults.new)) result }
{
    let kind = error.kind();
    if kind == ErrorKind::OutOfMemory {
        return failed(&PlayFault::Memory, faults);
    }
    let Ok(text) = format!(in alloc; "{error}") else {
        return failed(&PlayFault::Memory, faults);
    };
    match kind {
        ErrorKind::DisplayHelp | ErrorKind::DisplayVersion => help(text.as_bytes(), writer, faults),
        _ => {
            let _ = write_whole(faults, text.as_bytes());
            REFUSED
        }
    }
}

// Prints the help.
fn help<W: Write, F: Write>(text: &[u8], writer: &mut W, faults: &mut F) -> u8
    ensures { let old = output_of (W.contents writer.old) (F.contents faults.old) in
        let new = output_of (W.contents writer.new) (F.contents faults.new) in
        GivesHelp text.now old new result ⊎ FailsHelp text.now old new result }
{
    match write_whole(writer, text) {
        Ok(()) => DONE,
        Err(_) => failed(&PlayFault::Write, faults),
    }
}

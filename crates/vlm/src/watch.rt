//! Watches a resource while a script runs.

ghost use Rattle.std.specs.Prelude.{◌≡◌};
ghost use Rattle.vlm.specs.Ends.{PrintsWatchEnd, StartsNamedWatch, StartsWatch, output_of, watch_status_of};

use crate::arguments::Subject;
use crate::monitor::{WatchFault, watch_script};
use crate::run::{DONE, FAILED, REFUSED, failed, random_keys, refused_by, without_random_bytes};
use std::io::{Read, Write};
use std::random::RandomSource;
use std::sync::Wait;
use vlm_ports::RootKey;
use vlm_script::HashKeys;

/// Watches a resource while a script runs, if its name is one that a resource can have.
pub(crate) fn start_watch<R: Read, W: Write, F: Write>(
    rt: &(impl AllocGlobal + RandomSource + Wait),
    subject: Subject,
    reader: &mut R,
    writer: &mut W,
    faults: &mut F,
) -> u8
    ensures { StartsWatch subject.domain subject.name (R.remaining reader.old) (R.remaining reader.new)
        (output_of (W.contents writer.old) (F.contents faults.old))
        (output_of (W.contents writer.new) (F.contents faults.new)) result }
{
    let domain = subject.domain;
    match subject.name {
        Some(name) => start_named(rt, RootKey { domain, name }, reader, writer, faults),
        None => refused_by(b"wrong name\n", REFUSED, faults),
    }
}

// Watches the resource under this key while a script runs, if the system gives the bytes by which the indexes hash.
fn start_named<R: Read, W: Write, F: Write>(
    rt: &(impl AllocGlobal + RandomSource + Wait),
    key: RootKey,
    reader: &mut R,
    writer: &mut W,
    faults: &mut F,
) -> u8
    ensures { StartsNamedWatch key (R.remaining reader.old) (R.remaining reader.new)
        (output_of (W.contents writer.old) (F.contents faults.old))
        (output_of (W.contents writer.new) (F.contents faults.new)) result }
{
    match random_keys(rt) {
        Some(keys) => ended(&watch_script(rt, keys, key, reader, writer), faults),
        None => without_random_bytes(faults),
    }
}

// The exit status of a watch that ended so. It prints why, if it failed. A line that can't be printed changes no
// status.
fn ended<F: Write>(end: &Result<(), WatchFault>, faults: &mut F) -> u8
    ensures status { result ≡ watch_status_of end.now }
    ensures faults { PrintsWatchEnd end.now (F.contents faults.old) (F.contents faults.new) }
{
    match end {
        Ok(()) => DONE,
        Err(WatchFault::Play(fault)) => failed(fault, faults),
        Err(WatchFault::NoSeat) => refused_by(b"no seat\n", FAILED, faults),
        Err(WatchFault::NoAnswer) => refused_by(b"no answer\n", FAILED, faults),
    }
}

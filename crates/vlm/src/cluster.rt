//! Serves a script by several nodes.

ghost use Rattle.std.specs.Prelude.{◌≡◌, ◌<◌, ◌≤◌, IfOk, MatchResult, map, vec_len};
ghost use Rattle.vlm_cluster.specs.Reports.{IsParted};
ghost use Rattle.vlm_script.specs.Plays.{ConsumesAtMost};
ghost use Rattle.vlm_script.specs.Shares.{AreListed};
ghost use Rattle.vlm.specs.Ends.{StartsCluster, output_of};
ghost use Rattle.vlm.specs.Clusters.{IsClusterText, IsServedText, PrintsCluster, StopsCluster};

use crate::run::{ended, random_keys, without_random_bytes};
use crate::told::report_text;
use std::alloc::{AllocError, Global};
use std::io::{Read, Write};
use std::random::RandomSource;
use std::sync::Wait;
use std::thread::Threads;
use std::time::Clock;
use vlm_cluster::{OpenGate, Report, serve_lists_over};
use vlm_core::Core;
use vlm_script::{HashKeys, PlayFault, read_lists, write_whole};
use vlm_words::steps::Step;

// The journal is cut when it has this many entries.
const PART: usize = 65_536;

/// Serves the script by this many nodes, if the system gives the random keys of the indexes.
pub(crate) fn start_cluster<R: Read, W: Write, F: Write>(
    rt: &(impl AllocGlobal + RandomSource + Threads + Wait + Clock + Copy + Send + 'static),
    nodes: u8,
    reader: &mut R,
    writer: &mut W,
    faults: &mut F,
) -> u8
    requires { (1 ≤ nodes) × (nodes ≤ 8) }
    ensures { StartsCluster nodes (R.remaining reader.old) (R.remaining reader.new)
        (output_of (W.contents writer.old) (F.contents faults.old))
        (output_of (W.contents writer.new) (F.contents faults.new)) result }
{
    match random_keys(rt) {
        Some(keys) => ended(&serve_script(rt, keys, nodes, reader, writer), faults),
        None => without_random_bytes(faults),
    }
}

// Serves the script, and then writes the items of each node. Memory grows with the script and with the state of the
// machine.
fn serve_script<R: Read, W: Write>(
    rt: &(impl AllocGlobal + Threads + Wait + Clock + Copy + Send + 'static),
    keys: HashKeys,
    nodes: u8,
    reader: &mut R,
    writer: &mut W,
) -> Result<(), PlayFault>
    requires { (1 ≤ nodes) × (nodes ≤ 8) }
    ensures printed { PrintsCluster nodes (R.remaining reader.old) result
        (W.contents writer.old) (W.contents writer.new) }
    ensures reads { ConsumesAtMost 16777217 (R.remaining reader.old) (R.remaining reader.new) }
{
    let text = cluster_text(rt, keys, nodes, reader)?;
    write_whole(writer, &text)
}

// The text of the items of each node.
fn cluster_text<R: Read>(
    rt: &(impl AllocGlobal + Threads + Wait + Clock + Copy + Send + 'static),
    keys: HashKeys,
    nodes: u8,
    reader: &mut R,
) -> Result<Vec<u8>, PlayFault>
    requires { (1 ≤ nodes) × (nodes ≤ 8) }
    ensures text { MatchResult result
        (λ text. IsClusterText nodes (R.remaining reader.old) text.items)
        (λ fault. StopsCluster nodes (R.remaining reader.old) fault) }
    ensures reads { ConsumesAtMost 16777217 (R.remaining reader.old) (R.remaining reader.new) }
{
    let alloc = rt.alloc();
    let lists = read_lists(alloc, keys, nodes, reader)?;
    let report = serve_lists(rt, keys, lists)?;
    Ok(report_text(alloc, &report)?)
}

// Serves the whole list of each node.
fn serve_lists(
    rt: &(impl AllocGlobal + Threads + Wait + Clock + Copy + Send + 'static),
    keys: HashKeys,
    lists: Vec<Vec<Step>>,
) -> Result<Report, AllocError>
    requires count { (0 < vec_len lists) × (vec_len lists ≤ 8) }
    requires listed { AreListed (map (λ l. l.items) lists.items) }
    ensures served { IfOk result (IsServedText lists.items) }
    ensures parts { IfOk result (λ report. IsParted 65536 (vec_len lists) report) }
{
    let alloc = rt.alloc();
    let gates = Vec::from_elem(alloc, OpenGate, lists.len())?;
    let core = Core::with_keys(alloc, keys);
    match serve_lists_over(rt, alloc, core, gates, lists, PART) {
        Ok(report) => Ok(report),
        Err(_) => Err(AllocError),
    }
}

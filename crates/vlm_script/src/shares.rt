//! Reads a script for several nodes into a list of steps for each node.

ghost use Rattle.std.specs.Prelude.{◌≡◌, ◌<◌, ◌≤◌, length, map, IfErr, IfOk, IfSome, IsOkAnd, MatchResult, Ok};
ghost use Rattle.vlm_lines.specs.Lines.{lines_of};
ghost use Rattle.vlm_script.specs.Plays.{ConsumesAtMost};
ghost use Rattle.vlm_script.specs.Shares.{AreListed, AreListsOf, StopsListsOf, no_shares, shared_out};
ghost use Rattle.vlm_script.specs.Sharing.{StopsShareLines};

use crate::cuts::next_line;
use crate::faults::PlayFault;
use crate::node_lists::Sharing;
use crate::streams::read_whole;
use std::alloc::Global;
use std::io::Read;
use vlm_core::HashKeys;
use vlm_words::steps::Step;

/// Reads a script for the nodes 1 to `nodes` whole, and shares its steps out to lists in the script's order: one list
/// for each node, node 1 first.
///
/// A declare line is a step of its node. It binds its name to a process, whether or not the declaration will be
/// accepted: the ID is 65,536 times the node plus the number of the line among the node's declare lines,
/// from 1. A set, enq, cvt, deq or end line is a step of the process of its name, in the list of that process's node. A
/// leave or search line is a step of its node.
///
/// A script has at most 16,777,216 bytes. The fault is `Long` as soon as one more byte is read, `Read` if a read fails,
/// and `Memory` if memory is refused. When the whole script is read, its lines are checked in order. The first line
/// with a fault ends the call with `Line` and its number, from 1. The faults of its bytes come first. The next is
/// `NumberOutOfRange`: a declare, leave or search line names a node that does not exist, or a declare line names a node
/// with 65,535 declare lines. Then comes `NameUsed`: the name of a declare line is bound. A set, enq, cvt, deq or end
/// line whose name is not bound is `UnknownName`. An ast, block, tail, show or tails line is `UnknownCommand`, whatever
/// its name. `Write` never comes.
///
/// Memory and time grow with the bytes of the script. Names that an attacker chooses make no script slow if the keys
/// are secret.
pub fn read_lists<R: Read>(
    alloc: Global,
    keys: HashKeys,
    nodes: u8,
    reader: &mut R,
) -> Result<Vec<Vec<Step>>, PlayFault>
    requires { (0 < nodes) × (nodes ≤ 8) }

    // If the bytes of the reader are known, so is the result.
    ensures shared { IfSome (R.remaining reader.old) (λ input. MatchResult result
        (λ lists. AreListsOf nodes input (map (λ l. l.items) lists.items))
        (λ fault. StopsListsOf nodes input fault)) }

    // Whatever the reader gives:
    ensures count { IfOk result (λ lists. length lists.items ≡ nodes) }
    ensures listed { IfOk result (λ lists. AreListed (map (λ l. l.items) lists.items)) }
    ensures no_write { IfErr result (λ fault. ¬ (fault ≡ PlayFault.Write)) }
    ensures reads { ConsumesAtMost 16777217 (R.remaining reader.old) (R.remaining reader.new) }
{
    let input = read_whole(alloc, reader)?;
    share_script(alloc, keys, nodes, &input)
}

fn share_script(
    alloc: Global,
    keys: HashKeys,
    nodes: u8,
    input: &[u8],
) -> Result<Vec<Vec<Step>>, PlayFault>
    ensures shared { let shared = shared_out nodes (no_shares nodes) 0 (lines_of input.now) in
        MatchResult result
        (λ lists. IsOkAnd shared (λ s. s.lists ≡ map (λ l. l.items) lists.items))
        (λ fault. StopsShareLines shared fault) }
    ensures count { IfOk result (λ lists. length lists.items ≡ nodes) }
    ensures listed { IfOk result (λ lists. AreListed (map (λ l. l.items) lists.items)) }
{
    let mut sharing = Sharing::new(alloc, keys, nodes)?;
    share_lines(&mut sharing, input)?;
    Ok(sharing.into_lists())
}

// Shares out the lines of a script, after those that are shared already.
fn share_lines(sharing: &mut Sharing, input: &[u8]) -> Result<(), PlayFault>
    ensures shared { let nodes = length sharing.old.lists in
        let shared = shared_out nodes sharing.old 0 (lines_of input.now) in
        MatchResult result (λ _. shared ≡ Ok sharing.new) (λ fault. StopsShareLines shared fault) }
    ensures count { length sharing.new.lists ≡ length sharing.old.lists }
{
    let mut rest = input;
    let mut count = 0;
    while let Some((line, after)) = next_line(rest) {
        if let Err(stop) = sharing.share(line) {
            return Err(stop.at(count + 1));
        }
        rest = after;
        count += 1;
    }
    Ok(())
}

//! Reads a script for several nodes into its steps, in the script's order.

ghost use Rattle.std.specs.Prelude.{◌≡◌, ◌<◌, ◌≤◌, ◌++◌, length, IfErr, IfOk, IfSome, MatchResult, OnOk, Ok};
ghost use Rattle.std.specs.List.{All};
ghost use Rattle.vlm_lines.specs.Lines.{line_read, lines_of};
ghost use Rattle.vlm_script.specs.Plays.{ConsumesAtMost};
ghost use Rattle.vlm_script.specs.Shares.{line_shared, no_shares};
ghost use Rattle.vlm_script.specs.Sharing.{StopsShareBytes, StopsShareLines};
ghost use Rattle.vlm_script.specs.Steps.{AreStepsOf, IsPostable, StopsStepsOf, numbered, read_step, steps_out};

use crate::cuts::next_line;
use crate::faults::PlayFault;
use crate::node_lists::Sharing;
use crate::stops::Stop;
use crate::streams::read_whole;
use std::alloc::Global;
use std::io::Read;
use vlm_core::HashKeys;
use vlm_words::steps::Step;

/// A step of a script, and its line.
#[derive(Clone, Copy)]
pub struct ScriptStep {
    /// The line's number, from 1.
    pub line: usize,
    /// The step.
    pub step: Step,
}

/// Reads a script for the nodes 1 to `nodes` whole, and gives its steps in the script's order, each with the number of
/// its line. A blank line or a comment gives none.
///
/// The steps and the faults are the same as in `read_lists`, in the same order. `Write` never comes.
///
/// Memory and time grow with the bytes of the script. Names that an attacker chooses make no script slow if the keys
/// are secret.
pub fn read_steps<R: Read>(
    alloc: Global,
    keys: HashKeys,
    nodes: u8,
    reader: &mut R,
) -> Result<Vec<ScriptStep>, PlayFault>
    requires { (0 < nodes) × (nodes ≤ 8) }

    // If the bytes of the reader are known, so is the result.
    ensures steps { IfSome (R.remaining reader.old) (λ input. MatchResult result
        (λ got. AreStepsOf nodes input got.items)
        (λ fault. StopsStepsOf nodes input fault)) }

    // Whatever the reader gives:
    ensures postable { IfOk result (λ got. All (λ s. IsPostable nodes s.step) got.items) }
    ensures no_write { IfErr result (λ fault. ¬ (fault ≡ PlayFault.Write)) }
    ensures reads { ConsumesAtMost 16777217 (R.remaining reader.old) (R.remaining reader.new) }
{
    let input = read_whole(alloc, reader)?;
    script_steps(alloc, keys, nodes, &input)
}

fn script_steps(
    alloc: Global,
    keys: HashKeys,
    nodes: u8,
    input: &[u8],
) -> Result<Vec<ScriptStep>, PlayFault>
    ensures steps { let steps = steps_out nodes (no_shares nodes) 0 (lines_of input.now) in
        MatchResult result
        (λ got. steps ≡ Ok got.items)
        (λ fault. StopsShareLines steps fault) }
    ensures postable { IfOk result (λ got. All (λ s. IsPostable nodes s.step) got.items) }
{
    let mut sharing = Sharing::new(alloc, keys, nodes)?;
    collect_steps(alloc, &mut sharing, input)
}

// Shares out the lines of a script, after those that are shared already, and collects their steps.
fn collect_steps(
    alloc: Global,
    sharing: &mut Sharing,
    input: &[u8],
) -> Result<Vec<ScriptStep>, PlayFault>
    ensures steps { let nodes = length sharing.old.lists in
        let steps = steps_out nodes sharing.old 0 (lines_of input.now) in
        MatchResult result
        (λ got. steps ≡ Ok got.items)
        (λ fault. StopsShareLines steps fault) }
    ensures postable { IfOk result (λ got.
        All (λ s. IsPostable (length sharing.old.lists) s.step) got.items) }
{
    let mut steps = Vec::new(alloc);
    let mut rest = input;
    let mut count = 0;
    while let Some((line, after)) = next_line(rest) {
        if let Err(stop) = collect_step(sharing, line, count + 1, &mut steps) {
            return Err(stop.at(count + 1));
        }
        rest = after;
        count += 1;
    }
    Ok(steps)
}

// Shares out the line of this number, and appends its step, if it has one.
fn collect_step(
    sharing: &mut Sharing,
    line: &[u8],
    number: usize,
    steps: &mut Vec<ScriptStep>,
) -> Result<(), Stop>
    ensures shared { MatchResult result
        (λ _. line_shared (length sharing.old.lists) sharing.old (line_read line.now)
        ≡ Ok sharing.new)
        (λ stop. StopsShareBytes sharing.old line.now stop) }
    ensures collected { OnOk result (steps.new.items
        ≡ steps.old.items ++ numbered number (read_step sharing.old (line_read line.now))) }
    ensures postable { OnOk result
        (IfSome (read_step sharing.old (line_read line.now))
        (IsPostable (length sharing.old.lists))) }
    ensures count { length sharing.new.lists ≡ length sharing.old.lists }
{
    steps.reserve(1)?;
    if let Some(step) = sharing.share(line)? {
        steps.push_reserved(ScriptStep { line: number, step });
    }
    Ok(())
}

//! The steps of a script, and the line that is printed after each.

ghost use Rattle.std.specs.Prelude.{◌≡◌, []};
ghost use Rattle.vlm_script.specs.Plays.{ConsumesAtMost};
ghost use Rattle.vlm.specs.Watches.{EndsWatched, PrintsWatch};

use crate::monitor::ends::WatchFault;
use crate::monitor::watched::{ALL_NODES, MonitoredHub};
use std::alloc::Global;
use std::io::{Read, Write};
use std::sync::Wait;
use vlm_ports::RootKey;
use vlm_script::{HashKeys, ScriptStep, read_steps, write_whole};

/// Makes the steps of a script, and then writes a line for each: the row of the resource after the
/// step. Memory grows with the script, with what its steps need and with the lines.
pub fn watch_script<R: Read, W: Write>(
    rt: &(impl AllocGlobal + Wait),
    keys: HashKeys,
    key: RootKey,
    reader: &mut R,
    writer: &mut W,
) -> Result<(), WatchFault>
    ensures printed { PrintsWatch key (R.remaining reader.old) result
        (W.contents writer.old) (W.contents writer.new) }
    ensures reads { ConsumesAtMost 16777217 (R.remaining reader.old) (R.remaining reader.new) }
{
    let alloc = rt.alloc();
    let steps = read_steps(alloc, keys, ALL_NODES, reader)?;
    let mut text = Vec::new(alloc);
    let end = watch_steps(rt, keys, key, &steps, &mut text);
    write_whole(writer, &text)?;
    end
}

// Makes these steps on a new hub, and adds the line of the row after each step to the text.
fn watch_steps(
    rt: &(impl AllocGlobal + Wait),
    keys: HashKeys,
    key: RootKey,
    steps: &[ScriptStep],
    text: &mut Vec<u8>,
) -> Result<(), WatchFault>
    requires { text.old.items ≡ [] }
    ensures { EndsWatched key steps.now result text.new.items }
{
    let mut watched = match MonitoredHub::open(rt, rt.alloc(), keys, &key) {
        Ok(watched) => watched,
        Err(fault) => return Err(fault),
    };
    let end = watched.make_all(rt, rt.alloc(), steps, text);
    watched.finish(rt);
    end
}

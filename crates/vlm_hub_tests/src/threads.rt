//! The ports of a pair in threads of their own, beside its hub in the caller's.

ghost use Rattle.std.specs.Prelude.{◌≡◌, IfOk};
ghost use Rattle.vlm_ports.specs.Hubs.{rings};
ghost use Rattle.vlm_ports.specs.Ports.{identity};
ghost use Rattle.vlm_ports.specs.Watched.{board};

use crate::pair::Pair;
use std::alloc::AllocError;
use std::snapshot::Snapshot;
use std::sync::Wait;
use std::thread;
use std::thread::{Promise, PromisedHandle, Threads};
use vlm_ports::{Hub, Port, Turn};
use vlm_words::steps::Step;

/// A port that was given to a thread.
#[derive(Drop)]
struct Given {
    port: Snapshot<Port>,
}

// What the thread gives back is that port.
impl Promise<Port> for Given {
    ghost kept_by = { λ p r. identity r ≡ identity p.port.value };
}

impl Pair {
    /// Has each port post this many searches, and take as many items, in a thread of its own, while the hub makes turns
    /// in this one. Then the threads give the ports back. If a thread could not be started, it is refused: no thread
    /// runs any more, and the pair is gone.
    pub fn search_in_threads<R: Threads + Wait + Copy + Send + 'static>(
        self,
        rt: &R,
        times: usize,
    ) -> Result<Pair, AllocError> {
        let Pair {
            mut hub,
            first,
            second,
        } = self;
        let Ok(one) = start(rt, first, times) else {
            hub.close();
            return Err(AllocError);
        };
        let Ok(two) = start(rt, second, times) else {
            serve(rt, &mut hub, times);
            one.join(rt);
            hub.close();
            return Err(AllocError);
        };
        serve(rt, &mut hub, times.saturating_mul(2));
        let (first, second) = (one.join(rt), two.join(rt));
        Ok(Pair { hub, first, second })
    }
}

// Starts a port's thread.
fn start<R: Threads + Wait + Copy + Send + 'static>(
    rt: &R,
    port: Port,
    times: usize,
) -> Result<PromisedHandle<Port, Given>, AllocError>
    ensures { IfOk result (λ h. identity h.promise.port.value ≡ identity port) }
{
    let given = Given {
        port: Snapshot::of(&port),
    };
    let handle = *rt;
    let started = thread::spawn_with(
        rt,
        given,
        move || -> Port
            ensures { identity result ≡ identity port }
        { search(&handle, port, times) },
    )?;
    Ok(started)
}

// Posts the searches, takes as many items, and gives the port back.
fn search(rt: &impl Wait, port: Port, times: usize) -> Port
    ensures { identity result ≡ identity port }
{
    let mut port = port;
    let step = Step::Search(port.node());
    let (mut posted, mut taken) = (0usize, 0usize);
    for _ in rt.forever() {
        if taken >= times {
            return port;
        }
        if posted < times && port.may_post(&step) && port.post(step).is_ok() {
            posted += 1;
        }
        if port.take().is_some() {
            taken += 1;
        }
        thread::yield_now();
    }
    unreachable!()
}

// Has the hub make this many entries.
fn serve(rt: &impl Wait, hub: &mut Hub, entries: usize)
    ensures rings { rings hub.new ≡ rings hub.old }
    ensures board { board hub.new ≡ board hub.old }
{
    for _ in rt.forever() {
        if hub.journal().len() >= entries {
            return;
        }
        if hub.turn() == Turn::Idle {
            thread::yield_now();
        }
    }
    unreachable!()
}

//! Lists of steps that come from anywhere: they are looked at before they are served.

ghost use Rattle.std.specs.Prelude.{◌≤◌, ◌<◌, length, IsTrue};
ghost use Rattle.vlm_cluster.specs.Posts.{AreListsOfPosts};

use std::alloc::Global;
use std::sync::Wait;
use std::thread::Threads;
use std::time::Clock;
use vlm_cluster::{Fault, Gate, Report, posts_of, serve_lists};
use vlm_words::steps::Step;

/// Whether lists can be served: there are 1 to 8, and each node, from 1 on, may post its list.
pub fn may_serve(lists: &[Vec<Step>]) -> bool
    ensures few { IsTrue result → (0 < length lists.now) × (length lists.now ≤ 8) }
    ensures posts { IsTrue result → AreListsOfPosts lists.now }
{
    if lists.is_empty() || lists.len() > 8 {
        return false;
    }
    for at in 0..lists.len() {
        if !posts_of(at as u8 + 1, lists[at].as_slice()) {
            return false;
        }
    }
    true
}

/// Serves lists, each as its gate says, in parts of at least this many entries. `None` if they can't be served, or
/// there are not as many gates.
pub fn serve<R: Threads + Wait + Clock + Copy + Send + 'static, G: Gate + Send + 'static>(
    rt: &R,
    alloc: Global,
    gates: Vec<G>,
    lists: Vec<Vec<Step>>,
    every: usize,
) -> Option<Result<Report, Fault>> {
    if every == 0 || gates.len() != lists.len() || !may_serve(lists.as_slice()) {
        return None;
    }
    Some(serve_lists(rt, alloc, gates, lists, every))
}

//! The steps that a node may post.

ghost use Rattle.std.specs.Prelude.{◌≡◌, ◌↔◌, IsTrue};
ghost use Rattle.vlm_journal.specs.Journals.{IsPostOf, is_post_of};

use vlm_words::steps::Step;

/// Whether a node may post the step: it is a step of that node, and not a take.
pub fn is_post_of(node: u8, step: &Step) -> bool
    ensures decided { result ≡ is_post_of node step.now }
    ensures holds { IsTrue result ↔ IsPostOf node step.now }
{
    match step {
        Step::Take(_) => false,
        _ => step.node() == u16::from(node),
    }
}

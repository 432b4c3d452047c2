//! The steps that a node may post.

ghost use Rattle.std.specs.Prelude.{◌≡◌};
ghost use Rattle.vlm_words.specs.declared.steps.Step.TheVariants.{Leave};
ghost use Rattle.vlm_journal.specs.Journals.{IsPostOf};
ghost use Rattle.vlm_ports.specs.Posts.{on_behalf};

use vlm_journal::posts::is_post_of;
use vlm_words::steps::Step;

/// The step, if the node may post it; else the departure of the node.
pub(crate) fn on_behalf<'a>(node: u8, step: &'a Step, departure: &'a Step) -> &'a Step
    requires { departure.now ≡ Leave node }
    ensures same { result.now ≡ on_behalf node step.now }
    ensures post { IsPostOf node result.now }
{
    if is_post_of(node, step) {
        step
    } else {
        departure
    }
}

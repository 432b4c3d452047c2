//! What the calls of a port do: they post steps and take items.

ghost use Rattle.std.specs.Prelude.{◌≡◌};
ghost use Rattle.vlm_words.specs.declared.steps.Step.TheVariants.{Leave, Search};
ghost use Rattle.vlm_capi.specs.Posts.{HasItemsCounted, HasPosted, HasTaken, post_status};

use crate::replies::status;
use vlm_ports::{Item, Port};
use vlm_words::conditions::Cond;
use vlm_words::steps::Step;

// VLM_FULL of include/vlm_hub.h. No condition has this number.
const FULL: u32 = 256;

/// What came of a post.
#[derive(Clone, Copy)]
pub enum PostEnd {
    /// The step is posted.
    Posted,
    /// The port knows no free place.
    Full,
    /// The step is not one of the port's node.
    OfAnotherNode,
}

/// Posts a step, if it is one of the port's node and the port knows a free place.
pub(crate) fn post_step(port: &mut Port, step: Step) -> PostEnd
    ensures { HasPosted port.old step result port.new }
{
    if !port.may_post(&step) {
        return PostEnd::OfAnotherNode;
    }
    match port.post(step) {
        Ok(()) => PostEnd::Posted,
        Err(_) => PostEnd::Full,
    }
}

pub(crate) fn post_search(port: &mut Port) -> PostEnd
    ensures { HasPosted port.old (Search port.old.node) result port.new }
{
    post_step(port, Step::Search(port.node()))
}

pub(crate) fn post_bye(port: &mut Port) -> PostEnd
    ensures { HasPosted port.old (Leave port.old.node) result port.new }
{
    post_step(port, Step::Leave(port.node()))
}

pub(crate) fn take_item(port: &mut Port) -> Option<Item>
    ensures { HasTaken port.old result port.new }
{
    port.take()
}

pub(crate) fn count_items(port: &mut Port) -> usize
    ensures { HasItemsCounted port.old result port.new }
{
    port.items_waiting()
}

/// What a call answers of a post. Without a port there was none.
pub(crate) fn post_status(end: Option<PostEnd>) -> u32
    ensures { result ≡ post_status end }
{
    match end {
        Some(PostEnd::Posted) => status(Cond::Normal),
        Some(PostEnd::Full) => FULL,
        Some(PostEnd::OfAnotherNode) | None => status(Cond::Badparam),
    }
}

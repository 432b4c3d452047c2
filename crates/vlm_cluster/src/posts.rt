//! Which steps a node may post.

ghost use Rattle.std.specs.Prelude.{◌↔◌, IsTrue};
ghost use Rattle.vlm_cluster.specs.Posts.{ArePostsOf};

use vlm_journal::posts::is_post_of;
use vlm_words::steps::Step;

/// Returns whether the node may post each step of the list: a step of that node, and not a take. It allocates nothing,
/// and reads the list once.
pub fn posts_of(node: u8, list: &[Step]) -> bool
    ensures { IsTrue result ↔ ArePostsOf node list.now }
{
    list.iter().all(|step| is_post_of(node, step))
}

//! Laws that hold at each place of every journal. The contract of each function is the law, and its
//! body calls the laws that this one rests on.

ghost use Rattle.std.specs.Prelude.{List};
ghost use Rattle.vlm_words.specs.State.{State};
ghost use Rattle.vlm_journal.specs.declared.entries.Entry.{Entry};
ghost use Rattle.vlm_journal.specs.Journals.{Journal};
ghost use Rattle.vlm_cluster.specs.Headline.{GrantsKeepOrder, ModesStayCompatible, RequestsEndOnce};

use vlm_journal::laws::{law_join, law_journal};
use vlm_model::laws::{
    law_each_request_ends_once, law_grants_follow_queue_order, law_held_modes_are_compatible,
};

/// In each resource the held modes of any two locks are compatible.
pub(crate) fn law_modes_stay_compatible()
    ensures { (entries : List Entry) (last : State)
        → Journal entries last → ModesStayCompatible entries last }
{
    law_join();
    law_journal();
    law_held_modes_are_compatible();
}

/// Each accepted request is still wanted and has not ended, or has ended exactly once.
pub(crate) fn law_requests_end_once()
    ensures { (entries : List Entry) (last : State)
        → Journal entries last → RequestsEndOnce entries last }
{
    law_join();
    law_journal();
    law_each_request_ends_once();
}

/// Each step that is not refused grants in queue order.
pub(crate) fn law_grants_keep_order()
    ensures { (entries : List Entry) (last : State)
        → Journal entries last → GrantsKeepOrder entries last }
{
    law_join();
    law_journal();
    law_grants_follow_queue_order();
}

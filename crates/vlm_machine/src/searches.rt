//! The step that searches for a deadlock.

ghost use Rattle.std.specs.Prelude.{◌≡◌, Some};
ghost use Rattle.vlm_model.specs.Search.{search_change};
ghost use Rattle.vlm_model.specs.Stepped.{Outcome};
ghost use Rattle.vlm_store.specs.Records.{HasResource};
ghost use Rattle.vlm_locks.specs.Rest.{OthersStay};
ghost use Rattle.vlm_locks.specs.Standing.{IsLocated};
ghost use Rattle.vlm_cycle.specs.Marking.{KeepsRoom};
ghost use Rattle.vlm_machine.specs.Between.{IsBetweenSteps};
ghost use Rattle.vlm_machine.specs.Machine.{plain_state};
ghost use Rattle.vlm_machine.specs.Notes.{HasRoomToMark};

use crate::records::Machine;
use vlm_cycle::{Scratch, victim};
use vlm_locks::{LocatedLock, Withdrawal, withdraw};
use vlm_words::steps::{Answer, Step};

impl Machine {
    /// Searches for a deadlock, ends the victim's request, and sweeps its resource. It takes no memory.
    // Kept out of line: inlined, it would cost the other steps registers.
    #[inline(never)]
    pub(crate) fn search(&mut self, scratch: &mut Scratch, node: u8) -> Answer
        requires between { IsBetweenSteps (plain_state self.old) }
        requires marks { HasRoomToMark scratch.old self.old }
        ensures outcome { Outcome (plain_state self.old) (Step.Search node)
            (plain_state self.new) result }
        ensures kept { KeepsRoom scratch.old scratch.new }
    {
        if let Err(refusal) = self.check_node(node) {
            return Answer::Plain(refusal);
        }
        match victim(&self.store, scratch) {
            Some(located) => {
                self.end_victim(&located);
                self.sweep(located.res);
                Answer::Victim(Some(located.row.lkid()))
            }
            None => Answer::Victim(None),
        }
    }

    // The change: the victim's request ends, and a lock that waits goes with it.
    #[tactic(auto, unfolding(vlm_model::specs::Search::search_change))]
    fn end_victim(&mut self, located: &LocatedLock)
        requires located { IsLocated located.now self.old.records }
        requires between { IsBetweenSteps (plain_state self.old) }
        ensures change { plain_state self.new
            ≡ search_change (plain_state self.old) (Some located.now.row) }
        ensures others { OthersStay located.now.res self.old.records self.new.records }
        ensures there { HasResource located.now.res self.new.records }
    {
        let withdrawal = Withdrawal::victim(located.row.lkid());
        withdraw(&mut self.store, located, &withdrawal);
    }
}

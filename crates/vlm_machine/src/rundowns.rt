//! The steps that end processes: the rundown of a process, and the departure of a node with all its processes.

ghost use Rattle.std.specs.Prelude.{◌≡◌, ◌≤◌, []};
ghost use Rattle.vlm_model.specs.Rundown.{is_ended_by, nodes_after_departure, state_after_rundown};
ghost use Rattle.vlm_words.specs.Steps.{is_of_node};
ghost use Rattle.vlm_model.specs.Stepped.{Outcome};
ghost use Rattle.vlm_machine.specs.Admissions.{IsCaller};
ghost use Rattle.vlm_machine.specs.Between.{IsBetweenSteps};
ghost use Rattle.vlm_machine.specs.Machine.{plain_state};
ghost use Rattle.vlm_machine.specs.Notes.{HasRoomToNote, IsToSweep};

use crate::nodes::depart;
use crate::processes::Caller;
use crate::records::Machine;
use vlm_locks::{Touched, end_process, end_processes_of};
use vlm_words::conditions::Cond;
use vlm_words::steps::{Answer, Step};

impl Machine {
    /// Ends a process: its check, its change, and the sweep of all touched resources.
    pub(crate) fn rundown(&mut self, touched: &mut Touched, pid: u32) -> Answer
        requires between { IsBetweenSteps (plain_state self.old) }
        requires notes { HasRoomToNote touched.old self.old }
        ensures outcome { Outcome (plain_state self.old) (Step.Rundown pid)
            (plain_state self.new) result }
        ensures none { touched.new.noted ≡ [] }
        ensures room { touched.new.room ≡ touched.old.room }
    {
        match self.checked_caller(pid) {
            Ok(caller) => {
                self.rundown_change(touched, &caller);
                self.sweep_touched(touched);
                Answer::Plain(Cond::Normal)
            }
            Err(refusal) => Answer::Plain(refusal),
        }
    }

    fn rundown_change(&mut self, touched: &mut Touched, caller: &Caller)
        requires caller { IsCaller caller.now self.old.records }
        requires between { IsBetweenSteps (plain_state self.old) }
        requires notes { HasRoomToNote touched.old self.old }
        ensures change { plain_state self.new ≡ state_after_rundown (is_ended_by caller.now.pid)
            self.old.nodes (plain_state self.old) }
        ensures to_sweep { IsToSweep touched.new self.new }
        ensures room { touched.new.room ≡ touched.old.room }
    {
        end_process(&mut self.store, touched, caller.at);
    }

    /// Lets a node depart: its checks, its change, and one sweep of all touched resources.
    pub(crate) fn leave(&mut self, touched: &mut Touched, node: u8) -> Answer
        requires between { IsBetweenSteps (plain_state self.old) }
        requires notes { HasRoomToNote touched.old self.old }
        ensures outcome { Outcome (plain_state self.old) (Step.Leave node)
            (plain_state self.new) result }
        ensures none { touched.new.noted ≡ [] }
        ensures room { touched.new.room ≡ touched.old.room }
    {
        match self.check_node(node) {
            Ok(()) => {
                self.leave_change(touched, node);
                self.sweep_touched(touched);
                Answer::Plain(Cond::Normal)
            }
            Err(refusal) => Answer::Plain(refusal),
        }
    }

    fn leave_change(&mut self, touched: &mut Touched, node: u8)
        requires first { 1 ≤ node }
        requires last { node ≤ 8 }
        requires between { IsBetweenSteps (plain_state self.old) }
        requires notes { HasRoomToNote touched.old self.old }
        ensures change { plain_state self.new ≡ state_after_rundown (is_of_node node)
            (nodes_after_departure self.old.nodes node) (plain_state self.old) }
        ensures to_sweep { IsToSweep touched.new self.new }
        ensures room { touched.new.room ≡ touched.old.room }
    {
        end_processes_of(&mut self.store, touched, node);
        depart(&mut self.nodes, node);
    }
}

//! The step that takes the oldest AST of a process.

ghost use Rattle.std.specs.Prelude.{◌≡◌};
ghost use Rattle.vlm_model.specs.Stepped.{Outcome};
ghost use Rattle.vlm_model.specs.Take.{take_change, taken_ast};
ghost use Rattle.vlm_machine.specs.Admissions.{IsCaller};
ghost use Rattle.vlm_machine.specs.Between.{IsBetweenSteps};
ghost use Rattle.vlm_machine.specs.Machine.{plain_state};

use crate::processes::Caller;
use crate::records::Machine;
use vlm_procs::take;
use vlm_words::asts::Ast;
use vlm_words::steps::{Answer, Step};

impl Machine {
    /// Takes the oldest AST of a process. It touches no resource, so no sweep follows.
    pub(crate) fn take(&mut self, pid: u32) -> Answer
        requires { IsBetweenSteps (plain_state self.old) }
        ensures { Outcome (plain_state self.old) (Step.Take pid) (plain_state self.new) result }
    {
        match self.checked_caller(pid) {
            Ok(caller) => Answer::Taken(self.take_change(&caller)),
            Err(refusal) => Answer::Plain(refusal),
        }
    }

    #[tactic(auto, unfolding(vlm_model::specs::Take::take_change))]
    fn take_change(&mut self, caller: &Caller) -> Option<Ast>
        requires { IsCaller caller.now self.old.records }
        ensures taken { result ≡ taken_ast (plain_state self.old) caller.now.pid }
        ensures change { plain_state self.new
            ≡ take_change (plain_state self.old) caller.now.pid }
    {
        take(&mut self.store, caller.at)
    }
}

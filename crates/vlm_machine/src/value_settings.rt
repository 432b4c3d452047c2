//! The step that writes the value part of a status block, and its tail.

ghost use Rattle.std.specs.Prelude.{◌≡◌, IfOk};
ghost use Rattle.std.specs.Result.{result_err};
ghost use Rattle.vlm_model.specs.SetValue.{set_change, set_refusal};
ghost use Rattle.vlm_model.specs.Stepped.{Outcome};
ghost use Rattle.vlm_machine.specs.Admissions.{IsCaller};
ghost use Rattle.vlm_machine.specs.Between.{IsBetweenSteps};
ghost use Rattle.vlm_machine.specs.Machine.{plain_state};

use crate::processes::Caller;
use crate::records::Machine;
use vlm_procs::set_value;
use vlm_words::conditions::Cond;
use vlm_words::steps::{Answer, Step, ValueSetting};

impl Machine {
    /// Writes the value part of a status block, and its tail if given. It touches no resource, so no sweep follows.
    pub(crate) fn set_value(&mut self, setting: &ValueSetting) -> Answer
        requires { IsBetweenSteps (plain_state self.old) }
        ensures { Outcome (plain_state self.old) (Step.SetValue setting.now)
            (plain_state self.new) result }
    {
        match self.checked_setting(setting) {
            Ok(caller) => {
                self.set_change(&caller, setting);
                Answer::Plain(Cond::Normal)
            }
            Err(refusal) => Answer::Plain(refusal),
        }
    }

    #[tactic(auto, unfolding(vlm_model::specs::SetValue::set_refusal))]
    fn checked_setting(&self, setting: &ValueSetting) -> Result<Caller, Cond>
        ensures refusal { result_err result ≡ set_refusal (plain_state self.now) setting.now }
        ensures caller { IfOk result (λ caller. IsCaller caller self.now.records) }
        ensures pid { IfOk result (λ caller. caller.pid ≡ setting.now.pid) }
    {
        let caller = self.checked_caller(setting.pid)?;
        self.check_status_block(&caller, setting.block)?;
        Ok(caller)
    }

    #[tactic(auto, unfolding(vlm_model::specs::SetValue::set_change))]
    fn set_change(&mut self, caller: &Caller, setting: &ValueSetting)
        requires caller { IsCaller caller.now self.old.records }
        requires pid { caller.now.pid ≡ setting.now.pid }
        ensures { plain_state self.new ≡ set_change (plain_state self.old) setting.now }
    {
        set_value(
            &mut self.store,
            caller.at,
            setting.block,
            setting.value,
            setting.tail,
        );
    }
}

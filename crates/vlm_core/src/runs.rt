//! Makes many steps in order.

ghost use Rattle.std.specs.Prelude.{◌<◌, OnOk, IfErr, length, take};
ghost use Rattle.vlm_core.specs.Running.{MakesInOrder};

use crate::public::Core;
use vlm_words::steps::{Answer, Step};

/// Memory for an answer was refused. The steps before it are made and answered, and no other step is begun.
#[derive(Clone, Copy)]
pub struct Stopped {
    /// How many steps are made.
    pub done: usize,
}

/// Makes the steps in order, and appends the answer of each to `answers`. It makes room for an answer before its step.
pub fn run_steps(core: &mut Core, steps: &[Step], answers: &mut Vec<Answer>) -> Result<(), Stopped>
    ensures made { OnOk result
        (MakesInOrder core.old steps.now answers.old.items answers.new.items core.new) }
    ensures within { IfErr result (λ stopped. stopped.done < length steps.now) }
    ensures stopped { IfErr result (λ stopped.
        MakesInOrder core.old (take stopped.done steps.now)
        answers.old.items answers.new.items core.new) }
{
    for (done, step) in steps.iter().enumerate() {
        if answers.reserve(1).is_err() {
            return Err(Stopped { done });
        }
        let answer = core.step(*step);
        answers.push_reserved(answer);
    }
    Ok(())
}

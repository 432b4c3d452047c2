//! Laws of the plain machine on which the lock service rests.
//!
//! A node declares 65,535 processes in all. So the service keeps the processes of ended sessions for later ones: such a
//! process gives up all its locks and goes on. What others see of it is what they would see of a rundown.
ghost use Rattle.std.specs.Prelude.{◌≡◌, None};
ghost use Rattle.vlm_words.specs.declared.steps.Dequeue.{Dequeue};
ghost use Rattle.vlm_words.specs.declared.steps.Step.TheVariants.{Deq};
ghost use Rattle.vlm_words.specs.State.{State};
ghost use Rattle.vlm_model.specs.Runs.{History, Run};
ghost use Rattle.vlm_model.specs.Stepped.{step_refusal};
ghost use Rattle.vlm_model.specs.Reuse.{ChangesOthersAsARundown, GivesUpAll};

/// A dequeue with DEQALL and INVVALBLK that no check refuses changes everything but its own process as a rundown of
/// that process does: resources, queues, value blocks, and the status blocks and ASTs of all other processes.
pub fn law_giving_up_all_is_a_rundown_to_others()
    ensures { (history : History) (last : State) → Run history last → (d : Dequeue) → GivesUpAll d
        → step_refusal last (Deq d) ≡ None → ChangesOthersAsARundown last d }
{}

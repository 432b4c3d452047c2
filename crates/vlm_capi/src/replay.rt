//! Makes the step of a journal's entry on a core, and compares the answer with the entry's.

ghost use Rattle.std.specs.Prelude.{◌≡◌, ◌==◌};
ghost use Rattle.vlm_capi.specs.Lending.{LendsCore};
ghost use Rattle.vlm_capi.specs.Replay.{Replayed, ReplaysIf, is_answer, is_ast, replay_status, step_of};

use crate::arguments::{conversion_of, declaration_of, dequeue_of, request_of, setting_of};
use crate::entries::{ENTRY_SIZE, VlmEntry, ast_in};
use crate::handle::Handle;
use crate::numbers::node_of;
use crate::replies::{VlmAst, answer_number, answer_status, status};
use vlm_core::Core;
use vlm_words::conditions::Cond;
use vlm_words::steps::{Answer, Step};

#[tactic(auto, unfolding(crate::specs::Replay::step_of))]
fn step_of(entry: &VlmEntry) -> Option<Step>
    ensures { result ≡ step_of entry.now }
{
    if entry.size != ENTRY_SIZE || entry.name_len > 32 {
        return None;
    }
    match entry.step {
        1 => declaration_of(&entry.declaration).map(|step| Step::Declare(step)),
        2 => setting_of(&entry.setting).map(|step| Step::SetValue(step)),
        3 => {
            let name = &entry.name[..entry.name_len as usize];
            request_of(&entry.request, name).map(|step| Step::Enq(step))
        }
        4 => conversion_of(&entry.request).map(|step| Step::Convert(step)),
        5 => dequeue_of(&entry.dequeue).map(|step| Step::Deq(step)),
        6 => Some(Step::Rundown(entry.pid)),
        7 => node_of(entry.node).map(|node| Step::Leave(node)),
        8 => node_of(entry.node).map(|node| Step::Search(node)),
        9 => Some(Step::Take(entry.pid)),
        _ => None,
    }
}

fn is_ast(one: &VlmAst, other: &VlmAst) -> bool
    ensures { result ≡ is_ast one.now other.now }
{
    one.kind == other.kind
        && one.routine == other.routine
        && one.param == other.param
        && one.lkid == other.lkid
}

// Whether the entry has this answer.
fn is_answer(entry: &VlmEntry, answer: &Answer) -> bool
    ensures { result ≡ is_answer entry.now answer.now }
{
    answer_status(answer) == entry.status
        && answer_number(answer) == entry.number
        && is_ast(&ast_in(answer), &entry.ast)
}

fn replay_status(entry: &VlmEntry, answer: &Answer) -> u32
    ensures { result ≡ replay_status entry.now answer.now }
{
    if answer_status(answer) == status(Cond::Insfmem) {
        return status(Cond::Insfmem);
    }
    if is_answer(entry, answer) {
        status(Cond::Normal)
    } else {
        status(Cond::Badparam)
    }
}

fn replay_on(core: &mut Core, step: &Step, entry: &VlmEntry) -> u32
    ensures { ReplaysIf (entry.now.status == 16) entry.now step.now core.old result core.new }
{
    if entry.status == status(Cond::Insfmem) {
        return status(Cond::Normal);
    }
    let answer = core.apply(step);
    replay_status(entry, &answer)
}

impl Handle {
    /// Makes the step of an entry, unless it wanted memory, and compares the answers.
    pub(crate) fn replay(&mut self, entry: &VlmEntry) -> u32
        ensures { Replayed entry.now self.old.slot.held self.new.slot.held result }
    {
        let Some(step) = step_of(entry) else {
            return status(Cond::Badparam);
        };
        match self.with_core(|core| replay_on(core, &step, entry)) {
            Some(replayed) => replayed,
            None => status(Cond::Badparam),
        }
    }
}

//! The step that declares a process.

ghost use Rattle.std.specs.Prelude.{◌≡◌, ◌<◌, ◌≤◌, ℕ, IfOk, OnErr, OnOk};
ghost use Rattle.std.specs.Result.{result_err};
ghost use Rattle.vlm_model.specs.Declare.{declare_change, declare_refusal, next_pid};
ghost use Rattle.vlm_words.specs.State.{node_at};
ghost use Rattle.vlm_model.specs.Stepped.{Outcome};
ghost use Rattle.vlm_store.specs.Records.{IsNewProcess, IsUnchanged};
ghost use Rattle.vlm_cycle.specs.Marking.{HasRoomInBoth, KeepsRoom};
ghost use Rattle.vlm_machine.specs.Between.{IsBetweenSteps};
ghost use Rattle.vlm_machine.specs.Machine.{plain_state};

use crate::records::Machine;
use std::alloc::AllocError;
use vlm_cycle::Scratch;
use vlm_words::conditions::Cond;
use vlm_words::ids::{LAST_ORDINAL, process_id};
use vlm_words::steps::{Answer, Declaration, Step};

impl Machine {
    /// Declares a process: its checks and its change. It touches no resource, so no sweep follows.
    pub(crate) fn declare(&mut self, scratch: &mut Scratch, declaration: Declaration) -> Answer
        requires { IsBetweenSteps (plain_state self.old) }
        ensures outcome { Outcome (plain_state self.old) (Step.Declare declaration)
            (plain_state self.new) result }
        ensures room { (pid : ℕ) → result ≡ Answer.Process pid → HasRoomInBoth scratch.new pid }
        ensures kept { KeepsRoom scratch.old scratch.new }
    {
        if let Err(refusal) = self.check_declaration(&declaration) {
            return Answer::Plain(refusal);
        }
        match self.declare_change(scratch, &declaration) {
            Ok(pid) => Answer::Process(pid),
            Err(AllocError) => Answer::Plain(Cond::Insfmem),
        }
    }

    #[tactic(auto, unfolding(vlm_model::specs::Declare::declare_refusal, vlm_model::specs::Rundown::leave_refusal))]
    fn check_declaration(&self, declaration: &Declaration) -> Result<(), Cond>
        ensures refusal { result_err result
            ≡ declare_refusal (plain_state self.now) declaration.now }
        ensures first { OnOk result (1 ≤ declaration.now.node) }
        ensures last { OnOk result (declaration.now.node ≤ 8) }
        ensures ordinal { OnOk result
            ((node_at self.now.nodes declaration.now.node).declared < 65535) }
    {
        let node = declaration.node;
        self.check_node(node)?;
        if self.nodes[usize::from(node) - 1].declared() < LAST_ORDINAL {
            Ok(())
        } else {
            Err(Cond::Badparam)
        }
    }

    fn next_pid(&self, node: u8) -> u32
        requires first { 1 ≤ node }
        requires last { node ≤ 8 }
        requires ordinal { (node_at self.now.nodes node).declared < 65535 }
        ensures { result ≡ next_pid (plain_state self.now) node }
    {
        let ordinal = self.nodes[usize::from(node) - 1].declared() + 1;
        process_id(node, ordinal)
    }

    // The change: the process lives under the next ordinal of its node, and a search has room to mark it.
    #[tactic(auto, unfolding(vlm_model::specs::Declare::declare_change))]
    fn declare_change(
        &mut self,
        scratch: &mut Scratch,
        declaration: &Declaration,
    ) -> Result<u32, AllocError>
        requires node { (1 ≤ declaration.now.node) × (declaration.now.node ≤ 8) }
        requires ordinal { (node_at self.old.nodes declaration.now.node).declared < 65535 }
        requires new { let pid = next_pid (plain_state self.old) declaration.now.node
            in IsNewProcess pid self.old.records }
        ensures pid { IfOk result
            (λ pid. pid ≡ next_pid (plain_state self.old) declaration.now.node) }
        ensures change { OnOk result
            (plain_state self.new ≡ declare_change (plain_state self.old) declaration.now) }
        ensures state { OnErr result (plain_state self.new ≡ plain_state self.old) }
        ensures unchanged { OnErr result (IsUnchanged self.old.records self.new.records) }
        ensures room { IfOk result (λ pid. HasRoomInBoth scratch.new pid) }
        ensures kept { KeepsRoom scratch.old scratch.new }
    {
        let pid = self.next_pid(declaration.node);
        let place = usize::from(declaration.node) - 1;
        let node = self.nodes[place].counted();
        scratch.make_room(pid, self.store.process_count())?;
        let blocks = self.store.new_status_blocks(declaration.blocks)?;
        self.store.add_process(pid, declaration, blocks)?;
        self.nodes[place] = node;
        Ok(pid)
    }
}

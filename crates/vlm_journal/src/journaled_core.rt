//! A core that writes a journal: an entry for each step.

ghost use Rattle.std.specs.Prelude.{◌≡◌, ◌⊎◌, ◌∷◌, ◌+◌, ◌++◌, ◌-◌, ◌^◌, ◌/◌, ◌<◌, ◌≤◌, ℕ, [], OnErr, OnOk, Some};
ghost use Rattle.vlm_words.specs.declared.conditions.Cond.TheVariants.{Departed, Normal};
ghost use Rattle.vlm_model.specs.Pending.{first_pending};
ghost use Rattle.vlm_model.specs.Reasons.{HasDeparted};
ghost use Rattle.vlm_model.specs.StatusBlocks.{status_block_at};
ghost use Rattle.vlm_words.specs.State.{start};
ghost use Rattle.vlm_model.specs.Stepped.{Outcome};
ghost use Rattle.std.specs.Option.{option_map};
ghost use Rattle.vlm_queue.specs.Views.{usage};
ghost use Rattle.vlm_core.specs.Readers.{root_of};
ghost use Rattle.vlm_journal.specs.Accounts.{GoesOn, made};
ghost use Rattle.vlm_journal.specs.Journals.{IsPostOf};
ghost use Rattle.vlm_journal.specs.Written.{IsWritten};

use crate::entries::{Entry, Part};
use crate::laws::{law_delivery, law_departed, law_entry};
use std::alloc::{AllocError, Global};
use std::marker::Model;
use std::mem;
use vlm_core::{Core, Usage};
use vlm_words::asts::Ast;
use vlm_words::blocks::Block;
use vlm_words::names::Name;
use vlm_words::resources::Domain;
use vlm_words::steps::{Answer, Step};

/// A core with its journal: the entries since the last cut, and the number of entries before them. All entries, from
/// the first, are a legal journal that leads to the core's state (this project's own).
#[derive(Drop)]
pub struct JournaledCore {
    core: Core,
    entries: Vec<Entry>,
    // how many entries were handed out; `u64::MAX` if there were more
    base: u64,
    alloc: Global,
}

impl Model for JournaledCore {
    ghost use Rattle.std.specs.Prelude.{◌-◌, vec_capacity, vec_len};
    ghost use Rattle.vlm_journal.specs.Accounts.{Account, GoesOn};

    ghost Value = { Account };

    ghost view = { λ b. record {
      entries = b.entries.items;
      state = b.core;
      base = b.base;
      room = vec_capacity b.entries - vec_len b.entries;
    } };

    ghost invariant = { λ b. GoesOn b.base b.entries.items b.core };
}

impl JournaledCore {
    /// A journaled core with a new core and an empty journal. It takes no memory.
    pub fn new(core: Core, alloc: Global) -> JournaledCore
        requires start { core ≡ start }
        ensures entries { result.entries ≡ [] }
        ensures state { result.state ≡ start }
        ensures base { result.base ≡ 0 }
    {
        JournaledCore {
            core,
            entries: Vec::new(alloc),
            base: 0,
            alloc,
        }
    }

    /// Makes room for one more entry, if there is none. If it is refused, nothing is changed.
    pub fn reserve(&mut self) -> Result<(), AllocError>
        ensures entries { self.new.entries ≡ self.old.entries }
        ensures state { self.new.state ≡ self.old.state }
        ensures base { self.new.base ≡ self.old.base }
        ensures room { OnOk result (0 < self.new.room) }
        ensures refused { OnErr result (self.new ≡ self.old) }
    {
        self.entries.reserve(1)
    }

    /// Makes a step that a node has posted, and writes an entry with its answer. The entry takes no memory. The step
    /// may need some, and is answered INSFMEM if that is refused. It costs as much as the step.
    pub fn apply(&mut self, sender: u8, step: &Step) -> Answer
        requires room { 0 < self.old.room }
        requires sender { (0 < sender) × (sender ≤ 8) }
        requires post { IsPostOf sender step.now }
        ensures outcome { Outcome self.old.state step.now self.new.state result }
        ensures written { IsWritten (record { sender = sender; step = step.now; answer = result })
            self.old self.new }
    {
        law_entry();
        law_departed();
        let answer = self.core.apply(step);
        self.entries.push_reserved(entry(sender, *step, answer));
        answer
    }

    /// The first living process of a node, in order of making, with a pending AST; `None` if there is none. It takes
    /// constant time.
    pub fn pending_of(&self, node: u8) -> Option<u32>
        ensures { result ≡ first_pending node self.now.state.processes }
    {
        self.core.pending_of(node)
    }

    /// Takes the oldest AST of the process that [`JournaledCore::pending_of`] answers for a node, and writes an entry
    /// of the hub. It takes no memory.
    pub fn deliver_ast(&mut self, pid: u32) -> Ast
        requires room { 0 < self.old.room }
        requires pending { (node : ℕ) × (first_pending node self.old.state.processes ≡ Some pid) }
        ensures outcome { Outcome self.old.state (Step.Take pid) self.new.state
            (Answer.Taken (Some result)) }
        ensures written { IsWritten
            (record { sender = 0; step = Step.Take pid; answer = Answer.Taken (Some result) })
            self.old self.new }
        ensures node { (node : ℕ) → first_pending node self.old.state.processes ≡ Some pid
            → pid / 65536 ≡ node }
    {
        law_delivery();
        law_entry();
        law_departed();
        let answer = self.core.step(Step::Take(pid));
        let ast = ast_of(answer);
        self.entries
            .push_reserved(entry(0, Step::Take(pid), answer));
        ast
    }

    /// Makes the departure of a lost node, and writes an entry of the hub. It takes no memory. It answers NORMAL,
    /// BADPARAM if the node is not 1 to 8, or DEPARTED if the node has departed before.
    pub fn depart(&mut self, node: u8) -> Answer
        requires room { 0 < self.old.room }
        ensures outcome { Outcome self.old.state (Step.Leave node) self.new.state result }
        ensures written { IsWritten (record { sender = 0; step = Step.Leave node; answer = result })
            self.old self.new }
        ensures leaves { (result ≡ Answer.Plain Normal) ⊎ (result ≡ Answer.Plain Departed)
            → HasDeparted self.new.state node }
    {
        law_entry();
        law_departed();
        let answer = self.core.step(Step::Leave(node));
        let written = entry(0, Step::Leave(node), answer);
        self.entries.push_reserved(written);
        answer
    }

    /// A process's status block with this number, as [`Core::block`] says.
    pub fn block(&self, pid: u32, number: u8) -> Option<Block>
        ensures { result ≡ status_block_at self.now.state.processes pid number }
    {
        self.core.block(pid, number)
    }

    /// How the root resource of this name in this domain is used, as [`Core::usage`] says.
    pub fn usage(&self, domain: Domain, name: Name) -> Option<Usage>
        ensures { result ≡ option_map usage (root_of self.now.state.resources domain name) }
    {
        self.core.usage(domain, name)
    }

    /// How many entries were made, handed out or not; `u64::MAX` if there were more.
    pub fn made(&self) -> u64
        ensures { result ≡ made self.now }
    {
        self.base.saturating_add(self.entries.len() as u64)
    }

    /// The entries since the last cut, or all if there was no cut.
    pub fn entries(&self) -> &[Entry]
        ensures same { result.now ≡ self.now.entries }
        ensures legal { GoesOn self.now.base self.now.entries self.now.state }
    {
        self.entries.as_slice()
    }

    /// Hands out the entries since the last cut, and begins a new part. It takes no memory. The parts of all cuts in
    /// order, and then the entries since the last cut, are the journal.
    pub fn cut(&mut self) -> Part
        ensures entries { result.entries.items ≡ self.old.entries }
        ensures base { result.base ≡ self.old.base }
        ensures legal { GoesOn result.base result.entries.items self.new.state }
        ensures left { self.new.entries ≡ [] }
        ensures next { self.new.base ≡ made self.old }
        ensures state { self.new.state ≡ self.old.state }
    {
        let made = self.made();
        let base = mem::replace(&mut self.base, made);
        let entries = mem::replace(&mut self.entries, Vec::new(self.alloc));
        Part { base, entries }
    }

    /// Gives out the entries since the last cut, and the core.
    pub fn finish(self) -> (Vec<Entry>, Core)
        ensures entries { result.0.items ≡ self.entries }
        ensures state { result.1 ≡ self.state }
        ensures legal { GoesOn self.base result.0.items result.1 }
    {
        let JournaledCore {
            core,
            entries,
            base: _,
            alloc: _,
        } = self;
        (entries, core)
    }
}

fn entry(sender: u8, step: Step, answer: Answer) -> Entry
    ensures { result ≡ record { sender = sender; step = step; answer = answer } }
{
    Entry {
        sender,
        step,
        answer,
    }
}

fn ast_of(answer: Answer) -> Ast
    requires { (ast : Ast) × (answer ≡ Answer.Taken (Some ast)) }
    ensures { answer ≡ Answer.Taken (Some result) }
{
    match answer {
        Answer::Taken(Some(ast)) => ast,
        _ => unreachable!(),
    }
}

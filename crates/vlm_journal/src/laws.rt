//! The laws of every journal. A law is the contract of a function that does nothing, except that some call a law that
//! they rest on.

ghost use Rattle.std.specs.Prelude.{◌≡◌, ◌↔◌, ◌∷◌, ◌++◌, ◌<◌, ◌≤◌, ℕ, All, List, [], Some};
ghost use Rattle.vlm_words.specs.declared.steps.Answer.{Answer};
ghost use Rattle.vlm_words.specs.declared.steps.Step.TheVariants.{Take};
ghost use Rattle.vlm_model.specs.Pending.{first_pending};
ghost use Rattle.vlm_model.specs.Reasons.{HasDeparted};
ghost use Rattle.vlm_model.specs.Runs.{History, Legal, Run};
ghost use Rattle.vlm_words.specs.State.{State};
ghost use Rattle.vlm_model.specs.Stepped.{Outcome};
ghost use Rattle.vlm_journal.specs.declared.entries.Entry.{Entry};
ghost use Rattle.vlm_journal.specs.Accounts.{GoesOn};
ghost use Rattle.vlm_journal.specs.Departed.{IsAnsweredDeparted, ShowsDeparture, StaysDeparted};
ghost use Rattle.vlm_journal.specs.Delivery.{GivesAst};
ghost use Rattle.vlm_journal.specs.Journals.{IsAllowed, Journal, JournalFrom, answers_of, steps_of};
ghost use Rattle.vlm_journal.specs.Lengthening.{IsSilent, LengthensLittle};
ghost use Rattle.vlm_journal.specs.Told.{asked};
ghost use Rattle.vlm_journal.specs.Worlds.{Event, IsRight, Reached, World, own_steps};

use vlm_model::histories::{
    law_a_departed_node_is_answered_departed, law_no_process_of_a_departed_node_lives,
};
use vlm_model::laws::law_process_ids_rise;

/// A journal is legal exactly if its steps and answers are a legal run of the machine, and a hub may make each of its
/// entries. So every law of such runs holds of a hub.
pub fn law_journal()
    ensures { (first last : State) (entries : List Entry)
        → JournalFrom first entries last
        ↔ (Legal first (steps_of entries) (answers_of entries) last × All IsAllowed entries) }
{}

/// A journal in parts: two lists of entries, one after the other, are legal exactly if the first is legal and the
/// second is legal from a state to which the first leads. They lead to the state to which the second leads.
pub fn law_join()
    ensures { (first last : State) (before behind : List Entry)
        → JournalFrom first (before ++ behind) last
        ↔ ((between : State) × JournalFrom first before between × JournalFrom between behind last) }
{}

/// How an entry adds to the requests and the items of the nodes. In an empty journal there are none. An entry that a
/// hub may make adds its step to the requests of its sender only. It adds an item to at most one node: the answer to
/// its sender, or the AST that the hub took to the node of the process.
pub fn law_entry()
    ensures first { IsSilent [] }
    ensures more { (entries : List Entry) (entry : Entry) → IsAllowed entry
        → LengthensLittle entries entry }
{}

/// After a departure of a node is accepted, from the node or from the hub, each entry of the node is answered DEPARTED.
/// An entry by which a node departs, or is answered that it has departed, leads to a state in which it has departed.
/// From such a state on, across cuts too, the node stays departed, and each entry of it is answered DEPARTED.
pub fn law_departed()
    ensures answered { (entries : List Entry) (last : State) → Journal entries last
        → (node : ℕ) → 0 < node → IsAnsweredDeparted node entries }
    ensures departs { (base : ℕ) (entries : List Entry) (entry : Entry) (last : State)
        → GoesOn base (entries ++ entry ∷ []) last
        → (node : ℕ) → ShowsDeparture node entry → HasDeparted last node }
    ensures since { (base : ℕ) (entries more : List Entry) (between last : State)
        → GoesOn base entries between → JournalFrom between more last
        → (node : ℕ) → HasDeparted between node → StaysDeparted node more last }
{
    law_a_departed_node_is_answered_departed();
}

/// A take of the hub finds an AST: after every run, a take of the first process of a node with a pending AST is
/// answered an AST, and that process is of the node.
pub fn law_delivery()
    ensures { (history : History) (last : State) → Run history last
        → (node pid : ℕ) → first_pending node last.processes ≡ Some pid
        → (new : State) (answer : Answer) → Outcome last (Take pid) new answer
        → GivesAst node pid answer }
{
    law_a_departed_node_is_answered_departed();
    law_no_process_of_a_departed_node_lives();
    law_process_ids_rise();
}

/// Whatever happens between a hub and its 1 to 8 nodes, the journal is legal. The served posts of a node are its
/// requests in the journal, and a prefix of all its posts. The items sent to a node are a prefix of its items in the
/// journal, and the received items a prefix of these. At most 64 posts of a node are not yet served, and at most 64
/// items are sent to it and not yet received. The hub itself has taken the ASTs that it delivered, and made the
/// departures of lost nodes, in that order, and nothing else.
pub fn law_world()
    ensures right { (nodes : ℕ) → nodes ≤ 8 → (events : List Event) (world : World)
        → Reached nodes events world → IsRight nodes world }
    ensures own { (nodes : ℕ) → nodes ≤ 8 → (events : List Event) (world : World)
        → Reached nodes events world → asked 0 world.journal ≡ own_steps events }
{}

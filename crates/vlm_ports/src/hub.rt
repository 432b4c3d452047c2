//! The hub, which owns the core and its journal.

ghost use Rattle.std.specs.Prelude.{◌≡◌, ◌⊎◌, ◌≤◌, ◌<◌, ◌+◌, ◌*◌, ◌∷◌, ◌++◌, ◌-◌, [], length, vec_len, IfOk, OnErr, OnOk, IsFalse, All, map};
ghost use Rattle.vlm_ports.specs.Links.{AreFresh, AreLinked, node_rings_identity};
ghost use Rattle.vlm_ports.specs.Ports.{AreNew as AreNewPorts, identity as port_identity};

use crate::node_rings::{NodeRings, Settled};
use crate::port::Port;
use crate::posts::on_behalf;
use crate::watch::Board;
use std::alloc::{AllocError, Global};
use std::sync::Wait;
use vlm_core::Core;
use vlm_journal::entries::{Entry, Item, Part};
use vlm_journal::journaled_core::JournaledCore;
use vlm_words::blocks::Block;
use vlm_words::conditions::Cond;
use vlm_words::steps::{Answer, Step};

/// The hub makes the steps that the ports post. It owns the core and its journal. It can't be dropped, since a watched
/// hub may have to wait: end it by [`Hub::finish`], or by [`Hub::close`] if it is not watched.
pub struct Hub {
    pub(crate) journaled: JournaledCore,
    all_node_rings: Vec<NodeRings>,
    // the board of its watchers, once it is watched
    pub(crate) board: Option<Board>,
    ghost few: { vec_len all_node_rings ≤ 8 },
    ghost linked: { AreLinked all_node_rings.items journaled.entries },
}

/// The result of a turn.
#[derive(Clone, Copy, Debug, PartialEq, Eq)]
pub enum Turn {
    /// It made this many entries, at least one.
    Served(usize),
    /// It made no entry, and could make none.
    Idle,
    /// It made this many entries, and then more room for the journal was refused. No post is lost.
    NoMemory(usize),
}

#[derive(Clone, Copy)]
struct Attended {
    made: usize,
    refused: bool,
}

impl Hub {
    ghost use Rattle.vlm_model.specs.Reasons.{HasDeparted};
    ghost use Rattle.vlm_model.specs.StatusBlocks.{status_block_at};
    ghost use Rattle.vlm_words.specs.State.{start};
    ghost use Rattle.vlm_words.specs.declared.steps.Step.TheVariants.{Leave};
    ghost use Rattle.vlm_words.specs.declared.steps.Answer.TheVariants.{Plain};
    ghost use Rattle.vlm_words.specs.declared.conditions.Cond.TheVariants.{Departed, Normal};
    ghost use Rattle.vlm_model.specs.Stepped.{Outcome};
    ghost use Rattle.vlm_journal.specs.Accounts.{GoesOn, made};
    ghost use Rattle.vlm_ports.specs.Turns.{IsIdleTurn, IsServedTurn, turn_entries};
    ghost use Rattle.vlm_ports.specs.Hubs.{EachAsksOnce, EachIsDeliveredOnce, HubGrew, KnowsAllTheSame, PutsBeforeCut, IsAsWritten, IsDeliveredAt, IsNewHub, IsPortOf, IsSameBut, KeepsKnown, AllNodeRingsLast, MayIdle, MayRestAt, NoneAsks, NoneIsDelivered, OneAsks, OneIsDelivered, OthersLast, base, bases, journal, nodes, rings, state, waiting};
    ghost use Rattle.vlm_ports.specs.Ports.{AreNew, identity};
    ghost use Rattle.vlm_ports.specs.Watched.{IsUnwatched, board};
    ghost use Rattle.vlm_ports.specs.Settling.{HasSettled};

    /// How many nodes it serves.
    pub fn nodes(&self) -> usize
        ensures { result ≡ nodes self.now }
    {
        self.all_node_rings.len()
    }

    /// The entries since the last cut.
    pub fn journal(&self) -> &[Entry]
        ensures same { result.now ≡ journal self.now }
        ensures legal { GoesOn (base self.now) (journal self.now) (state self.now) }
    {
        self.journaled.entries()
    }

    /// A process's status block with this number, as [`Core::block`] says. The items of a node bring none: its thread
    /// has the hub's thread read how a request ended, and the value (this project's own).
    pub fn block(&self, pid: u32, number: u8) -> Option<Block>
        ensures { result ≡ status_block_at (state self.now).processes pid number }
    {
        self.journaled.block(pid, number)
    }

    /// A hub of this many nodes with a new core, and a port for each node, node 1 first. If it is refused, there is no
    /// hub and no port.
    pub fn make(alloc: Global, count: usize) -> Result<(Hub, Vec<Port>), AllocError>
        requires count { (0 < count) × (count ≤ 8) }
        ensures hub { IfOk result (λ r. IsNewHub count r.0) }
        ensures ports { IfOk result (λ r. (length r.1.items ≡ count) × AreNew r.1.items) }
        ensures rings { IfOk result (λ r. map identity r.1.items ≡ rings r.0) }
        ensures ours { IfOk result (λ r. All (IsPortOf r.0) r.1.items) }
    {
        Hub::with_core(alloc, Core::new(alloc), count)
    }

    /// The same over this core. Make it with [`Core::with_keys`] if others choose the names of resources.
    pub fn with_core(
        alloc: Global,
        core: Core,
        count: usize,
    ) -> Result<(Hub, Vec<Port>), AllocError>
        requires start { core ≡ start }
        requires count { (0 < count) × (count ≤ 8) }
        ensures hub { IfOk result (λ r. IsNewHub count r.0) }
        ensures ports { IfOk result (λ r. (length r.1.items ≡ count) × AreNew r.1.items) }
        ensures rings { IfOk result (λ r. map identity r.1.items ≡ rings r.0) }
        ensures ours { IfOk result (λ r. All (IsPortOf r.0) r.1.items) }
    {
        let (all_node_rings, ports) = ring_ends(alloc, count)?;
        let hub = Hub {
            journaled: JournaledCore::new(core, alloc),
            all_node_rings,
            board: None,
        };
        Ok((hub, ports))
    }

    /// Attends to each node once: takes and sends at most one of its ASTs, then makes and answers at most one of its
    /// posts. A post of a node that has departed or was lost is answered DEPARTED. `Idle` comes only if no node has
    /// both work (a pending AST, or a post that the hub knows of) and a place on its item ring that the hub knows to be
    /// free. It never waits.
    pub fn turn(&mut self) -> Turn
        ensures rings { rings self.new ≡ rings self.old }
        ensures base { (base self.new ≡ base self.old) × (bases self.new ≡ bases self.old) }
        ensures board { board self.new ≡ board self.old }
        ensures made { HubGrew (turn_entries result) self.old self.new }
        ensures some { IsServedTurn result → 0 < turn_entries result }
        ensures most { turn_entries result ≤ 2 * nodes self.old }
        ensures once { EachAsksOnce (journal self.old) (journal self.new) }
        ensures delivers { EachIsDeliveredOnce (journal self.old) (journal self.new) }
        ensures idle { IsIdleTurn result → MayIdle self.new }
        ensures known { KeepsKnown self.old self.new }
    {
        let mut made = 0usize;
        for at in 0..self.nodes() {
            let attended = self.attend(at);
            made += attended.made;
            if attended.refused {
                return Turn::NoMemory(made);
            }
        }
        if made == 0 {
            Turn::Idle
        } else {
            Turn::Served(made)
        }
    }

    /// Makes the departure of a lost node, whatever the node has posted. It answers NORMAL, or DEPARTED if the node had
    /// departed before. Later posts of the node are answered DEPARTED. If memory is refused, nothing is changed.
    pub fn lost(&mut self, node: u8) -> Result<Cond, AllocError>
        requires node { (0 < node) × (node ≤ 8) }
        ensures rings { rings self.new ≡ rings self.old }
        ensures base { (base self.new ≡ base self.old) × (bases self.new ≡ bases self.old) }
        ensures board { board self.new ≡ board self.old }
        ensures known { KnowsAllTheSame self.old self.new }
        ensures lost { IfOk result (λ cond. journal self.new ≡ journal self.old
            ++ record { sender = 0; step = Leave node; answer = Plain cond } ∷ []) }
        ensures outcome { IfOk result (λ cond.
            Outcome (state self.old) (Leave node) (state self.new) (Plain cond)) }
        ensures departed { OnOk result (HasDeparted (state self.new) node) }
        ensures answer { IfOk result (λ cond. (cond ≡ Normal) ⊎ (cond ≡ Departed)) }
        ensures refused { OnErr result (IsAsWritten self.old self.new) }
    {
        self.journaled.reserve()?;
        let answer = self.journaled.depart(node);
        Ok(condition_of(answer))
    }

    /// Settles a port of this hub that its thread has handed back: counts the posts that the hub has not taken and the
    /// items that the port has not taken. It moves nothing. After it the hub knows of those posts, and the port of
    /// those items.
    pub fn settle(&mut self, port: &mut Port) -> Settled
        requires { IsPortOf self.old port.old }
        ensures { HasSettled result port.old port.new self.old self.new }
    {
        let node_rings = &mut self.all_node_rings[port.node as usize - 1];
        node_rings.settle(port)
    }

    /// How many posts of a node are on its ring, which it has not made. It looks at the ring, and moves nothing.
    pub fn posts_waiting(&mut self, node: u8) -> usize
        requires node { (0 < node) × (node ≤ nodes self.old) }
        ensures rings { rings self.new ≡ rings self.old }
        ensures base { (base self.new ≡ base self.old) × (bases self.new ≡ bases self.old) }
        ensures board { board self.new ≡ board self.old }
        ensures unmoved { IsAsWritten self.old self.new }
        ensures count { result ≡ length (waiting self.new node) }
        ensures known { KeepsKnown self.old self.new }
        ensures others { OthersLast node self.old self.new }
    {
        let node_rings = &mut self.all_node_rings[node as usize - 1];
        node_rings.requests_waiting()
    }

    /// Hands out the entries since the last cut, and begins a new part. It takes no memory.
    pub fn cut(&mut self) -> Part
        ensures rings { rings self.new ≡ rings self.old }
        ensures board { board self.new ≡ board self.old }
        ensures entries { result.entries.items ≡ journal self.old }
        ensures number { result.base ≡ base self.old }
        ensures legal { GoesOn result.base result.entries.items (state self.new) }
        ensures left { journal self.new ≡ [] }
        ensures next { base self.new ≡ made self.old.journaled }
        ensures state { state self.new ≡ state self.old }
        ensures known { KnowsAllTheSame self.old self.new }
        ensures before { PutsBeforeCut self.old self.new }
    {
        self.journaled.cut()
    }

    /// Ends a hub that is not watched, and gives out the entries since the last cut, and the core. It never waits.
    pub fn close(self) -> (Vec<Entry>, Core)
        requires { IsUnwatched self }
        ensures entries { result.0.items ≡ journal self }
        ensures state { result.1 ≡ state self }
        ensures legal { GoesOn (base self) result.0.items result.1 }
    {
        let Hub {
            journaled,
            all_node_rings: _,
            board,
        } = self;
        match board {
            None => journaled.finish(),
            Some(_) => unreachable!(),
        }
    }

    /// Ends the hub, and gives out the entries since the last cut, and the core. If it is watched, it may wait for
    /// watchers that are reading. A watcher that lives on then sees nothing more.
    pub fn finish<R: Wait>(self, rt: &R) -> (Vec<Entry>, Core)
        ensures entries { result.0.items ≡ journal self }
        ensures state { result.1 ≡ state self }
        ensures legal { GoesOn (base self) result.0.items result.1 }
    {
        let mut hub = self;
        if let Some(board) = hub.board.take() {
            board.close(rt);
        }
        hub.close()
    }

    fn attend(&mut self, at: usize) -> Attended
        requires { at < nodes self.old }
        ensures rings { rings self.new ≡ rings self.old }
        ensures base { (base self.new ≡ base self.old) × (bases self.new ≡ bases self.old) }
        ensures board { board self.new ≡ board self.old }
        ensures grew { HubGrew result.made self.old self.new }
        ensures most { result.made ≤ 2 }
        ensures once { OneAsks at (journal self.old) (journal self.new) }
        ensures delivers { OneIsDelivered at (journal self.old) (journal self.new) }
        ensures idle { result.made ≡ 0 → IsFalse result.refused
            → IsSameBut at self.old self.new × MayRestAt self.new at }
        ensures known { AllNodeRingsLast self.old self.new }
    {
        match self.deliver_ast(at) {
            Err(_) => Attended {
                made: 0,
                refused: true,
            },
            Ok(delivered) => match self.serve(at) {
                Err(_) => Attended {
                    made: delivered,
                    refused: true,
                },
                Ok(served) => Attended {
                    made: delivered + served,
                    refused: false,
                },
            },
        }
    }

    // Sends a node one pending AST, if there is one and a place known to be free. Answers how many entries it made.
    fn deliver_ast(&mut self, at: usize) -> Result<usize, AllocError>
        requires { at < nodes self.old }
        ensures rings { rings self.new ≡ rings self.old }
        ensures base { (base self.new ≡ base self.old) × (bases self.new ≡ bases self.old) }
        ensures board { board self.new ≡ board self.old }
        ensures grew { IfOk result (λ n. (n ≤ 1) × HubGrew n self.old self.new) }
        ensures none_asks { IfOk result (λ n. NoneAsks (journal self.old) (journal self.new)) }
        ensures delivers { IfOk result (λ n. OneIsDelivered at (journal self.old) (journal self.new)) }
        ensures delivered { IfOk result (λ n. n ≡ 0
            → IsSameBut at self.old self.new × IsDeliveredAt self.new at) }
        ensures known { AllNodeRingsLast self.old self.new }
        ensures refused { OnErr result (IsAsWritten self.old self.new) }
    {
        let node_rings = &mut self.all_node_rings[at];
        let node = node_rings.node;
        let Some(pid) = self.journaled.pending_of(node) else {
            return Ok(0);
        };
        if !node_rings.has_place() {
            return Ok(0);
        }
        self.journaled.reserve()?;
        let ast = self.journaled.deliver_ast(pid);
        node_rings.tell(Item::Ast(pid, ast));
        Ok(1)
    }

    // Makes and answers a known post of a node, if a place for the answer is known to be free. Answers how many entries
    // it made. If it is refused, no post is lost.
    fn serve(&mut self, at: usize) -> Result<usize, AllocError>
        requires { at < nodes self.old }
        ensures rings { rings self.new ≡ rings self.old }
        ensures base { (base self.new ≡ base self.old) × (bases self.new ≡ bases self.old) }
        ensures board { board self.new ≡ board self.old }
        ensures grew { IfOk result (λ n. (n ≤ 1) × HubGrew n self.old self.new) }
        ensures once { IfOk result (λ n. OneAsks at (journal self.old) (journal self.new)) }
        ensures delivers { IfOk result (λ n. NoneIsDelivered (journal self.old) (journal self.new)) }
        ensures served { IfOk result (λ n. n ≡ 0
            → IsSameBut at self.old self.new × (IsDeliveredAt self.old at → MayRestAt self.new at)) }
        ensures known { AllNodeRingsLast self.old self.new }
        ensures refused { OnErr result (IsAsWritten self.old self.new) }
    {
        let node_rings = &mut self.all_node_rings[at];
        if !node_rings.has_request() {
            return Ok(0);
        }
        if !node_rings.has_place() {
            return Ok(0);
        }
        self.journaled.reserve()?;
        let node = node_rings.node;
        let departure = Step::Leave(node);
        let step = on_behalf(node, node_rings.next_request(), &departure);
        let answer = self.journaled.apply(node, step);
        node_rings.take_request();
        node_rings.tell(Item::Answer(answer));
        Ok(1)
    }
}

fn ring_ends(alloc: Global, count: usize) -> Result<(Vec<NodeRings>, Vec<Port>), AllocError>
    requires count { count ≤ 8 }
    ensures all_node_rings { IfOk result (λ r. (length r.0.items ≡ count) × AreFresh r.0.items) }
    ensures ports { IfOk result (λ r. (length r.1.items ≡ count) × AreNewPorts r.1.items) }
    ensures rings { IfOk result (λ r. map port_identity r.1.items ≡ map node_rings_identity r.0.items) }
{
    let mut all_node_rings = Vec::new(alloc);
    let mut ports = Vec::new(alloc);
    for at in 0..count {
        let (node_rings, port) = NodeRings::make(alloc, at as u8 + 1)?;
        all_node_rings.push(node_rings)?;
        ports.push(port)?;
    }
    Ok((all_node_rings, ports))
}

fn condition_of(answer: Answer) -> Cond
    requires { (cond : Cond) × (answer ≡ Answer.Plain cond) }
    ensures { answer ≡ Answer.Plain result }
{
    match answer {
        Answer::Plain(cond) => cond,
        _ => unreachable!(),
    }
}

//! Shares the steps of a script out to several nodes.

ghost use Rattle.std.specs.Prelude.{◌≡◌, ◌<◌, ◌+◌, ◌-◌, ◌*◌, ℕ, [], length, map, replicate, slice_index, slice_set, vec_len, IfOk, IfSome, MatchResult, OnErr, OnOk, Ok, Some};
ghost use Rattle.vlm_lines.specs.Lines.{line_read};
ghost use Rattle.vlm_script.specs.Shares.{AreListed, no_shares, with_step};
ghost use Rattle.vlm_script.specs.Sharing.{IsOneOfNodes};

use crate::bindings::{Bindings, bind_reserved, is_bound, process_of};
use crate::session::of_process;
use crate::stops::Stop;
use std::alloc::{AllocError, Global};
use std::marker::Model;
use vlm_core::HashKeys;
use vlm_lines::{Line, LineFault, NO_PROCESS, ProcessName, read_line};
use vlm_words::ids::{process_id, process_node};
use vlm_words::steps::{Declaration, Step};

/// The names and the steps of the lines so far.
#[derive(Drop)]
pub(crate) struct Sharing {
    // in the order of their declarations
    names: Bindings,
    // how many declare lines each node has, node 1 first
    declared: Vec<u16>,
    // the steps of each node, node 1 first
    lists: Vec<Vec<Step>>,
}

impl Model for Sharing {
    ghost use Rattle.std.specs.Prelude.{map};
    ghost use Rattle.vlm_script.specs.Bindings.{bindings_of};
    ghost use Rattle.vlm_script.specs.Shares.{Shares};
    ghost use Rattle.vlm_script.specs.Sharing.{IsSharing};

    ghost Value = { Shares };

    ghost view = { λ s. record {
      names = bindings_of s.names;
      declared = s.declared.items;
      lists = map (λ l. l.items) s.lists.items;
    } };

    ghost invariant = { λ s. IsSharing (bindings_of s.names) s.declared.items
        (map (λ l. l.items) s.lists.items) };
}

impl Sharing {
    ghost use Rattle.vlm_words.specs.Steps.{node_of_pid};
    ghost use Rattle.vlm_script.specs.Scripts.{bound_to, of_process};
    ghost use Rattle.vlm_script.specs.Sessions.{StopsName};
    ghost use Rattle.vlm_script.specs.Shares.{IsListed, can_declare, has_node, line_shared};
    ghost use Rattle.vlm_script.specs.Sharing.{IsSharedByName, IsPut, IsShared, StopsNode, StopsShare, StopsShareBytes};
    ghost use Rattle.vlm_script.specs.Steps.{IsPostable, line_step, named_step, read_step};

    pub(crate) fn new(alloc: Global, keys: HashKeys, nodes: u8) -> Result<Self, AllocError>
        ensures { IfOk result (λ s. s ≡ no_shares nodes) }
    {
        Ok(Sharing {
            names: Bindings::with_hasher(alloc, keys),
            declared: no_declarations(alloc, nodes)?,
            lists: empty_lists(alloc, nodes)?,
        })
    }

    pub(crate) fn into_lists(self) -> Vec<Vec<Step>>
        ensures lists { map (λ l. l.items) result.items ≡ self.lists }
        ensures listed { AreListed self.lists }
    {
        self.lists
    }

    /// Shares out a line, and answers its step. A blank line has none.
    pub(crate) fn share(&mut self, bytes: &[u8]) -> Result<Option<Step>, Stop>
        ensures shared { MatchResult result
            (λ _. line_shared (length self.old.lists) self.old (line_read bytes.now) ≡ Ok self.new)
            (λ stop. StopsShareBytes self.old bytes.now stop) }
        ensures step { IfOk result (λ asked. asked ≡ read_step self.old (line_read bytes.now)) }
        ensures postable { IfOk result (λ asked.
            IfSome asked (IsPostable (length self.old.lists))) }
        ensures count { length self.new.lists ≡ length self.old.lists }
    {
        let line = read_line(bytes)?;
        self.share_line(line)
    }

    fn share_line(&mut self, line: Line) -> Result<Option<Step>, Stop>
        ensures shared { MatchResult result
            (λ _. IsShared self.old line self.new)
            (λ stop. StopsShare self.old line stop) }
        ensures step { IfOk result (λ asked. asked ≡ line_step self.old line) }
        ensures postable { IfOk result (λ asked.
            IfSome asked (IsPostable (length self.old.lists))) }
        ensures count { length self.new.lists ≡ length self.old.lists }
    {
        match line {
            Line::Empty => Ok(None),
            Line::Declare(name, declaration) => self.declare(name, declaration),
            Line::Set(name, setting) => self.put_named(name, Step::SetValue(setting)),
            Line::Enq(name, request) => self.put_named(name, Step::Enq(request)),
            Line::Cvt(name, conversion) => self.put_named(name, Step::Convert(conversion)),
            Line::Deq(name, dequeue) => self.put_named(name, Step::Deq(dequeue)),
            Line::End(name) => self.put_named(name, Step::Rundown(NO_PROCESS)),
            Line::Leave(node) => self.put(node, Step::Leave(node)),
            Line::Search(node) => self.put(node, Step::Search(node)),
            Line::Ast(_) | Line::Block(_, _) | Line::Tail(_, _) | Line::Show | Line::Tails => {
                Err(Stop::Fault(LineFault::UnknownCommand))
            }
        }
    }

    // Binds the name to the node's next process.
    fn declare(&mut self, name: ProcessName, declaration: Declaration) -> Result<Option<Step>, Stop>
        ensures shared { MatchResult result
            (λ _. IsShared self.old (Line.Declare name declaration) self.new)
            (λ stop. StopsShare self.old (Line.Declare name declaration) stop) }
        ensures step { IfOk result (λ asked. asked ≡ Some (Step.Declare declaration)) }
        ensures postable { IfOk result (λ asked.
            IfSome asked (IsPostable (length self.old.lists))) }
        ensures count { length self.new.lists ≡ length self.old.lists }
    {
        let node = declaration.node;
        if !self.can_declare(node) {
            return Err(Stop::Fault(LineFault::NumberOutOfRange));
        }
        if is_bound(&self.names, &name) {
            return Err(Stop::Fault(LineFault::NameUsed));
        }
        self.names.reserve(1)?;
        add_step(
            &mut self.lists,
            usize::from(node),
            &Step::Declare(declaration),
        )?;
        let pid = next_process(&mut self.declared, node);
        bind_reserved(&mut self.names, name, pid);
        Ok(Some(Step::Declare(declaration)))
    }

    // Puts the step into the list of the process's node.
    fn put_named(&mut self, name: ProcessName, step: Step) -> Result<Option<Step>, Stop>
        requires { (pid : ℕ) → IsListed (node_of_pid pid) (of_process pid step) }
        ensures shared { MatchResult result
            (λ _. IsSharedByName self.old name step self.new)
            (λ stop. StopsName self.old.names name stop) }
        ensures step { IfOk result (λ asked.
            asked ≡ named_step (bound_to self.old.names name) step) }
        ensures postable { IfOk result (λ asked.
            IfSome asked (IsPostable (length self.old.lists))) }
        ensures count { length self.new.lists ≡ length self.old.lists }
    {
        let pid = process_of(&self.names, &name)?;
        let node = usize::from(process_node(pid));
        let step = of_process(pid, step);
        add_step(&mut self.lists, node, &step)?;
        Ok(Some(step))
    }

    fn put(&mut self, node: u8, step: Step) -> Result<Option<Step>, Stop>
        requires { IsListed node step }
        ensures shared { MatchResult result
            (λ _. IsPut self.old node step self.new)
            (λ stop. StopsNode (length self.old.lists) node stop) }
        ensures step { IfOk result (λ asked. asked ≡ Some step) }
        ensures postable { IfOk result (λ asked.
            IfSome asked (IsPostable (length self.old.lists))) }
        ensures count { length self.new.lists ≡ length self.old.lists }
    {
        if !self.has_node(node) {
            return Err(Stop::Fault(LineFault::NumberOutOfRange));
        }
        add_step(&mut self.lists, usize::from(node), &step)?;
        Ok(Some(step))
    }

    fn can_declare(&self, node: u8) -> bool
        ensures { result ≡ can_declare (length self.now.lists) self.now node }
    {
        self.has_node(node) && self.declared[usize::from(node) - 1] < u16::MAX
    }

    fn has_node(&self, node: u8) -> bool
        ensures { result ≡ has_node (length self.now.lists) node }
    {
        1 <= node && usize::from(node) <= self.lists.len()
    }
}

fn no_declarations(alloc: Global, nodes: u8) -> Result<Vec<u16>, AllocError>
    ensures { IfOk result (λ declared. declared.items ≡ replicate nodes 0) }
{
    Vec::from_elem(alloc, 0, usize::from(nodes))
}

fn empty_lists(alloc: Global, nodes: u8) -> Result<Vec<Vec<Step>>, AllocError>
    ensures { IfOk result (λ lists. map (λ l. l.items) lists.items ≡ replicate nodes []) }
{
    let mut lists = Vec::new(alloc);
    for _node in 0..nodes {
        lists.push(Vec::new(alloc))?;
    }
    Ok(lists)
}

fn add_step(lists: &mut Vec<Vec<Step>>, node: usize, step: &Step) -> Result<(), AllocError>
    requires { IsOneOfNodes (vec_len lists.old) node }
    ensures ok { OnOk result (map (λ l. l.items) lists.new.items
        ≡ with_step (map (λ l. l.items) lists.old.items) node step.now) }
    ensures err { OnErr result
        (map (λ l. l.items) lists.new.items ≡ map (λ l. l.items) lists.old.items) }
{
    lists[node - 1].push(*step)?;
    Ok(())
}

// Counts a declare line of the node, and answers its process.
fn next_process(declared: &mut Vec<u16>, node: u8) -> u32
    requires node { IsOneOfNodes (vec_len declared.old) node }
    requires room { slice_index declared.old.items (node - 1) < 65535 }
    ensures pid { result ≡ node * 65536 + (slice_index declared.old.items (node - 1) + 1) }
    ensures counted { declared.new.items ≡ slice_set declared.old.items (node - 1)
        (slice_index declared.old.items (node - 1) + 1) }
{
    let count = &mut declared[usize::from(node) - 1];
    *count += 1;
    process_id(node, *count)
}

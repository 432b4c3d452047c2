//! A session: a machine, and the names that a script has bound.

ghost use Rattle.std.specs.Prelude.{◌≡◌, MatchResult, OnErr};
ghost use Rattle.vlm_script.specs.Scripts.{of_process, opening};
ghost use Rattle.vlm_script.specs.Sessions.{RunsStep, IsRun, IsPrinted, StopsBytes, StopsLine, StopsName};

use crate::bindings::{Bindings, bind_reserved, is_bound, process_of};
use crate::show::{Part, show};
use crate::stops::Stop;
use std::alloc::Global;
use std::marker::Model;
use vlm_core::{Core, HashKeys};
use vlm_lines::{
    Line, LineFault, NO_PROCESS, ProcessName, answer_line, node_line, read_line, status_block_line,
    status_tail_line,
};
use vlm_words::steps::{Answer, Conversion, Declaration, Dequeue, NewRequest, Step, ValueSetting};

#[derive(Drop)]
pub(crate) struct Session {
    core: Core,
    // in the order of their declarations
    names: Bindings,
}

impl Model for Session {
    ghost use Rattle.vlm_script.specs.Scripts.{Session as PlainSession};
    ghost use Rattle.vlm_script.specs.Bindings.{bindings_of};

    ghost Value = { PlainSession };

    ghost view = { λ s. record { names = bindings_of s.names; state = s.core } };
}

impl Session {
    /// A new session. Its name indexes hash with these keys.
    pub(crate) fn new(alloc: Global, keys: HashKeys) -> Self
        ensures { result ≡ opening }
    {
        Session {
            core: Core::with_keys(alloc, keys),
            names: Bindings::with_hasher(alloc, keys),
        }
    }

    /// Runs a line, and appends its text to `out` when the line is done: `printed` is a buffer for that text. If memory
    /// is refused, the line may have run and printed nothing.
    pub(crate) fn run(
        &mut self,
        bytes: &[u8],
        printed: &mut Vec<u8>,
        out: &mut Vec<u8>,
    ) -> Result<(), Stop>
        ensures run { MatchResult result
            (λ _. IsPrinted self.old bytes.now self.new out.old.items out.new.items)
            (λ stop. StopsBytes self.old.names bytes.now stop) }
        ensures err { OnErr result (out.new.items ≡ out.old.items) }
    {
        let line = read_line(bytes)?;
        printed.clear();
        self.run_line(line, printed)?;
        out.extend_from_slice(printed)?;
        Ok(())
    }

    fn run_line(&mut self, line: Line, out: &mut Vec<u8>) -> Result<(), Stop>
        ensures { MatchResult result
            (λ _. IsRun self.old line self.new out.old.items out.new.items)
            (λ stop. StopsLine self.old.names line stop) }
    {
        match line {
            Line::Empty => Ok(()),
            Line::Declare(name, declaration) => self.declare(name, declaration, out),
            Line::Set(name, setting) => self.make(name, Step::SetValue(setting), out),
            Line::Enq(name, request) => self.make(name, Step::Enq(request), out),
            Line::Cvt(name, conversion) => self.make(name, Step::Convert(conversion), out),
            Line::Deq(name, dequeue) => self.make(name, Step::Deq(dequeue), out),
            Line::End(name) => self.make(name, Step::Rundown(NO_PROCESS), out),
            Line::Leave(node) => self.leave(node, out),
            Line::Search(node) => self.search(node, out),
            Line::Ast(name) => self.make(name, Step::Take(NO_PROCESS), out),
            Line::Block(name, number) => self.show_status_block(name, number, out),
            Line::Tail(name, number) => self.show_status_tail(name, number, out),
            Line::Show => Ok(show(&self.core, Part::Queues, out)?),
            Line::Tails => Ok(show(&self.core, Part::Tail, out)?),
        }
    }

    // Binds the name only if the process is declared.
    fn declare(
        &mut self,
        name: ProcessName,
        declaration: Declaration,
        out: &mut Vec<u8>,
    ) -> Result<(), Stop>
        ensures { MatchResult result
            (λ _. IsRun self.old (Line.Declare name declaration) self.new
            out.old.items out.new.items)
            (λ stop. StopsLine self.old.names (Line.Declare name declaration) stop) }
    {
        if is_bound(&self.names, &name) {
            return Err(Stop::Fault(LineFault::NameUsed));
        }
        self.names.reserve(1)?;
        let answer = self.core.declare(declaration);
        if let Answer::Process(pid) = answer {
            bind_reserved(&mut self.names, name, pid);
        }
        out.extend_from_slice(&answer_line(name.bytes(), answer))?;
        Ok(())
    }

    // Makes a step of the process of this name.
    fn make(&mut self, name: ProcessName, step: Step, out: &mut Vec<u8>) -> Result<(), Stop>
        ensures { MatchResult result
            (λ _. RunsStep self.old name step self.new out.old.items out.new.items)
            (λ stop. StopsName self.old.names name stop) }
    {
        let pid = process_of(&self.names, &name)?;
        let answer = self.core.apply(&of_process(pid, step));
        out.extend_from_slice(&answer_line(name.bytes(), answer))?;
        Ok(())
    }

    fn leave(&mut self, node: u8, out: &mut Vec<u8>) -> Result<(), Stop>
        ensures { MatchResult result
            (λ _. IsRun self.old (Line.Leave node) self.new out.old.items out.new.items)
            (λ stop. StopsLine self.old.names (Line.Leave node) stop) }
    {
        let answer = self.core.step(Step::Leave(node));
        out.extend_from_slice(&node_line(node, answer))?;
        Ok(())
    }

    fn search(&mut self, node: u8, out: &mut Vec<u8>) -> Result<(), Stop>
        ensures { MatchResult result
            (λ _. IsRun self.old (Line.Search node) self.new out.old.items out.new.items)
            (λ stop. StopsLine self.old.names (Line.Search node) stop) }
    {
        let answer = self.core.step(Step::Search(node));
        out.extend_from_slice(&answer_line(b"search", answer))?;
        Ok(())
    }

    fn show_status_block(
        &self,
        name: ProcessName,
        number: u8,
        out: &mut Vec<u8>,
    ) -> Result<(), Stop>
        ensures { MatchResult result
            (λ _. IsRun self.now (Line.Block name number) self.now out.old.items out.new.items)
            (λ stop. StopsLine self.now.names (Line.Block name number) stop) }
    {
        let pid = process_of(&self.names, &name)?;
        let block = self.core.block(pid, number);
        out.extend_from_slice(&status_block_line(name.bytes(), number, block))?;
        Ok(())
    }

    fn show_status_tail(&self, name: ProcessName, number: u8, out: &mut Vec<u8>) -> Result<(), Stop>
        ensures { MatchResult result
            (λ _. IsRun self.now (Line.Tail name number) self.now out.old.items out.new.items)
            (λ stop. StopsLine self.now.names (Line.Tail name number) stop) }
    {
        let pid = process_of(&self.names, &name)?;
        let block = self.core.block(pid, number);
        out.extend_from_slice(&status_tail_line(name.bytes(), number, block))?;
        Ok(())
    }
}

/// The step, made by this process. A step of a node stays as it is.
pub(crate) fn of_process(pid: u32, step: Step) -> Step
    ensures { result ≡ of_process pid step }
{
    match step {
        Step::SetValue(setting) => Step::SetValue(ValueSetting { pid, ..setting }),
        Step::Enq(request) => Step::Enq(NewRequest { pid, ..request }),
        Step::Convert(conversion) => Step::Convert(Conversion { pid, ..conversion }),
        Step::Deq(dequeue) => Step::Deq(Dequeue { pid, ..dequeue }),
        Step::Rundown(_) => Step::Rundown(pid),
        Step::Take(_) => Step::Take(pid),
        Step::Declare(_) | Step::Leave(_) | Step::Search(_) => step,
    }
}

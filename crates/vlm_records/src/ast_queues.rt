//! A queue of ASTs.

ghost use Rattle.std.specs.Prelude.{◌≡◌, ◌≤◌, ◌<◌, ◌+◌, ◌-◌, ◌^◌, ◌++◌, [], ◌∷◌, drop, length, slice_get, IsOk, OnErr, OnOk};
ghost use Rattle.vlm_records.specs.AstQueues.{no_asts};

use crate::ast_rings::AstRings;
use std::alloc::{AllocError, Global};
use std::marker::Model;
use vlm_words::asts::Ast;

// The smallest ring, so that few requests need a larger one.
const LEAST: usize = 8;

/// The pending ASTs of a process, and room for its due ASTs.
#[derive(Drop)]
pub struct AstQueue {
    // the pending ASTs; no rings until an AST is owed
    rings: Option<AstRings>,
    // how many ASTs are due, without the pending ones; the rings have room for them
    due: usize,
}

impl Model for AstQueue {
    ghost use Rattle.vlm_records.specs.AstQueues.{Asts};

    ghost Value = { Asts };

    ghost use Rattle.vlm_records.specs.AstQueues.{asts_shown, HasRoomForDue};

    ghost view = { asts_shown };

    ghost invariant = { HasRoomForDue };
}

impl AstQueue {
    /// An empty queue. It takes no memory.
    pub fn new() -> Self
        ensures { result ≡ no_asts }
    {
        AstQueue {
            rings: None,
            due: 0,
        }
    }

    pub fn len(&self) -> usize
        ensures { result ≡ length self.now.pending }
    {
        match &self.rings {
            Some(rings) => rings.len(),
            None => 0,
        }
    }

    fn free(&self) -> usize
        ensures free { result ≡ self.now.free }
        ensures within { self.now.due + result < 2 ^ 63 }
    {
        match &self.rings {
            Some(rings) => rings.free() - self.due,
            None => 0,
        }
    }

    // A further ring has room for all due ASTs, and for twice as many as the last one. So a queue has few rings.
    fn grow(&mut self, alloc: Global, count: usize) -> Result<(), AllocError>
        ensures pending { self.new.pending ≡ self.old.pending }
        ensures due { self.new.due ≡ self.old.due }
        ensures free { OnOk result (count ≤ self.new.free) }
        ensures more { OnOk result (self.old.free ≤ self.new.free) }
        ensures refused { OnErr result (self.new ≡ self.old) }
    {
        let wanted = self.due.checked_add(count).ok_or(AllocError)?;
        match &mut self.rings {
            Some(rings) => rings.open_ring(alloc, wanted.max(rings.capacity() * 2)),
            None => {
                self.rings = Some(AstRings::with_capacity(alloc, wanted.max(LEAST))?);
                Ok(())
            }
        }
    }

    /// Makes room for this many more ASTs, and counts them as due. If memory is refused, nothing is changed. No AST is
    /// moved.
    pub fn owe(&mut self, alloc: Global, count: usize) -> Result<(), AllocError>
        ensures due { OnOk result (self.new.due ≡ self.old.due + count) }
        ensures free { OnOk result (self.old.free ≤ self.new.free + count) }
        ensures pending { self.new.pending ≡ self.old.pending }
        ensures succeeds { count ≤ self.old.free → IsOk result }
        ensures refused { OnErr result (self.new ≡ self.old) }
    {
        if self.free() < count {
            self.grow(alloc, count)?;
        }
        let has_room = count <= self.free();
        prove!(has_room);
        self.due += count;
        Ok(())
    }

    pub fn queue(&mut self, ast: Ast)
        requires { 0 < self.old.due }
        ensures { self.new ≡ record self.old {
          pending = self.old.pending ++ ast ∷ [];
          due = self.old.due - 1;
        } }
    {
        if let Some(rings) = &mut self.rings {
            rings.push_back(ast);
        }
        self.due -= 1;
    }

    pub fn forgive(&mut self, count: usize)
        requires { count ≤ self.old.due }
        ensures { self.new ≡ record self.old {
          due = self.old.due - count;
          free = self.old.free + count;
        } }
    {
        self.due -= count;
    }

    pub fn take(&mut self) -> Option<Ast>
        ensures taken { result ≡ slice_get self.old.pending 0 }
        ensures pending { self.new.pending ≡ drop 1 self.old.pending }
        ensures due { self.new.due ≡ self.old.due }
        ensures free { self.old.free ≤ self.new.free }
    {
        match &mut self.rings {
            Some(rings) => rings.pop_front(),
            None => None,
        }
    }
}

//! The rings of a queue of ASTs, each of which is one block of memory.

ghost use Rattle.std.specs.Prelude.{◌≡◌, ◌≤◌, ◌<◌, ◌+◌, ◌-◌, ◌^◌, ◌++◌, [], ◌∷◌, drop, length, slice_get, IfOk, OnErr, OnOk};

use circular_buffer::HeapCircularBuffer;
use std::alloc::{AllocError, Global};
use std::marker::Model;
use std::mem::replace;
use vlm_words::asts::Ast;

/// Pending ASTs, oldest first, and free room for more. More room is a further ring, so no AST is moved.
#[derive(Drop)]
pub(crate) struct AstRings {
    // the rings that take no more ASTs, oldest first; none of them is empty
    closed: Vec<HeapCircularBuffer<Ast>>,
    // how many ASTs are in closed rings
    closed_len: usize,
    // the ring that takes the next ASTs
    open: HeapCircularBuffer<Ast>,
}

impl Model for AstRings {
    ghost use Rattle.vlm_records.specs.AstRings.{RingAsts};

    ghost Value = { RingAsts };

    ghost use Rattle.vlm_records.specs.AstRings.{rings_shown, AreCounted};

    ghost view = { rings_shown };

    ghost invariant = { AreCounted };
}

impl AstRings {
    pub fn with_capacity(alloc: Global, capacity: usize) -> Result<Self, AllocError>
        ensures { IfOk result (λ rings. rings ≡ record { pending = []; free = capacity }) }
    {
        Ok(AstRings {
            closed: Vec::new(alloc),
            closed_len: 0,
            open: HeapCircularBuffer::with_capacity(alloc, capacity)?,
        })
    }

    #[inline(always)]
    pub fn len(&self) -> usize
        ensures { result ≡ length self.now.pending }
    {
        self.closed_len + self.open.len()
    }

    #[inline(always)]
    pub fn free(&self) -> usize
        ensures free { result ≡ self.now.free }
        ensures within { result < 2 ^ 63 }
    {
        self.open.capacity() - self.open.len()
    }

    /// The size of the ring that takes the next ASTs.
    #[inline(always)]
    pub fn capacity(&self) -> usize
        ensures more { self.now.free ≤ result }
        ensures within { result < 2 ^ 63 }
    {
        self.open.capacity()
    }

    #[inline(always)]
    pub fn push_back(&mut self, ast: Ast)
        requires { 0 < self.old.free }
        ensures { self.new ≡ record {
          pending = self.old.pending ++ ast ∷ [];
          free = self.old.free - 1;
        } }
    {
        self.open.push_back(ast);
    }

    /// A closed ring goes with its last AST.
    #[inline(always)]
    pub fn pop_front(&mut self) -> Option<Ast>
        ensures taken { result ≡ slice_get self.old.pending 0 }
        ensures pending { self.new.pending ≡ drop 1 self.old.pending }
        ensures free { self.old.free ≤ self.new.free }
    {
        if self.closed.is_empty() {
            return self.open.pop_front();
        }
        let taken = self.closed[0].pop_front();
        self.closed_len -= 1;
        if self.closed[0].is_empty() {
            self.closed.remove(0);
        }
        taken
    }

    /// Closes the open ring, and opens one of this size. If memory is refused, nothing is changed.
    pub fn open_ring(&mut self, alloc: Global, capacity: usize) -> Result<(), AllocError>
        ensures pending { self.new.pending ≡ self.old.pending }
        ensures free { OnOk result (self.new.free ≡ capacity) }
        ensures refused { OnErr result (self.new ≡ self.old) }
    {
        let ring = HeapCircularBuffer::with_capacity(alloc, capacity)?;
        let closed_len = self
            .closed_len
            .checked_add(self.open.len())
            .ok_or(AllocError)?;
        closed_len.checked_add(capacity).ok_or(AllocError)?;
        self.closed.reserve(1)?;
        let full = replace(&mut self.open, ring);
        if !full.is_empty() {
            self.closed.push_reserved(full);
        }
        self.closed_len = closed_len;
        Ok(())
    }
}

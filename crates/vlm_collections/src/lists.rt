//! Lists, and the records that they run through.

ghost use Rattle.std.specs.Prelude.{◌≡◌, ◌≢◌, ◌≤◌, ℕ, Some, None, [], ◌∷◌, ◌++◌, length, slice_get};
ghost use Rattle.std.specs.Option.{ForSome};
ghost use Rattle.slab.specs.Slab.{get, ContainsKey};
ghost use Rattle.vlm_collections.specs.declared.link.Links.{Links};
ghost use Rattle.vlm_collections.specs.Lists.{IsIn, IsLinked, IsNoList, LinksOn, Lists, Relinks, first_handle, handle_after, handle_before, handles_of, last_handle, next_of, prev_of, without, written_links};

use crate::link::{LAST_HANDLE, Link, Links};
use slab::Slab;
use std::marker::PhantomData;

/// A record that lists of one kind can run through. `Kind` is a type that only names the kind.
pub trait Linked<Kind> {
    ghost links: { Self → Links };

    ghost with_links: { Self → Links → Self };

    fn links(&self) -> Links
        ensures { result ≡ links self.now };

    fn set_links(&mut self, pair: Links)
        ensures { self.new ≡ with_links self.old pair };

    ghost links_written: { (r : Self) (pair : Links) → links (with_links r pair) ≡ pair };

    ghost written_twice: { (r : Self) (a b : Links) → with_links (with_links r a) b
        ≡ with_links r b };

    ghost written_as_was: { (r : Self) → with_links r (links r) ≡ r };
}

/// A list of one kind, in twelve bytes. The records and their links are in a slab, which each call gets.
#[derive_where(Clone, Copy)]
pub struct LinkedList<Kind> {
    // the first and the last record; no handles if the list is empty
    first: Link,
    last: Link,
    // how many records are in the list, first and last included
    len: u32,
    kind: PhantomData<Kind>,
}

impl<Kind> LinkedList<Kind> {
    pub fn new() -> Self
        ensures { IsNoList result }
    {
        LinkedList {
            first: Link::none(),
            last: Link::none(),
            len: 0,
            kind: PhantomData,
        }
    }

    /// How many records are in the list. It is stored, not counted.
    pub fn len<T: Linked<Kind>>(&self, nodes: &Slab<T>) -> usize
        requires { IsLinked T.links nodes.now self.now }
        ensures { result ≡ length (handles_of T.links nodes.now self.now) }
    {
        self.len as usize
    }

    pub fn first<T: Linked<Kind>>(&self, nodes: &Slab<T>) -> Option<usize>
        requires { IsLinked T.links nodes.now self.now }
        ensures { result ≡ first_handle (handles_of T.links nodes.now self.now) }
    {
        self.first.handle()
    }

    pub fn last<T: Linked<Kind>>(&self, nodes: &Slab<T>) -> Option<usize>
        requires { IsLinked T.links nodes.now self.now }
        ensures { result ≡ last_handle (handles_of T.links nodes.now self.now) }
    {
        self.last.handle()
    }

    pub fn next<T: Linked<Kind>>(&self, nodes: &Slab<T>, handle: usize) -> Option<usize>
        requires { Lists T.links nodes.now self.now handle }
        ensures { result ≡ handle_after handle (handles_of T.links nodes.now self.now) }
    {
        nodes[handle].links().next.handle()
    }

    pub fn previous<T: Linked<Kind>>(&self, nodes: &Slab<T>, handle: usize) -> Option<usize>
        requires { Lists T.links nodes.now self.now handle }
        ensures { result ≡ handle_before handle (handles_of T.links nodes.now self.now) }
    {
        nodes[handle].links().prev.handle()
    }

    /// The record at an index, from 0, if there is one. It walks to that index.
    pub fn nth<T: Linked<Kind>>(&self, nodes: &Slab<T>, index: usize) -> Option<usize>
        requires { IsLinked T.links nodes.now self.now }
        ensures { result ≡ slice_get (handles_of T.links nodes.now self.now) index }
    {
        let mut at = self.first(nodes);
        for _ in 0..index {
            let Some(handle) = at else {
                return None;
            };
            at = self.next(nodes, handle);
        }
        at
    }

    /// Puts a record that is in no list of this kind at the end. It takes constant time and no memory.
    pub fn push_back<T: Linked<Kind>>(&mut self, nodes: &mut Slab<T>, handle: usize)
        requires linked { IsLinked T.links nodes.old self.old }
        requires present { ContainsKey nodes.old handle }
        requires within { handle ≤ LAST_HANDLE }
        requires unlisted { ¬ IsIn handle (handles_of T.links nodes.old self.old) }
        ensures linked { IsLinked T.links nodes.new self.new }
        ensures handles { handles_of T.links nodes.new self.new
            ≡ handles_of T.links nodes.old self.old ++ handle ∷ [] }
        ensures others { (other : ℕ) → ¬ IsIn other (handles_of T.links nodes.old self.old)
            → other ≢ handle → get nodes.new other ≡ get nodes.old other }
        ensures relinks { Relinks T.with_links nodes.old nodes.new }
    {
        let last = self.last;
        write_links::<Kind, T>(
            nodes,
            handle,
            Links {
                prev: last,
                next: Link::none(),
            },
        );
        link_forward(nodes, self, last, Link::to(handle));
        self.last = Link::to(handle);
        self.len += 1;
    }

    /// Takes a record out of the list, from any place in it. It takes constant time.
    pub fn unlink<T: Linked<Kind>>(&mut self, nodes: &mut Slab<T>, handle: usize)
        requires { Lists T.links nodes.old self.old handle }
        ensures linked { IsLinked T.links nodes.new self.new }
        ensures handles { handles_of T.links nodes.new self.new
            ≡ without handle (handles_of T.links nodes.old self.old) }
        ensures others { (other : ℕ) → ¬ IsIn other (handles_of T.links nodes.old self.old)
            → get nodes.new other ≡ get nodes.old other }
        ensures relinks { Relinks T.with_links nodes.old nodes.new }
    {
        let pair = nodes[handle].links();
        link_forward(nodes, self, pair.prev, pair.next);
        link_back(nodes, self, pair.next, pair.prev);
        self.len -= 1;
    }
}

fn write_links<Kind, T: Linked<Kind>>(nodes: &mut Slab<T>, handle: usize, pair: Links)
    requires { ContainsKey nodes.old handle }
    ensures here { get nodes.new handle ≡ written_links T.with_links pair (get nodes.old handle) }
    ensures others { (other : ℕ) → other ≢ handle → get nodes.new other ≡ get nodes.old other }
    ensures relinks { Relinks T.with_links nodes.old nodes.new }
{
    nodes[handle].set_links(pair);
}

// Links a spot to the spot after it. A spot is a record or an end of the list.
fn link_forward<Kind, T: Linked<Kind>>(
    nodes: &mut Slab<T>,
    list: &mut LinkedList<Kind>,
    from: Link,
    to: Link,
)
    requires { ForSome from (λ handle. ContainsKey nodes.old handle) }
    ensures last { list.new.last ≡ list.old.last }
    ensures links { LinksOn T.with_links (next_of T.links) (prev_of T.links) nodes.old nodes.new
        list.old list.new from to }
{
    match from.handle() {
        None => list.first = to,
        Some(handle) => {
            let node = &mut nodes[handle];
            let pair = node.links();
            node.set_links(Links { next: to, ..pair });
        }
    }
}

fn link_back<Kind, T: Linked<Kind>>(
    nodes: &mut Slab<T>,
    list: &mut LinkedList<Kind>,
    from: Link,
    to: Link,
)
    requires { ForSome from (λ handle. ContainsKey nodes.old handle) }
    ensures { LinksOn T.with_links (prev_of T.links) (next_of T.links) nodes.old nodes.new
        list.old list.new from to }
{
    match from.handle() {
        None => list.last = to,
        Some(handle) => {
            let node = &mut nodes[handle];
            let pair = node.links();
            node.set_links(Links { prev: to, ..pair });
        }
    }
}

//! The visit of a graph, depth first, with a stack of its own.

ghost use Rattle.std.specs.Prelude.{◌≡◌, ℕ, List, Option, None, Some, ◌+◌, ◌-◌, ◌<◌, ◌≤◌, ◌^◌, ◌∷◌, ◌++◌, [], length, set, OnOk, IfOk, get_or, All, reverse};
ghost use Rattle.hessian_graph.specs.declared.value.Value.{Value};
ghost use Rattle.hessian_graph.specs.Shape.{shape_of, values_of, values_at, node_of};
ghost use Rattle.hessian_graph.specs.Canon.{Visit, place_of};
ghost use Rattle.hessian_graph.specs.Work.{IsClosed, link_at, link_to, job_of, no_job, todo, opened, met, went_on, work, Fine, NamesBelow, HasNext};

use crate::check::node_in;
use crate::node::Node;
use crate::parts::Parts;
use crate::value::Value;
use std::alloc::{AllocError, Global};

/// What stands at a place of a node's values.
#[tactic(auto, using(crate::proofs::Alternately::link_even, crate::proofs::Alternately::link_odd, crate::proofs::Alternately::link_past, crate::proofs::Walking::has_next))]
#[derive(Clone, Copy)]
pub enum Link {
    /// Nothing: the values end.
    End,
    /// A value that is no node.
    Plain,
    /// The node of this number.
    To(u32),
}

/// A node that is being gone through.
#[derive(Clone, Copy)]
pub struct Step {
    /// The number of the node.
    pub node: u32,
    /// The place of the next of its values.
    pub at: usize,
}

/// A visit: the nodes in the order in which they were seen.
#[derive(Drop)]
pub struct Walk {
    /// For each node its place in the order, once it has been seen.
    pub numbers: Vec<Option<u32>>,
    /// The nodes seen, in order.
    pub order: Vec<u32>,
    stack: Vec<Step>,
}

/// What a value is.
fn link_of(value: &Value) -> Link
    ensures { result ≡ link_to (node_of value.now) }
{
    match node_in(value) {
        Some(number) => Link::To(number),
        None => Link::Plain,
    }
}

/// What stands at a place among values.
#[tactic(auto, using(crate::proofs::Walking::has_next))]
fn link_among(values: &[Value], at: usize) -> Link
    ensures link { result ≡ link_at values.now at }
    ensures room { HasNext result (at < usize.MAX) }
{
    if at < values.len() {
        link_of(&values[at])
    } else {
        Link::End
    }
}

/// What stands at a place of a node's values.
#[tactic(auto, using(crate::proofs::Alternately::link_even, crate::proofs::Alternately::link_odd, crate::proofs::Alternately::link_past, crate::proofs::Walking::has_next))]
fn link_in(node: &Node, at: usize) -> Link
    ensures link { result ≡ link_at (values_of node.now) at }
    ensures room { HasNext result (at < usize.MAX) }
{
    match node {
        Node::List { items, .. } => link_among(items.as_slice(), at),
        Node::Map { pairs, .. } => {
            let pairs = pairs.as_slice();
            if at / 2 >= pairs.len() {
                Link::End
            } else if at % 2 == 0 {
                link_of(&pairs[at / 2].key)
            } else {
                link_of(&pairs[at / 2].value)
            }
        }
        Node::Object { values, .. } => link_among(values.as_slice(), at),
    }
}

/// What stands where a step is.
fn link_next(parts: &Parts, top: Step) -> Link
    requires { top.node < length parts.now.nodes }
    ensures link { result ≡ link_at (values_at (shape_of parts.now) top.node) top.at }
    ensures room { HasNext result (top.at < usize.MAX) }
{
    link_in(&parts.nodes.as_slice()[top.node as usize], top.at)
}

impl Walk {
    /// A visit that has seen none of so many nodes.
    fn new(alloc: Global, parts: &Parts) -> Result<Walk, AllocError>
        ensures job { IfOk result (λ w. job_of w ≡ no_job) }
        ensures fine { IfOk result (Fine (shape_of parts.now)) }
    {
        let mut numbers = Vec::new(alloc);
        for _node in parts.nodes.as_slice() {
            numbers.push(None)?;
        }
        Ok(Walk {
            numbers,
            order: Vec::new(alloc),
            stack: Vec::new(alloc),
        })
    }

    /// Sees a node for the first time.
    #[tactic(auto, using(crate::proofs::Walking::seen_below))]
    fn open(&mut self, parts: &Parts, node: u32) -> Result<(), AllocError>
        requires closed { IsClosed (shape_of parts.now) }
        requires fine { Fine (shape_of parts.now) self.old }
        requires within { node < length (shape_of parts.now).nodes }
        requires new { place_of node self.old.order.items ≡ None }
        ensures order { OnOk result (self.new.order.items ≡ self.old.order.items ++ node ∷ []) }
        ensures numbers { OnOk result (self.new.numbers.items ≡ set self.old.numbers.items node (Some (length self.old.order.items))) }
        ensures stack { self.new.stack ≡ self.old.stack }
        ensures fine { OnOk result (Fine (shape_of parts.now) self.new) }
    {
        self.numbers[node as usize] = Some(self.order.len() as u32);
        self.order.push(node)?;
        Ok(())
    }

    /// The place of a node in the order, once it has been seen.
    pub fn place(&self, parts: &Parts, node: u32) -> Option<u32>
        requires fine { Fine (shape_of parts.now) self.now }
        requires within { node < length (shape_of parts.now).nodes }
        ensures { result ≡ place_of node self.now.order.items }
    {
        self.numbers[node as usize]
    }

    /// Meets a node, which is gone through if it's new.
    fn meet(&mut self, parts: &Parts, node: u32) -> Result<(), AllocError>
        requires closed { IsClosed (shape_of parts.now) }
        requires fine { Fine (shape_of parts.now) self.old }
        requires within { node < length (shape_of parts.now).nodes }
        ensures job { OnOk result (job_of self.new ≡ met (Some node) (job_of self.old)) }
        ensures fine { OnOk result (Fine (shape_of parts.now) self.new) }
        ensures work { OnOk result (work (shape_of parts.now) self.new ≤ work (shape_of parts.now) self.old) }
    {
        if self.place(parts, node).is_none() {
            self.open(parts, node)?;
            self.stack.push(Step { node, at: 0 })?;
        }
        Ok(())
    }

    /// Goes on at a step that was on top of the stack.
    fn go_on(&mut self, parts: &Parts, top: Step) -> Result<(), AllocError>
        requires closed { IsClosed (shape_of parts.now) }
        requires fine { Fine (shape_of parts.now) self.old }
        requires top { top.node < length (shape_of parts.now).nodes }
        ensures job { OnOk result (job_of self.new
            ≡ went_on top (reverse self.old.stack.items) (link_at (values_at (shape_of parts.now) top.node) top.at) (job_of self.old)) }
        ensures fine { OnOk result (Fine (shape_of parts.now) self.new) }
        ensures work { OnOk result (work (shape_of parts.now) self.new
            ≤ work (shape_of parts.now) self.old + (length (values_at (shape_of parts.now) top.node) - top.at)) }
    {
        let link = link_next(parts, top);
        match link {
            Link::End => Ok(()),
            Link::Plain => self.advance(parts, top),
            Link::To(node) => {
                self.advance(parts, top)?;
                self.meet(parts, node)
            }
        }
    }

    /// Puts a step back on the stack, one value further.
    fn advance(&mut self, parts: &Parts, top: Step) -> Result<(), AllocError>
        requires fine { Fine (shape_of parts.now) self.old }
        requires top { top.node < length (shape_of parts.now).nodes }
        requires more { top.at < length (values_at (shape_of parts.now) top.node) }
        requires room { top.at < usize.MAX }
        ensures order { self.new.order ≡ self.old.order }
        ensures numbers { self.new.numbers ≡ self.old.numbers }
        ensures stack { OnOk result (self.new.stack.items ≡ self.old.stack.items ++ record { node = top.node; at = top.at + 1 } ∷ []) }
        ensures fine { OnOk result (Fine (shape_of parts.now) self.new) }
        ensures work { OnOk result (work (shape_of parts.now) self.new
            ≤ work (shape_of parts.now) self.old + (length (values_at (shape_of parts.now) top.node) - top.at)) }
    {
        self.stack.push(Step {
            node: top.node,
            at: top.at + 1,
        })?;
        Ok(())
    }

    /// Goes through what is left of the nodes on the stack.
    fn drain(&mut self, parts: &Parts) -> Result<(), AllocError>
        requires closed { IsClosed (shape_of parts.now) }
        requires fine { Fine (shape_of parts.now) self.old }
        ensures empty { OnOk result (self.new.stack.items ≡ []) }
        ensures fine { OnOk result (Fine (shape_of parts.now) self.new) }
        ensures leads { OnOk result ((last : List Value) (out : List ℕ) → Visit (shape_of parts.now) self.new.order.items last out
            → Visit (shape_of parts.now) self.old.order.items (todo (shape_of parts.now) (reverse self.old.stack.items) last) out) }
    {
        while let Some(top) = self.stack.pop() {
            self.go_on(parts, top)?;
        }
        Ok(())
    }

    /// Goes through a root.
    fn root(&mut self, parts: &Parts, root: &Value) -> Result<(), AllocError>
        requires closed { IsClosed (shape_of parts.now) }
        requires fine { Fine (shape_of parts.now) self.old }
        requires empty { self.old.stack.items ≡ [] }
        requires root { NamesBelow (length (shape_of parts.now).nodes) root.now }
        ensures empty { OnOk result (self.new.stack.items ≡ []) }
        ensures fine { OnOk result (Fine (shape_of parts.now) self.new) }
        ensures leads { OnOk result ((last : List Value) (out : List ℕ) → Visit (shape_of parts.now) self.new.order.items last out
            → Visit (shape_of parts.now) self.old.order.items (root.now ∷ last) out) }
    {
        match node_in(root) {
            Some(node) => {
                self.meet(parts, node)?;
                self.drain(parts)?;
                Ok(())
            }
            None => Ok(()),
        }
    }
}

/// Visits the nodes that the roots reach, in the order of the canonical form.
pub fn visit(alloc: Global, parts: &Parts) -> Result<Walk, AllocError>
    requires closed { IsClosed (shape_of parts.now) }
    ensures visit { IfOk result (λ w. Visit (shape_of parts.now) [] parts.now.roots w.order.items) }
    ensures fine { IfOk result (Fine (shape_of parts.now)) }
{
    let roots = parts.roots.as_slice();
    let mut walk = Walk::new(alloc, parts)?;
    for root in roots {
        walk.root(parts, root)?;
    }
    Ok(walk)
}

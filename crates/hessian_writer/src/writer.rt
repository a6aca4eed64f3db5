//! A writer: the tables that all values share, and a stack of its own.

ghost use Rattle.std.specs.Prelude.{◌≡◌, ℕ, List, suc, ◌+◌, ◌-◌, ◌<◌, ◌≤◌, ◌^◌, ◌∷◌, [], drop, length, get_or, reverse, OnOk, IfOk, None, All};
ghost use Rattle.hessian_graph.specs.Shape.{shape_of, kind_of, kind_at, values_of, values_at, no_class};
ghost use Rattle.hessian_graph.specs.Canon.{place_of};
ghost use Rattle.hessian_graph.specs.Moving.{NamesThere};
ghost use Rattle.hessian_graph.specs.Work.{NamesBelow};
ghost use Rattle.hessian_graph.specs.declared.value.Value.TheVariants.{Node as AtNode};
ghost use Rattle.hessian_writer.specs.Leaves.{hessian_forms};
ghost use Rattle.hessian_writer.specs.Writable.{IsShortKind};
ghost use Rattle.hessian_writer.specs.Sharing.{NamesFit};
ghost use Rattle.hessian_writer.specs.Appending.{AppendsHead};
ghost use Rattle.hessian_writer.specs.Course.{Due, ValueOf, values_then, end_then, GoesOn};
ghost use Rattle.hessian_writer.specs.Progress.{tables_with, state_of, due_on, work, CanWrite, Fine, begun_state, WritesHead};

use crate::head::{write_list, write_object, write_type, write_typed_list};
use crate::leaf::write_plain;
use crate::names::Names;
use crate::numbering::Numbering;
use crate::run::{Stop, is_over, write_end, write_run};
use hessian_graph::{Node, OutOfMemory, Parts, Value};
use hessian_scalars::write_int;
use std::alloc::Global;

/// A node whose values are being written.
#[derive(Clone, Copy)]
pub(crate) struct Step {
    /// The number of the node.
    pub node: u32,
    /// The place of the next of its values.
    pub at: usize,
}

/// Values that are written one after another into one list of bytes, with one set of tables.
#[derive(Drop)]
pub(crate) struct Writer {
    /// The nodes that have begun, in order.
    pub nodes: Numbering,
    /// The types that have been written.
    pub types: Names,
    /// The classes that have been defined.
    pub classes: Names,
    /// The nodes that have begun and not ended, the innermost last.
    pub stack: Vec<Step>,
    /// What has been written.
    pub out: Vec<u8>,
}

impl Writer {
    /// A writer with empty tables, which writes behind these bytes.
    pub fn new(alloc: Global, parts: &Parts, out: Vec<u8>) -> Result<Writer, OutOfMemory>
        ensures fine { IfOk result (Fine parts.now) }
        ensures state { IfOk result (λ w. state_of parts.now w ≡ begun_state out.items) }
        ensures empty { IfOk result (λ w. w.stack.items ≡ []) }
    {
        let nodes = Numbering::new(alloc, parts.nodes.as_slice().len())?;
        let types = Names::of_types(alloc, parts.types.as_slice())?;
        let classes = Names::of_classes(alloc, parts.classes.as_slice())?;
        Ok(Writer {
            nodes,
            types,
            classes,
            stack: Vec::new(alloc),
            out,
        })
    }

    /// Writes a root and all that it leads to.
    pub fn root(&mut self, alloc: Global, parts: &Parts, root: &Value) -> Result<(), OutOfMemory>
        requires ready { CanWrite parts.now }
        requires fine { Fine parts.now self.old }
        requires empty { self.old.stack.items ≡ [] }
        requires root { NamesBelow (length parts.now.nodes) root.now }
        ensures fine { OnOk result (Fine parts.now self.new) }
        ensures empty { OnOk result (self.new.stack.items ≡ []) }
        ensures goes_on { OnOk result ((ds : List Due) → GoesOn hessian_forms (shape_of parts.now)
            (state_of parts.now self.old) (ValueOf root.now ∷ ds) (state_of parts.now self.new) ds) }
    {
        match write_plain(alloc, &mut self.out, root)? {
            Some(node) => {
                self.meet(alloc, parts, node)?;
                self.drain(alloc, parts)?;
                Ok(())
            }
            None => Ok(()),
        }
    }

    /// Goes through what is left of the nodes on the stack.
    fn drain(&mut self, alloc: Global, parts: &Parts) -> Result<(), OutOfMemory>
        requires ready { CanWrite parts.now }
        requires fine { Fine parts.now self.old }
        ensures fine { OnOk result (Fine parts.now self.new) }
        ensures empty { OnOk result (self.new.stack.items ≡ []) }
        ensures goes_on { OnOk result ((ds : List Due) → GoesOn hessian_forms (shape_of parts.now)
            (state_of parts.now self.old) (due_on (shape_of parts.now) (reverse self.old.stack.items) ds)
            (state_of parts.now self.new) ds) }
    {
        while let Some(top) = self.stack.pop() {
            self.go_on(alloc, parts, top)?;
        }
        Ok(())
    }

    /// Goes on at a step that was on top of the stack.
    fn go_on(&mut self, alloc: Global, parts: &Parts, top: Step) -> Result<(), OutOfMemory>
        requires ready { CanWrite parts.now }
        requires fine { Fine parts.now self.old }
        requires top { top.node < length parts.now.nodes }
        ensures fine { OnOk result (Fine parts.now self.new) }
        ensures goes_on { OnOk result ((ds : List Due) → GoesOn hessian_forms (shape_of parts.now)
            (state_of parts.now self.old)
            (values_then (drop top.at (values_at (shape_of parts.now) top.node))
            (end_then (kind_at (shape_of parts.now) top.node) (due_on (shape_of parts.now) (reverse self.old.stack.items) ds)))
            (state_of parts.now self.new) (due_on (shape_of parts.now) (reverse self.new.stack.items) ds)) }
        ensures work { OnOk result (work parts.now self.new
            ≤ work parts.now self.old + (length (values_at (shape_of parts.now) top.node) - top.at)) }
    {
        let node = &parts.nodes.as_slice()[top.node as usize];
        match write_run(alloc, &mut self.out, node, top.at)? {
            Stop::End => {
                write_end(&mut self.out, node)?;
                Ok(())
            }
            Stop::Node { number, behind } => {
                let step = Step {
                    node: top.node,
                    at: behind,
                };
                self.keep(parts, step)?;
                self.meet(alloc, parts, number)?;
                Ok(())
            }
        }
    }

    /// Puts a step on the stack, unless nothing is due at its node any more.
    fn keep(&mut self, parts: &Parts, step: Step) -> Result<(), OutOfMemory>
        requires fine { Fine parts.now self.old }
        requires within { step.node < length parts.now.nodes }
        ensures fine { OnOk result (Fine parts.now self.new) }
        ensures state { OnOk result (state_of parts.now self.new ≡ state_of parts.now self.old) }
        ensures due { OnOk result ((ds : List Due) → due_on (shape_of parts.now) (reverse self.new.stack.items) ds
            ≡ values_then (drop step.at (values_at (shape_of parts.now) step.node))
            (end_then (kind_at (shape_of parts.now) step.node) (due_on (shape_of parts.now) (reverse self.old.stack.items) ds))) }
        ensures work { OnOk result (work parts.now self.new
            ≤ work parts.now self.old + suc (length (values_at (shape_of parts.now) step.node) - step.at)) }
    {
        let node = &parts.nodes.as_slice()[step.node as usize];
        if is_over(node, step.at) {
            return Ok(());
        }
        self.stack.push(step)?;
        Ok(())
    }

    /// Writes a node: its number where it has begun, else its head, and its values are due.
    fn meet(&mut self, alloc: Global, parts: &Parts, node: u32) -> Result<(), OutOfMemory>
        requires ready { CanWrite parts.now }
        requires fine { Fine parts.now self.old }
        requires within { node < length parts.now.nodes }
        ensures fine { OnOk result (Fine parts.now self.new) }
        ensures goes_on { OnOk result ((ds : List Due) → GoesOn hessian_forms (shape_of parts.now)
            (state_of parts.now self.old) (ValueOf (AtNode node) ∷ due_on (shape_of parts.now) (reverse self.old.stack.items) ds)
            (state_of parts.now self.new) (due_on (shape_of parts.now) (reverse self.new.stack.items) ds)) }
        ensures work { OnOk result (work parts.now self.new ≤ work parts.now self.old) }
    {
        match self.nodes.number(node as usize) {
            Some(number) => {
                self.out.push(0x51)?;
                write_int(alloc, &mut self.out, number as i32)?;
                Ok(())
            }
            None => {
                self.begin(alloc, parts, node)?;
                Ok(())
            }
        }
    }

    /// Begins a node that hasn't begun.
    fn begin(&mut self, alloc: Global, parts: &Parts, node: u32) -> Result<(), OutOfMemory>
        requires ready { CanWrite parts.now }
        requires fine { Fine parts.now self.old }
        requires within { node < length parts.now.nodes }
        requires new { place_of node self.old.nodes.order ≡ None }
        ensures fine { OnOk result (Fine parts.now self.new) }
        ensures goes_on { OnOk result ((ds : List Due) → GoesOn hessian_forms (shape_of parts.now)
            (state_of parts.now self.old) (ValueOf (AtNode node) ∷ due_on (shape_of parts.now) (reverse self.old.stack.items) ds)
            (state_of parts.now self.new) (due_on (shape_of parts.now) (reverse self.new.stack.items) ds)) }
        ensures work { OnOk result (work parts.now self.new ≤ work parts.now self.old) }
    {
        self.head(alloc, parts, &parts.nodes.as_slice()[node as usize])?;
        self.nodes.give(node as usize)?;
        self.stack.push(Step { node, at: 0 })?;
        Ok(())
    }

    /// Writes what stands before the values of a node.
    fn head(&mut self, alloc: Global, parts: &Parts, node: &Node) -> Result<(), OutOfMemory>
        requires types { NamesFit [] parts.now.types self.old.types.firsts.items self.old.types.used }
        requires classes { NamesFit no_class parts.now.classes self.old.classes.firsts.items self.old.classes.used }
        requires there { NamesThere parts.now.types parts.now.classes node.now }
        requires few_types { length self.old.types.used.order < 2 ^ 31 }
        requires few_classes { length self.old.classes.used.order < 2 ^ 31 }
        requires short { IsShortKind (kind_of parts.now.types parts.now.classes node.now) (values_of node.now) }
        ensures head { OnOk result (WritesHead parts.now node.now self.old self.new) }
    {
        match node {
            Node::List {
                type_name: None,
                items,
            } => {
                write_list(alloc, &mut self.out, items.as_slice().len())?;
                Ok(())
            }
            Node::List {
                type_name: Some(number),
                items,
            } => {
                let types = parts.types.as_slice();
                let count = items.as_slice().len();
                write_typed_list(alloc, &mut self.out, types, &mut self.types, *number, count)?;
                Ok(())
            }
            Node::Map {
                type_name: None,
                ..
            } => {
                self.out.push(b'H')?;
                Ok(())
            }
            Node::Map {
                type_name: Some(number),
                ..
            } => {
                let types = parts.types.as_slice();
                self.out.push(b'M')?;
                write_type(alloc, &mut self.out, types, &mut self.types, *number)?;
                Ok(())
            }
            Node::Object { class, .. } => {
                let classes = parts.classes.as_slice();
                write_object(alloc, &mut self.out, classes, &mut self.classes, *class)?;
                Ok(())
            }
        }
    }
}

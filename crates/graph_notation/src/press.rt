//! Printing a graph, element by element.

ghost use Rattle.std.specs.Prelude.{◌≡◌, ◌+◌, ◌-◌, ◌<◌, ◌≤◌, [], Err, length, get_or, OnOk, IfOk, IsTrue, ◌↔◌};
ghost use Rattle.hessian_graph.specs.Shape.{shape_of, values_at, no_vertex};
ghost use Rattle.hessian_graph.specs.declared.value.Value.TheVariants.{Node as AtNode, Null};
ghost use Rattle.graph_notation.specs.Notation.{PrintsForm, IsPrinted};
ghost use Rattle.graph_notation.specs.Preparing.{HaveTexts};
ghost use Rattle.graph_notation.specs.Pressing.{Pressed, PressedAt, Awaits, CanPrint, AreCanonical, work};

use crate::class_texts::{ClassTexts, texts_of};
use crate::entries::{value_at, write_before, write_comma, write_end, write_head, write_leaf};
use crate::halt::Halt;
use crate::leaves::write_leaves;
use hessian_graph::{Graph, Node, Parts, Value, canon};
use std::alloc::{AllocError, Global};

/// A node whose entries are being printed.
#[derive(Clone, Copy)]
pub struct Step {
    /// The number of the node.
    pub node: u32,
    /// The place of the next of its values, a map's keys and values alternately.
    pub at: usize,
}

/// What is printed.
#[derive(Drop)]
pub struct Press {
    /// The text so far.
    pub out: Vec<u8>,
    /// How many nodes have begun: those of the numbers below.
    pub begun: usize,
    /// How many roots have begun.
    pub roots: usize,
    /// The nodes whose entries are being printed, the innermost last.
    pub stack: Vec<Step>,
}

impl Press {
    /// Nothing is printed.
    pub fn new(alloc: Global, parts: &Parts) -> Press
        ensures pressed { Pressed (shape_of parts.now) result }
        ensures empty { result.stack.items ≡ [] }
        ensures none { result.roots ≡ 0 }
    {
        Press {
            out: Vec::new(alloc),
            begun: 0,
            roots: 0,
            stack: Vec::new(alloc),
        }
    }

    /// Prints a value. Of a node that hasn't begun it prints what stands before the entries.
    fn value(&mut self, parts: &Parts, texts: &[ClassTexts], value: &Value) -> Result<(), Halt>
        requires ready { CanPrint parts.now }
        requires texts { HaveTexts parts.now.classes texts.now }
        requires awaits { Awaits (shape_of parts.now) value.now self.old }
        ensures pressed { OnOk result (Pressed (shape_of parts.now) self.new) }
        ensures work { OnOk result (work (shape_of parts.now) self.new ≤ work (shape_of parts.now) self.old) }
        ensures roots { self.new.roots ≡ self.old.roots }
        ensures order { result ≡ Err Halt.OutOfOrder → AreCanonical parts.now → ⊥ }
    {
        match value {
            Value::Node(number) if *number as usize >= self.begun => self.begin(
                parts, texts, *number,
            ),
            _ => {
                write_leaf(&mut self.out, value)?;
                Ok(())
            }
        }
    }

    /// Whether a node is the one that begins next.
    fn is_next(&self, parts: &Parts, number: u32) -> bool
        ensures { IsTrue result ↔ ((number ≡ self.now.begun) × (number < length parts.now.nodes)) }
    {
        let node = number as usize;
        node == self.begun && node < parts.nodes.as_slice().len()
    }

    /// Begins a node that hasn't begun: prints what stands before its entries.
    fn begin(&mut self, parts: &Parts, texts: &[ClassTexts], number: u32) -> Result<(), Halt>
        requires ready { CanPrint parts.now }
        requires texts { HaveTexts parts.now.classes texts.now }
        requires awaits { Awaits (shape_of parts.now) (AtNode number) self.old }
        requires new { self.old.begun ≤ number }
        ensures pressed { OnOk result (Pressed (shape_of parts.now) self.new) }
        ensures work { OnOk result (work (shape_of parts.now) self.new ≤ work (shape_of parts.now) self.old) }
        ensures roots { self.new.roots ≡ self.old.roots }
        ensures order { result ≡ Err Halt.OutOfOrder → AreCanonical parts.now → ⊥ }
    {
        if self.is_next(parts, number) {
            self.open(parts, texts, number)?;
            Ok(())
        } else {
            Err(Halt::OutOfOrder)
        }
    }

    /// Begins the node that comes next.
    fn open(&mut self, parts: &Parts, texts: &[ClassTexts], number: u32) -> Result<(), AllocError>
        requires ready { CanPrint parts.now }
        requires texts { HaveTexts parts.now.classes texts.now }
        requires awaits { Awaits (shape_of parts.now) (AtNode number) self.old }
        requires next { number ≡ self.old.begun }
        requires there { number < length parts.now.nodes }
        ensures pressed { OnOk result (Pressed (shape_of parts.now) self.new) }
        ensures work { OnOk result (work (shape_of parts.now) self.new ≤ work (shape_of parts.now) self.old) }
        ensures roots { self.new.roots ≡ self.old.roots }
    {
        write_head(
            &mut self.out,
            parts,
            texts,
            &parts.nodes.as_slice()[number as usize],
        )?;
        self.begun += 1;
        self.stack.push(Step {
            node: number,
            at: 0,
        })?;
        Ok(())
    }

    /// Prints the next values of a node up to one that has yet to begin, and answers its place.
    fn leaves(
        &mut self,
        parts: &Parts,
        texts: &[ClassTexts],
        node: &Node,
        step: Step,
    ) -> Result<usize, AllocError>
        requires ready { CanPrint parts.now }
        requires texts { HaveTexts parts.now.classes texts.now }
        requires below { step.node < length parts.now.nodes }
        requires here { node.now ≡ get_or parts.now.nodes step.node no_vertex }
        requires pressed { PressedAt (shape_of parts.now) step self.old }
        ensures same { (self.new.stack ≡ self.old.stack) × (self.new.begun ≡ self.old.begun) × (self.new.roots ≡ self.old.roots) }
        ensures further { IfOk result (λ at. step.at ≤ at) }
        ensures pressed { IfOk result (λ at. PressedAt (shape_of parts.now) (record { node = step.node; at = at }) self.new) }
    {
        write_leaves(&mut self.out, parts, texts, node, step.at, self.begun)
    }

    /// Prints the next value of a node, or its end.
    fn turn(
        &mut self,
        parts: &Parts,
        texts: &[ClassTexts],
        node: &Node,
        step: Step,
    ) -> Result<(), Halt>
        requires ready { CanPrint parts.now }
        requires texts { HaveTexts parts.now.classes texts.now }
        requires below { step.node < length parts.now.nodes }
        requires here { node.now ≡ get_or parts.now.nodes step.node no_vertex }
        requires pressed { PressedAt (shape_of parts.now) step self.old }
        ensures pressed { OnOk result (Pressed (shape_of parts.now) self.new) }
        ensures work { OnOk result (work (shape_of parts.now) self.new
            ≤ work (shape_of parts.now) self.old + (length (values_at (shape_of parts.now) step.node) - step.at)) }
        ensures roots { self.new.roots ≡ self.old.roots }
        ensures order { result ≡ Err Halt.OutOfOrder → AreCanonical parts.now → ⊥ }
    {
        match value_at(node, step.at) {
            Some(value) => {
                write_before(&mut self.out, parts, texts, node, step.at)?;
                self.stack.push(Step {
                    node: step.node,
                    at: step.at + 1,
                })?;
                self.value(parts, texts, value)?;
                Ok(())
            }
            None => {
                write_end(&mut self.out, parts, node)?;
                Ok(())
            }
        }
    }

    /// Goes on at the innermost node: prints its next values up to a node that begins, or up to its end.
    fn go_on(&mut self, parts: &Parts, texts: &[ClassTexts], step: Step) -> Result<(), Halt>
        requires ready { CanPrint parts.now }
        requires texts { HaveTexts parts.now.classes texts.now }
        requires pressed { PressedAt (shape_of parts.now) step self.old }
        ensures pressed { OnOk result (Pressed (shape_of parts.now) self.new) }
        ensures work { OnOk result (work (shape_of parts.now) self.new
            ≤ work (shape_of parts.now) self.old + (length (values_at (shape_of parts.now) step.node) - step.at)) }
        ensures roots { self.new.roots ≡ self.old.roots }
        ensures order { result ≡ Err Halt.OutOfOrder → AreCanonical parts.now → ⊥ }
    {
        let node = &parts.nodes.as_slice()[step.node as usize];
        let at = self.leaves(parts, texts, node, step)?;
        self.turn(
            parts,
            texts,
            node,
            Step {
                node: step.node,
                at,
            },
        )?;
        Ok(())
    }

    /// Prints what is left of the nodes that have begun.
    fn drain(&mut self, parts: &Parts, texts: &[ClassTexts]) -> Result<(), Halt>
        requires ready { CanPrint parts.now }
        requires texts { HaveTexts parts.now.classes texts.now }
        requires pressed { Pressed (shape_of parts.now) self.old }
        ensures pressed { OnOk result (Pressed (shape_of parts.now) self.new) }
        ensures empty { OnOk result (self.new.stack.items ≡ []) }
        ensures roots { self.new.roots ≡ self.old.roots }
        ensures order { result ≡ Err Halt.OutOfOrder → AreCanonical parts.now → ⊥ }
    {
        while let Some(step) = self.stack.pop() {
            self.go_on(parts, texts, step)?;
        }
        Ok(())
    }

    /// Prints a root, and what it reaches.
    fn root(&mut self, parts: &Parts, texts: &[ClassTexts], root: &Value) -> Result<(), Halt>
        requires ready { CanPrint parts.now }
        requires texts { HaveTexts parts.now.classes texts.now }
        requires pressed { Pressed (shape_of parts.now) self.old }
        requires empty { self.old.stack.items ≡ [] }
        requires within { self.old.roots < length parts.now.roots }
        requires room { self.old.roots < usize.MAX }
        requires is { root.now ≡ get_or parts.now.roots self.old.roots Null }
        ensures pressed { OnOk result (Pressed (shape_of parts.now) self.new) }
        ensures empty { OnOk result (self.new.stack.items ≡ []) }
        ensures roots { OnOk result (self.new.roots ≡ self.old.roots + 1) }
        ensures order { result ≡ Err Halt.OutOfOrder → AreCanonical parts.now → ⊥ }
    {
        write_comma(&mut self.out, self.roots)?;
        self.roots += 1;
        self.value(parts, texts, root)?;
        self.drain(parts, texts)?;
        Ok(())
    }

    /// Whether each node has begun.
    fn all_begun(&self, parts: &Parts) -> bool
        ensures { IsTrue result ↔ (self.now.begun ≡ length parts.now.nodes) }
    {
        self.begun == parts.nodes.as_slice().len()
    }

    /// Prints the roots, and what they reach.
    fn roots(&mut self, parts: &Parts, texts: &[ClassTexts]) -> Result<(), Halt>
        requires ready { CanPrint parts.now }
        requires texts { HaveTexts parts.now.classes texts.now }
        requires pressed { Pressed (shape_of parts.now) self.old }
        requires empty { self.old.stack.items ≡ [] }
        requires none { self.old.roots ≡ 0 }
        ensures printed { OnOk result (IsPrinted (shape_of parts.now) self.new.out.items) }
        ensures order { result ≡ Err Halt.OutOfOrder → AreCanonical parts.now → ⊥ }
    {
        for root in parts.roots.as_slice() {
            self.root(parts, texts, root)?;
        }
        if self.all_begun(parts) {
            Ok(())
        } else {
            Err(Halt::OutOfOrder)
        }
    }
}

/// The notation of a graph as it stands, where that is its canonical form.
fn print_parts(alloc: Global, parts: &Parts) -> Result<Vec<u8>, Halt>
    requires { CanPrint parts.now }
    ensures printed { IfOk result (λ text. IsPrinted (shape_of parts.now) text.items) }
    ensures order { result ≡ Err Halt.OutOfOrder → AreCanonical parts.now → ⊥ }
{
    let texts = texts_of(alloc, parts.classes.as_slice())?;
    let mut press = Press::new(alloc, parts);
    press.roots(parts, texts.as_slice())?;
    let Press { out, .. } = press;
    Ok(out)
}

/// The notation of a graph that isn't its canonical form: that of a copy.
fn print_copy(alloc: Global, graph: &Graph) -> Result<Vec<u8>, AllocError>
    ensures { IfOk result (λ text. PrintsForm (shape_of graph.now) text.items) }
{
    let _given = graph.parts();
    let form = canon(alloc, graph)?;
    match print_parts(alloc, form.parts()) {
        Ok(text) => Ok(text),
        Err(Halt::NoMemory) => Err(AllocError),
        Err(Halt::OutOfOrder) => unreachable!(),
    }
}

/// The notation of a graph: the one text of its canonical form, on one line, without a line end.
///
/// The notation repeats names, so it can be far longer than the graph.
pub fn print_graph(alloc: Global, graph: &Graph) -> Result<Vec<u8>, AllocError>
    ensures { IfOk result (λ text. PrintsForm (shape_of graph.now) text.items) }
{
    match print_parts(alloc, graph.parts()) {
        Ok(text) => Ok(text),
        Err(Halt::NoMemory) => Err(AllocError),
        Err(Halt::OutOfOrder) => print_copy(alloc, graph),
    }
}

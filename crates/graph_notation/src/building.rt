//! The graph of what was read.

ghost use Rattle.std.specs.Prelude.{◌≡◌, ℕ, ◌+◌, ◌<◌, ◌≤◌, ◌^◌, ◌∷◌, ◌++◌, [], List, length, map, OnOk, IfOk, MatchOption};
ghost use Rattle.hessian_graph.specs.Shape.{shape_of, node_shape, type_of, alternately, no_class, ListKind, MapKind, ObjectKind};
ghost use Rattle.hessian_graph.specs.Canon.{Rises, given_number};
ghost use Rattle.hessian_graph.specs.Tables.{IsNumber, NumberBelow};
ghost use Rattle.hessian_graph.specs.Moving.{AllThere};
ghost use Rattle.hessian_graph.specs.InUse.{InOrderOfUse};
ghost use Rattle.graph_notation.specs.declared.element.Element.{Element};
ghost use Rattle.graph_notation.specs.Forms.{SpellsGraph};
ghost use Rattle.graph_notation.specs.Machine.{shown, kind_of, graph_of};
ghost use Rattle.graph_notation.specs.Whole.{IsEven, Fits, AllGood};
ghost use Rattle.graph_notation.specs.Built.{Grows};
ghost use Rattle.graph_notation.specs.Naming.{TextsFit, ClassesFit, NamesFit, HasRoom, NamesTaken};
ghost use Rattle.graph_notation.specs.View.{state_of};

use crate::frame::{Frame, Head};
use crate::lists::{Names, Values};
use crate::name_table::{ClassTable, TextTable};
use crate::reader::Reader;
use hessian_graph::{
    Chars, Class, Classes, Graph, Items, Node, Nodes, Pair, Pairs, Parts, Texts, Value,
};
use std::alloc::{AllocError, Global};

/// The last two values.
fn pop_pair(values: &mut Vec<Value>) -> Option<Pair>
    requires { IsEven (length values.old.items) }
    ensures { MatchOption result (values.old.items ≡ []) (λ p. values.old.items ≡ values.new.items ++ (p.key ∷ p.value ∷ [])) }
{
    match values.pop() {
        Some(value) => match values.pop() {
            Some(key) => Some(Pair { key, value }),
            None => None,
        },
        None => None,
    }
}

/// The pairs whose keys and values stand alternately.
#[tactic(auto, using(crate::proofs::Assembling::pairs_more, crate::proofs::Assembling::pairs_whole))]
fn pair_up(alloc: Global, values: Vec<Value>) -> Result<Pairs, AllocError>
    requires { IsEven (length values.items) }
    ensures { IfOk result (λ pairs. alternately pairs ≡ values.items) }
{
    let mut left = values;
    let mut pairs = Vec::new(alloc);
    while let Some(pair) = pop_pair(&mut left) {
        pairs.push(pair)?;
    }
    pairs.as_mut_slice().reverse();
    Ok(Pairs::from(pairs))
}

/// The names of types and classes, in the order of first use, each once.
#[derive(Drop)]
pub struct Tables {
    /// The types.
    pub types: TextTable,
    /// The classes.
    pub classes: ClassTable,
}

impl Tables {
    /// Tables without names.
    fn new(alloc: Global) -> Tables
        ensures fits { NamesFit result }
        ensures types { result.types.texts.items ≡ [] }
        ensures classes { result.classes.rows.items ≡ [] }
    {
        Tables {
            types: TextTable::new(alloc),
            classes: ClassTable::new(alloc),
        }
    }

    /// The number of a type, where there is one.
    #[tactic(auto, using(crate::proofs::Naming::number_small, crate::proofs::Naming::number_grows, crate::proofs::Naming::number_rises, crate::proofs::Naming::grows_none))]
    fn add_type(&mut self, alloc: Global, name: Option<Chars>) -> Result<Option<u32>, AllocError>
        requires fits { TextsFit self.old.types }
        requires room { length self.old.types.texts.items < 2 ^ 32 }
        ensures named { IfOk result (λ n. type_of self.new.types.texts.items n ≡ name) }
        ensures there { IfOk result (NumberBelow (length self.new.types.texts.items)) }
        ensures fits { OnOk result (TextsFit self.new.types) }
        ensures grows { OnOk result (Grows self.old.types.texts.items self.new.types.texts.items) }
        ensures uses { IfOk result (λ n. Rises (length self.old.types.texts.items) (given_number n) (length self.new.types.texts.items)) }
        ensures classes { self.new.classes ≡ self.old.classes }
    {
        match name {
            Some(name) => {
                let number = self.types.number(alloc, &name)?;
                Ok(Some(number as u32))
            }
            None => Ok(None),
        }
    }

    /// The parts of these roots and nodes, with the tables' names.
    fn into_parts(self, roots: Items, nodes: Nodes) -> Parts
        ensures { result ≡ record { roots = roots; nodes = nodes; types = self.types.texts.items; classes = self.classes.rows.items } }
    {
        let types = self.types;
        let classes = self.classes;
        Parts {
            roots,
            nodes,
            types: Texts::from(types.texts),
            classes: Classes::from(classes.rows),
        }
    }

    /// The number of a class.
    #[tactic(auto, using(crate::proofs::Naming::number_small))]
    fn add_class(&mut self, alloc: Global, class: Class) -> Result<u32, AllocError>
        requires fits { ClassesFit self.old.classes }
        requires room { length self.old.classes.rows.items < 2 ^ 32 }
        ensures class { IfOk result (IsNumber no_class self.old.classes.rows.items self.new.classes.rows.items class) }
        ensures fits { OnOk result (ClassesFit self.new.classes) }
        ensures types { self.new.types ≡ self.old.types }
    {
        let number = self.classes.number(alloc, class)?;
        Ok(number as u32)
    }
}

/// The node that was read, with its names in the tables.
fn node_of(alloc: Global, frame: Frame, tables: &mut Tables) -> Result<Node, AllocError>
    requires fit { NamesFit tables.old }
    requires room { HasRoom tables.old }
    requires fits { Fits (kind_of frame.head frame.names) (length frame.values) }
    ensures shape { IfOk result (λ node. node_shape tables.new.types.texts.items tables.new.classes.rows.items node ≡ shown frame) }
    ensures names { IfOk result (NamesTaken tables.old tables.new) }
{
    let Frame {
        number: _,
        head,
        names,
        values,
        keyed: _,
    } = frame;
    match head {
        Head::List(name) => list_of(alloc, name, values, tables),
        Head::Map(name) => map_of(alloc, name, values, tables),
        Head::Object(name) => object_of(alloc, name, names, values, tables),
    }
}

/// A list.
fn list_of(
    alloc: Global,
    name: Option<Chars>,
    values: Values,
    tables: &mut Tables,
) -> Result<Node, AllocError>
    requires fit { NamesFit tables.old }
    requires room { HasRoom tables.old }
    ensures shape { IfOk result (λ node. node_shape tables.new.types.texts.items tables.new.classes.rows.items node ≡ record { kind = ListKind name; values = values }) }
    ensures names { IfOk result (NamesTaken tables.old tables.new) }
{
    let type_name = tables.add_type(alloc, name)?;
    let items = values.into_items();
    Ok(Node::List { type_name, items })
}

/// A map.
fn map_of(
    alloc: Global,
    name: Option<Chars>,
    values: Values,
    tables: &mut Tables,
) -> Result<Node, AllocError>
    requires fit { NamesFit tables.old }
    requires room { HasRoom tables.old }
    requires even { IsEven (length values) }
    ensures shape { IfOk result (λ node. node_shape tables.new.types.texts.items tables.new.classes.rows.items node ≡ record { kind = MapKind name; values = values }) }
    ensures names { IfOk result (NamesTaken tables.old tables.new) }
{
    let type_name = tables.add_type(alloc, name)?;
    let pairs = pair_up(alloc, values.into_inner())?;
    Ok(Node::Map { type_name, pairs })
}

/// An object.
fn object_of(
    alloc: Global,
    name: Chars,
    names: Names,
    values: Values,
    tables: &mut Tables,
) -> Result<Node, AllocError>
    requires fit { NamesFit tables.old }
    requires room { HasRoom tables.old }
    requires fits { length values ≡ length names }
    ensures shape { IfOk result (λ node. node_shape tables.new.types.texts.items tables.new.classes.rows.items node ≡ record { kind = ObjectKind (record { name = name; fields = names }); values = values }) }
    ensures names { IfOk result (NamesTaken tables.old tables.new) }
{
    let fields = names.into_texts();
    let class = tables.add_class(alloc, Class { name, fields })?;
    let values = values.into_items();
    Ok(Node::Object { class, values })
}

/// The parts of the graph that was read.
fn parts_of(alloc: Global, reader: Reader) -> Result<Parts, AllocError>
    requires good { AllGood (length reader.nodes.items) (map shown reader.nodes.items) }
    requires few { length reader.nodes.items < 2 ^ 32 }
    ensures shape { IfOk result (λ p. shape_of p ≡ graph_of (state_of reader)) }
    ensures there { IfOk result (λ p. AllThere p.types p.classes p.nodes) }
    ensures tables { IfOk result InOrderOfUse }
{
    let Reader {
        nodes,
        frame,
        under: _,
        place: _,
        limit: _,
    } = reader;
    let mut left = nodes;
    left.as_mut_slice().reverse();
    let mut built = Vec::new(alloc);
    let mut tables = Tables::new(alloc);
    while let Some(whole) = left.pop() {
        let node = node_of(alloc, whole, &mut tables)?;
        built.push(node)?;
    }
    Ok(tables.into_parts(frame.values.into_items(), Nodes::from(built)))
}

/// The graph that was read. It's canonical: nodes are read in the order of a first visit.
pub fn graph_of(alloc: Global, reader: Reader) -> Result<Graph, AllocError>
    requires spelled { (es : List Element) × SpellsGraph (graph_of (state_of reader)) es }
    requires few { length reader.nodes.items < 2 ^ 32 }
    ensures shape { IfOk result (λ g. shape_of g ≡ graph_of (state_of reader)) }
    ensures tables { IfOk result InOrderOfUse }
{
    let parts = parts_of(alloc, reader)?;
    Ok(Graph::from_sound(parts))
}

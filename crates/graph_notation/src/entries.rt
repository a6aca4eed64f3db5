//! What stands before the values of a node, between them and behind them.

ghost use Rattle.std.specs.Prelude.{◌≡◌, ◌<◌, ◌≤◌, List, [], ◌∷◌, length, get_or, OnOk, IfSome, IfNone};
ghost use Rattle.hessian_graph.specs.Shape.{kind_of, type_of, values_of};
ghost use Rattle.hessian_graph.specs.Moving.{NamesThere};
ghost use Rattle.hessian_graph.specs.Tables.{NumberBelow};
ghost use Rattle.hessian_graph.specs.declared.value.Value.TheVariants.{Null};
ghost use Rattle.graph_notation.specs.declared.element.Element.{Element};
ghost use Rattle.graph_notation.specs.declared.element.Element.TheVariants.{Sign, Words};
ghost use Rattle.graph_notation.specs.Preparing.{HaveTexts};
ghost use Rattle.graph_notation.specs.Pressing.{Prints, element_of, type_name, head_of, end_of, comma, before};

use crate::class_texts::ClassTexts;
use crate::element::Mark;
use crate::printed::{byte_of, write_text, write_value};
use hessian_graph::{Chars, Node, Octets, Parts, Value};
use std::alloc::AllocError;

/// Appends a mark.
pub fn write_mark(out: &mut Vec<u8>, mark: Mark) -> Result<(), AllocError>
    ensures { OnOk result (Prints out.old.items (Sign mark ∷ []) out.new.items) }
{
    out.push(byte_of(mark))?;
    Ok(())
}

/// Appends a text.
pub fn write_words(out: &mut Vec<u8>, text: &Chars) -> Result<(), AllocError>
    ensures { OnOk result (Prints out.old.items (Words text.now ∷ []) out.new.items) }
{
    write_text(out, text.as_str())
}

/// Appends a value that is no node, or the number of a node that has begun.
#[inline(always)]
pub fn write_leaf(out: &mut Vec<u8>, value: &Value) -> Result<(), AllocError>
    ensures { OnOk result (Prints out.old.items (element_of value.now ∷ []) out.new.items) }
{
    write_value(out, value)
}

/// Appends a type, where there is one.
fn write_type(out: &mut Vec<u8>, types: &[Chars], number: Option<u32>) -> Result<(), AllocError>
    requires { NumberBelow (length types.now) number }
    ensures { OnOk result (Prints out.old.items (type_name (type_of types.now number)) out.new.items) }
{
    match number {
        Some(number) => {
            write_mark(out, Mark::Named)?;
            write_words(out, &types[number as usize])
        }
        None => Ok(()),
    }
}

/// Appends a text that was prepared.
#[inline(always)]
pub fn write_prepared(out: &mut Vec<u8>, text: &Octets) -> Result<(), AllocError>
    ensures { (es : List Element) → Prints [] es text.now → OnOk result (Prints out.old.items es out.new.items) }
{
    out.extend_from_slice(text.as_slice())?;
    Ok(())
}

/// Appends what stands before a node's entries.
pub fn write_head(
    out: &mut Vec<u8>,
    parts: &Parts,
    texts: &[ClassTexts],
    node: &Node,
) -> Result<(), AllocError>
    requires there { NamesThere parts.now.types parts.now.classes node.now }
    requires texts { HaveTexts parts.now.classes texts.now }
    ensures { OnOk result (Prints out.old.items (head_of (kind_of parts.now.types parts.now.classes node.now)) out.new.items) }
{
    match node {
        Node::List { type_name, .. } => {
            write_type(out, parts.types.as_slice(), *type_name)?;
            write_mark(out, Mark::BeginList)
        }
        Node::Map { type_name, .. } => {
            write_type(out, parts.types.as_slice(), *type_name)?;
            write_mark(out, Mark::BeginMap)
        }
        Node::Object { class, .. } => write_prepared(out, &texts[*class as usize].head),
    }
}

/// Appends what stands behind a node's entries.
pub fn write_end(out: &mut Vec<u8>, parts: &Parts, node: &Node) -> Result<(), AllocError>
    ensures { OnOk result (Prints out.old.items (end_of (kind_of parts.now.types parts.now.classes node.now) ∷ []) out.new.items) }
{
    match node {
        Node::List { .. } => write_mark(out, Mark::EndList),
        Node::Map { .. } => write_mark(out, Mark::EndMap),
        Node::Object { .. } => write_mark(out, Mark::EndFields),
    }
}

/// Appends a comma, but not before the first value.
pub fn write_comma(out: &mut Vec<u8>, at: usize) -> Result<(), AllocError>
    ensures { OnOk result (Prints out.old.items (comma at) out.new.items) }
{
    if at == 0 {
        return Ok(());
    }
    write_mark(out, Mark::Comma)
}

/// Appends what stands before the value at a place of a node.
#[inline(always)]
pub fn write_before(
    out: &mut Vec<u8>,
    parts: &Parts,
    texts: &[ClassTexts],
    node: &Node,
    at: usize,
) -> Result<(), AllocError>
    requires there { NamesThere parts.now.types parts.now.classes node.now }
    requires texts { HaveTexts parts.now.classes texts.now }
    requires within { at < length (values_of node.now) }
    ensures { OnOk result (Prints out.old.items (before (kind_of parts.now.types parts.now.classes node.now) at) out.new.items) }
{
    match node {
        Node::List { .. } => write_comma(out, at),
        Node::Map { .. } => {
            if at % 2 == 0 {
                write_comma(out, at)?;
            } else {
                write_mark(out, Mark::Colon)?;
            }
            Ok(())
        }
        Node::Object { class, .. } => {
            write_prepared(out, &texts[*class as usize].fields.as_slice()[at])
        }
    }
}

/// The value at a place of a node's values, which are a map's keys and values alternately.
#[tactic(auto, using(crate::proofs::Pairs::key_even, crate::proofs::Pairs::value_odd, crate::proofs::Pairs::pair_within, crate::proofs::Pairs::pair_past))]
#[inline(always)]
pub fn value_at(node: &Node, at: usize) -> Option<&Value>
    ensures some { IfSome result (λ v. v.now ≡ get_or (values_of node.now) at Null) }
    ensures within { IfSome result (λ v. at < length (values_of node.now)) }
    ensures room { IfSome result (λ v. at < usize.MAX) }
    ensures none { IfNone result (length (values_of node.now) ≤ at) }
{
    match node {
        Node::List { items, .. } => items.as_slice().get(at),
        Node::Map { pairs, .. } => {
            let pairs = pairs.as_slice();
            if at / 2 >= pairs.len() {
                None
            } else if at % 2 == 0 {
                Some(&pairs[at / 2].key)
            } else {
                Some(&pairs[at / 2].value)
            }
        }
        Node::Object { values, .. } => values.as_slice().get(at),
    }
}

//! What no clause says: graphs as they lie on a wire, and where each refusal stands.

ghost use Rattle.std.specs.Prelude.{◌≤◌, length};

use crate::{GraphReader, HessianFault, read_graph};
use hessian_graph::{Class, Graph, Node, Pair, Value};
use std::alloc::{AllocError, Global};
use std::test::Fail;

/// Adds a value: a number, `"text"`, `xHEX`, or `#N` for a node.
fn draw_value(alloc: Global, out: &mut String, value: &Value) -> Result<(), AllocError> {
    match value {
        Value::Null => out.push_str("null"),
        Value::Bool(truth) => out.push_str(if *truth { "true" } else { "false" }),
        Value::Int(number) => out.push_str(format!(in alloc; "{number}")?.as_str()),
        Value::Long(number) => out.push_str(format!(in alloc; "{number}L")?.as_str()),
        Value::Date(moment) => out.push_str(format!(in alloc; "@{moment}")?.as_str()),
        Value::Text(text) => {
            let text = text.as_str();
            out.push_str(format!(in alloc; "\"{text}\"")?.as_str())
        }
        Value::Bytes(bytes) => {
            out.push('x')?;
            for byte in bytes.as_slice() {
                out.push_str(format!(in alloc; "{byte:02x}")?.as_str())?;
            }
            Ok(())
        }
        Value::Node(number) => out.push_str(format!(in alloc; "#{number}")?.as_str()),
    }
}

/// Adds `[value,..]`, with a comma behind each value.
fn draw_values(alloc: Global, out: &mut String, values: &[Value]) -> Result<(), AllocError> {
    out.push('[')?;
    for value in values {
        draw_value(alloc, out, value)?;
        out.push(',')?;
    }
    out.push(']')
}

/// Adds `!name` where a node has a type.
fn draw_type(out: &mut String, graph: &Graph, number: Option<u32>) -> Result<(), AllocError> {
    if let Some(number) = number {
        if let Some(name) = graph.parts().types.as_slice().get(number as usize) {
            out.push('!')?;
            out.push_str(name.as_str())?;
        }
    }
    Ok(())
}

/// Adds the name of a class and, behind points, those of its fields.
fn draw_class(out: &mut String, class: &Class) -> Result<(), AllocError> {
    out.push_str(class.name.as_str())?;
    for field in class.fields.as_slice() {
        out.push('.')?;
        out.push_str(field.as_str())?;
    }
    Ok(())
}

/// Adds `{key:value;..}`.
fn draw_pairs(alloc: Global, out: &mut String, pairs: &[Pair]) -> Result<(), AllocError> {
    out.push('{')?;
    for pair in pairs {
        draw_value(alloc, out, &pair.key)?;
        out.push(':')?;
        draw_value(alloc, out, &pair.value)?;
        out.push(';')?;
    }
    out.push('}')
}

/// Adds the name of a node's class, if it is there.
fn draw_class_of(out: &mut String, graph: &Graph, number: u32) -> Result<(), AllocError> {
    match graph.parts().classes.as_slice().get(number as usize) {
        Some(class) => draw_class(out, class),
        None => Ok(()),
    }
}

/// Adds a node's type or class.
fn draw_name(out: &mut String, graph: &Graph, node: &Node) -> Result<(), AllocError> {
    match node {
        Node::List { type_name, .. } => draw_type(out, graph, *type_name),
        Node::Map { type_name, .. } => draw_type(out, graph, *type_name),
        Node::Object { class, .. } => draw_class_of(out, graph, *class),
    }
}

/// Adds a node's values: `[..]`, or `{key:value;..}` of a map.
fn draw_node(alloc: Global, out: &mut String, node: &Node) -> Result<(), AllocError> {
    match node {
        Node::List { items, .. } => draw_values(alloc, out, items.as_slice()),
        Node::Map { pairs, .. } => draw_pairs(alloc, out, pairs.as_slice()),
        Node::Object { values, .. } => draw_values(alloc, out, values.as_slice()),
    }
}

/// The roots, and behind them each node in the order of its number.
fn drawn(alloc: Global, graph: &Graph) -> Result<String, AllocError> {
    let mut out = String::new(alloc);
    draw_values(alloc, &mut out, graph.parts().roots.as_slice())?;
    for node in graph.parts().nodes.as_slice() {
        out.push(' ')?;
        draw_name(&mut out, graph, node)?;
        draw_node(alloc, &mut out, node)?;
    }
    Ok(out)
}

/// The same of what was read.
fn drawn_of(alloc: Global, read: Result<Graph, HessianFault>) -> Result<String, HessianFault> {
    let graph = read?;
    Ok(drawn(alloc, &graph)?)
}

/// Reads the bytes in two pieces.
fn read_in_two(alloc: Global, bytes: &[u8], cut: usize, roots: u32) -> Result<Graph, HessianFault>
    requires { cut ≤ length bytes.now }
{
    let mut reader = GraphReader::new(alloc, roots);
    reader.feed(&bytes[..cut])?;
    reader.feed(&bytes[cut..])?;
    reader.finish()
}

/// Reads the bytes one by one.
fn read_in_bytes(alloc: Global, bytes: &[u8], roots: u32) -> Result<Graph, HessianFault> {
    let mut reader = GraphReader::new(alloc, roots);
    for place in 0..bytes.len() {
        reader.feed(&bytes[place..place + 1])?;
    }
    reader.finish()
}

#[test]
fn graphs_are_read_as_drawn(rt: HostRuntime) -> Result<(), Fail> {
    let alloc = rt.alloc();
    let table = [
        (b"".as_slice(), 0, "[]"),
        (b"\x00\x20\x78\x48\x5a", 4, "[\"\",x,#0,#1,] [] {}"),
        // A list that holds itself, one that holds a list twice, and one that holds two lists.
        (b"\x79\x51\x90", 1, "[#0,] [#0,]"),
        (b"\x7a\x78\x51\x91", 1, "[#0,] [#1,#1,] []"),
        (b"\x7a\x78\x78", 1, "[#0,] [#1,#2,] [] []"),
        (
            b"\x43\x09demo.Knot\x92\x04self\x05value\x60\x51\x90\x95",
            1,
            "[#0,] demo.Knot.self.value[#0,5,]",
        ),
        // A type by its text and then by its number.
        (
            b"\x7a\x70\x04[int\x70\x90",
            1,
            "[#0,] [#1,#2,] ![int[] ![int[]",
        ),
        (b"\x57\x91\x92\x5a", 1, "[#0,] [1,2,]"),
        (b"\x4d\x01a\x01k\x91\x5a", 1, "[#0,] !a{\"k\":1;}"),
        // The longer spellings: of lengths, of numbers of types, classes and nodes.
        (
            b"\x58\x93\x56\x01t\xc8\x01\x4e\x55\xc8\x00\x54\x5a\x51\x49\x00\x00\x00\x01",
            1,
            "[#0,] [#1,#2,#1,] !t[null,] !t[true,]",
        ),
        (
            b"\x43\x01A\x90\x43\x01B\x91\x01b\x4f\x91\x21\xff",
            1,
            "[#0,] B.b[xff,]",
        ),
    ];
    for (bytes, roots, want) in table {
        let whole = drawn_of(alloc, read_graph(alloc, bytes, roots))?;
        assert_eq!(rt; whole.as_str(), want);
        let joined = drawn_of(alloc, read_in_bytes(alloc, bytes, roots))?;
        assert_eq!(rt; joined.as_str(), want);
        for cut in 0..bytes.len() {
            let joined = drawn_of(alloc, read_in_two(alloc, bytes, cut, roots))?;
            assert_eq!(rt; joined.as_str(), want);
        }
    }
    Ok(())
}

#[test]
fn each_refusal_has_its_place(rt: HostRuntime) {
    let alloc = rt.alloc();
    let table = [
        (b"".as_slice(), HessianFault::Short { at: 0 }),
        (b"\x79\x51\x91", HessianFault::BadRef { at: 2, number: 1 }),
        (b"\x51\x90", HessianFault::BadRef { at: 1, number: 0 }),
        (b"\x70\x90", HessianFault::BadType { at: 1, number: 0 }),
        (b"\x60", HessianFault::BadClass { at: 0, number: 0 }),
        (b"\x58\x8f", HessianFault::BadLength { at: 1, number: -1 }),
        (b"\x58\x49\x7f\xff\xff\xff", HessianFault::Short { at: 6 }),
        (b"\x5a", HessianFault::BadCode { at: 0, code: 0x5a }),
        (b"\x79\x5b", HessianFault::Double { at: 1, code: 0x5b }),
        (b"\x44", HessianFault::Double { at: 0, code: 0x44 }),
        // Where a number, a key's value, a value behind a class or the rest of a text is wanted.
        (b"\x51\x44", HessianFault::BadCode { at: 1, code: 0x44 }),
        (b"\x48\x90\x5a", HessianFault::BadCode { at: 2, code: 0x5a }),
        (
            b"\x43\x00\x90\x5a",
            HessianFault::BadCode { at: 3, code: 0x5a },
        ),
        (
            b"\x52\x00\x01a\x90",
            HessianFault::BadCode { at: 4, code: 0x90 },
        ),
        (b"\x79\x02a\xff", HessianFault::BadText { at: 3 }),
        // A stated length or count takes no values, and no memory, before they come.
        (
            b"\x43\x00\x49\x7f\xff\xff\xff",
            HessianFault::Short { at: 7 },
        ),
        (
            b"\x43\x00\x8f",
            HessianFault::BadLength { at: 2, number: -1 },
        ),
        // Where a name, a type, a class or a value is wanted.
        (b"\x43\x90", HessianFault::BadCode { at: 1, code: 0x90 }),
        (b"\x70\x44", HessianFault::BadCode { at: 1, code: 0x44 }),
        (b"\x4f\x90", HessianFault::BadClass { at: 1, number: 0 }),
        (b"\x45", HessianFault::BadCode { at: 0, code: 0x45 }),
        (
            b"\x41\x00\x01a\x90",
            HessianFault::BadCode { at: 4, code: 0x90 },
        ),
        // A character that was cut in two is refused where it begins.
        (b"\x02a\xc3\x28", HessianFault::BadText { at: 2 }),
    ];
    for (bytes, fault) in table {
        assert_eq!(rt; read_graph(alloc, bytes, 1).err(), Some(fault));
        assert_eq!(rt; read_in_bytes(alloc, bytes, 1).err(), Some(fault));
        for cut in 0..bytes.len() {
            assert_eq!(rt; read_in_two(alloc, bytes, cut, 1).err(), Some(fault));
        }
    }
    let trailing = read_graph(alloc, b"\x90\x90", 1).err();
    assert_eq!(rt; trailing, Some(HessianFault::Trailing { at: 1 }));
}

#[test]
fn a_stated_length_takes_no_memory(rt: HostRuntime) {
    let alloc = rt.alloc();
    // 2,147,483,647 values or fields are stated, for which no machine has room, and none or a few came.
    let stated = [
        (b"\x58\x49\x7f\xff\xff\xff".as_slice(), 6),
        (b"\x58\x49\x7f\xff\xff\xff\x91", 7),
        (b"\x58\x49\x7f\xff\xff\xff\x91\x01a\x78", 10),
        (b"\x56\x00\x49\x7f\xff\xff\xff\x91", 8),
        (b"\x43\x00\x49\x7f\xff\xff\xff\x01a", 9),
    ];
    for (bytes, at) in stated {
        assert_eq!(rt;
            read_graph(alloc, bytes, 1).err(),
            Some(HessianFault::Short { at })
        );
    }
}

#[test]
fn a_million_nested_lists_are_read(rt: HostRuntime) -> Result<(), Fail> {
    let alloc = rt.alloc();
    let mut bytes = Vec::new(alloc);
    for _ in 0..1_000_000 {
        bytes.push(0x79)?;
    }
    bytes.push(0x90)?;
    let graph = read_graph(alloc, bytes.as_slice(), 1)?;
    assert_eq!(rt; graph.parts().nodes.as_slice().len(), 1_000_000);
    let mut bytes = Vec::new(alloc);
    for _ in 0..1_000_001 {
        bytes.push(0x79)?;
    }
    let fault = read_graph(alloc, bytes.as_slice(), 1).err();
    assert_eq!(rt; fault, Some(HessianFault::TooManyNodes { at: 1_000_000 }));
    Ok(())
}

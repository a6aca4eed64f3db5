//! Calls whose replies are known from outside, as the bodies that lie on a wire.

ghost use Rattle.std.specs.Prelude.{◌≡◌, length, IfOk};
ghost use Rattle.dubbo_bodies.specs.WrittenBody.{IsWritableReply};

use crate::{AddFault, Kind, Row, Services, call};
use dubbo_bodies::{Attachments, DescFault, Reply, Request, count_args, write_reply};
use hessian_graph::{Chars, Class, Classes, Graph, Items, Node, Nodes, Parts, Texts, Value};
use hessian_writer::is_writable;
use std::alloc::{AllocError, Global};
use std::test::Fail;

/// The descriptor of one object.
const OBJECT: &str = "Ljava/lang/Object;";

/// A text.
fn chars(alloc: Global, text: &str) -> Result<Chars, AllocError> {
    Ok(Chars::from(String::from_str(alloc, text)?))
}

/// A row of path `s`, without a version, with one object as its parameter.
fn row(alloc: Global, method: &str, kind: Kind) -> Result<Row, AllocError> {
    let path = chars(alloc, "s")?;
    let version = chars(alloc, "")?;
    let method = chars(alloc, method)?;
    let desc = chars(alloc, OBJECT)?;
    Ok(Row {
        path,
        version,
        method,
        desc,
        kind,
    })
}

/// A table of one row, whose method is `m`.
fn one(alloc: Global, kind: Kind) -> Result<Services, Fail>
    ensures { IfOk result (λ services. length services ≡ 1) }
{
    let mut services = Services::new(alloc);
    services.add(row(alloc, "m", kind)?)?;
    Ok(services)
}

/// Parts without types and classes.
fn plain_parts(alloc: Global, roots: Vec<Value>, nodes: Vec<Node>) -> Parts {
    Parts {
        roots: Items::from(roots),
        nodes: Nodes::from(nodes),
        types: Texts::from(Vec::new(alloc)),
        classes: Classes::from(Vec::<Class>::new(alloc)),
    }
}

/// A graph of these parts.
fn graph(parts: Parts) -> Result<Graph, Fail> {
    if parts.nodes.as_slice().len() > 1_000 {
        return Err(Fail::new("too many nodes"));
    }
    Ok(Graph::from_parts(parts)?)
}

/// A graph of one root and these nodes.
fn rooted(alloc: Global, root: Value, nodes: Vec<Node>) -> Result<Graph, Fail> {
    let roots = vec![in alloc; root]?;
    graph(plain_parts(alloc, roots, nodes))
}

/// A graph of one list without a type.
fn list(alloc: Global, items: Vec<Value>) -> Result<Graph, Fail> {
    let list = Node::List {
        type_name: None,
        items: Items::from(items),
    };
    let nodes = vec![in alloc; list]?;
    rooted(alloc, Value::Node(0), nodes)
}

/// A request of path `s`, without a version.
fn request(alloc: Global, method: &str, args: Graph) -> Result<Request, AllocError> {
    let dubbo = chars(alloc, "2.0.2")?;
    let path = chars(alloc, "s")?;
    let version = chars(alloc, "")?;
    let method = chars(alloc, method)?;
    let desc = chars(alloc, OBJECT)?;
    let attachments = Attachments::from(Vec::new(alloc));
    Ok(Request {
        dubbo,
        path,
        version,
        method,
        desc,
        args,
        attachments,
    })
}

/// The reply to a request, if it can be called.
fn reply(alloc: Global, services: &Services, request: &Request) -> Result<Reply, Fail>
    ensures { IfOk result IsWritableReply }
{
    let parts = request.args.parts();
    let roots = parts.roots.as_slice().len();
    if parts.nodes.as_slice().len() > 1_000 {
        return Err(Fail::new("too many nodes"));
    }
    match count_args(request.desc.as_str().as_bytes()) {
        Ok(count) if count as usize == roots && is_writable(&request.args) => {
            let reply = call(alloc, services, request)?;
            Ok(reply)
        }
        _ => Err(Fail::new("no request that can be called")),
    }
}

/// The body of the reply that a service of this kind gives to this argument.
fn body(alloc: Global, kind: Kind, argument: Graph) -> Result<Vec<u8>, Fail> {
    let services = one(alloc, kind)?;
    let request = request(alloc, "m", argument)?;
    let reply = reply(alloc, &services, &request)?;
    Ok(write_reply(alloc, &reply)?)
}

/// Whether a service of this kind gives this body to this argument.
fn gives(alloc: Global, kind: Kind, argument: Graph, expected: &[u8]) -> Result<bool, Fail> {
    let body = body(alloc, kind, argument)?;
    Ok(body.as_slice() == expected)
}

/// A list of two texts.
fn two_texts(alloc: Global, one: &str, other: &str) -> Result<Graph, Fail> {
    let one = Value::Text(chars(alloc, one)?);
    let other = Value::Text(chars(alloc, other)?);
    list(alloc, vec![in alloc; one, other]?)
}

/// The list `[1, 2L, "x"]`.
fn three_values(alloc: Global) -> Result<Graph, Fail> {
    let text = Value::Text(chars(alloc, "x")?);
    list(alloc, vec![in alloc; Value::Int(1), Value::Long(2), text]?)
}

/// A text by itself.
fn text(alloc: Global, text: &str) -> Result<Graph, Fail> {
    let text = chars(alloc, text)?;
    rooted(alloc, Value::Text(text), Vec::new(alloc))
}

#[test]
fn a_list_that_holds_itself_comes_back(rt: HostRuntime) -> Result<(), Fail> {
    let alloc = rt.alloc();
    let knot = list(alloc, vec![in alloc; Value::Node(0)]?)?;
    assert!(rt; gives(alloc, Kind::Echo, knot, b"\x91\x79\x51\x90")?);
    Ok(())
}

#[test]
fn a_list_is_shared_by_its_two_places(rt: HostRuntime) -> Result<(), Fail> {
    let alloc = rt.alloc();
    let empty = list(alloc, Vec::new(alloc))?;
    assert!(rt; gives(alloc, Kind::Twice, empty, b"\x91\x7a\x78\x51\x91")?);
    Ok(())
}

#[test]
fn a_knot_has_itself_and_the_argument(rt: HostRuntime) -> Result<(), Fail> {
    let alloc = rt.alloc();
    let five = rooted(alloc, Value::Int(5), Vec::new(alloc))?;
    let expected = b"\x91\x43\x09demo.Knot\x92\x04self\x05value\x60\x51\x90\x95";
    assert!(rt; gives(alloc, Kind::Knot, five, expected)?);
    Ok(())
}

#[test]
fn an_argument_is_thrown(rt: HostRuntime) -> Result<(), Fail> {
    let alloc = rt.alloc();
    assert!(rt; gives(alloc, Kind::Throw, text(alloc, "no")?, b"\x90\x02no")?);
    Ok(())
}

#[test]
fn ints_and_longs_are_added_up(rt: HostRuntime) -> Result<(), Fail> {
    let alloc = rt.alloc();
    assert!(rt; gives(alloc, Kind::Sum, three_values(alloc)?, b"\x91\xe3")?);
    let text = text(alloc, "7")?;
    assert!(rt; gives(alloc, Kind::Sum, text, b"\x91\xe0")?);
    Ok(())
}

#[test]
fn a_sum_without_room_is_an_exception(rt: HostRuntime) -> Result<(), Fail> {
    let alloc = rt.alloc();
    let items = vec![in alloc; Value::Long(i64::MAX), Value::Int(1)]?;
    let expected = b"\x90\x43\x0ddemo.Overflow\x90\x60";
    assert!(rt; gives(alloc, Kind::Sum, list(alloc, items)?, expected)?);
    Ok(())
}

#[test]
fn the_least_long_is_a_sum(rt: HostRuntime) -> Result<(), Fail> {
    let alloc = rt.alloc();
    let items = vec![in alloc;
        Value::Long(i64::MAX),
        Value::Int(1),
        Value::Long(i64::MIN),
        Value::Long(i64::MIN),
    ]?;
    let expected = b"\x91\x4c\x80\x00\x00\x00\x00\x00\x00\x00";
    assert!(rt; gives(alloc, Kind::Sum, list(alloc, items)?, expected)?);
    Ok(())
}

#[test]
fn a_list_is_turned_round(rt: HostRuntime) -> Result<(), Fail> {
    let alloc = rt.alloc();
    let items = two_texts(alloc, "a", "b")?;
    assert!(rt; gives(alloc, Kind::Reverse, items, b"\x91\x7a\x01b\x01a")?);
    Ok(())
}

#[test]
fn arguments_are_listed(rt: HostRuntime) -> Result<(), Fail> {
    let alloc = rt.alloc();
    let five = rooted(alloc, Value::Int(5), Vec::new(alloc))?;
    assert!(rt; gives(alloc, Kind::Args, five, b"\x91\x79\x95")?);
    let five = rooted(alloc, Value::Int(5), Vec::new(alloc))?;
    assert!(rt; gives(alloc, Kind::Void, five, b"\x92")?);
    Ok(())
}

/// Whether a reply is this status with this text.
fn is_status(reply: &Reply, expected: u8, words: &str) -> bool {
    match reply {
        Reply::Status { code, text } => *code == expected && text.as_str() == words,
        _ => false,
    }
}

#[test]
fn a_service_is_found_by_all_its_texts(rt: HostRuntime) -> Result<(), Fail> {
    let alloc = rt.alloc();
    let services = one(alloc, Kind::Echo)?;
    let mut other = request(alloc, "m", text(alloc, "x")?)?;
    other.version = chars(alloc, "1")?;
    let reply = reply(alloc, &services, &other)?;
    assert!(rt; is_status(&reply, 60, "service not found"));
    Ok(())
}

/// A text of so many letters.
fn letters(alloc: Global, count: usize) -> Result<Graph, Fail> {
    let mut long = String::with_capacity(alloc, count)?;
    for _ in 0..count {
        long.push('a')?;
    }
    rooted(alloc, Value::Text(Chars::from(long)), Vec::new(alloc))
}

#[test]
fn a_reply_that_is_too_long_is_a_status(rt: HostRuntime) -> Result<(), Fail> {
    let alloc = rt.alloc();
    let services = one(alloc, Kind::Twice)?;
    let request = request(alloc, "m", letters(alloc, 4_194_200)?)?;
    let reply = reply(alloc, &services, &request)?;
    assert!(rt; is_status(&reply, 50, "reply too long"));
    Ok(())
}

#[test]
fn a_service_is_named_once(rt: HostRuntime) -> Result<(), Fail> {
    let alloc = rt.alloc();
    let mut services = one(alloc, Kind::Echo)?;
    let again = services.add(row(alloc, "m", Kind::Void)?);
    assert_eq!(rt; again, Err(AddFault::Repeated { row: 0 }));
    Ok(())
}

#[test]
fn an_echo_needs_an_argument(rt: HostRuntime) -> Result<(), Fail> {
    let alloc = rt.alloc();
    let mut services = Services::new(alloc);
    let mut none = row(alloc, "m", Kind::Echo)?;
    none.desc = chars(alloc, "")?;
    assert_eq!(rt; services.add(none), Err(AddFault::TooFewArgs { needed: 1 }));
    Ok(())
}

#[test]
fn a_row_has_a_descriptor(rt: HostRuntime) -> Result<(), Fail> {
    let alloc = rt.alloc();
    let mut services = Services::new(alloc);
    let mut bad = row(alloc, "m", Kind::Void)?;
    bad.desc = chars(alloc, "IV")?;
    let fault = DescFault::BadDescriptor { at: 1 };
    assert_eq!(rt; services.add(bad), Err(AddFault::Descriptor(fault)));
    Ok(())
}

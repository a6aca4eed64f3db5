//! Bodies as they lie on a wire.

use crate::{
    Attachment, Attachments, Reply, Request, WriteBodyFault, count_args, write_reply, write_request,
};
use hessian_graph::{
    Chars, Class, Classes, Graph, Items, Node, Nodes, Octets, Parts, Texts, Value,
};
use hessian_writer::is_writable;
use std::alloc::{AllocError, Global};
use std::test::Fail;

/// A path of 33 characters.
const PATH: &str = "org.apache.dubbo.demo.DemoService";

/// A text.
fn chars(alloc: Global, text: &str) -> Result<Chars, AllocError> {
    Ok(Chars::from(String::from_str(alloc, text)?))
}

/// A table of one type, whose name is a.
fn one_type(alloc: Global) -> Result<Texts, AllocError> {
    let name = chars(alloc, "a")?;
    Ok(Texts::from(vec![in alloc; name]?))
}

/// Parts with one type, whose name is a.
fn parts(alloc: Global, roots: Vec<Value>, nodes: Vec<Node>) -> Result<Parts, AllocError> {
    let types = one_type(alloc)?;
    Ok(Parts {
        roots: Items::from(roots),
        nodes: Nodes::from(nodes),
        types,
        classes: Classes::from(Vec::<Class>::new(alloc)),
    })
}

/// A graph of these parts.
fn graph(parts: Parts) -> Result<Graph, Fail> {
    if parts.nodes.as_slice().len() > 2_000_000 {
        return Err(Fail::new("too many nodes"));
    }
    Ok(Graph::from_parts(parts)?)
}

/// A graph of one root that is no node.
fn plain(alloc: Global, root: Value) -> Result<Graph, Fail> {
    let roots = vec![in alloc; root]?;
    let parts = parts(alloc, roots, Vec::new(alloc))?;
    graph(parts)
}

/// A graph whose one root is a text.
fn text(alloc: Global, text: &str) -> Result<Graph, Fail> {
    let text = chars(alloc, text)?;
    plain(alloc, Value::Text(text))
}

/// An empty list of the one type.
fn typed_list(alloc: Global) -> Node {
    Node::List {
        type_name: Some(0),
        items: Items::from(Vec::new(alloc)),
    }
}

/// Two empty lists of the one type; the first is the first and the third root.
fn shared(alloc: Global) -> Result<Graph, Fail> {
    let roots = vec![in alloc; Value::Node(0), Value::Node(1), Value::Node(0)]?;
    let nodes = vec![in alloc; typed_list(alloc), typed_list(alloc)]?;
    let parts = parts(alloc, roots, nodes)?;
    graph(parts)
}

/// An attachment.
fn attachment(alloc: Global, name: &str, value: &str) -> Result<Attachment, AllocError> {
    let name = chars(alloc, name)?;
    let value = chars(alloc, value)?;
    Ok(Attachment { name, value })
}

/// Attachments with these names and values.
fn attachments(alloc: Global, pairs: &[(&str, &str)]) -> Result<Attachments, AllocError> {
    let mut all = Vec::new(alloc);
    for (name, value) in pairs {
        all.push(attachment(alloc, name, value)?)?;
    }
    Ok(Attachments::from(all))
}

/// The three texts of a request that name its service.
#[derive(Drop)]
struct Service {
    path: Chars,
    version: Chars,
    method: Chars,
}

/// The texts that name a service.
fn of_service(
    alloc: Global,
    path: &str,
    version: &str,
    method: &str,
) -> Result<Service, AllocError> {
    let path = chars(alloc, path)?;
    let version = chars(alloc, version)?;
    let method = chars(alloc, method)?;
    Ok(Service {
        path,
        version,
        method,
    })
}

/// A request of a service.
fn request(
    alloc: Global,
    dubbo: &str,
    desc: &str,
    service: Service,
    args: Graph,
    attachments: Attachments,
) -> Result<Request, AllocError> {
    let dubbo = chars(alloc, dubbo)?;
    let desc = chars(alloc, desc)?;
    let Service {
        path,
        version,
        method,
    } = service;
    Ok(Request {
        dubbo,
        path,
        version,
        method,
        desc,
        args,
        attachments,
    })
}

/// The body of a request, if it can be written.
fn request_body(alloc: Global, request: &Request) -> Result<Vec<u8>, Fail> {
    let roots = request.args.parts().roots.as_slice().len();
    match count_args(request.desc.as_str().as_bytes()) {
        Ok(count) if count as usize == roots && is_writable(&request.args) => {
            Ok(write_request(alloc, request)?)
        }
        _ => Err(Fail::new("no request that can be written")),
    }
}

/// The body of a reply, if it can be written.
fn reply_body(alloc: Global, reply: &Reply) -> Result<Result<Vec<u8>, WriteBodyFault>, Fail> {
    let writable = match reply {
        Reply::Value(graph) => is_writable(graph),
        Reply::Threw(graph) => is_writable(graph),
        Reply::Status { .. } => true,
    };
    if writable {
        Ok(write_reply(alloc, reply))
    } else {
        Err(Fail::new("no reply that can be written"))
    }
}

/// Whether the body of a reply is these bytes.
fn is_reply(alloc: Global, reply: &Reply, bytes: &[u8]) -> Result<bool, Fail> {
    let body = reply_body(alloc, reply)??;
    Ok(body.as_slice() == bytes)
}

/// The body of the call of a service that greets.
fn greeting(alloc: Global) -> Result<Vec<u8>, Fail> {
    let pairs = [
        ("path", PATH),
        ("interface", PATH),
        ("version", "0.0.0"),
        ("timeout", "1000"),
    ];
    let attachments = attachments(alloc, &pairs)?;
    let service = of_service(alloc, PATH, "0.0.0", "sayHello")?;
    let args = text(alloc, "world")?;
    let request = request(
        alloc,
        "2.0.2",
        "Ljava/lang/String;",
        service,
        args,
        attachments,
    )?;
    request_body(alloc, &request)
}

#[test]
fn a_request_is_written_as_drawn(rt: HostRuntime) -> Result<(), Fail> {
    let front =
        b"\x052.0.2\x30\x21org.apache.dubbo.demo.DemoService\x050.0.0\x08sayHello\x12Ljava/lang/String;\x05world";
    let map =
        b"H\x04path\x30\x21org.apache.dubbo.demo.DemoService\x09interface\x30\x21org.apache.dubbo.demo.DemoService\x07version\x050.0.0\x07timeout\x041000Z";
    let body = greeting(rt.alloc())?;
    assert_eq!(rt; body.len(), 195);
    assert_eq!(rt; body.starts_with(front), true);
    assert_eq!(rt; body.ends_with(map), true);
    Ok(())
}

/// The body of a call without names, of three arguments that share a type and a node.
fn sharing(alloc: Global) -> Result<Vec<u8>, Fail> {
    let attachments = attachments(alloc, &[])?;
    let service = of_service(alloc, "", "", "")?;
    let args = shared(alloc)?;
    let request = request(alloc, "", "[I[I[I", service, args, attachments)?;
    request_body(alloc, &request)
}

#[test]
fn arguments_share_their_tables(rt: HostRuntime) -> Result<(), Fail> {
    let body = sharing(rt.alloc())?;
    assert_eq!(rt;
        body.as_slice(),
        b"\0\0\0\0\x06[I[I[I\x70\x01a\x70\x90\x51\x90HZ".as_slice()
    );
    Ok(())
}

#[test]
fn the_value_null_is_its_kind(rt: HostRuntime) -> Result<(), Fail> {
    let null = Reply::Value(plain(rt.alloc(), Value::Null)?);
    assert_eq!(rt; is_reply(rt.alloc(), &null, b"\x92")?, true);
    Ok(())
}

#[test]
fn a_value_stands_behind_its_kind(rt: HostRuntime) -> Result<(), Fail> {
    let world = Reply::Value(text(rt.alloc(), "world")?);
    assert_eq!(rt; is_reply(rt.alloc(), &world, b"\x91\x05world")?, true);
    Ok(())
}

#[test]
fn an_exception_stands_behind_its_kind(rt: HostRuntime) -> Result<(), Fail> {
    let threw = Reply::Threw(plain(rt.alloc(), Value::Null)?);
    assert_eq!(rt; is_reply(rt.alloc(), &threw, b"\x90N")?, true);
    Ok(())
}

#[test]
fn the_text_of_a_status_stands_alone(rt: HostRuntime) -> Result<(), Fail> {
    let text = chars(rt.alloc(), "service not found")?;
    let status = Reply::Status { code: 60, text };
    assert_eq!(rt;
        is_reply(rt.alloc(), &status, b"\x11service not found")?,
        true
    );
    Ok(())
}

/// A reply of so many bytes that are 0.
fn zeros(alloc: Global, count: usize) -> Result<Reply, Fail> {
    let contents = Octets::from(vec![in alloc; 0; count]?);
    Ok(Reply::Value(plain(alloc, Value::Bytes(contents))?))
}

#[test]
fn a_body_may_have_8388608_bytes(rt: HostRuntime) -> Result<(), Fail> {
    let longest = zeros(rt.alloc(), 8_387_839)?;
    assert_eq!(rt; reply_body(rt.alloc(), &longest)??.len(), 8_388_608);
    Ok(())
}

#[test]
fn a_body_of_8388609_bytes_is_too_long(rt: HostRuntime) -> Result<(), Fail> {
    let longer = zeros(rt.alloc(), 8_387_840)?;
    assert_eq!(rt;
        reply_body(rt.alloc(), &longer)?.err(),
        Some(WriteBodyFault::TooLong { length: 8_388_609 })
    );
    Ok(())
}

//! Requests as they come from a wire, whole and in pieces.

use crate::{Attachments, DescFault, Request, RequestFault, RequestReader, read_request};
use dubbo_header::Header;
use hessian_graph::{Node, Value};
use hessian_reader::HessianFault;
use link_frames::BodySink;
use std::alloc::Global;
use std::test::Fail;

/// A request of the name of a service, with one text and four attachments.
const BODY: &[u8] =
    b"\x052.0.2\x30\x21org.apache.dubbo.demo.DemoService\x050.0.0\x08sayHello\x12Ljava/lang/String;\x05worldH\x04path\x30\x21org.apache.dubbo.demo.DemoService\x09interface\x30\x21org.apache.dubbo.demo.DemoService\x07version\x050.0.0\x07timeout\x041000Z";

/// A header of a request in a serialization.
fn header(serial: u8) -> Header {
    Header {
        request: true,
        two_way: true,
        event: false,
        serial,
        status: 0,
        id: 0,
        length: 0,
    }
}

/// What a body is, in Hessian 2.
fn read(alloc: Global, body: &[u8]) -> Result<Request, RequestFault> {
    read_request(alloc, &header(2), body)
}

/// The same, in two pieces.
fn read_cut(alloc: Global, body: &[u8], cut: usize) -> Result<Request, RequestFault> {
    let mut reader = RequestReader::new(alloc);
    reader.start(&header(2));
    if body.len() <= 1000 && cut <= body.len() {
        reader.feed(&body[..cut]);
        reader.feed(&body[cut..]);
    }
    reader.finish()
}

/// Whether there are four attachments, of the names that a caller writes.
fn are_four(attachments: &Attachments) -> bool {
    match attachments.as_slice() {
        [path, interface, version, timeout] => {
            path.name.as_str() == "path"
                && interface.name.as_str() == "interface"
                && version.value.as_str() == "0.0.0"
                && timeout.value.as_str() == "1000"
        }
        _ => false,
    }
}

/// Whether a request is that of the body.
fn is_drawn(request: &Request) -> bool {
    let names = request.dubbo.as_str() == "2.0.2"
        && request.path.as_str() == "org.apache.dubbo.demo.DemoService"
        && request.version.as_str() == "0.0.0"
        && request.method.as_str() == "sayHello"
        && request.desc.as_str() == "Ljava/lang/String;";
    names && is_world(request) && are_four(&request.attachments)
}

/// Whether the one argument is the text world, and no node is kept beside it.
fn is_world(request: &Request) -> bool {
    let parts = request.args.parts();
    match parts.roots.as_slice() {
        [Value::Text(text)] => text.as_str() == "world" && parts.nodes.as_slice().is_empty(),
        _ => false,
    }
}

/// Whether a reading answers the request of the body.
fn is_as_drawn(outcome: Result<Request, RequestFault>) -> bool {
    match outcome {
        Ok(request) => is_drawn(&request),
        Err(_) => false,
    }
}

/// Why a reading is refused, or nothing.
fn fault_of(outcome: Result<Request, RequestFault>) -> Option<RequestFault> {
    match outcome {
        Ok(_) => None,
        Err(fault) => Some(fault),
    }
}

/// Why a body in Hessian 2 is refused, or nothing.
fn refusal(alloc: Global, body: &[u8]) -> Option<RequestFault> {
    fault_of(read(alloc, body))
}

/// The refusal of a body that is cut off at a place.
fn short(at: usize) -> Option<RequestFault> {
    Some(RequestFault::Hessian(HessianFault::Short { at }))
}

#[test]
fn a_request_is_read_as_drawn(rt: HostRuntime) -> Result<(), Fail> {
    assert_eq!(rt; is_as_drawn(read(rt.alloc(), BODY)), true);
    Ok(())
}

#[test]
fn a_body_in_every_cut_of_two_pieces_has_one_answer(rt: HostRuntime) -> Result<(), Fail> {
    for cut in 0..BODY.len() + 1 {
        assert_eq!(rt; is_as_drawn(read_cut(rt.alloc(), BODY, cut)), true);
    }
    Ok(())
}

#[test]
fn each_shorter_front_is_cut_short(rt: HostRuntime) -> Result<(), Fail> {
    for at in 0..BODY.len() {
        assert_eq!(rt; refusal(rt.alloc(), &BODY[..at]), short(at));
    }
    Ok(())
}

#[test]
fn the_serialization_is_looked_at_first(rt: HostRuntime) -> Result<(), Fail> {
    let fault = fault_of(read_request(rt.alloc(), &header(6), b"\x90"));
    assert_eq!(rt; fault, Some(RequestFault::BadSerial { number: 6 }));
    Ok(())
}

#[test]
fn no_other_text_than_the_version_may_be_null(rt: HostRuntime) -> Result<(), Fail> {
    assert_eq!(rt; refusal(rt.alloc(), b"\0\0N\0\0N"), None);
    let method = refusal(rt.alloc(), b"\0\0\0N\0N");
    assert_eq!(rt; method, Some(RequestFault::NotText { field: 3 }));
    Ok(())
}

#[test]
fn a_body_begins_with_a_text(rt: HostRuntime) -> Result<(), Fail> {
    let first = refusal(rt.alloc(), b"\x90");
    assert_eq!(rt; first, Some(RequestFault::NotText { field: 0 }));
    Ok(())
}

#[test]
fn a_descriptor_is_looked_at_once_it_is_whole(rt: HostRuntime) -> Result<(), Fail> {
    let fault = DescFault::BadDescriptor { at: 1 };
    let desc = refusal(rt.alloc(), b"\0\0\0\0\x02IV");
    assert_eq!(rt; desc, Some(RequestFault::Descriptor(fault)));
    Ok(())
}

/// A fault of a text or of the values.
fn inside(fault: HessianFault) -> Option<RequestFault> {
    Some(RequestFault::Hessian(fault))
}

#[test]
fn a_text_is_refused_at_its_place_in_the_body(rt: HostRuntime) -> Result<(), Fail> {
    let chunk = refusal(rt.alloc(), b"\0R\0\x01aN");
    assert_eq!(rt; chunk, inside(HessianFault::BadCode { at: 5, code: b'N' }));
    let character = refusal(rt.alloc(), b"\0\x01\xc0\x80");
    assert_eq!(rt; character, inside(HessianFault::BadText { at: 2 }));
    Ok(())
}

#[test]
fn a_value_is_refused_at_its_place_in_the_body(rt: HostRuntime) -> Result<(), Fail> {
    let value = refusal(rt.alloc(), b"\0\0\0\0\x01IZ");
    assert_eq!(rt; value, inside(HessianFault::BadCode { at: 6, code: b'Z' }));
    let behind = refusal(rt.alloc(), b"\0\0\0\0\0NN");
    assert_eq!(rt; behind, inside(HessianFault::Trailing { at: 6 }));
    Ok(())
}

#[test]
fn attachments_are_a_map_of_texts(rt: HostRuntime) -> Result<(), Fail> {
    let list = refusal(rt.alloc(), b"\0\0\0\0\0\x78");
    assert_eq!(rt; list, Some(RequestFault::BadAttachments));
    let key = refusal(rt.alloc(), b"\0\0\0\0\0H\x90\x01aZ");
    assert_eq!(rt; key, Some(RequestFault::BadAttachments));
    Ok(())
}

/// Whether the one attachment is the text c under the name b.
fn is_one(outcome: Result<Request, RequestFault>) -> bool {
    match outcome {
        Ok(request) => match request.attachments.as_slice() {
            [one] => one.name.as_str() == "b" && one.value.as_str() == "c",
            _ => false,
        },
        Err(_) => false,
    }
}

#[test]
fn an_attachment_that_is_no_text_is_dropped(rt: HostRuntime) -> Result<(), Fail> {
    let read = read(rt.alloc(), b"\0\0\0\0\0M\x01t\x01a\x90\x01b\x01cZ");
    assert_eq!(rt; is_one(read), true);
    Ok(())
}

/// Whether two arguments are one map of one pair.
fn is_shared(outcome: Result<Request, RequestFault>) -> bool {
    match outcome {
        Ok(request) => {
            let parts = request.args.parts();
            match (parts.roots.as_slice(), parts.nodes.as_slice()) {
                ([Value::Node(0), Value::Node(0)], [Node::Map { pairs, .. }]) => {
                    pairs.as_slice().len() == 1
                }
                _ => false,
            }
        }
        Err(_) => false,
    }
}

#[test]
fn arguments_share_nodes_with_the_attachments(rt: HostRuntime) -> Result<(), Fail> {
    let read = read(rt.alloc(), b"\0\0\0\0\x04[I[IH\x01a\x01bZ\x51\x90\x51\x90");
    assert_eq!(rt; is_shared(read), true);
    Ok(())
}

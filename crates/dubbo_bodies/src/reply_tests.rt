//! Replies as they lie on a wire, and the texts of faults.

ghost use Rattle.dubbo_bodies.specs.RefusedReply.{IsOfReply};
ghost use Rattle.std.specs.Prelude.{◌+◌, ◌≤◌, length};
ghost use Rattle.dubbo_header.specs.declared.header.TheConstants.{BODY_LIMIT};

use crate::{
    DescFault, Reply, ReplyFault, ReplyReader, RequestFault, read_reply, reply_text, request_text,
};
use dubbo_header::Header;
use hessian_graph::{Graph, Value};
use hessian_reader::HessianFault;
use link_frames::BodySink;
use std::alloc::Global;
use std::test::Fail;

/// The value "world", as a service answers it.
const WORLD: &[u8] = b"\x91\x05world";

/// The header of a reply.
fn header(serial: u8, status: u8) -> Header
    ensures { IsOfReply result }
{
    Header {
        request: false,
        two_way: false,
        event: false,
        serial,
        status,
        id: 0,
        length: 0,
    }
}

/// Why a reply in Hessian 2 is refused.
fn refused(alloc: Global, status: u8, body: &[u8]) -> Option<ReplyFault> {
    read_reply(alloc, &header(2, status), body).err()
}

/// The one root of a graph.
fn root_of(graph: &Graph) -> Option<&Value> {
    match graph.parts().roots.as_slice() {
        [root] => Some(root),
        _ => None,
    }
}

/// Whether a reply is a value that is this text.
fn is_text(reply: &Reply, text: &str) -> bool {
    match reply {
        Reply::Value(graph) => match root_of(graph) {
            Some(Value::Text(chars)) => chars.as_str() == text,
            _ => false,
        },
        _ => false,
    }
}

/// Whether a reply is an exception that is a number.
fn threw_number(reply: &Reply) -> bool {
    match reply {
        Reply::Threw(graph) => matches!(root_of(graph), Some(Value::Int(_))),
        _ => false,
    }
}

/// Whether a reply is the value null.
fn is_null(reply: &Reply) -> bool {
    match reply {
        Reply::Value(graph) => matches!(root_of(graph), Some(Value::Null)),
        _ => false,
    }
}

/// Whether a reply is a status and this text.
fn is_status(reply: &Reply, status: u8, words: &str) -> bool {
    match reply {
        Reply::Status { code, text } => *code == status && text.as_str() == words,
        _ => false,
    }
}

/// The reply that bytes in two pieces are.
fn read_cut(alloc: Global, first: &[u8], second: &[u8]) -> Result<Reply, ReplyFault>
    requires { length first.now + length second.now ≤ BODY_LIMIT }
{
    let mut reader = ReplyReader::new(alloc);
    reader.start(&header(2, 20));
    reader.feed(first);
    reader.feed(second);
    reader.finish()
}

#[test]
fn a_value_is_read(rt: HostRuntime) -> Result<(), Fail> {
    let reply = read_reply(rt.alloc(), &header(2, 20), WORLD)?;
    assert!(rt; is_text(&reply, "world"));
    Ok(())
}

#[test]
fn an_exception_is_read(rt: HostRuntime) -> Result<(), Fail> {
    let reply = read_reply(rt.alloc(), &header(2, 20), &[0x90, 0x97])?;
    assert!(rt; threw_number(&reply));
    Ok(())
}

#[test]
fn a_kind_by_itself_is_the_value_null(rt: HostRuntime) -> Result<(), Fail> {
    let reply = read_reply(rt.alloc(), &header(2, 20), &[0x92])?;
    assert!(rt; is_null(&reply));
    Ok(())
}

#[test]
fn the_attachments_of_a_value_are_dropped(rt: HostRuntime) -> Result<(), Fail> {
    let reply = read_reply(rt.alloc(), &header(2, 20), b"\x94\x05worldH\x04path\x01aZ")?;
    assert!(rt; is_text(&reply, "world"));
    Ok(())
}

#[test]
fn the_attachments_of_an_exception_are_dropped(rt: HostRuntime) -> Result<(), Fail> {
    let reply = read_reply(rt.alloc(), &header(2, 20), b"\x93\x97H\x04path\x01aZ")?;
    assert!(rt; threw_number(&reply));
    Ok(())
}

#[test]
fn attachments_alone_are_the_value_null(rt: HostRuntime) -> Result<(), Fail> {
    let reply = read_reply(rt.alloc(), &header(2, 20), b"\x95N")?;
    assert!(rt; is_null(&reply));
    Ok(())
}

#[test]
fn a_status_with_null_has_the_empty_text(rt: HostRuntime) -> Result<(), Fail> {
    let reply = read_reply(rt.alloc(), &header(2, 60), b"N")?;
    assert!(rt; is_status(&reply, 60, ""));
    Ok(())
}

#[test]
fn a_status_has_a_text_and_no_kind(rt: HostRuntime) -> Result<(), Fail> {
    let reply = read_reply(rt.alloc(), &header(2, 60), b"\x02no")?;
    assert!(rt; is_status(&reply, 60, "no"));
    Ok(())
}

#[test]
fn a_value_is_read_in_every_cut_of_two_pieces(rt: HostRuntime) -> Result<(), Fail> {
    for cut in 0..=WORLD.len() {
        let reply = read_cut(rt.alloc(), &WORLD[..cut], &WORLD[cut..])?;
        assert!(rt; is_text(&reply, "world"));
    }
    Ok(())
}

#[test]
fn kinds_and_serializations_are_refused(rt: HostRuntime) -> Result<(), Fail> {
    let alloc = rt.alloc();
    assert_eq!(rt;
        refused(alloc, 20, &[0x96]),
        Some(ReplyFault::BadKind { number: 6 })
    );
    let other = read_reply(alloc, &header(6, 20), &[0x92]).err();
    assert_eq!(rt; other, Some(ReplyFault::BadSerial { number: 6 }));
    assert_eq!(rt;
        refused(alloc, 20, &[0x95, 0x90]),
        Some(ReplyFault::BadAttachments)
    );
    assert_eq!(rt;
        refused(alloc, 20, b"\x94\x90H\x90\x90Z"),
        Some(ReplyFault::BadAttachments)
    );
    Ok(())
}

/// A fault of values.
fn values(fault: HessianFault) -> Option<ReplyFault> {
    Some(ReplyFault::Hessian(fault))
}

#[test]
fn values_are_refused_at_their_places(rt: HostRuntime) -> Result<(), Fail> {
    let alloc = rt.alloc();
    assert_eq!(rt;
        refused(alloc, 20, b""),
        values(HessianFault::Short { at: 0 })
    );
    assert_eq!(rt;
        refused(alloc, 20, b"Z"),
        values(HessianFault::BadCode { at: 0, code: b'Z' })
    );
    assert_eq!(rt;
        refused(alloc, 20, &[0x93, 0x90]),
        values(HessianFault::Short { at: 2 })
    );
    assert_eq!(rt;
        refused(alloc, 20, &[0x91, 0x90, 0x90]),
        values(HessianFault::Trailing { at: 2 })
    );
    assert_eq!(rt;
        refused(alloc, 20, &[0x91, 0x5b]),
        values(HessianFault::Double { at: 1, code: 0x5b })
    );
    assert_eq!(rt;
        refused(alloc, 20, &[0xc8, 0x01, 0x51, 0x90]),
        values(HessianFault::BadRef { at: 3, number: 0 })
    );
    Ok(())
}

#[test]
fn texts_are_refused_at_their_places(rt: HostRuntime) -> Result<(), Fail> {
    let alloc = rt.alloc();
    assert_eq!(rt;
        refused(alloc, 60, b""),
        values(HessianFault::Short { at: 0 })
    );
    assert_eq!(rt;
        refused(alloc, 60, b"\x02a"),
        values(HessianFault::Short { at: 2 })
    );
    assert_eq!(rt;
        refused(alloc, 60, &[0x90]),
        values(HessianFault::BadCode { at: 0, code: 0x90 })
    );
    assert_eq!(rt;
        refused(alloc, 60, b"\x01ab"),
        values(HessianFault::Trailing { at: 2 })
    );
    assert_eq!(rt;
        refused(alloc, 60, b"NN"),
        values(HessianFault::Trailing { at: 1 })
    );
    assert_eq!(rt;
        refused(alloc, 60, b"R\x00\x01aN"),
        values(HessianFault::BadCode { at: 4, code: b'N' })
    );
    assert_eq!(rt;
        refused(alloc, 60, &[1, 0xc0, 0x80]),
        values(HessianFault::BadText { at: 1 })
    );
    Ok(())
}

#[test]
fn faults_of_replies_have_these_texts(rt: HostRuntime) -> Result<(), Fail> {
    let serial = reply_text(ReplyFault::BadSerial { number: 6 });
    assert_eq!(rt; serial.as_str(), "serial 6");
    let kind = reply_text(ReplyFault::BadKind { number: -6 });
    assert_eq!(rt; kind.as_str(), "kind -6");
    let code = reply_text(ReplyFault::Hessian(HessianFault::BadCode { at: 0, code: 0x5a }));
    assert_eq!(rt; code.as_str(), "code 0 5a");
    let length = reply_text(ReplyFault::Hessian(HessianFault::BadLength { at: 3, number: -1 }));
    assert_eq!(rt; length.as_str(), "length 3 -1");
    assert_eq!(rt;
        reply_text(ReplyFault::BadAttachments).as_str(),
        "attachments"
    );
    Ok(())
}

#[test]
fn faults_of_requests_have_these_texts(rt: HostRuntime) -> Result<(), Fail> {
    let field = request_text(RequestFault::NotText { field: 0 });
    assert_eq!(rt; field.as_str(), "field 0");
    let bad = request_text(RequestFault::Descriptor(DescFault::BadDescriptor { at: 1 }));
    assert_eq!(rt; bad.as_str(), "descriptor 1");
    let many = request_text(RequestFault::Descriptor(DescFault::TooManyArgs { at: 255 }));
    assert_eq!(rt; many.as_str(), "arguments 255");
    let short = request_text(RequestFault::Hessian(HessianFault::Short { at: usize::MAX }));
    assert_eq!(rt; short.as_str(), "short 18446744073709551615");
    Ok(())
}

//! What no clause says: that memory which is there is found, and links as they lie on a wire.

use crate::{ServeFault, Served, Session, serve_link};
use dubbo_io::{MemSink, MemSource};
use hessian_graph::Chars;
use link_frames::FrameReader;
use service_table::{Kind, Row, Services};
use std::alloc::{AllocError, Global};
use std::test::Fail;

/// A question for a sign of life, and the answer.
const QUESTION: &[u8] = b"\xda\xbb\xe2\x00\0\0\0\0\0\0\0\x01\0\0\0\x01N";

const SIGN: &[u8] = b"\xda\xbb\x22\x14\0\0\0\0\0\0\0\x01\0\0\0\x01N";

/// A request, and the reply of a service that answers its argument.
const HELLO: &[u8] =
    b"\xda\xbb\xc2\x00\0\0\0\0\0\0\0\0\0\0\0\xc3\x052.0.20!org.apache.dubbo.demo.DemoService\x050.0.0\x08sayHello\x12Ljava/lang/String;\x05worldH\x04path0!org.apache.dubbo.demo.DemoService\x09interface0!org.apache.dubbo.demo.DemoService\x07version\x050.0.0\x07timeout\x041000Z";

const WORLD: &[u8] = b"\xda\xbb\x02\x14\0\0\0\0\0\0\0\0\0\0\0\x07\x91\x05world";

/// The same request to a provider that has no such service.
const NOT_FOUND: &[u8] = b"\xda\xbb\x02\x3c\0\0\0\0\0\0\0\0\0\0\0\x12\x11service not found";

/// A request whose body is the int 0, and the reply.
const UNREAD: &[u8] = b"\xda\xbb\xc2\x00\0\0\0\0\0\0\0\x10\0\0\0\x01\x90";

const BAD_REQUEST: &[u8] = b"\xda\xbb\x02\x28\0\0\0\0\0\0\0\x10\0\0\0\x15\x14bad request: field 0";

/// A request that wants no reply, an event that asks for nothing, and two replies.
const SILENT: &[u8] =
    b"\xda\xbb\x82\x00\0\0\0\0\0\0\0\x20\0\0\0\x01\x90\xda\xbb\xa2\x00\0\0\0\0\0\0\0\x30\0\0\0\x01N\xda\xbb\x22\x14\0\0\0\0\0\0\0\x40\0\0\0\x01N\xda\xbb\x02\x14\0\0\0\0\0\0\0\x50\0\0\0\x01\x92";

/// A text.
fn chars(alloc: Global, text: &str) -> Result<Chars, AllocError> {
    Ok(Chars::from(String::from_str(alloc, text)?))
}

/// The service that the request asks for, which answers its first argument.
fn hello(alloc: Global) -> Result<Row, AllocError> {
    let path = chars(alloc, "org.apache.dubbo.demo.DemoService")?;
    let version = chars(alloc, "0.0.0")?;
    let method = chars(alloc, "sayHello")?;
    let desc = chars(alloc, "Ljava/lang/String;")?;
    Ok(Row {
        path,
        version,
        method,
        desc,
        kind: Kind::Echo,
    })
}

/// A table of that service alone.
fn one_service(alloc: Global) -> Result<Services, Fail> {
    let mut services = Services::new(alloc);
    let row = hello(alloc)?;
    services.add(row)?;
    Ok(services)
}

/// A stream whose reads give so many bytes at most, the reads of these numbers failing.
fn source(alloc: Global, stream: &[u8], cut: usize, fails: &[u64]) -> Result<MemSource, Fail> {
    if stream.len() > 4096 {
        return Err(Fail::new("a long stream"));
    }
    let bytes = stream.to_vec(alloc)?;
    let fails = fails.to_vec(alloc)?;
    Ok(MemSource::new(bytes, cut, fails))
}

/// Serves a stream, and compares what was written.
fn serves(
    alloc: Global,
    services: &Services,
    source: MemSource,
    mut sink: MemSink,
    expected: &[u8],
) -> Result<Session, Fail> {
    let mut reader = FrameReader::new(alloc, source).map_err(|_| "no memory")?;
    let session = serve_link(alloc, &mut reader, &mut sink, services);
    if sink.bytes() != expected {
        return Err(Fail::new("other bytes were written"));
    }
    Ok(session)
}

/// A session without a fault.
fn ended(requests: u64, answers: u64) -> Session {
    Session {
        served: Served { requests, answers },
        fault: None,
    }
}

#[test]
fn each_frame_is_answered_by_the_table(rt: HostRuntime) -> Result<(), Fail> {
    let alloc = rt.alloc();
    let services = one_service(alloc)?;
    for cut in [0, 1, 7] {
        for (stream, answers, session) in [
            (QUESTION, SIGN, ended(0, 1)),
            (HELLO, WORLD, ended(1, 1)),
            (UNREAD, BAD_REQUEST, ended(1, 1)),
            (SILENT, b"".as_slice(), ended(1, 0)),
        ] {
            let source = source(alloc, stream, cut, &[])?;
            let sink = MemSink::new(alloc, 4096, 0, Vec::new(alloc))?;
            let came = serves(alloc, &services, source, sink, answers)?;
            assert_eq!(rt; came, session);
        }
    }
    Ok(())
}

#[test]
fn an_unknown_service_is_not_found(rt: HostRuntime) -> Result<(), Fail> {
    let alloc = rt.alloc();
    let source = source(alloc, HELLO, 0, &[])?;
    let sink = MemSink::new(alloc, 4096, 0, Vec::new(alloc))?;
    let session = serves(alloc, &Services::new(alloc), source, sink, NOT_FOUND)?;
    assert_eq!(rt; session, ended(1, 1));
    Ok(())
}

#[test]
fn what_stops_a_link_is_told(rt: HostRuntime) -> Result<(), Fail> {
    let alloc = rt.alloc();
    let cut = [QUESTION, b"\xda\xbb\x02"].concat(alloc)?;
    let broken = [QUESTION, b"GET / HTTP/1.1\r\n"].concat(alloc)?;
    let services = Services::new(alloc);
    for (stream, fails, answers, fault) in [
        (
            cut.as_slice(),
            [].as_slice(),
            1,
            ServeFault::CutShort { at: 17 },
        ),
        (
            broken.as_slice(),
            [].as_slice(),
            1,
            ServeFault::Broken { at: 17 },
        ),
        (QUESTION, [2].as_slice(), 1, ServeFault::Lost { faults: 1 }),
    ] {
        let source = source(alloc, stream, 17, fails)?;
        let sink = MemSink::new(alloc, 4096, 0, Vec::new(alloc))?;
        let session = serves(alloc, &services, source, sink, SIGN)?;
        assert_eq!(rt; session.served.answers, answers);
        assert_eq!(rt; session.fault, Some(fault));
    }
    Ok(())
}

#[test]
fn a_sink_that_fails_ends_the_link(rt: HostRuntime) -> Result<(), Fail> {
    let alloc = rt.alloc();
    let services = Services::new(alloc);
    // The first write fails, the second of two, and the flush behind both.
    for (call, written, answers) in [(1, 0, 0), (2, 9, 0), (3, 17, 1)] {
        let source = source(alloc, QUESTION, 0, &[])?;
        let sink = MemSink::new(alloc, 4096, 9, [call].to_vec(alloc)?)?;
        let session = serves(alloc, &services, source, sink, &SIGN[..written])?;
        assert_eq!(rt; session.served.answers, answers);
        assert_eq!(rt; session.fault, Some(ServeFault::Lost { faults: 1 }));
    }
    Ok(())
}

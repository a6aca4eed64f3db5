//! Whole runs of `frames`: the status, and what is printed.
ghost use Rattle.std.specs.Prelude.{◌<◌, ◌-◌, ◌^◌, length};

use super::{Outcome, words_of};
use crate::top::run_plain;
use dubbo_io::{MemSink, MemSource};
use std::alloc::{AllocError, Global};
use std::test::Fail;

/// Runs the command over this stream.
fn framed(alloc: Global, stream: &[u8]) -> Result<Outcome, AllocError>
    requires { length stream.now < 2 ^ 62 - 1 }
{
    let words = words_of(alloc, &["dubbo_main", "frames"])?;
    let mut input = MemSource::new(stream.to_vec(alloc)?, 0, Vec::new(alloc));
    let mut output = MemSink::new(alloc, 400, 0, Vec::new(alloc))?;
    let status = run_plain(alloc, &words, &mut input, &mut output);
    Ok(Outcome { status, output })
}

/// A heartbeat that wants a reply.
const BEAT: &[u8] = b"\xda\xbb\xe2\x00\x00\x00\x00\x00\x00\x00\x00\x01\x00\x00\x00\x01N";

#[test]
fn frames_are_printed_in_order(rt: HostRuntime) -> Result<(), Fail> {
    let cases: [(&[u8], &[u8]); 4] = [
        (b"", b""),
        (BEAT, b"0 event 1 0 1\n"),
        (
            b"\xda\xbb\x02\x14\x00\x00\x00\x00\x00\x00\x00\x07\x00\x00\x00\x02\x91N\xda\xbb\x02\x14\x00\x00\x00\x00\x00\x00\x00\x08\x00\x00\x00\x02\x90\x80",
            b"0 reply 7 20 2 ok null\n18 reply 8 20 2 threw -16\n",
        ),
        (
            b"\xda\xbbB2\x7fF\xf3\xf6\xc1u\xaa\xad\x00\x00\x00\x02\x01z",
            b"0 reply 9171285932319812269 50 2 status 50 \"z\"\n",
        ),
    ];
    for (stream, printed) in cases {
        assert!(rt; stream.len() < 100);
        let outcome = framed(rt.alloc(), stream)?;
        assert_eq!(rt; outcome.status, 0);
        assert_eq!(rt; outcome.output.bytes(), printed);
    }
    Ok(())
}

#[test]
fn a_request_is_shown_with_its_arguments(rt: HostRuntime) -> Result<(), Fail> {
    let stream = b"\xda\xbb\xc2\x00\x00\x00\x00\x00\x00\x00\x00\x00\x00\x00\x00\xc3\
        \x052.0.2\x30\x21org.apache.dubbo.demo.DemoService\x050.0.0\x08sayHello\x12Ljava/lang/String;\x05worldH\
        \x04path\x30\x21org.apache.dubbo.demo.DemoService\x09interface\x30\x21org.apache.dubbo.demo.DemoService\
        \x07version\x050.0.0\x07timeout\x041000Z"
        .as_slice();
    assert!(rt; stream.len() == 211);
    let outcome = framed(rt.alloc(), stream)?;
    assert_eq!(rt; outcome.status, 0);
    assert_eq!(rt;
        outcome.output.bytes(),
        b"0 request 0 0 195 \"org.apache.dubbo.demo.DemoService\" \"0.0.0\" \"sayHello\" \"Ljava/lang/String;\" (\"world\")\n".as_slice()
    );
    Ok(())
}

#[test]
fn a_request_that_wants_no_reply_is_oneway(rt: HostRuntime) -> Result<(), Fail> {
    let stream =
        b"\xda\xbb\x82\x00\x00\x00\x00\x00\x00\x00\x00\x03\x00\x00\x00\x06\x00\x00\x00\x00\x00N";
    let outcome = framed(rt.alloc(), stream.as_slice())?;
    assert_eq!(rt; outcome.status, 0);
    assert_eq!(rt;
        outcome.output.bytes(),
        b"0 oneway 3 0 6 \"\" \"\" \"\" \"\" ()\n".as_slice()
    );
    Ok(())
}

#[test]
fn a_body_that_is_not_read_says_why(rt: HostRuntime) -> Result<(), Fail> {
    let cases: [(&[u8], &[u8]); 7] = [
        (
            b"\xda\xbb\x02\x14\x00\x00\x00\x00\x00\x00\x00\x07\x00\x00\x00\x01\x96",
            b"0 reply 7 20 1 unread kind 6\n",
        ),
        (
            b"\xda\xbb\x06\x14\x00\x00\x00\x00\x00\x00\x00\x07\x00\x00\x00\x01\x92",
            b"0 reply 7 20 1 unread serial 6\n",
        ),
        (
            b"\xda\xbbB\x14\x00\x00\x00\x00\x00\x00\x00\x01\x00\x00\x00\x04\x5b\xd4\x00\x06",
            b"0 reply 1 20 4 unread code 0 5b\n",
        ),
        (
            b"\xda\xbb\xc2\x00\x00\x00\x00\x00\x00\x00\x00\x03\x00\x00\x00\x01\x90",
            b"0 request 3 0 1 unread field 0\n",
        ),
        (
            b"\xda\xbb\xc2\x00\x00\x00\x00\x00\x00\x00\x00\x03\x00\x00\x00\x12\x052.0.2\x01p\x00\x01m\x02IV\x90\x90\x90N",
            b"0 request 3 0 18 unread descriptor 1\n",
        ),
        (
            b"\xda\xbb\xc2\x00\x00\x00\x00\x00\x00\x00\x00\x03\x00\x00\x00\x10\x052.0.2\x01p\x00\x01m\x01IxQ\x90",
            b"0 request 3 0 16 unread attachments\n",
        ),
        (
            b"\xda\xbb\xc2\x00\x00\x00\x00\x00\x00\x00\x00\x03\x00\x00\x00\x11\x052.0.2\x01p\x00\x01m\x01I\x90M\x90Z",
            b"0 request 3 0 17 unread type 15 0\n",
        ),
    ];
    for (stream, printed) in cases {
        assert!(rt; stream.len() < 100);
        let outcome = framed(rt.alloc(), stream)?;
        assert_eq!(rt; outcome.status, 0);
        assert_eq!(rt; outcome.output.bytes(), printed);
    }
    Ok(())
}

#[test]
fn a_rest_is_damaged(rt: HostRuntime) -> Result<(), Fail> {
    let cases: [(&[u8], &[u8]); 8] = [
        (
            b"\xda\xbb\xe2\x00\x00\x00\x00\x00\x00\x00\x00\x01\x00\x00\x00\x01N\xda\xbb\x02",
            b"0 event 1 0 1\ndamaged 17 short\n",
        ),
        (
            b"\xda\xbb\xe2\x00\x00\x00\x00\x00\x00\x00\x00\x01\x00\x00\x00\x01N\xda\xba",
            b"0 event 1 0 1\ndamaged 17 magic\n",
        ),
        (b"\xda", b"damaged 0 short\n"),
        (b"\x00", b"damaged 0 magic\n"),
        (b"\xdb\xbb", b"damaged 0 magic\n"),
        (
            b"\xda\xbb\xc2\x00\x00\x00\x00\x00\x00\x00\x00\x00\x00\x80\x00\x01",
            b"damaged 0 length 8388609\n",
        ),
        (
            b"\xda\xbb\xc2\x00\x00\x00\x00\x00\x00\x00\x00\x00\x00\x80\x00\x00",
            b"damaged 0 short\n",
        ),
        (
            b"\xda\xbb\xc2\x00\x00\x00\x00\x00\x00\x00\x00\x00\xff\xff\xff",
            b"damaged 0 short\n",
        ),
    ];
    for (stream, printed) in cases {
        assert!(rt; stream.len() < 100);
        let outcome = framed(rt.alloc(), stream)?;
        assert_eq!(rt; outcome.status, 8);
        assert_eq!(rt; outcome.output.bytes(), printed);
    }
    Ok(())
}

#[test]
fn frames_has_no_options(rt: HostRuntime) -> Result<(), Fail> {
    let alloc = rt.alloc();
    let words = words_of(alloc, &["dubbo_main", "frames", "--roots=1"])?;
    let mut input = MemSource::new(BEAT.to_vec(alloc)?, 0, Vec::new(alloc));
    let mut output = MemSink::new(alloc, 100, 0, Vec::new(alloc))?;
    assert_eq!(rt; run_plain(alloc, &words, &mut input, &mut output), 1);
    assert_eq!(rt; output.bytes(), b"fault words\n".as_slice());
    Ok(())
}

//! Scripts and lines whose meaning is known from their description.

ghost use Rattle.call_plan.specs.Size.{IsFit};

use crate::{Call, CallResult, Mode, Script, ScriptFault, direct, print_line};
use dubbo_bodies::write_request;
use hessian_graph::Chars;
use std::alloc::{AllocError, Global};
use std::test::Fail;

/// Five services and six calls of them.
const TOUR: &[u8] = b"service demo.S - echo Ljava/lang/Object; echo
service demo.S - twice Ljava/lang/Object; twice
service demo.S - knot Ljava/lang/Object; knot
service demo.S - fail Ljava/lang/Object; throw
service demo.S - sum Ljava/util/List; sum
call failover - - - demo.S - echo Ljava/lang/Object; [#0]
call failover - - - demo.S - twice Ljava/lang/Object; []
call failfast - - - demo.S - knot Ljava/lang/Object; 5
call failover - - - demo.S - fail Ljava/lang/Object; \"no\"
call failsafe - - - demo.S - none Ljava/lang/Object; null
call failfast - - - demo.S - sum Ljava/util/List; [1,2L,\"x\"]
";

/// What the direct calls of the tour print.
const TOUR_LINES: &[u8] = b"0 ok [#0]
1 ok [[],#1]
2 ok !\"demo.Knot\"(\"self\":#0,\"value\":5)
3 threw \"no\"
4 ignored status 60 \"service not found\"
5 ok 3L
";

/// A call whose request is known byte by byte.
const HELLO: &[u8] =
    b"call failover - - - org.apache.dubbo.demo.DemoService 0.0.0 sayHello Ljava/lang/String; \"world\"";

/// The body of that request.
const HELLO_BODY: &[u8] =
    b"\x052.0.2\x30\x21org.apache.dubbo.demo.DemoService\x050.0.0\x08sayHello\x12Ljava/lang/String;\x05worldH\x04path\x30\x21org.apache.dubbo.demo.DemoService\x09interface\x30\x21org.apache.dubbo.demo.DemoService\x07version\x050.0.0\x07timeout\x041000Z";

/// The script of these bytes.
fn script(alloc: Global, text: &[u8]) -> Result<Script, Fail> {
    if text.len() >= 1_000_000_000 {
        return Err(Fail::new("too long"));
    }
    match Script::read(alloc, text) {
        Ok(script) => Ok(script),
        Err(_) => Err(Fail::new("no script")),
    }
}

/// Why these bytes are no script.
fn fault(alloc: Global, text: &[u8]) -> Option<ScriptFault> {
    if text.len() >= 1_000_000_000 {
        return None;
    }
    Script::read(alloc, text).err()
}

/// What the direct calls of a script print.
fn lines(alloc: Global, text: &[u8]) -> Result<Vec<u8>, Fail> {
    let script = script(alloc, text)?;
    Ok(direct(alloc, &script)?)
}

#[test]
fn a_tour_prints_a_line_for_each_call(rt: HostRuntime) -> Result<(), Fail> {
    let text = lines(rt.alloc(), TOUR)?;
    assert!(rt; text.as_slice() == TOUR_LINES);
    Ok(())
}

/// The body of a call's request.
fn body(alloc: Global, call: &Call) -> Result<Vec<u8>, Fail>
    requires { IsFit call.now }
{
    match write_request(alloc, &call.request) {
        Ok(body) => Ok(body),
        Err(_) => Err(Fail::new("no body")),
    }
}

/// The body of the first call's request.
fn first_body(alloc: Global, script: &Script) -> Result<Vec<u8>, Fail> {
    let calls = script.calls();
    if calls.is_empty() {
        return Err(Fail::new("no call"));
    }
    body(alloc, &calls[0])
}

#[test]
fn a_request_has_four_attachments(rt: HostRuntime) -> Result<(), Fail> {
    let script = script(rt.alloc(), HELLO)?;
    let body = first_body(rt.alloc(), &script)?;
    assert_eq!(rt; body.len(), 195);
    assert!(rt; body.as_slice() == HELLO_BODY);
    Ok(())
}

#[test]
fn defaults_stand_for_dashes(rt: HostRuntime) -> Result<(), Fail> {
    let script = script(rt.alloc(), HELLO)?;
    let calls = script.calls();
    assert_eq!(rt; calls.len(), 1);
    assert_eq!(rt; calls[0].line, 1);
    assert_eq!(rt; calls[0].mode, Mode::Failover);
    assert_eq!(rt; calls[0].timeout, 1000);
    assert_eq!(rt; calls[0].retries, 2);
    assert_eq!(rt; calls[0].forks, 2);
    Ok(())
}

#[test]
fn an_empty_script_prints_nothing(rt: HostRuntime) -> Result<(), Fail> {
    let text = lines(rt.alloc(), b"")?;
    assert!(rt; text.is_empty());
    Ok(())
}

#[test]
fn a_one_way_call_says_sent(rt: HostRuntime) -> Result<(), Fail> {
    let text = lines(
        rt.alloc(),
        b"service demo.S - echo Ljava/lang/Object; echo\ncall oneway - - - demo.S - echo Ljava/lang/Object; 7",
    )?;
    assert!(rt; text.as_slice() == b"0 sent\n".as_slice());
    Ok(())
}

#[test]
fn a_service_may_stand_behind_its_call(rt: HostRuntime) -> Result<(), Fail> {
    let text = lines(
        rt.alloc(),
        b"# a call without parameters\n\ncall failsafe 1 0 1 s - m -\nservice s - m - none\n",
    )?;
    assert!(rt; text.as_slice() == b"0 ok null\n".as_slice());
    Ok(())
}

#[test]
fn bad_lines_are_named(rt: HostRuntime) {
    let cases: [(&[u8], u32); 16] = [
        (b"#\n\ncall", 3),
        (b"service s - m -  none", 1),
        (b"service s - m - none ", 1),
        (b"service s - m - None", 1),
        (b"service s - m - none\nservice s - m - args\n", 2),
        (b"service s - m - echo", 1),
        (b"service s - m V none", 1),
        (b" service s - m - none", 1),
        (b"call failover 0 - - s - m -", 1),
        (b"call failover 2147483648 - - s - m -", 1),
        (b"call failover 01 - - s - m -", 1),
        (b"call failover - 16 - s - m -", 1),
        (b"call failover - - 0 s - m -", 1),
        (b"call failover - - - s - m - ", 1),
        (b"call failover - - - s - m I", 1),
        (b"\ncall failover - - - s - m I 1,2", 2),
    ];
    for (text, line) in cases {
        assert_eq!(rt;
            fault(rt.alloc(), text),
            Some(ScriptFault::BadLine { line })
        );
    }
}

/// So many lines `call`, each ended by a line feed, and one before them that is as given.
fn repeated(alloc: Global, line: &[u8], count: usize) -> Result<Vec<u8>, AllocError> {
    let mut text = Vec::new(alloc);
    for _ in 0..count {
        text.extend_from_slice(line)?;
    }
    Ok(text)
}

#[test]
fn a_4097th_call_is_one_too_many(rt: HostRuntime) -> Result<(), Fail> {
    let text = repeated(rt.alloc(), b"call oneway - - - s - m -\n", 4097)?;
    assert_eq!(rt;
        fault(rt.alloc(), &text),
        Some(ScriptFault::TooManyCalls { line: 4097 })
    );
    Ok(())
}

#[test]
fn a_4097th_call_line_is_one_too_many_whatever_it_says(rt: HostRuntime) -> Result<(), Fail> {
    let mut text = repeated(rt.alloc(), b"call oneway - - - s - m -\n", 4096)?;
    text.extend_from_slice(b"call")?;
    assert_eq!(rt;
        fault(rt.alloc(), &text),
        Some(ScriptFault::TooManyCalls { line: 4097 })
    );
    Ok(())
}

#[test]
fn a_million_dates_are_too_large(rt: HostRuntime) -> Result<(), Fail> {
    let mut text = Vec::from_slice(
        rt.alloc(),
        b"call failfast - - - s - t Ljava/lang/Object; [@1",
    )?;
    let dates = repeated(rt.alloc(), b",@1", 999_999)?;
    text.extend_from_slice(&dates)?;
    text.extend_from_slice(b"]")?;
    assert_eq!(rt;
        fault(rt.alloc(), &text),
        Some(ScriptFault::TooLarge { line: 1 })
    );
    Ok(())
}

#[test]
fn a_reply_that_no_frame_has_room_for_is_a_status(rt: HostRuntime) -> Result<(), Fail> {
    let mut text = Vec::from_slice(
        rt.alloc(),
        b"service s - t Ljava/lang/Object; twice\ncall failfast - - - s - t Ljava/lang/Object; \"",
    )?;
    let letters = repeated(rt.alloc(), b"a", 4_194_200)?;
    text.extend_from_slice(&letters)?;
    text.extend_from_slice(b"\"\n")?;
    let printed = lines(rt.alloc(), &text)?;
    assert!(rt; printed.as_slice() == b"0 status 50 \"reply too long\"\n".as_slice());
    Ok(())
}

#[test]
fn a_status_is_ignored_under_failsafe_alone(rt: HostRuntime) -> Result<(), Fail> {
    let text = Chars::from(String::from_str(rt.alloc(), "pool \"exhausted\"")?);
    let outcome = CallResult::Status { code: 100, text };
    let plain = print_line(rt.alloc(), 4, Mode::Failover, &outcome)?;
    assert!(rt; plain.as_slice() == b"4 status 100 \"pool \\\"exhausted\\\"\"\n".as_slice());
    let ignored = print_line(rt.alloc(), 4, Mode::Failsafe, &outcome)?;
    assert!(rt;
        ignored.as_slice() == b"4 ignored status 100 \"pool \\\"exhausted\\\"\"\n".as_slice()
    );
    Ok(())
}

#[test]
fn faults_have_their_numbers(rt: HostRuntime) -> Result<(), Fail> {
    let cases: [(Mode, CallResult, &[u8]); 6] = [
        (
            Mode::Failfast,
            CallResult::Timeout {
                deadline: 1000,
                moment: 1001,
            },
            b"0 timeout 1000 1001\n",
        ),
        (
            Mode::Failover,
            CallResult::Lost { link: 0, faults: 1 },
            b"0 lost 0 1\n",
        ),
        (
            Mode::Failsafe,
            CallResult::Lost { link: 0, faults: 1 },
            b"0 ignored lost 0 1\n",
        ),
        (
            Mode::Forking,
            CallResult::Broken { link: 7, at: 17 },
            b"0 broken 7 17\n",
        ),
        (Mode::Oneway, CallResult::Sent, b"0 sent\n"),
        (Mode::Failsafe, CallResult::NoMemory, b"0 nomem\n"),
    ];
    for (mode, outcome, wanted) in cases {
        let line = print_line(rt.alloc(), 0, mode, &outcome)?;
        assert!(rt; line.as_slice() == wanted);
    }
    Ok(())
}

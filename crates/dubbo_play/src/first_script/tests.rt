//! Scripts whose answers are known from the form's description.

use super::*;
use std::test::Fail;

#[test]
fn a_service_and_a_call_are_a_script(rt: HostRuntime) -> Result<(), Fail> {
    let text =
        b"service demo.S - echo Ljava/lang/Object; echo\n# a comment\n\ncall failover - - - demo.S - echo Ljava/lang/Object; -7";
    match FirstScript::read(rt.alloc(), text.as_slice()) {
        Ok(script) => {
            let calls = script.calls();
            assert_eq!(rt; calls.len(), 1);
            assert_eq!(rt; calls[0].path(), "demo.S");
            assert_eq!(rt; calls[0].method(), "echo");
            assert_eq!(rt; calls[0].argument(), -7);
        }
        Err(fault) => assert!(rt; false, "{fault}"),
    }
    Ok(())
}

#[test]
fn no_bytes_are_a_script_without_calls(rt: HostRuntime) {
    match FirstScript::read(rt.alloc(), b"".as_slice()) {
        Ok(script) => assert!(rt; script.calls().is_empty()),
        Err(fault) => assert!(rt; false, "{fault}"),
    }
}

#[test]
fn other_lines_are_refused_where_they_stand(rt: HostRuntime) {
    let cases: [(&[u8], u32); 6] = [
        (
            b"call failover - - - demo.S - echo Ljava/lang/Object; 7\n",
            1,
        ),
        (b"#\n\nservice demo.S - echo Ljava/lang/Object; echo \n", 3),
        (
            b"service wwwwwwwwwwwwwwwwwwwwwwwwwwwwwwwwwwwwwwwwwwwwwwwwwwwwwwwwwwwwwwwwwwwwwwwwwwwwwwwwwwwwwwwwwwwwwwwwwwwwwwwwwwwwwwwwwwwwwwwwwwwwwwwwwwwwwwwwwwwwwwwwwwwwwwwwwwwwwwwwwwwwwwwwwwwwwwwwwwwwwwwwwwwwwwwwwwwwwwwwwwwwwwwwwwwwwwwwwwwwwwwwwwwwwwwwwwwwwwwwwwwwwwwwwwwwwwww - m Ljava/lang/Object; echo",
            1,
        ),
        (
            b"service a - m Ljava/lang/Object; echo\nservice a - m Ljava/lang/Object; echo\n",
            2,
        ),
        (
            b"service a - m Ljava/lang/Object; echo\ncall failover - - - a - m Ljava/lang/Object; -0\n",
            2,
        ),
        (
            b"service a - m Ljava/lang/Object; echo\ncall failover - - - a - m Ljava/lang/Object; 07\n",
            2,
        ),
    ];
    for (text, line) in cases {
        match FirstScript::read(rt.alloc(), text) {
            Ok(_) => assert!(rt; false, "taken: {line}"),
            Err(fault) => assert_eq!(rt; fault, FirstFault::NotBuilt { line }),
        }
    }
}

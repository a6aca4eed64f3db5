//! Runs whose bytes are known from the protocol's description.

ghost use Rattle.std.specs.Prelude.{◌<◌, ◌^◌, length};

use super::*;
use std::test::Fail;

/// The bytes of both directions of a link, and what is printed.
#[derive(Drop)]
struct Run {
    asks: Vec<u8>,
    answers: Vec<u8>,
    printed: Vec<u8>,
}

/// Runs a script over a link that has these bytes already, in both directions.
fn run_behind(alloc: Global, before: &[u8], text: &[u8]) -> Result<Run, Fail>
    requires { length text.now < 2 ^ 31 }
{
    let script = FirstScript::read(alloc, text)?;
    let mut asks = Vec::from_slice(alloc, before)?;
    let mut answers = Vec::from_slice(alloc, before)?;
    let printed = first_link(alloc, &script, &mut asks, &mut answers)?;
    Ok(Run {
        asks,
        answers,
        printed,
    })
}

#[test]
fn one_call_is_asked_answered_and_printed(rt: HostRuntime) -> Result<(), Fail> {
    let text =
        b"service demo.S - echo Ljava/lang/Object; echo\ncall failover - - - demo.S - echo Ljava/lang/Object; 7";
    let run = run_behind(rt.alloc(), b"".as_slice(), text.as_slice())?;
    assert_eq!(rt;
        run.asks.as_slice(),
        b"\xda\xbb\xc2\x00\x00\x00\x00\x00\x00\x00\x00\x00\x00\x00\x00\x5c\x052.0.2\x06demo.S\x00\x04echo\x12Ljava/lang/Object;\x97H\x04path\x06demo.S\x09interface\x06demo.S\x07version\x00\x07timeout\x041000Z".as_slice()
    );
    assert_eq!(rt;
        run.answers.as_slice(),
        b"\xda\xbb\x02\x14\x00\x00\x00\x00\x00\x00\x00\x00\x00\x00\x00\x02\x91\x97".as_slice()
    );
    assert_eq!(rt;
        run.printed.as_slice(),
        b"0 ok 7\ncalls 1 attempts 1\n".as_slice()
    );
    Ok(())
}

#[test]
fn no_call_leaves_the_link_as_it_was(rt: HostRuntime) -> Result<(), Fail> {
    let run = run_behind(
        rt.alloc(),
        b"\xda\xbb".as_slice(),
        b"# nothing\n".as_slice(),
    )?;
    assert_eq!(rt; run.asks.as_slice(), b"\xda\xbb".as_slice());
    assert_eq!(rt; run.answers.as_slice(), b"\xda\xbb".as_slice());
    assert_eq!(rt; run.printed.as_slice(), b"calls 0 attempts 0\n".as_slice());
    Ok(())
}

#[test]
fn each_line_has_the_argument_of_its_own_call(rt: HostRuntime) -> Result<(), Fail> {
    let text =
        b"service a - m Ljava/lang/Object; echo\ncall failover - - - a - m Ljava/lang/Object; -17\ncall failover - - - a - m Ljava/lang/Object; 2048\ncall failover - - - a - m Ljava/lang/Object; 262144\ncall failover - - - a - m Ljava/lang/Object; -2147483648\n";
    let run = run_behind(rt.alloc(), b"~".as_slice(), text.as_slice())?;
    assert_eq!(rt;
        run.answers.as_slice(),
        b"~\xda\xbb\x02\x14\x00\x00\x00\x00\x00\x00\x00\x00\x00\x00\x00\x03\x91\xc7\xef\xda\xbb\x02\x14\x00\x00\x00\x00\x00\x00\x00\x10\x00\x00\x00\x04\x91\xd4\x08\x00\xda\xbb\x02\x14\x00\x00\x00\x00\x00\x00\x00\x20\x00\x00\x00\x06\x91I\x00\x04\x00\x00\xda\xbb\x02\x14\x00\x00\x00\x00\x00\x00\x00\x30\x00\x00\x00\x06\x91I\x80\x00\x00\x00".as_slice()
    );
    assert_eq!(rt;
        run.printed.as_slice(),
        b"0 ok -17\n1 ok 2048\n2 ok 262144\n3 ok -2147483648\ncalls 4 attempts 4\n".as_slice()
    );
    Ok(())
}

#[test]
fn a_path_of_forty_bytes_has_a_head_of_two(rt: HostRuntime) -> Result<(), Fail> {
    let text =
        b"service org.apache.dubbo.samples.api.GreetingSrv - m Ljava/lang/Object; echo\ncall failover - - - org.apache.dubbo.samples.api.GreetingSrv - m Ljava/lang/Object; 7\n";
    let run = run_behind(rt.alloc(), b"".as_slice(), text.as_slice())?;
    assert_eq!(rt;
        run.asks.as_slice(),
        b"\xda\xbb\xc2\x00\x00\x00\x00\x00\x00\x00\x00\x00\x00\x00\x00\xc2\x052.0.2\x30\x28org.apache.dubbo.samples.api.GreetingSrv\x00\x01m\x12Ljava/lang/Object;\x97H\x04path\x30\x28org.apache.dubbo.samples.api.GreetingSrv\x09interface\x30\x28org.apache.dubbo.samples.api.GreetingSrv\x07version\x00\x07timeout\x041000Z".as_slice()
    );
    assert_eq!(rt;
        run.printed.as_slice(),
        b"0 ok 7\ncalls 1 attempts 1\n".as_slice()
    );
    Ok(())
}

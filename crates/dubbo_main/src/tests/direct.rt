//! Whole runs of `direct` and `gen`: the status, and what is printed.
ghost use Rattle.std.specs.Prelude.{◌<◌, ◌-◌, ◌^◌, length};

use super::{Outcome, words_of};
use crate::top::run_plain;
use dubbo_io::{MemSink, MemSource};
use std::alloc::{AllocError, Global};
use std::test::Fail;

/// Runs a command over this input, of which the first read or write may fail.
fn ran(
    alloc: Global,
    words: &[&str],
    input: MemSource,
    output: MemSink,
) -> Result<Outcome, AllocError> {
    let words = words_of(alloc, words)?;
    let mut input = input;
    let mut output = output;
    let status = run_plain(alloc, &words, &mut input, &mut output);
    Ok(Outcome { status, output })
}

/// Runs `direct` over these bytes.
fn directed(alloc: Global, bytes: &[u8]) -> Result<Outcome, AllocError>
    requires { length bytes.now < 2 ^ 62 - 1 }
{
    let input = MemSource::new(bytes.to_vec(alloc)?, 0, Vec::new(alloc));
    let output = MemSink::new(alloc, 300, 0, Vec::new(alloc))?;
    ran(alloc, &["dubbo_main", "direct"], input, output)
}

/// Runs a command over no input.
fn ran_alone(alloc: Global, words: &[&str]) -> Result<Outcome, AllocError> {
    let input = MemSource::new(Vec::new(alloc), 0, Vec::new(alloc));
    let output = MemSink::new(alloc, 2_000, 0, Vec::new(alloc))?;
    ran(alloc, words, input, output)
}

const SCRIPT: &[u8] = b"service demo.S - echo Ljava/lang/Object; echo
service demo.S - twice Ljava/lang/Object; twice
service demo.S - knot Ljava/lang/Object; knot
service demo.S - fail Ljava/lang/Object; throw
service demo.S - sum Ljava/util/List; sum
call failover - - - demo.S - echo Ljava/lang/Object; [#0]
call failover - - - demo.S - twice Ljava/lang/Object; []
call failfast - - - demo.S - knot Ljava/lang/Object; 5
call failover - - - demo.S - fail Ljava/lang/Object; \"no\"
call failsafe - - - demo.S - none Ljava/lang/Object; null
call failfast - - - demo.S - sum Ljava/util/List; [1,2L,\"x\"]
";

#[test]
fn each_call_has_its_line(rt: HostRuntime) -> Result<(), Fail> {
    let outcome = directed(rt.alloc(), SCRIPT)?;
    assert_eq!(rt; outcome.status, 0);
    let lines = b"0 ok [#0]
1 ok [[],#1]
2 ok !\"demo.Knot\"(\"self\":#0,\"value\":5)
3 threw \"no\"
4 ignored status 60 \"service not found\"
5 ok 3L
"
        .as_slice();
    assert_eq!(rt; outcome.output.bytes(), lines);
    Ok(())
}

#[test]
fn bad_scripts_are_refused(rt: HostRuntime) -> Result<(), Fail> {
    let cases: [(&[u8], u8, &[u8]); 5] = [
        (b"", 0, b""),
        (b"# nothing\n\ncall\n", 2, b"fault script 3 bad line\n"),
        (b"call oneway - - - s - t -\n", 0, b"0 sent\n"),
        (
            b"service s - t - none\nservice s - t - args",
            2,
            b"fault script 2 bad line\n",
        ),
        (b"service s - t - echo\n", 2, b"fault script 1 bad line\n"),
    ];
    for (input, status, printed) in cases {
        assert!(rt; input.len() < 100);
        let outcome = directed(rt.alloc(), input)?;
        assert_eq!(rt; outcome.status, status);
        assert_eq!(rt; outcome.output.bytes(), printed);
    }
    Ok(())
}

/// A line before and behind many copies of a piece.
fn repeated(
    alloc: Global,
    before: &[u8],
    piece: &[u8],
    times: u32,
    behind: &[u8],
) -> Result<Vec<u8>, AllocError> {
    let mut bytes = before.to_vec(alloc)?;
    for _ in 0..times {
        bytes.extend_from_slice(piece)?;
    }
    bytes.extend_from_slice(behind)?;
    Ok(bytes)
}

#[test]
fn a_call_too_many_is_refused(rt: HostRuntime) -> Result<(), Fail> {
    let alloc = rt.alloc();
    let bytes = repeated(alloc, b"", b"call oneway - - - s - t -\n", 4_097, b"")?;
    assert!(rt; bytes.len() < 5_000_000);
    let outcome = directed(alloc, &bytes)?;
    assert_eq!(rt; outcome.status, 2);
    assert_eq!(rt;
        outcome.output.bytes(),
        b"fault script 4097 too many calls\n".as_slice()
    );
    Ok(())
}

#[test]
fn a_request_too_large_is_refused(rt: HostRuntime) -> Result<(), Fail> {
    let alloc = rt.alloc();
    let before = b"call failfast - - - s - t Ljava/lang/Object; [@1".as_slice();
    let bytes = repeated(alloc, before, b",@1", 999_999, b"]\n")?;
    assert!(rt; bytes.len() < 5_000_000);
    let outcome = directed(alloc, &bytes)?;
    assert_eq!(rt; outcome.status, 2);
    assert_eq!(rt;
        outcome.output.bytes(),
        b"fault script 1 too large\n".as_slice()
    );
    Ok(())
}

#[test]
fn a_reply_too_long_is_a_status(rt: HostRuntime) -> Result<(), Fail> {
    let alloc = rt.alloc();
    let before = b"service s - t Ljava/lang/Object; twice
call failfast - - - s - t Ljava/lang/Object; \""
        .as_slice();
    let bytes = repeated(alloc, before, b"a", 4_194_200, b"\"\n")?;
    assert!(rt; bytes.len() < 5_000_000);
    let outcome = directed(alloc, &bytes)?;
    assert_eq!(rt; outcome.status, 0);
    assert_eq!(rt;
        outcome.output.bytes(),
        b"0 status 50 \"reply too long\"\n".as_slice()
    );
    Ok(())
}

#[test]
fn a_failed_end_is_told(rt: HostRuntime) -> Result<(), Fail> {
    let alloc = rt.alloc();
    let input = MemSource::new(SCRIPT.to_vec(alloc)?, 0, vec![in alloc; 1]?);
    let output = MemSink::new(alloc, 300, 0, Vec::new(alloc))?;
    let outcome = ran(alloc, &["dubbo_main", "direct"], input, output)?;
    assert_eq!(rt; outcome.status, 3);
    assert_eq!(rt; outcome.output.bytes(), b"fault input 1\n".as_slice());
    Ok(())
}

#[test]
fn a_failed_output_is_status_4(rt: HostRuntime) -> Result<(), Fail> {
    let alloc = rt.alloc();
    let input = MemSource::new(SCRIPT.to_vec(alloc)?, 0, Vec::new(alloc));
    let output = MemSink::new(alloc, 300, 0, vec![in alloc; 1]?)?;
    let outcome = ran(alloc, &["dubbo_main", "direct"], input, output)?;
    assert_eq!(rt; outcome.status, 4);
    assert_eq!(rt; outcome.output.bytes(), b"".as_slice());
    Ok(())
}

#[test]
fn a_load_is_counted(rt: HostRuntime) -> Result<(), Fail> {
    let cases: [(&[&str], &[u8]); 3] = [
        (
            &["dubbo_main", "gen", "--calls", "32"],
            b"calls 32 nodes 31 ok 28 threw 4 status 0\n",
        ),
        (
            &["dubbo_main", "gen", "--show=summary", "--calls=4096"],
            b"calls 4096 nodes 3968 ok 3584 threw 512 status 0\n",
        ),
        (
            &["dubbo_main", "gen", "--calls=0"],
            b"calls 0 nodes 0 ok 0 threw 0 status 0\n",
        ),
    ];
    for (words, printed) in cases {
        let outcome = ran_alone(rt.alloc(), words)?;
        assert_eq!(rt; outcome.status, 0);
        assert_eq!(rt; outcome.output.bytes(), printed);
    }
    Ok(())
}

#[test]
fn a_load_is_written(rt: HostRuntime) -> Result<(), Fail> {
    let words = ["dubbo_main", "gen", "--calls", "26", "--show", "script"];
    let outcome = ran_alone(rt.alloc(), &words)?;
    assert_eq!(rt; outcome.status, 0);
    let bytes = outcome.output.bytes();
    assert!(rt; bytes.starts_with(b"service demo.G - none Ljava/lang/Object; none\n"));
    assert!(rt;
        bytes.ends_with(
            b"demo.G - none Ljava/lang/Object; [24,#0]\ncall failover - - - demo.G - echo Ljava/lang/Object; [25,#0]\n"
        )
    );
    Ok(())
}

#[test]
fn other_options_have_no_reading(rt: HostRuntime) -> Result<(), Fail> {
    let cases: [&[&str]; 9] = [
        &["dubbo_main", "gen"],
        &["dubbo_main", "gen", "--calls"],
        &["dubbo_main", "gen", "--calls", "4097"],
        &["dubbo_main", "gen", "--calls", "01"],
        &["dubbo_main", "gen", "--calls=1", "--calls=1"],
        &["dubbo_main", "gen", "--calls=1", "--show=all"],
        &["dubbo_main", "gen", "--show", "script"],
        &["dubbo_main", "direct", "--show", "script"],
        &["dubbo_main", "gen", "--calls=1", "--show=script", "x"],
    ];
    for words in cases {
        let outcome = ran_alone(rt.alloc(), words)?;
        assert_eq!(rt; outcome.status, 1);
        assert_eq!(rt; outcome.output.bytes(), b"fault words\n".as_slice());
    }
    Ok(())
}

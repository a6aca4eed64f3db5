//! Whole runs of `play`: the status, and what is printed.
ghost use Rattle.std.specs.Prelude.{◌<◌, ◌-◌, ◌^◌, length};

use super::{Outcome, words_of};
use crate::top::run;
use dubbo_io::{MemSink, MemSource};
use std::alloc::{AllocError, Global};
use std::test::Fail;

const SERVICE: &[u8] = b"service demo.S - echo Ljava/lang/Object; echo\n";

const CALL: &[u8] = b"call failover - - - demo.S - echo Ljava/lang/Object; 7\n";

/// Runs `play` over an input and an output, which fail at the calls with these numbers.
fn played(
    alloc: Global,
    bytes: &[u8],
    input_fails: &[u64],
    output_fails: &[u64],
) -> Result<Outcome, AllocError>
    requires { length bytes.now < 2 ^ 62 - 1 }
{
    let words = words_of(alloc, &["dubbo_main", "play"])?;
    let mut input = MemSource::new(bytes.to_vec(alloc)?, 0, input_fails.to_vec(alloc)?);
    let mut output = MemSink::new(alloc, 100, 0, output_fails.to_vec(alloc)?)?;
    let status = run(alloc, &words, &mut input, &mut output);
    Ok(Outcome { status, output })
}

#[test]
fn an_echoed_call_is_printed(rt: HostRuntime) -> Result<(), Fail> {
    let alloc = rt.alloc();
    let mut script = SERVICE.to_vec(alloc)?;
    script.extend_from_slice(CALL)?;
    let outcome = played(alloc, &script, &[], &[])?;
    assert_eq!(rt; outcome.status, 0);
    assert_eq!(rt;
        outcome.output.bytes(),
        b"0 ok 7\ncalls 1 attempts 1\n".as_slice()
    );
    Ok(())
}

#[test]
fn a_call_before_its_service_is_refused(rt: HostRuntime) -> Result<(), Fail> {
    let outcome = played(rt.alloc(), CALL, &[], &[])?;
    assert_eq!(rt; outcome.status, 2);
    assert_eq!(rt;
        outcome.output.bytes(),
        b"fault script 1 not built\n".as_slice()
    );
    Ok(())
}

#[test]
fn no_bytes_are_a_script(rt: HostRuntime) -> Result<(), Fail> {
    let outcome = played(rt.alloc(), b"", &[], &[])?;
    assert_eq!(rt; outcome.status, 0);
    assert_eq!(rt; outcome.output.bytes(), b"calls 0 attempts 0\n".as_slice());
    Ok(())
}

#[test]
fn a_failing_input_is_told(rt: HostRuntime) -> Result<(), Fail> {
    let outcome = played(rt.alloc(), SERVICE, &[1], &[])?;
    assert_eq!(rt; outcome.status, 3);
    assert_eq!(rt; outcome.output.bytes(), b"fault input 1\n".as_slice());
    Ok(())
}

#[test]
fn a_failing_output_takes_nothing(rt: HostRuntime) -> Result<(), Fail> {
    let outcome = played(rt.alloc(), SERVICE, &[], &[1])?;
    assert_eq!(rt; outcome.status, 4);
    assert_eq!(rt; outcome.output.bytes(), b"".as_slice());
    Ok(())
}

#[test]
fn a_byte_behind_the_limit_is_refused(rt: HostRuntime) -> Result<(), Fail> {
    let alloc = rt.alloc();
    let bytes = vec![in alloc; b'#'; 4_194_305]?;
    let outcome = played(alloc, &bytes, &[], &[])?;
    assert_eq!(rt; outcome.status, 7);
    assert_eq!(rt;
        outcome.output.bytes(),
        b"fault input too long\n".as_slice()
    );
    Ok(())
}

#[test]
fn a_word_more_is_refused(rt: HostRuntime) -> Result<(), Fail> {
    let alloc = rt.alloc();
    let words = words_of(alloc, &["dubbo_main", "play", "x"])?;
    let mut input = MemSource::new(SERVICE.to_vec(alloc)?, 0, Vec::new(alloc));
    let mut output = MemSink::new(alloc, 100, 0, Vec::new(alloc))?;
    assert_eq!(rt; run(alloc, &words, &mut input, &mut output), 1);
    assert_eq!(rt; output.bytes(), b"fault words\n".as_slice());
    Ok(())
}

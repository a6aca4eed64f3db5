//! Whole runs of `ring`: the status, and what is printed.
ghost use Rattle.std.specs.Prelude.{◌<◌, ◌-◌, ◌^◌, length};

use super::{Outcome, words_of};
use crate::top::run_plain;
use crate::words::waits;
use dubbo_io::{MemSink, MemSource};
use std::alloc::{AllocError, Global};
use std::test::Fail;

/// Runs `ring` over this input, and an output that fails at the calls with these numbers.
fn rung(alloc: Global, bytes: &[u8], output_fails: &[u64]) -> Result<Outcome, AllocError>
    requires { length bytes.now < 2 ^ 62 - 1 }
{
    let words = words_of(alloc, &["dubbo_main", "ring"])?;
    let mut input = MemSource::new(bytes.to_vec(alloc)?, 0, Vec::new(alloc));
    let mut output = MemSink::new(alloc, 200, 0, output_fails.to_vec(alloc)?)?;
    let status = run_plain(alloc, &words, &mut input, &mut output);
    Ok(Outcome { status, output })
}

#[test]
fn keys_are_given_names(rt: HostRuntime) -> Result<(), Fail> {
    let lines = b"key a\nadd p1\nkey a\n\nkey b\nremove p1\nkey a";
    let outcome = rung(rt.alloc(), lines.as_slice(), &[])?;
    assert_eq!(rt; outcome.status, 0);
    assert_eq!(rt;
        outcome.output.bytes(),
        b"a none\na p1\nb p1\na none\n".as_slice()
    );
    Ok(())
}

#[test]
fn a_damaged_line_ends_the_output(rt: HostRuntime) -> Result<(), Fail> {
    let cases: [(&[u8], &[u8]); 6] = [
        (
            b"add p\nkey k\nadd p\nkey k\n",
            b"k p\ndamaged line 3 repeated\n",
        ),
        (b"remove p\n", b"damaged line 1 unknown\n"),
        (b"add", b"damaged line 1 form\n"),
        (b"\nadd \n", b"damaged line 2 form\n"),
        (b"add a b\n", b"damaged line 1 form\n"),
        (b"key \xff\n", b"damaged line 1 form\n"),
    ];
    for (lines, printed) in cases {
        assert!(rt; lines.len() < 100);
        let outcome = rung(rt.alloc(), lines, &[])?;
        assert_eq!(rt; outcome.status, 8);
        assert_eq!(rt; outcome.output.bytes(), printed);
    }
    Ok(())
}

#[test]
fn a_name_too_many_is_damaged(rt: HostRuntime) -> Result<(), Fail> {
    let alloc = rt.alloc();
    let mut lines = Vec::new(alloc);
    for number in 0..1025u32 {
        lines.extend_from_slice(format!(in alloc; "add n{number}\n")?.as_bytes())?;
    }
    assert!(rt; lines.len() < 20_000);
    let outcome = rung(alloc, &lines, &[])?;
    assert_eq!(rt; outcome.status, 8);
    assert_eq!(rt;
        outcome.output.bytes(),
        b"damaged line 1025 many\n".as_slice()
    );
    Ok(())
}

#[test]
fn a_failing_output_takes_nothing_of_a_ring(rt: HostRuntime) -> Result<(), Fail> {
    let outcome = rung(rt.alloc(), b"key a\n".as_slice(), &[1])?;
    assert_eq!(rt; outcome.status, 4);
    assert_eq!(rt; outcome.output.bytes(), b"".as_slice());
    Ok(())
}

#[test]
fn each_top_call_leaves_the_commands_of_the_other(rt: HostRuntime) -> Result<(), Fail> {
    let alloc = rt.alloc();
    for command in ["play", "rings", "", "--", "serve"] {
        let words = words_of(alloc, &["dubbo_main", command])?;
        let mut input = MemSource::new(Vec::new(alloc), 0, Vec::new(alloc));
        let mut output = MemSink::new(alloc, 100, 0, Vec::new(alloc))?;
        assert_eq!(rt; run_plain(alloc, &words, &mut input, &mut output), 1);
        assert_eq!(rt; output.bytes(), b"fault words\n".as_slice());
    }
    Ok(())
}

#[test]
fn the_second_word_says_which_top_call_runs(rt: HostRuntime) -> Result<(), Fail> {
    let alloc = rt.alloc();
    assert!(rt; waits(&words_of(alloc, &["dubbo_main", "play", "x"])?));
    assert!(rt; waits(&words_of(alloc, &["dubbo_main", "serve"])?));
    assert!(rt; !waits(&words_of(alloc, &["dubbo_main", "ring"])?));
    assert!(rt; !waits(&words_of(alloc, &["play"])?));
    Ok(())
}

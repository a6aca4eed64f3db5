//! Whole runs of `encode` and `decode`: the status, and what is printed.
ghost use Rattle.std.specs.Prelude.{◌<◌, ◌-◌, ◌^◌, length};

use super::{Outcome, words_of};
use crate::top::run_plain;
use dubbo_io::{MemSink, MemSource};
use std::alloc::{AllocError, Global};
use std::test::Fail;

/// Runs a command with these options over this input.
fn ran(alloc: Global, words: &[&str], bytes: &[u8]) -> Result<Outcome, AllocError>
    requires { length bytes.now < 2 ^ 62 - 1 }
{
    let words = words_of(alloc, words)?;
    let mut input = MemSource::new(bytes.to_vec(alloc)?, 0, Vec::new(alloc));
    let mut output = MemSink::new(alloc, 200, 0, Vec::new(alloc))?;
    let status = run_plain(alloc, &words, &mut input, &mut output);
    Ok(Outcome { status, output })
}

#[test]
fn notations_are_encoded_or_damaged(rt: HostRuntime) -> Result<(), Fail> {
    let cases: [(&[u8], u8, &[u8]); 7] = [
        (b"[#0]", 0, b"\x79\x51\x90"),
        (b"[1,2]\n", 0, b"\x7a\x91\x92"),
        (
            b"!\"demo.Knot\"(\"self\":#0,\"value\":5)",
            0,
            b"C\x09demo.Knot\x92\x04self\x05value\x60\x51\x90\x95",
        ),
        (b"", 0, b""),
        (b"[1 2]", 8, b"damaged notation 2\n"),
        (b"[#1]\n", 8, b"damaged node 1 1\n"),
        (b"1\n\n", 8, b"damaged notation 1\n"),
    ];
    for (input, status, printed) in cases {
        assert!(rt; input.len() < 100);
        let outcome = ran(rt.alloc(), &["dubbo_main", "encode"], input)?;
        assert_eq!(rt; outcome.status, status);
        assert_eq!(rt; outcome.output.bytes(), printed);
    }
    Ok(())
}

#[test]
fn bytes_are_decoded_or_damaged(rt: HostRuntime) -> Result<(), Fail> {
    let cases: [(&[u8], u8, &[u8]); 6] = [
        (b"\x79\x51\x90", 0, b"[#0]\n"),
        (b"\x57\x91\x92Z", 0, b"[1,2]\n"),
        (b"\x79\x51\x91", 8, b"damaged ref 2 1\n"),
        (b"Z", 8, b"damaged code 0 5a\n"),
        (b"X\x8f", 8, b"damaged length 1 -1\n"),
        (b"\x90\x90", 8, b"damaged trailing 1\n"),
    ];
    for (input, status, printed) in cases {
        assert!(rt; input.len() < 100);
        let outcome = ran(rt.alloc(), &["dubbo_main", "decode"], input)?;
        assert_eq!(rt; outcome.status, status);
        assert_eq!(rt; outcome.output.bytes(), printed);
    }
    Ok(())
}

#[test]
fn the_number_of_roots_is_an_option(rt: HostRuntime) -> Result<(), Fail> {
    let alloc = rt.alloc();
    let bytes = b"\x00\x20\x78HZ".as_slice();
    let apart = ran(alloc, &["dubbo_main", "decode", "--roots", "4"], bytes)?;
    assert_eq!(rt; apart.output.bytes(), b"\"\",x,[],{}\n".as_slice());
    let joined = ran(alloc, &["dubbo_main", "decode", "--roots=4"], bytes)?;
    assert_eq!(rt; joined.output.bytes(), b"\"\",x,[],{}\n".as_slice());
    for option in [
        "--roots",
        "--roots=",
        "--roots=04",
        "--roots=65536",
        "--roots=+4",
        "--root=4",
        "4",
        "--",
    ] {
        let outcome = ran(alloc, &["dubbo_main", "decode", option], bytes)?;
        assert_eq!(rt; outcome.status, 1);
    }
    Ok(())
}

//! What no clause says: texts from outside, each kind of refusal, a deep graph.

use crate::{NODE_LIMIT, NotationFault, print_graph, read_notation};
use std::alloc::{AllocError, Global};

/// The text that is printed for what a text is read as, or nothing where it isn't read.
fn again(alloc: Global, text: &[u8]) -> Result<Vec<u8>, AllocError> {
    match read_notation(alloc, text) {
        Ok(graph) => print_graph(alloc, &graph),
        Err(_) => Ok(Vec::new(alloc)),
    }
}

/// Why a text is refused.
fn refusal(alloc: Global, text: &[u8]) -> Option<NotationFault> {
    read_notation(alloc, text).err()
}

#[test]
fn printed_texts_are_printed_again(rt: HostRuntime) -> Result<(), AllocError> {
    let alloc = rt.alloc();
    for text in [
        b"\"\",x,[],{}".as_slice(),
        b"[#0]".as_slice(),
        b"[[],#1]".as_slice(),
        b"[[],[]]".as_slice(),
        b"!\"demo.Knot\"(\"self\":#0,\"value\":5)".as_slice(),
        b"[!\"[int\"[],!\"[int\"[]]".as_slice(),
        b"!\"a\"{\"k\":1}".as_slice(),
        b"null,true,false,-2147483648,9223372036854775807L,@-60000,xff00".as_slice(),
        b"{[{}]:{1:#0}}".as_slice(),
        b"\"\\\"\\\\\\u{0}\\u{1f}\\u{7f}\"".as_slice(),
    ] {
        let printed = again(alloc, text)?;
        assert_eq!(rt; printed.as_slice(), text);
    }
    Ok(())
}

#[test]
fn other_spellings_of_a_text_are_read(rt: HostRuntime) -> Result<(), AllocError> {
    let alloc = rt.alloc();
    let printed = again(alloc, b"\"\\u{61}\\u{000062}c\"")?;
    assert_eq!(rt; printed.as_slice(), b"\"abc\"".as_slice());
    let printed = again(alloc, b"\"\\u{1f600}\"")?;
    assert_eq!(rt; printed.as_slice(), b"\"\xf0\x9f\x98\x80\"".as_slice());
    Ok(())
}

#[test]
fn each_text_is_refused_at_its_place(rt: HostRuntime) {
    let alloc = rt.alloc();
    for (text, at) in [
        (b"[1 2]".as_slice(), 2),
        (b"-0".as_slice(), 0),
        (b"[".as_slice(), 1),
        (b"[1,]".as_slice(), 3),
        (b"1,".as_slice(), 2),
        (b"[\"abc".as_slice(), 1),
        (b"\"a\nb\"".as_slice(), 0),
        (b"[\"\xff\"]".as_slice(), 1),
        (b"\"\\n\"".as_slice(), 0),
        (b"\"\\u{d800}\"".as_slice(), 0),
        (b"\"\\u{0000061}\"".as_slice(), 0),
        (b"\"\\u{1F}\"".as_slice(), 0),
        (b"2147483648".as_slice(), 0),
        (b"[9223372036854775808L]".as_slice(), 1),
        (b"01".as_slice(), 0),
        (b"xF0".as_slice(), 0),
        (b"x0".as_slice(), 0),
        (b"[#4294967296]".as_slice(), 1),
        (b" 1".as_slice(), 0),
        (b"]".as_slice(), 0),
        (b"[}".as_slice(), 1),
        (b"{1}".as_slice(), 2),
        (b"!\"a\"(1:2)".as_slice(), 5),
        (b"!\"a\"7".as_slice(), 4),
    ] {
        assert_eq!(rt;
            refusal(alloc, text),
            Some(NotationFault::BadNotation { at })
        );
    }
}

#[test]
fn a_node_that_has_not_begun_is_unknown(rt: HostRuntime) {
    let alloc = rt.alloc();
    let fault = refusal(alloc, b"[#1]");
    assert_eq!(rt;
        fault,
        Some(NotationFault::UnknownNode { at: 1, number: 1 })
    );
    let fault = refusal(alloc, b"#0,[]");
    assert_eq!(rt;
        fault,
        Some(NotationFault::UnknownNode { at: 0, number: 0 })
    );
}

/// So many lists, each inside the one before.
fn nested(alloc: Global, lists: usize) -> Result<Vec<u8>, AllocError> {
    let mut text = Vec::new(alloc);
    for _ in 0..lists {
        text.push(b'[')?;
    }
    for _ in 0..lists {
        text.push(b']')?;
    }
    Ok(text)
}

#[test]
fn nine_hundred_thousand_lists_may_be_nested(rt: HostRuntime) -> Result<(), AllocError> {
    let alloc = rt.alloc();
    let text = nested(alloc, 900_000)?;
    let printed = again(alloc, text.as_slice())?;
    assert_eq!(rt; printed.as_slice() == text.as_slice(), true);
    Ok(())
}

#[test]
fn a_node_above_the_limit_is_refused(rt: HostRuntime) -> Result<(), AllocError> {
    let alloc = rt.alloc();
    let text = nested(alloc, NODE_LIMIT + 1)?;
    let fault = refusal(alloc, text.as_slice());
    assert_eq!(rt; fault, Some(NotationFault::TooManyNodes { at: 1_000_000 }));
    Ok(())
}

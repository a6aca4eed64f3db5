//! What no clause says: texts and binaries as they lie on a wire, and printed faults.

use crate::{
    BinaryFault, TextFault, read_binary, read_text, text_at_once, write_binary, write_text,
};
use std::test::Fail;

#[test]
fn texts_are_written_and_read(rt: HostRuntime) -> Result<(), Fail> {
    let mut out = Vec::new(rt.alloc());
    write_text(rt.alloc(), &mut out, "\u{1f600}")?;
    assert_eq!(rt; out.as_slice(), b"\x02\xed\xa0\xbd\xed\xb8\x80".as_slice());
    for bytes in [
        b"\x02\xed\xa0\xbd\xed\xb8\x80".as_slice(),
        b"\x02\xf0\x9f\x98\x80".as_slice(),
    ] {
        let (text, end) = read_text(rt.alloc(), bytes, 0)?;
        assert_eq!(rt; text.as_str(), "\u{1f600}");
        assert_eq!(rt; end, bytes.len());
    }
    Ok(())
}

#[test]
fn chunks_are_joined(rt: HostRuntime) -> Result<(), Fail> {
    let (text, end) = read_text(rt.alloc(), b"\x52\x00\x01\x61\x53\x00\x01\x62", 0)?;
    assert_eq!(rt; text.as_str(), "ab");
    assert_eq!(rt; end, 8);
    let (empty, end) = read_text(rt.alloc(), b"\x52\x00\x00\x52\x00\x00\x00\x4e", 0)?;
    assert_eq!(rt; empty.as_str(), "");
    assert_eq!(rt; end, 7);
    let (bytes, end) = read_binary(rt.alloc(), b"\x41\x00\x01\xff\x20", 0)?;
    assert_eq!(rt; bytes.as_slice(), b"\xff".as_slice());
    assert_eq!(rt; end, 5);
    let mut out = Vec::new(rt.alloc());
    write_binary(rt.alloc(), &mut out, b"\xff")?;
    assert_eq!(rt; out.as_slice(), b"\x21\xff".as_slice());
    Ok(())
}

#[test]
fn a_pair_stays_in_one_chunk(rt: HostRuntime) -> Result<(), Fail> {
    let mut text = String::new(rt.alloc());
    for _ in 0..32_767 {
        text.push('a')?;
    }
    text.push('\u{1f600}')?;
    let mut out = Vec::new(rt.alloc());
    write_text(rt.alloc(), &mut out, text.as_str())?;
    assert_eq!(rt; out.len(), 3 + 32_767 + 7);
    assert!(rt; out.starts_with(b"\x52\x7f\xffaaa"));
    assert!(rt; out.ends_with(b"aaa\x02\xed\xa0\xbd\xed\xb8\x80"));
    let (again, _) = read_text(rt.alloc(), out.as_slice(), 0)?;
    assert_eq!(rt; again.as_str(), text.as_str());
    Ok(())
}

#[test]
fn characters_of_each_length(rt: HostRuntime) -> Result<(), Fail> {
    let mut out = Vec::new(rt.alloc());
    write_text(rt.alloc(), &mut out, "a\u{436}\u{4e2d}\u{1f600}b")?;
    assert_eq!(rt;
        out.as_slice(),
        b"\x06a\xd0\xb6\xe4\xb8\xad\xed\xa0\xbd\xed\xb8\x80b".as_slice()
    );
    for bytes in [
        b"\x06a\xd0\xb6\xe4\xb8\xad\xed\xa0\xbd\xed\xb8\x80b".as_slice(),
        b"\x06a\xd0\xb6\xe4\xb8\xad\xf0\x9f\x98\x80b".as_slice(),
        b"\x52\x00\x02a\xd0\xb6\x04\xe4\xb8\xad\xf0\x9f\x98\x80b".as_slice(),
    ] {
        let (text, end) = read_text(rt.alloc(), bytes, 0)?;
        assert_eq!(rt; text.as_str(), "a\u{436}\u{4e2d}\u{1f600}b");
        assert_eq!(rt; end, bytes.len());
    }
    Ok(())
}

#[test]
fn long_texts_have_more_chunks(rt: HostRuntime) -> Result<(), Fail> {
    let mut text = String::new(rt.alloc());
    for _ in 0..20_000 {
        text.push_str("a\u{4e2d}")?;
    }
    let mut out = Vec::new(rt.alloc());
    write_text(rt.alloc(), &mut out, text.as_str())?;
    assert_eq!(rt; out.len(), 3 + 3 + 20_000 * 4);
    assert!(rt; out.starts_with(b"\x52\x80\x00a\xe4\xb8\xad"));
    let rest = out.get(3 + 65_536..).unwrap_or(b"");
    assert!(rt; rest.starts_with(b"\x53\x1c\x40a\xe4\xb8\xad"));
    let (again, end) = read_text(rt.alloc(), out.as_slice(), 0)?;
    assert_eq!(rt; again.as_str(), text.as_str());
    assert_eq!(rt; end, out.len());
    Ok(())
}

#[test]
fn short_texts_are_told_at_once(rt: HostRuntime) -> Result<(), Fail> {
    let told = [
        (b"\x02abN".as_slice(), "ab", 3),
        (b"\x00", "", 1),
        (b"\x30\x03abc", "abc", 5),
    ];
    for (piece, text, end) in told {
        let found = text_at_once(rt.alloc(), piece)?;
        let at_once = found.as_ref().map(|(text, end)| (text.as_str(), *end));
        assert_eq!(rt; at_once, Some((text, end)));
    }
    for piece in [
        b"".as_slice(),
        b"\x03ab",
        b"\x01\xd0\xb6",
        b"\x53\x00\x01a",
        b"\x21a",
    ] {
        assert!(rt; text_at_once(rt.alloc(), piece)?.is_none());
    }
    Ok(())
}

#[test]
fn texts_are_refused_at_their_place(rt: HostRuntime) {
    let table = [
        (b"".as_slice(), TextFault::Short { at: 0 }),
        (b"\x01\xed", TextFault::Short { at: 2 }),
        (b"\x01\xed\xa0\xbd", TextFault::BadText { at: 1 }),
        (b"\x01\xc0\x80", TextFault::BadText { at: 1 }),
        (b"\x01\xf0\x9f\x98\x80", TextFault::BadText { at: 1 }),
        (b"\x03a\xed\xb8\x80", TextFault::BadText { at: 2 }),
        (b"\x02\xed\xa0\xbda", TextFault::BadText { at: 1 }),
        (b"\x03a\xed\xa0\xbd\xed\xb8", TextFault::Short { at: 7 }),
        (
            b"\x52\x00\x01\xed\xa0\xbd\x01\xed\xb8\x80",
            TextFault::BadText { at: 3 },
        ),
        (
            b"\x52\x00\x00\x4e",
            TextFault::BadCode { at: 3, code: 0x4e },
        ),
        (b"\x20", TextFault::BadCode { at: 0, code: 0x20 }),
    ];
    for (bytes, fault) in table {
        assert_eq!(rt; read_text(rt.alloc(), bytes, 0).err(), Some(fault));
    }
}

#[test]
fn binaries_are_refused_at_their_place(rt: HostRuntime) {
    let table = [
        (b"\x22a".as_slice(), BinaryFault::Short { at: 2 }),
        (b"\x41\x00", BinaryFault::Short { at: 2 }),
        (b"\x41\x00\x00\x00", BinaryFault::BadCode { at: 3, code: 0 }),
    ];
    for (bytes, fault) in table {
        assert_eq!(rt; read_binary(rt.alloc(), bytes, 0).err(), Some(fault));
    }
}

#[test]
fn faults_have_texts(rt: HostRuntime) -> Result<(), Fail> {
    let code = format!(in rt.alloc(); "{}", TextFault::BadCode { at: 3, code: 0x4e })?;
    assert_eq!(rt; code.as_str(), "no text's code at 3: 4e");
    let short = format!(in rt.alloc(); "{}", BinaryFault::Short { at: 2 })?;
    assert_eq!(rt; short.as_str(), "the binary is cut off at 2");
    Ok(())
}

//! Bytes that the standard's table gives, and what comes of them.

use super::*;
use std::alloc::Global;
use std::process::Abort;
use std::test::Fail;

/// Writes each value, compares the bytes, and reads it back whole and byte by byte.
fn goes_both_ways(rt: &impl Abort, alloc: Global, table: &[(Scalar, &[u8])]) -> Result<(), Fail> {
    for (value, bytes) in table {
        let mut out = Vec::new(alloc);
        write_scalar(alloc, &mut out, *value)?;
        assert_eq!(rt; out.as_slice(), *bytes);
        assert_eq!(rt; read_scalar(bytes, 0), Ok((*value, bytes.len())));
        assert_eq!(rt; scalar_at_once(bytes), Some((*value, bytes.len())));
        assert_eq!(rt; in_pieces(bytes, 1), Front::Whole(*value, 1));
        assert_eq!(rt; in_pieces(bytes, 9), Front::Whole(*value, bytes.len()));
    }
    Ok(())
}

/// What the last piece gives where a reader is fed pieces of so many bytes.
fn in_pieces(bytes: &[u8], len: usize) -> Front {
    let mut reader = ScalarReader::new();
    let mut last = Front::Part;
    for piece in bytes.chunks(len.max(1)) {
        last = reader.feed(piece);
    }
    last
}

#[test]
fn an_int_has_the_bytes_of_the_table(rt: HostRuntime) -> Result<(), Fail> {
    let table: [(i32, &[u8]); 12] = [
        (0, &[0x90]),
        (-16, &[0x80]),
        (47, &[0xbf]),
        (48, &[0xc8, 0x30]),
        (-17, &[0xc7, 0xef]),
        (-2048, &[0xc0, 0x00]),
        (2047, &[0xcf, 0xff]),
        (2048, &[0xd4, 0x08, 0x00]),
        (262143, &[0xd7, 0xff, 0xff]),
        (-262144, &[0xd0, 0x00, 0x00]),
        (262144, &[0x49, 0x00, 0x04, 0x00, 0x00]),
        (-262145, &[0x49, 0xff, 0xfb, 0xff, 0xff]),
    ];
    for (number, bytes) in table {
        let mut out = Vec::new(rt.alloc());
        write_int(rt.alloc(), &mut out, number)?;
        assert_eq!(rt; out.as_slice(), bytes);
        assert_eq!(rt; read_int(bytes, 0), Ok((number, bytes.len())));
        goes_both_ways(&rt, rt.alloc(), &[(Scalar::Int(number), bytes)])?;
    }
    Ok(())
}

#[test]
fn a_long_has_the_bytes_of_the_table(rt: HostRuntime) -> Result<(), Fail> {
    goes_both_ways(
        &rt,
        rt.alloc(),
        &[
            (Scalar::Long(-8), &[0xd8]),
            (Scalar::Long(15), &[0xef]),
            (Scalar::Long(16), &[0xf8, 0x10]),
            (Scalar::Long(-9), &[0xf7, 0xf7]),
            (Scalar::Long(2048), &[0x3c, 0x08, 0x00]),
            (Scalar::Long(262144), &[0x59, 0x00, 0x04, 0x00, 0x00]),
            (
                Scalar::Long(2147483648),
                &[0x4c, 0x00, 0x00, 0x00, 0x00, 0x80, 0x00, 0x00, 0x00],
            ),
        ],
    )
}

#[test]
fn dates_booleans_and_null_have_the_bytes_of_the_table(rt: HostRuntime) -> Result<(), Fail> {
    goes_both_ways(
        &rt,
        rt.alloc(),
        &[
            (Scalar::Date(60000), &[0x4b, 0x00, 0x00, 0x00, 0x01]),
            (Scalar::Date(1), &[0x4a, 0, 0, 0, 0, 0, 0, 0, 1]),
            (Scalar::Null, b"N"),
            (Scalar::Bool(false), b"F"),
            (Scalar::Bool(true), b"T"),
        ],
    )
}

#[test]
fn a_longer_spelling_is_read(rt: HostRuntime) {
    let bytes = [0x49, 0x00, 0x00, 0x00, 0x00];
    assert_eq!(rt; read_scalar(&bytes, 0), Ok((Scalar::Int(0), 5)));
}

#[test]
fn what_is_no_scalar_is_refused_at_its_place(rt: HostRuntime) {
    assert_eq!(rt; read_scalar(&[0xc8], 0), Err(ScalarFault::Short { at: 1 }));
    assert_eq!(rt; scalar_at_once(&[0xc8]), None);
    assert_eq!(rt;
        read_scalar(&[0x5b], 0),
        Err(ScalarFault::Double { at: 0, code: 0x5b })
    );
    assert_eq!(rt;
        read_scalar(&[0x90, 0x78], 1),
        Err(ScalarFault::Other { at: 1, code: 0x78 })
    );
    assert_eq!(rt; in_pieces(&[0x78], 1), Front::Other(0x78));
}

#[test]
fn an_int_is_read_at_its_place(rt: HostRuntime) {
    let bytes = [0x48, 0xc8, 0x30, 0xc8];
    assert_eq!(rt; read_int(&bytes, 1), Ok((48, 3)));
    assert_eq!(rt; read_int(&bytes, 3), Err(ScalarFault::Short { at: 4 }));
    assert_eq!(rt; read_int(&bytes, 4), Err(ScalarFault::Short { at: 4 }));
    assert_eq!(rt;
        read_int(&bytes, 0),
        Err(ScalarFault::Other { at: 0, code: 0x48 })
    );
    assert_eq!(rt;
        read_int(&[0x44], 0),
        Err(ScalarFault::Other { at: 0, code: 0x44 })
    );
}

#[test]
fn a_reader_goes_on_to_the_next_scalar(rt: HostRuntime) {
    let mut reader = ScalarReader::new();
    assert_eq!(rt; reader.feed(&[0xc8]), Front::Part);
    assert_eq!(rt; reader.is_inside(), true);
    assert_eq!(rt;
        reader.feed(&[0x30, 0x90]),
        Front::Whole(Scalar::Int(48), 1)
    );
    assert_eq!(rt; reader.is_inside(), false);
    assert_eq!(rt; reader.feed(&[0x90]), Front::Whole(Scalar::Int(0), 1));
}

//! What no clause says: printed texts, and headers as they lie on a wire.

use crate::{Header, HeaderFault, read_header, write_header};
use std::test::Fail;

const CALL: Header = Header {
    request: true,
    two_way: true,
    event: false,
    serial: 2,
    status: 0,
    id: 0,
    length: 8_388_608,
};

const REPLY: Header = Header {
    request: false,
    two_way: false,
    event: false,
    serial: 2,
    status: 20,
    id: 0,
    length: 7,
};

const BEAT: Header = Header {
    request: true,
    two_way: true,
    event: true,
    serial: 2,
    status: 0,
    id: 1,
    length: 1,
};

const BEAT_REPLY: Header = Header {
    request: false,
    two_way: false,
    event: true,
    serial: 2,
    status: 20,
    id: 1,
    length: 1,
};

#[test]
fn headers_are_written_and_read(rt: HostRuntime) {
    let table = [
        (
            CALL,
            *b"\xda\xbb\xc2\x00\x00\x00\x00\x00\x00\x00\x00\x00\x00\x80\x00\x00",
        ),
        (
            REPLY,
            *b"\xda\xbb\x02\x14\x00\x00\x00\x00\x00\x00\x00\x00\x00\x00\x00\x07",
        ),
        (
            BEAT,
            *b"\xda\xbb\xe2\x00\x00\x00\x00\x00\x00\x00\x00\x01\x00\x00\x00\x01",
        ),
        (
            BEAT_REPLY,
            *b"\xda\xbb\x22\x14\x00\x00\x00\x00\x00\x00\x00\x01\x00\x00\x00\x01",
        ),
    ];
    for (header, bytes) in table {
        assert!(rt; header.serial < 32 && header.length <= crate::BODY_LIMIT);
        assert_eq!(rt; write_header(&header), bytes);
        assert_eq!(rt; read_header(&bytes), Ok(header));
    }
}

#[test]
fn a_length_above_the_limit_is_refused(rt: HostRuntime) {
    let bytes = b"\xda\xbb\xc2\x00\x00\x00\x00\x00\x00\x00\x00\x00\x00\x80\x00\x01";
    assert_eq!(rt;
        read_header(bytes),
        Err(HeaderFault::TooLong { length: 8_388_609 })
    );
}

#[test]
fn another_magic_is_refused(rt: HostRuntime) {
    let bytes = b"\xda\xba\xc2\x00\x00\x00\x00\x00\x00\x00\x00\x00\x00\x80\x00\x00";
    let fault = HeaderFault::BadMagic {
        first: 0xda,
        second: 0xba,
    };
    assert_eq!(rt; read_header(bytes), Err(fault));
}

#[test]
fn faults_have_texts(rt: HostRuntime) -> Result<(), Fail> {
    let magic = format!(in rt.alloc();
        "{}",
        HeaderFault::BadMagic {
            first: 0xda,
            second: 0x0a
        }
    )?;
    assert_eq!(rt; magic.as_str(), "the magic is da0a");
    let length = format!(in rt.alloc(); "{}", HeaderFault::TooLong { length: 8_388_609 })?;
    assert_eq!(rt; length.as_str(), "a body of 8388609 bytes is too long");
    Ok(())
}

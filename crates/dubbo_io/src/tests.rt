//! What no clause says: that calls with ample memory succeed, and that ends of other crates fit the traits.
ghost use Rattle.std.specs.Prelude.{◌≤◌};
ghost use Rattle.dubbo_io.specs.Count.{last_count};

use super::*;
use std::test::Fail;

/// A source of the test's own: so many bytes of one letter, one a read.
#[derive(Drop)]
struct Letters {
    left: u8,
    given: u64,
    ended: bool,
    ghost in_range: { given ≤ last_count },
}

impl Source for Letters {
    ghost use Rattle.std.specs.Prelude.{None, refl};
    ghost use Rattle.std.proofs.Common.{arith};

    ghost state = { λ s. record { given = None; left = None; count = s.given; ended = s.ended; faults = 0; badge = tt } };

    ghost sound = { λ s. record { both = refl; counted = tt; count = s.in_range; faults = Prim.omega arith; none_left = tt } };

    fn read(&mut self, into: &mut [u8]) -> Got {
        if into.is_empty() {
            return Got::Bytes(0);
        }
        if self.left == 0 || self.ended || self.given >= (1 << 62) - 1 {
            self.ended = true;
            return Got::End;
        }
        self.left -= 1;
        self.given += 1;
        into[0] = b'x';
        Got::Bytes(1)
    }
}

#[test]
fn bytes_at_the_limit_are_read(rt: HostRuntime) -> Result<(), Fail> {
    let alloc = rt.alloc();
    let mut source = MemSource::new(b"abcde".to_vec(alloc)?, 2, Vec::new(alloc));
    let bytes = read_all(alloc, &mut source, 5)?;
    assert_eq!(rt; bytes.as_slice(), b"abcde".as_slice());
    Ok(())
}

#[test]
fn a_byte_behind_the_limit_is_refused(rt: HostRuntime) -> Result<(), Fail> {
    let alloc = rt.alloc();
    let mut source = MemSource::new(b"abcde".to_vec(alloc)?, 0, Vec::new(alloc));
    assert!(rt; read_all(alloc, &mut source, 4) == Err(ReadFault::TooLong { limit: 4 }));
    Ok(())
}

#[test]
fn the_first_read_fails(rt: HostRuntime) -> Result<(), Fail> {
    let alloc = rt.alloc();
    let mut source = MemSource::new(b"abcde".to_vec(alloc)?, 0, [1].to_vec(alloc)?);
    assert!(rt; read_all(alloc, &mut source, 9) == Err(ReadFault::Fault { faults: 1 }));
    let rest = read_all(alloc, &mut source, 9)?;
    assert_eq!(rt; rest.as_slice(), b"abcde".as_slice());
    Ok(())
}

#[test]
fn the_first_write_fails(rt: HostRuntime) -> Result<(), Fail> {
    let alloc = rt.alloc();
    let mut sink = MemSink::new(alloc, 9, 0, [1].to_vec(alloc)?)?;
    assert_eq!(rt;
        write_all(&mut sink, b"abcde"),
        Err(WriteFault::Fault { faults: 1, gone: 0 })
    );
    assert_eq!(rt; sink.bytes(), b"".as_slice());
    Ok(())
}

#[test]
fn a_failing_flush_is_told(rt: HostRuntime) -> Result<(), Fail> {
    let alloc = rt.alloc();
    let mut sink = MemSink::new(alloc, 9, 0, [2].to_vec(alloc)?)?;
    assert_eq!(rt;
        write_all(&mut sink, b"abcde"),
        Err(WriteFault::Fault { faults: 1, gone: 5 })
    );
    Ok(())
}

#[test]
fn a_write_stops_where_the_room_ends(rt: HostRuntime) -> Result<(), Fail> {
    let alloc = rt.alloc();
    let mut sink = MemSink::new(alloc, 4, 3, Vec::new(alloc))?;
    assert_eq!(rt;
        write_all(&mut sink, b"abcde"),
        Err(WriteFault::Fault { faults: 1, gone: 4 })
    );
    assert_eq!(rt; sink.bytes(), b"abcd".as_slice());
    Ok(())
}

#[test]
fn a_source_of_the_tests_own_is_read(rt: HostRuntime) -> Result<(), Fail> {
    let alloc = rt.alloc();
    let mut source = Letters {
        left: 3,
        given: 0,
        ended: false,
    };
    let bytes = read_all(alloc, &mut source, 6)?;
    assert_eq!(rt; bytes.as_slice(), b"xxx".as_slice());
    Ok(())
}

#[test]
fn readers_and_writers_are_ends(rt: HostRuntime) -> Result<(), Fail> {
    let alloc = rt.alloc();
    let mut source = StdSource::new(b"abcde".as_slice());
    let bytes = read_all(alloc, &mut source, 5)?;
    assert_eq!(rt; bytes.as_slice(), b"abcde".as_slice());
    let mut room = [0u8; 8];
    let mut sink = StdSink::new(room.as_mut_slice());
    assert_eq!(rt; write_all(&mut sink, &bytes), Ok(()));
    Ok(())
}

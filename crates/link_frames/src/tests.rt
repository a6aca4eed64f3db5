//! What no clause says: that memory which is there is found, and streams as they lie on a wire.
ghost use Rattle.std.specs.Prelude.{◌≤◌, length, vec_capacity};
ghost use Rattle.dubbo_header.specs.declared.header.TheConstants.{BODY_LIMIT};
ghost use Rattle.dubbo_io.specs.Count.{last_count};

use crate::{Beat, BeatAct, BodySink, FrameReader, Next, NextWith, send_frame};
use dubbo_header::{BODY_LIMIT, Header};
use dubbo_io::{Got, MemSink, MemSource, Source};
use std::alloc::{AllocError, Global};
use std::test::Fail;

/// A question for a heartbeat and its answer, each with the body `N`.
const STREAM: &[u8] =
    b"\xda\xbb\xe2\x00\x00\x00\x00\x00\x00\x00\x00\x01\x00\x00\x00\x01N\xda\xbb\x22\x14\x00\x00\x00\x00\x00\x00\x00\x01\x00\x00\x00\x01N";

const QUESTION: Header = Header {
    request: true,
    two_way: true,
    event: true,
    serial: 2,
    status: 0,
    id: 1,
    length: 1,
};

const ANSWER: Header = Header {
    request: false,
    two_way: false,
    event: true,
    serial: 2,
    status: 20,
    id: 1,
    length: 1,
};

/// Bytes in three pieces, which end at the cuts.
#[derive(Drop)]
struct Pieces {
    bytes: &'static [u8],
    at: usize,
    cuts: [usize; 2],
    ended: bool,
    ghost in_range: { at ≤ last_count },
}

impl Pieces {
    /// Where the piece ends that the next byte stands in.
    fn end(&self) -> usize
        ensures { result ≤ length self.now.bytes.now }
    {
        for cut in self.cuts {
            if self.at < cut && cut < self.bytes.len() {
                return cut;
            }
        }
        self.bytes.len()
    }
}

impl Source for Pieces {
    ghost use Rattle.std.specs.Prelude.{None, refl};
    ghost use Rattle.std.proofs.Common.{arith};

    ghost state = { λ s. record { given = None; left = None; count = s.at; ended = s.ended; faults = 0; badge = tt } };

    ghost sound = { λ s. record { both = refl; counted = tt; count = s.in_range; faults = Prim.omega arith; none_left = tt } };

    fn read(&mut self, into: &mut [u8]) -> Got {
        if into.is_empty() {
            return Got::Bytes(0);
        }
        let end = self.end();
        if self.ended || end <= self.at || self.at >= (1 << 62) - 1 {
            self.ended = true;
            return Got::End;
        }
        into[0] = self.bytes[self.at];
        self.at += 1;
        Got::Bytes(1)
    }
}

#[test]
fn a_stream_is_read_in_every_cut_of_three_pieces(rt: HostRuntime) -> Result<(), Fail> {
    for first in 0..STREAM.len() {
        for second in first..STREAM.len() {
            let pieces = Pieces {
                bytes: STREAM,
                at: 0,
                cuts: [first, second],
                ended: false,
            };
            let mut reader = FrameReader::new(rt.alloc(), pieces).map_err(|_| "no memory")?;
            for expected in [QUESTION, ANSWER] {
                match reader.next() {
                    Next::Frame { header, body } => {
                        assert_eq!(rt; header, expected);
                        assert_eq!(rt; body.as_slice(), b"N".as_slice());
                    }
                    other => assert!(rt; false, "cut at {first} and {second}: {other:?}"),
                }
            }
            assert!(rt; matches!(reader.next(), Next::End));
            assert!(rt; reader.ready());
            assert!(rt; matches!(reader.next(), Next::End));
        }
    }
    Ok(())
}

#[test]
fn a_stream_that_ends_inside_a_frame_is_cut_short(rt: HostRuntime) -> Result<(), Fail> {
    let alloc = rt.alloc();
    let source = MemSource::new(STREAM[..20].to_vec(alloc)?, 0, Vec::new(alloc));
    let mut reader = FrameReader::new(alloc, source).map_err(|_| "no memory")?;
    assert!(rt; matches!(reader.next(), Next::Frame { .. }));
    assert!(rt; matches!(reader.next(), Next::CutShort { at: 17 }));
    assert!(rt; matches!(reader.step(), Some(Next::CutShort { at: 17 })));
    Ok(())
}

#[test]
fn bytes_that_are_no_header_are_broken(rt: HostRuntime) -> Result<(), Fail> {
    let alloc = rt.alloc();
    let source = MemSource::new(b"GET / HTTP/1.1\r\n\r\n".to_vec(alloc)?, 0, Vec::new(alloc));
    let mut reader = FrameReader::new(alloc, source).map_err(|_| "no memory")?;
    match reader.next() {
        Next::Broken { at, head } => {
            assert_eq!(rt; at, 0);
            assert_eq!(rt; head, *b"GET / HTTP/1.1\r\n");
        }
        other => assert!(rt; false, "{other:?}"),
    }
    Ok(())
}

#[test]
fn a_read_that_fails_in_mid_stream_is_a_loss(rt: HostRuntime) -> Result<(), Fail> {
    let alloc = rt.alloc();
    let source = MemSource::new(STREAM.to_vec(alloc)?, 17, [2].to_vec(alloc)?);
    let mut reader = FrameReader::new(alloc, source).map_err(|_| "no memory")?;
    assert!(rt; matches!(reader.next(), Next::Frame { .. }));
    assert!(rt; matches!(reader.next(), Next::Lost { faults: 1 }));
    let (source, paused) = reader.pause();
    let mut again = FrameReader::resume(source, paused);
    assert!(rt; matches!(again.next(), Next::Lost { faults: 1 }));
    Ok(())
}

#[test]
fn frames_that_are_sent_are_read_back(rt: HostRuntime) -> Result<(), Fail> {
    let alloc = rt.alloc();
    let mut sink = MemSink::new(alloc, 100, 5, Vec::new(alloc))?;
    send_frame(&mut sink, &QUESTION, b"N").map_err(|_| "not sent")?;
    send_frame(&mut sink, &ANSWER, b"N").map_err(|_| "not sent")?;
    assert_eq!(rt; sink.bytes(), STREAM);
    Ok(())
}

#[test]
fn beats_are_a_minute_apart(rt: HostRuntime) {
    let mut beat = Beat::new(0);
    assert_eq!(rt; beat.tick(59_999), BeatAct::Nothing);
    assert_eq!(rt; beat.tick(60_000), BeatAct::SendBeat { id: 4_294_967_296 });
    assert_eq!(rt; beat.tick(60_000), BeatAct::Nothing);
    assert_eq!(rt; beat.tick(119_999), BeatAct::Nothing);
    assert_eq!(rt; beat.tick(120_000), BeatAct::SendBeat { id: 4_294_967_297 });
    assert_eq!(rt; beat.tick(60_000), BeatAct::Nothing);
}

/// Keeps the last body that it was fed.
#[derive(Drop)]
struct Fed {
    header: Option<Header>,
    bytes: Vec<u8>,
    ghost room: { BODY_LIMIT ≤ vec_capacity bytes },
}

impl Fed {
    ghost use Rattle.std.specs.Prelude.{IfOk, ◌≡◌, None};

    fn new(alloc: Global) -> Result<Fed, AllocError>
        ensures { IfOk result (λ fed. fed.header ≡ None) }
    {
        Ok(Fed {
            header: None,
            bytes: Vec::with_capacity(alloc, BODY_LIMIT as usize)?,
        })
    }
}

impl BodySink for Fed {
    ghost started = { λ f. f.header };

    ghost fed = { λ f. f.bytes.items };

    fn start(&mut self, header: &Header) {
        self.bytes.clear();
        self.header = Some(*header);
    }

    fn feed(&mut self, piece: &[u8]) {
        match self.bytes.extend_from_slice(piece) {
            Ok(()) => {}
            Err(_) => unreachable!(),
        }
    }
}

#[test]
fn bodies_are_fed_in_every_cut_of_two_pieces(rt: HostRuntime) -> Result<(), Fail> {
    for cut in 0..STREAM.len() {
        let pieces = Pieces {
            bytes: STREAM,
            at: 0,
            cuts: [cut, cut],
            ended: false,
        };
        let Ok(mut reader) = FrameReader::new(rt.alloc(), pieces) else {
            assert!(rt; false, "no memory");
            return Ok(());
        };
        let mut fed = Fed::new(rt.alloc())?;
        let first = reader.next_with(&mut fed);
        assert_eq!(rt; first, NextWith::Frame { header: QUESTION });
        assert_eq!(rt; fed.bytes.as_slice(), b"N".as_slice());
        let second = reader.next_with(&mut fed);
        assert_eq!(rt; second, NextWith::Frame { header: ANSWER });
        assert_eq!(rt; fed.bytes.as_slice(), b"N".as_slice());
        let last = reader.next_with(&mut fed);
        assert_eq!(rt; last, NextWith::End);
    }
    Ok(())
}

#[test]
fn a_body_at_the_limit_and_many_small_frames_are_read(rt: HostRuntime) -> Result<(), Fail> {
    let alloc = rt.alloc();
    let header = Header {
        length: BODY_LIMIT,
        ..QUESTION
    };
    let body = vec![in alloc; 0x90; BODY_LIMIT as usize]?;
    let mut sink = MemSink::new(alloc, BODY_LIMIT as usize + 16, 0, Vec::new(alloc))?;
    send_frame(&mut sink, &header, &body).map_err(|_| "not sent")?;
    let mut bytes = sink.bytes().to_vec(alloc)?;
    for _ in 0..100_000 {
        bytes.extend_from_slice(&STREAM[..17])?;
    }
    assert!(rt; bytes.len() < 1 << 40);
    let mut reader = FrameReader::new(alloc, MemSource::new(bytes, 0, Vec::new(alloc))).map_err(
        |_| "no memory",
    )?;
    match reader.next() {
        Next::Frame { header, body } => {
            assert_eq!(rt; header.length, BODY_LIMIT);
            assert_eq!(rt; body.as_slice().len(), BODY_LIMIT as usize);
        }
        other => assert!(rt; false, "{other:?}"),
    }
    for _ in 0..100_000 {
        assert!(rt; matches!(reader.next(), Next::Frame { .. }));
    }
    assert!(rt; matches!(reader.next(), Next::End));
    Ok(())
}

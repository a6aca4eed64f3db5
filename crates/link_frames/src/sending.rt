//! Writing a frame.

ghost use Rattle.std.specs.Prelude.{◌≡◌, ◌+◌, ◌<◌, ◌≤◌, ◌++◌, length, take, drop, OnOk, IfErr};
ghost use Rattle.dubbo_header.specs.Header.{header_bytes};
ghost use Rattle.dubbo_header.specs.declared.header.TheConstants.{BODY_LIMIT};
ghost use Rattle.link_frames.specs.declared.sending.TheConstants.{JOINED};
ghost use Rattle.dubbo_io.specs.Sink.{Sends, SentFront};
ghost use Rattle.dubbo_io.specs.WriteFault.{StopsWriting, gone_of, faults_of};

use dubbo_header::{Header, write_header};
use dubbo_io::{Sink, WriteFault, write_all};

/// The most bytes of a frame that are joined, so that a sink takes a small frame at once.
const JOINED: usize = 1024;

/// Writes a frame, and flushes. It takes no memory.
///
/// `gone` of its refusal counts the bytes of the header and of the body together.
pub fn send_frame<K: Sink>(sink: &mut K, header: &Header, body: &[u8]) -> Result<(), WriteFault>
    requires serial { header.now.serial < 32 }
    requires length { header.now.length ≤ BODY_LIMIT }
    requires stated { header.now.length ≡ length body.now }
    requires admitted { (K.state sink.old).admits (header_bytes header.now ++ body.now) }
    ensures ok { OnOk result (Sends (K.state sink.old) (K.state sink.new) (header_bytes header.now ++ body.now)) }
    ensures fault { IfErr result
        (StopsWriting (K.state sink.old) (K.state sink.new) (header_bytes header.now ++ body.now)) }

    // Whatever the answer is.
    ensures sends { SentFront (K.state sink.old) (K.state sink.new) (header_bytes header.now ++ body.now) }
{
    let front = write_header(header);
    if body.len() <= JOINED - 16 {
        write_joined(sink, &front, body)
    } else {
        write_apart(sink, &front, body)
    }
}

/// Writes a small frame as one piece.
fn write_joined<K: Sink>(sink: &mut K, front: &[u8; 16], body: &[u8]) -> Result<(), WriteFault>
    requires small { 16 + length body.now ≤ JOINED }
    requires admitted { (K.state sink.old).admits (front.now ++ body.now) }
    ensures ok { OnOk result (Sends (K.state sink.old) (K.state sink.new) (front.now ++ body.now)) }
    ensures fault { IfErr result
        (StopsWriting (K.state sink.old) (K.state sink.new) (front.now ++ body.now)) }
    ensures sends { SentFront (K.state sink.old) (K.state sink.new) (front.now ++ body.now) }
{
    let mut frame = [0; JOINED];
    join(&mut frame, front, body);
    write_all(sink, &frame[..16 + body.len()])
}

/// Puts a frame at the front of `into`.
fn join(into: &mut [u8], front: &[u8; 16], body: &[u8])
    requires { 16 + length body.now ≤ length into.old }
    ensures front { take (16 + length body.now) into.new ≡ front.now ++ body.now }
    ensures length { length into.new ≡ length into.old }
{
    put(into, front);
    put(&mut into[16..], body);
}

/// Puts a piece at the front of `into`.
fn put(into: &mut [u8], piece: &[u8])
    requires { length piece.now ≤ length into.old }
    ensures { into.new ≡ piece.now ++ drop (length piece.now) into.old }
{
    into[..piece.len()].copy_from_slice(piece);
}

/// Writes a frame as its header and then its body.
fn write_apart<K: Sink>(sink: &mut K, front: &[u8; 16], body: &[u8]) -> Result<(), WriteFault>
    requires within { length body.now ≤ BODY_LIMIT }
    requires admitted { (K.state sink.old).admits (front.now ++ body.now) }
    ensures ok { OnOk result (Sends (K.state sink.old) (K.state sink.new) (front.now ++ body.now)) }
    ensures fault { IfErr result
        (StopsWriting (K.state sink.old) (K.state sink.new) (front.now ++ body.now)) }
    ensures sends { SentFront (K.state sink.old) (K.state sink.new) (front.now ++ body.now) }
{
    write_all(sink, front)?;
    match write_all(sink, body) {
        Ok(()) => Ok(()),
        Err(fault) => Err(behind_header(fault)),
    }
}

/// A fault in the body, as one of the whole frame.
fn behind_header(fault: WriteFault) -> WriteFault
    requires { gone_of fault ≤ BODY_LIMIT }
    ensures gone { gone_of result ≡ 16 + gone_of fault }
    ensures faults { faults_of result ≡ faults_of fault }
{
    let WriteFault::Fault { faults, gone } = fault;
    WriteFault::Fault {
        faults,
        gone: 16 + gone,
    }
}

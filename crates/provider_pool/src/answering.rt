//! The answers to one frame.

ghost use Rattle.std.specs.Prelude.{◌≡◌, ◌≤◌, [], ◌∷◌};
ghost use Rattle.dubbo_header.specs.declared.header.Header.{Header as AHeader};
ghost use Rattle.dubbo_header.specs.declared.header.TheConstants.{BODY_LIMIT};
ghost use Rattle.provider_pool.specs.Answers.{answer_header, sign_of_life};
ghost use Rattle.provider_pool.specs.Writes.{HoldsFrame, Writes, WritesAnswers, WritesReply, answers_of, frame_of};

use crate::asked::{Asked, what_is_asked};
use crate::calling::{call_alone, written_reply};
use crate::sending::{Outcome, send};
use dubbo_bodies::RequestReader;
use dubbo_header::Header;
use dubbo_io::Sink;
use service_table::Services;
use std::alloc::Global;

/// The number of Hessian 2 among the serializations.
const HESSIAN: u8 = 2;

/// The status of an answer to a sign of life.
const OK: u8 = 20;

/// The body of an event: null.
const SIGN: &[u8] = b"N";

/// The status of a provider that failed.
const SERVER_ERROR: u8 = 80;

/// The body of the reply for want of memory: a text of 13 units.
const NO_MEMORY: &[u8] = b"\x0dout of memory";

/// Answers a frame whose body was fed to a reader of requests.
///
/// Want of memory is the reply where a reply is wanted, and else ends the answers.
pub(crate) fn answer<K: Sink>(
    alloc: Global,
    header: &Header,
    body: RequestReader,
    sink: &mut K,
    services: &Services,
) -> Outcome
    requires held { HoldsFrame body header.now }
    requires open { (K.state sink.old).open_to_all }
    ensures answers { WritesAnswers (K.state sink.old) (K.state sink.new) services.now (frame_of header.now body.fed) result }
    ensures few { answers_of result ≤ 1 }
{
    match what_is_asked(header) {
        Asked::Sign => send_sign(sink, header.id),
        Asked::Reply => send_reply(alloc, header.id, body, sink, services),
        Asked::Call => match call_alone(alloc, body, services) {
            Ok(()) => Outcome::Answered { answers: 0 },
            Err(_) => Outcome::OutOfMemory,
        },
        Asked::Nothing => Outcome::Answered { answers: 0 },
    }
}

/// Sends a sign of life under this id.
fn send_sign<K: Sink>(sink: &mut K, id: u64) -> Outcome
    requires { (K.state sink.old).open_to_all }
    ensures writes { Writes (K.state sink.old) (K.state sink.new) (sign_of_life id ∷ []) result }
    ensures few { answers_of result ≤ 1 }
{
    let header = header_of_answer(true, OK, id, 1);
    send(sink, &header, SIGN)
}

/// Sends the reply to a request, or that for want of memory.
fn send_reply<K: Sink>(
    alloc: Global,
    id: u64,
    body: RequestReader,
    sink: &mut K,
    services: &Services,
) -> Outcome
    requires held { (header : AHeader) × HoldsFrame body header }
    requires open { (K.state sink.old).open_to_all }
    ensures writes { (header : AHeader) → HoldsFrame body header → id ≡ header.id
        → WritesReply (K.state sink.old) (K.state sink.new) services.now (frame_of header body.fed) result }
    ensures few { answers_of result ≤ 1 }
{
    match written_reply(alloc, body, services) {
        Ok(written) => {
            let header = header_of_answer(false, written.status, id, written.body.len());
            send(sink, &header, &written.body)
        }
        Err(_) => {
            let header = header_of_answer(false, SERVER_ERROR, id, NO_MEMORY.len());
            send(sink, &header, NO_MEMORY)
        }
    }
}

/// The header of an answer whose body has so many bytes.
fn header_of_answer(event: bool, status: u8, id: u64, size: usize) -> Header
    requires { size ≤ BODY_LIMIT }
    ensures { result ≡ answer_header event status id size }
{
    Header {
        request: false,
        two_way: false,
        event,
        serial: HESSIAN,
        status,
        id,
        length: size as u32,
    }
}

//! Reading a notation.

ghost use Rattle.std.specs.Prelude.{◌≡◌, ◌≢◌, ◌+◌, ◌-◌, ◌<◌, ◌≤◌, [], length, take, drop, get_or, FitsSigned, OnOk, IfOk, IfErr};
ghost use Rattle.std.specs.Fmt.{signed_decimal};
ghost use Rattle.std.specs.Int.{w32};
ghost use Rattle.hessian_graph.specs.Shape.{shape_of};
ghost use Rattle.hessian_graph.specs.Canon.{IsCanon};
ghost use Rattle.hessian_graph.specs.InUse.{InOrderOfUse};
ghost use Rattle.graph_notation.specs.declared.fault.NotationFault.TheVariants.{OutOfMemory};
ghost use Rattle.graph_notation.specs.Elements.{mark_byte};
ghost use Rattle.graph_notation.specs.Lexing.{token_length};
ghost use Rattle.graph_notation.specs.Limit.{node_limit};
ghost use Rattle.graph_notation.specs.Machine.{is_whole};
ghost use Rattle.graph_notation.specs.Notation.{IsNotation};
ghost use Rattle.graph_notation.specs.Progress.{SoFar, ReadsOn, StoppedAt, fault_of};
ghost use Rattle.graph_notation.specs.Refusal.{Refusal};
ghost use Rattle.graph_notation.specs.View.{state_of, Fine, Steps};

use crate::building::graph_of;
use crate::element::Mark;
use crate::fault::{NODE_LIMIT, NotationFault};
use crate::frame::Cause;
use crate::reader::Reader;
use crate::short_numbers::{ShortNumber, short_number};
use crate::stop::Stop;
use crate::token_ends::token_end;
use crate::words::{element_of, mark};
use hessian_graph::{Graph, Value};
use std::alloc::{AllocError, Global};

impl From<AllocError> for NotationFault {
    ghost from_gives = { λ _ e. e ≡ OutOfMemory };

    fn from(_error: AllocError) -> NotationFault {
        NotationFault::OutOfMemory
    }
}

/// The fault of a reading that stopped at a place.
fn fault(stop: Stop, at: usize) -> NotationFault
    ensures { result ≡ fault_of stop at }
{
    match stop {
        Stop::Refused(Cause::Bad) => NotationFault::BadNotation { at },
        Stop::Refused(Cause::Unknown(number)) => NotationFault::UnknownNode { at, number },
        Stop::Refused(Cause::TooMany) => NotationFault::TooManyNodes { at },
        Stop::NoMemory => NotationFault::OutOfMemory,
    }
}

/// Reads the token at a place, and answers the place behind it.
fn read_token(
    alloc: Global,
    text: &[u8],
    at: usize,
    reader: &mut Reader,
) -> Result<usize, NotationFault>
    requires within { at < length text.now }
    requires fine { Fine reader.old }
    requires limit { reader.old.limit ≡ node_limit }
    ensures read { ReadsOn node_limit text.now at (state_of reader.old) (state_of reader.new) result }
    ensures fine { OnOk result (Fine reader.new) }
    ensures limit { reader.new.limit ≡ reader.old.limit }
{
    match mark(text[at]) {
        Some(mark) => read_mark(alloc, text, at, mark, reader),
        None => read_other(alloc, text, at, reader),
    }
}

/// Reads a token that is no mark: a number of few digits at once.
fn read_other(
    alloc: Global,
    text: &[u8],
    at: usize,
    reader: &mut Reader,
) -> Result<usize, NotationFault>
    requires within { at < length text.now }
    requires fine { Fine reader.old }
    requires limit { reader.old.limit ≡ node_limit }
    ensures read { ReadsOn node_limit text.now at (state_of reader.old) (state_of reader.new) result }
    ensures fine { OnOk result (Fine reader.new) }
    ensures limit { reader.new.limit ≡ reader.old.limit }
{
    match short_number(text, at) {
        Some(short) => read_number(text, at, short, reader),
        None => read_longer(alloc, text, at, reader),
    }
}

/// Reads the number at a place.
fn read_number(
    text: &[u8],
    at: usize,
    short: ShortNumber,
    reader: &mut Reader,
) -> Result<usize, NotationFault>
    requires at { at < length text.now }
    requires end { short.end ≡ at + token_length (drop at text.now) }
    requires within { short.end ≤ length text.now }
    requires fits { FitsSigned w32 short.number }
    requires number { take (short.end - at) (drop at text.now) ≡ signed_decimal short.number }
    requires fine { Fine reader.old }
    requires limit { reader.old.limit ≡ node_limit }
    ensures read { ReadsOn node_limit text.now at (state_of reader.old) (state_of reader.new) result }
    ensures fine { OnOk result (Fine reader.new) }
    ensures limit { reader.new.limit ≡ reader.old.limit }
{
    match reader.take_value(Value::Int(short.number)) {
        Ok(()) => Ok(short.end),
        Err(stop) => Err(fault(stop, at)),
    }
}

/// Reads the mark at a place.
fn read_mark(
    alloc: Global,
    text: &[u8],
    at: usize,
    mark: Mark,
    reader: &mut Reader,
) -> Result<usize, NotationFault>
    requires within { at < length text.now }
    requires here { get_or text.now at 0 ≡ mark_byte mark }
    requires fine { Fine reader.old }
    requires limit { reader.old.limit ≡ node_limit }
    ensures read { ReadsOn node_limit text.now at (state_of reader.old) (state_of reader.new) result }
    ensures fine { OnOk result (Fine reader.new) }
    ensures limit { reader.new.limit ≡ reader.old.limit }
{
    match reader.take_mark(alloc, mark) {
        Ok(()) => Ok(at + 1),
        Err(stop) => Err(fault(stop, at)),
    }
}

/// Reads a token of any length.
fn read_longer(
    alloc: Global,
    text: &[u8],
    at: usize,
    reader: &mut Reader,
) -> Result<usize, NotationFault>
    requires within { at < length text.now }
    requires fine { Fine reader.old }
    requires limit { reader.old.limit ≡ node_limit }
    ensures read { ReadsOn node_limit text.now at (state_of reader.old) (state_of reader.new) result }
    ensures fine { OnOk result (Fine reader.new) }
    ensures limit { reader.new.limit ≡ reader.old.limit }
{
    let end = token_end(text, at);
    match element_of(alloc, &text[at..end])? {
        Some(element) => match reader.take(alloc, element) {
            Ok(()) => Ok(end),
            Err(stop) => Err(fault(stop, at)),
        },
        None => Err(NotationFault::BadNotation { at }),
    }
}

/// Reads all tokens.
fn read_tokens(alloc: Global, text: &[u8]) -> Result<Reader, NotationFault>
    ensures read { IfOk result (λ reader. SoFar node_limit text.now [] (state_of reader)) }
    ensures fine { IfOk result Fine }
    ensures stopped { IfErr result (StoppedAt node_limit text.now) }
{
    let mut reader = Reader::new(alloc, NODE_LIMIT);
    let mut at = 0;
    while at < text.len() {
        at = read_token(alloc, text, at, &mut reader)?;
    }
    Ok(reader)
}

/// Reads a notation, in the writer's or any other spelling of its texts.
///
/// The graph is canonical. Where several refusals are possible, the one with the least place is answered.
pub fn read_notation(alloc: Global, text: &[u8]) -> Result<Graph, NotationFault>
    ensures ok { IfOk result (λ g. IsNotation text.now (shape_of g) × (length (shape_of g).nodes ≤ node_limit)) }
    ensures canonical { IfOk result (λ g. IsCanon (shape_of g) (shape_of g)) }
    ensures tables { IfOk result InOrderOfUse }
    ensures refused { IfErr result (λ f. f ≢ OutOfMemory → Refusal node_limit text.now f) }
{
    match read_tokens(alloc, text) {
        Ok(reader) => finish(alloc, text, reader),
        Err(fault) => Err(fault),
    }
}

/// The graph of a text that was read to its end, where the text may end there.
fn finish(alloc: Global, text: &[u8], reader: Reader) -> Result<Graph, NotationFault>
    requires read { SoFar node_limit text.now [] (state_of reader) }
    requires fine { Fine reader }
    ensures ok { IfOk result (λ g. IsNotation text.now (shape_of g) × (length (shape_of g).nodes ≤ node_limit)) }
    ensures canonical { IfOk result (λ g. IsCanon (shape_of g) (shape_of g)) }
    ensures tables { IfOk result InOrderOfUse }
    ensures refused { IfErr result (λ f. f ≢ OutOfMemory → Refusal node_limit text.now f) }
{
    if reader.is_whole() {
        let graph = graph_of(alloc, reader)?;
        Ok(graph)
    } else {
        Err(NotationFault::BadNotation { at: text.len() })
    }
}

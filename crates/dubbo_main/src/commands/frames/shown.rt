//! What a line shows of a frame's body.
ghost use Rattle.std.specs.Prelude.{◌≡◌, ◌≢◌, ◌++◌, ℕ, List, OnOk, codes};
ghost use Rattle.dubbo_bodies.specs.FaultTexts.{reply_words, request_words};
ghost use Rattle.dubbo_bodies.specs.RefusedReply.{IsOfReply};
ghost use Rattle.dubbo_main.specs.FrameLines.{IsRequest, Shows};

use super::messages::{write_reply, write_request};
use dubbo_bodies::{ReplyFault, RequestFault, read_reply, read_request, reply_text, request_text};
use dubbo_header::Header;
use std::alloc::{AllocError, Global};

/// Appends what the body of a frame says, or why it isn't read; nothing in an event.
pub fn write_shown(
    alloc: Global,
    text: &mut Vec<u8>,
    header: &Header,
    body: &[u8],
) -> Result<(), AllocError>
    ensures { OnOk result ((shown : List ℕ) × Shows header.now body.now shown
        × (text.new.items ≡ text.old.items ++ shown)) }
{
    if header.event {
        Ok(())
    } else if header.request {
        show_request(alloc, text, header, body)
    } else {
        show_reply(alloc, text, header, body)
    }
}

/// Appends what the body of a request says, or why it isn't read.
fn show_request(
    alloc: Global,
    text: &mut Vec<u8>,
    header: &Header,
    body: &[u8],
) -> Result<(), AllocError>
    requires { IsRequest header.now }
    ensures { OnOk result ((shown : List ℕ) × Shows header.now body.now shown
        × (text.new.items ≡ text.old.items ++ shown)) }
{
    match read_request(alloc, header, body) {
        Ok(request) => write_request(alloc, text, &request),
        Err(fault) => write_no_request(text, fault),
    }
}

/// Appends what the body of a reply says, or why it isn't read.
fn show_reply(
    alloc: Global,
    text: &mut Vec<u8>,
    header: &Header,
    body: &[u8],
) -> Result<(), AllocError>
    requires { IsOfReply header.now }
    ensures { OnOk result ((shown : List ℕ) × Shows header.now body.now shown
        × (text.new.items ≡ text.old.items ++ shown)) }
{
    match read_reply(alloc, header, body) {
        Ok(reply) => write_reply(alloc, text, &reply),
        Err(fault) => write_no_reply(text, fault),
    }
}

/// Appends why the body of a request isn't read.
fn write_no_request(text: &mut Vec<u8>, fault: RequestFault) -> Result<(), AllocError>
    ensures told { OnOk result (fault ≢ RequestFault.OutOfMemory) }
    ensures written { OnOk result (text.new.items ≡ text.old.items ++ (codes " unread " ++ request_words fault)) }
{
    match fault {
        RequestFault::OutOfMemory => Err(AllocError),
        _ => write_unread(text, request_text(fault).as_bytes()),
    }
}

/// Appends why the body of a reply isn't read.
fn write_no_reply(text: &mut Vec<u8>, fault: ReplyFault) -> Result<(), AllocError>
    ensures told { OnOk result (fault ≢ ReplyFault.OutOfMemory) }
    ensures written { OnOk result (text.new.items ≡ text.old.items ++ (codes " unread " ++ reply_words fault)) }
{
    match fault {
        ReplyFault::OutOfMemory => Err(AllocError),
        _ => write_unread(text, reply_text(fault).as_bytes()),
    }
}

/// Appends that a body isn't read, and these words.
fn write_unread(text: &mut Vec<u8>, words: &[u8]) -> Result<(), AllocError>
    ensures { OnOk result (text.new.items ≡ text.old.items ++ (codes " unread " ++ words.now)) }
{
    text.extend_from_slice(b" unread ")?;
    text.extend_from_slice(words)
}

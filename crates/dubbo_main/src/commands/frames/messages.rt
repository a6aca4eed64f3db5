//! The words of requests and replies.
ghost use Rattle.std.specs.Prelude.{◌≡◌, ◌++◌, ℕ, List, OnOk, codes, decimal};
ghost use Rattle.hessian_graph.specs.Shape.{shape_of};
ghost use Rattle.graph_notation.specs.Elements.{quoted};
ghost use Rattle.graph_notation.specs.Notation.{PrintsForm};
ghost use Rattle.dubbo_main.specs.FrameLines.{ShowsReply, ShowsRequest};

use super::heads::write_number;
use dubbo_bodies::{Reply, Request};
use graph_notation::{print_graph, write_text};
use hessian_graph::{Chars, Graph};
use std::alloc::{AllocError, Global};

/// Appends a space, and the path, the version, the method, the descriptor and the arguments of a request.
pub fn write_request(alloc: Global, text: &mut Vec<u8>, request: &Request) -> Result<(), AllocError>
    ensures { OnOk result ((shown : List ℕ) × ShowsRequest request.now shown
        × (text.new.items ≡ text.old.items ++ (codes " " ++ shown))) }
{
    write_fields(text, request)?;
    text.extend_from_slice(b" (")?;
    write_graph(alloc, text, &request.args)?;
    text.extend_from_slice(b")")?;
    Ok(())
}

/// Appends the path, the version, the method and the descriptor of a request, each behind a space.
fn write_fields(text: &mut Vec<u8>, request: &Request) -> Result<(), AllocError>
    ensures { OnOk result (text.new.items ≡ text.old.items ++ codes " " ++ quoted request.now.path
        ++ codes " " ++ quoted request.now.version ++ codes " " ++ quoted request.now.method
        ++ codes " " ++ quoted request.now.desc) }
{
    write_next(text, &request.path)?;
    write_next(text, &request.version)?;
    write_next(text, &request.method)?;
    write_next(text, &request.desc)
}

/// Appends a space and how a call ended.
pub fn write_reply(alloc: Global, text: &mut Vec<u8>, reply: &Reply) -> Result<(), AllocError>
    ensures { OnOk result ((shown : List ℕ) × ShowsReply reply.now shown
        × (text.new.items ≡ text.old.items ++ (codes " " ++ shown))) }
{
    match reply {
        Reply::Value(graph) => {
            text.extend_from_slice(b" ok ")?;
            write_graph(alloc, text, graph)
        }
        Reply::Threw(graph) => {
            text.extend_from_slice(b" threw ")?;
            write_graph(alloc, text, graph)
        }
        Reply::Status { code, text: words } => write_status(text, *code, words),
    }
}

/// Appends a space, a status that tells of no value, and its text.
fn write_status(text: &mut Vec<u8>, code: u8, words: &Chars) -> Result<(), AllocError>
    ensures { OnOk result (text.new.items
        ≡ text.old.items ++ (codes " " ++ (codes "status " ++ decimal code ++ codes " " ++ quoted words.now))) }
{
    text.extend_from_slice(b" status ")?;
    write_number(text, u64::from(code))?;
    write_next(text, words)
}

/// Appends a space and a text as it stands in a notation.
fn write_next(text: &mut Vec<u8>, words: &Chars) -> Result<(), AllocError>
    ensures { OnOk result (text.new.items ≡ text.old.items ++ codes " " ++ quoted words.now) }
{
    text.push(b' ')?;
    write_text(text, words.as_str())
}

/// Appends the notation of a graph.
fn write_graph(alloc: Global, text: &mut Vec<u8>, graph: &Graph) -> Result<(), AllocError>
    ensures { OnOk result ((notation : List ℕ) × PrintsForm (shape_of graph.now) notation
        × (text.new.items ≡ text.old.items ++ notation)) }
{
    let notation = print_graph(alloc, graph)?;
    text.extend_from_slice(&notation)
}

//! What the direct calls of a script give, counted.
ghost use Rattle.std.specs.Prelude.{◌≡◌, ℕ, ◌<◌, ◌+◌, ◌^◌, ◌++◌, IfOk, decimal, length};
ghost use Rattle.hessian_graph.specs.Shape.{Shape, shape_of};
ghost use Rattle.hessian_graph.specs.Canon.{IsCanon};
ghost use Rattle.service_table.specs.Endings.{Ending, IsCanonEnding, ending_of};
ghost use Rattle.dubbo_main.specs.Generating.{AreOfFew, AreTotals, summary_line, with_ending};

use call_plan::Script;
use dubbo_bodies::Reply;
use hessian_graph::{Graph, canon};
use itoa::Buffer;
use service_table::call;
use std::alloc::{AllocError, Global};

/// What calls gave: how many values, exceptions and statuses, and how many nodes the values and exceptions have.
#[derive(Clone, Copy, Debug, PartialEq, Eq)]
pub struct Totals {
    pub nodes: u64,
    pub values: u64,
    pub exceptions: u64,
    pub statuses: u64,
}

/// The totals of the calls of a script, each made directly.
pub fn direct_totals(alloc: Global, script: &Script) -> Result<Totals, AllocError>
    ensures { IfOk result (AreTotals script.now.services script.now.calls) }
{
    let services = script.services();
    let calls = script.calls();
    let mut totals = Totals {
        nodes: 0,
        values: 0,
        exceptions: 0,
        statuses: 0,
    };
    for asked in calls {
        let reply = call(alloc, services, &asked.request)?;
        totals = with_reply(alloc, totals, &reply)?;
    }
    Ok(totals)
}

/// The totals with a reply more, which has a graph of fewer than 2^32 nodes or none.
fn with_reply(alloc: Global, totals: Totals, reply: &Reply) -> Result<Totals, AllocError>
    requires { AreOfFew 4095 totals }
    ensures counted { IfOk result (λ after. (ending : Ending) → IsCanonEnding (ending_of reply.now) ending
        → after ≡ with_ending ending totals) }
    ensures few { IfOk result (λ after. (count : ℕ) → AreOfFew count totals → AreOfFew (count + 1) after) }
{
    Ok(match reply {
        Reply::Value(graph) => Totals {
            nodes: totals.nodes + form_nodes(alloc, graph)?,
            values: totals.values + 1,
            exceptions: totals.exceptions,
            statuses: totals.statuses,
        },
        Reply::Threw(graph) => Totals {
            nodes: totals.nodes + form_nodes(alloc, graph)?,
            values: totals.values,
            exceptions: totals.exceptions + 1,
            statuses: totals.statuses,
        },
        Reply::Status { .. } => Totals {
            nodes: totals.nodes,
            values: totals.values,
            exceptions: totals.exceptions,
            statuses: totals.statuses + 1,
        },
    })
}

/// How many nodes the canonical form of a graph has.
fn form_nodes(alloc: Global, graph: &Graph) -> Result<u64, AllocError>
    ensures few { IfOk result (λ count. count < 2 ^ 32) }
    ensures form { IfOk result (λ count. (form : Shape) → IsCanon (shape_of graph.now) form → count ≡ length form.nodes) }
{
    let form = canon(alloc, graph)?;
    Ok(form.parts().nodes.as_slice().len() as u64)
}

/// The line of the summary of so many calls.
pub fn write_summary(alloc: Global, calls: u16, totals: &Totals) -> Result<Vec<u8>, AllocError>
    ensures { IfOk result (λ text. text.items ≡ summary_line calls totals.now) }
{
    let mut text = Vec::new(alloc);
    write_count(&mut text, "calls ", u64::from(calls))?;
    write_count(&mut text, " nodes ", totals.nodes)?;
    write_count(&mut text, " ok ", totals.values)?;
    write_count(&mut text, " threw ", totals.exceptions)?;
    write_count(&mut text, " status ", totals.statuses)?;
    text.push(b'\n')?;
    Ok(text)
}

/// Appends a text and a number behind it.
fn write_count(text: &mut Vec<u8>, before: &str, count: u64) -> Result<(), AllocError>
    ensures { IfOk result (λ _. text.new.items ≡ text.old.items ++ before.now ++ decimal count) }
{
    let mut digits = Buffer::new();
    text.extend_from_slice(before.as_bytes())?;
    text.extend_from_slice(digits.format(count).as_bytes())
}

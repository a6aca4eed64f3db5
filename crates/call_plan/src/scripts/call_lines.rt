//! Lines that name a call.

ghost use Rattle.std.specs.Prelude.{◌≡◌, ◌<◌, ◌^◌, ℕ, List, length, codes, IfOk, IfSome, MatchOption};
ghost use Rattle.call_plan.specs.declared.calls.Call.{Call as ACall};
ghost use Rattle.call_plan.specs.LineForms.{IsCallLine, attachments_of};
ghost use Rattle.call_plan.specs.Size.{IsReady};

use super::arguments::arguments;
use super::fields::call_fields;
use super::numbers::read_settings;
use super::words::{Target, chars, read_target};
use crate::calls::Call;
use dubbo_bodies::{Attachment, Attachments, Request};
use hessian_graph::Graph;
use itoa::Buffer;
use std::alloc::{AllocError, Global};

/// The version of Dubbo that is written.
const DUBBO: &str = "2.0.2";

/// The call that the line of this number names, or none where the line names none.
pub fn read_call(alloc: Global, number: u32, line: &[u8]) -> Result<Option<Call>, AllocError>
    requires { length line.now < 2 ^ 31 }
    ensures says { IfOk result (λ call. MatchOption call ((c : ACall) → ¬ IsCallLine number line.now c) (IsCallLine number line.now)) }
    ensures ready { IfOk result (λ call. IfSome call IsReady) }
{
    let Some(fields) = call_fields(line) else {
        return Ok(None);
    };
    let Some(said) = read_settings(fields.mode, fields.timeout, fields.retries, fields.forks) else {
        return Ok(None);
    };
    let Some(target) = read_target(fields.path, fields.version, fields.method, fields.desc) else {
        return Ok(None);
    };
    let Some(args) = arguments(alloc, target.desc, fields.arguments)? else {
        return Ok(None);
    };
    let timeout = u64::from(said.timeout);
    let request = request_of(alloc, &target, timeout, args)?;
    Ok(Some(Call {
        line: number,
        request,
        mode: said.mode,
        timeout,
        retries: said.retries,
        forks: said.forks,
    }))
}

/// The request of a call.
fn request_of(
    alloc: Global,
    target: &Target<'_>,
    timeout: u64,
    args: Graph,
) -> Result<Request, AllocError>
    ensures { IfOk result (λ r. r ≡ record {
      dubbo = codes "2.0.2";
      path = target.now.path.now;
      version = target.now.version.now;
      method = target.now.method.now;
      desc = target.now.desc.now;
      args = args;
      attachments = attachments_of target.now.path.now target.now.version.now timeout;
    }) }
{
    let dubbo = chars(alloc, DUBBO)?;
    let path = chars(alloc, target.path)?;
    let version = chars(alloc, target.version)?;
    let method = chars(alloc, target.method)?;
    let desc = chars(alloc, target.desc)?;
    let attachments = attachments(alloc, target, timeout)?;
    Ok(Request {
        dubbo,
        path,
        version,
        method,
        desc,
        args,
        attachments,
    })
}

/// The four attachments of a call.
fn attachments(alloc: Global, target: &Target<'_>, timeout: u64) -> Result<Attachments, AllocError>
    ensures { IfOk result (λ all. all ≡ attachments_of target.now.path.now target.now.version.now timeout) }
{
    let mut buffer = Buffer::new();
    let path = attachment(alloc, "path", target.path)?;
    let interface = attachment(alloc, "interface", target.path)?;
    let version = attachment(alloc, "version", target.version)?;
    let timeout = attachment(alloc, "timeout", buffer.format(timeout))?;
    let all = vec![in alloc; path, interface, version, timeout]?;
    Ok(Attachments::from(all))
}

/// An attachment.
fn attachment(alloc: Global, name: &str, value: &str) -> Result<Attachment, AllocError>
    ensures { IfOk result (λ a. a ≡ record { name = name.now; value = value.now }) }
{
    let name = chars(alloc, name)?;
    let value = chars(alloc, value)?;
    Ok(Attachment { name, value })
}

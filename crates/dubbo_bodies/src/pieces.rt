//! Pieces of bodies: the texts of a request, and its attachments.

ghost use Rattle.std.specs.Prelude.{IfOk, OnOk};
ghost use Rattle.hessian_graph.specs.Spells.{TextsSpelling};
ghost use Rattle.hessian_writer.specs.Leaves.{hessian_forms};
ghost use Rattle.hessian_writer.specs.Appending.{Appends, AppendsTexts};
ghost use Rattle.dubbo_bodies.specs.Attachments.{texts_of};
ghost use Rattle.dubbo_bodies.specs.Fields.{fields_of};
ghost use Rattle.dubbo_bodies.specs.WrittenBody.{MapForm};

use crate::attachment::Attachment;
use crate::message::Request;
use hessian_graph::OutOfMemory;
use hessian_text::write_text;
use std::alloc::Global;

/// The five texts of a request, one after another.
pub(crate) fn field_bytes(alloc: Global, request: &Request) -> Result<Vec<u8>, OutOfMemory>
    ensures { IfOk result (λ out. TextsSpelling hessian_forms (fields_of request.now) out.items) }
{
    let mut out = Vec::new(alloc);
    write_text(alloc, &mut out, request.dubbo.as_str())?;
    write_text(alloc, &mut out, request.path.as_str())?;
    write_text(alloc, &mut out, request.version.as_str())?;
    write_text(alloc, &mut out, request.method.as_str())?;
    write_text(alloc, &mut out, request.desc.as_str())?;
    Ok(out)
}

/// Writes an untyped map of attachments.
pub(crate) fn write_map(
    alloc: Global,
    out: &mut Vec<u8>,
    attachments: &[Attachment],
) -> Result<(), OutOfMemory>
    ensures { OnOk result (Appends (MapForm hessian_forms attachments.now) out.old.items out.new.items) }
{
    out.push(b'H')?;
    write_pairs(alloc, out, attachments)?;
    out.push(b'Z')?;
    Ok(())
}

/// Writes the name of each attachment, and its text.
fn write_pairs(
    alloc: Global,
    out: &mut Vec<u8>,
    attachments: &[Attachment],
) -> Result<(), OutOfMemory>
    ensures { OnOk result (AppendsTexts (texts_of attachments.now) out.old.items out.new.items) }
{
    for attachment in attachments {
        write_text(alloc, out, attachment.name.as_str())?;
        write_text(alloc, out, attachment.value.as_str())?;
    }
    Ok(())
}

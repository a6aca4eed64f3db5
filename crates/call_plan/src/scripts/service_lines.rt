//! Lines that name a service.

ghost use Rattle.std.specs.Prelude.{◌≡◌, IfOk, MatchOption};
ghost use Rattle.service_table.specs.declared.row.Row.{Row as ARow};
ghost use Rattle.call_plan.specs.LineForms.{IsServiceLine};

use super::fields::service_fields;
use super::words::{Target, chars, kind_of, read_target};
use service_table::{Kind, Row};
use std::alloc::{AllocError, Global};

/// The service that a line names, or none where the line names none.
pub fn read_service(alloc: Global, line: &[u8]) -> Result<Option<Row>, AllocError>
    ensures { IfOk result (λ row. MatchOption row ((r : ARow) → ¬ IsServiceLine line.now r) (IsServiceLine line.now)) }
{
    let Some(fields) = service_fields(line) else {
        return Ok(None);
    };
    let Some(target) = read_target(fields.path, fields.version, fields.method, fields.desc) else {
        return Ok(None);
    };
    let Some(kind) = kind_of(fields.kind) else {
        return Ok(None);
    };
    let row = row_of(alloc, &target, kind)?;
    Ok(Some(row))
}

/// A row of this service.
fn row_of(alloc: Global, target: &Target<'_>, kind: Kind) -> Result<Row, AllocError>
    ensures { IfOk result (λ row. row ≡ record {
      path = target.now.path.now;
      version = target.now.version.now;
      method = target.now.method.now;
      desc = target.now.desc.now;
      kind = kind;
    }) }
{
    let path = chars(alloc, target.path)?;
    let version = chars(alloc, target.version)?;
    let method = chars(alloc, target.method)?;
    let desc = chars(alloc, target.desc)?;
    Ok(Row {
        path,
        version,
        method,
        desc,
        kind,
    })
}

//! What names a service.

ghost use Rattle.std.specs.Prelude.{◌≡◌, IfOk};
ghost use Rattle.std.specs.String.{string_bytes};
ghost use Rattle.service_table.specs.Rows.{service_of, asked_by};
ghost use Rattle.service_table.specs.Table.{row_of, service_named};

use crate::row::Row;
use dubbo_bodies::Request;
use hessian_graph::{Chars, OutOfMemory};
use std::alloc::Global;

/// What names a service: four texts, of which no three are enough.
#[derive(PartialEq, Eq, Hash, Drop)]
pub(crate) struct ServiceName {
    /// The path of the service.
    pub(crate) path: String,
    /// The version of the service.
    pub(crate) version: String,
    /// The name of the method.
    pub(crate) method: String,
    /// The descriptor.
    pub(crate) desc: String,
}

/// The name of a row's service.
pub(crate) fn name_of(row: Row) -> ServiceName
    ensures same { row_of (result, row.kind) ≡ row }
    ensures names { service_named result ≡ service_of row }
{
    ServiceName {
        path: row.path.into_inner(),
        version: row.version.into_inner(),
        method: row.method.into_inner(),
        desc: row.desc.into_inner(),
    }
}

/// The name of the service that a request asks for.
pub(crate) fn name_asked(alloc: Global, request: &Request) -> Result<ServiceName, OutOfMemory>
    ensures { IfOk result (λ name. service_named name ≡ asked_by request.now) }
{
    Ok(ServiceName {
        path: copied(alloc, &request.path)?,
        version: copied(alloc, &request.version)?,
        method: copied(alloc, &request.method)?,
        desc: copied(alloc, &request.desc)?,
    })
}

/// A copy of a text.
fn copied(alloc: Global, text: &Chars) -> Result<String, OutOfMemory>
    ensures { IfOk result (λ copy. string_bytes copy ≡ text.now) }
{
    String::from_str(alloc, text.as_str())
}

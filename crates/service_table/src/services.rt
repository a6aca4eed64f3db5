//! The table of a provider's services.

ghost use Rattle.std.specs.Prelude.{◌≡◌, ◌≢◌, ◌<◌, ◌^◌, ◌++◌, ◌∷◌, ◌↔◌, [], length, Err, IfOk, IfErr, OnOk, OnErr, MatchOption};
ghost use Rattle.service_table.specs.Adding.{HasEnough, MayAdd, Refuses};
ghost use Rattle.service_table.specs.Rows.{AreApart, NoneServes, ServesAs};

use crate::fault::AddFault;
use crate::kind::Kind;
use crate::name::{ServiceName, name_asked, name_of};
use crate::row::Row;
use dubbo_bodies::{Request, count_args};
use hessian_graph::OutOfMemory;
use indexmap::IndexMap;
use std::alloc::Global;
use std::marker::Model;

/// A table of services, whose rows stand in the order in which they were put in.
///
/// A row is found by its path, version, method and descriptor, with no search through the rows.
#[derive(Drop)]
pub struct Services {
    rows: IndexMap<ServiceName, Kind>,
}

impl Model for Services {
    ghost use Rattle.std.specs.Prelude.{List};
    ghost use Rattle.service_table.specs.declared.row.Row.{Row as Line};
    ghost use Rattle.service_table.specs.Table.{rows_of};

    ghost Value = { List Line };

    ghost view = { λ a. rows_of a.rows.entries };
}

impl Services {
    /// A table without services.
    pub fn new(alloc: Global) -> Services
        ensures { result ≡ [] }
    {
        Services {
            rows: IndexMap::new(alloc),
        }
    }

    /// Puts in a row behind the others, or says for what cause it is refused. After a refusal the table is as it was.
    ///
    /// The number in `Repeated` is that of the row of the same service, from 0.
    pub fn add(&mut self, row: Row) -> Result<(), AddFault>
        requires { length self.old < 2 ^ 32 }
        ensures added { OnOk result (self.new ≡ self.old ++ row ∷ []) }
        ensures may { OnOk result (MayAdd self.old row) }
        ensures refused { IfErr result (λ fault. fault ≢ AddFault.OutOfMemory → Refuses self.old row fault) }
        ensures not { IfErr result (λ fault. fault ≢ AddFault.OutOfMemory → MayAdd self.old row → ⊥) }
        ensures kept { OnErr result (self.new ≡ self.old) }
    {
        check_args(&row)?;
        let kind = row.kind;
        let name = name_of(row);
        if let Some(place) = self.rows.get_index_of(&name) {
            return Err(AddFault::Repeated { row: place as u32 });
        }
        match self.rows.insert(name, kind) {
            Ok(_) => Ok(()),
            Err(_) => Err(AddFault::OutOfMemory),
        }
    }

    /// The kind of the service that a request asks for, where there is one.
    pub(crate) fn kind_for(
        &self,
        alloc: Global,
        request: &Request,
    ) -> Result<Option<Kind>, OutOfMemory>
        ensures { IfOk result (λ found. MatchOption found (NoneServes self.now request.now) (ServesAs self.now request.now)) }
    {
        let name = name_asked(alloc, request)?;
        Ok(self.rows.get(&name).copied())
    }

    /// Looks at the rows, of which no two are of one service.
    pub(crate) fn look(&self)
        ensures { AreApart self.now }
    {
        let _count = self.rows.len();
    }
}

/// Refuses a row whose descriptor is none, or names fewer parameters than the kind needs.
fn check_args(row: &Row) -> Result<(), AddFault>
    ensures enough { OnOk result (HasEnough row.now) }
    ensures refused { IfErr result (λ fault. Refuses [] row.now fault) }
    ensures not { IfErr result (λ fault. HasEnough row.now → ⊥) }
{
    let needed = row.kind.needs();
    match count_args(row.desc.as_str().as_bytes()) {
        Err(fault) => Err(AddFault::Descriptor(fault)),
        Ok(count) if count < needed => Err(AddFault::TooFewArgs { needed }),
        Ok(_) => Ok(()),
    }
}

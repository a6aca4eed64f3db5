//! Faults of values that begin inside a body.

ghost use Rattle.std.specs.Prelude.{◌≡◌, ◌≤◌, ◌+◌};
ghost use Rattle.hessian_graph.specs.Refusal.{Cause};
ghost use Rattle.hessian_reader.specs.Refusing.{fault_of};
ghost use Rattle.dubbo_bodies.specs.FaultsBehind.{place_of, place_in, fault_later};
ghost use Rattle.dubbo_bodies.specs.Refusals.{behind};

use hessian_reader::HessianFault;

/// The same fault, its place counted from so many bytes further ahead. A place in a body fits.
pub(crate) fn fault_behind(from: usize, fault: HessianFault) -> HessianFault
    ensures memory { fault ≡ HessianFault.OutOfMemory → result ≡ HessianFault.OutOfMemory }
    ensures tells { (cause : Cause) → fault ≡ fault_of cause → from + place_of cause ≤ usize.MAX
        → result ≡ fault_of (behind from cause) }
{
    later(from, fault)
}

/// The same, said of the fault.
fn later(from: usize, fault: HessianFault) -> HessianFault
    ensures { from + place_in fault ≤ usize.MAX → result ≡ fault_later from fault }
{
    match fault {
        HessianFault::Short { at } => HessianFault::Short {
            at: from.saturating_add(at),
        },
        HessianFault::Double { at, code } => HessianFault::Double {
            at: from.saturating_add(at),
            code,
        },
        HessianFault::BadCode { at, code } => HessianFault::BadCode {
            at: from.saturating_add(at),
            code,
        },
        HessianFault::BadText { at } => HessianFault::BadText {
            at: from.saturating_add(at),
        },
        HessianFault::BadRef { at, number } => HessianFault::BadRef {
            at: from.saturating_add(at),
            number,
        },
        HessianFault::BadType { at, number } => HessianFault::BadType {
            at: from.saturating_add(at),
            number,
        },
        HessianFault::BadClass { at, number } => HessianFault::BadClass {
            at: from.saturating_add(at),
            number,
        },
        HessianFault::BadLength { at, number } => HessianFault::BadLength {
            at: from.saturating_add(at),
            number,
        },
        HessianFault::TooManyNodes { at } => HessianFault::TooManyNodes {
            at: from.saturating_add(at),
        },
        HessianFault::Trailing { at } => HessianFault::Trailing {
            at: from.saturating_add(at),
        },
        HessianFault::OutOfMemory => HessianFault::OutOfMemory,
    }
}

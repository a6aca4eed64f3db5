//! Laws of services and of the direct call, as functions whose clauses are the laws. They do nothing when they are called.

ghost use Rattle.std.specs.Prelude.{◌≡◌, ◌-◌, ◌<◌, ◌^◌, ℕ, List, length};
ghost use Rattle.hessian_graph.specs.Shape.{Shape, shape_of};
ghost use Rattle.hessian_graph.specs.Iso.{Iso};
ghost use Rattle.dubbo_bodies.specs.declared.message.Request.{Request as ARequest};
ghost use Rattle.service_table.specs.declared.kind.Kind.{Kind as AKind};
ghost use Rattle.service_table.specs.declared.row.Row.{Row as ARow};
ghost use Rattle.service_table.specs.Direct.{Direct};
ghost use Rattle.service_table.specs.Endings.{Ending, IsCanonEnding, BodyOf};
ghost use Rattle.service_table.specs.Replies.{answer};
ghost use Rattle.service_table.specs.Rows.{AreApart, asked_by};

use crate::services::Services;
use dubbo_bodies::Request;

/// Arguments that differ in the numbers of their nodes alone get equal replies, whatever the kind.
pub fn isomorphic_arguments_get_equal_replies()
    ensures { (kind : AKind) → (left right : Shape) → (a b : Ending) → Iso left right
        → IsCanonEnding (answer kind left) a → IsCanonEnding (answer kind right) b → a ≡ b }
{}

/// Requests for one service, with arguments of one shape, end alike in the direct call.
pub fn alike_requests_end_alike(left: &Request, right: &Request)
    requires { length right.now.args.nodes < 2 ^ 31 - 1 }
    ensures { (rows : List ARow) → (ending : Ending) → asked_by left.now ≡ asked_by right.now
        → Iso (shape_of left.now.args) (shape_of right.now.args)
        → Direct rows left.now ending → Direct rows right.now ending }
{
    let _right = right.args.parts();
}

/// No two rows of a table are of one service.
pub fn services_are_apart(services: &Services)
    ensures { AreApart services.now }
{
    services.look();
}

/// A request has at most one ending over rows of which no two are of one service.
pub fn has_one_ending()
    ensures { (rows : List ARow) → (r : ARequest) → (a b : Ending) → AreApart rows → Direct rows r a → Direct rows r b → a ≡ b }
{}

/// An ending is written as one body at most.
pub fn has_one_body()
    ensures { (ending : Ending) → (a b : List ℕ) → BodyOf ending a → BodyOf ending b → a ≡ b }
{}

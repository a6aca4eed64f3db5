//! Laws of bodies that are cut off, as functions whose clauses are the laws. They do nothing when they are called.

ghost use Rattle.std.specs.Prelude.{◌≢◌, ◌++◌, ℕ, List, [], length};
ghost use Rattle.hessian_graph.specs.Refusal.{Short};
ghost use Rattle.hessian_reader.specs.Faults.{faults};
ghost use Rattle.hessian_reader.specs.Leaves.{hessian, node_limit};
ghost use Rattle.dubbo_header.specs.declared.header.Header.{Header};
ghost use Rattle.dubbo_bodies.specs.declared.message.Request.{Request};
ghost use Rattle.dubbo_bodies.specs.Refusals.{Hessian, RequestRefusal};
ghost use Rattle.dubbo_bodies.specs.RequestBody.{RequestOf};

/// Where a header and a body are a request, each shorter front of the body is refused as cut short, at its end.
pub fn fronts_of_a_request_are_short()
    ensures { (header : Header) → (front more : List ℕ) → (r : Request) → more ≢ []
        → RequestOf hessian node_limit header (front ++ more) r
        → RequestRefusal hessian faults node_limit header front (Hessian (Short (length front))) }
{}

//! Laws of bodies that are read, as functions whose clauses are the laws. They do nothing when they are called.

ghost use Rattle.std.specs.Prelude.{◌≡◌, ℕ, List};
ghost use Rattle.hessian_graph.specs.Faults.{IsSound};
ghost use Rattle.hessian_graph.specs.InUse.{InOrderOfUse};
ghost use Rattle.hessian_reader.specs.Faults.{faults};
ghost use Rattle.hessian_reader.specs.Leaves.{hessian, node_limit};
ghost use Rattle.dubbo_header.specs.declared.header.Header.{Header};
ghost use Rattle.dubbo_bodies.specs.declared.message.Request.{Request};
ghost use Rattle.dubbo_bodies.specs.Refusals.{BodyCause, RequestRefusal};
ghost use Rattle.dubbo_bodies.specs.RequestBody.{RequestOf};
ghost use Rattle.dubbo_bodies.specs.RequestReading.{SaysTheSame};

/// A header and a body are one request at most, but for how its types and classes stand in their tables.
pub fn a_body_is_one_request()
    ensures { (header : Header) → (body : List ℕ) → (r s : Request)
        → RequestOf hessian node_limit header body r → RequestOf hessian node_limit header body s → SaysTheSame r s }
{}

/// What is read of a header and a body is one request, however the body is cut: the types and classes of its arguments stand
/// in the order of first use.
pub fn a_body_is_read_in_one_way()
    ensures { (header : Header) (body : List ℕ) (r s : Request) → IsSound r.args → IsSound s.args
        → InOrderOfUse r.args → InOrderOfUse s.args
        → RequestOf hessian node_limit header body r → RequestOf hessian node_limit header body s → r ≡ s }
{}

/// A header and a body that are a request aren't refused.
pub fn no_request_is_refused()
    ensures { (header : Header) → (body : List ℕ) → (r : Request) → (cause : BodyCause)
        → RequestOf hessian node_limit header body r → RequestRefusal hessian faults node_limit header body cause → ⊥ }
{}

/// A header and a body are refused as a request for one cause at most.
pub fn a_request_has_one_refusal()
    ensures { (header : Header) → (body : List ℕ) → (one other : BodyCause)
        → RequestRefusal hessian faults node_limit header body one → RequestRefusal hessian faults node_limit header body other → one ≡ other }
{}

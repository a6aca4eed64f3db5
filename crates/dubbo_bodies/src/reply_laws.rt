//! Laws of replies that are read, as functions whose clauses are the laws. They do nothing when they are called.

ghost use Rattle.std.specs.Prelude.{◌≡◌, List, ℕ};
ghost use Rattle.hessian_reader.specs.Leaves.{hessian, node_limit};
ghost use Rattle.hessian_reader.specs.Faults.{faults};
ghost use Rattle.dubbo_header.specs.declared.header.Header.{Header};
ghost use Rattle.dubbo_bodies.specs.declared.message.Reply.{Reply};
ghost use Rattle.dubbo_bodies.specs.RefusedReply.{IsSameReply};
ghost use Rattle.dubbo_bodies.specs.Refusals.{BodyCause, ReplyRefusal};
ghost use Rattle.dubbo_bodies.specs.ReplyBody.{ReplyOf};

/// A header and a body are at most one reply, graphs being compared with their names put in.
pub fn are_one_reply()
    ensures { (header : Header) (body : List ℕ) (a b : Reply)
        → ReplyOf hessian node_limit header body a → ReplyOf hessian node_limit header body b → IsSameReply a b }
{}

/// A header and a body that are a reply aren't refused.
pub fn no_reply_is_refused()
    ensures { (header : Header) (body : List ℕ) (reply : Reply) (cause : BodyCause)
        → ReplyOf hessian node_limit header body reply → ReplyRefusal hessian faults node_limit header body cause → ⊥ }
{}

/// A header and a body are refused as a reply for one cause at most.
pub fn a_reply_has_one_refusal()
    ensures { (header : Header) (body : List ℕ) (one other : BodyCause)
        → ReplyRefusal hessian faults node_limit header body one → ReplyRefusal hessian faults node_limit header body other → one ≡ other }
{}

//! What a frame asks of a provider.

ghost use Rattle.std.specs.Prelude.{◌≡◌};
ghost use Rattle.provider_pool.specs.Asked.{asked_by};

use dubbo_header::Header;

/// What a frame asks of a provider.
#[derive(Clone, Copy, Debug, PartialEq, Eq)]
pub(crate) enum Asked {
    /// A sign of life, as a two-way event does.
    Sign,
    /// A call, and a reply to it.
    Reply,
    /// A call, and no reply.
    Call,
    /// Nothing, as other events and replies do.
    Nothing,
}

/// What a frame with this header asks for.
pub(crate) fn what_is_asked(header: &Header) -> Asked
    ensures { result ≡ asked_by header.now }
{
    match (header.event, header.request, header.two_way) {
        (true, true, true) => Asked::Sign,
        (false, true, true) => Asked::Reply,
        (false, true, false) => Asked::Call,
        _ => Asked::Nothing,
    }
}

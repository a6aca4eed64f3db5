//! What bytes are a name.

ghost use Rattle.std.specs.Prelude.{MatchOption};
ghost use Rattle.hash_ring.specs.Names.{IsName, IsBadAt};

/// The most bytes that a name may have.
pub const NAME_LIMIT: usize = 255;

/// The place at which the bytes stop being a name, if they do: 0 where there are none.
pub(crate) fn bad_place(name: &[u8]) -> Option<usize>
    ensures { MatchOption result (IsName name.now) (λ at. IsBadAt name.now at) }
{
    if name.is_empty() {
        return Some(0);
    }
    for (at, byte) in name.iter().enumerate() {
        if at >= NAME_LIMIT || *byte < b'!' || *byte > b'~' {
            return Some(at);
        }
    }
    None
}

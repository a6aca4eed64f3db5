//! What a code begins, by the standard's bytecode map.

ghost use Rattle.std.specs.Prelude.{◌≡◌};
ghost use Rattle.hessian_scalars.specs.Codes.{opening_of};

/// What a code begins.
#[derive(Clone, Copy, Debug, PartialEq, Eq)]
pub enum Opening {
    /// A scalar, spelled by so many bytes with the code.
    Spelling(usize),
    /// A double.
    Double,
    /// Neither.
    Nothing,
}

/// What this code begins.
#[tactic(auto, unfolding(crate::specs::Codes::opening_of))]
pub fn classify(code: u8) -> Opening
    ensures { result ≡ opening_of code }
{
    match code {
        0x80..=0xbf => Opening::Spelling(1),
        0xc0..=0xcf => Opening::Spelling(2),
        0xd0..=0xd7 => Opening::Spelling(3),
        0xd8..=0xef => Opening::Spelling(1),
        0xf0..=0xff => Opening::Spelling(2),
        0x38..=0x3f => Opening::Spelling(3),
        b'I' => Opening::Spelling(5),
        0x4a => Opening::Spelling(9),
        0x4b => Opening::Spelling(5),
        b'L' => Opening::Spelling(9),
        0x59 => Opening::Spelling(5),
        b'F' => Opening::Spelling(1),
        b'N' => Opening::Spelling(1),
        b'T' => Opening::Spelling(1),
        0x44 | 0x5b..=0x5f => Opening::Double,
        _ => Opening::Nothing,
    }
}

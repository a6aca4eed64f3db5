//! Where a descriptor stands behind some of its bytes.

ghost use Rattle.std.specs.Prelude.{◌≡◌};
ghost use Rattle.dubbo_bodies.specs.Stages.{begun_by, stage_after};

/// Where a descriptor stands behind some of its bytes.
#[derive(Clone, Copy, Debug, PartialEq, Eq)]
pub enum Stage {
    /// Behind whole parameters.
    Between,
    /// Behind `[`, whose element is to come.
    Element,
    /// Behind `L`, with no byte of the name yet.
    Class,
    /// Behind `L` and at least one byte of the name.
    Name,
}

/// Where a parameter stands behind its first byte, or an array behind the first byte of its element.
#[tactic(auto, unfolding(crate::specs::Stages::begun_by))]
pub(crate) fn begun_by(byte: u8) -> Option<Stage>
    ensures { result ≡ begun_by byte }
{
    match byte {
        b'Z' | b'B' | b'C' | b'S' | b'I' | b'J' | b'F' | b'D' => Some(Stage::Between),
        b'[' => Some(Stage::Element),
        b'L' => Some(Stage::Class),
        _ => None,
    }
}

/// Where a descriptor stands one byte on, if it goes on with this byte.
pub(crate) fn stage_after(stage: Stage, byte: u8) -> Option<Stage>
    ensures { result ≡ stage_after stage byte }
{
    match stage {
        Stage::Between | Stage::Element => begun_by(byte),
        Stage::Class if byte == b';' => None,
        Stage::Name if byte == b';' => Some(Stage::Between),
        Stage::Class | Stage::Name => Some(Stage::Name),
    }
}

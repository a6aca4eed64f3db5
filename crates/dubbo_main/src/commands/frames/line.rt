//! The line of a frame.
ghost use Rattle.std.specs.Prelude.{◌≡◌, ◌++◌, ℕ, List, OnOk};
ghost use Rattle.dubbo_main.specs.Finding.{frame_of};
ghost use Rattle.dubbo_main.specs.FrameLines.{IsLineOf};

use super::heads::write_head;
use super::shown::write_shown;
use dubbo_header::Header;
use std::alloc::{AllocError, Global};

/// Appends the line of the frame with this header and this body, whose first byte stands at this place.
pub fn write_line(
    alloc: Global,
    text: &mut Vec<u8>,
    at: usize,
    header: &Header,
    body: &[u8],
) -> Result<(), AllocError>
    ensures { OnOk result ((line : List ℕ) × IsLineOf (record { at = at; frame = frame_of header.now body.now }) line
        × (text.new.items ≡ text.old.items ++ line)) }
{
    write_head(text, at, header)?;
    write_shown(alloc, text, header, body)?;
    text.extend_from_slice(b"\n")
}

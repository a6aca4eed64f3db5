//! What a line says of a frame's place and header.
ghost use Rattle.std.specs.Prelude.{◌≡◌, ◌++◌, OnOk, codes, decimal};
ghost use Rattle.dubbo_main.specs.FrameLines.{frame_head, kind_word};

use dubbo_header::Header;
use itoa::Buffer;
use std::alloc::AllocError;

/// Appends the place of a frame's first byte, its kind, and its id, status and length, a space between two.
pub fn write_head(text: &mut Vec<u8>, at: usize, header: &Header) -> Result<(), AllocError>
    ensures { OnOk result (text.new.items ≡ text.old.items ++ frame_head at header.now) }
{
    write_number(text, at as u64)?;
    text.push(b' ')?;
    text.extend_from_slice(kind_of(header).as_bytes())?;
    write_next(text, header.id)?;
    write_next(text, u64::from(header.status))?;
    write_next(text, u64::from(header.length))
}

/// The word for what a header begins.
fn kind_of(header: &Header) -> &'static str
    ensures { result.now ≡ kind_word header.now }
{
    if header.event {
        "event"
    } else if !header.request {
        "reply"
    } else if header.two_way {
        "request"
    } else {
        "oneway"
    }
}

/// Appends a space and a number.
fn write_next(text: &mut Vec<u8>, number: u64) -> Result<(), AllocError>
    ensures { OnOk result (text.new.items ≡ text.old.items ++ codes " " ++ decimal number) }
{
    text.push(b' ')?;
    write_number(text, number)
}

/// Appends a number in decimal.
pub fn write_number(text: &mut Vec<u8>, number: u64) -> Result<(), AllocError>
    ensures { OnOk result (text.new.items ≡ text.old.items ++ decimal number) }
{
    let mut digits = Buffer::new();
    text.extend_from_slice(digits.format(number).as_bytes())
}

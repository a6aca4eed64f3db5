//! Lists of bytes, as they are written.

ghost use Rattle.std.specs.Prelude.{◌≡◌, ◌*◌, ◌<◌, ◌≤◌, ◌++◌, All, OnOk, length, take};
ghost use Rattle.std.specs.List.{flat_map};
ghost use Rattle.graph_notation.specs.Elements.{hex_digit, hex_pair};

use std::alloc::AllocError;

/// How many bytes of a list are written in one go.
const BLOCK: usize = 64;

/// Bytes are below 256.
pub fn see(bytes: &[u8])
    ensures { All (λ b. b < 256) bytes.now }
{
    let _length = bytes.len();
}

/// A hexadecimal digit.
pub fn digit(number: u8) -> u8
    requires { number < 16 }
    ensures { result ≡ hex_digit number }
{
    if number < 10 {
        b'0' + number
    } else {
        0x57 + number
    }
}

/// Two digits for each byte of a block, and what is left of the room for them.
fn pairs_of(block: &[u8]) -> [u8; 128]
    requires { length block.now ≤ 64 }
    ensures { take (2 * length block.now) result ≡ flat_map hex_pair block.now }
{
    let mut pairs = [0; 128];
    for at in 0..block.len() {
        pairs[2 * at] = digit(block[at] / 16);
        pairs[2 * at + 1] = digit(block[at] % 16);
    }
    pairs
}

/// Appends two digits for each byte of a block.
#[inline(always)]
fn write_block(out: &mut Vec<u8>, block: &[u8]) -> Result<(), AllocError>
    requires { length block.now ≤ 64 }
    ensures { OnOk result (out.new.items ≡ out.old.items ++ flat_map hex_pair block.now) }
{
    let pairs = pairs_of(block);
    out.extend_from_slice(&pairs[..2 * block.len()])?;
    Ok(())
}

/// Appends two digits for each byte.
#[inline(never)]
pub fn write_pairs(out: &mut Vec<u8>, bytes: &[u8]) -> Result<(), AllocError>
    ensures { OnOk result (out.new.items ≡ out.old.items ++ flat_map hex_pair bytes.now) }
{
    let mut at = 0;
    while bytes.len() - at >= BLOCK {
        write_block(out, &bytes[at..at + BLOCK])?;
        at += BLOCK;
    }
    write_block(out, &bytes[at..])
}

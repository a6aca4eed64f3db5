//! The scalar at the front of bytes.

ghost use Rattle.std.specs.Prelude.{◌≡◌, ◌+◌, ◌*◌, length};
ghost use Rattle.hessian_scalars.specs.ScalarSpelling.{compact};
ghost use Rattle.hessian_scalars.specs.Codes.{IsLength, value_of_one, value_of_two, value_of_three, value_of_five, value_of_nine, value_of, front_of, EndsWithin};

use crate::code::{Opening, classify};
use crate::scalar::Scalar;

/// What stands at the front of bytes.
#[derive(Clone, Copy, Debug, PartialEq, Eq)]
pub enum Front {
    /// This scalar, which ends behind so many of the bytes.
    Whole(Scalar, usize),
    /// The beginning of a scalar.
    Part,
    /// A double's code.
    Double(u8),
    /// A code that begins neither.
    Other(u8),
}

/// What stands at the front of these bytes.
#[tactic(auto, unfolding(crate::specs::Codes::front_of))]
pub fn peek(bytes: &[u8]) -> Front
    ensures exact { result ≡ front_of bytes.now }
    ensures within { EndsWithin (length bytes.now) result }
{
    let [code, ..] = *bytes else {
        return Front::Part;
    };
    match classify(code) {
        Opening::Spelling(len) if bytes.len() < len => Front::Part,
        Opening::Spelling(len) => Front::Whole(decode(&bytes[..len]), len),
        Opening::Double => Front::Double(code),
        Opening::Nothing => Front::Other(code),
    }
}

/// The value of a whole spelling.
#[tactic(auto, unfolding(crate::specs::Codes::value_of))]
fn decode(bytes: &[u8]) -> Scalar
    requires { IsLength (length bytes.now) }
    ensures { result ≡ value_of bytes.now }
{
    match *bytes {
        [code] => one(code),
        [code, b0] => two(code, b0),
        [code, b1, b0] => three(code, b1, b0),
        [code, b3, b2, b1, b0] => five(code, [b3, b2, b1, b0]),
        [code, b7, b6, b5, b4, b3, b2, b1, b0] => { nine(code, [b7, b6, b5, b4, b3, b2, b1, b0]) }
        _ => unreachable!(),
    }
}

/// The value of a code alone.
fn one(code: u8) -> Scalar
    ensures { result ≡ value_of_one code }
{
    match code {
        0x80..=0xbf => Scalar::Int(code as i32 - 0x90),
        0xd8..=0xef => Scalar::Long(code as i64 - 0xe0),
        b'N' => Scalar::Null,
        _ => Scalar::Bool(code == b'T'),
    }
}

/// The value of a code and one byte.
fn two(code: u8, b0: u8) -> Scalar
    ensures { result ≡ value_of_two code b0 }
{
    match code {
        0xc0..=0xcf => Scalar::Int(with_byte(0xc8, code, b0)),
        _ => Scalar::Long(i64::from(with_byte(0xf8, code, b0))),
    }
}

/// The value of a code and two bytes.
fn three(code: u8, b1: u8, b0: u8) -> Scalar
    ensures { result ≡ value_of_three code b1 b0 }
{
    match code {
        0xd0..=0xd7 => Scalar::Int(with_two(0xd4, code, b1, b0)),
        _ => Scalar::Long(i64::from(with_two(0x3c, code, b1, b0))),
    }
}

/// The value of a code and four bytes.
fn five(code: u8, four: [u8; 4]) -> Scalar
    ensures { result ≡ value_of_five code four }
{
    let number = i32::from_be_bytes(four);
    match code {
        b'I' => Scalar::Int(number),
        0x59 => Scalar::Long(i64::from(number)),
        _ => Scalar::Date(i64::from(number) * 60000),
    }
}

/// The value of a code and eight bytes.
fn nine(code: u8, eight: [u8; 8]) -> Scalar
    ensures { result ≡ value_of_nine code eight }
{
    let number = i64::from_be_bytes(eight);
    match code {
        b'L' => Scalar::Long(number),
        _ => Scalar::Date(number),
    }
}

/// The number of a code and one byte, in a row whose code of zero is given.
pub(crate) fn with_byte(zero_code: u8, code: u8, b0: u8) -> i32
    ensures { result ≡ compact zero_code code 256 b0 }
{
    (code as i32 - zero_code as i32) * 256 + b0 as i32
}

/// The number of a code and two bytes, in a row whose code of zero is given.
pub(crate) fn with_two(zero_code: u8, code: u8, b1: u8, b0: u8) -> i32
    ensures { result ≡ compact zero_code code 65536 (b1 * 256 + b0) }
{
    (code as i32 - zero_code as i32) * 65536 + b1 as i32 * 256 + b0 as i32
}

//! The texts of the faults of bodies, descriptors and bytes, as commands and providers write them. They take no memory.

ghost use Rattle.std.specs.Prelude.{◌≡◌, ◌+◌, ◌<◌, ◌≤◌, ◌++◌, codes, length};
ghost use Rattle.std.specs.Fmt.{signed_decimal};
ghost use Rattle.dubbo_bodies.specs.FaultTexts.{coded, descriptor_words, hessian_words, hex_digit, numbered, placed, reply_words, request_words};

use crate::fault::{DescFault, RequestFault};
use crate::reply_fault::ReplyFault;
use arrayvec::ArrayString;
use hessian_reader::HessianFault;
use itoa::Buffer;

/// Room for the text of any fault.
pub type FaultText = ArrayString<48>;

/// The text of a fault of a reply: a word, its places and numbers in decimal, its codes in two hexadecimal digits; empty for want of memory.
pub fn reply_text(fault: ReplyFault) -> FaultText
    ensures { result.bytes ≡ reply_words fault }
{
    match fault {
        ReplyFault::BadSerial { number } => placed("serial", u64::from(number)),
        ReplyFault::Hessian(fault) => bytes_text(fault),
        ReplyFault::BadKind { number } => kind_text(number),
        ReplyFault::BadAttachments => word("attachments"),
        ReplyFault::OutOfMemory => FaultText::new(),
    }
}

/// The text of a fault of a request, in the same form.
pub fn request_text(fault: RequestFault) -> FaultText
    ensures { result.bytes ≡ request_words fault }
{
    match fault {
        RequestFault::BadSerial { number } => placed("serial", u64::from(number)),
        RequestFault::Hessian(fault) => bytes_text(fault),
        RequestFault::NotText { field } => placed("field", u64::from(field)),
        RequestFault::Descriptor(fault) => descriptor_text(fault),
        RequestFault::BadAttachments => word("attachments"),
        RequestFault::OutOfMemory => FaultText::new(),
    }
}

/// The text of a fault of bytes that are no values, in the same form.
pub fn bytes_text(fault: HessianFault) -> FaultText
    ensures { result.bytes ≡ hessian_words fault }
{
    match fault {
        HessianFault::Short { at } => placed("short", at as u64),
        HessianFault::Double { at, code } => coded("double", at, code),
        HessianFault::BadCode { at, code } => coded("code", at, code),
        HessianFault::BadText { at } => placed("text", at as u64),
        HessianFault::BadRef { at, number } => numbered("ref", at, number),
        HessianFault::BadType { at, number } => numbered("type", at, number),
        HessianFault::BadClass { at, number } => numbered("class", at, number),
        HessianFault::BadLength { at, number } => numbered("length", at, number),
        HessianFault::TooManyNodes { at } => placed("nodes", at as u64),
        HessianFault::Trailing { at } => placed("trailing", at as u64),
        HessianFault::OutOfMemory => FaultText::new(),
    }
}

/// The text of a fault of a descriptor, whose places count in the descriptor.
fn descriptor_text(fault: DescFault) -> FaultText
    ensures { result.bytes ≡ descriptor_words fault }
{
    match fault {
        DescFault::BadDescriptor { at } => placed("descriptor", at as u64),
        DescFault::TooManyArgs { at } => placed("arguments", at as u64),
    }
}

/// The text of a kind that is none.
fn kind_text(number: i32) -> FaultText
    ensures { result.bytes ≡ codes "kind " ++ signed_decimal number }
{
    let mut text = word("kind ");
    let mut digits = Buffer::new();
    text.push_str(digits.format(number));
    text
}

/// A word by itself.
fn word(word: &str) -> FaultText
    requires { length word.now ≤ 12 }
    ensures { result.bytes ≡ word.now }
{
    let mut text = FaultText::new();
    text.push_str(word);
    text
}

/// A word and a place, or another number.
fn placed(word: &str, number: u64) -> FaultText
    requires { length word.now ≤ 12 }
    ensures bytes { result.bytes ≡ placed word.now number }
    ensures short { length result.bytes ≤ length word.now + 21 }
{
    let mut text = FaultText::new();
    let mut digits = Buffer::new();
    text.push_str(word);
    text.push_str(" ");
    text.push_str(digits.format(number));
    text
}

/// A word, a place and a number.
fn numbered(word: &str, at: usize, number: i32) -> FaultText
    requires { length word.now ≤ 12 }
    ensures { result.bytes ≡ numbered word.now at number }
{
    let mut text = placed(word, at as u64);
    let mut digits = Buffer::new();
    text.push_str(" ");
    text.push_str(digits.format(number));
    text
}

/// A word, a place and a byte in two hexadecimal digits.
fn coded(word: &str, at: usize, code: u8) -> FaultText
    requires { length word.now ≤ 12 }
    ensures { result.bytes ≡ coded word.now at code }
{
    let mut text = placed(word, at as u64);
    text.push_str(" ");
    text.push(hex(code / 16));
    text.push(hex(code % 16));
    text
}

/// A hexadecimal digit in lower case.
fn hex(digit: u8) -> char
    requires { digit < 16 }
    ensures { result ≡ hex_digit digit }
{
    if digit < 10 {
        (b'0' + digit) as char
    } else {
        (b'W' + digit) as char
    }
}

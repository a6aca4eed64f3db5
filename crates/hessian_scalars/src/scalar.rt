//! A value without parts.

/// A value that is spelled by a code and at most eight bytes.
#[derive(Clone, Copy, Debug, PartialEq, Eq, Hash)]
pub enum Scalar {
    /// No value.
    Null,
    /// False or true.
    Bool(bool),
    /// A number of 32 bits.
    Int(i32),
    /// A number of 64 bits.
    Long(i64),
    /// A moment, in milliseconds since 1970 UTC.
    Date(i64),
}

//! What a token may be by itself.

use hessian_graph::{Chars, Value};

/// A token of one byte that has a meaning.
#[derive(Clone, Copy, Debug, PartialEq, Eq)]
pub enum Mark {
    /// `[`
    BeginList,
    /// `]`
    EndList,
    /// `{`
    BeginMap,
    /// `}`
    EndMap,
    /// `(`
    BeginFields,
    /// `)`
    EndFields,
    /// `,`
    Comma,
    /// `:`
    Colon,
    /// `!`
    Named,
}

/// What a token is by itself.
#[derive(Drop)]
pub enum Element {
    /// A value that is neither a text nor a node.
    Plain(Value),
    /// A text: a value, or the name of a type, a class or a field.
    Words(Chars),
    /// The number of a node that was begun before.
    Reference(u32),
    /// A mark.
    Sign(Mark),
}

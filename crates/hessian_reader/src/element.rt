//! The elements that bytes are made of.

ghost use Rattle.std.specs.Prelude.{◌≡◌};
ghost use Rattle.hessian_reader.specs.Steps.{natural_of};

use hessian_graph::{Chars, Value};

/// What stands behind the type of a node.
#[derive(Clone, Copy)]
pub enum Form {
    /// Values up to `Z`.
    Open,
    /// A length and values.
    Long,
    /// So many values.
    Short(usize),
    /// Pairs up to `Z`.
    Pairs,
}

/// A code in a value's place that begins no leaf.
#[derive(Clone, Copy)]
pub enum Head {
    /// A reference, whose number follows.
    Refer,
    /// A list without a type, of so many values.
    ShortList(usize),
    /// A list without a type, up to `Z`.
    OpenList,
    /// A list without a type, whose length follows.
    LongList,
    /// A list or a map whose type follows.
    Typed(Form),
    /// A map without a type.
    OpenMap,
    /// The definition of a class.
    Define,
    /// An object of the class of this number.
    ShortObject(u8),
    /// An object, whose class number follows.
    LongObject,
    /// `Z`.
    End,
}

/// What the next bytes stand for.
#[derive(Drop)]
pub enum Element {
    /// A leaf in a value's place.
    Plain(Value),
    /// A code in a value's place.
    Code(Head),
    /// An int in the place of a length, a count or a number.
    Number(i32),
    /// A text in the place of a name or a type.
    Words(Chars),
}

/// Which elements a place takes.
#[derive(Clone, Copy)]
pub enum Want {
    /// A leaf or a code.
    AnyValue,
    /// An int.
    AnInt,
    /// A text or an int.
    AType,
    /// A text.
    AText,
}

/// A number that isn't negative.
pub fn natural(number: i32) -> Option<u32>
    ensures { result ≡ natural_of number }
{
    u32::try_from(number).ok()
}

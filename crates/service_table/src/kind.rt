//! What services do with their arguments.

ghost use Rattle.std.specs.Prelude.{◌≡◌};
ghost use Rattle.service_table.specs.Rows.{needs};

/// What a service does with its arguments.
#[derive(Clone, Copy, Debug, PartialEq, Eq)]
pub enum Kind {
    /// Answers null.
    Void,
    /// Answers its first argument.
    Echo,
    /// Answers a new list, without a type, of all its arguments.
    Args,
    /// Answers a new list, without a type, that has its first argument twice. The argument is shared.
    Twice,
    /// Answers its first argument with the items from the last to the first, in a new list of the same type. What is no
    /// list is answered as it is.
    Reverse,
    /// Adds the ints and longs of the list that is its first argument, or answers the int or long that is, as a long.
    Sum,
    /// Answers a new object of the class `demo.Knot`: its field `self` is the object, and `value` the first argument.
    Knot,
    /// Throws its first argument.
    Throw,
}

impl Kind {
    /// How many arguments a service of this kind needs at least.
    pub fn needs(self) -> u32
        ensures { result ≡ needs self }
    {
        match self {
            Kind::Void | Kind::Args => 0,
            Kind::Echo | Kind::Twice | Kind::Reverse | Kind::Sum | Kind::Knot | Kind::Throw => 1,
        }
    }
}

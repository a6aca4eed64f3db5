//! What a command makes of its input.

/// What is printed of a whole input, and whether that is refused or damaged.
#[derive(Drop)]
pub enum Answer {
    /// The command took the whole input.
    Done(Vec<u8>),
    /// The input is a script that is refused: the one line printed says where and why.
    Refused(Vec<u8>),
    /// The input is damaged: the last line printed says where.
    Damaged(Vec<u8>),
}

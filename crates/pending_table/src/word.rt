//! The word that shows the state of a slot. It is packed and unpacked here alone.
ghost use Rattle.std.specs.Prelude.{◌≡◌, ◌⊎◌, ℕ, ◌+◌, ◌*◌, ◌<◌, ◌≤◌, ◌^◌};
ghost use Rattle.pending_table.specs.Words.{id_of, word_of};

/// The state of a slot, with the last id that was opened there.
///
/// ```text
/// Unused --> Waiting --> Claimed --> Done --> Free --> Waiting with a greater id
///               |                               ^
///               +-------------------------------+
/// ```
#[derive(Clone, Copy, Debug, PartialEq, Eq)]
pub enum SlotState {
    Unused,
    Free { id: u64 },
    Waiting { id: u64 },
    Claimed { id: u64 },
    Done { id: u64 },
}

/// The word of a state: 0 where the slot is unused, else four times one more than the id, and a tag.
pub(crate) fn to_word(state: SlotState) -> u64
    requires { id_of state < 2 ^ 60 }
    ensures { result ≡ word_of state }
{
    match state {
        SlotState::Unused => 0,
        SlotState::Free { id } => 4 * (id + 1),
        SlotState::Waiting { id } => 4 * (id + 1) + 1,
        SlotState::Claimed { id } => 4 * (id + 1) + 2,
        SlotState::Done { id } => 4 * (id + 1) + 3,
    }
}

/// The state that a word shows.
pub(crate) fn from_word(word: u64) -> SlotState
    requires { (word ≡ 0) ⊎ (4 ≤ word) }
    ensures { word_of result ≡ word }
{
    if word == 0 {
        return SlotState::Unused;
    }
    let id = word / 4 - 1;
    match word % 4 {
        0 => SlotState::Free { id },
        1 => SlotState::Waiting { id },
        2 => SlotState::Claimed { id },
        _ => SlotState::Done { id },
    }
}

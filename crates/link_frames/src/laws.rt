//! What holds of the frames of every stream, whoever reads or writes it.

ghost use Rattle.std.specs.Prelude.{◌≡◌, ℕ, List, [], ◌∷◌, ◌++◌, take};
ghost use Rattle.std.specs.List.{AllByRecursion};
ghost use Rattle.link_frames.specs.Frames.{Frame, Placed, IsFrame, HasFrames, FramesOf, frame_bytes, joined, placed};
ghost use Rattle.link_frames.specs.Paused.{IsUnfinished};
ghost use Rattle.dubbo_header.specs.Header.{SpellsNone};

/// A stream has its frames in one way alone.
pub fn frames_are_unique()
    ensures frames { (bytes : List ℕ) (frames others : List Frame) (rest more : List ℕ)
        → HasFrames bytes frames rest → HasFrames bytes others more
        → (frames ≡ others) × (rest ≡ more) }
    ensures placed { (bytes : List ℕ) (found other : List Placed) (rest more : List ℕ)
        → FramesOf bytes found rest → FramesOf bytes other more
        → (found ≡ other) × (rest ≡ more) }
{}

/// The frames of a prefix of a stream are the first of its frames, at the same places.
pub fn frames_of_a_prefix()
    ensures { (bytes more : List ℕ) (found all : List Placed) (rest end : List ℕ)
        → FramesOf bytes found rest → FramesOf (bytes ++ more) all end
        → (later : List Placed) × (all ≡ found ++ later) }
{}

/// Frames that are joined are exactly the frames of the stream that they make, and nothing is left.
pub fn frames_of_joined()
    ensures { (frames : List Frame) → AllByRecursion IsFrame frames
        → FramesOf (joined frames) (placed 0 frames) [] }
{}

/// What a reader finds one by one are the frames of the stream.
///
/// Before the first byte that no frame takes stands a frame, an unfinished one, or what is no header.
pub fn frames_one_by_one()
    ensures first { (bytes behind : List ℕ) (frame : Frame) (frames : List Frame) (rest : List ℕ)
        → IsFrame frame → bytes ≡ frame_bytes frame ++ behind
        → HasFrames behind frames rest → HasFrames bytes (frame ∷ frames) rest }
    ensures unfinished { (bytes : List ℕ) → IsUnfinished bytes → HasFrames bytes [] bytes }
    ensures broken { (bytes : List ℕ) → SpellsNone (take 16 bytes) → HasFrames bytes [] bytes }
{}

//! Bytes cut into lines and fields.

ghost use Rattle.std.specs.Prelude.{◌≡◌, ◌≢◌, ◌==◌, ◌+◌, ◌<◌, ◌++◌, ◌∷◌, [], ℕ, suc, List, length, MatchOption};
ghost use Rattle.std.specs.List.{All, position};
ghost use Rattle.call_plan.specs.Pieces.{pieces};
ghost use Rattle.call_plan.specs.ScriptLines.{lines_of};

/// The first line, without its line feed, and what follows it. The last line may lack its line feed.
pub fn first_line(bytes: &[u8]) -> (&[u8], &[u8])
    requires { 0 < length bytes.now }
    ensures cut { lines_of bytes.now ≡ result.0.now ∷ lines_of result.1.now }
    ensures shorter { length result.1.now + length result.0.now < length bytes.now + 1 }
    ensures less { length result.1.now < length bytes.now }
{
    match cut_at(bytes, b'\n') {
        Some(cut) => cut,
        None => bytes.split_at(bytes.len()),
    }
}

/// The field at the front of a line, which ends at the first space, and what follows that space.
pub fn field(bytes: &[u8]) -> Option<(&[u8], &[u8])>
    ensures { MatchOption result ((n : ℕ) → pieces n bytes.now ≡ bytes.now ∷ [])
        (λ cut. (n : ℕ) → pieces (suc n) bytes.now ≡ cut.0.now ∷ pieces n cut.1.now) }
{
    cut_at(bytes, b' ')
}

/// What stands before the first byte of this value, and what follows it.
fn cut_at(bytes: &[u8], mark: u8) -> Option<(&[u8], &[u8])>
    ensures { MatchOption result (All (λ byte. byte ≢ mark) bytes.now)
        (λ cut. All (λ byte. byte ≢ mark) cut.0.now × (bytes.now ≡ cut.0.now ++ mark ∷ cut.1.now)) }
{
    let place = place_of(bytes, mark)?;
    Some((&bytes[..place], &bytes[place + 1..]))
}

/// The place of the first byte of this value.
fn place_of(bytes: &[u8], mark: u8) -> Option<usize>
    ensures { result ≡ position (λ byte. byte == mark) bytes.now }
{
    bytes.iter().position(|byte| *byte == mark)
}

//! Bytes cut into lines, or behind a text.
ghost use Rattle.std.specs.Prelude.{◌≡◌, ◌≢◌, ◌==◌, ◌<◌, ◌++◌, ◌∷◌, length, ℕ, List, MatchOption};
ghost use Rattle.std.specs.List.{All, position};
ghost use Rattle.dubbo_play.specs.FirstScript.{lines_of};

/// The first line, without its line feed, and what follows it. The last line may lack its line feed.
pub fn first_line(bytes: &[u8]) -> (&[u8], &[u8])
    requires { 0 < length bytes.now }
    ensures cut { lines_of bytes.now ≡ result.0.now ∷ lines_of result.1.now }
    ensures shorter { length result.1.now < length bytes.now }
{
    match cut_at(bytes, b'\n') {
        Some(cut) => cut,
        None => bytes.split_at(bytes.len()),
    }
}

/// What stands before the first byte of this value, and what follows it.
fn cut_at(bytes: &[u8], mark: u8) -> Option<(&[u8], &[u8])>
    ensures { MatchOption result (All (λ byte. byte ≢ mark) bytes.now)
        (λ cut. All (λ byte. byte ≢ mark) cut.0.now × (bytes.now ≡ cut.0.now ++ mark ∷ cut.1.now)) }
{
    let place = place_of(bytes, mark)?;
    Some((&bytes[..place], &bytes[place + 1..]))
}

/// The place of the first byte of this value.
fn place_of(bytes: &[u8], mark: u8) -> Option<usize>
    ensures { result ≡ position (λ byte. byte == mark) bytes.now }
{
    bytes.iter().position(|byte| *byte == mark)
}

/// What follows this text, where the bytes begin with it.
pub fn after<'a>(bytes: &'a [u8], text: &[u8]) -> Option<&'a [u8]>
    ensures { MatchOption result ((rest : List ℕ) → bytes.now ≢ text.now ++ rest)
        (λ rest. bytes.now ≡ text.now ++ rest.now) }
{
    bytes.strip_prefix(text)
}

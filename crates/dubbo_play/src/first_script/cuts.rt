//! Bytes cut at a mark, or behind a text.

ghost use Rattle.std.specs.Prelude.{◌≡◌, ◌≢◌, ◌==◌, ℕ, ◌++◌, List, ◌∷◌, MatchOption};
ghost use Rattle.std.specs.List.{All, position};

/// What stands before the first byte of this value, and what follows it.
pub fn cut_at(bytes: &[u8], mark: u8) -> Option<(&[u8], &[u8])>
    ensures { MatchOption result (All (λ byte. byte ≢ mark) bytes.now)
        (λ cut. All (λ byte. byte ≢ mark) cut.0.now × (bytes.now ≡ cut.0.now ++ mark ∷ cut.1.now)) }
{
    let place = place_of(bytes, mark)?;
    Some((&bytes[..place], &bytes[place + 1..]))
}

/// The place of the first byte of this value.
fn place_of(bytes: &[u8], mark: u8) -> Option<usize>
    ensures { result ≡ position (λ byte. byte == mark) bytes.now }
{
    bytes.iter().position(|byte| *byte == mark)
}

/// What follows this text, where the bytes begin with it.
pub fn after<'a>(bytes: &'a [u8], text: &[u8]) -> Option<&'a [u8]>
    ensures { MatchOption result ((rest : List ℕ) → bytes.now ≢ text.now ++ rest)
        (λ rest. bytes.now ≡ text.now ++ rest.now) }
{
    bytes.strip_prefix(text)
}

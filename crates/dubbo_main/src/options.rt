//! The options of a command, and numbers in them.
ghost use Rattle.std.specs.Prelude.{◌≡◌, ◌≢◌, ◌<◌, ◌≤◌, ◌∷◌, [], ◌^◌, ℕ, List, MatchOption, codes, decimal, map, string_bytes};
ghost use Rattle.dubbo_main.specs.Words.{IsFirstOption, IsOption, HaveGenerated, HaveShow, show_word};

use crate::lines::after;
use crate::words::Show;
use itoa::Buffer;
use std::str;

/// How many roots the option `--roots` says, where it stands alone.
pub fn roots_of(options: &[String]) -> Option<u16>
    ensures { MatchOption result
        ((roots : ℕ) → roots ≤ 65535 → ¬ IsOption (codes "roots") (decimal roots) (map string_bytes options.now))
        (λ roots. IsOption (codes "roots") (decimal roots) (map string_bytes options.now)) }
{
    number(only_option(options, b"roots")?)
}

/// How many calls the options `--calls` and `--show` say, at most 4,096, and what is shown.
pub fn generated_of(options: &[String]) -> Option<(u16, Show)>
    ensures { MatchOption result
        ((calls : ℕ) (show : Show) → calls ≤ 4096 → ¬ HaveGenerated (map string_bytes options.now) calls show)
        (λ found. (found.0 ≤ 4096) × HaveGenerated (map string_bytes options.now) found.0 found.1) }
{
    match first_option(options, b"calls") {
        Some((value, rest)) => Some((calls(value)?, shown(rest)?)),
        None => shown_before(options),
    }
}

/// What the options say is shown: the summary where they say nothing.
fn shown(options: &[String]) -> Option<Show>
    ensures { MatchOption result ((show : Show) → ¬ HaveShow (map string_bytes options.now) show)
        (HaveShow (map string_bytes options.now)) }
{
    if options.is_empty() {
        return Some(Show::Summary);
    }
    show(only_option(options, b"show")?)
}

/// What the option `--show` says, and how many calls the option `--calls` behind it.
fn shown_before(options: &[String]) -> Option<(u16, Show)>
    ensures { MatchOption result
        ((calls : ℕ) (show : Show) (rest : List (List ℕ)) → calls ≤ 4096
        → IsFirstOption (codes "show") (show_word show) (map string_bytes options.now) rest
        → ¬ IsOption (codes "calls") (decimal calls) rest)
        (λ found. (found.0 ≤ 4096) × HaveGenerated (map string_bytes options.now) found.0 found.1) }
{
    let (word, rest) = first_option(options, b"show")?;
    let show = show(word)?;
    Some((calls(only_option(rest, b"calls")?)?, show))
}

/// What a word says is shown.
fn show(word: &[u8]) -> Option<Show>
    ensures { MatchOption result ((show : Show) → word.now ≢ show_word show) (λ show. word.now ≡ show_word show) }
{
    if word == b"summary".as_slice() {
        return Some(Show::Summary);
    }
    if word == b"script".as_slice() {
        return Some(Show::Script);
    }
    None
}

/// A number of calls that a script may have, at most 4,096, in decimal.
fn calls(bytes: &[u8]) -> Option<u16>
    ensures { MatchOption result ((n : ℕ) → n ≤ 4096 → bytes.now ≢ decimal n)
        (λ n. (n ≤ 4096) × (bytes.now ≡ decimal n)) }
{
    let calls = number(bytes)?;
    if calls <= 4096 { Some(calls) } else { None }
}

/// The value of the option of this name, where it stands alone.
fn only_option<'a>(options: &'a [String], name: &[u8]) -> Option<&'a [u8]>
    ensures { MatchOption result
        ((value : List ℕ) → ¬ IsOption name.now value (map string_bytes options.now))
        (λ value. IsOption name.now value.now (map string_bytes options.now)) }
{
    let (value, rest) = first_option(options, name)?;
    if rest.is_empty() { Some(value) } else { None }
}

/// The value of the option of this name, where it is the first, and the options behind it.
fn first_option<'a>(options: &'a [String], name: &[u8]) -> Option<(&'a [u8], &'a [String])>
    ensures { MatchOption result
        ((value : List ℕ) (rest : List (List ℕ)) → ¬ IsFirstOption name.now value (map string_bytes options.now) rest)
        (λ found. IsFirstOption name.now found.0.now (map string_bytes options.now) (map string_bytes found.1.now)) }
{
    match options {
        [word, rest @ ..] => option_of(word.as_bytes(), name, rest),
        [] => None,
    }
}

/// The value of the option that this word begins, and the options behind it, where the option has this name.
fn option_of<'a>(
    word: &'a [u8],
    name: &[u8],
    rest: &'a [String],
) -> Option<(&'a [u8], &'a [String])>
    ensures { MatchOption result
        ((value : List ℕ) (more : List (List ℕ)) → ¬ IsFirstOption name.now value (word.now ∷ map string_bytes rest.now) more)
        (λ found. IsFirstOption name.now found.0.now (word.now ∷ map string_bytes rest.now) (map string_bytes found.1.now)) }
{
    let behind = after(after(word, b"--")?, name)?;
    if behind.is_empty() {
        return next_word(rest);
    }
    Some((after(behind, b"=")?, rest))
}

/// The first of the words, and the others.
fn next_word(words: &[String]) -> Option<(&[u8], &[String])>
    ensures { MatchOption result (map string_bytes words.now ≡ [])
        (λ found. map string_bytes words.now ≡ found.0.now ∷ map string_bytes found.1.now) }
{
    match words {
        [word, rest @ ..] => Some((word.as_bytes(), rest)),
        [] => None,
    }
}

/// A number below 65,536 in decimal, with no sign and no leading zero.
fn number(bytes: &[u8]) -> Option<u16>
    ensures { MatchOption result ((n : ℕ) → n < 2 ^ 16 → bytes.now ≢ decimal n)
        (λ n. (n < 2 ^ 16) × (bytes.now ≡ decimal n)) }
{
    let number = str::from_utf8(bytes).ok()?.parse::<u16>().ok()?;
    let mut buffer = Buffer::new();
    if buffer.format(number).as_bytes() == bytes {
        Some(number)
    } else {
        None
    }
}

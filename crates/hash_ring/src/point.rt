//! The points of names, and how they are put into an ordered set and taken out of it.

ghost use Rattle.std.specs.Prelude.{◌≡◌, ◌++◌, ◌<◌, ◌*◌, ◌+◌, decimal, OnOk, OnErr};
ghost use Rattle.md5.specs.Md5.{md5};
ghost use Rattle.hash_ring.specs.Points.{part, number_at as number_of_four};

use itoa::Buffer;
use md5::{Digest, Md5};

/// A point of the ring, ordered by number and then by the bytes of the name.
#[derive(PartialEq, Eq, PartialOrd, Ord, Drop)]
pub(crate) struct Point {
    pub(crate) number: u32,
    pub(crate) name: String,
}

/// The number at which a key comes to the ring.
#[tactic(auto, unfolding(crate::specs::Points::part))]
pub(crate) fn key_number(key: &[u8]) -> u32
    ensures { result ≡ part key.now 0 }
{
    number_at(&Md5::digest(key), 0)
}

/// The number that four bytes of a digest are, the least significant first.
pub(crate) fn number_at(digest: &[u8; 16], quarter: usize) -> u32
    requires { quarter < 4 }
    ensures { result ≡ number_of_four digest.now quarter }
{
    let at = 4 * quarter;
    u32::from_le_bytes([digest[at], digest[at + 1], digest[at + 2], digest[at + 3]])
}

/// The digest of a name with a count behind it.
pub(crate) fn digest_of(name: &str, round: u8) -> [u8; 16]
    ensures { result ≡ md5 (name.now ++ decimal round) }
{
    let mut hasher = Md5::new();
    hasher.update(name.as_bytes());
    let mut buffer = Buffer::new();
    hasher.update(buffer.format(round).as_bytes());
    hasher.finalize()
}

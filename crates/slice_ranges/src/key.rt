//! Slice keys: application keys hashed to 63 bits.

ghost use Rattle.std.specs.Prelude.{◌≡◌, ◌<◌, ◌↔◌, IsSome, IfSome};
ghost use Rattle.slice_ranges.specs.Hash.{slice_key};

use sha2::{Digest, Sha256};
use std::marker::Model;

/// The number of slice keys, 2^63: slice keys are the numbers below it.
pub const KEYS: u64 = 1 << 63;

/// A slice key: the 63-bit hash of an application key, a number below [`KEYS`].
#[derive(Clone, Copy, Debug, PartialEq, Eq, PartialOrd, Ord, Hash)]
pub struct SliceKey {
    number: u64,
}

impl Model for SliceKey {
    ghost use Rattle.std.specs.Prelude.{ℕ, ◌<◌};
    ghost use Rattle.slice_ranges.specs.declared.key.TheConstants.{KEYS};

    ghost Value = { ℕ };

    ghost view = { λ k. k.number };

    ghost invariant = { λ k. k.number < KEYS };

    ghost inverse = { λ n. record { number = n } };
}

impl SliceKey {
    /// Returns the slice key with this number, or `None` if the number is [`KEYS`] or above.
    pub fn new(number: u64) -> Option<Self>
        ensures valid { IsSome result ↔ (number < KEYS) }
        ensures value { IfSome result (λ key. key ≡ number) }
    {
        if number < KEYS {
            Some(SliceKey { number })
        } else {
            None
        }
    }

    /// Returns the number of the key, which is below [`KEYS`].
    pub fn value(self) -> u64
        ensures value { result ≡ self }
        ensures in_range { result < KEYS }
    {
        self.number
    }
}

/// Returns the slice key of an application key, from its SHA-256 (FIPS 180-4).
///
/// The slice key is the first eight bytes of the digest, read with the most significant byte first
/// and shifted right by one bit.
pub fn slice_key(key: &[u8]) -> SliceKey
    ensures { result ≡ slice_key key.now }
{
    let digest = Sha256::digest(key);
    let [a, b, c, d, e, f, g, h, ..] = digest;
    SliceKey {
        number: u64::from_be_bytes([a, b, c, d, e, f, g, h]) >> 1,
    }
}

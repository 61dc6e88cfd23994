//! `HashKeys`, and `KeyedHasher` for maps whose keys are texts.
ghost use Rattle.std.specs.Prelude.{◌≡◌, length, slice_range};
ghost use Rattle.std.specs.Int.{w64, from_le_bytes};

use crate::number_hasher::word_of;
use std::hash::{BuildHasher, DefaultHasher, Hasher};
use std::io;
use std::random::RandomSource;

/// Two numbers by which the keys of a map are hashed. Whoever makes a trace and doesn't know them can't choose names or pages that collide.
/// They change nothing that a map answers.
#[derive(Clone, Copy, Debug, PartialEq, Eq)]
pub struct HashKeys {
    pub(crate) first: u64,
    pub(crate) second: u64,
}

impl HashKeys {
    /// Keys that everybody knows: for traces that weren't made to be slow.
    pub const KNOWN: HashKeys = HashKeys {
        first: 0,
        second: 0,
    };

    /// Keys that nobody can foretell. The error is the source's.
    pub fn random(source: &impl RandomSource) -> io::Result<HashKeys> {
        let mut bytes = [0; 16];
        source.fill_bytes(&mut bytes)?;
        Ok(HashKeys::of(&bytes))
    }

    // Eight bytes make each, in order.
    fn of(bytes: &[u8]) -> HashKeys
        requires { length bytes.now ≡ 16 }
        ensures first { result.first ≡ from_le_bytes w64 (slice_range bytes.now 0 8) }
        ensures second { result.second ≡ from_le_bytes w64 (slice_range bytes.now 8 16) }
    {
        HashKeys {
            first: word_of(&bytes[0..8]),
            second: word_of(&bytes[8..16]),
        }
    }
}

/// For maps with keys of any type. It is SipHash, and begins each hash by the two numbers.
#[derive(Clone, Copy)]
pub struct KeyedHasher {
    begun: DefaultHasher,
}

impl KeyedHasher {
    /// The hasher of these keys.
    pub fn new(keys: HashKeys) -> KeyedHasher {
        let mut begun = DefaultHasher::new();
        begun.write_u64(keys.first);
        begun.write_u64(keys.second);
        KeyedHasher { begun }
    }
}

impl BuildHasher for KeyedHasher {
    type Hasher = DefaultHasher;

    ghost build_hasher = { λ h. h.begun };

    fn build_hasher(&self) -> DefaultHasher {
        self.begun
    }
}

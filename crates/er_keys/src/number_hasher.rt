//! `NumberHasher`, for maps whose keys are numbers, or made of numbers.
ghost use Rattle.std.specs.Prelude.{◌≡◌, length};
ghost use Rattle.std.specs.Int.{w32, w64, from_le_bytes};
ghost use Rattle.er_keys.specs.Mixing.{mixed, with_word};

use crate::HashKeys;
use std::hash::{BuildHasher, Hasher};

/// For maps whose keys are numbers of 64 or 32 bits, or several of these, as sets of locks are. It costs less than a
/// [`KeyedHasher`](crate::KeyedHasher): it multiplies the number by one of 128 bits that the hash keys make, and takes the highest 32 of the
/// product's lowest 128 bits. Of several numbers each is first mixed with the highest 64 of these bits for the ones before it.
///
/// The lowest `n` bits of the hashes of two numbers agree under fewer than 2 of 2^`n` hash keys, whichever the numbers are. So numbers that
/// were chosen without the hash keys collide little more often than random ones. For several numbers there is no such bound, but whoever
/// doesn't know the hash keys doesn't know what the later ones are mixed with.
#[derive(Clone, Copy)]
pub struct NumberHasher {
    high: u64,
    low: u64,
    mixed: u64,
}

impl NumberHasher {
    /// The hasher of these keys.
    pub fn new(keys: HashKeys) -> NumberHasher {
        NumberHasher {
            high: keys.first ^ 0x9E37_79B9_7F4A_7C15,
            low: keys.second ^ 0x243F_6A88_85A3_08D3,
            mixed: 0,
        }
    }

    #[inline(always)]
    fn add(&mut self, word: u64)
        ensures { self.new ≡ with_word self.old word }
    {
        self.mixed = mixed(self.high, self.low, self.mixed ^ word);
    }
}

// The upper half of the lower 128 bits of a product.
#[inline(always)]
fn mixed(high: u64, low: u64, word: u64) -> u64
    ensures { result ≡ mixed high low word }
{
    let carried = (low as u128 * word as u128) >> 64;
    (carried as u64).wrapping_add(high.wrapping_mul(word))
}

/// The number of eight bytes, the lowest first.
#[inline(always)]
pub(crate) fn word_of(bytes: &[u8]) -> u64
    requires { length bytes.now ≡ 8 }
    ensures { result ≡ from_le_bytes w64 bytes.now }
{
    u64::from_le_bytes([
        bytes[0], bytes[1], bytes[2], bytes[3], bytes[4], bytes[5], bytes[6], bytes[7],
    ])
}

// The same of four bytes.
#[inline(always)]
fn half_of(bytes: &[u8]) -> u64
    requires { length bytes.now ≡ 4 }
    ensures { result ≡ from_le_bytes w32 bytes.now }
{
    u64::from(u32::from_le_bytes([bytes[0], bytes[1], bytes[2], bytes[3]]))
}

impl BuildHasher for NumberHasher {
    type Hasher = NumberHasher;

    ghost build_hasher = { λ h. h };

    #[inline(always)]
    fn build_hasher(&self) -> NumberHasher {
        *self
    }
}

impl Hasher for NumberHasher {
    ghost use Rattle.std.specs.Prelude.{◌/◌, ◌^◌};
    ghost use Rattle.er_keys.specs.Mixing.{written};

    ghost write = { written };

    ghost finish = { λ h. h.mixed / 2 ^ 32 };

    #[inline(always)]
    fn finish(&self) -> u64 {
        self.mixed >> 32
    }

    #[inline(always)]
    fn write(&mut self, bytes: &[u8]) {
        if bytes.len() == 8 {
            self.add(word_of(bytes));
        } else if bytes.len() == 4 {
            self.add(half_of(bytes));
        } else {
            for byte in bytes {
                self.add(u64::from(*byte));
            }
        }
    }
}

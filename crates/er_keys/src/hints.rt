//! Where the entries of a map stand, found without a hash as a rule.
ghost use Rattle.std.specs.Prelude.{◌≡◌, ◌<◌, nat_eq, slice_get, Some, None, IfSome, IfNone};
ghost use Rattle.indexmap.specs.IndexMap.{get, keys, index_map_len, IsUnique};

use crate::NumberHasher;
use indexmap::IndexMap;
use std::alloc::Global;

/// How many keys have a number at a time.
const SLOTS: u64 = 16_384;

/// The number that was noted last for a key, or for another key with the same lowest bits, or 0. So whoever asks must check what it gets: a
/// hint saves a search if it is right, and costs one comparison if it is wrong.
#[derive(Drop)]
pub struct Hints {
    noted: Vec<u32>,
}

impl Hints {
    /// Nothing is noted. It takes memory at the first note.
    pub fn new(alloc: Global) -> Hints {
        Hints {
            noted: Vec::new(alloc),
        }
    }

    /// What was noted for the key, as a rule.
    #[inline(always)]
    pub fn hint(&self, key: u64) -> usize {
        let noted = self.noted.get((key % SLOTS) as usize);
        noted.copied().unwrap_or(0) as usize
    }

    /// Notes a number for a key. Without memory it does nothing. No memory holds as many entries as a number of 2^32 or more needs.
    #[inline(always)]
    pub fn note(&mut self, key: u64, number: usize) {
        match self.noted.get_mut((key % SLOTS) as usize) {
            Some(noted) => *noted = (number % (1 << 32)) as u32,
            None => {
                let _ = self.noted.resize(SLOTS as usize, 0);
            }
        }
    }
}

/// Where the entry of this key stands. It looks at the one at `hint` first, and needs no hash if that is the one. So a hint may be wrong.
#[inline]
pub fn index_of<V>(map: &IndexMap<u64, V, NumberHasher>, hint: usize, key: u64) -> Option<usize>
    ensures key { IfSome result (λ index. slice_get (keys map.now) index ≡ Some key) }
    ensures within { IfSome result (λ index. index < index_map_len map.now) }
    ensures none { IfNone result (get nat_eq map.now key ≡ None) }
    ensures unique { IsUnique nat_eq map.now }
{
    match map.as_slice().get_index(hint) {
        Some((found, _)) if *found == key => Some(hint),
        _ => map.get_index_of(&key),
    }
}

//! Short names of plain bytes that appeared lately: they are compared as numbers, and found without a hash.
ghost use Rattle.std.specs.Prelude.{◌≡◌, ◌<◌, ◌≤◌, ◌+◌, ◌-◌, ◌++◌, ◌∷◌, ℕ, List, drop, length, IfSome};
ghost use Rattle.std.specs.List.{list_all};
ghost use Rattle.er_trace.specs.Names.{number_of, is_plain_byte, is_plain_name, is_shown_byte, is_shown_name};
ghost use Rattle.er_trace.specs.Inner.Recent.{unpacked, bytes_of, IsRight, AreRight, IsLed, LeadsRight};

use std::alloc::Global;

/// The number with these eight bytes as its digits, the first of them the lowest. What reads a line asks for it at many places, so it is short: the
/// toolchain doesn't make a function part of its caller if that would grow too large.
#[inline(always)]
fn packed_eight(bytes: &[u8]) -> u64
    requires { length bytes.now ≡ 8 }
    ensures { unpacked (length bytes.now) result ≡ bytes.now }
{
    match *bytes {
        [a, b, c, d, e, f, g, h] => u64::from_le_bytes([a, b, c, d, e, f, g, h]),
        _ => 0,
    }
}

/// The same of at most eight bytes. Each length has a form of its own, without a loop, so that bytes that lie side by side are loaded together.
#[inline(always)]
fn packed(bytes: &[u8]) -> u64
    requires { length bytes.now ≤ 8 }
    ensures { unpacked (length bytes.now) result ≡ bytes.now }
{
    match *bytes {
        [a] => u64::from_le_bytes([a, 0, 0, 0, 0, 0, 0, 0]),
        [a, b] => u64::from_le_bytes([a, b, 0, 0, 0, 0, 0, 0]),
        [a, b, c] => u64::from_le_bytes([a, b, c, 0, 0, 0, 0, 0]),
        [a, b, c, d] => u64::from_le_bytes([a, b, c, d, 0, 0, 0, 0]),
        [a, b, c, d, e] => u64::from_le_bytes([a, b, c, d, e, 0, 0, 0]),
        [a, b, c, d, e, f] => u64::from_le_bytes([a, b, c, d, e, f, 0, 0]),
        [a, b, c, d, e, f, g] => u64::from_le_bytes([a, b, c, d, e, f, g, 0]),
        [_, _, _, _, _, _, _, _] => packed_eight(bytes),
        _ => 0,
    }
}

/// The place of the first space among eight bytes, seen at once, or 8 and more. It proves nothing: whoever asks looks there.
#[inline(always)]
fn space_near(block: u64) -> usize {
    let others = block ^ 0x2020_2020_2020_2020;
    let spaces = others.wrapping_sub(0x0101_0101_0101_0101) & !others & 0x8080_8080_8080_8080;
    spaces.trailing_zeros() as usize / 8
}

/// Whether these are letters, digits, `_`, `.`, `:`, `/` and `-` alone.
pub(crate) fn are_plain(bytes: &[u8]) -> bool
    ensures { result ≡ list_all is_plain_byte bytes.now }
{
    bytes.iter().all(|byte| matches!(*byte, b'a'..=b'z' | b'A'..=b'Z' | b'-'..=b':' | b'_'))
}

/// Whether these are 1 to 128 such bytes.
pub(crate) fn is_plain_name(name: &[u8]) -> bool
    ensures { result ≡ is_plain_name name.now }
{
    !name.is_empty() && name.len() <= 128 && are_plain(name)
}

/// Whether these are bytes from `!` to `~` alone.
fn are_shown(bytes: &[u8]) -> bool
    ensures { result ≡ list_all is_shown_byte bytes.now }
{
    bytes.iter().all(|byte| matches!(*byte, b'!'..=b'~'))
}

/// Whether these are 1 to 128 such bytes.
pub(crate) fn is_shown_name(name: &[u8]) -> bool
    ensures { result ≡ is_shown_name name.now }
{
    !name.is_empty() && name.len() <= 128 && are_shown(name)
}

/// A number for the last 16 bytes of a name, in which long names of sites and locks differ most.
pub(crate) fn ending_of(bytes: &[u8]) -> u64 {
    let short = match bytes.last_chunk::<16>() {
        Some(ending) => ShortName::of(ending),
        None => ShortName::of(bytes),
    };
    short.map_or(0, |short| short.slot() as u64)
}

/// A name of 1 to 16 bytes: how many there are, the first eight as a number, and the others.
#[derive(Clone, Copy, Default, PartialEq)]
pub(crate) struct ShortName {
    pub(crate) len: usize,
    first: u64,
    rest: u64,
}

impl ShortName {
    /// The name of these bytes, if it is short.
    #[inline(always)]
    pub(crate) fn of(bytes: &[u8]) -> Option<ShortName>
        ensures bytes { IfSome result (λ short. bytes_of short ≡ bytes.now) }
        ensures some { IfSome result (λ short. (0 < short.len) × (short.len ≤ 16)) }
    {
        let len = bytes.len();
        if len == 0 || len > 16 {
            return None;
        }
        let (first, rest) = bytes.split_at(len.min(8));
        Some(ShortName {
            len,
            first: packed(first),
            rest: packed(rest),
        })
    }

    /// The bytes in front of a space, if they are at most seven.
    #[inline(always)]
    fn near_space(bytes: &[u8]) -> Option<ShortName>
        ensures bytes { IfSome result (λ short. bytes.now ≡ bytes_of short ++ 32 ∷ drop (short.len + 1) bytes.now) }
        ensures within { IfSome result (λ short. (short.len ≤ 8) × (short.len < length bytes.now)) }
    {
        if bytes.len() < 8 {
            return None;
        }
        let block = packed_eight(&bytes[..8]);
        let len = space_near(block);
        if len >= 8 || bytes[len] != b' ' {
            return None;
        }
        Some(ShortName {
            len,
            first: block % (1 << (8 * len)),
            rest: 0,
        })
    }

    /// The name of at most 15 bytes in front of a space, most often of at most seven.
    #[inline(always)]
    pub(crate) fn before_space(bytes: &[u8]) -> Option<ShortName>
        ensures bytes { IfSome result (λ short. bytes.now ≡ bytes_of short ++ 32 ∷ drop (short.len + 1) bytes.now) }
        ensures some { IfSome result (λ short. (0 < short.len) × (short.len ≤ 16)) }
        ensures within { IfSome result (λ short. short.len < length bytes.now) }
    {
        if let Some(short) = ShortName::near_space(bytes) {
            return if short.len > 0 { Some(short) } else { None };
        }
        let (front, back) = bytes.split_at_checked(8)?;
        let last = ShortName::near_space(back)?;
        Some(ShortName {
            len: 8 + last.len,
            first: packed_eight(front),
            rest: last.first,
        })
    }

    /// The name that the last bytes are, if they are at most eight and there are eight.
    #[inline(always)]
    pub(crate) fn at_end(bytes: &[u8], len: usize) -> Option<ShortName>
        ensures bytes { IfSome result (λ short. bytes_of short ≡ drop (length bytes.now - len) bytes.now) }
        ensures some { IfSome result (λ short. (0 < short.len) × (short.len ≤ 8)) }
    {
        if bytes.len() < 8 || len == 0 || len > 8 {
            return None;
        }
        let block = packed_eight(&bytes[bytes.len() - 8..]);
        Some(ShortName {
            len,
            first: block >> (64 - 8 * len),
            rest: 0,
        })
    }

    /// The slot that it goes to first.
    #[inline(always)]
    pub(crate) fn slot(self) -> usize {
        let spread = self.first.wrapping_mul(0x9e37_79b9_7f4a_7c15)
            ^ self.rest.wrapping_mul(0xc2b2_ae3d_27d4_eb4f);
        (spread >> 52) as usize
    }

    /// The slot that it goes to where the first has another name.
    fn other_slot(self) -> usize {
        let sum = self.first.wrapping_add(self.rest);
        (sum.wrapping_mul(0xc2b2_ae3d_27d4_eb4f) >> 52) as usize
    }
}

/// A name of plain bytes and its number. A name of no bytes, as there is by default, stands for none.
#[derive(Clone, Copy, Default)]
struct Slot {
    name: ShortName,
    number: u32,
}

/// A name of at most seven bytes and the space behind it as one number, and a mask as wide: most lines begin as the line before. That of no
/// name fits no bytes.
#[derive(Clone, Copy)]
pub(crate) struct Leading {
    front: u64,
    mask: u64,
    len: usize,
    number: u32,
}

impl Leading {
    /// No name.
    pub(crate) fn none() -> Leading
        ensures { (names : List (List ℕ)) → LeadsRight names result }
    {
        Leading {
            front: 1,
            mask: 0,
            len: 0,
            number: 0,
        }
    }

    /// The name of so many bytes that stands in front of these, if it has at most seven.
    #[inline(always)]
    pub(crate) fn of(bytes: &[u8], number: u32, len: usize) -> Leading
        ensures { (names : List (List ℕ)) → IsLed names bytes.now number len → LeadsRight names result }
    {
        if bytes.len() < 8 || len >= 8 {
            return Leading::none();
        }
        let mask = u64::MAX >> (56 - 8 * len);
        Leading {
            front: packed_eight(&bytes[..8]) & mask,
            mask,
            len,
            number,
        }
    }

    /// The number of the name, and how many bytes it has, if it stands in front of these.
    #[inline(always)]
    pub(crate) fn find(&self, bytes: &[u8]) -> Option<(u32, usize)>
        ensures { (names : List (List ℕ)) → LeadsRight names self.now → IfSome result (λ led. IsLed names bytes.now led.0 led.1) }
    {
        if bytes.len() < 8 || packed_eight(&bytes[..8]) & self.mask != self.front {
            return None;
        }
        Some((self.number, self.len))
    }
}

/// Names with their numbers, each in one of two slots. A name takes the second from another.
#[derive(Drop)]
pub(crate) struct RecentNames {
    slots: Vec<Slot>,
}

impl RecentNames {
    /// How many slots there are once there is a name.
    const SLOTS: usize = 4096;

    /// No names.
    pub(crate) fn new(alloc: Global) -> RecentNames
        ensures { (names : List (List ℕ)) → AreRight names result }
    {
        RecentNames {
            slots: Vec::new(alloc),
        }
    }

    /// The number of a name, if it has a slot.
    #[inline(always)]
    pub(crate) fn find(&self, name: ShortName) -> Option<u32>
        requires { 0 < name.len }
        ensures { (names : List (List ℕ)) → AreRight names self.now → IfSome result (λ number. IsRight names (bytes_of name) number) }
    {
        let slot = self.slots.get(name.slot())?;
        if slot.name == name {
            return Some(slot.number);
        }
        self.find_behind(name)
    }

    /// The same of a name that hasn't its first slot.
    #[inline(never)]
    fn find_behind(&self, name: ShortName) -> Option<u32>
        requires { 0 < name.len }
        ensures { (names : List (List ℕ)) → AreRight names self.now → IfSome result (λ number. IsRight names (bytes_of name) number) }
    {
        let slot = self.slots.get(name.other_slot())?;
        if slot.name != name {
            return None;
        }
        Some(slot.number)
    }

    /// The slot for a name that has none.
    fn place_for(&self, name: ShortName) -> usize {
        match self.slots.get(name.slot()) {
            Some(slot) if slot.name.len > 0 => name.other_slot(),
            _ => name.slot(),
        }
    }

    /// Puts a name that has no slot into one. Without memory for slots it does nothing.
    pub(crate) fn remember(&mut self, name: ShortName, number: u32)
        ensures { (names : List (List ℕ)) → AreRight names self.old → IsRight names (bytes_of name) number → AreRight names self.new }
    {
        if self.slots.is_empty() {
            self.make_slots();
        }
        let place = self.place_for(name);
        if place < self.slots.len() {
            self.slots[place] = Slot { name, number };
        }
    }

    /// Makes slots for names, if there is memory.
    fn make_slots(&mut self)
        ensures { (names : List (List ℕ)) → AreRight names self.old → AreRight names self.new }
    {
        let none = Slot::default();
        if let Ok(slots) = vec![in *self.slots.allocator(); none; RecentNames::SLOTS] {
            self.slots = slots;
        }
    }
}

//! Names, one behind another in one run of bytes, numbers in bytes, and addresses as text.
ghost use Rattle.std.specs.Prelude.{◌≡◌, ◌++◌, ◌<◌, ◌≤◌, ◌^◌, [], ◌∷◌, OnOk, OnErr, length};
ghost use Rattle.er_binary.specs.Numbers.{address_word, name_at, number};

use er_lines::hex_digit;
use std::alloc::{AllocError, Global};
use std::marker::Model;

/// What a call that puts bytes at the end of others gives.
pub(crate) type Put = Result<(), AllocError>;

// Where a name lies.
#[derive(Clone, Copy)]
pub(crate) struct Span {
    start: usize,
    end: usize,
}

/// Names, numbered from 0.
#[derive(Drop)]
pub struct Names {
    bytes: Vec<u8>,
    spans: Vec<Span>,
}

impl Model for Names {
    ghost use Rattle.std.specs.Prelude.{ℕ, List};

    ghost Value = { List (List ℕ) };

    ghost use Rattle.er_binary.specs.Inner.Spans.{cut_all, AreWithin};

    ghost view = { λ names. cut_all names.bytes.items names.spans.items };

    ghost invariant = { λ names. AreWithin names.bytes.items names.spans.items };
}

impl Names {
    /// No name.
    pub fn new(alloc: Global) -> Names
        ensures { result ≡ [] }
    {
        Names {
            bytes: Vec::new(alloc),
            spans: Vec::new(alloc),
        }
    }

    /// How many there are.
    pub fn len(&self) -> u64
        ensures { result ≡ length self.now }
    {
        self.spans.len() as u64
    }

    /// The name of a number, and no bytes if it has none.
    pub fn get(&self, n: u64) -> &[u8]
        ensures { result.now ≡ name_at self.now n }
    {
        match self.spans.get(n as usize) {
            Some(span) => &self.bytes[span.start..span.end],
            None => b"".as_slice(),
        }
    }

    /// Numbers the next name.
    pub(crate) fn push(&mut self, name: &[u8]) -> Put
        ensures ok { OnOk result (self.new ≡ self.old ++ name.now ∷ []) }
        ensures err { OnErr result (self.new ≡ self.old) }
    {
        let start = self.bytes.len();
        self.bytes.extend_from_slice(name)?;
        let end = self.bytes.len();
        self.spans.push(Span { start, end })?;
        Ok(())
    }
}

/// The number that bytes write, the lowest first. That of 1, 2 or 4 bytes is read at once.
#[inline(always)]
pub fn number(bytes: &[u8]) -> u64
    requires { length bytes.now ≤ 8 }
    ensures value { result ≡ number bytes.now }
    ensures bound { result < 256 ^ length bytes.now }
{
    match bytes {
        [a] => u64::from(*a),
        [a, b] => u64::from(u16::from_le_bytes([*a, *b])),
        [a, b, c, d] => u64::from(u32::from_le_bytes([*a, *b, *c, *d])),
        _ => {
            let mut at = bytes.len();
            let mut value = 0;
            while at > 0 {
                at -= 1;
                value = value * 256 + u64::from(bytes[at]);
            }
            value
        }
    }
}

/// Puts a space and an address.
pub(crate) fn put_address(out: &mut Vec<u8>, address: u64) -> Put
    ensures { OnOk result (out.new.items ≡ out.old.items ++ address_word address) }
{
    out.extend_from_slice(address_word(address).as_slice())
}

fn address_word(address: u64) -> [u8; 15]
    ensures { result ≡ address_word address }
{
    let mut word = *b" 0x000000000000";
    let mut left = address;
    let mut at = 15;
    while at > 3 {
        at -= 1;
        word[at] = hex_digit((left % 16) as u8);
        left /= 16;
    }
    word
}

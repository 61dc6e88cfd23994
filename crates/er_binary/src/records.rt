//! Records: what the bytes of one say.
ghost use Rattle.std.specs.Prelude.{◌≡◌, ◌<◌, ◌≤◌, ◌^◌, length, IfSome};
ghost use Rattle.er_binary.specs.Records.{IsSized, access_at, other_at, record_at, body_len, is_event, kind_of, signed, size_of};

use crate::names::number;
use Kind::*;

/// One above the greatest address.
pub(crate) const ADDRESS_END: u64 = 1 << 48;

/// What a record is of, if it isn't an access.
#[derive(Clone, Copy)]
pub enum Kind {
    Thread,
    Node,
    Lock,
    Unlock,
    ReadLock,
    ReadUnlock,
    FailedTry,
    Signal,
    Await,
    Start,
    Join,
    IgnoreOn,
    IgnoreOff,
    Reuse,
    Show,
    Level,
    Flow,
    ThreadName,
    LockName,
    Place,
    NewNode,
    Note,
    Fact,
    Lost,
    End,
}

/// An access: how many bytes, how far from the last address modulo 2^48, and its node if that is another than before.
#[derive(Clone, Copy)]
pub struct Access {
    pub writes: bool,
    pub size: u64,
    pub distance: u64,
    pub node: Option<u64>,
}

/// A record: an access, or a kind and its number.
#[derive(Clone, Copy)]
pub enum Record {
    Access(Access),
    Other(Kind, u64),
}

/// What a record says, and how many bytes say it.
#[derive(Clone, Copy)]
pub struct Head {
    pub says: Record,
    pub len: usize,
}

// The kinds, by their numbers.
static KINDS: [Kind; 32] = [
    Thread, Node, Lock, Unlock, ReadLock, ReadUnlock, Lock, ReadLock, FailedTry, FailedTry, Signal,
    Await, Start, Join, IgnoreOn, IgnoreOff, Reuse, Show, Level, Flow, Flow, ThreadName, LockName,
    Place, NewNode, Note, Fact, Fact, Fact, Fact, Lost, End,
];

// By two bits of the tag: the bytes of an operand, of a distance and of a node, the size of an access, and one above the greatest distance.
static OPERANDS: [usize; 4] = [1, 2, 4, 8];

static DISTANCES: [usize; 4] = [1, 2, 4, 6];

static SIZES: [u64; 3] = [1, 4, 8];

static NODES: [usize; 4] = [0, 1, 2, 4];

static SPANS: [u64; 4] = [1 << 8, 1 << 16, 1 << 32, 1 << 48];

/// The record at the front. None if there is none, or it isn't whole.
#[inline(always)]
pub fn record_at(bytes: &[u8]) -> Option<Head>
    ensures value { result ≡ record_at bytes.now }
    ensures within { IfSome result (λ head. (1 ≤ head.len) × (head.len ≤ length bytes.now)) }
    ensures sized { IfSome result (λ head. IsSized head.says) }
{
    let tag = *bytes.first()?;
    if tag < 128 {
        access_at(tag, bytes)
    } else {
        other_at(tag, bytes)
    }
}

#[inline(always)]
fn access_at(tag: u8, bytes: &[u8]) -> Option<Head>
    ensures value { result ≡ access_at tag bytes.now }
    ensures within { IfSome result (λ head. (1 ≤ head.len) × (head.len ≤ length bytes.now)) }
    ensures sized { IfSome result (λ head. IsSized head.says) }
{
    let bits = tag / 16 % 4;
    let distance_at = if bits == 3 { 2 } else { 1 };
    let node_at = distance_at + DISTANCES[(tag / 4 % 4) as usize];
    let len = node_at + NODES[(tag % 4) as usize];
    if bytes.len() < len {
        return None;
    }
    let size = size_of(bits, bytes[1]);
    if size == 0 || size > 16 {
        return None;
    }
    let says = Record::Access(Access {
        writes: tag >= 64,
        size,
        distance: signed(tag, number(&bytes[distance_at..node_at])),
        node: if tag % 4 == 0 {
            None
        } else {
            Some(number(&bytes[node_at..len]))
        },
    });
    Some(Head { says, len })
}

fn size_of(bits: u8, byte: u8) -> u64
    ensures { result ≡ size_of bits byte }
{
    if bits > 2 {
        u64::from(byte)
    } else {
        SIZES[bits as usize]
    }
}

fn signed(tag: u8, distance: u64) -> u64
    requires { distance < 2 ^ 48 }
    ensures { result ≡ signed tag distance }
{
    let span = SPANS[(tag / 4 % 4) as usize];
    if distance < span / 2 {
        distance
    } else {
        distance + (ADDRESS_END - span)
    }
}

#[inline(always)]
fn other_at(tag: u8, bytes: &[u8]) -> Option<Head>
    requires { 128 ≤ tag }
    ensures value { result ≡ other_at tag bytes.now }
    ensures within { IfSome result (λ head. (1 ≤ head.len) × (head.len ≤ length bytes.now)) }
    ensures sized { IfSome result (λ head. IsSized head.says) }
{
    let len = 1 + OPERANDS[(tag % 4) as usize];
    if bytes.len() < len {
        return None;
    }
    let says = Record::Other(kind_of((tag - 128) / 4), number(&bytes[1..len]));
    Some(Head { says, len })
}

fn kind_of(n: u8) -> Kind
    requires { n < 32 }
    ensures { result ≡ kind_of n }
{
    KINDS[n as usize]
}

impl Kind {
    /// How many bytes of a record with this number follow its head.
    pub(crate) fn body_len(self, number: u64) -> u64
        ensures { result ≡ body_len self number }
    {
        match self {
            Reuse => 6,
            NewNode => 5,
            ThreadName | LockName | Place | Note | Fact => number,
            _ => 0,
        }
    }

    /// Whether it is an event of a thread.
    pub(crate) fn is_event(self) -> bool
        ensures { result ≡ is_event self }
    {
        match self {
            Thread | Node | ThreadName | LockName | Place | NewNode | Note | Fact | Lost | End =>
                false,
            _ => true,
        }
    }
}

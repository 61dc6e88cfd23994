//! Event lines in their usual form, read in one pass over their bytes. One space stands between any two parts of a line:
//! - a name, `read` or `write`, an address of at most 12 hexadecimal digits, and perhaps a site that the version of the text allows
//! - a name, `lock`, `unlock`, `rlock` or `runlock`, and a lock
//! - a name, `show` and such an address, or `reuse`, such an address and a size, or `level` and a number
//! - a name, and `ignore-on` or `ignore-off`
//!
//! The steps are those of `parsing` and `adding`, in less than half the time. A line of any other form, or of a new thread, is left to
//! `parsing`. A name that is found among the recent ones of the trace needs no look at its bytes.
ghost use Rattle.std.specs.Prelude.{◌≡◌, ◌+◌, ◌<◌, ◌≤◌, ◌∷◌, ◌++◌, length, codes, ℕ, List, IfSome, Some, None};
ghost use Rattle.er_text.specs.Inner.FastPath.{EndsIn, IsLeadingThread, HexSoFar, AreLeadingDigits, IsLeadingAddress, IsFastAccess, IsFastLockEvent, IsFastReuse, IsFastLevel, IsFastAlone, IsFastOperation, IsFastLine, NumbersLock, NumbersSite, AddsOperation, AddsLine, lock_word, rare_word};
ghost use Rattle.er_text.specs.Events.{Reuses};
ghost use Rattle.er_text.specs.Trace.{kind_word};

use crate::adding::add_reuse;
use crate::naming::is_site_word;
use crate::parsing::{level_of, range_of};
use crate::verbs::Version;
use er_event::{Event, Kind, Level, LockId, Mode, Site, Step, ThreadId, Word, WordRange};
use er_lines::{class_of, is_name, name_of, name_text, number, site_text, split_at_space};
use er_trace::{Names, Trace};
use std::alloc::AllocError;
use std::simd::prelude::*;

/// Whether a step was added, unless memory was refused.
type Added = Result<bool, AllocError>;

// `read` and `write` with the space behind, as the last bytes of eight.
const READ: u64 = 0x2064_6165_7200_0000;

const WRITE: u64 = 0x2065_7469_7277_0000;

// The first four bytes of the other verbs: `lock`, `unlo`, `rloc` and `runl`.
const LOCK: u32 = 0x6b63_6f6c;

const UNLOCK: u32 = 0x6f6c_6e75;

const READ_LOCK: u32 = 0x636f_6c72;

const READ_UNLOCK: u32 = 0x6c6e_7572;

/// The kind of the access whose verb and a space stand in front, and what follows them. Both verbs go one way, since a processor can't guess which comes.
#[inline(always)]
fn leading_kind(bytes: &[u8]) -> Option<(Kind, &[u8])>
    ensures { IfSome result (λ parts. bytes.now ≡ kind_word parts.0 ++ 32 ∷ parts.1.now) }
{
    let [a, b, c, d, e, f, g, h, ..] = *bytes else {
        return None;
    };
    let is_write = a == b'w';
    let (shift, verb) = if is_write { (16, WRITE) } else { (24, READ) };
    if u64::from_le_bytes([a, b, c, d, e, f, g, h]) << shift != verb {
        return None;
    }
    let kind = if is_write { Kind::Write } else { Kind::Read };
    Some((kind, &bytes[5 + usize::from(is_write)..]))
}

/// Whether the lock event whose verb and a space stand in front is an acquire, its mode, and what follows them.
#[inline(always)]
fn leading_lock_verb(bytes: &[u8]) -> Option<(bool, Mode, &[u8])>
    ensures { IfSome result (λ parts. bytes.now ≡ lock_word parts.0 parts.1 ++ 32 ∷ parts.2.now) }
{
    let [a, b, c, d, rest @ ..] = bytes else {
        return None;
    };
    match (u32::from_le_bytes([*a, *b, *c, *d]), rest) {
        (LOCK, [b' ', rest @ ..]) => Some((true, Mode::Write, rest)),
        (UNLOCK, [b'c', b'k', b' ', rest @ ..]) => Some((false, Mode::Write, rest)),
        (READ_LOCK, [b'k', b' ', rest @ ..]) => Some((true, Mode::Read, rest)),
        (READ_UNLOCK, [b'o', b'c', b'k', b' ', rest @ ..]) => Some((false, Mode::Read, rest)),
        _ => None,
    }
}

/// A verb that few lines have, and that one operand or two follow.
#[derive(Clone, Copy)]
pub(crate) enum Rare {
    Show,
    Reuse,
    Level,
}

/// The verb of a show, a reuse or a level that stands in front with a space behind it, and what follows them.
fn leading_rare_verb(bytes: &[u8]) -> Option<(Rare, &[u8])>
    ensures { IfSome result (λ parts. bytes.now ≡ rare_word parts.0 ++ 32 ∷ parts.1.now) }
{
    match bytes {
        [b's', b'h', b'o', b'w', b' ', rest @ ..] => Some((Rare::Show, rest)),
        [b'r', b'e', b'u', b's', b'e', b' ', rest @ ..] => Some((Rare::Reuse, rest)),
        [b'l', b'e', b'v', b'e', b'l', b' ', rest @ ..] => Some((Rare::Level, rest)),
        _ => None,
    }
}

/// The thread whose name is known and stands in front of one space, and what follows that. A recent name is found sooner. It is a call of its own, so that
/// `add_usual` can be made part of its caller.
#[inline(never)]
fn any_leading_thread<'a>(names: &Names, bytes: &'a [u8]) -> Option<(ThreadId, &'a [u8])>
    ensures led { IfSome result (λ led. IsLeadingThread names.now.threads bytes.now led.0 led.1.now) }
{
    let (word, rest) = split_at_space(bytes);
    if rest.is_empty() {
        return None;
    }
    let thread = names.known_thread(name_of(word)?)?;
    Some((thread, rest))
}

/// The same, by a look at eight bytes if the name is recent. With `rare` only these names are tried: the others were tried before, and to hash this one
/// again takes longer than to leave the line to the parser.
#[inline(always)]
fn leading_thread<'a>(
    trace: &mut Trace,
    bytes: &'a [u8],
    rare: bool,
) -> Option<(ThreadId, &'a [u8])>
    ensures led { IfSome result (λ led. IsLeadingThread trace.old.names.threads bytes.now led.0 led.1.now) }
    ensures same { trace.new ≡ trace.old }
{
    match trace.leading_thread(bytes) {
        None if !rare => any_leading_thread(trace.names(), bytes),
        led => led,
    }
}

/// The value of the hexadecimal digits in front, of which at most 12 are read one by one, and how many these are.
fn digits_by_one(bytes: &[u8]) -> (u64, usize)
    ensures { AreLeadingDigits bytes.now result.0 result.1 }
{
    let most = bytes.len().min(12);
    let mut value = 0;
    for i in 0..most {
        let digit = class_of(bytes[i]);
        if digit >= 16 {
            return (value, i);
        }
        value = value * 16 + u64::from(digit);
    }
    (value, most)
}

/// The value of the twelve digits in front, if there are twelve: most addresses have as many, and a site behind them.
#[inline(always)]
fn twelve_digits(bytes: &[u8]) -> Option<u64>
    requires { 16 ≤ length bytes.now }
    ensures { IfSome result (λ value. HexSoFar bytes.now value 12) }
{
    let block = u8x16::from_slice(bytes);
    let numerals = block - u8x16::splat(b'0');
    // A small letter is its capital with the bit 0x20.
    let letters = (block | u8x16::splat(0x20)) - u8x16::splat(b'a');
    let are_digits = numerals.simd_lt(u8x16::splat(10)) | letters.simd_lt(u8x16::splat(6));
    // The lowest twelve bits are those of the first twelve bytes.
    if are_digits.to_bitmask() % 4096 != 4095 {
        return None;
    }
    // Of a digit below ten the number as a letter is larger, and of a letter the number as a numeral.
    let digits = numerals.simd_min(letters + u8x16::splat(10));
    // A product is a pair, and the same pair 12 bits higher. So its high byte has both digits, the first above the second.
    let pairs = (u16x8::from_le_bytes(digits) * u16x8::splat(0x1001)) >> 8;
    Some(u64::from_be_bytes(pairs.cast::<u8>().to_array()) >> 16)
}

/// The same where fewer than 16 bytes are left, as in a line without a site.
#[inline(never)]
fn twelve_last_digits(bytes: &[u8]) -> Option<u64>
    requires { 12 ≤ length bytes.now }
    ensures { IfSome result (λ value. HexSoFar bytes.now value 12) }
{
    let mut block = [0; 16];
    block[..12].copy_from_slice(&bytes[..12]);
    twelve_digits(&block)
}

/// The value of the hexadecimal digits in front, of which at most 12 are read, and how many these are.
#[inline(always)]
fn leading_digits(bytes: &[u8]) -> (u64, usize)
    ensures { AreLeadingDigits bytes.now result.0 result.1 }
{
    let twelve = match bytes.len() {
        0..12 => None,
        12..16 => twelve_last_digits(bytes),
        _ => twelve_digits(bytes),
    };
    match twelve {
        Some(value) => (value, 12),
        None => digits_by_one(bytes),
    }
}

/// The address that stands in front, and what follows it.
#[inline(always)]
fn leading_address(bytes: &[u8]) -> Option<(u64, &[u8])>
    ensures { IfSome result (λ parts. IsLeadingAddress bytes.now parts.0 parts.1.now) }
{
    let [b'0', b'x', digits @ ..] = bytes else {
        return None;
    };
    let (address, len) = leading_digits(digits);
    if len == 0 {
        return None;
    }
    Some((address, &digits[len..]))
}

/// The words of the bytes whose address and size stand here, with one space between them. None: it is something else, or there is no byte.
#[inline(always)]
fn whole_range(bytes: &[u8]) -> Option<WordRange>
    ensures { IfSome result (λ range. IsFastReuse bytes.now (Reuses (Some range) None)) }
{
    let (address, rest) = leading_address(bytes)?;
    let [b' ', size @ ..] = rest else {
        return None;
    };
    match number(size) {
        Ok(count) if is_name(size) => range_of(address, count).ok()?,
        _ => None,
    }
}

/// The level that a word writes, if it writes one.
fn whole_level(word: &[u8]) -> Option<Level>
    ensures { IfSome result (λ level. IsFastLevel word.now level) }
{
    match number(word) {
        Ok(count) if is_name(word) => level_of(count).ok(),
        _ => None,
    }
}

/// What stands behind a thread, if it is an ignore bracket, a show, or a level in a text that has any.
fn lone_event(version: Version, bytes: &[u8]) -> Option<Event>
    ensures { IfSome result (λ event. IsFastAlone version bytes.now event) }
{
    if bytes == b"ignore-on".as_slice() {
        return Some(Event::IgnoreOn);
    }
    if bytes == b"ignore-off".as_slice() {
        return Some(Event::IgnoreOff);
    }
    match leading_rare_verb(bytes)? {
        (Rare::Show, rest) => match leading_address(rest)? {
            (address, []) => Some(Event::Show(Word::new(address / Word::BYTES))),
            _ => None,
        },
        (Rare::Level, rest) if version.has_levels() => Some(Event::Level(whole_level(rest)?)),
        _ => None,
    }
}

/// The number of the site behind an address, which is the missing one if the line ends there. None: it is no site.
#[inline(always)]
fn site_behind(
    trace: &mut Trace,
    version: Version,
    whole: &[u8],
    rest: &[u8],
) -> Result<Option<Site>, AllocError>
    requires { EndsIn whole.now rest.now }
    ensures { NumbersSite version rest.now trace.old trace.new result }
{
    if rest.is_empty() {
        return Ok(Some(Site::MISSING));
    }
    let [b' ', word @ ..] = rest else {
        return Ok(None);
    };
    if word == b"-".as_slice() {
        return Ok(Some(Site::MISSING));
    }
    if let Some(site) = trace.names().last_site(whole, word.len()) {
        return Ok(Some(site));
    }
    if let Some(site) = trace.names().allowed_site(word, version.is_third()) {
        return Ok(Some(site));
    }
    if !is_site_word(version, word) {
        return Ok(None);
    }
    Ok(Some(trace.site(site_text(word))?))
}

/// The number of the lock whose name ends a line. None: the word is no name of a lock.
#[inline(always)]
fn last_lock(trace: &mut Trace, whole: &[u8], word: &[u8]) -> Result<Option<LockId>, AllocError>
    requires { EndsIn whole.now word.now }
    ensures { NumbersLock word.now trace.old trace.new result }
{
    if word == b"none".as_slice() {
        return Ok(None);
    }
    if let Some(lock) = trace.names().last_lock(whole, word.len()) {
        return Ok(Some(lock));
    }
    if !is_name(word) {
        return Ok(None);
    }
    Ok(Some(trace.lock(name_text(word))?))
}

/// Adds the access that stands behind its verb, and says whether it did.
#[inline(always)]
fn add_usual_access(
    trace: &mut Trace,
    version: Version,
    line: u64,
    thread: ThreadId,
    kind: Kind,
    whole: &[u8],
    bytes: &[u8],
) -> Added
    requires end { EndsIn whole.now bytes.now }
    requires thread { thread < length trace.old.names.threads }
    ensures { AddsOperation (IsFastAccess version kind bytes.now) line thread trace.old trace.new result }
{
    let Some(led) = leading_address(bytes) else {
        return Ok(false);
    };
    let word = Word::new(led.0 / Word::BYTES);
    let Some(site) = site_behind(trace, version, whole, led.1)? else {
        return Ok(false);
    };
    let event = Event::Access(kind, word, site);
    trace.push(Step { thread, event }, line, site)?;
    Ok(true)
}

/// Adds the acquire or the release of the lock that stands behind the verb, and says whether it did.
#[inline(always)]
fn add_usual_lock_event(
    trace: &mut Trace,
    line: u64,
    thread: ThreadId,
    acquires: bool,
    mode: Mode,
    whole: &[u8],
    bytes: &[u8],
) -> Added
    requires end { EndsIn whole.now bytes.now }
    requires thread { thread < length trace.old.names.threads }
    ensures { AddsOperation (IsFastLockEvent acquires mode bytes.now) line thread trace.old trace.new result }
{
    let Some(lock) = last_lock(trace, whole, bytes)? else {
        return Ok(false);
    };
    if acquires {
        let event = Event::Acquire(lock, mode);
        trace.push(Step { thread, event }, line, Site::MISSING)?;
        return Ok(true);
    }
    let event = Event::Release(lock, mode);
    trace.push(Step { thread, event }, line, Site::MISSING)?;
    Ok(true)
}

/// Adds a show, a reuse, a level or an ignore bracket, and says whether it did.
#[inline(never)]
fn add_rare_operation(
    trace: &mut Trace,
    version: Version,
    line: u64,
    thread: ThreadId,
    bytes: &[u8],
) -> Added
    requires { thread < length trace.old.names.threads }
    ensures { AddsOperation (IsFastOperation version bytes.now) line thread trace.old trace.new result }
{
    if let Some(event) = lone_event(version, bytes) {
        trace.push(Step { thread, event }, line, Site::MISSING)?;
        return Ok(true);
    }
    let Some((Rare::Reuse, rest)) = leading_rare_verb(bytes) else {
        return Ok(false);
    };
    let Some(range) = whole_range(rest) else {
        return Ok(false);
    };
    add_reuse(trace, line, thread, Some(range), Site::MISSING)?;
    Ok(true)
}

/// Adds what a thread does, and says whether it did: a show, a reuse, a level or a bracket if `rare` is set, and else any other.
#[inline(always)]
fn add_usual_operation(
    trace: &mut Trace,
    version: Version,
    line: u64,
    thread: ThreadId,
    whole: &[u8],
    bytes: &[u8],
    rare: bool,
) -> Added
    requires end { EndsIn whole.now bytes.now }
    requires thread { thread < length trace.old.names.threads }
    ensures { AddsOperation (IsFastOperation version bytes.now) line thread trace.old trace.new result }
{
    if rare {
        return add_rare_operation(trace, version, line, thread, bytes);
    }
    if let Some((kind, rest)) = leading_kind(bytes) {
        return add_usual_access(trace, version, line, thread, kind, whole, rest);
    }
    match leading_lock_verb(bytes) {
        Some((acquires, mode, rest)) => {
            add_usual_lock_event(trace, line, thread, acquires, mode, whole, rest)
        }
        None => Ok(false),
    }
}

/// Adds the steps of a line of 8 bytes and more in its usual form, if its thread is known, and says whether it did. Another line adds nothing.
/// With `rare` it reads shows, reuses, levels and brackets, else accesses and lock events. One call for both took 15 to 20 instructions more a line.
///
/// It makes no value of an enum with names in it: such a value is copied in pieces that are wider than its parts, and each copy
/// waits until the parts are written. It is made part of its caller only as long as it is small with all that is part of it: `docs/BENCHMARKS.md`, "Reading".
#[inline(always)]
pub(crate) fn add_usual(
    trace: &mut Trace,
    version: Version,
    line: u64,
    bytes: &[u8],
    rare: bool,
) -> Added
    ensures { AddsLine (IsFastLine version bytes.now) line trace.old trace.new result }
{
    if bytes.len() < 8 {
        return Ok(false);
    }
    match leading_thread(trace, bytes, rare) {
        Some(led) => add_usual_operation(trace, version, line, led.0, bytes, led.1, rare),
        None => Ok(false),
    }
}

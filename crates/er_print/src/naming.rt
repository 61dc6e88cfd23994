//! Addresses, events and states as text. Each is put behind the bytes that are there, with no text of its own in memory.
ghost use Rattle.std.specs.Prelude.{◌≡◌, ◌++◌, OnOk, codes};
ghost use Rattle.er_lines.specs.Number.{hex_digits};
ghost use Rattle.er_print.specs.Printed.{HasEventNames, HasLockNames, HasStateNames, address_text, candidates_text, event_text, event_verb, kind_text, state_text};

use crate::Put;
use crate::styles::{Style, put_lock_in, put_locks_in};
use er_event::{Event, Kind, Lockset, Mode, Sync, Word, WordState};
use er_lines::hex_digit;
use er_trace::Names;

/// Puts the address of the word's first byte.
pub fn put_address(out: &mut Vec<u8>, word: Word) -> Put
    ensures { OnOk result (out.new.items ≡ out.old.items ++ address_text word) }
{
    let low = word.address();
    let middle = low / 16 / 16 / 16 / 16;
    let high = middle / 16 / 16 / 16 / 16;
    out.extend_from_slice(b"0x")?;
    out.extend_from_slice(&four_digits(high))?;
    out.extend_from_slice(&four_digits(middle))?;
    out.extend_from_slice(&four_digits(low))?;
    Ok(())
}

// The last four hexadecimal digits of a number, to be put at once. `put_hex` puts them one by one, and took 25 instructions a digit.
fn four_digits(n: u64) -> [u8; 4]
    ensures { result ≡ hex_digits 4 n }
{
    [
        hex_digit((n / 16 / 16 / 16 % 16) as u8),
        hex_digit((n / 16 / 16 % 16) as u8),
        hex_digit((n / 16 % 16) as u8),
        hex_digit((n % 16) as u8),
    ]
}

/// The verb of an access.
pub fn verb(kind: Kind) -> &'static [u8]
    ensures { result.now ≡ kind_text kind }
{
    match kind {
        Kind::Read => b"read".as_slice(),
        Kind::Write => b"write".as_slice(),
    }
}

/// The verb of what a thread asked for.
pub fn event_verb(event: Event) -> &'static [u8]
    ensures { result.now ≡ event_verb event }
{
    match event {
        Event::Acquire(_, Mode::Write) => b"lock".as_slice(),
        Event::Acquire(_, Mode::Read) => b"rlock".as_slice(),
        Event::Release(_, Mode::Write) => b"unlock".as_slice(),
        Event::Release(_, Mode::Read) => b"runlock".as_slice(),
        Event::IgnoreOn => b"ignore-on".as_slice(),
        Event::IgnoreOff => b"ignore-off".as_slice(),
        Event::Access(kind, _, _) => verb(kind),
        Event::Reuse(_) => b"reuse".as_slice(),
        Event::Show(_) => b"show".as_slice(),
        Event::Level(_) => b"level".as_slice(),
        Event::Sync(Sync::Start(_)) => b"start".as_slice(),
        Event::Sync(Sync::Join(_)) => b"join".as_slice(),
        Event::Sync(Sync::Signal(_)) => b"signal".as_slice(),
        Event::Sync(Sync::Await(_)) => b"await".as_slice(),
    }
}

/// Puts the verb of an event, and the lock of a lock event.
pub(crate) fn put_event(out: &mut Vec<u8>, names: &Names, event: Event) -> Put
    requires { HasEventNames names.now event }
    ensures { OnOk result (out.new.items ≡ out.old.items ++ event_text names.now event) }
{
    out.extend_from_slice(event_verb(event))?;
    match &event {
        Event::Acquire(lock, _) | Event::Release(lock, _) => {
            out.extend_from_slice(b" ")?;
            put_lock_in(out, Style::Plain, names, *lock)
        }
        _ => Ok(()),
    }
}

/// Puts a space, and what `put_event` puts. A lock event takes two pieces.
#[inline]
pub(crate) fn put_event_behind(out: &mut Vec<u8>, names: &Names, event: Event) -> Put
    requires { HasEventNames names.now event }
    ensures { OnOk result (out.new.items ≡ out.old.items ++ (codes " " ++ event_text names.now event)) }
{
    out.extend_from_slice(match event {
        Event::Acquire(_, Mode::Write) => b" lock ".as_slice(),
        Event::Acquire(_, Mode::Read) => b" rlock ".as_slice(),
        Event::Release(_, Mode::Write) => b" unlock ".as_slice(),
        Event::Release(_, Mode::Read) => b" runlock ".as_slice(),
        _ => b" ".as_slice(),
    })?;
    match &event {
        Event::Acquire(lock, _) | Event::Release(lock, _) => {
            put_lock_in(out, Style::Plain, names, *lock)
        }
        _ => out.extend_from_slice(event_verb(event)),
    }
}

/// Puts the state of a word.
pub(crate) fn put_state(out: &mut Vec<u8>, names: &Names, state: &WordState) -> Put
    requires { HasStateNames names.now state.now }
    ensures { OnOk result (out.new.items ≡ out.old.items ++ state_text names.now state.now) }
{
    match state {
        WordState::Virgin => out.extend_from_slice(b"virgin"),
        WordState::Exclusive(thread) => {
            out.extend_from_slice(b"exclusive ")?;
            out.extend_from_slice(names.thread_name(*thread).as_bytes())
        }
        WordState::Shared(locks) => put_candidates(out, b"shared", names, locks),
        WordState::SharedModified(locks) => put_candidates(out, b"shared-modified", names, locks),
    }
}

fn put_candidates(out: &mut Vec<u8>, label: &[u8], names: &Names, locks: &Lockset) -> Put
    requires { HasLockNames names.now locks.now }
    ensures { OnOk result (out.new.items ≡ out.old.items ++ (label.now ++ candidates_text names.now locks.now)) }
{
    out.extend_from_slice(label)?;
    out.extend_from_slice(b", candidates ")?;
    put_locks_in(out, Style::Plain, names, locks.as_slice())
}

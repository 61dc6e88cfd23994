//! Lines that a reader has ready: their steps are added as those of their text would be.
ghost use Rattle.std.specs.Prelude.{◌≡◌, ◌+◌, ◌<◌, ◌≤◌, ◌^◌, OnOk, false, length, true};
ghost use Rattle.er_lines.specs.Ready.{IsRight, operand_name, thread_name};
ghost use Rattle.er_text.specs.Inner.Numbers.{AreRight};
ghost use Rattle.er_text.specs.Inner.Ready.{access_kind, hold_event, is_access, with_accesses, with_lines};

use crate::Put;
use crate::numbers::KnownNumbers;
use er_event::{Event, Kind, LockId, Mode, Site, Step, ThreadId, Word};
use er_lines::{NameKind, ReadyLine, ReadyVerb, Shortcut};
use er_trace::Trace;
use std::io::Read;

#[inline(always)]
fn is_access(verb: ReadyVerb) -> bool
    ensures { result ≡ is_access verb }
{
    matches!(verb, ReadyVerb::Read | ReadyVerb::Write)
}

#[inline(always)]
fn access_kind(verb: ReadyVerb) -> Kind
    ensures { result ≡ access_kind verb }
{
    match verb {
        ReadyVerb::Write => Kind::Write,
        _ => Kind::Read,
    }
}

#[inline(always)]
fn hold_event(verb: ReadyVerb, lock: LockId) -> Event
    ensures { result ≡ hold_event verb lock }
{
    match verb {
        ReadyVerb::Unlock => Event::Release(lock, Mode::Write),
        ReadyVerb::ReadLock => Event::Acquire(lock, Mode::Read),
        ReadyVerb::ReadUnlock => Event::Release(lock, Mode::Read),
        _ => Event::Acquire(lock, Mode::Write),
    }
}

/// Adds accesses of so many words from one on, each with a line of its own.
#[inline(always)]
fn add_accesses(
    trace: &mut Trace,
    thread: ThreadId,
    kind: Kind,
    first: u64,
    site: Site,
    line: u64,
    count: u64,
) -> Put
    requires thread { thread < length trace.old.names.threads }
    requires site { site ≤ length trace.old.names.sites }
    requires words { first + count ≤ 2 ^ 46 }
    requires lines { line + count < 2 ^ 64 }
    ensures trace { OnOk result (trace.new ≡ with_accesses thread kind first site line count trace.old) }
    ensures names { OnOk result (trace.new.names ≡ trace.old.names) }
{
    for i in 0..count {
        let event = Event::Access(kind, Word::new(first + i), site);
        trace.push(Step { thread, event }, line + i, site)?;
    }
    Ok(())
}

/// Adds the steps of ready lines: of an access to each of its words, at a site if there is one, or of the acquire or the release of a lock. The
/// thread is numbered first.
#[inline(always)]
pub(crate) fn add_ready<R: Read, S: Shortcut<R>>(
    trace: &mut Trace,
    numbers: &mut KnownNumbers,
    reader: &R,
    shortcut: &S,
    line: u64,
    ready: ReadyLine,
) -> Put
    requires line { IsRight (S.names_of reader.now) ready }
    requires small { line ≤ 2 ^ 62 + 1 }
    requires right { AreRight (S.names_of reader.now) trace.old.names numbers.old }
    ensures trace { OnOk result (trace.new ≡ with_lines line ready.verb ready.address (thread_name (S.names_of reader.now) ready) (operand_name (S.names_of reader.now) ready) ready.count trace.old) }
    ensures right { OnOk result (AreRight (S.names_of reader.now) trace.new.names numbers.new) }
{
    let thread = numbers.number(trace, reader, shortcut, NameKind::Thread, ready.thread)?;
    let thread = ThreadId::new(thread);
    if !is_access(ready.verb) {
        let name = ready.name.unwrap_or(0);
        let lock = numbers.number(trace, reader, shortcut, NameKind::Lock, name)?;
        let event = hold_event(ready.verb, LockId::new(lock));
        return trace.push(Step { thread, event }, line, Site::MISSING);
    }
    let kind = access_kind(ready.verb);
    let first = ready.address / Word::BYTES;
    let Some(place) = ready.name else {
        return add_accesses(trace, thread, kind, first, Site::MISSING, line, ready.count);
    };
    let site = Site::new(numbers.number(trace, reader, shortcut, NameKind::Site, place)?);
    add_accesses(trace, thread, kind, first, site, line, ready.count)
}

//! What stands in answers: replies, states, locks, steps, entries and seats in words.
use er_detector::Run;
use er_event::{Event, Kind, LockId, Lockset, Mode, PageRange, Reply, Site, WordState};
use er_explain::Explanation;
use er_journal::{Answer, Answers, Entry};
use er_seat::Seat;
use std::alloc::AllocError;
use std::fmt::Write;

/// What putting a text into another one comes to.
pub(crate) type Put = Result<(), AllocError>;

fn put_lock(out: &mut String, lock: LockId) -> Put {
    match lock.number().checked_sub(LockId::BELOW_LEVELS) {
        Some(level) if level > 0 => write!(out, "level-{level}"),
        _ => write!(out, "{}", lock.number()),
    }
}

// The locks behind this text, rising, or `none`.
fn put_locks(out: &mut String, before: &str, locks: &Lockset) -> Put {
    out.push_str(before)?;
    if locks.is_empty() {
        out.push_str("none")?;
    }
    for (place, lock) in locks.as_slice().iter().enumerate() {
        out.push_str(if place > 0 { " " } else { "" })?;
        put_lock(out, *lock)?;
    }
    Ok(())
}

pub(crate) fn put_known(out: &mut String, state: &WordState) -> Put {
    match state {
        WordState::Virgin => out.push_str("virgin"),
        WordState::Exclusive(thread) => write!(out, "exclusive {}", thread.number()),
        WordState::Shared(locks) => put_locks(out, "shared ", locks),
        WordState::SharedModified(locks) => put_locks(out, "shared-modified ", locks),
    }
}

fn put_view(out: &mut String, answer: Answer<'_>) -> Put {
    match answer {
        Answer::Done => out.push_str("done"),
        Answer::Quiet => out.push_str("quiet"),
        Answer::Race => out.push_str("race"),
        Answer::Ignored => out.push_str("ignored"),
        Answer::State(state) => put_known(out, state),
        Answer::Refused(why) => out.push_str(why.text()),
    }
}

/// Answers, or `no answers`.
pub(crate) fn put_answers(out: &mut String, answers: &Answers) -> Put {
    if answers.is_empty() {
        out.push_str("no answers")?;
    }
    for place in 0..answers.len() {
        out.push_str(if place > 0 { ", " } else { "" })?;
        if let Some(answer) = answers.get(place) {
            put_view(out, answer)?;
        }
    }
    Ok(())
}

fn view(reply: &Reply) -> Answer<'_> {
    match reply {
        Reply::Done => Answer::Done,
        Reply::Quiet => Answer::Quiet,
        Reply::Race => Answer::Race,
        Reply::Ignored => Answer::Ignored,
        Reply::State(state) => Answer::State(state),
    }
}

pub(crate) fn put_reply(out: &mut String, reply: Reply) -> Put {
    put_view(out, view(&reply))
}

fn put_event(out: &mut String, event: Event) -> Put {
    match event {
        Event::Acquire(lock, mode) => put_lock_event(out, "acquire", lock, mode),
        Event::Release(lock, mode) => put_lock_event(out, "release", lock, mode),
        Event::Access(kind, word, site) => {
            out.push_str(match kind {
                Kind::Read => "read ",
                Kind::Write => "write ",
            })?;
            write!(out, "{:#x}", word.address())?;
            if site != Site::MISSING {
                write!(out, " {}", site.number())?;
            }
            Ok(())
        }
        Event::Reuse(range) => put_range(out, "reuse", &range),
        Event::IgnoreOn => out.push_str("ignore-on"),
        Event::IgnoreOff => out.push_str("ignore-off"),
        Event::Level(level) => write!(out, "level {}", level.number()),
        // No seat makes these.
        Event::Show(_) | Event::Sync(_) => write!(out, "{event:?}"),
    }
}

fn put_lock_event(out: &mut String, verb: &str, lock: LockId, mode: Mode) -> Put {
    write!(out, "{verb} ")?;
    put_lock(out, lock)?;
    out.push_str(match mode {
        Mode::Read => " read",
        Mode::Write => " write",
    })
}

fn put_range(out: &mut String, verb: &str, range: &PageRange) -> Put {
    let (lo, hi) = (range.lo.address(), range.hi.address());
    write!(out, "{verb} {lo:#x} to {hi:#x}")
}

/// What a seat is, and what it holds.
pub(crate) fn put_seat(out: &mut String, seat: &Seat) -> Put {
    let (thread, name, calls) = (seat.thread().number(), seat.name(), seat.calls().len());
    write!(out, "thread {thread} of {name}, calls {calls}")?;
    put_locks(out, ", held ", seat.held())?;
    put_locks(out, ", to write ", seat.write_held())?;
    write!(out, ", level {}", seat.level().number())?;
    out.push_str(if seat.ignoring() { ", ignoring" } else { "" })
}

/// Entries, oldest first, or `none`.
pub(crate) fn put_entries(out: &mut String, entries: &[Entry]) -> Put {
    if entries.is_empty() {
        out.push_str("none")?;
    }
    for (place, entry) in entries.iter().enumerate() {
        out.push_str(if place > 0 { "; " } else { "" })?;
        put_entry(out, entry)?;
    }
    Ok(())
}

fn put_entry(out: &mut String, entry: &Entry) -> Put {
    let (ticket, thread) = (entry.ticket(), entry.thread().number());
    write!(out, "ticket {ticket} thread {thread} ")?;
    match entry.event() {
        Event::Reuse(range) => put_range(out, "reset", &range)?,
        access => {
            write!(out, "by {thread} ")?;
            put_event(out, access)?;
        }
    }
    if let Some(locks) = entry.locks() {
        put_locks(out, " holding ", locks.held())?;
        put_locks(out, " to write ", locks.write_held())?;
    }
    out.push_str(" ")?;
    put_reply(out, entry.reply().reply())
}

/// A settled run.
pub(crate) fn put_run(out: &mut String, run: &Run) -> Put {
    write!(out, "steps {}", run.steps.len())?;
    for (step, reply) in run.steps.iter().zip(&run.replies) {
        write!(out, "; {} ", step.thread.number())?;
        put_event(out, step.event)?;
        out.push_str(" ")?;
        put_view(out, view(reply))?;
    }
    Ok(())
}

/// Why an access is a race, or that it is none.
pub(crate) fn put_explanation(out: &mut String, found: Option<&Explanation>) -> Put {
    let Some(found) = found else {
        return out.push_str("no race");
    };
    let (first, join, write) = (found.first, found.join, found.write);
    write!(out, "first {first}, join {join}, write {write}")?;
    for pair in &found.uncovered {
        out.push_str(", ")?;
        put_lock(out, pair.lock)?;
        write!(out, "@{}", pair.at)?;
    }
    Ok(())
}

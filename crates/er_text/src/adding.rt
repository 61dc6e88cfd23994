//! The steps that a line adds to a trace.
ghost use Rattle.std.specs.Prelude.{◌≡◌, ◌<◌, length, IfOk, OnOk};
ghost use Rattle.er_trace.specs.Names.{number_of};
ghost use Rattle.er_trace.specs.Trace.{HasSiteName};
ghost use Rattle.er_text.specs.Inner.Parsing.{event_line};
ghost use Rattle.er_lines.specs.Words.{seen_name};
ghost use Rattle.er_text.specs.Events.{with_line, site_number, with_site_of, with_reuses, run_parts};

use crate::Put;
use crate::parsing::{Action, ParsedLine};
use er_event::{Event, Site, Step, Sync, ThreadId, WordRange};
use er_trace::Trace;
use std::alloc::AllocError;

/// The number of a site, if there is one.
#[inline(always)]
pub(crate) fn site_number(trace: &mut Trace, site: Option<&str>) -> Result<Site, AllocError>
    ensures number { IfOk result (λ number. number ≡ site_number trace.old (seen_name site.entry)) }
    ensures trace { OnOk result (trace.new ≡ with_site_of trace.old (seen_name site.entry)) }
{
    match site {
        Some(name) => trace.site(name),
        None => Ok(Site::MISSING),
    }
}

/// Adds a step for each page of a range, at this site.
pub(crate) fn add_reuse(
    trace: &mut Trace,
    line: u64,
    thread: ThreadId,
    range: Option<WordRange>,
    site: Site,
) -> Put
    requires thread { thread < length trace.old.names.threads }
    requires site { HasSiteName trace.old.names site }
    ensures { OnOk result (trace.new ≡ with_reuses trace.old line thread site (run_parts range)) }
{
    let Some(range) = range else {
        return Ok(());
    };
    for i in 0..range.parts() {
        let event = Event::Reuse(range.part(i));
        trace.push(Step { thread, event }, line, site)?;
    }
    Ok(())
}

/// Adds the steps of a line to a trace, and returns the thread. It is numbered first.
#[inline(always)]
pub(crate) fn add_steps(
    trace: &mut Trace,
    line: u64,
    parsed: &ParsedLine<'_>,
) -> Result<ThreadId, AllocError>
    ensures thread { IfOk result (λ thread. thread ≡ number_of trace.old.names.threads parsed.now.thread.now) }
    ensures trace { OnOk result (trace.new ≡ with_line line (event_line parsed.now) trace.old) }
{
    let thread = trace.thread(parsed.thread)?;
    let event = match parsed.action {
        Action::Acquire(lock, mode) => Event::Acquire(trace.lock(lock)?, mode),
        Action::Release(lock, mode) => Event::Release(trace.lock(lock)?, mode),
        Action::Access(kind, word, site) => {
            let site = site_number(trace, site)?;
            let event = Event::Access(kind, word, site);
            trace.push(Step { thread, event }, line, site)?;
            return Ok(thread);
        }
        Action::Reuse(range, site) => {
            let site = site_number(trace, site)?;
            add_reuse(trace, line, thread, range, site)?;
            return Ok(thread);
        }
        Action::IgnoreOn => Event::IgnoreOn,
        Action::IgnoreOff => Event::IgnoreOff,
        Action::Show(word) => Event::Show(word),
        Action::Level(level) => Event::Level(level),
        Action::Start(other) => Event::Sync(Sync::Start(trace.thread(other)?)),
        Action::Join(other) => Event::Sync(Sync::Join(trace.thread(other)?)),
        Action::Signal(object) => Event::Sync(Sync::Signal(trace.lock(object)?)),
        Action::Await(object) => Event::Sync(Sync::Await(trace.lock(object)?)),
    };
    trace.push(Step { thread, event }, line, Site::MISSING)?;
    Ok(thread)
}

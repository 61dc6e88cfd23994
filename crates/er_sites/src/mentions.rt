//! The threads and the locks that races mention: where the threads were started, and where the lives of the locks began.
ghost use Rattle.std.specs.Prelude.{◌≡◌, ◌++◌, ◌<◌, nat_eq, flat_map, length, map, option_copied, All, IfOk, OnOk, Some};
ghost use Rattle.indexmap.specs.IndexSet.{insert_all};
ghost use Rattle.er_trace.specs.Names.{NameTable};
ghost use Rattle.er_report.specs.Lines.{line_view, race_of};
ghost use Rattle.er_report.specs.Names.{HasLockName, HasNames};
ghost use Rattle.er_sites.specs.Mentions.{HasMentionName, access_mentions, began_words, birth_text, each_once, example_mentions, line_mentions, mention_text, race_mentions, reuse_mentions, start_text, view_mentions};

use crate::row::SiteRow;
use crate::standing::put_known;
use er_event::{LockId, ThreadId};
use er_places::{Birth, Legend, Place, Places};
use er_print::Piece::{Lock, Name, Text, Thread};
use er_print::{Put, Style, put};
use er_report::{Deed, Line, Race};
use indexmap::IndexSet;
use std::alloc::{AllocError, Global};

/// What is looked for in races.
#[derive(Clone, Copy, Drop)]
pub enum Mention {
    /// The threads of races and of their reasons.
    Threads,
    /// The locks that these threads held, as far as the places of the accesses are known. They have the names of the places.
    Locks,
}

/// Numbers of threads or of locks, each once. They have no gaps but below those of levels, so a trace can't choose such as collide.
pub type Numbers = IndexSet<u32>;

/// Numbers of threads are below this one.
pub const MOST_THREADS: u32 = 1 << 30;

/// Adds what the examples of these rows mention.
pub(crate) fn add_examples(
    numbers: &mut Numbers,
    of: Mention,
    places: &Places,
    lines: &[Line],
    rows: &[SiteRow],
) -> Put
    ensures { OnOk result (numbers.new.keys ≡ insert_all nat_eq numbers.old.keys (flat_map (example_mentions of places.now lines.now) rows.now)) }
{
    for row in rows {
        if let Some(line) = lines.get(row.example) {
            add_line(numbers, of, places, line)?;
        }
    }
    Ok(())
}

/// Adds what the reuses without a site mention.
pub(crate) fn add_reuses(numbers: &mut Numbers, of: Mention, places: &Places, lines: &[Line]) -> Put
    ensures { OnOk result (numbers.new.keys ≡ insert_all nat_eq numbers.old.keys (flat_map (λ line. reuse_mentions of places.now (race_of (line_view line))) lines.now)) }
{
    for line in lines {
        add_reuse(numbers, of, places, line)?;
    }
    Ok(())
}

fn add_reuse(numbers: &mut Numbers, of: Mention, places: &Places, line: &Line) -> Put
    ensures { OnOk result (numbers.new.keys ≡ insert_all nat_eq numbers.old.keys (reuse_mentions of places.now (race_of (line_view line.now)))) }
{
    let Some(race) = line.race() else {
        return Ok(());
    };
    match race.deed {
        Deed::Reuse(_) if race.site.number() == 0 => add_race(numbers, of, places, &race),
        _ => Ok(()),
    }
}

/// What these lines mention in their races.
pub fn mentioned_in(
    alloc: Global,
    of: Mention,
    places: &Places,
    lines: &[Line],
) -> Result<Numbers, AllocError>
    ensures keys { IfOk result (λ numbers. numbers.keys ≡ each_once (flat_map (view_mentions of places.now) (map line_view lines.now))) }
    ensures named { (names : NameTable) → All (HasNames names) lines.now → IfOk result (λ numbers. All (HasMentionName of names places.now) numbers.keys) }
{
    places.are_named();
    let mut numbers = Numbers::new(alloc);
    for line in lines {
        add_line(&mut numbers, of, places, line)?;
    }
    Ok(numbers)
}

fn add_line(numbers: &mut Numbers, of: Mention, places: &Places, line: &Line) -> Put
    ensures { OnOk result (numbers.new.keys ≡ insert_all nat_eq numbers.old.keys (line_mentions of places.now line.now)) }
{
    match line.race() {
        Some(race) => add_race(numbers, of, places, &race),
        None => Ok(()),
    }
}

fn add_race(numbers: &mut Numbers, of: Mention, places: &Places, race: &Race<'_>) -> Put
    ensures { OnOk result (numbers.new.keys ≡ insert_all nat_eq numbers.old.keys (race_mentions of places.now (Some race.now))) }
{
    add_access(numbers, of, race.thread, places.of_race(race))?;
    for because in race.explained {
        add_access(numbers, of, because.thread, places.of_reason(because))?;
    }
    Ok(())
}

fn add_access(numbers: &mut Numbers, of: Mention, thread: ThreadId, place: Option<&Place>) -> Put
    ensures { OnOk result (numbers.new.keys ≡ insert_all nat_eq numbers.old.keys (access_mentions of thread (option_copied place.entry))) }
{
    match (of, place) {
        (Mention::Threads, _) => {
            numbers.insert(thread.number())?;
            Ok(())
        }
        (Mention::Locks, Some(place)) => add_locks(numbers, place.held.as_slice()),
        (Mention::Locks, None) => Ok(()),
    }
}

fn add_locks(numbers: &mut Numbers, locks: &[LockId]) -> Put
    ensures { OnOk result (numbers.new.keys ≡ insert_all nat_eq numbers.old.keys locks.now) }
{
    for lock in locks {
        numbers.insert(lock.number())?;
    }
    Ok(())
}

/// Puts where these threads were started, or where the lives of these locks began, as far as that is known.
pub(crate) fn put_mentions(out: &mut Vec<u8>, of: Mention, legend: &Legend, numbers: &[u32]) -> Put
    requires { All (HasMentionName of legend.now.names.now legend.now.places.now) numbers.now }
    ensures { OnOk result (out.new.items ≡ out.old.items ++ flat_map (mention_text of legend.now.names.now legend.now.places.now) numbers.now) }
{
    for number in numbers {
        put_mention(out, of, legend, *number)?;
    }
    Ok(())
}

fn put_mention(out: &mut Vec<u8>, of: Mention, legend: &Legend, number: u32) -> Put
    requires { HasMentionName of legend.now.names.now legend.now.places.now number }
    ensures { OnOk result (out.new.items ≡ out.old.items ++ mention_text of legend.now.names.now legend.now.places.now number) }
{
    match of {
        Mention::Threads if number < MOST_THREADS => put_start(out, legend, ThreadId::new(number)),
        Mention::Threads => Ok(()),
        Mention::Locks => put_birth(out, legend.places, LockId::new(number)),
    }
}

fn put_start(out: &mut Vec<u8>, legend: &Legend, thread: ThreadId) -> Put
    requires { thread < length legend.now.names.now.threads }
    ensures { OnOk result (out.new.items ≡ out.old.items ++ start_text legend.now.names.now legend.now.places.now thread) }
{
    let name = legend.names.thread_name(thread).as_bytes();
    let Some(start) = legend.places.start_of(name) else {
        return Ok(());
    };
    let Some(place) = start.place else {
        return Ok(());
    };
    let (names, site) = (legend.names, legend.places.call_name(place));
    let called = start.name.as_slice();
    put!(out, Style::Short, names; Thread(b"  ", thread))?;
    put_known(out, Style::Short, names, b" \"", called, b"\"")?;
    put!(out, Style::Short, names; Name(b" was started at ", site), Text(b"\n"))
}

fn put_birth(out: &mut Vec<u8>, places: &Places, lock: LockId) -> Put
    requires { HasLockName places.now.names lock }
    ensures { OnOk result (out.new.items ≡ out.old.items ++ birth_text places.now lock) }
{
    let Some(birth) = places.birth_of(lock) else {
        return Ok(());
    };
    let (names, site) = (places.names(), places.call_name(birth.place));
    put!(out, Style::Short, names;
        Lock(b"  ", lock), Name(began_words(birth.is_created), site), Text(b"\n")
    )
}

fn began_words(is_created: bool) -> &'static [u8]
    ensures { result.now ≡ began_words is_created }
{
    match is_created {
        true => b" was created at ".as_slice(),
        false => b" was first taken at ".as_slice(),
    }
}

//! One race in sentences.
ghost use Rattle.std.specs.Prelude.{◌≡◌, ◌++◌, flat_map, option_and_then, option_copied, IfSome, OnOk};
ghost use Rattle.std.specs.List.{list_any};
ghost use Rattle.er_sites.specs.Text.{HasNames, HasPlaceNames, HasRaceNames, HasReasonNames, line_view, race_of, reason_place, access_story, example_text, head_text, holds_text, is_weak, lacks_lock, may_meet, met, met_text, reason_text, reuse_story, reuse_text, so_text, story_text, is_without, block_text, subject_text, variable_text};

use crate::names::{did_text, put_pair};
use crate::standing::{mode_text, put_led, put_where};
use er_event::{Kind, LockId, PageRange, Site, Word};
use er_places::{Block, Legend, Place, Places, Variable};
use er_print::Piece::{Address, Lock, Name, Number, Site as At, Text, Thread};
use er_print::{Put, Style, bytes_of, put};
use er_report::{Because, Deed, Label, Line, Race};
use er_trace::Names;

/// Puts a race in sentences, under its site. Other lines have no story.
pub(crate) fn put_example(out: &mut Vec<u8>, legend: &Legend, line: &Line) -> Put
    requires { HasNames legend.now.names.now line.now }
    ensures { OnOk result (out.new.items ≡ out.old.items ++ example_text legend.now.names.now legend.now.places.now (race_of (line_view line.now))) }
{
    let Some(race) = line.race() else {
        return Ok(());
    };
    let deed = race.deed;
    out.extend_from_slice(b"\n")?;
    put_sites(out, legend, &race)?;
    out.extend_from_slice(b":\n")?;
    match deed {
        Deed::Access(kind, word) => put_access(out, legend, &race, kind, word),
        Deed::Reuse(range) => put_reuse(out, legend, &race, &range),
    }
}

// The place of the access that a race is with, if it is known.
fn place_met<'a>(places: &'a Places, race: &Race<'_>) -> Option<&'a Place>
    ensures place { option_copied result ≡ option_and_then (reason_place places.now) (met race.now) }
    ensures named { IfSome (option_copied result) (HasPlaceNames places.now.names) }
{
    match met(race) {
        Some(because) => places.of_reason(&because),
        None => None,
    }
}

// The last of the reasons whose access a race may be with.
fn met(race: &Race<'_>) -> Option<Because>
    ensures { result ≡ met race.now }
{
    let lacks = lacks_some(race.line, race.explained);
    let mut last = None;
    for because in race.explained {
        if may_meet(lacks, race, because) {
            last = Some(*because);
        }
    }
    last
}

fn lacks_some(line: u64, explained: &[Because]) -> bool
    ensures { result ≡ list_any (lacks_lock line) explained.now }
{
    explained.iter().any(|because| lacks_lock(line, because))
}

// Whether a lock that had covered the word did not protect this access, which is the race on this line.
fn lacks_lock(line: u64, because: &Because) -> bool
    ensures { result ≡ lacks_lock line because.now }
{
    matches!(because.label, Label::Uncovered(_)) && because.line == line
}

// If the race lacks a lock, it may be with any access but itself, and else with one of another thread.
fn may_meet(lacks: bool, race: &Race<'_>, because: &Because) -> bool
    ensures { result ≡ may_meet lacks race.now because.now }
{
    if lacks {
        because.line != race.line
    } else {
        because.thread != race.thread
    }
}

// Puts the site of a race, and that of the other access if it is known and another one.
fn put_sites(out: &mut Vec<u8>, legend: &Legend, race: &Race<'_>) -> Put
    requires { HasRaceNames legend.now.names.now race.now }
    ensures { OnOk result (out.new.items ≡ out.old.items ++ met_text legend.now.names.now legend.now.places.now.names race.now.site (option_and_then (reason_place legend.now.places.now) (met race.now))) }
{
    let (names, site) = (legend.names, race.site);
    match place_met(legend.places, race) {
        Some(place) if place.site.number() != 0 && place.site != site => {
            put_pair(out, names, legend.places.names(), site, place.site)
        }
        _ => put!(out, Style::Short, names; At(b"", site)),
    }
}

fn put_access(out: &mut Vec<u8>, legend: &Legend, race: &Race<'_>, kind: Kind, word: Word) -> Put
    requires { HasRaceNames legend.now.names.now race.now }
    ensures { OnOk result (out.new.items ≡ out.old.items ++ access_story legend.now.names.now legend.now.places.now race.now kind word) }
{
    put_head(out, legend, race, kind, word)?;
    let own = legend.places.of_race(race);
    put_led(out, legend.places, own)?;
    put_locks(out, legend.names, race, own)?;
    put_reasons(out, legend, race)?;
    put_so(out, race)
}

#[tactic(auto, unfolding(crate::specs::Text::head_text))]
fn put_head(out: &mut Vec<u8>, legend: &Legend, race: &Race<'_>, kind: Kind, word: Word) -> Put
    requires { HasRaceNames legend.now.names.now race.now }
    ensures { OnOk result (out.new.items ≡ out.old.items ++ head_text legend.now.names.now legend.now.places.now race.now kind word) }
{
    let names = legend.names;
    put!(out, Style::Short, names; Thread(b"  ", race.thread), Text(did_text(kind)))?;
    put_subject(out, Style::Short, legend.places, race.line, word)?;
    put!(out, Style::Short, names;
        Address(b" the word at ", word), Number(b" (line ", race.line), Text(b")\n")
    )
}

/// Puts the variable that a race's word is in, else the block that it was in, as far as that is known.
#[tactic(auto, unfolding(crate::specs::Text::subject_text))]
pub fn put_subject(out: &mut Vec<u8>, style: Style, places: &Places, line: u64, word: Word) -> Put
    ensures { OnOk result (out.new.items ≡ out.old.items ++ subject_text style places.now line word) }
{
    if let Some(variable) = places.variable_of(word) {
        return put_variable(out, style, places.names(), word, variable);
    }
    match places.block_of(line, word) {
        Some(block) => put_block(out, style, places, word, block),
        None => Ok(()),
    }
}

#[tactic(auto, unfolding(crate::specs::Text::variable_text))]
fn put_variable(
    out: &mut Vec<u8>,
    style: Style,
    names: &Names,
    word: Word,
    variable: &Variable,
) -> Put
    ensures { OnOk result (out.new.items ≡ out.old.items ++ variable_text style word variable.now) }
{
    let name = variable.name.as_slice();
    match variable.extent.offset_of(word.number()) {
        0 => put!(out, style, names; Name(b" ", name), Text(b",")),
        offset => put!(out, style, names; Name(b" ", name), Number(b"+", offset), Text(b",")),
    }
}

#[tactic(auto, unfolding(crate::specs::Text::block_text))]
fn put_block(out: &mut Vec<u8>, style: Style, places: &Places, word: Word, block: &Block) -> Put
    ensures { OnOk result (out.new.items ≡ out.old.items ++ block_text style places.now word block.now) }
{
    let (offset, size) = (block.extent.offset_of(word.number()), block.extent.size);
    put!(out, style, places.names();
        Number(b" byte ", offset), Number(b" of a block of ", size)
    )?;
    match block.place {
        Some(place) => put!(out, style, places.names();
            Name(b" bytes allocated at ", places.call_name(place)), Text(b",")
        ),
        None => out.extend_from_slice(b" bytes,"),
    }
}

// Puts the locks that the thread of a race held, and which of them only to read as far as its place is known.
fn put_locks(out: &mut Vec<u8>, names: &Names, race: &Race<'_>, own: Option<&Place>) -> Put
    requires { HasRaceNames names.now race.now }
    ensures { OnOk result (out.new.items ≡ out.old.items ++ holds_text names.now race.now (option_copied own.entry) race.now.held) }
{
    if race.held.is_empty() {
        return put!(out, Style::Short, names; Thread(b"  ", race.thread), Text(b" held no lock\n"));
    }
    for lock in race.held {
        let mode = mode_text(is_weak(race, own, *lock));
        put!(out, Style::Short, names;
            Thread(b"  ", race.thread), Lock(b" held ", *lock), Text(mode), Text(b"\n")
        )?;
    }
    Ok(())
}

// Whether a lock was held only to read: it wasn't held to write at the place of the race, or a reason says that it didn't protect the race.
fn is_weak(race: &Race<'_>, own: Option<&Place>, lock: LockId) -> bool
    ensures { result ≡ is_weak race.now (option_copied own.entry) lock }
{
    own.is_some_and(|place| !place.write_held.contains(lock))
        || is_unprotected(race.line, race.explained, lock)
}

// Whether a reason is that the lock didn't protect the access on the line.
fn is_unprotected(line: u64, explained: &[Because], lock: LockId) -> bool
    ensures { result ≡ list_any (is_without line lock) explained.now }
{
    explained
        .iter()
        .any(|because| is_without(line, lock, because))
}

fn is_without(line: u64, lock: LockId, because: &Because) -> bool
    ensures { result ≡ is_without line lock because.now }
{
    match because.label {
        Label::Joined => because.line == line,
        Label::Uncovered(other) => other.number() == lock.number() && because.line == line,
        _ => false,
    }
}

/// Puts a reuse that races at no site in sentences, under the address of its first byte. Of another line it puts nothing.
pub(crate) fn put_reuse_story(out: &mut Vec<u8>, legend: &Legend, line: &Line) -> Put
    requires { HasNames legend.now.names.now line.now }
    ensures { OnOk result (out.new.items ≡ out.old.items ++ reuse_story legend.now.names.now legend.now.places.now (race_of (line_view line.now))) }
{
    let Some(race) = line.race() else {
        return Ok(());
    };
    let deed = race.deed;
    match deed {
        Deed::Reuse(range) if race.site.number() == 0 => {
            put!(out, Style::Short, legend.names; Address(b"", range.lo), Text(b":\n"))?;
            put_reuse(out, legend, &race, &range)?;
            out.extend_from_slice(b"\n")
        }
        _ => Ok(()),
    }
}

#[tactic(auto, unfolding(crate::specs::Text::reuse_text))]
fn put_reuse(out: &mut Vec<u8>, legend: &Legend, race: &Race<'_>, range: &PageRange) -> Put
    requires { HasRaceNames legend.now.names.now race.now }
    ensures { OnOk result (out.new.items ≡ out.old.items ++ reuse_text legend.now.names.now legend.now.places.now race.now range.now) }
{
    put!(out, Style::Short, legend.names;
        Thread(b"  ", race.thread), Number(b" gave back ", bytes_of(range)),
        Number(b" bytes (line ", race.line), Text(b")\n")
    )?;
    put_reasons(out, legend, race)
}

fn put_reasons(out: &mut Vec<u8>, legend: &Legend, race: &Race<'_>) -> Put
    requires { HasRaceNames legend.now.names.now race.now }
    ensures { OnOk result (out.new.items ≡ out.old.items ++ flat_map (reason_text legend.now.names.now legend.now.places.now race.now.line) race.now.explained) }
{
    let names = legend.names;
    for because in race.explained {
        out.extend_from_slice(b"  ")?;
        put_story(out, names, because)?;
        put!(out, Style::Short, names; Number(b" (line ", because.line), Text(b")\n"))?;
        put_where(out, legend.places, race.line, because)?;
    }
    Ok(())
}

fn put_story(out: &mut Vec<u8>, names: &Names, because: &Because) -> Put
    requires { HasReasonNames names.now because.now }
    ensures { OnOk result (out.new.items ≡ out.old.items ++ story_text names.now because.now.thread because.now.kind because.now.label) }
{
    let (thread, did) = (because.thread, did_text(because.kind));
    match because.label {
        Label::First => put!(out, Style::Short, names;
            Thread(b"", thread), Text(b" used it first: it"), Text(did), Text(b" it")
        ),
        Label::Joined => put!(out, Style::Short, names;
            Thread(b"", thread), Text(b" was the second: it"), Text(did), Text(b" it")
        ),
        Label::Write => {
            put!(out, Style::Short, names; Thread(b"", thread), Text(b" has written it since then"))
        }
        Label::Uncovered(lock) => put!(out, Style::Short, names;
            Lock(b"", lock), Thread(b" did not protect it when ", thread), Text(did), Text(b" it")
        ),
        Label::Unordered => put!(out, Style::Short, names;
            Thread(b"nothing orders this before it: ", thread), Text(did), Text(b" it")
        ),
    }
}

// Puts what follows from the reasons, if they are known.
fn put_so(out: &mut Vec<u8>, race: &Race<'_>) -> Put
    ensures { OnOk result (out.new.items ≡ out.old.items ++ so_text race.now.explained) }
{
    match race.explained.first() {
        Some(because) if !matches!(because.label, Label::Unordered) => out.extend_from_slice(
            b"  So no lock protected all accesses from the second thread's first one on\n",
        ),
        _ => Ok(()),
    }
}

//! A line of a report as an object of the document.
ghost use Rattle.std.specs.Prelude.{◌≡◌, ◌++◌, ◌<◌, ◌||◌, All, filter, flat_map, length, option_copied, None, Some, IfOk, OnOk};
ghost use Rattle.std.specs.List.{list_any};
ghost use Rattle.er_places.specs.Names.{call_function};
ghost use Rattle.er_json.specs.Document.{HasEventNames, HasLabelName, HasNames, HasPlaceNames, HasRaceNames, HasReasonNames, HasStateNames, calls_member, event_lock, is_held_to_read, label_member, line_view, place_if, place_member, race_front, reason_place, reason_text, reasons_end, refused_text, row_text, state_member, values_text, function_item, functions_member, is_known, name_value, subject_by, subject_member};
ghost use Rattle.er_json.specs.Inner.Sections.{reason_in};

use crate::locations;
use er_event::{Event, LockId, Lockset, Refusal, Step, Word, WordState};
use er_places::{Block, Legend, Place, Places};
use er_print::Piece::{Address, Lock, Locks, Name, NamedSite, Number, Site, Text, Thread, Verb};
use er_print::{Put, Style, bytes_of, comma_before, event_verb, put, put_string};
use er_report::{Because, Deed, Label, Line, Race};
use er_trace::Names;
use std::alloc::{AllocError, Global};

/// What a reason of a race is written as: an object of a document, or a location of a log.
#[derive(Clone, Copy, Drop)]
pub(crate) enum ReasonForm {
    Object,
    Location,
}

/// Puts the object of a line.
pub(crate) fn put_row(out: &mut Vec<u8>, legend: &Legend, line: &Line) -> Put
    requires { HasNames legend.now.names.now line.now }
    ensures { OnOk result (out.new.items ≡ out.old.items ++ row_text legend.now.names.now legend.now.places.now (line_view line.now)) }
{
    if let Some(race) = line.race() {
        put_race(out, legend.names, &race)?;
        return put_end(out, legend, &race);
    }
    match line {
        Line::Refused {
            line,
            step,
            refusal,
        } => put_refused(out, legend.names, *line, step, *refusal),
        Line::Shown { line, word, state } => {
            put!(out, Style::Json, legend.names;
                Number(b"{\"line\":", *line), Address(b",\"address\":\"", *word),
                Text(b"\",\"state\":\"")
            )?;
            put_state(out, legend.names, state)
        }
        _ => Ok(()),
    }
}

// Puts the object of a race up to its reasons.
fn put_race(out: &mut Vec<u8>, names: &Names, race: &Race<'_>) -> Put
    requires { HasRaceNames names.now race.now }
    ensures { OnOk result (out.new.items ≡ out.old.items ++ race_front names.now race.now race.now.deed) }
{
    match race.deed {
        Deed::Access(kind, word) => put!(out, Style::Json, names;
            Number(b"{\"line\":", race.line), Thread(b",\"thread\":", race.thread),
            Verb(b",\"kind\":\"", kind), Address(b"\",\"address\":\"", word),
            Site(b"\",\"site\":", race.site), Locks(b",\"held\":", race.held),
            Text(b",\"reasons\":[")
        ),
        Deed::Reuse(range) => put!(out, Style::Json, names;
            Number(b"{\"line\":", race.line), Thread(b",\"thread\":", race.thread),
            Address(b",\"reuse\":\"", range.lo), Number(b"\",\"bytes\":", bytes_of(&range)),
            NamedSite(b",\"site\":", race.site), Locks(b",\"held\":", race.held),
            Text(b",\"reasons\":[")
        ),
    }
}

// Puts the accesses that make a race and the calls that led to its own, and closes its object.
fn put_end(out: &mut Vec<u8>, legend: &Legend, race: &Race<'_>) -> Put
    requires { HasRaceNames legend.now.names.now race.now }
    ensures { OnOk result (out.new.items ≡ out.old.items ++ reasons_end legend.now.names.now legend.now.places.now race.now) }
{
    let places = legend.places;
    put_reasons(out, ReasonForm::Object, legend, race.explained)?;
    out.extend_from_slice(b"]")?;
    let own = places.of_race(race);
    put_calls(out, places, places.calls_of(own))?;
    put_functions(out, places, own)?;
    put_subject(out, places, race.line, race.deed)?;
    out.extend_from_slice(b"}")
}

/// Puts the accesses that make a race, each in this form.
pub(crate) fn put_reasons(
    out: &mut Vec<u8>,
    form: ReasonForm,
    legend: &Legend,
    reasons: &[Because],
) -> Put
    requires { All (HasReasonNames legend.now.names.now) reasons.now }
    ensures { OnOk result (out.new.items ≡ out.old.items ++ values_text (reason_in form legend.now.names.now legend.now.places.now) reasons.now) }
{
    for (place, because) in reasons.iter().enumerate() {
        out.extend_from_slice(comma_before(place))?;
        put_reason_in(out, form, legend, because)?;
    }
    Ok(())
}

fn put_reason_in(out: &mut Vec<u8>, form: ReasonForm, legend: &Legend, because: &Because) -> Put
    requires { HasReasonNames legend.now.names.now because.now }
    ensures { OnOk result (out.new.items ≡ out.old.items ++ reason_in form legend.now.names.now legend.now.places.now because.now) }
{
    match form {
        ReasonForm::Object => put_reason(out, legend, because),
        ReasonForm::Location => locations::put_reason(out, legend, because),
    }
}

#[tactic(auto, unfolding(crate::specs::Document::reason_text))]
fn put_reason(out: &mut Vec<u8>, legend: &Legend, because: &Because) -> Put
    requires { HasReasonNames legend.now.names.now because.now }
    ensures { OnOk result (out.new.items ≡ out.old.items ++ reason_text legend.now.names.now legend.now.places.now because.now) }
{
    put!(out, Style::Json, legend.names;
        Number(b"{\"line\":", because.line), Thread(b",\"thread\":", because.thread),
        Verb(b",\"kind\":\"", because.kind), Text(b"\",\"label\":\"")
    )?;
    put_label(out, legend.names, because.label)?;
    put_place(out, legend.places, because)?;
    out.extend_from_slice(b"}")
}

#[tactic(auto, unfolding(crate::specs::Document::label_member))]
fn put_label(out: &mut Vec<u8>, names: &Names, label: Label) -> Put
    requires { HasLabelName names.now label }
    ensures { OnOk result (out.new.items ≡ out.old.items ++ label_member names.now label) }
{
    match label {
        Label::First => out.extend_from_slice(b"first\",\"lock\":null"),
        Label::Joined => out.extend_from_slice(b"joined\",\"lock\":null"),
        Label::Write => out.extend_from_slice(b"write\",\"lock\":null"),
        Label::Uncovered(lock) => {
            put!(out, Style::Json, names; Lock(b"not covering\",\"lock\":", lock))
        }
        Label::Unordered => out.extend_from_slice(b"unordered with\",\"lock\":null"),
    }
}

// Puts where the access of a reason stood, what its thread held and what led there, if that is known.
fn put_place(out: &mut Vec<u8>, places: &Places, because: &Because) -> Put
    ensures { OnOk result (out.new.items ≡ out.old.items ++ place_if places.now (reason_place places.now because.now)) }
{
    match places.of_reason(because) {
        Some(place) => {
            put_known(out, places.names(), place)?;
            put_calls(out, places, places.calls_of(Some(place)))?;
            put_functions(out, places, Some(place))
        }
        None => Ok(()),
    }
}

// Puts the places of calls, if there are some.
fn put_calls(out: &mut Vec<u8>, places: &Places, calls: &[u32]) -> Put
    ensures { OnOk result (out.new.items ≡ out.old.items ++ calls_member places.now calls.now) }
{
    if calls.is_empty() {
        return Ok(());
    }
    out.extend_from_slice(b",\"calls\":[")?;
    for (place, call) in calls.iter().enumerate() {
        out.extend_from_slice(comma_before(place))?;
        put_string(out, places.call_name(*call))?;
    }
    out.extend_from_slice(b"]")
}

// Puts the function that the access at a place is in, and those of the calls that led there, if one is known.
fn put_functions(out: &mut Vec<u8>, places: &Places, place: Option<&Place>) -> Put
    ensures { OnOk result (out.new.items ≡ out.old.items ++ functions_member places.now (option_copied place.entry)) }
{
    let (own, calls) = (places.function_of(place), places.calls_of(place));
    if !is_one_known(places, own, calls) {
        return Ok(());
    }
    out.extend_from_slice(b",\"functions\":[")?;
    put_name(out, own)?;
    put_call_functions(out, places, calls)?;
    out.extend_from_slice(b"]")?;
    Ok(())
}

fn is_known(name: &[u8]) -> bool
    ensures { result ≡ is_known name.now }
{
    match name {
        [] => false,
        [_, ..] => true,
    }
}

// Whether this name or the function of one of these calls is known.
fn is_one_known(places: &Places, own: &[u8], calls: &[u32]) -> bool
    ensures { result ≡ (is_known own.now || list_any (λ call. is_known (call_function places.now call)) calls.now) }
{
    is_known(own) || knows_one(places, calls)
}

fn knows_one(places: &Places, calls: &[u32]) -> bool
    ensures { result ≡ list_any (λ call. is_known (call_function places.now call)) calls.now }
{
    calls
        .iter()
        .any(|call| is_known(places.call_function(*call)))
}

fn put_call_functions(out: &mut Vec<u8>, places: &Places, calls: &[u32]) -> Put
    ensures { OnOk result (out.new.items ≡ out.old.items ++ flat_map (function_item places.now) calls.now) }
{
    for call in calls {
        out.extend_from_slice(b",")?;
        put_name(out, places.call_function(*call))?;
    }
    Ok(())
}

/// Puts a name as a value, null if it isn't known.
pub(crate) fn put_name(out: &mut Vec<u8>, name: &[u8]) -> Put
    ensures { OnOk result (out.new.items ≡ out.old.items ++ name_value name.now) }
{
    match name {
        [] => out.extend_from_slice(b"null"),
        [_, ..] => put_string(out, name),
    }
}

// Puts the variable that a race's word is in, else the block that it was in, if one of them is known.
#[tactic(auto, unfolding(crate::specs::Document::subject_member))]
fn put_subject(out: &mut Vec<u8>, places: &Places, line: u64, deed: Deed) -> Put
    ensures { OnOk result (out.new.items ≡ out.old.items ++ subject_member places.now line deed) }
{
    let Deed::Access(_, word) = deed else {
        return Ok(());
    };
    if let Some(variable) = places.variable_of(word) {
        return put!(out, Style::Json, places.names();
            Name(b",\"variable\":{\"name\":", variable.name.as_slice()),
            Number(b",\"offset\":", variable.extent.offset_of(word.number())), Text(b"}")
        );
    }
    match places.block_of(line, word) {
        Some(block) => put_block(out, places, word, block),
        None => Ok(()),
    }
}

fn put_block(out: &mut Vec<u8>, places: &Places, word: Word, block: &Block) -> Put
    ensures { OnOk result (out.new.items ≡ out.old.items ++ subject_by places.now word None (Some block.now)) }
{
    let (offset, size) = (block.extent.offset_of(word.number()), block.extent.size);
    match block.place {
        Some(place) => put!(out, Style::Json, places.names();
            Number(b",\"block\":{\"size\":", size), Number(b",\"offset\":", offset),
            Name(b",\"site\":", places.call_name(place)), Text(b"}")
        ),
        None => put!(out, Style::Json, places.names();
            Number(b",\"block\":{\"size\":", size), Number(b",\"offset\":", offset),
            Text(b",\"site\":null}")
        ),
    }
}

#[tactic(auto, unfolding(crate::specs::Document::place_member))]
fn put_known(out: &mut Vec<u8>, names: &Names, place: &Place) -> Put
    requires { HasPlaceNames names.now place.now }
    ensures { OnOk result (out.new.items ≡ out.old.items ++ place_member names.now place.now) }
{
    let held = place.held.as_slice();
    let to_read = held_to_read(*out.allocator(), held, &place.write_held)?;
    put!(out, Style::Json, names;
        Site(b",\"site\":", place.site), Locks(b",\"held\":", held),
        Locks(b",\"held_to_read\":", &to_read)
    )
}

fn held_to_read(
    alloc: Global,
    held: &[LockId],
    write_held: &Lockset,
) -> Result<Vec<LockId>, AllocError>
    ensures { IfOk result (λ locks. locks.items ≡ filter (is_held_to_read write_held.now) held.now) }
{
    let mut locks = Vec::new(alloc);
    for lock in held {
        if !write_held.contains(*lock) {
            locks.push(*lock)?;
        }
    }
    Ok(locks)
}

// Puts the object of a refused step: what the thread asked for and why it was refused.
#[tactic(auto, unfolding(crate::specs::Document::refused_text))]
fn put_refused(out: &mut Vec<u8>, names: &Names, line: u64, step: &Step, why: Refusal) -> Put
    requires thread { step.now.thread < length names.now.threads }
    requires event { HasEventNames names.now step.now.event }
    ensures { OnOk result (out.new.items ≡ out.old.items ++ refused_text names.now line step.now why) }
{
    put!(out, Style::Json, names;
        Number(b"{\"line\":", line), Thread(b",\"thread\":", step.thread), Text(b",\"event\":\""),
        Text(event_verb(step.event)), Text(b"\",\"lock\":")
    )?;
    put_event_lock(out, names, step.event)?;
    out.extend_from_slice(b",\"why\":\"")?;
    out.extend_from_slice(why.text().as_bytes())?;
    out.extend_from_slice(b"\"}")
}

fn put_event_lock(out: &mut Vec<u8>, names: &Names, event: Event) -> Put
    requires { HasEventNames names.now event }
    ensures { OnOk result (out.new.items ≡ out.old.items ++ event_lock names.now event) }
{
    match event {
        Event::Acquire(lock, _) | Event::Release(lock, _) => {
            put!(out, Style::Json, names; Lock(b"", lock))
        }
        _ => out.extend_from_slice(b"null"),
    }
}

// Puts the state of a word, and closes its object.
#[tactic(auto, unfolding(crate::specs::Document::state_member))]
fn put_state(out: &mut Vec<u8>, names: &Names, state: &WordState) -> Put
    requires { HasStateNames names.now state.now }
    ensures { OnOk result (out.new.items ≡ out.old.items ++ state_member names.now state.now) }
{
    match state {
        WordState::Virgin => {
            out.extend_from_slice(b"virgin\",\"owner\":null,\"candidates\":null}")
        }
        WordState::Exclusive(thread) => put!(out, Style::Json, names;
            Thread(b"exclusive\",\"owner\":", *thread), Text(b",\"candidates\":null}")
        ),
        WordState::Shared(locks) => put!(out, Style::Json, names;
            Locks(b"shared\",\"owner\":null,\"candidates\":", locks.as_slice()), Text(b"}")
        ),
        WordState::SharedModified(locks) => put!(out, Style::Json, names;
            Locks(b"shared-modified\",\"owner\":null,\"candidates\":", locks.as_slice()),
            Text(b"}")
        ),
    }
}

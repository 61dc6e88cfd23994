//! Where in the program accesses stand, what their threads held, and the reasons of a result.
ghost use Rattle.std.specs.Prelude.{◌≡◌, ◌++◌, ◌<◌, flat_map, length, option_copied, IfSome, OnOk};
ghost use Rattle.std.specs.List.{list_all};
ghost use Rattle.er_json.specs.Places.{colon_below, file_end, is_digit, is_line};
ghost use Rattle.er_json.specs.Sarif.{HasLockNames, HasPlaceNames, HasReasonNames, file_member, function_text, holding_words, location_member, locks_words, mode_words, open_location, opening_text, reason_location};
ghost use Rattle.er_json.specs.Uris.{digit_byte, is_path_byte, uri_byte};

use er_event::{LockId, Lockset};
use er_places::{Legend, Place, Places};
use er_print::Piece::{Label, Lock, Number, Text, Thread, Verb};
use er_print::{Put, Style, comma_before, put, put_string};
use er_report::Because;
use er_trace::Names;

/// Puts where in the program races stand.
#[tactic(auto, unfolding(crate::specs::Sarif::location_member))]
pub(crate) fn put_location(out: &mut Vec<u8>, site: &[u8]) -> Put
    ensures { OnOk result (out.new.items ≡ out.old.items ++ location_member site.now) }
{
    out.extend_from_slice(b",\"locations\":[")?;
    open_location(out, site, b"")?;
    out.extend_from_slice(b"}]")?;
    Ok(())
}

/// Opens a location with its site and its function, if that is known.
#[tactic(auto, unfolding(crate::specs::Sarif::open_location))]
pub(crate) fn open_location(out: &mut Vec<u8>, site: &[u8], function: &[u8]) -> Put
    ensures { OnOk result (out.new.items ≡ out.old.items ++ open_location site.now function.now) }
{
    match file_end(site) {
        Some(place) => {
            put_file(out, site, place)?;
            put_function(out, b",\"logicalLocations\":[", function, b"]")
        }
        None => {
            out.extend_from_slice(b"{\"logicalLocations\":[{\"fullyQualifiedName\":")?;
            put_string(out, site)?;
            out.extend_from_slice(b"}")?;
            put_function(out, b",", function, b"")?;
            out.extend_from_slice(b"]")?;
            Ok(())
        }
    }
}

// Puts a function between these texts, if it is known.
#[tactic(auto, unfolding(crate::specs::Sarif::function_text))]
fn put_function(out: &mut Vec<u8>, before: &[u8], function: &[u8], behind: &[u8]) -> Put
    ensures { OnOk result (out.new.items ≡ out.old.items ++ function_text before.now function.now behind.now) }
{
    if function.is_empty() {
        return Ok(());
    }
    out.extend_from_slice(before)?;
    out.extend_from_slice(b"{\"fullyQualifiedName\":")?;
    put_string(out, function)?;
    out.extend_from_slice(b",\"kind\":\"function\"}")?;
    out.extend_from_slice(behind)?;
    Ok(())
}

#[tactic(auto, unfolding(crate::specs::Sarif::file_member))]
fn put_file(out: &mut Vec<u8>, site: &[u8], place: usize) -> Put
    requires { place < length site.now }
    ensures { OnOk result (out.new.items ≡ out.old.items ++ file_member site.now place) }
{
    out.extend_from_slice(b"{\"physicalLocation\":{\"artifactLocation\":{\"uri\":\"")?;
    put_path(out, &site[..place])?;
    out.extend_from_slice(b"\"},\"region\":{\"startLine\":")?;
    out.extend_from_slice(&site[place + 1..])?;
    out.extend_from_slice(b"}}")?;
    Ok(())
}

/// Puts a reason as a location of a log.
#[tactic(auto, unfolding(crate::specs::Sarif::reason_location))]
pub(crate) fn put_reason(out: &mut Vec<u8>, legend: &Legend, because: &Because) -> Put
    requires { HasReasonNames legend.now.names.now because.now }
    ensures { OnOk result (out.new.items ≡ out.old.items ++ reason_location legend.now.names.now legend.now.places.now because.now) }
{
    let names = legend.places.names();
    let place = legend.places.of_reason(because);
    put_opening(out, legend.places, place)?;
    put!(out, Style::InString, legend.names;
        Label(b"\"message\":{\"text\":\"", because.label), Thread(b": ", because.thread),
        Verb(b" ", because.kind), Number(b" on line ", because.line), Text(b" of the trace")
    )?;
    put_holding(out, names, place)?;
    out.extend_from_slice(b"\"}}")?;
    Ok(())
}

// Opens the location of a reason, with its site and its function if that is known.
fn put_opening(out: &mut Vec<u8>, places: &Places, place: Option<&Place>) -> Put
    requires { IfSome (option_copied place) (HasPlaceNames places.now.names) }
    ensures { OnOk result (out.new.items ≡ out.old.items ++ opening_text places.now (option_copied place.entry)) }
{
    match place {
        Some(place) if place.site.number() != 0 => {
            let names = places.names();
            let site = names.site_name(place.site).as_bytes();
            open_location(out, site, places.function_of(Some(place)))?;
            out.extend_from_slice(b",")
        }
        _ => out.extend_from_slice(b"{"),
    }
}

// Puts what the thread of a reason held, if that is known.
#[tactic(auto, unfolding(crate::specs::Sarif::holding_words))]
fn put_holding(out: &mut Vec<u8>, names: &Names, place: Option<&Place>) -> Put
    requires { IfSome (option_copied place) (HasPlaceNames names.now) }
    ensures { OnOk result (out.new.items ≡ out.old.items ++ holding_words names.now (option_copied place.entry)) }
{
    let Some(place) = place else {
        return Ok(());
    };
    out.extend_from_slice(b", holding")?;
    put_locks(out, names, &place.write_held, place.held.as_slice())
}

fn put_locks(out: &mut Vec<u8>, names: &Names, writes: &Lockset, locks: &[LockId]) -> Put
    requires { HasLockNames names.now locks.now }
    ensures { OnOk result (out.new.items ≡ out.old.items ++ locks_words names.now writes.now locks.now) }
{
    if locks.is_empty() {
        return out.extend_from_slice(b" no lock");
    }
    for (place, lock) in locks.iter().enumerate() {
        let mode = mode_words(writes, *lock);
        out.extend_from_slice(comma_before(place))?;
        put!(out, Style::InString, names; Lock(b" ", *lock), Text(mode))?;
    }
    Ok(())
}

fn mode_words(writes: &Lockset, lock: LockId) -> &'static [u8]
    ensures { result.now ≡ mode_words writes.now lock }
{
    if writes.contains(lock) {
        b"".as_slice()
    } else {
        b" (to read)".as_slice()
    }
}

// The place of the colon between a file and a line, if the name ends with both.
fn file_end(name: &[u8]) -> Option<usize>
    ensures { result ≡ file_end name.now }
{
    match last_colon(name) {
        Some(place) if place > 0 && is_line(&name[place + 1..]) => Some(place),
        _ => None,
    }
}

#[tactic(auto, unfolding(crate::specs::Places::colon_below))]
fn last_colon(name: &[u8]) -> Option<usize>
    ensures within { IfSome result (λ place. place < length name.now) }
    ensures place { result ≡ colon_below name.now (length name.now) }
{
    let mut found = None;
    for place in 0..name.len() {
        if name[place] == b':' {
            found = Some(place);
        }
    }
    found
}

fn is_line(text: &[u8]) -> bool
    ensures { result ≡ is_line text.now }
{
    match text {
        [] => false,
        [first, rest @ ..] => {
            b'1' <= *first && *first <= b'9' && rest.len() < 9 && are_digits(rest)
        }
    }
}

fn are_digits(text: &[u8]) -> bool
    ensures { result ≡ list_all is_digit text.now }
{
    text.iter().all(|byte| byte.is_ascii_digit())
}

fn put_path(out: &mut Vec<u8>, file: &[u8]) -> Put
    ensures { OnOk result (out.new.items ≡ out.old.items ++ flat_map uri_byte file.now) }
{
    for byte in file {
        if is_path_byte(*byte) {
            out.push(*byte)?;
        } else {
            out.extend_from_slice(&[b'%', digit_byte(*byte / 16), digit_byte(*byte % 16)])?;
        }
    }
    Ok(())
}

// Whether the byte stands for itself in the path of a URI that has no scheme.
fn is_path_byte(byte: u8) -> bool
    ensures { result ≡ is_path_byte byte }
{
    byte.is_ascii_alphanumeric() || b"/-._~!$&'()*+,;=@".contains(&byte)
}

fn digit_byte(digit: u8) -> u8
    requires { digit < 16 }
    ensures { result ≡ digit_byte digit }
{
    if digit < 10 {
        b'0' + digit
    } else {
        b'A' - 10 + digit
    }
}

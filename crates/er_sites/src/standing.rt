//! Where the access of a reason stood, what its thread held, and the calls that led there.
ghost use Rattle.std.specs.Prelude.{◌≡◌, ◌++◌, ◌≤◌, flat_map, length, option_copied, OnOk};
ghost use Rattle.er_sites.specs.Text.{HasLockNames, at_text, call_text, called_text, kept_text, known_text, led_text, mode_text, where_text};

use er_event::{LockId, Lockset, Site};
use er_places::{Place, Places};
use er_print::Piece::{Lock, Name, Number, Site as At, Text};
use er_print::{Put, Style, put};
use er_report::Because;
use er_trace::Names;

/// Puts where the access of a reason stood, if that is known and it isn't the race on this line.
pub(crate) fn put_where(out: &mut Vec<u8>, places: &Places, line: u64, because: &Because) -> Put
    ensures { OnOk result (out.new.items ≡ out.old.items ++ where_text places.now line because.now) }
{
    if because.line == line {
        return Ok(());
    }
    match places.of_reason(because) {
        Some(place) => {
            let (names, locks) = (places.names(), place.held.as_slice());
            put_at(out, names, place.site, locks.is_empty())?;
            put_led(out, places, Some(place))?;
            put_kept_locks(out, names, &place.write_held, locks)
        }
        None => Ok(()),
    }
}

/// Puts the function that an access is in, and the calls that led there.
pub(crate) fn put_led(out: &mut Vec<u8>, places: &Places, place: Option<&Place>) -> Put
    ensures { OnOk result (out.new.items ≡ out.old.items ++ led_text places.now (option_copied place.entry)) }
{
    let (names, function) = (places.names(), places.function_of(place));
    put_known(out, Style::Short, names, b"    in ", function, b"\n")?;
    put_called(out, places, places.calls_of(place))
}

/// Puts a name behind this text and before that. Of one that isn't known, which is empty, nothing.
pub fn put_known<'a>(
    out: &mut Vec<u8>,
    style: Style,
    names: &Names,
    before: &'a [u8],
    name: &'a [u8],
    behind: &'a [u8],
) -> Put
    ensures { OnOk result (out.new.items ≡ out.old.items ++ known_text style before.now name.now behind.now) }
{
    match name {
        [] => Ok(()),
        [_, ..] => put!(out, style, names; Name(before, name), Text(behind)),
    }
}

// Puts where the first of these calls stand, and how many more there are.
#[tactic(auto, using(crate::proofs::PutLemmas::called_few, crate::proofs::PutLemmas::called_many))]
fn put_called(out: &mut Vec<u8>, places: &Places, calls: &[u32]) -> Put
    ensures { OnOk result (out.new.items ≡ out.old.items ++ called_text places.now calls.now) }
{
    if calls.len() <= 8 {
        return put_calls(out, places, calls);
    }
    let (first, rest) = calls.split_at(8);
    put_calls(out, places, first)?;
    let more = rest.len() as u64;
    put!(out, Style::Short, places.names(); Number(b"    .. and ", more), Text(b" more\n"))
}

fn put_calls(out: &mut Vec<u8>, places: &Places, calls: &[u32]) -> Put
    ensures { OnOk result (out.new.items ≡ out.old.items ++ flat_map (call_text places.now) calls.now) }
{
    let names = places.names();
    for call in calls {
        let function = places.call_function(*call);
        put!(out, Style::Short, names; Name(b"    called at ", places.call_name(*call)))?;
        put_known(out, Style::Short, names, b" in ", function, b"")?;
        out.extend_from_slice(b"\n")?;
    }
    Ok(())
}

// Puts the site of an access, and that its thread held no lock if it held none.
fn put_at(out: &mut Vec<u8>, names: &Names, site: Site, holds_none: bool) -> Put
    requires { site ≤ length names.now.sites }
    ensures { OnOk result (out.new.items ≡ out.old.items ++ at_text names.now site holds_none) }
{
    match (site.number(), holds_none) {
        (0, true) => out.extend_from_slice(b"    holding no lock\n"),
        (0, false) => Ok(()),
        (_, true) => {
            put!(out, Style::Short, names; At(b"    at ", site), Text(b", holding no lock\n"))
        }
        (_, false) => put!(out, Style::Short, names; At(b"    at ", site), Text(b"\n")),
    }
}

fn put_kept_locks(out: &mut Vec<u8>, names: &Names, write_held: &Lockset, locks: &[LockId]) -> Put
    requires { HasLockNames names.now locks.now }
    ensures { OnOk result (out.new.items ≡ out.old.items ++ flat_map (kept_text names.now write_held.now) locks.now) }
{
    for lock in locks {
        let mode = mode_text(!write_held.contains(*lock));
        put!(out, Style::Short, names; Lock(b"    holding ", *lock), Text(mode), Text(b"\n"))?;
    }
    Ok(())
}

/// What is said of a lock, if it was held only to read.
pub(crate) fn mode_text(only_to_read: bool) -> &'static [u8]
    ensures { result.now ≡ mode_text only_to_read }
{
    if only_to_read {
        b", but only to read".as_slice()
    } else {
        b"".as_slice()
    }
}

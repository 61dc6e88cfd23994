//! The calls that led to the accesses of a result, as stacks.
ghost use Rattle.std.specs.Prelude.{◌≡◌, ◌++◌, flat_map, option_copied, IfSome, OnOk};
ghost use Rattle.er_json.specs.Sarif.{HasPlaceNames, call_frame, calls_of, frame_text, reason_stack, stack_if, stack_text, stacks_member, stacks_text};

use crate::document::put_list;
use crate::locations::open_location;
use er_places::{Place, Places};
use er_print::Piece::{Number, Site, Text};
use er_print::{Put, Style, put};
use er_report::{Because, Race};

/// Puts the stacks of a race's access and of those that its reasons name, as far as the calls that led there are known.
pub(crate) fn put_stacks(out: &mut Vec<u8>, places: &Places, race: &Race<'_>) -> Put
    ensures { OnOk result (out.new.items ≡ out.old.items ++ stacks_member (stacks_text places.now race.now)) }
{
    let mut stacks = Vec::new(*out.allocator());
    put_stack(&mut stacks, places, places.of_race(race))?;
    put_reason_stacks(&mut stacks, places, race.line, race.explained)?;
    put_list(out, b",\"stacks\":[", &stacks)
}

fn put_reason_stacks(out: &mut Vec<u8>, places: &Places, line: u64, explained: &[Because]) -> Put
    ensures { OnOk result (out.new.items ≡ out.old.items ++ flat_map (reason_stack places.now line) explained.now) }
{
    for because in explained {
        if because.line != line {
            put_stack(out, places, places.of_reason(because))?;
        }
    }
    Ok(())
}

// Puts a stack behind a comma, if there is a call.
#[tactic(auto, unfolding(crate::specs::Sarif::stack_text))]
fn put_stack(out: &mut Vec<u8>, places: &Places, place: Option<&Place>) -> Put
    requires { IfSome (option_copied place) (HasPlaceNames places.now.names) }
    ensures { OnOk result (out.new.items ≡ out.old.items ++ stack_if places.now (option_copied place.entry)) }
{
    let Some(place) = place else {
        return Ok(());
    };
    let calls = places.calls_of(Some(place));
    if calls.is_empty() {
        return Ok(());
    }
    let mut site = Vec::new(*out.allocator());
    put!(&mut site, Style::Plain, places.names(); Site(b"", place.site))?;
    put!(out, Style::Plain, places.names();
        Number(b",{\"message\":{\"text\":\"line ", place.line),
        Text(b" of the trace\"},\"frames\":[")
    )?;
    put_frame(out, &site, places.function_of(Some(place)))?;
    put_calls(out, places, calls)?;
    out.extend_from_slice(b"]}")?;
    Ok(())
}

// Puts the frame of each call behind a comma.
fn put_calls(out: &mut Vec<u8>, places: &Places, calls: &[u32]) -> Put
    ensures { OnOk result (out.new.items ≡ out.old.items ++ flat_map (call_frame places.now) calls.now) }
{
    for call in calls {
        out.extend_from_slice(b",")?;
        put_frame(out, places.call_name(*call), places.call_function(*call))?;
    }
    Ok(())
}

#[tactic(auto, unfolding(crate::specs::Sarif::frame_text))]
fn put_frame(out: &mut Vec<u8>, site: &[u8], function: &[u8]) -> Put
    ensures { OnOk result (out.new.items ≡ out.old.items ++ frame_text site.now function.now) }
{
    out.extend_from_slice(b"{\"location\":")?;
    open_location(out, site, function)?;
    out.extend_from_slice(b"}}")
}

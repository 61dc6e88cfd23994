//! How names are written.
ghost use Rattle.std.specs.Prelude.{◌≡◌, ◌++◌, ◌≤◌, length, OnOk};
ghost use Rattle.er_print.specs.Styles.{escaped, escaped_text, label_in, level_in, lock_in, locks_in, name_in, short, site_in, string_text};
ghost use Rattle.er_print.specs.Values.{between_text, comma_before};
ghost use Rattle.er_report.specs.Names.{HasLabelName, HasLockName, HasLockNames};

use crate::Put;
use er_event::{LockId, Site};
use er_lines::put_number;
use er_report::Label;
use er_trace::Names;

/// How a text writes names.
#[derive(Clone, Copy, Drop)]
pub enum Style {
    /// As they are.
    Plain,
    /// As strings of JSON, and several locks as an array.
    Json,
    /// As parts of a string of JSON.
    InString,
    /// Of a long name the end alone.
    Short,
}

/// Puts a name. Where names are short, `most` bytes of it are enough.
pub(crate) fn put_name(out: &mut Vec<u8>, style: Style, name: &[u8], most: usize) -> Put
    requires { 2 ≤ most }
    ensures { OnOk result (out.new.items ≡ out.old.items ++ name_in style most name.now) }
{
    match style {
        Style::Plain => out.extend_from_slice(name),
        Style::Json => put_string(out, name),
        Style::InString => put_escaped(out, name),
        Style::Short => put_short(out, name, most),
    }
}

/// Puts a text as a string of JSON.
pub fn put_string(out: &mut Vec<u8>, text: &[u8]) -> Put
    ensures { OnOk result (out.new.items ≡ out.old.items ++ string_text text.now) }
{
    out.push(b'"')?;
    put_escaped(out, text)?;
    out.extend_from_slice(b"\"")
}

/// Puts the bytes of a string of JSON, without its quotation marks.
pub fn put_escaped(out: &mut Vec<u8>, text: &[u8]) -> Put
    ensures { OnOk result (out.new.items ≡ out.old.items ++ escaped_text text.now) }
{
    for byte in text {
        put_byte(out, *byte)?;
    }
    Ok(())
}

fn put_byte(out: &mut Vec<u8>, byte: u8) -> Put
    ensures { OnOk result (out.new.items ≡ out.old.items ++ escaped byte) }
{
    if byte == b'"' || byte == b'\\' {
        out.push(b'\\')?;
    }
    out.push(byte)?;
    Ok(())
}

/// Puts a name in at most so many bytes.
pub fn put_short(out: &mut Vec<u8>, name: &[u8], most: usize) -> Put
    requires { 2 ≤ most }
    ensures { OnOk result (out.new.items ≡ out.old.items ++ short most name.now) }
{
    if name.len() <= most {
        return out.extend_from_slice(name);
    }
    out.extend_from_slice(b"..")?;
    out.extend_from_slice(&name[name.len() - (most - 2)..])
}

/// Puts the name of a lock, or the level of a level's.
pub(crate) fn put_lock_in(out: &mut Vec<u8>, style: Style, names: &Names, lock: LockId) -> Put
    requires { HasLockName names.now lock }
    ensures { OnOk result (out.new.items ≡ out.old.items ++ lock_in style names.now lock) }
{
    if lock.is_level_lock() {
        return put_level(out, style, u64::from(lock.number() - LockId::BELOW_LEVELS));
    }
    put_name(out, style, names.lock_name(lock).as_bytes(), 32)
}

fn put_level(out: &mut Vec<u8>, style: Style, level: u64) -> Put
    ensures { OnOk result (out.new.items ≡ out.old.items ++ level_in style level) }
{
    match style {
        Style::Json => {
            out.extend_from_slice(b"\"!")?;
            put_number(out, level)?;
            out.extend_from_slice(b"\"")
        }
        Style::Plain | Style::InString | Style::Short => {
            out.push(b'!')?;
            put_number(out, level)
        }
    }
}

/// Puts the name of a site, or what stands for the missing one.
pub(crate) fn put_site_in(out: &mut Vec<u8>, style: Style, names: &Names, site: Site) -> Put
    requires { site ≤ length names.now.sites }
    ensures { OnOk result (out.new.items ≡ out.old.items ++ site_in style names.now site) }
{
    if site.number() == 0 {
        return match style {
            Style::Json => out.extend_from_slice(b"null"),
            Style::Plain | Style::InString | Style::Short => out.extend_from_slice(b"-"),
        };
    }
    put_name(out, style, names.site_name(site).as_bytes(), 72)
}

/// Puts the names of locks.
pub(crate) fn put_locks_in(out: &mut Vec<u8>, style: Style, names: &Names, locks: &[LockId]) -> Put
    requires { HasLockNames names.now locks.now }
    ensures { OnOk result (out.new.items ≡ out.old.items ++ locks_in style names.now locks.now) }
{
    match (style, locks) {
        (Style::Json, _) => {
            out.push(b'[')?;
            put_between(out, b',', style, names, locks)?;
            out.extend_from_slice(b"]")
        }
        (_, []) => out.extend_from_slice(b"none"),
        _ => put_between(out, b' ', style, names, locks),
    }
}

fn put_between(out: &mut Vec<u8>, sign: u8, style: Style, names: &Names, locks: &[LockId]) -> Put
    requires { HasLockNames names.now locks.now }
    ensures { OnOk result (out.new.items ≡ out.old.items ++ between_text sign (lock_in style names.now) locks.now) }
{
    let [first, rest @ ..] = locks else {
        return Ok(());
    };
    put_lock_in(out, style, names, *first)?;
    for lock in rest {
        out.push(sign)?;
        put_lock_in(out, style, names, *lock)?;
    }
    Ok(())
}

/// What stands before the value in a place of an array: a comma, unless it is the first.
pub fn comma_before(place: usize) -> &'static [u8]
    ensures { result.now ≡ comma_before place }
{
    if place == 0 {
        b"".as_slice()
    } else {
        b",".as_slice()
    }
}

/// Puts what an access has to do with a race.
pub(crate) fn put_label_in(out: &mut Vec<u8>, style: Style, names: &Names, label: Label) -> Put
    requires { HasLabelName names.now label }
    ensures { OnOk result (out.new.items ≡ out.old.items ++ label_in style names.now label) }
{
    match label {
        Label::First => out.extend_from_slice(b"first"),
        Label::Joined => out.extend_from_slice(b"joined"),
        Label::Write => out.extend_from_slice(b"write"),
        Label::Uncovered(lock) => {
            put_lock_in(out, style, names, lock)?;
            out.extend_from_slice(b" not covering")
        }
        Label::Unordered => out.extend_from_slice(b"unordered with"),
    }
}

//! Names and numbers, in columns. Of a long name only the end is put, so that lines stay short.
ghost use Rattle.std.specs.Prelude.{◌≡◌, ◌++◌, ◌≤◌, length, OnOk};
ghost use Rattle.er_sites.specs.System.{is_system_name, is_system_site};
ghost use Rattle.er_sites.specs.Text.{site_within, pair_text, column_text, did_text};

use er_event::{Kind, Site};
use er_print::{Put, put_number, put_short};
use er_report::name_of;
use er_trace::Names;

// Puts the name of a site in at most so many bytes, or a dash for the missing one.
fn put_site_within(out: &mut Vec<u8>, names: &Names, site: Site, most: usize) -> Put
    requires site { site ≤ length names.now.sites }
    requires most { 2 ≤ most }
    ensures { OnOk result (out.new.items ≡ out.old.items ++ site_within most names.now site) }
{
    if site.number() == 0 {
        return out.extend_from_slice(b"-");
    }
    put_short(out, names.site_name(site).as_bytes(), most)
}

/// Whether a site of this name stands in a header of the system.
pub fn is_system_name(name: &str) -> bool
    ensures { result ≡ is_system_name name.now }
{
    let bytes = name.as_bytes();
    bytes.starts_with(b"/usr/include/") || bytes.starts_with(b"/usr/lib/")
}

/// Whether the site of this number does. The missing one has no name.
pub(crate) fn is_system_site(names: &Names, site: Site) -> bool
    requires { site ≤ length names.now.sites }
    ensures { result ≡ is_system_site names.now site }
{
    name_of(names, site).is_some_and(is_system_name)
}

/// Puts two sites, each with its own names.
#[tactic(auto, unfolding(crate::specs::Text::pair_text))]
pub(crate) fn put_pair(
    out: &mut Vec<u8>,
    names: &Names,
    others: &Names,
    site: Site,
    other: Site,
) -> Put
    requires site { site ≤ length names.now.sites }
    requires other { other ≤ length others.now.sites }
    ensures { OnOk result (out.new.items ≡ out.old.items ++ pair_text names.now others.now site other) }
{
    put_site_within(out, names, site, 57)?;
    out.extend_from_slice(b" and ")?;
    put_site_within(out, others, other, 57)?;
    Ok(())
}

/// Puts a number, and spaces up to the next column.
pub(crate) fn put_column(out: &mut Vec<u8>, n: u64) -> Put
    ensures { OnOk result (out.new.items ≡ out.old.items ++ column_text n) }
{
    let start = out.len();
    put_number(out, n)?;
    let width = out.len() - start;
    out.extend_from_slice(&b"          "[width.min(10)..])
}

/// What an access did.
pub fn did_text(kind: Kind) -> &'static [u8]
    ensures { result.now ≡ did_text kind }
{
    match kind {
        Kind::Read => b" read".as_slice(),
        Kind::Write => b" wrote".as_slice(),
    }
}

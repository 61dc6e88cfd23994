//! The first line of the report of a part.
ghost use Rattle.std.specs.Prelude.{◌≡◌, ◌++◌, OnOk};
ghost use Rattle.er_merge.specs.Headings.{about_text, digest_after, digest_each, digest_with, heading_text, reasons};

use er_lines::{put_hex, put_number};
use std::alloc::AllocError;

/// What the first line of the report of a part says.
#[derive(Clone, Copy, Debug, PartialEq, Eq, Drop)]
pub struct PartHeading {
    /// Which part it is, from 1.
    pub part: u64,
    /// How many parts there are.
    pub parts: u64,
    /// How many bytes the file of the trace has.
    pub bytes: u64,
    /// Their digest.
    pub digest: u64,
    /// The digest of the texts of all rules, one behind the other.
    pub rules: u64,
    /// Whether races have reasons.
    pub explained: bool,
}

/// The digest of no bytes.
pub const NO_DIGEST: u64 = 0;

/// The digest of bytes behind those that have this digest. It takes 8 bytes at a time. If one byte of a text is another one, so is the digest.
#[tactic(auto, using(crate::proofs::DigestLemmas::rest_digested))]
pub fn digest_after(digest: u64, bytes: &[u8]) -> u64
    ensures { result ≡ digest_after digest bytes.now }
{
    let mut sum = digest;
    let mut rest = bytes;
    while let Some((word, more)) = rest.split_first_chunk::<8>() {
        sum = digest_with(sum, u64::from_le_bytes(*word));
        rest = more;
    }
    digest_each(sum, rest)
}

// The digest with each of these bytes as a number of its own.
fn digest_each(digest: u64, bytes: &[u8]) -> u64
    ensures { result ≡ digest_each digest bytes.now }
{
    let mut digest = digest;
    for byte in bytes {
        digest = digest_with(digest, u64::from(*byte));
    }
    digest
}

#[tactic(auto, unfolding(crate::specs::Headings::digest_with))]
fn digest_with(digest: u64, number: u64) -> u64
    ensures { result ≡ digest_with digest number }
{
    digest
        .wrapping_add(number)
        .wrapping_add(1)
        .wrapping_mul(11_400_714_819_323_198_485)
}

/// Puts the first line of the report of a part.
pub fn put_heading(out: &mut Vec<u8>, heading: &PartHeading) -> Result<(), AllocError>
    ensures { OnOk result (out.new.items ≡ out.old.items ++ heading_text heading.now) }
{
    out.extend_from_slice(b"# part ")?;
    put_number(out, heading.part)?;
    out.extend_from_slice(b" of ")?;
    put_number(out, heading.parts)?;
    put_about(out, heading)?;
    out.extend_from_slice(b"\n")?;
    Ok(())
}

fn put_about(out: &mut Vec<u8>, heading: &PartHeading) -> Result<(), AllocError>
    ensures { OnOk result (out.new.items ≡ out.old.items ++ about_text heading.now) }
{
    out.extend_from_slice(b" of a trace of ")?;
    put_number(out, heading.bytes)?;
    out.extend_from_slice(b" bytes, digest ")?;
    put_hex(out, 16, heading.digest)?;
    out.extend_from_slice(b", rules ")?;
    put_hex(out, 16, heading.rules)?;
    out.extend_from_slice(reasons(heading.explained))?;
    Ok(())
}

fn reasons(explained: bool) -> &'static [u8]
    ensures { result.now ≡ reasons explained }
{
    if explained {
        b", with reasons".as_slice()
    } else {
        b", without reasons".as_slice()
    }
}

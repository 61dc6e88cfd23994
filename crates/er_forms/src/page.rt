//! The page: the reports and the excerpts as blocks of data, and excerpts as JSON.
ghost use Rattle.std.specs.Prelude.{◌≡◌, ◌++◌, flat_map, IfOk, OnOk};
ghost use Rattle.er_forms.specs.Page.{HaveNames, IsInert, block_text, excerpt_text, excerpts_text, html_reports, inert, source_byte, values_text};
ghost use Rattle.er_json.specs.Document.{json_reports};

use crate::excerpts::Excerpt;
use crate::picture::PICTURE;
use crate::script::SCRIPT;
use crate::shell::{BEFORE_SCRIPT, BETWEEN, BODY, CLOSING, OPENING};
use crate::style::STYLE;
use er_json::json_text;
use er_places::Legend;
use er_print::{Built, Put, comma_before, put_escaped, put_number, put_string};
use er_report::Reports;
use std::alloc::Global;

/// The reports as a page, with these names for their numbers and these excerpts of source files. Each reason of a race says where its access
/// was and what its thread held, as far as the places are known.
#[tactic(auto, using(crate::proofs::InertLemmas::inert_block), unfolding(crate::specs::Page::html_reports))]
pub fn html_text(alloc: Global, reports: &Reports, legend: &Legend, excerpts: &[Excerpt]) -> Built
    requires { HaveNames legend.now.names.now reports.now }
    ensures text { IfOk result (λ text. text.items ≡ html_reports legend.now.names.now legend.now.places.now reports.now excerpts.now) }
    ensures inert { IsInert (block_text (json_reports legend.now.names.now legend.now.places.now reports.now)) × IsInert (block_text (excerpts_text excerpts.now)) }
{
    let json = json_text(alloc, reports, legend)?;
    let sources = excerpts_text(alloc, excerpts)?;
    let mut text = Vec::new(alloc);
    text.extend_from_slice(OPENING)?;
    text.extend_from_slice(STYLE)?;
    text.extend_from_slice(BODY)?;
    put_block(&mut text, &json)?;
    text.extend_from_slice(BETWEEN)?;
    put_block(&mut text, &sources)?;
    text.extend_from_slice(BEFORE_SCRIPT)?;
    text.extend_from_slice(PICTURE)?;
    text.extend_from_slice(SCRIPT)?;
    text.extend_from_slice(CLOSING)?;
    Ok(text)
}

#[tactic(auto, unfolding(crate::specs::Page::block_text))]
fn put_block(out: &mut Vec<u8>, json: &[u8]) -> Put
    ensures { OnOk result (out.new.items ≡ out.old.items ++ block_text json.now) }
{
    for byte in json {
        match *byte {
            b'<' => out.extend_from_slice(b"\\u003c")?,
            byte => out.push(byte)?,
        }
    }
    Ok(())
}

#[tactic(auto, unfolding(crate::specs::Page::excerpts_text))]
fn excerpts_text(alloc: Global, excerpts: &[Excerpt]) -> Built
    ensures { IfOk result (λ json. json.items ≡ excerpts_text excerpts.now) }
{
    let mut json = Vec::new(alloc);
    json.extend_from_slice(b"[")?;
    for (place, excerpt) in excerpts.iter().enumerate() {
        json.extend_from_slice(comma_before(place))?;
        put_excerpt(&mut json, excerpt)?;
    }
    json.extend_from_slice(b"]")?;
    Ok(json)
}

#[tactic(auto, unfolding(crate::specs::Page::excerpt_text))]
fn put_excerpt(out: &mut Vec<u8>, excerpt: &Excerpt) -> Put
    ensures { OnOk result (out.new.items ≡ out.old.items ++ excerpt_text excerpt.now) }
{
    out.extend_from_slice(b"\n{\"site\":")?;
    put_string(out, excerpt.site.as_bytes())?;
    out.extend_from_slice(b",\"line\":")?;
    put_number(out, excerpt.first_line)?;
    out.extend_from_slice(b",\"text\":\"")?;
    put_source(out, excerpt.text.as_bytes())?;
    out.extend_from_slice(b"\"}")
}

fn put_source(out: &mut Vec<u8>, text: &[u8]) -> Put
    ensures { OnOk result (out.new.items ≡ out.old.items ++ flat_map source_byte text.now) }
{
    for byte in text {
        match *byte {
            b'\n' => out.extend_from_slice(b"\\n")?,
            b'\t' => out.extend_from_slice(b"\\t")?,
            0..=31 => out.extend_from_slice(b" ")?,
            byte => put_escaped(out, &[byte])?,
        }
    }
    Ok(())
}

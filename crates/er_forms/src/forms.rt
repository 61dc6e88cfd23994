//! Reports in, the bytes of a form out.
ghost use Rattle.std.specs.Prelude.{IfOk};
ghost use Rattle.er_forms.specs.Forms.{IsForm};
ghost use Rattle.er_report.specs.Reports.{HaveNames};
ghost use Rattle.er_rules.specs.Rules.{targets_of};

use crate::excerpts::Excerpt;
use crate::page::html_text;
use er_json::{json_text, sarif_text};
use er_places::{Legend, Places};
use er_print::{Built, reports_text};
use er_report::{Form, Reports};
use er_rules::Suppressions;
use er_sites::sites_text;
use er_trace::Names;
use std::alloc::Global;

/// The reports of a trace in a form, with the names of its numbers. The places of accesses that reasons name are for all forms but the
/// text, the rules of suppressions for SARIF, and the excerpts of source files for the page.
pub fn render(
    alloc: Global,
    form: Form,
    reports: &Reports,
    names: &Names,
    places: &Places,
    suppressions: &Suppressions,
    excerpts: &[Excerpt],
) -> Built
    requires { HaveNames names.now reports.now }
    ensures { IfOk result (λ text. IsForm form names.now places.now (targets_of suppressions.now) excerpts.now reports.now text.items) }
{
    let legend = &Legend { names, places };
    match form {
        Form::Text => reports_text(alloc, reports, names),
        Form::BySite => sites_text(alloc, reports, legend),
        Form::Json => json_text(alloc, reports, legend),
        Form::Sarif => sarif_text(alloc, reports, legend, suppressions),
        Form::Html => html_text(alloc, reports, legend, excerpts),
    }
}

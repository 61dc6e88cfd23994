//! Which rule takes a race, by the name of its site.
ghost use Rattle.std.specs.Prelude.{◌≡◌, ◌<◌, ◌≤◌, length, option_copied, IfSome};
ghost use Rattle.er_journal.specs.AnswerList.{shown};
ghost use Rattle.er_report.specs.Names.{HasSiteName};
ghost use Rattle.er_report.specs.Report.{site_name, answer_matching_rule};
ghost use Rattle.er_rules.specs.Rules.{targets_of};

use er_event::{Event, Site};
use er_journal::Answer;
use er_rules::Suppressions;
use er_trace::Names;

/// The first rule that takes an event of this answer, whose line names the site. The answer must be a race.
pub(crate) fn first_rule(
    suppressions: &Suppressions,
    names: &Names,
    site: Site,
    event: Event,
    answer: Answer<'_>,
) -> Option<usize>
    requires own { HasSiteName names.now event }
    requires at { site ≤ length names.now.sites }
    ensures value { result ≡ answer_matching_rule (targets_of suppressions.now) names.now site event (shown answer.entry) }
    ensures within { IfSome result (λ rule. rule < length (targets_of suppressions.now)) }
{
    match (answer, event) {
        (Answer::Race, Event::Access(_, word, site)) => {
            suppressions.matching_rule(name_of(names, site), word)
        }
        (Answer::Race, Event::Reuse(range)) => {
            suppressions.matching_reuse(name_of(names, site), range)
        }
        _ => None,
    }
}

/// The name of a site, unless it is the missing one.
pub fn name_of(names: &Names, site: Site) -> Option<&str>
    requires { site ≤ length names.now.sites }
    ensures { option_copied result ≡ site_name names.now site }
{
    if site.number() == 0 {
        return None;
    }
    Some(names.site_name(site))
}

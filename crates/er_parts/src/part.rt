//! Which part of a trace is replayed.
ghost use Rattle.std.specs.Prelude.{◌≡◌, ◌≤◌, ◌==◌, ◌↔◌, true, None, All, count_by, filter, IfSome, IsSome, length};
ghost use Rattle.er_parts.specs.Parts.{has_page, is_of_page, is_wanted, kept_beside, page_in, part_at, takes};

use er_event::{Event, Site, Step};
use std::marker::Model;

// A part may want pages by the remainder of their number by this one.
const REMAINDERS: usize = 4096;

/// One of so many parts of a trace, counted from 1. Pages are dealt out to the parts in turn. Or the only part, which has some pages alone.
#[derive(Clone, Copy, Debug, PartialEq, Eq)]
pub struct Part {
    index: u64,
    count: u64,
    // Which pages are wanted, by their remainders, if not all are.
    wanted: Option<[bool; REMAINDERS]>,
}

impl Model for Part {
    ghost use Rattle.std.specs.Prelude.{◌≤◌};
    ghost use Rattle.er_parts.specs.Parts.{PartView};

    ghost Value = { PartView };

    ghost view = { λ p. record { index = p.index; count = p.count; wanted = p.wanted } };

    ghost invariant = { λ p. (1 ≤ p.index) × (p.index ≤ p.count) × (p.count ≤ 4096) };

    ghost inverse = { λ v. record { index = v.index; count = v.count; wanted = v.wanted } };
}

impl Part {
    /// The most parts that there are.
    pub const MOST: u64 = 4096;

    /// The part of this number, from 1, of so many; None if there is no such part or if there are too many.
    pub fn new(index: u64, count: u64) -> Option<Part>
        ensures part { IfSome result (λ part. part ≡ part_at count index) }
        ensures some { IsSome result ↔ ((1 ≤ index) × (index ≤ count) × (count ≤ 4096)) }
    {
        if index < 1 || index > count || count > Part::MOST {
            return None;
        }
        Some(Part {
            index,
            count,
            wanted: None,
        })
    }

    /// The part that answers the events of these pages, perhaps those of some others, and the events that are of no page.
    pub fn of_pages(pages: &[u64]) -> Part
        ensures first { result.index ≡ 1 }
        ensures pages { All (λ page. has_page result page ≡ true) pages.now }
    {
        let mut remainders = [false; REMAINDERS];
        for page in pages {
            remainders[(*page % 4096) as usize] = true;
        }
        Part {
            index: 1,
            count: 1,
            wanted: Some(remainders),
        }
    }

    /// Which part it is, from 1.
    pub fn index(self) -> u64
        ensures value { result ≡ self.index }
        ensures some { 1 ≤ result }
    {
        self.index
    }

    /// Of how many.
    pub fn count(self) -> u64
        ensures value { result ≡ self.count }
        ensures limits { (self.index ≤ result) × (result ≤ 4096) }
    {
        self.count
    }

    /// Whether it also answers the events that are of no page.
    pub fn is_first(self) -> bool
        ensures { result ≡ (self.index == 1) }
    {
        self.index == 1
    }

    /// Whether the step is of use to the part: it is of no page, or of one of its pages.
    #[tactic(auto, unfolding(crate::specs::Parts::takes))]
    pub fn takes(&self, step: &Step) -> bool
        ensures { result ≡ takes self.now step.now }
    {
        match page_in(step.event) {
            Some(page) => self.has_page(page),
            None => true,
        }
    }

    /// Keeps the steps that are of use to the part, and what stands beside these, in place. Returns how many of them are accesses, reuses or shows.
    pub fn keep(self, steps: &mut Vec<Step>, lines: &mut Vec<u64>, sites: &mut Vec<Site>) -> u64
        requires lines { length lines.old.items ≡ length steps.old.items }
        requires sites { length sites.old.items ≡ length steps.old.items }
        ensures steps { steps.new.items ≡ filter (takes self) steps.old.items }
        ensures lines { lines.new.items ≡ kept_beside self steps.old.items lines.old.items }
        ensures sites { sites.new.items ≡ kept_beside self steps.old.items sites.old.items }
        ensures counted { result ≡ count_by is_of_page steps.new.items }
    {
        let mut kept = 0;
        let mut counted = 0;
        for i in 0..steps.len() {
            let step = steps[i];
            steps[kept] = step;
            lines[kept] = lines[i];
            sites[kept] = sites[i];
            if self.takes(&step) {
                kept += 1;
                counted += u64::from(is_of_page(&step));
            }
        }
        steps.truncate(kept);
        lines.truncate(kept);
        sites.truncate(kept);
        counted
    }

    fn has_page(&self, page: u64) -> bool
        ensures { result ≡ has_page self.now page }
    {
        self.is_wanted(page) && page % self.count + 1 == self.index
    }

    fn is_wanted(&self, page: u64) -> bool
        ensures { result ≡ is_wanted self.now.wanted page }
    {
        match &self.wanted {
            Some(remainders) => remainders[(page % 4096) as usize],
            None => true,
        }
    }
}

// Whether the step is an access, a reuse or a show.
#[tactic(auto, unfolding(crate::specs::Parts::is_of_page))]
fn is_of_page(step: &Step) -> bool
    ensures { result ≡ is_of_page step.now }
{
    page_in(step.event).is_some()
}

// The page of an access, a reuse or a show; another event is of none.
fn page_in(event: Event) -> Option<u64>
    ensures { result ≡ page_in event }
{
    match event {
        Event::Access(_, word, _) | Event::Show(word) => Some(word.page()),
        Event::Reuse(range) => Some(range.page()),
        Event::Acquire(..)
        | Event::Release(..)
        | Event::IgnoreOn
        | Event::IgnoreOff
        | Event::Level(_)
        | Event::Sync(_) => None,
    }
}

//! `Explainer`, which finds the reasons of races while steps go by.
ghost use Rattle.std.specs.Prelude.{◌≡◌, ◌++◌, ◌+◌, ℕ, false, [], List, length, map, option_copied, slice_get, slice_index, IfOk, OnOk, Some};
ghost use Rattle.er_explain.specs.Following.{BeginsAt, CoversAt};
ghost use Rattle.er_explain.specs.WordBooks.{book_in};
ghost use Rattle.er_model.specs.Explanations.{word_in};
ghost use Rattle.er_report.specs.Kept.{Follows, joining_reasons, told_found, word_reasons};
ghost use Rattle.er_report.specs.Report.{is_printed};
ghost use Rattle.er_rules.specs.Rules.{Target};
ghost use Rattle.er_trace.specs.Trace.{Recording};

use crate::{Because, Details, Label, Made};
use er_event::{Event, Lockset, Step};
use er_explain::{Access, Joint, WordBooks};
use er_keys::HashKeys;
use std::alloc::Global;
use std::marker::Model;

/// The reasons of the printed races so far, and the books that later ones will need. It keeps no step.
#[derive(Drop)]
pub(crate) struct Explainer {
    // An access is named by its line.
    books: WordBooks<u64>,
    // Each in the box that its line is to keep.
    told: Vec<Box<Details>>,
    alloc: Global,
}

impl Model for Explainer {
    ghost use Rattle.std.specs.Prelude.{map};
    ghost use Rattle.er_report.specs.Kept.{Kept};

    ghost Value = { Kept };

    ghost view = { λ e. record { books = e.books; told = map (λ reasons. reasons.value.explained.items) e.told.items } };
}

impl Explainer {
    /// Nothing is kept before any step. The books find each word by these keys.
    pub(crate) fn new(alloc: Global, keys: HashKeys) -> Explainer
        ensures { (r : Recording) (rules : List Target) → Follows result r rules 0 }
    {
        Explainer {
            books: WordBooks::keyed(alloc, keys),
            told: Vec::new(alloc),
            alloc,
        }
    }

    /// How many races have reasons.
    pub(crate) fn told(&self) -> usize
        ensures { result ≡ length self.now.told }
    {
        self.told.len()
    }

    /// Goes on by a step on this line, which may be a race that is printed. If its access counts, these are the locks that cover it.
    pub(crate) fn follow(
        &mut self,
        line: u64,
        step: &Step,
        cover: Option<&Lockset>,
        printed: bool,
    ) -> Made<()>
        ensures { (r : Recording) (rules : List Target) (k : ℕ) → Follows self.old r rules k → slice_get r.steps k ≡ Some step.now → line ≡ slice_index r.lines k → CoversAt r.steps k step.now (option_copied cover.entry) → printed ≡ is_printed r rules k → OnOk result (Follows self.new r rules (k + 1)) }
    {
        self.books.follow(cover, line, step)?;
        if printed {
            let (held, explained) = (None, self.reasons_for(step.event)?);
            let reasons = Box::new(self.alloc, Details { held, explained })?;
            self.told.push(reasons)?;
        }
        Ok(())
    }

    /// Goes on by a step on this line that is the first access of its word since its last reuse, and no race.
    #[inline(always)]
    pub(crate) fn begin(&mut self, line: u64, step: &Step) -> Made<()>
        ensures { (r : Recording) (rules : List Target) (k : ℕ) → Follows self.old r rules k → slice_get r.steps k ≡ Some step.now → line ≡ slice_index r.lines k → BeginsAt r.steps k → is_printed r rules k ≡ false → OnOk result (Follows self.new r rules (k + 1)) }
    {
        self.books.begin(line, step)?;
        Ok(())
    }

    // The reasons that the book of an event's word tells, if the event is an access. Few accesses are races: so it is a call.
    #[inline(never)]
    fn reasons_for(&self, event: Event) -> Made<Vec<Because>>
        ensures { IfOk result (λ reasons. reasons.items ≡ word_reasons (book_in self.now.books) (word_in event)) }
    {
        if let Event::Access(_, word, _) = event
            && let Some(joint) = self.books.joining(word)
        {
            return reasons_of(self.alloc, joint);
        }
        Ok(Vec::new(self.alloc))
    }

    /// The reasons of the printed races, in their order.
    pub(crate) fn into_told(self) -> Vec<Box<Details>>
        ensures { map (λ reasons. reasons.value.explained.items) result.items ≡ self.told }
    {
        let Explainer { told, .. } = self;
        told
    }
}

// The accesses that a joining names, in the order of a report.
fn reasons_of(alloc: Global, joint: &Joint<Access<u64>>) -> Made<Vec<Because>>
    ensures { IfOk result (λ reasons. reasons.items ≡ joining_reasons joint.now) }
{
    let mut reasons = Vec::with_capacity(alloc, joint.pairs().len() + 3)?;
    put_found(&mut reasons, Label::First, Some(joint.first()))?;
    put_found(&mut reasons, Label::Joined, Some(joint.join()))?;
    put_found(&mut reasons, Label::Write, joint.write())?;
    for pair in joint.pairs() {
        put_found(&mut reasons, Label::Uncovered(pair.lock), pair.at)?;
    }
    Ok(reasons)
}

// Puts an access that was found, with its label.
fn put_found(reasons: &mut Vec<Because>, label: Label, found: Option<Access<u64>>) -> Made<()>
    ensures { OnOk result (reasons.new.items ≡ reasons.old.items ++ told_found label found) }
{
    if let Some(access) = found {
        reasons.push(Because {
            label,
            line: access.at,
            thread: access.thread,
            kind: access.kind,
        })?;
    }
    Ok(())
}

//! What the machine keeps of each access for the reasons of later races, and the reasons so far.
ghost use Rattle.std.specs.Prelude.{◌≡◌, ◌++◌, ◌∷◌, [], ℕ, List, Option, Some, map, OnOk};
ghost use Rattle.std.specs.Option.{option_to_list};
ghost use Rattle.er_event.specs.declared.steps.Step.{Step as Steps};
ghost use Rattle.er_explain.specs.Book.{event_kind};
ghost use Rattle.er_report.specs.declared.report.Because.{Because as Reason};
ghost use Rattle.er_unordered.specs.Tags.{line_reason};

use er_event::{Event, Kind, Step};
use er_report::{Because, Details, Label};
use std::alloc::{AllocError, Global};
use std::marker::Model;

/// What the machine keeps of each access: nothing, or the reason that it is of a later race.
pub(crate) trait Tag: Copy {
    /// What is kept of a step on this line of the text.
    ghost tag_of: { ℕ → Option Steps → Self };

    /// What is told of a race that has a line and names an access by this.
    ghost told_of: { Option Self → List (List Reason) };

    /// What is kept of a step on this line of the text.
    fn of(line: u64, step: &Step) -> Self
        ensures { result ≡ tag_of line (Some step.now) };

    /// Tells of a race that has a line. `AllocError`: memory was refused, and what was told is of no more use.
    fn tell(rival: Option<Self>, told: &mut Told) -> Result<(), AllocError>
        ensures { OnOk result (told.new ≡ told.old ++ told_of rival) };
}

impl Tag for () {
    ghost use Rattle.er_unordered.specs.Tags.{no_tag, none_told};

    ghost tag_of = { no_tag };

    ghost told_of = { none_told };

    fn of(_line: u64, _step: &Step) {}

    fn tell(_rival: Option<()>, _told: &mut Told) -> Result<(), AllocError>
        ensures { OnOk result (_told.new ≡ _told.old ++ none_told _rival) }
    {
        Ok(())
    }
}

impl Tag for Because {
    ghost use Rattle.er_unordered.specs.Tags.{line_reason, one_told};

    ghost tag_of = { line_reason };

    ghost told_of = { one_told };

    fn of(line: u64, step: &Step) -> Because {
        Because {
            label: Label::Unordered,
            line,
            thread: step.thread,
            kind: event_kind(step.event),
        }
    }

    fn tell(rival: Option<Because>, told: &mut Told) -> Result<(), AllocError>
        ensures { OnOk result (told.new ≡ told.old ++ one_told rival) }
    {
        told.put(rival)
    }
}

/// The reasons of the races that have lines so far, a list for each, if they are wanted, in the box that its line is to keep.
#[derive(Drop)]
pub(crate) struct Told {
    reasons: Vec<Box<Details>>,
    alloc: Global,
}

impl Model for Told {
    ghost use Rattle.std.specs.Prelude.{List, map};
    ghost use Rattle.er_report.specs.declared.report.Because.{Because as Reason};

    ghost Value = { List (List Reason) };

    ghost view = { λ t. map (λ reasons. reasons.value.explained.items) t.reasons.items };
}

impl Told {
    /// Nothing is told before any step.
    pub(crate) fn new(alloc: Global) -> Told
        ensures { result ≡ [] }
    {
        Told {
            reasons: Vec::new(alloc),
            alloc,
        }
    }

    /// The reasons, in the races' order.
    pub(crate) fn into_reasons(self) -> Vec<Box<Details>>
        ensures { map (λ reasons. reasons.value.explained.items) result.items ≡ self }
    {
        let Told { reasons, .. } = self;
        reasons
    }

    // Puts a list of what was found behind the others.
    fn put(&mut self, found: Option<Because>) -> Result<(), AllocError>
        ensures { OnOk result (self.new ≡ self.old ++ option_to_list found ∷ []) }
    {
        let (held, mut explained) = (None, Vec::new(self.alloc));
        explained.extend_from_slice(found.as_slice())?;
        let reasons = Box::new(self.alloc, Details { held, explained })?;
        self.reasons.push(reasons)?;
        Ok(())
    }
}

// The kind of an access. Another event is never a reason.
fn event_kind(event: Event) -> Kind
    ensures { result ≡ event_kind event }
{
    match event {
        Event::Access(kind, _, _) => kind,
        _ => Kind::Read,
    }
}

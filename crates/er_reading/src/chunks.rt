//! Steps that were read together.
ghost use Rattle.std.specs.Prelude.{◌≡◌};
ghost use Rattle.er_reading.specs.Chunks.{AreEmpty, IsEmpty, IsFormed};
ghost use Rattle.er_trace.specs.Trace.{with_steps, without_steps};

use er_event::{Site, Step};
use er_trace::Trace;
use std::alloc::Global;

/// Steps in order that were read by one thread, the line of text that each came from, and the site that this line names. They lie in memory of their own,
/// so that they needn't be copied behind those of another thread.
#[derive(Drop)]
pub struct Chunk {
    /// The steps.
    pub steps: Vec<Step>,
    /// The line of each.
    pub lines: Vec<u64>,
    /// The site that the line of each names, the missing one if it names none.
    pub sites: Vec<Site>,
}

impl Chunk {
    /// One without steps.
    pub fn new(alloc: Global) -> Chunk
        ensures { IsEmpty result }
    {
        Chunk {
            steps: Vec::new(alloc),
            lines: Vec::new(alloc),
            sites: Vec::new(alloc),
        }
    }

    /// Takes the steps of a trace, with their lines and sites, and gives it its own, whose numbers have names there.
    pub fn swap(&mut self, trace: &mut Trace)
        requires { IsFormed trace.old.names self.old }
        ensures trace { trace.new ≡ with_steps (without_steps trace.old) self.old.steps.items self.old.lines.items self.old.sites.items }
        ensures steps { self.new.steps.items ≡ trace.old.steps }
        ensures lines { self.new.lines.items ≡ trace.old.lines }
        ensures sites { self.new.sites.items ≡ trace.old.sites }
        ensures formed { IsFormed trace.old.names self.new }
    {
        trace.swap_steps(&mut self.steps, &mut self.lines, &mut self.sites);
    }

    /// Takes the steps of a trace for its own, which are forgotten, and leaves it none.
    pub(crate) fn take_all(&mut self, trace: &mut Trace)
        ensures trace { trace.new ≡ without_steps trace.old }
        ensures steps { self.new.steps.items ≡ trace.old.steps }
        ensures lines { self.new.lines.items ≡ trace.old.lines }
        ensures sites { self.new.sites.items ≡ trace.old.sites }
        ensures formed { IsFormed trace.old.names self.new }
    {
        self.clear();
        self.swap(trace);
    }

    // Forgets its steps, and keeps the room for as many.
    fn clear(&mut self)
        ensures { IsEmpty self.new }
    {
        self.steps.clear();
        self.lines.clear();
        self.sites.clear();
    }
}

/// Forgets the steps of these chunks, and keeps their room.
pub(crate) fn clear_all(chunks: &mut [Chunk])
    ensures { AreEmpty chunks.new }
{
    let Some((first, others)) = chunks.split_first_mut() else {
        return;
    };
    first.clear();
    clear_all(others);
}

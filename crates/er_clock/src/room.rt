//! How much memory the clocks take together, and how much work they were.
use std::alloc::{AllocError, Global};
use std::cell::Cell;
use std::rc::Rc;

/// A mark that a block or a row holds as long as some clock has it.
pub(crate) type Mark = Option<Rc<()>>;

/// Where clocks take memory, how many blocks and rows they have together (as many as there are marks), and how many of these were made or compared.
#[derive(Drop)]
pub(crate) struct Room {
    /// Where the memory is from.
    pub(crate) alloc: Global,
    blocks: Mark,
    rows: Mark,
    // The most rows for which there is room, where a block counts as two.
    most: usize,
    // How many blocks and rows were made, or compared count by count or part by part.
    work: Cell<u64>,
    // The most of these for which the steps suffice.
    most_work: u64,
}

impl Room {
    /// How many rows there is room for before any step: some 10 MB.
    const FIRST: usize = 1 << 15;
    /// For how many rows more a step makes room: some 2.7 KB. Of 65,000 threads that each signal an object of their own, each takes 8.
    const EACH: usize = 9;
    /// How many blocks and rows may be made and compared before any step: less than a second.
    const FIRST_WORK: u64 = 1 << 22;
    /// How many more for each step. Of 2,000 threads that meet at barriers and tick unequally often, each takes 36.
    const EACH_WORK: u64 = 64;

    /// Nothing is counted yet. It takes no memory.
    pub(crate) fn new(alloc: Global) -> Room {
        Room {
            alloc,
            blocks: None,
            rows: None,
            most: Room::FIRST,
            work: Cell::new(0),
            most_work: Room::FIRST_WORK,
        }
    }

    /// Makes room for one step more.
    #[inline(always)]
    pub(crate) fn grow(&mut self) -> Result<(), AllocError> {
        self.most = self.most.saturating_add(Room::EACH);
        self.most_work = self.most_work.saturating_add(Room::EACH_WORK);
        begin(&mut self.blocks, self.alloc)?;
        begin(&mut self.rows, self.alloc)
    }

    /// Whether the clocks have more blocks and rows than there is room for, or were more work than so many steps may be.
    #[inline(always)]
    pub(crate) fn is_full(&self) -> bool {
        let rows = shares(&self.rows);
        let blocks = shares(&self.blocks);
        rows.saturating_add(blocks).saturating_add(blocks) > self.most
            || self.work.get() > self.most_work
    }

    /// Counts a look at all counts of a block, or at all parts of a row.
    #[inline(always)]
    pub(crate) fn count_work(&self) {
        self.work.set(self.work.get().saturating_add(1));
    }

    /// The mark of a block more.
    pub(crate) fn block(&self) -> Result<Mark, AllocError> {
        self.count_work();
        another(&self.blocks)
    }

    /// The mark of a row more.
    pub(crate) fn row(&self) -> Result<Mark, AllocError> {
        self.count_work();
        another(&self.rows)
    }
}

// Makes the first mark, unless it is there.
#[inline(always)]
fn begin(marks: &mut Mark, alloc: Global) -> Result<(), AllocError> {
    if marks.is_none() {
        *marks = Some(Rc::new(alloc, ()).map_err(|_| AllocError)?);
    }
    Ok(())
}

fn another(marks: &Mark) -> Result<Mark, AllocError> {
    match marks {
        Some(first) => Ok(Some(first.clone()?)),
        None => Ok(None),
    }
}

#[inline(always)]
fn shares(marks: &Mark) -> usize {
    match marks {
        Some(first) => Rc::strong_count(first),
        None => 0,
    }
}

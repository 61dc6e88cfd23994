//! What a binary trace says of the program beside its events, as far as that is asked.
ghost use Rattle.std.specs.Prelude.{IsSorted, ◌≡◌, ◌==◌, ◌≤◌, ◌<◌, ◌^◌, ◌+◌, ◌*◌, ◌-◌, ◌/◌, ℕ, [], None, IfSome, OnOk, true, false, count_by, nat_eq, vec_len};
ghost use Rattle.er_binary.specs.Nodes.{way_to};

use crate::wanted::Put;
use er_binary::{Decoded, Listener, Names, Record, State, number, record_at};
use er_event::Word;
use er_lines::is_site_name;
use std::alloc::{AllocError, Global};
use std::collections::BTreeMap;
use std::io;
use std::io::{ErrorKind, Read};

// The most blocks that are kept.
const MOST_BLOCKS: usize = 256;

/// Bytes of memory: `size` of them, from an address on.
#[derive(Clone, Copy)]
pub struct Extent {
    pub address: u64,
    pub size: u64,
    ghost some: { 1 ≤ size },
    ghost within: { address + size ≤ 2 ^ 48 },
}

impl Extent {
    ghost use Rattle.er_places.specs.Facts.{has_word};

    // What the first bytes say, and the others. None if it has no byte, or one past the last address.
    fn read(bytes: &[u8]) -> Option<(Extent, &[u8])> {
        let (head, rest) = bytes.split_first_chunk::<12>()?;
        let (address, size) = (number(&head[..6]), number(&head[6..]));
        if size == 0 || size > Word::ADDRESSES || address > Word::ADDRESSES - size {
            return None;
        }
        Some((Extent { address, size }, rest))
    }

    /// Whether the word of a number has one of its bytes.
    pub fn has_word(self, word: u64) -> bool
        ensures { result ≡ has_word self word }
    {
        self.address / 4 <= word && word <= self.last_word()
    }

    /// Which of its bytes, from 0, is the first that a word has.
    pub fn offset_of(self, word: u64) -> u64
        requires { word < 2 ^ 46 }
        ensures { result ≡ 4 * word - self.address }
    {
        (4 * word).saturating_sub(self.address)
    }

    fn last_word(self) -> u64
        ensures { result ≡ (self.address + self.size - 1) / 4 }
    {
        (self.address + self.size - 1) / 4
    }
}

/// A variable.
#[derive(Drop)]
pub struct Variable {
    pub extent: Extent,
    pub name: Vec<u8>,
}

/// A block of memory, and the place where the program got it, if that is known.
#[derive(Clone, Copy)]
pub struct Block {
    pub extent: Extent,
    pub place: Option<u32>,
}

/// How a thread began: the place of the call that started it, if that is known, and what the program calls it, or nothing.
#[derive(Drop)]
pub struct Start {
    pub place: Option<u32>,
    pub name: Vec<u8>,
}

/// Where the life of a lock began: the place of the call that created it, or else that of the first call that acquired it.
#[derive(Clone, Copy)]
pub struct Birth {
    pub place: u32,
    pub is_created: bool,
}

impl Birth {
    ghost use Rattle.er_places.specs.Inner.Noting.{birth_by};

    // The lock that the body of a record names, and where its life began.
    fn read(state: &State, body: &[u8]) -> Option<(u64, Birth)>
        ensures { result ≡ birth_by state.now body.now }
    {
        let (head, rest) = body.split_first_chunk::<14>()?;
        let (lock, node) = (number(&head[..4]), number(&head[10..]));
        if lock >= state.locks.len() || node > state.nodes.len() || rest.len() > 1 {
            return None;
        }
        let place = state.nodes.place_of(node)?;
        let is_created = rest.is_empty();
        Some((lock, Birth { place, is_created }))
    }
}

/// What was asked and noted of a binary trace. Places are numbered.
#[derive(Drop)]
pub struct Facts {
    alloc: Global,
    // Whether memory was refused. Then what was noted may lack something, and isn't told.
    pub(crate) failed: bool,
    // The wanted lines and words, rising. Of the lines `met` are among the first `lines` of the text.
    wanted: Vec<u64>,
    words: Vec<u64>,
    met: usize,
    lines: u64,
    // No variable to come begins before this address, or is the first of so many of the words.
    from: u64,
    named: usize,
    // The last blocks that have wanted words, without those that lie in later ones.
    recent: Vec<Block>,
    // By the line of an event its place and those of the calls that led there, the innermost first, and the block that it touched.
    pub(crate) ways: BTreeMap<u64, Vec<u32>>,
    pub(crate) blocks: BTreeMap<u64, Block>,
    // By the number of a word the first variable that has it.
    pub(crate) variables: BTreeMap<u64, Variable>,
    // By their names the threads whose beginning is known.
    pub(crate) threads: BTreeMap<Vec<u8>, Start>,
    // By their names the locks of which it is known where their lives began.
    pub(crate) locks: BTreeMap<Vec<u8>, Birth>,
    // By place the function that it is in.
    pub(crate) functions: BTreeMap<u64, Vec<u8>>,
    pub(crate) places: Names,
}

impl Facts {
    ghost use Rattle.std.specs.Ordering.{nat_cmp};
    ghost use Rattle.std.specs.Global.{Vec as Bytes};
    ghost use Rattle.er_places.specs.Inner.Noting.{SameLines, birth_behind, birth_by, birth_in, next_made};
    ghost use Rattle.er_places.specs.Facts.{HasNoted, known_places, lines_asked, table_of, way_on};

    /// What a trace says of the events on these lines, and of these words, is asked. Both rise.
    pub(crate) fn asked(alloc: Global, lines: Vec<u64>, words: Vec<u64>) -> Facts
        ensures wanted { result.wanted ≡ lines }
        ensures words { result.words ≡ words }
        ensures met { result.met ≡ 0 }
        ensures lines { result.lines ≡ 1 }
        ensures nothing { table_of result ≡ known_places [] }
    {
        Facts {
            alloc,
            failed: false,
            wanted: lines,
            words,
            met: 0,
            lines: 1,
            from: 0,
            named: 0,
            recent: Vec::new(alloc),
            ways: BTreeMap::new(alloc),
            blocks: BTreeMap::new(alloc),
            variables: BTreeMap::new(alloc),
            threads: BTreeMap::new(alloc),
            locks: BTreeMap::new(alloc),
            functions: BTreeMap::new(alloc),
            places: Names::new(alloc),
        }
    }

    /// Nothing is asked.
    pub(crate) fn none(alloc: Global) -> Facts
        ensures { table_of result ≡ known_places [] }
    {
        Facts::asked(alloc, Vec::new(alloc), Vec::new(alloc))
    }

    // Counts the lines of a text, and notes the wanted ones among them. After an error some may be missed.
    fn meet_lines(&mut self, text: &[u8], state: &State) -> Put
        ensures { OnOk result (IsSorted nat_cmp (lines_asked self.old) → HasNoted self.old text.now state.now self.new) }
    {
        if self.met >= self.wanted.len() {
            return Ok(());
        }
        // An access on line L is of the word L behind this one, modulo 2^64.
        let word = state.last_word().wrapping_sub(self.lines.wrapping_add(1));
        self.lines = self.lines.saturating_add(feeds_in(text) as u64);
        while let Some(line) = self.next_made() {
            self.note(line, word.wrapping_add(line), state)?;
            self.met += 1;
        }
        Ok(())
    }

    // The next of the wanted lines, if it is made.
    fn next_made(&self) -> Option<u64>
        ensures value { result ≡ next_made self.now }
        ensures within { IfSome result (λ line. (self.now.met < vec_len self.now.wanted) × (line ≤ self.now.lines)) }
    {
        match self.wanted.get(self.met) {
            Some(line) if *line <= self.lines => Some(*line),
            _ => None,
        }
    }

    // Notes what led to the event on a line, and the block that has the word.
    fn note(&mut self, line: u64, word: u64, state: &State) -> Put
        requires made { line ≤ self.old.lines }
        ensures way { OnOk result (way_on (table_of self.new) line ≡ way_to state.now.nodes state.now.node) }
        ensures others { (l : ℕ) → nat_eq line l ≡ false → way_on (table_of self.new) l ≡ way_on (table_of self.old) l }
        ensures wanted { self.new.wanted ≡ self.old.wanted }
        ensures met { self.new.met ≡ self.old.met }
        ensures lines { self.new.lines ≡ self.old.lines }
    {
        let way = state.nodes.way_to(self.alloc, state.node)?;
        self.ways.insert(line, way)?;
        let mut latest = self.recent.iter().rev();
        if let Some(block) = latest.find(|block| block.extent.has_word(word)) {
            self.blocks.insert(line, *block)?;
        }
        Ok(())
    }

    // Notes what a record says. After an error it may be missed.
    fn note_record(&mut self, bytes: &[u8], text: &[u8], state: &State) -> Put
        ensures { OnOk result (IsSorted nat_cmp (lines_asked self.old) → HasNoted self.old text.now state.now self.new) }
    {
        self.meet_lines(text, state)?;
        match bytes.first() {
            Some(tag) if *tag >= 128 => self.note_fact(bytes, state),
            _ => Ok(()),
        }
    }

    // A fact that doesn't have its form, or that names what isn't there yet, says nothing.
    fn note_fact(&mut self, bytes: &[u8], state: &State) -> Put
        ensures { SameLines self.old self.new }
    {
        let Some(head) = record_at(bytes) else {
            return Ok(());
        };
        let (_, body) = bytes.split_at(head.len);
        // The tag is 4 times 32 and the kind, and which operand it has.
        match bytes[0] / 4 {
            58 => self.add_variable(body),
            59 => self.add_function(body, state),
            60 => self.add_thread(body, state),
            61 if body.len() == 16 => self.add_block(body, state),
            61 => self.add_lock(body, state),
            _ => Ok(()),
        }
    }

    fn add_block(&mut self, body: &[u8], state: &State) -> Put
        ensures { SameLines self.old self.new }
    {
        let Some((extent, node)) = Extent::read(body) else {
            return Ok(());
        };
        let (from, to) = self.words_of(extent);
        if from == to || node.len() != 4 || number(node) > state.nodes.len() {
            return Ok(());
        }
        let end = extent.address + extent.size;
        self.recent.retain(|old| old.extent.address < extent.address
            || end < old.extent.address + old.extent.size);
        if self.recent.len() >= MOST_BLOCKS {
            self.recent.remove(0);
        }
        let place = state.nodes.place_of(number(node));
        self.recent.push(Block { extent, place })?;
        Ok(())
    }

    fn add_variable(&mut self, body: &[u8]) -> Put
        ensures { SameLines self.old self.new }
    {
        let Some((extent, name)) = Extent::read(body) else {
            return Ok(());
        };
        if extent.address < self.from || !is_site_name(name) {
            return Ok(());
        }
        self.from = extent.address;
        let (from, to) = self.words_of(extent);
        for at in from.max(self.named)..to {
            if let Some(word) = self.words.get(at) {
                let name = Vec::from_slice(self.alloc, name)?;
                self.variables.insert(*word, Variable { extent, name })?;
            }
        }
        self.named = self.named.max(to);
        Ok(())
    }

    fn add_function(&mut self, body: &[u8], state: &State) -> Put
        ensures { SameLines self.old self.new }
    {
        let Some((head, name)) = body.split_first_chunk::<4>() else {
            return Ok(());
        };
        let (place, functions) = (number(head), &mut self.functions);
        if place < state.places.len() && is_site_name(name) && !functions.contains_key(&place) {
            functions.insert(place, Vec::from_slice(self.alloc, name)?)?;
        }
        Ok(())
    }

    fn add_thread(&mut self, body: &[u8], state: &State) -> Put
        ensures { SameLines self.old self.new }
    {
        let Some((head, name)) = body.split_first_chunk::<8>() else {
            return Ok(());
        };
        let (thread, node) = (number(&head[..4]), number(&head[4..]));
        let is_name = name.is_empty() || is_site_name(name);
        if thread < state.threads.len() && node <= state.nodes.len() && is_name {
            let key = Vec::from_slice(self.alloc, state.threads.get(thread))?;
            let place = state.nodes.place_of(node);
            let name = Vec::from_slice(self.alloc, name)?;
            self.threads.insert(key, Start { place, name })?;
        }
        Ok(())
    }

    fn add_lock(&mut self, body: &[u8], state: &State) -> Put
        ensures lines { SameLines self.old self.new }
        ensures births { OnOk result ((name : Bytes ℕ) → birth_in self.new name ≡ birth_behind state.now (birth_by state.now body.now) name.items (birth_in self.old name)) }
        ensures others { table_of self.new ≡ record (table_of self.old) { locks = self.new.locks.entries } }
    {
        if let Some((lock, birth)) = Birth::read(state, body) {
            let key = Vec::from_slice(self.alloc, state.locks.get(lock))?;
            self.locks.insert(key, birth)?;
        }
        Ok(())
    }

    // Where the wanted words begin that have a byte of these, and where they end.
    fn words_of(&self, extent: Extent) -> (usize, usize) {
        let (first, last) = (extent.address / 4, extent.last_word());
        let from = self.words.partition_point(|word| *word < first);
        let to = self.words.partition_point(|word| *word <= last);
        (from, to)
    }
}

fn feeds_in(bytes: &[u8]) -> usize
    ensures { result ≡ count_by (λ byte. byte == 10) bytes.now }
{
    bytes.iter().filter(|byte| **byte == b'\n').count()
}

impl Listener for Facts {
    ghost use Rattle.std.specs.Ordering.{nat_cmp};
    ghost use Rattle.er_places.specs.Facts.{HasNoted, is_told, lines_asked};

    fn hear(&mut self, bytes: &[u8], text: &[u8], state: &State)
        ensures noted { is_told self.new ≡ true → IsSorted nat_cmp (lines_asked self.old) → HasNoted self.old text.now state.now self.new }
        ensures refused { is_told self.old ≡ false → is_told self.new ≡ false }
    {
        if !self.failed {
            self.failed = self.note_record(bytes, text, state).is_err();
        }
    }
}

/// What reads the text of a trace, and what was asked and is noted meanwhile.
#[derive(Drop)]
pub struct Noting<R> {
    pub decoded: Decoded<R>,
    pub facts: Facts,
}

impl<R: Drop> Noting<R> {
    ghost use Rattle.er_binary.specs.Decoded.{places_of};
    ghost use Rattle.er_places.specs.Facts.{table_of, told};

    /// What was noted, as far as the trace was read. If memory was refused meanwhile, it is the names of the places alone.
    pub fn into_facts(self) -> Facts
        ensures { table_of result ≡ told self.facts (places_of self.decoded) }
    {
        let Noting { decoded, mut facts } = self;
        if facts.failed {
            facts = Facts::none(facts.alloc);
        }
        facts.places = decoded.into_places();
        facts
    }
}

impl<R: Read> Noting<R> {
    /// Reads the rest of a binary trace, which may have facts.
    pub fn read_on(&mut self) {
        let mut buffer = [0; 4096];
        for _ in 0..u64::MAX {
            match self.read(&mut buffer) {
                Ok(0) => return,
                Err(why) => {
                    self.facts.failed |= why.kind() == ErrorKind::OutOfMemory;
                    return;
                }
                Ok(_) if !self.decoded.is_binary() => return,
                Ok(_) => {}
            }
        }
    }
}

impl<R: Read> Read for Noting<R> {
    ghost use Rattle.std.specs.Prelude.{option_map};
    ghost use Rattle.er_binary.specs.Decoded.{source_of, to_come};

    ghost remaining = { λ noting. option_map (to_come noting.decoded) (R.remaining (source_of noting.decoded)) };

    fn read(&mut self, buffer: &mut [u8]) -> io::Result<usize> {
        self.decoded.read_with(buffer, &mut self.facts)
    }
}

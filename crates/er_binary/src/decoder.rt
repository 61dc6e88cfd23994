//! Decodes the blocks of a binary trace, one after another.
ghost use Rattle.std.specs.Prelude.{◌≡◌, ◌<◌, ◌≤◌, ◌^◌, ◌+◌, ◌/◌, ◌++◌, ℕ, List, OnOk, OnErr, IfOk, IfNone, IfSome, length, vec_len, min, take, option_map, false, true};
ghost use Rattle.std.specs.Io.{ReadsAtMost};
ghost use Rattle.er_lines.specs.Ready.{IsRight, KeepsNames, line_text};
ghost use Rattle.er_binary.specs.Inner.Words.{AreNamed};
ghost use Rattle.er_binary.specs.Meaning.{checksum, is_bad_len, last_line, mixed, past};
ghost use Rattle.er_binary.specs.Records.{record_at};
ghost use Rattle.er_binary.specs.States.{names_in};
ghost use Rattle.er_binary.specs.Touches.{said_by};
ghost use Rattle.std.specs.Io.KnownBytes.{IsAtEnd, Keeps, ReadConsumes, prepend_known};

use crate::decoded::Listener;
use crate::names::{Names, Put, number};
use crate::records::{Record, record_at};
use crate::state::State;
use crate::touches::{Notes, Said};
use er_lines::{ReadyLine, put_number};
use std::alloc::{AllocError, Global};
use std::io;
use std::io::{ErrorKind, Read};

/// A place in a block: how many records were found, the block's number, the byte at which it begins, and the byte of the next record, all modulo
/// 2^64. The block is to have `count` records and the checksum `sum`. What each record counts on stands apart: side by side it would go by vectors.
#[derive(Clone, Copy)]
pub struct Spot {
    pub found: u64,
    pub block: u64,
    pub start: u64,
    pub at: u64,
    pub count: u32,
    pub sum: u64,
}

impl Spot {
    // Goes on behind a record of so many bytes.
    fn pass(&mut self, len: usize)
        ensures { self.new ≡ past self.old len }
    {
        self.at = self.at.wrapping_add(len as u64);
        self.found = self.found.wrapping_add(1);
    }
}

/// What comes next: the first 16 bytes of a block, its records' bytes, a record of them, or nothing.
#[derive(Clone, Copy, PartialEq, Eq)]
pub(crate) enum Phase {
    Header,
    Content,
    Record,
    Nothing,
}

/// A decoder: it keeps the block that it is in, and the text of one record.
#[derive(Drop)]
pub(crate) struct Decoder {
    pub(crate) state: State,
    spot: Spot,
    phase: Phase,
    // The first bytes of the block, of which `header_held` were read.
    header: [u8; 16],
    header_held: usize,
    // The bytes of its records, of which `held` were read, and `next` are decoded.
    bytes: Vec<u8>,
    held: usize,
    next: usize,
    // The text that was made last, of which `given` bytes were given.
    text: Vec<u8>,
    given: usize,
    // Whether lines are taken: then a read gives the text of one record.
    is_taken: bool,
    // What accesses touch, if that is noted: those of all records that are decoded.
    pub(crate) notes: Notes,
    ghost begun: { header_held ≤ 16 },
    ghost within: { held ≤ vec_len bytes },
    ghost decoded: { next ≤ vec_len bytes },
    ghost small: { vec_len bytes ≤ 2 ^ 20 },
    ghost some: { given ≤ vec_len text },
    ghost named: { AreNamed state },
}

impl Decoder {
    ghost use Rattle.er_binary.specs.Inner.Decoders.{GoesOn, HasGiven, NotesOn, Takes, left, still, to_note};
    ghost use Rattle.er_lines.specs.Touches.{StaysKnown};
    ghost use Rattle.er_binary.specs.Meaning.{text_behind, touches_behind};
    ghost use Rattle.er_binary.specs.declared.decoder.Phase.TheVariants as phase;

    /// A decoder behind the first 8 bytes of a trace, which notes what accesses touch, or doesn't.
    pub(crate) fn new(alloc: Global, is_noting: bool) -> Result<Decoder, AllocError>
        ensures text { IfOk result (λ d. (bytes : List ℕ) → still d bytes ≡ text_behind bytes) }
        ensures on { IfOk result (λ d. d.notes.is_on ≡ is_noting) }
        ensures touches { IfOk result (λ d. (bytes : List ℕ) → to_note d bytes ≡ touches_behind bytes) }
    {
        Ok(Decoder {
            state: State::new(alloc),
            spot: Spot {
                block: 0,
                start: 8,
                at: 0,
                found: 0,
                count: 0,
                sum: 0,
            },
            phase: Phase::Header,
            header: [0; 16],
            header_held: 0,
            bytes: Vec::new(alloc),
            held: 0,
            next: 0,
            text: Vec::from_slice(alloc, b"eraser trace 3\n")?,
            given: 0,
            is_taken: false,
            notes: Notes::new(alloc, is_noting),
        })
    }

    /// The names of the places so far.
    pub(crate) fn into_places(self) -> Names
        ensures { result ≡ self.state.places }
    {
        let State { places, .. } = self.state;
        places
    }

    /// Gives text, and reads on where it must. No byte means that the text ended, or that the buffer has no room.
    pub(crate) fn read<R: Read, L: Listener>(
        &mut self,
        reader: &mut R,
        buffer: &mut [u8],
        listener: &mut L,
    ) -> io::Result<usize>
        ensures bound { ReadsAtMost result buffer.new }
        ensures bytes { ReadConsumes (option_map (still self.old) (R.remaining reader.old)) (option_map (still self.new) (R.remaining reader.new)) result buffer.new }
        ensures kept { KeepsNames (names_in self.old.state) (names_in self.new.state) }
        ensures on { self.new.notes.is_on ≡ self.old.notes.is_on }
        ensures noted { self.old.notes.is_on ≡ true → StaysKnown (option_map (to_note self.old) (R.remaining reader.old)) (option_map (to_note self.new) (R.remaining reader.new)) }
    {
        if buffer.is_empty() {
            return Ok(0);
        }
        for _ in 0..u64::MAX {
            let count = self.give_all(buffer, listener)?;
            if count > 0 {
                return Ok(count);
            }
            match self.phase {
                Phase::Nothing => return Ok(0),
                Phase::Header => self.read_header(reader)?,
                Phase::Content => self.read_content(reader)?,
                Phase::Record => {}
            }
        }
        Err(io::Error::from(ErrorKind::Other))
    }

    /// Takes the next lines, if they are those of an access or of a lock event of a block that was read. It reads nothing on. A refused allocation comes at the next `read`.
    #[inline(always)]
    pub(crate) fn take(&mut self) -> Option<ReadyLine>
        ensures none { IfNone result ((rest : List ℕ) → still self.old rest ≡ still self.new rest) }
        ensures some { IfSome result (λ line. (rest : List ℕ) → still self.old rest ≡ line_text (names_in self.new.state) line ++ still self.new rest) }
        ensures right { IfSome result (IsRight (names_in self.new.state)) }
        ensures kept { KeepsNames (names_in self.old.state) (names_in self.new.state) }
        ensures noted { NotesOn self.old self.new }
    {
        self.is_taken = true;
        self.find_lines()
    }

    // Passes over records without text up to an access or a lock event, and takes the lines of that. None: neither comes next.
    #[inline(always)]
    fn find_lines(&mut self) -> Option<ReadyLine>
        ensures none { IfNone result (GoesOn self.old self.new) }
        ensures takes { IfSome result (Takes self.old self.new) }
    {
        for _ in 0..8u8 {
            if self.given < self.text.len() || self.phase != Phase::Record {
                return None;
            }
            let (_, rest) = self.bytes.split_at(self.next);
            let head = record_at(rest)?;
            match head.says {
                Record::Access(access) => {
                    let words = self.state.words_of(access)?;
                    let line = self.state.line_of(&words)?;
                    let is_on = self.notes.is_on;
                    if is_on && !self.notes.note(Said::access(words.at, access.size)) {
                        return None;
                    }
                    self.state.pass(&words);
                    self.next += head.len;
                    self.spot.pass(head.len);
                    return Some(line);
                }
                Record::Other(kind, number) => {
                    if let Some(line) = self.state.lock_line(kind, number) {
                        self.notes.pass_lines(1);
                        self.state.events = self.state.events.wrapping_add(1);
                        self.next += head.len;
                        self.spot.pass(head.len);
                        return Some(line);
                    }
                    if self.state.goes_to(kind, number) {
                        self.next += head.len;
                        self.spot.pass(head.len);
                    } else if !self.makes_next() {
                        return None;
                    }
                }
            }
        }
        None
    }

    // Makes the text of the next record, and says whether it could. A function of its own, since what it has on its stack is cleared at each call.
    #[inline(never)]
    fn makes_next(&mut self) -> bool
        requires phase { self.old.phase ≡ phase.Record }
        requires given { HasGiven self.old }
        ensures goes { GoesOn self.old self.new }
    {
        self.next_record(&mut ()).is_ok()
    }

    // Gives the text of the block, as far as the buffer has room.
    fn give_all<L: Listener>(&mut self, buffer: &mut [u8], listener: &mut L) -> io::Result<usize>
        ensures bound { IfOk result (λ n. n ≤ length buffer.new) }
        ensures gives { IfOk result (λ n. (rest : List ℕ) → still self.old rest ≡ take n buffer.new ++ still self.new rest) }
        ensures given { IfOk result (λ n. n ≡ 0 → 0 < length buffer.new → HasGiven self.new) }
        ensures err { OnErr result ((rest : List ℕ) → still self.old rest ≡ still self.new rest) }
        ensures kept { KeepsNames (names_in self.old.state) (names_in self.new.state) }
        ensures noted { NotesOn self.old self.new }
    {
        let mut count = self.give(buffer);
        while count < buffer.len() && self.phase == Phase::Record && !(self.is_taken && count > 0) {
            if let Err(refused) = self.next_record(listener) {
                return if count > 0 { Ok(count) } else { Err(refused) };
            }
            count += self.give(&mut buffer[count..]);
        }
        Ok(count)
    }

    // Gives the rest of the text that was made.
    fn give(&mut self, buffer: &mut [u8]) -> usize
        ensures bound { result ≤ length buffer.new }
        ensures gives { (rest : List ℕ) → still self.old rest ≡ take result buffer.new ++ still self.new rest }
        ensures given { result < length buffer.new → HasGiven self.new }
        ensures state { self.new.state ≡ self.old.state }
        ensures phase { self.new.phase ≡ self.old.phase }
        ensures bytes { self.new.bytes ≡ self.old.bytes }
        ensures next { self.new.next ≡ self.old.next }
        ensures noted { NotesOn self.old self.new }
    {
        let (_, rest) = self.text.split_at(self.given);
        let count = copy_front(rest, buffer);
        self.given += count;
        count
    }

    // Makes the text of the next record, or ends the block.
    fn next_record<L: Listener>(&mut self, listener: &mut L) -> io::Result<()>
        requires phase { self.old.phase ≡ phase.Record }
        requires given { HasGiven self.old }
        ensures same { (rest : List ℕ) → still self.old rest ≡ still self.new rest }
        ensures less { OnOk result (left self.new.phase self.new < left self.old.phase self.old) }
        ensures kept { KeepsNames (names_in self.old.state) (names_in self.new.state) }
        ensures noted { NotesOn self.old self.new }
    {
        if self.next == self.bytes.len() {
            return self.end_block();
        }
        self.notes.make_room()?;
        self.given = 0;
        self.text.clear();
        let (_, rest) = self.bytes.split_at(self.next);
        let said = said_in_front(self.notes.is_on, &self.state, rest);
        match self.state.take(&mut self.text, rest) {
            Ok(Some(len)) => {
                self.notes.follow(said);
                self.next += len;
                self.spot.pass(len);
                let (bytes, _) = rest.split_at(len);
                listener.hear(bytes, &self.text, &self.state);
                Ok(())
            }
            Ok(None) => self.stop(b"damaged", self.spot.at),
            Err(refused) => {
                self.text.clear();
                Err(io::Error::from(refused))
            }
        }
    }

    fn end_block(&mut self) -> io::Result<()>
        requires phase { self.old.phase ≡ phase.Record }
        requires given { HasGiven self.old }
        requires next { self.old.next ≡ vec_len self.old.bytes }
        ensures same { (rest : List ℕ) → still self.old rest ≡ still self.new rest }
        ensures less { OnOk result (left self.new.phase self.new < left self.old.phase self.old) }
        ensures state { self.new.state ≡ self.old.state }
        ensures noted { NotesOn self.old self.new }
    {
        if self.spot.found != u64::from(self.spot.count) {
            return self.stop(b"damaged", self.spot.start);
        }
        self.spot.block = self.spot.block.wrapping_add(1);
        self.spot.start = self.spot.start.wrapping_add(16 + self.bytes.len() as u64);
        self.header_held = 0;
        self.phase = Phase::Header;
        Ok(())
    }

    // Reads the first bytes of the next block.
    fn read_header<R: Read>(&mut self, reader: &mut R) -> io::Result<()>
        requires phase { self.old.phase ≡ phase.Header }
        requires given { HasGiven self.old }
        ensures same { Keeps (option_map (still self.old) (R.remaining reader.old)) (option_map (still self.new) (R.remaining reader.new)) }
        ensures kept { KeepsNames (names_in self.old.state) (names_in self.new.state) }
        ensures on { self.new.notes.is_on ≡ self.old.notes.is_on }
        ensures noted { self.old.notes.is_on ≡ true → StaysKnown (option_map (to_note self.old) (R.remaining reader.old)) (option_map (to_note self.new) (R.remaining reader.new)) }
    {
        fill(reader, &mut self.header, &mut self.header_held)?;
        let (start, held) = (self.spot.start, self.header_held as u64);
        if self.state.ended {
            if held == 0 {
                self.phase = Phase::Nothing;
                return Ok(());
            }
            return self.stop(b"damaged", start);
        }
        if held < 16 {
            return self.stop(b"cut off", start.wrapping_add(held));
        }
        let len = number(&self.header[0..4]);
        if is_bad_len(len) {
            return self.stop(b"damaged", start);
        }
        // Makes room for the records of the block.
        self.bytes.truncate(len as usize);
        self.held = 0;
        self.next = 0;
        self.bytes.resize(len as usize, 0)?;
        self.spot.at = start.wrapping_add(16);
        self.spot.found = 0;
        self.spot.count = number(&self.header[4..8]) as u32;
        self.spot.sum = number(&self.header[8..16]);
        self.phase = Phase::Content;
        Ok(())
    }

    // Reads the records of a block.
    fn read_content<R: Read>(&mut self, reader: &mut R) -> io::Result<()>
        requires phase { self.old.phase ≡ phase.Content }
        requires given { HasGiven self.old }
        ensures same { Keeps (option_map (still self.old) (R.remaining reader.old)) (option_map (still self.new) (R.remaining reader.new)) }
        ensures kept { KeepsNames (names_in self.old.state) (names_in self.new.state) }
        ensures on { self.new.notes.is_on ≡ self.old.notes.is_on }
        ensures noted { self.old.notes.is_on ≡ true → StaysKnown (option_map (to_note self.old) (R.remaining reader.old)) (option_map (to_note self.new) (R.remaining reader.new)) }
    {
        fill(reader, &mut self.bytes, &mut self.held)?;
        let start = self.spot.start;
        if self.held < self.bytes.len() {
            return self.stop(b"cut off", start.wrapping_add(16 + self.held as u64));
        }
        if checksum(self.spot.block, self.spot.count, &self.bytes) != self.spot.sum {
            return self.stop(b"damaged", start);
        }
        self.state.begin_block();
        self.next = 0;
        self.phase = Phase::Record;
        Ok(())
    }

    // Ends the text by a line with this byte.
    fn stop(&mut self, what: &[u8], byte: u64) -> io::Result<()>
        requires { HasGiven self.old }
        ensures ok { OnOk result ((rest : List ℕ) → still self.new rest ≡ last_line what.now byte) }
        ensures phase { OnOk result (self.new.phase ≡ phase.Nothing) }
        ensures err { OnErr result ((rest : List ℕ) → still self.old rest ≡ still self.new rest) }
        ensures state { self.new.state ≡ self.old.state }
        ensures touches { OnOk result ((rest : List ℕ) → to_note self.new rest ≡ self.old.notes.touches.items) }
        ensures same { OnErr result (NotesOn self.old self.new) }
        ensures on { self.new.notes.is_on ≡ self.old.notes.is_on }
    {
        self.given = 0;
        self.text.clear();
        if let Err(refused) = put_last_line(&mut self.text, what, byte) {
            self.text.clear();
            return Err(io::Error::from(refused));
        }
        self.phase = Phase::Nothing;
        Ok(())
    }
}

// What the record in front says of the lines of its text, if there is one and that is asked for.
fn said_in_front(is_asked: bool, state: &State, bytes: &[u8]) -> Said
    ensures said { is_asked ≡ true → IfSome (record_at bytes.now) (λ head. result ≡ said_by state.now head.says) }
    ensures few { result.words ≤ 5 }
    ensures below { result.address + result.size < 2 ^ 63 }
{
    if is_asked && let Some(head) = record_at(bytes) {
        return state.said_by(head.says);
    }
    Said::lines(0)
}

// Whether the records of a block can't have so many bytes.
fn is_bad_len(len: u64) -> bool
    ensures value { result ≡ is_bad_len len }
    ensures small { result ≡ false → len ≤ 2 ^ 20 }
{
    len == 0 || len > 1 << 20
}

/// Copies the front of some bytes, as much as there is room for.
pub(crate) fn copy_front(from: &[u8], to: &mut [u8]) -> usize
    ensures count { result ≡ min (length from.now) (length to.new) }
    ensures bytes { take result to.new ≡ take result from.now }
{
    let count = from.len().min(to.len());
    to[..count].copy_from_slice(&from[..count]);
    count
}

fn put_last_line(out: &mut Vec<u8>, what: &[u8], byte: u64) -> Put
    ensures { OnOk result (out.new.items ≡ out.old.items ++ last_line what.now byte) }
{
    out.extend_from_slice(what)?;
    out.extend_from_slice(b" at byte ")?;
    put_number(out, byte)?;
    out.extend_from_slice(b"\n")
}

/// Reads on until all of the bytes are there, or the reader ends. `held` of them are there.
pub(crate) fn fill<R: Read>(reader: &mut R, bytes: &mut [u8], held: &mut usize) -> io::Result<()>
    requires { held.old ≤ length bytes.old }
    ensures within { held.new ≤ length bytes.new }
    ensures grown { held.old ≤ held.new }
    ensures same { Keeps (prepend_known (take held.old bytes.old) (R.remaining reader.old)) (prepend_known (take held.new bytes.new) (R.remaining reader.new)) }
    ensures end { OnOk result (held.new < length bytes.new → IsAtEnd (R.remaining reader.new)) }
{
    while *held < bytes.len() {
        let count = reader.read(&mut bytes[*held..])?;
        if count == 0 {
            return Ok(());
        }
        *held += count;
    }
    Ok(())
}

/// The checksum of a block with this number and this count of records.
pub(crate) fn checksum(block: u64, count: u32, bytes: &[u8]) -> u64
    requires { length bytes.now < 2 ^ 32 }
    ensures { result ≡ checksum block (length bytes.now) count bytes.now }
{
    let sizes = bytes.len() as u64 + u64::from(count) * 0x1_0000_0000;
    let mut sum = mixed(mixed(0, block), sizes);
    let mut rest = bytes;
    while let Some((word, more)) = rest.split_first_chunk::<8>() {
        sum = mixed(sum, u64::from_le_bytes(*word));
        rest = more;
    }
    if rest.is_empty() {
        return sum;
    }
    mixed(sum, number(rest))
}

#[inline(always)]
#[tactic(auto, unfolding(crate::specs::Meaning::mixed))]
fn mixed(sum: u64, word: u64) -> u64
    ensures { result ≡ mixed sum word }
{
    sum.wrapping_add(word)
        .wrapping_mul(0x9E37_79B9_7F4A_7C15)
        .rotate_left(32)
}

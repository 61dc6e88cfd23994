//! Which bytes of their words accesses touch, by the lines of the text.
ghost use Rattle.std.specs.Prelude.{◌≡◌, ◌∷◌, ℕ, ◌+◌, ◌<◌, ◌≤◌, ◌^◌, ◌++◌, [], IfOk, OnOk, OnErr, true, false, cond, vec_capacity, vec_len};
ghost use Rattle.er_binary.specs.Records.{IsSized};
ghost use Rattle.er_binary.specs.Texts.{words_of};
ghost use Rattle.er_binary.specs.Touches.{is_whole, lines_alone, lines_of, passed_by, said_by, touch_at, touches_said};

use crate::records::{Kind, Record};
use crate::state::State;
use er_lines::Touch;
use std::alloc::{AllocError, Global};

/// What a record says of the lines of its text: how many there are, and of an access, whose lines are of one word each, its address and size.
#[derive(Clone, Copy)]
pub struct Said {
    pub address: u64,
    pub size: u64,
    pub words: u64,
    pub lines: u64,
}

impl Said {
    /// An access of so many bytes.
    #[inline(always)]
    pub(crate) fn access(address: u64, size: u64) -> Said
        requires size { (1 ≤ size) × (size ≤ 16) }
        requires below { address < 2 ^ 48 }
        ensures said { result ≡ record { address = address; size = size; words = words_of address size; lines = words_of address size } }
        ensures few { result.words ≤ 5 }
    {
        let words = (address + size - 1) / 4 + 1 - address / 4;
        Said {
            address,
            size,
            words,
            lines: words,
        }
    }

    // Whether all of its words are touched whole.
    fn is_whole(self) -> bool
        requires few { self.words ≤ 5 }
        ensures { result ≡ true → (line : ℕ) → touches_said line self ≡ [] }
    {
        self.address % 4 == 0 && self.size == 4 * self.words
    }

    /// So many lines, and no access.
    pub(crate) fn lines(lines: u64) -> Said
        ensures { result ≡ lines_alone lines }
    {
        Said {
            address: 0,
            size: 0,
            words: 0,
            lines,
        }
    }
}

/// The most words that an access touches.
const MOST_WORDS: usize = 5;

/// The lines of the text so far, and what their accesses touch that touch a part of their word, if that is asked for.
#[derive(Drop)]
pub(crate) struct Notes {
    pub(crate) is_on: bool,
    // The number of the line that comes next.
    pub(crate) line: u64,
    pub(crate) touches: Vec<Touch>,
    ghost counted: { line < 2 ^ 64 },
}

impl Notes {
    ghost use Rattle.er_binary.specs.Inner.Decoders.{HasNoted};

    /// Before the line behind the header.
    pub(crate) fn new(alloc: Global, is_on: bool) -> Notes
        ensures on { result.is_on ≡ is_on }
        ensures line { result.line ≡ 2 }
        ensures none { result.touches.items ≡ [] }
    {
        Notes {
            is_on,
            line: 2,
            touches: Vec::new(alloc),
        }
    }

    /// Makes room for what the next record touches, if that is asked for.
    pub(crate) fn make_room(&mut self) -> Result<(), AllocError>
        ensures room { OnOk result (self.new.is_on ≡ true → vec_len self.new.touches + 5 ≤ vec_capacity self.new.touches) }
        ensures on { self.new.is_on ≡ self.old.is_on }
        ensures line { self.new.line ≡ self.old.line }
        ensures touches { self.new.touches.items ≡ self.old.touches.items }
    {
        if self.is_on {
            self.touches.reserve(MOST_WORDS)
        } else {
            Ok(())
        }
    }

    /// Goes on behind the lines of a record, and notes what they touch, if that is asked for.
    pub(crate) fn follow(&mut self, said: Said)
        requires room { self.old.is_on ≡ true → vec_len self.old.touches + 5 ≤ vec_capacity self.old.touches }
        requires few { said.words ≤ 5 }
        requires below { said.address + said.size < 2 ^ 63 }
        ensures on { self.new.is_on ≡ self.old.is_on }
        ensures touches { self.old.is_on ≡ true → self.new.touches.items ≡ self.old.touches.items ++ touches_said self.old.line said }
        ensures line { self.old.is_on ≡ true → self.new.line ≡ passed_by self.old.line said.lines }
    {
        if !self.is_on {
            return;
        }
        for k in 0..said.words {
            self.note_word(said, k);
        }
        self.line = self.line.saturating_add(said.lines);
    }

    // Notes what an access touches of the word at this place among its words, unless it touches all of it.
    fn note_word(&mut self, said: Said, k: u64)
        requires room { vec_len self.old.touches < vec_capacity self.old.touches }
        requires few { k < 5 }
        requires below { said.address + said.size < 2 ^ 63 }
        ensures on { self.new.is_on ≡ self.old.is_on }
        ensures line { self.new.line ≡ self.old.line }
        ensures touches { let touch = touch_at (passed_by self.old.line k) said k in self.new.touches.items ≡ self.old.touches.items ++ cond (is_whole touch) [] (touch ∷ []) }
        ensures len { vec_len self.new.touches ≤ vec_len self.old.touches + 1 }
        ensures capacity { vec_capacity self.new.touches ≡ vec_capacity self.old.touches }
    {
        let touch = touch_at(self.line.saturating_add(k), said, k);
        if is_whole(touch) {
            return;
        }
        self.touches.push_reserved(touch);
    }

    /// Puts what was noted behind the others, and forgets it. Returns the number of the line that comes next. `AllocError`: memory was refused, and
    /// nothing changed.
    pub(crate) fn hand_out(&mut self, touches: &mut Vec<Touch>) -> Result<u64, AllocError>
        ensures line { IfOk result (λ line. line ≡ self.old.line) }
        ensures handed { OnOk result (touches.new.items ≡ touches.old.items ++ self.old.touches.items) }
        ensures none { OnOk result (self.new.touches.items ≡ []) }
        ensures on { self.new.is_on ≡ self.old.is_on }
        ensures same { self.new.line ≡ self.old.line }
        ensures err { OnErr result ((touches.new.items ≡ touches.old.items) × (self.new.touches.items ≡ self.old.touches.items)) }
    {
        touches.extend_from_slice(&self.touches)?;
        self.touches.clear();
        Ok(self.line)
    }

    /// Goes on behind the lines of a record, and notes what they touch, if that is asked for. Without room nothing is noted.
    #[inline(never)]
    pub(crate) fn note(&mut self, said: Said) -> bool
        requires few { said.words ≤ 5 }
        requires below { said.address + said.size < 2 ^ 63 }
        ensures { HasNoted self.old self.new said result }
    {
        if said.is_whole() {
            self.pass_lines(said.lines);
            return true;
        }
        self.note_parts(said)
    }

    // The same of an access that touches parts of words. A function of its own, so that the other one is short.
    #[inline(never)]
    fn note_parts(&mut self, said: Said) -> bool
        requires few { said.words ≤ 5 }
        requires below { said.address + said.size < 2 ^ 63 }
        ensures { HasNoted self.old self.new said result }
    {
        match self.make_room() {
            Ok(()) => {
                self.follow(said);
                true
            }
            Err(_) => false,
        }
    }

    /// Goes on behind so many lines of no access, if they are counted.
    pub(crate) fn pass_lines(&mut self, lines: u64)
        ensures on { self.new.is_on ≡ self.old.is_on }
        ensures touches { self.new.touches.items ≡ self.old.touches.items }
        ensures line { self.old.is_on ≡ true → self.new.line ≡ passed_by self.old.line lines }
    {
        if self.is_on {
            self.line = self.line.saturating_add(lines);
        }
    }
}

// What an access touches of the word of this place among its words, whose line is this one.
fn touch_at(line: u64, said: Said, k: u64) -> Touch
    requires few { k < 5 }
    requires below { said.address + said.size < 2 ^ 63 }
    ensures { result ≡ touch_at line said k }
{
    let begin = (said.address / 4 + k) * 4;
    Touch {
        line,
        first: said.address.saturating_sub(begin) as u8,
        last: (said.address + said.size).saturating_sub(begin + 1).min(3) as u8,
    }
}

// Whether these are all bytes of a word.
fn is_whole(touch: Touch) -> bool
    ensures { result ≡ is_whole touch }
{
    touch.first == 0 && touch.last == 3
}

impl State {
    /// What a record that comes next says of the lines of its text.
    pub(crate) fn said_by(&self, says: Record) -> Said
        requires { IsSized says }
        ensures said { result ≡ said_by self.now says }
        ensures few { result.words ≤ 5 }
        ensures below { result.address + result.size < 2 ^ 63 }
    {
        match says {
            Record::Access(access) => { Said::access(self.address_of(access), access.size) }
            Record::Other(kind, _) => Said::lines(kind.lines()),
        }
    }
}

impl Kind {
    // How many lines the text of such a record has. Of the end the last one alone counts, since none comes behind it.
    fn lines(self) -> u64
        ensures { result ≡ lines_of self }
    {
        match self {
            Kind::Thread
            | Kind::Node
            | Kind::FailedTry
            | Kind::Flow
            | Kind::ThreadName
            | Kind::LockName
            | Kind::Place
            | Kind::NewNode
            | Kind::Fact
            | Kind::Lost => 0,
            _ => 1,
        }
    }
}

//! What is known behind the records so far, and takes one more.
ghost use Rattle.std.specs.Prelude.{◌≡◌, ◌≤◌, ◌<◌, ◌^◌, ◌+◌, [], IfOk, IfSome, OnOk, OnErr, length, ◌++◌, ◌/◌, ℕ, List, Some, None, true, false, if◌then◌else◌};
ghost use Rattle.std.specs.List.{list_all};
ghost use Rattle.er_binary.specs.Inner.Taking.{HasTaken};
ghost use Rattle.er_lines.specs.Ready.{IsRight, KeepsNames, line_text, name_by};
ghost use Rattle.er_binary.specs.Inner.Words.{AreNamed, IsSite, counted, kind_for, passed, verb_for, words_at, words_text};
ghost use Rattle.er_binary.specs.Meaning.{take_record, take_said};
ghost use Rattle.er_binary.specs.Numbers.{name_at};
ghost use Rattle.er_binary.specs.Records.{body_len};
ghost use Rattle.er_binary.specs.States.{address_of, after, at_block, first_state, is_access, is_note_byte, is_right, names_in, node_by, slot};
ghost use Rattle.er_binary.specs.Touches.{lines_alone};
ghost use Rattle.er_binary.specs.declared.records.Record.TheVariants as said;

use crate::names::{Names, number};
use crate::nodes::{Node as TreeNode, Nodes};
use crate::records::Kind::*;
use crate::records::{ADDRESS_END, Access, Kind, Record, record_at};
use er_lines::{NameKind, ReadyLine, ReadyVerb, is_lock_name, is_name, is_site_name, ready_width};
use std::alloc::{AllocError, Global};

/// What taking a record gives: how many bytes it has, or None if it may not come.
pub(crate) type Taking = Result<Option<usize>, AllocError>;

// The most names of threads, of locks and of places, and the most nodes.
const MOST: u64 = 1 << 30;

/// The names and nodes so far, what the next access goes on from, and what was counted.
#[derive(Drop)]
pub struct State {
    /// The names of threads.
    pub threads: Names,
    /// The names of locks and objects.
    pub locks: Names,
    /// Places.
    pub places: Names,
    /// Nodes.
    pub nodes: Nodes,
    /// The thread of what comes next, once the block has named one.
    pub thread: Option<u64>,
    /// The node of the last event, or 0.
    pub node: u64,
    /// The last address of the threads whose numbers leave this remainder by 256.
    pub last: [u64; 256],
    /// How many events there were, modulo 2^64.
    pub events: u64,
    /// How many were lost.
    pub lost: u64,
    /// Whether the record of the end came.
    pub ended: bool,
}

/// Words of an access that are still to come: those from the address on, up to the end, which is counted in words.
#[derive(Clone, Copy)]
pub(crate) struct Words {
    pub(crate) writes: bool,
    pub(crate) node: u64,
    pub(crate) at: u64,
    pub(crate) end: u64,
}

impl Words {
    fn verb(&self) -> ReadyVerb
        ensures { result ≡ verb_for self.now.writes }
    {
        match self.writes {
            true => ReadyVerb::Write,
            false => ReadyVerb::Read,
        }
    }
}

impl State {
    pub(crate) fn new(alloc: Global) -> State
        ensures { result ≡ first_state }
    {
        let (threads, locks, places) = (Names::new(alloc), Names::new(alloc), Names::new(alloc));
        State {
            threads,
            locks,
            places,
            nodes: Nodes::new(alloc),
            thread: None,
            node: 0,
            last: [0; 256],
            events: 0,
            lost: 0,
            ended: false,
        }
    }

    pub(crate) fn begin_block(&mut self)
        ensures { self.new ≡ at_block self.old }
    {
        self.thread = None;
        self.node = 0;
        self.last = [0; 256];
    }

    pub(crate) fn slot(&self) -> usize
        ensures { result ≡ slot self.now }
    {
        (self.thread.unwrap_or(0) % 256) as usize
    }

    /// The word in which the thread's last access began.
    pub fn last_word(&self) -> u64 {
        self.last[self.slot()] / 4
    }

    // The address of an access.
    pub(crate) fn address_of(&self, access: Access) -> u64
        ensures { result ≡ address_of self.now access }
    {
        self.last[self.slot()].wrapping_add(access.distance) % ADDRESS_END
    }

    // Whether a record's number and body are right. Its body is whole, and the block has `behind` behind it.
    fn is_right(&self, kind: Kind, operand: u64, body: &[u8], behind: &[u8]) -> bool
        requires { length body.now ≡ body_len kind operand }
        ensures { result ≡ is_right self.now kind operand body.now behind.now }
    {
        match kind {
            Thread | Start | Join => operand < self.threads.len(),
            Node => operand <= self.nodes.len(),
            Lock | Unlock | ReadLock | ReadUnlock | FailedTry | Signal | Await => operand
                < self.locks.len(),
            Show => operand < ADDRESS_END,
            Level => operand <= 31,
            ThreadName => is_name(body) && self.threads.len() < MOST,
            LockName => is_lock_name(body) && self.locks.len() < MOST,
            Place => body != b"-".as_slice() && is_site_name(body) && self.places.len() < MOST,
            NewNode => operand <= self.nodes.len()
                && number(&body[0..4]) < self.places.len()
                && body[4] <= 3
                && self.nodes.len() < MOST,
            Note => body.len() <= 1000 && is_note(body),
            End => operand == self.events && behind.is_empty(),
            _ => true,
        }
    }

    fn node_by(&self, caller: u64, body: &[u8]) -> TreeNode
        requires { length body.now ≡ 5 }
        ensures { result ≡ node_by self.now caller body.now }
    {
        let shown = if body[4] % 2 == 1 && caller != 0 {
            self.nodes.get(caller).shown
        } else {
            self.nodes.len().wrapping_add(1)
        };
        TreeNode {
            caller,
            shown,
            place: number(&body[0..4]) as u32,
        }
    }

    /// Adds another record that may come next. An error changes nothing.
    pub(crate) fn add(&mut self, kind: Kind, number: u64, body: &[u8]) -> Result<(), AllocError>
        requires { length body.now ≡ body_len kind number }
        ensures ok { OnOk result (self.new ≡ after self.old kind number body.now) }
        ensures err { OnErr result (self.new ≡ self.old) }
    {
        match kind {
            Thread => self.thread = Some(number),
            Node => self.node = number,
            ThreadName => self.threads.push(body)?,
            LockName => self.locks.push(body)?,
            Place => self.places.push(body)?,
            NewNode => {
                let node = self.node_by(number, body);
                self.nodes.push(node)?;
            }
            Lost => self.lost = number,
            End => self.ended = true,
            Note | Fact => {}
            _ => self.events = self.events.wrapping_add(1),
        }
        Ok(())
    }

    /// Takes the record in front, whose text it puts behind what is there. An error, which is want of memory, changes nothing but the text.
    pub(crate) fn take(&mut self, out: &mut Vec<u8>, bytes: &[u8]) -> Taking
        ensures taken { IfOk result (λ len. HasTaken (take_record self.old bytes.now) out.old.items out.new.items self.old self.new len) }
        ensures len { IfOk result (λ len. IfSome len (λ n. (1 ≤ n) × (n ≤ length bytes.now))) }
        ensures named { AreNamed self.old → AreNamed self.new }
        ensures kept { KeepsNames (names_in self.old) (names_in self.new) }
        ensures err { OnErr result (self.new ≡ self.old) }
    {
        let Some(head) = record_at(bytes) else {
            return Ok(None);
        };
        let (_, rest) = bytes.split_at(head.len);
        match head.says {
            Record::Access(access) => {
                let Some(words) = self.words_of(access) else {
                    return Ok(None);
                };
                self.put_words(out, &words)?;
                self.pass(&words);
                Ok(Some(head.len))
            }
            Record::Other(kind, number) => self.take_other(out, kind, number, head.len, rest),
        }
    }

    fn take_other(
        &mut self,
        out: &mut Vec<u8>,
        kind: Kind,
        number: u64,
        len: usize,
        rest: &[u8],
    ) -> Taking
        requires { len + length rest.now < 2 ^ 64 }
        ensures taken { IfOk result (λ n. HasTaken (take_said self.old len rest.now (Record.Other kind number)) out.old.items out.new.items self.old self.new n) }
        ensures len { IfOk result (λ n. IfSome n (λ k. (len ≤ k) × (k ≤ len + length rest.now))) }
        ensures named { AreNamed self.old → AreNamed self.new }
        ensures kept { KeepsNames (names_in self.old) (names_in self.new) }
        ensures err { OnErr result (self.new ≡ self.old) }
    {
        let body_len = kind.body_len(number);
        if (rest.len() as u64) < body_len {
            return Ok(None);
        }
        let (body, behind) = rest.split_at(body_len as usize);
        let has_thread = !kind.is_event() || self.thread.is_some();
        if !(has_thread && self.is_right(kind, number, body, behind)) {
            return Ok(None);
        }
        self.put_record(out, kind, number, body)?;
        self.add(kind, number, body)?;
        Ok(Some(len + body_len as usize))
    }

    /// The words of an access, if it may come.
    #[inline(always)]
    pub(crate) fn words_of(&self, access: Access) -> Option<Words>
        requires some { 1 ≤ access.size }
        requires size { access.size ≤ 16 }
        ensures words { result ≡ (if is_access self.now access then Some (words_at self.now access) else None) }
        ensures end { IfSome result (λ w. w.end ≤ 2 ^ 46) }
        ensures few { IfSome result (λ w. w.end ≤ w.at / 4 + 5) }
    {
        let node = access.node.unwrap_or(self.node);
        let at = self.address_of(access);
        let is_below = at + access.size <= ADDRESS_END;
        if !(self.thread.is_some() && node <= self.nodes.len() && is_below) {
            return None;
        }
        Some(Words {
            writes: access.writes,
            node,
            at,
            end: (at + access.size - 1) / 4 + 1,
        })
    }

    /// Goes on behind the access of these words.
    pub(crate) fn pass(&mut self, words: &Words)
        ensures { self.new ≡ passed self.old words.now }
    {
        let slot = self.slot();
        self.last[slot] = words.at;
        self.node = words.node;
        self.events = self.events.wrapping_add(1);
    }

    /// The name of a number, and no bytes if it has none.
    #[inline(always)]
    pub(crate) fn name(&self, kind: NameKind, number: u64) -> &[u8]
        ensures { result.now ≡ names_in self.now kind number }
    {
        match kind {
            NameKind::Thread => self.threads.get(number),
            NameKind::Lock => self.locks.get(number),
            NameKind::Site => self.places.get(number),
        }
    }

    fn site_name(&self, place: Option<u64>) -> &[u8]
        ensures { result.now ≡ name_by (name_at self.now.places) place }
    {
        match place {
            Some(place) => self.places.get(place),
            None => b"".as_slice(),
        }
    }

    /// The lines of some words. Split for the prover: there are none where a name isn't known, and all are.
    #[inline(always)]
    pub(crate) fn line_of(&self, words: &Words) -> Option<ReadyLine>
        requires some { words.now.at / 4 < words.now.end }
        requires few { words.now.end ≤ words.now.at / 4 + 5 }
        requires end { words.now.end ≤ 2 ^ 46 }
        requires named { AreNamed self.now }
        ensures text { IfSome result (λ line. words_text self.now words.now ≡ line_text (names_in self.now) line) }
        ensures right { IfSome result (IsRight (names_in self.now)) }
    {
        let thread = self.thread?;
        let name = self.known_site(words.node)?;
        let verb = words.verb();
        let address = words.at / 4 * 4;
        let site = self.site_name(name);
        Some(ReadyLine {
            verb,
            address,
            thread,
            name,
            count: words.end - words.at / 4,
            width: ready_width(verb, address, self.threads.get(thread), site),
        })
    }

    // The place that is shown for a node. None if its name isn't known; of node 0 there is none.
    fn known_site(&self, node: u64) -> Option<Option<u64>>
        ensures site { IfSome result (λ name. AreNamed self.now → IsSite self.now node name) }
        ensures within { IfSome result (λ name. IfSome name (λ n. n < length self.now.places)) }
    {
        if node == 0 {
            return Some(None);
        }
        let place = u64::from(self.nodes.get(self.nodes.get(node).shown).place);
        (place < self.places.len()).then_some(Some(place))
    }

    /// The line of a lock event that may come. Another record has none.
    #[inline(always)]
    pub(crate) fn lock_line(&self, kind: Kind, lock: u64) -> Option<ReadyLine>
        requires { AreNamed self.now }
        ensures taken { IfSome result (λ line. (len : ℕ) (rest : List ℕ) → take_said self.now len rest (said.Other kind lock) ≡ Some (record { text = line_text (names_in self.now) line; state = counted self.now; len = len; says = lines_alone 1 })) }
        ensures right { IfSome result (IsRight (names_in self.now)) }
    {
        let verb = kind.lock_verb()?;
        let thread = self.thread?;
        if lock >= self.locks.len() {
            return None;
        }
        Some(ReadyLine {
            verb,
            address: 0,
            thread,
            name: Some(lock),
            count: 1,
            width: ready_width(verb, 0, self.threads.get(thread), self.locks.get(lock)),
        })
    }

    /// Goes on at a thread or a node that there is. Another record changes nothing.
    #[inline(always)]
    pub(crate) fn goes_to(&mut self, kind: Kind, number: u64) -> bool
        ensures taken { result ≡ true → (len : ℕ) (rest : List ℕ) → take_said self.old len rest (said.Other kind number) ≡ Some (record { text = []; state = self.new; len = len; says = lines_alone 0 }) }
        ensures other { result ≡ false → self.new ≡ self.old }
        ensures named { AreNamed self.old → AreNamed self.new }
        ensures same { (self.new.threads ≡ self.old.threads) × (self.new.locks ≡ self.old.locks) × (self.new.places ≡ self.old.places) }
    {
        match kind {
            Kind::Thread if number < self.threads.len() => self.thread = Some(number),
            Kind::Node if number <= self.nodes.len() => self.node = number,
            _ => return false,
        }
        true
    }
}

impl Kind {
    // What it does to a lock.
    fn lock_verb(self) -> Option<ReadyVerb>
        ensures { IfSome result (λ verb. kind_for verb ≡ Some self) }
    {
        match self {
            Kind::Lock => Some(ReadyVerb::Lock),
            Kind::Unlock => Some(ReadyVerb::Unlock),
            Kind::ReadLock => Some(ReadyVerb::ReadLock),
            Kind::ReadUnlock => Some(ReadyVerb::ReadUnlock),
            _ => None,
        }
    }
}

fn is_note(bytes: &[u8]) -> bool
    ensures { result ≡ list_all is_note_byte bytes.now }
{
    bytes.iter().all(|byte| *byte >= b' ' && *byte <= b'~')
}

//! The text of records.
ghost use Rattle.std.specs.Prelude.{◌≡◌, ◌≤◌, ◌<◌, ◌^◌, ◌-◌, ◌*◌, ◌++◌, OnOk, codes, decimal, length};
ghost use Rattle.er_binary.specs.Records.{body_len};
ghost use Rattle.er_binary.specs.Inner.Words.{words_text};
ghost use Rattle.er_binary.specs.Texts.{lost_text, operand, site, text_of, thread_does, verb, word};

use crate::names::{Put, number, put_address};
use crate::records::Kind;
use crate::records::Kind::*;
use crate::state::{State, Words};
use er_lines::put_number;

impl State {
    fn put_thread(&self, out: &mut Vec<u8>, verb: &[u8]) -> Put
        ensures { OnOk result (out.new.items ≡ out.old.items ++ thread_does self.now verb.now) }
    {
        let name = self.threads.get(self.thread.unwrap_or(0));
        out.extend_from_slice(name)?;
        put_word(out, verb)
    }

    fn put_site(&self, out: &mut Vec<u8>, node: u64) -> Put
        ensures { OnOk result (out.new.items ≡ out.old.items ++ site self.now node) }
    {
        if node == 0 {
            return Ok(());
        }
        let shown = self.nodes.get(self.nodes.get(node).shown);
        let name = self.places.get(u64::from(shown.place));
        put_word(out, name)
    }

    /// Puts a line for each of some words of an access.
    pub(crate) fn put_words(&self, out: &mut Vec<u8>, words: &Words) -> Put
        requires { words.now.end ≤ 2 ^ 46 }
        ensures { OnOk result (out.new.items ≡ out.old.items ++ words_text self.now words.now) }
    {
        let verb = if words.writes {
            b"write".as_slice()
        } else {
            b"read".as_slice()
        };
        for word in words.at / 4..words.end {
            self.put_thread(out, verb)?;
            put_address(out, 4 * word)?;
            self.put_site(out, words.node)?;
            out.extend_from_slice(b"\n")?;
        }
        Ok(())
    }

    /// Puts the text of another record that comes next.
    pub(crate) fn put_record(&self, out: &mut Vec<u8>, kind: Kind, number: u64, body: &[u8]) -> Put
        requires { length body.now ≡ body_len kind number }
        ensures { OnOk result (out.new.items ≡ out.old.items ++ text_of self.now kind number body.now) }
    {
        match kind {
            Thread
            | Node
            | FailedTry
            | Flow
            | ThreadName
            | LockName
            | Place
            | NewNode
            | Fact
            | Lost => Ok(()),
            Note => {
                out.extend_from_slice(b"# ")?;
                out.extend_from_slice(body)?;
                out.extend_from_slice(b"\n")
            }
            End => self.put_end(out, number),
            _ => {
                self.put_thread(out, kind.verb())?;
                self.put_operand(out, kind, number, body)?;
                out.extend_from_slice(b"\n")
            }
        }
    }

    fn put_operand(&self, out: &mut Vec<u8>, kind: Kind, n: u64, body: &[u8]) -> Put
        requires { length body.now ≡ body_len kind n }
        ensures { OnOk result (out.new.items ≡ out.old.items ++ operand self.now kind n body.now) }
    {
        match kind {
            Start | Join => put_word(out, self.threads.get(n)),
            IgnoreOn | IgnoreOff => Ok(()),
            Reuse => {
                put_address(out, number(body))?;
                put_number_word(out, n)?;
                self.put_site(out, self.node)
            }
            Show => put_address(out, n),
            Level => put_number_word(out, n),
            _ => put_word(out, self.locks.get(n)),
        }
    }

    fn put_end(&self, out: &mut Vec<u8>, events: u64) -> Put
        ensures { OnOk result (out.new.items ≡ out.old.items ++ (lost_text self.now events ++ codes "end\n")) }
    {
        self.put_lost(out, events)?;
        out.extend_from_slice(b"end\n")
    }

    fn put_lost(&self, out: &mut Vec<u8>, events: u64) -> Put
        ensures { OnOk result (out.new.items ≡ out.old.items ++ lost_text self.now events) }
    {
        if self.lost == 0 {
            return Ok(());
        }
        out.extend_from_slice(b"# incomplete: ")?;
        put_number(out, events)?;
        out.extend_from_slice(b" events, ")?;
        put_number(out, self.lost)?;
        out.extend_from_slice(b" lost\n")
    }
}

impl Kind {
    fn verb(self) -> &'static [u8]
        ensures { result.now ≡ verb self }
    {
        match self {
            Lock => b"lock".as_slice(),
            Unlock => b"unlock".as_slice(),
            ReadLock => b"rlock".as_slice(),
            ReadUnlock => b"runlock".as_slice(),
            Signal => b"signal".as_slice(),
            Await => b"await".as_slice(),
            Start => b"start".as_slice(),
            Join => b"join".as_slice(),
            IgnoreOn => b"ignore-on".as_slice(),
            IgnoreOff => b"ignore-off".as_slice(),
            Reuse => b"reuse".as_slice(),
            Show => b"show".as_slice(),
            Level => b"level".as_slice(),
            _ => b"".as_slice(),
        }
    }
}

fn put_word(out: &mut Vec<u8>, bytes: &[u8]) -> Put
    ensures { OnOk result (out.new.items ≡ out.old.items ++ word bytes.now) }
{
    out.push(b' ')?;
    out.extend_from_slice(bytes)
}

fn put_number_word(out: &mut Vec<u8>, n: u64) -> Put
    ensures { OnOk result (out.new.items ≡ out.old.items ++ word (decimal n)) }
{
    out.push(b' ')?;
    put_number(out, n)
}

//! The text of a story.
ghost use Rattle.std.specs.Prelude.{◌≡◌, ◌++◌, All, false, flat_map, IfOk, OnOk};
ghost use Rattle.er_device.specs.Device.{inner_of, has_failed, taken_of};
ghost use Rattle.er_print.specs.Written.{FailsWriting, WritesReport};
ghost use Rattle.er_report.specs.Names.{HasEventNames, HasLockNames, HasSiteName};
ghost use Rattle.er_story.specs.Names.{HasStoryNames, HasTurnNames, HasWordNames};
ghost use Rattle.er_story.specs.Text.{deed_text, holding_text, mode_text, step_text, story_text, turn_text, word_text, answer_text, emptied_text, quiet_text};

use crate::Made;
use crate::past::empties;
use crate::story::{Story, Turn, WordStory};
use er_device::Device;
use er_event::{Event, LockId, Lockset, Refusal, Reply, WordState};
use er_print::Piece::{Address, Event as Asked, Lock, Number, Site, State, Text, Thread, Verb};
use er_print::{Put, Style, WriteFault, put, write_text};
use er_trace::Names;
use std::alloc::Global;
use std::io::Write;

/// Writes a story, with these names for its numbers. The text is whole before its first byte is written.
pub fn write_story<W: Write>(
    alloc: Global,
    writer: &mut Device<W>,
    story: &Story,
    names: &Names,
) -> Result<(), WriteFault>
    requires open { has_failed writer.old ≡ false }
    requires names { HasStoryNames names.now story.now }
    ensures bytes { WritesReport (W.contents (inner_of writer.old)) (W.contents (inner_of writer.new)) (story_text names.now story.now) result }
    ensures failed { FailsWriting (has_failed writer.new) result }
    ensures taken { taken_of writer.new ≡ taken_of writer.old }
{
    write_text(writer, story_text(alloc, names, story))
}

#[tactic(auto, unfolding(crate::specs::Text::story_text))]
fn story_text(alloc: Global, names: &Names, story: &Story) -> Made<Vec<u8>>
    requires { HasStoryNames names.now story.now }
    ensures { IfOk result (λ text. text.items ≡ story_text names.now story.now) }
{
    let mut text = Vec::new(alloc);
    put_step(&mut text, names, story)?;
    text.extend_from_slice(b"answer: ")?;
    put_answer(&mut text, &story.word, &story.answer)?;
    text.extend_from_slice(b"\n")?;
    put_word(&mut text, names, &story.word)?;
    Ok(text)
}

fn put_step(out: &mut Vec<u8>, names: &Names, story: &Story) -> Put
    requires { HasStoryNames names.now story.now }
    ensures { OnOk result (out.new.items ≡ out.old.items ++ step_text names.now story.now) }
{
    put!(out, Style::Plain, names;
        Number(b"line ", story.line), Thread(b": ", story.step.thread), Text(b" ")
    )?;
    put_deed(out, names, story.step.event)?;
    put_holding(out, names, &story.write_held, story.held.as_slice())?;
    out.extend_from_slice(b"\n")
}

// Puts what a step did, and to which word.
fn put_deed(out: &mut Vec<u8>, names: &Names, event: Event) -> Put
    requires event { HasEventNames names.now event }
    requires site { HasSiteName names.now event }
    ensures { OnOk result (out.new.items ≡ out.old.items ++ deed_text names.now event) }
{
    match event {
        Event::Access(kind, word, site) => put!(out, Style::Plain, names;
            Verb(b"", kind), Address(b" ", word), Site(b" at ", site)
        ),
        Event::Show(word) => put!(out, Style::Plain, names; Address(b"show ", word)),
        _ => put!(out, Style::Plain, names; Asked(b"", &event)),
    }
}

fn put_holding(out: &mut Vec<u8>, names: &Names, write_held: &Lockset, held: &[LockId]) -> Put
    requires { HasLockNames names.now held.now }
    ensures { OnOk result (out.new.items ≡ out.old.items ++ holding_text names.now write_held.now held.now) }
{
    if held.is_empty() {
        return out.extend_from_slice(b", holding none");
    }
    out.extend_from_slice(b", holding")?;
    for lock in held {
        let mode = mode_text(write_held.contains(*lock));
        put!(out, Style::Plain, names; Lock(b" ", *lock), Text(mode))?;
    }
    Ok(())
}

fn mode_text(writes: bool) -> &'static [u8]
    ensures { result.now ≡ mode_text writes }
{
    if writes {
        b"".as_slice()
    } else {
        b" (to read)".as_slice()
    }
}

fn put_word(out: &mut Vec<u8>, names: &Names, word: &Option<WordStory>) -> Put
    requires { HasWordNames names.now word.now }
    ensures { OnOk result (out.new.items ≡ out.old.items ++ word_text names.now word.now) }
{
    match word {
        Some(word) => {
            put!(out, Style::Plain, names;
                State(b"before: ", &word.before), State(b"\nafter: ", &word.after),
                Text(emptied_text(empties(&word.before, &word.after))),
                Number(b"\nearlier accesses: ", word.accesses), Text(b"\n")
            )?;
            put_turns(out, names, &word.turns)
        }
        None => Ok(()),
    }
}

fn put_turns(out: &mut Vec<u8>, names: &Names, turns: &[Turn]) -> Put
    requires { All (HasTurnNames names.now) turns.now }
    ensures { OnOk result (out.new.items ≡ out.old.items ++ flat_map (turn_text names.now) turns.now) }
{
    for turn in turns {
        put_turn(out, names, turn)?;
    }
    Ok(())
}

fn put_turn(out: &mut Vec<u8>, names: &Names, turn: &Turn) -> Put
    requires { HasTurnNames names.now turn.now }
    ensures { OnOk result (out.new.items ≡ out.old.items ++ turn_text names.now turn.now) }
{
    let place = &turn.place;
    put!(out, Style::Plain, names;
        Number(b"  access ", turn.number), Number(b": line ", place.line),
        Thread(b", ", place.thread), Verb(b" ", place.kind), Site(b" at ", place.site)
    )?;
    put_holding(out, names, &place.write_held, place.held.as_slice())?;
    put!(out, Style::Plain, names;
        State(b": ", &turn.state), Text(emptied_text(turn.emptied)), Text(b"\n")
    )
}

// Puts what a step is answered, and why.
fn put_answer(out: &mut Vec<u8>, word: &Option<WordStory>, answer: &Result<Reply, Refusal>) -> Put
    ensures { OnOk result (out.new.items ≡ out.old.items ++ answer_text word.now answer.now) }
{
    match answer {
        Ok(Reply::Done) => out.extend_from_slice(b"done"),
        Ok(Reply::Quiet) => out.extend_from_slice(match word {
            Some(word) => quiet_text(&word.after),
            None => b"no race".as_slice(),
        }),
        Ok(Reply::Race) => out.extend_from_slice(
            b"race: the word was written, and no lock was held at each access since a second thread came",
        ),
        Ok(Reply::Ignored) => out.extend_from_slice(
            b"not counted: the thread ignores its accesses",
        ),
        Ok(Reply::State(_)) => out.extend_from_slice(b"shown"),
        Err(why) => {
            out.extend_from_slice(b"refused: ")?;
            out.extend_from_slice(why.text().as_bytes())
        }
    }
}

// Why an access that leaves its word in this state is no race.
fn quiet_text(state: &WordState) -> &'static [u8]
    ensures { result.now ≡ quiet_text state.now }
{
    match state {
        WordState::Virgin => b"no race".as_slice(),
        WordState::Exclusive(_) => b"no race: no second thread has used the word".as_slice(),
        WordState::Shared(_) => {
            b"no race: the word has not been written since a second thread came".as_slice()
        }
        WordState::SharedModified(candidates) => {
            if candidates.is_empty() {
                b"no race: the word was reported by an earlier access".as_slice()
            } else {
                b"no race: a candidate was held at each access since a second thread came".as_slice()
            }
        }
    }
}

// That an access left no candidate, if it did.
fn emptied_text(emptied: bool) -> &'static [u8]
    ensures { result.now ≡ emptied_text emptied }
{
    if emptied {
        b": this access left no candidate".as_slice()
    } else {
        b"".as_slice()
    }
}

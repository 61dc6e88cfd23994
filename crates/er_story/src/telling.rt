//! The story of a step of a trace.
ghost use Rattle.std.specs.Prelude.{◌≡◌, ◌<◌, ◌==◌, ℕ, nat_lt, cond, length, slice_get, IfOk, IfSome, None, Some, Ok, false, ◌≤◌};
ghost use Rattle.std.specs.List.{position};
ghost use Rattle.er_event.specs.declared.steps.Reply.TheVariants.{Done, Ignored, Quiet, Race};
ghost use Rattle.er_model.specs.Answers.{answer, answer_unless};
ghost use Rattle.er_model.specs.Following.{locks_for};
ghost use Rattle.er_model.specs.Holdings.{holdings_at, refused_by};
ghost use Rattle.er_model.specs.Table.{advanced, reports};
ghost use Rattle.er_story.specs.Names.{HasStoryNames};
ghost use Rattle.er_story.specs.Story.{has_word, story_at, story_on, tale_in};

use crate::Made;
use crate::past::{advance, past_of, reports};
use crate::story::{Story, WordStory};
use er_event::{Event, Kind, Lockset, Refusal, Reply, Step, ThreadId, WordState};
use er_held::Held;
use er_trace::Trace;
use std::alloc::{AllocError, Global};

/// The story of the first step on a line of the trace, if the line has a step. `AllocError`: memory was refused.
pub fn tell_line(alloc: Global, trace: &Trace, line: u64) -> Result<Option<Story>, AllocError>
    ensures story { IfOk result (λ found. found ≡ story_on trace.now line) }
    ensures named { IfOk result (λ found. IfSome found (HasStoryNames trace.now.names)) }
{
    let lines = trace.lines();
    let Some(place) = place_of(lines, line) else {
        return Ok(None);
    };
    let story = tell(alloc, trace, place)?;
    Ok(Some(story))
}

// Where the first step of a line stands, if the line has a step. A line may have several: a reuse of many pages.
fn place_of(lines: &[u64], line: u64) -> Option<usize>
    ensures { result ≡ position (λ (l : ℕ). l == line) lines.now }
{
    lines.iter().position(|found| *found == line)
}

/// The story of the step at a place of the trace, from 0. `AllocError`: memory was refused. It goes over the steps up to there.
pub fn tell(alloc: Global, trace: &Trace, place: usize) -> Result<Story, AllocError>
    requires { place < length trace.now.steps }
    ensures story { IfOk result (λ story. story_at trace.now place ≡ Some story) }
    ensures named { IfOk result (HasStoryNames trace.now.names) }
{
    let steps = trace.steps();
    let lines = trace.lines();
    let step = &steps[place];
    let mut holding = held_before(alloc, steps, step.thread, place)?;
    let held = holding.held().copy()?;
    let write_held = holding.write_held().copy()?;
    let (answer, word) = tell_of(alloc, trace, place, step, &mut holding)?;
    Ok(Story {
        line: lines[place],
        step: *step,
        answer,
        held,
        write_held,
        word,
    })
}

// What a step is answered, and what happened to its word.
type Told = (Result<Reply, Refusal>, Option<WordStory>);

// Of a step whose thread holds this before it.
fn tell_of(
    alloc: Global,
    trace: &Trace,
    place: usize,
    step: &Step,
    holding: &mut Held,
) -> Made<Told>
    requires step { slice_get trace.now.steps place ≡ Some step.now }
    requires holding { holding.old ≡ holdings_at trace.now.steps step.now.thread place }
    requires within { place < length trace.now.steps }
    ensures answer { IfOk result (λ told. told.0 ≡ answer trace.now.steps place) }
    ensures word { IfOk result (λ told. told.1 ≡ tale_in trace.now place step.now.event) }
{
    match step.event {
        Event::Access(kind, word, _) => {
            let past = past_of(alloc, trace, word, place)?;
            let after = state_after(&past.state, holding, step.thread, kind)?;
            let reply = reply_between(holding, &past.state, &after);
            Ok((Ok(reply), Some(past.told(word, after))))
        }
        Event::Show(word) => {
            let past = past_of(alloc, trace, word, place)?;
            let reply = Reply::State(past.state.copy()?);
            let after = past.state.copy()?;
            Ok((Ok(reply), Some(past.told(word, after))))
        }
        _ => {
            let told = tell_other(holding, step.event)?;
            Ok(told)
        }
    }
}

fn state_after(before: &WordState, holding: &Held, thread: ThreadId, kind: Kind) -> Made<WordState>
    ensures { IfOk result (λ after. after ≡ cond (nat_lt 0 holding.now.depth) before.now (advanced before.now thread kind (locks_for holding.now kind))) }
{
    if holding.ignoring() {
        return before.copy();
    }
    advance(before, thread, kind, cover(holding, kind))
}

fn reply_between(holding: &Held, before: &WordState, after: &WordState) -> Reply
    ensures { result ≡ cond (nat_lt 0 holding.now.depth) Ignored (cond (reports before.now after.now) Race Quiet) }
{
    if holding.ignoring() {
        Reply::Ignored
    } else if reports(before, after) {
        Reply::Race
    } else {
        Reply::Quiet
    }
}

fn cover(holding: &Held, kind: Kind) -> &Lockset
    ensures { result.now ≡ locks_for holding.now kind }
{
    match kind {
        Kind::Read => holding.held(),
        Kind::Write => holding.write_held(),
    }
}

// Of a step that has no word.
fn tell_other(holding: &mut Held, event: Event) -> Made<Told>
    requires { has_word event ≡ false }
    ensures other { has_word event ≡ false }
    ensures answer { IfOk result (λ told. told.0 ≡ answer_unless (refused_by holding.old event) Done) }
    ensures word { IfOk result (λ told. told.1 ≡ None) }
{
    let answer = match holding.follow(event)? {
        Some(why) => Err(why),
        None => Ok(Reply::Done),
    };
    Ok((answer, None))
}

// What the thread holds after the first `end` steps.
fn held_before(alloc: Global, steps: &[Step], thread: ThreadId, end: usize) -> Made<Held>
    requires { end ≤ length steps.now }
    ensures { IfOk result (λ held. held ≡ holdings_at steps.now thread end) }
{
    let mut held = Held::new(alloc);
    for at in 0..end {
        let step = steps[at];
        if step.thread == thread {
            held.follow(step.event)?;
        }
    }
    Ok(held)
}

use crate::parsing::{buffer, number, octets};
use anyhow::Context;
use lane::{Lane, Losing};
use slots::SlotLane;
use std::alloc::Global;

// The answer to one call on a lane, as a word: '+OCTETS' is a put, '-LENGTH' a take into a buffer of that length.
fn call<L: Lane>(heap: Global, lane: &mut L, word: &str) -> anyhow::Result<String> {
    if let Some(frame) = word.strip_prefix('+') {
        let frame = octets(heap, Some(frame))?;
        return Ok(cases::lanes::put(heap, lane, frame.as_slice())?);
    }
    let length = word.strip_prefix('-').context("neither a put nor a take")?;
    let mut buffer = buffer(heap, Some(length))?;
    Ok(cases::lanes::take(heap, lane, buffer.as_mut_slice())?)
}

// The answers to these calls on one lane, in their order.
pub(crate) fn over<L: Lane + Drop>(
    heap: Global,
    mut lane: L,
    words: &str,
) -> anyhow::Result<String> {
    let mut answers = String::new(heap);
    for word in words.split(' ') {
        let answer = call(heap, &mut lane, word)?;
        if !answers.is_empty() {
            answers.push(' ')?;
        }
        answers.push_str(answer.as_str())?;
    }
    Ok(answers)
}

// The same of a losing layer over a slot lane; its k is the first word.
pub(crate) fn over_losing(heap: Global, rest: &str) -> anyhow::Result<String> {
    let (every, words) = rest.split_once(' ').context("no calls")?;
    let lane = Losing::new(SlotLane::new(), number(Some(every))?);
    over(heap, lane, words)
}

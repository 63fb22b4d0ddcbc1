use crate::parsing::{buffer, number, octets};
use anyhow::Context;
use std::alloc::Global;

pub(crate) fn read(heap: Global, rest: &str) -> anyhow::Result<String> {
    let text = octets(heap, Some(rest))?;
    Ok(cases::records::read(heap, text.as_slice())?)
}

// A text with a byte added until it has a length.
pub(crate) fn read_padded(heap: Global, rest: &str) -> anyhow::Result<String> {
    let mut words = rest.split(' ');
    let mut text = octets(heap, words.next())?;
    let pad = octets(heap, words.next())?;
    let length = words.next().context("a length is missing")?;
    let length: usize = number(Some(length))?;
    if !pad.is_empty() {
        // In place, and a pad at once: the library's `repeat` makes the padding apart, and byte by byte a long pad takes many times as long.
        for _ in text.len()..length {
            text.extend_from_slice(pad.as_slice())?;
        }
    }
    Ok(cases::records::read(heap, text.as_slice())?)
}

pub(crate) fn write(heap: Global, rest: &str) -> anyhow::Result<String> {
    let mut words = rest.split(' ');
    let offset = number(words.next())?;
    let data = octets(heap, words.next())?;
    let mut out = buffer(heap, words.next())?;
    Ok(cases::records::write(heap, offset, data.as_slice(), out.as_mut_slice())?)
}

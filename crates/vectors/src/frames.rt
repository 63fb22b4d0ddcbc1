use crate::parsing::{buffer, number, octets};
use hdlc::{Frame, SequenceNumber};
use std::alloc::Global;

pub(crate) fn decode(heap: Global, rest: &str) -> anyhow::Result<String> {
    let octets = octets(heap, Some(rest))?;
    Ok(cases::frames::decode(heap, octets.as_slice())?)
}

// A frame written to a buffer of the length that a word says.
fn encode(heap: Global, frame: Frame<'_>, length: Option<&str>) -> anyhow::Result<String> {
    let mut out = buffer(heap, length)?;
    Ok(cases::frames::encode(heap, frame, out.as_mut_slice())?)
}

pub(crate) fn encode_information(heap: Global, rest: &str) -> anyhow::Result<String> {
    let mut words = rest.split(' ');
    let number = SequenceNumber::modulo(number(words.next())?);
    let information = octets(heap, words.next())?;
    let frame = Frame::Information {
        number,
        information: information.as_slice(),
    };
    encode(heap, frame, words.next())
}

pub(crate) fn encode_ready(heap: Global, rest: &str) -> anyhow::Result<String> {
    let mut words = rest.split(' ');
    let frame = Frame::receive_ready(SequenceNumber::modulo(number(words.next())?));
    encode(heap, frame, words.next())
}

// The words of a case.

use anyhow::{Context, anyhow};
use std::alloc::Global;
use std::error::Error;
use std::str::FromStr;

// What a buffer is filled with before something is written to it.
const BLANK: u8 = b'.';

fn digit(c: u8) -> anyhow::Result<u8> {
    let value = char::from(c).to_digit(16).context("no hexadecimal digit")?;
    Ok(u8::try_from(value)?)
}

// The bytes of a word of digits; '-' stands for none.
pub(crate) fn octets(heap: Global, word: Option<&str>) -> anyhow::Result<Vec<u8>> {
    let mut bytes = Vec::new(heap);
    let word = word.context("a word is missing")?;
    if word == "-" {
        return Ok(bytes);
    }
    for pair in word.as_bytes().chunks(2) {
        let [high, low] = pair else {
            return Err(anyhow!("an odd digit"));
        };
        bytes.push(digit(*high)? << 4 | digit(*low)?)?;
    }
    Ok(bytes)
}

// A number of the type that is wanted.
pub(crate) fn number<N: FromStr>(word: Option<&str>) -> anyhow::Result<N>
where
    N::Err: Error + Drop,
{
    Ok(word.context("a number is missing")?.parse()?)
}

// A buffer of the length that a word says.
pub(crate) fn buffer(heap: Global, word: Option<&str>) -> anyhow::Result<Vec<u8>> {
    let length: u16 = number(word)?;
    Ok(vec![in heap; BLANK; usize::from(length)]?)
}

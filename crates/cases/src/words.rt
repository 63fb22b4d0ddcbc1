// The words of which answers are made.

ghost use Rattle.std.specs.Prelude.{◌≡◌, ◌*◌, ◌≤◌, IfOk, Some, length, take, string_bytes};
ghost use Rattle.std.specs.Str.{IsAscii};
ghost use Rattle.ihex.specs.Digits.{digits};
ghost use Rattle.cases.specs.Words.{word_of, write_words};

use ihex::digits_of;
use refusal::Refusal;
use std::alloc::{AllocError, Global};
use std::{fmt, str};

// How many bytes are written at once: with a write for each byte, printing takes several times as long.
const PIECE: usize = 64;

// Writes the bytes' digits at the front of `out`.
fn put_digits(bytes: &[u8], out: &mut [u8])
    requires { 2 * length bytes.now ≤ length out.old }
    ensures digits { take (2 * length bytes.now) out.new ≡ digits bytes.now }
    ensures ascii { IsAscii (take (2 * length bytes.now) out.new) }
{
    for (i, b) in bytes.iter().enumerate() {
        let [high, low] = digits_of(*b);
        out[2 * i] = high;
        out[2 * i + 1] = low;
    }
}

// Bytes as their digits; '-' stands for none.
#[derive(Clone, Copy, Debug)]
pub struct Word<'a>(pub &'a [u8]);

impl fmt::Display for Word<'_> {
    ghost output = { λ w. Some (word_of w.0.now) };

    fn fmt<W: fmt::Write>(&self, f: &mut fmt::Formatter<W>) -> fmt::Result {
        if self.0.is_empty() {
            return write!(f, "-");
        }
        let mut buffer = [0; 2 * PIECE];
        for piece in self.0.chunks(PIECE) {
            put_digits(piece, &mut buffer);
            let text = str::from_utf8(&buffer[..2 * piece.len()]).unwrap();
            f.write_str(text)?;
        }
        Ok(())
    }
}

// What was written to a buffer, or the refusal.
pub(crate) fn describe_written(
    heap: Global,
    answer: Result<usize, Refusal>,
    out: &[u8],
) -> Result<String, AllocError>
    ensures { IfOk result (λ line. string_bytes line ≡ write_words answer out.now) }
{
    let word = Word(out);
    match answer {
        Ok(n) => format!(in heap; "written {n} {word}"),
        Err(refusal) => format!(in heap; "refused {refusal} {word}"),
    }
}

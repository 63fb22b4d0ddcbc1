// Reading a record's line, one function for each step of the checks.

ghost use Rattle.std.specs.Prelude.{◌≡◌, ◌+◌, ◌-◌, ◌*◌, ◌/◌, ◌%◌, ◌<◌, ◌≤◌, true, ◌++◌, length, drop, IfOk};
ghost use Rattle.refusal.specs.Answers.{answer};
ghost use Rattle.ihex.specs.Digits.{is_digit, value, all_digits, bytes_of, total};
ghost use Rattle.ihex.specs.Laws.{Canonical};
ghost use Rattle.ihex.specs.Meaning.{content};
ghost use Rattle.ihex.specs.Reading.{digits_in, counted, record_in, reading};

use crate::data_record::{DataRecord, MAX_DATA};
use crate::digits::are_digits;
use crate::fault::RecordFault;
use crate::record::{Record, RecordType};

// The value of a digit.
fn value_of(c: u8) -> u8
    requires { is_digit c ≡ true }
    ensures value { result ≡ value c }
    ensures small { result < 16 }
{
    if c <= b'9' { c - b'0' } else { c - (b'A' - 10) }
}

// The byte of two digits, the high one first.
fn byte_of(high: u8, low: u8) -> u8
    requires high { is_digit high ≡ true }
    requires low { is_digit low ≡ true }
    ensures { result ≡ value high * 16 + value low }
{
    value_of(high) * 16 + value_of(low)
}

// The digits of a line: all upper case, and at least two for each of the five bytes of every record.
#[derive(Clone, Copy)]
struct Digits<'a> {
    text: &'a [u8],
    ghost upper: { all_digits text.now ≡ true },
    ghost enough: { 10 ≤ length text.now },
}

impl<'a> Digits<'a> {
    // The digits after the colon.
    fn find(line: &'a [u8]) -> Result<Self, RecordFault>
        ensures { digits_in line.now ≡ answer (λ d. d.text.now) result }
    {
        if line.len() < Record::SHORTEST {
            return Err(RecordFault::Short);
        }
        let [Record::COLON, text @ ..] = line else {
            return Err(RecordFault::NoColon);
        };
        if !are_digits(text) {
            return Err(RecordFault::NotADigit);
        }
        Ok(Digits { text })
    }

    // The count, if there are as many digits as it says.
    fn count(&self) -> Result<usize, RecordFault>
        ensures answer { result ≡ counted self.now.text.now }
        ensures few { IfOk result (λ n. n ≤ 128) }
        ensures long { IfOk result (λ n. length self.now.text.now ≡ 10 + 2 * n) }
    {
        let count = usize::from(byte_of(self.text[0], self.text[1]));
        if count > MAX_DATA || self.text.len() != Record::SHORTEST - 1 + 2 * count {
            return Err(RecordFault::Count);
        }
        Ok(count)
    }

    // Writes the byte of each pair of digits at the front of `out`, and answers their total modulo 256.
    fn decode(&self, out: &mut [u8]) -> u8
        requires { length self.now.text.now / 2 ≤ length out.old }
        ensures sum { result ≡ total (bytes_of self.now.text.now) % 256 }
        ensures out { out.new ≡ bytes_of self.now.text.now ++ drop (length self.now.text.now / 2) out.old }
    {
        let (pairs, _) = self.text.as_chunks::<2>();
        let mut sum = 0u8;
        // By index: tried with `iter_mut`, of which a proof does not know what was written through it.
        for (i, [high, low]) in pairs.iter().enumerate() {
            let b = byte_of(*high, *low);
            out[i] = b;
            sum = sum.wrapping_add(b);
        }
        sum
    }
}

// The record of the bytes of a line, whose count is that of its data.
fn find_record(bytes: &[u8]) -> Result<Record, RecordFault>
    requires { 5 ≤ length bytes.now }
    ensures { answer content result ≡ record_in (length bytes.now - 5) bytes.now }
{
    let [_, high, low, code, data @ .., _] = bytes else {
        unreachable!()
    };
    let offset = u16::from_be_bytes([*high, *low]);
    let data = match RecordType::try_from(*code)? {
        RecordType::Data => DataRecord::new(offset, data)?,
        RecordType::EndOfFile if data.is_empty() && offset == 0 => return Ok(Record::End),
        RecordType::EndOfFile => return Err(RecordFault::Unknown),
    };
    Ok(Record::Data(data))
}

impl Record {
    // The record that a line is, its end of line left out.
    pub fn read(text: &[u8]) -> Result<Record, RecordFault>
        ensures answer { answer content result ≡ reading text.now }
        ensures canonical { Canonical text.now (answer content result) }
    {
        let digits = Digits::find(text)?;
        let count = digits.count()?;
        // In fixed memory, and a plain array: a string with a limit is made of a slice at once, and has no way to add a byte.
        let mut bytes = [0; Record::MAX_BYTES];
        if digits.decode(&mut bytes) != Record::TOTAL {
            return Err(RecordFault::Sum);
        }
        find_record(&bytes[..5 + count])
    }
}

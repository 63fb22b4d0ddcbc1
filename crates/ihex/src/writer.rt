// Writing a record's line.

ghost use Rattle.std.specs.Prelude.{◌≡◌, ◌+◌, ◌*◌, ◌%◌, ◌≤◌, [], ◌∷◌, length, take, drop};
ghost use Rattle.ihex.specs.Content.{complement, fields};
ghost use Rattle.ihex.specs.Digits.{total};
ghost use Rattle.ihex.specs.Laws.{ReadsBack};
ghost use Rattle.ihex.specs.Meaning.{content};
ghost use Rattle.ihex.specs.Writing.{spelled, written, written_to};

use crate::digits::digits_of;
use crate::record::{Record, RecordType};
use refusal::BufferTooShort;

// Writes a byte's two digits, and answers the total with the byte added, modulo 256.
fn write_byte(out: &mut [u8], at: usize, b: u8, sum: u8) -> u8
    requires { at + 2 ≤ length out.old }
    ensures sum { result ≡ (sum + b) % 256 }
    ensures out { out.new ≡ spelled out.old at (b ∷ []) }
{
    out[at..at + 2].copy_from_slice(&digits_of(b));
    sum.wrapping_add(b)
}

// Writes each byte's two digits, and keeps the total of the bytes written so far, modulo 256.
fn write_bytes(out: &mut [u8], at: usize, bytes: &[u8], start: u8) -> u8
    requires { at + 2 * length bytes.now ≤ length out.old }
    ensures sum { result ≡ (start + total bytes.now) % 256 }
    ensures out { out.new ≡ spelled out.old at bytes.now }
{
    let mut sum = start;
    // By index: tried with `chunks_exact_mut`, of whose pieces a proof does not know what was written to them.
    for (i, b) in bytes.iter().enumerate() {
        sum = write_byte(out, at + 2 * i, *b, sum);
    }
    sum
}

// The byte that makes the total 0 modulo 256.
fn sum_byte(sum: u8) -> u8
    ensures { result ≡ complement sum }
{
    sum.wrapping_neg()
}

impl Record {
    // Count, offset with the high byte first, and type.
    fn header(&self) -> [u8; 4]
        ensures { result ≡ take 4 (fields (content self.now)) }
    {
        match self {
            Record::Data(data) => {
                let [high, low] = data.offset().to_be_bytes();
                [data.data().len() as u8, high, low, RecordType::Data as u8]
            }
            Record::End => [0, 0, 0, RecordType::EndOfFile as u8],
        }
    }

    fn data(&self) -> &[u8]
        ensures { result.now ≡ drop 4 (fields (content self.now)) }
    {
        match self {
            Record::Data(data) => data.data(),
            Record::End => &[],
        }
    }

    // Writes the record's line at the front of `out` and answers its length.
    // A length, as std's own reads answer: a slice lent from `out` would need a clause on what `out` holds once it is given back.
    // A buffer too short is left as it was.
    pub fn write(&self, out: &mut [u8]) -> Result<usize, BufferTooShort>
        ensures answer { result ≡ written (content self.now) out.old }
        ensures buffer { out.new ≡ written_to (content self.now) out.old }
        ensures reads_back { ReadsBack (content self.now) }
    {
        let data = self.data();
        let length = Record::SHORTEST + 2 * data.len();
        if out.len() < length {
            return Err(BufferTooShort);
        }
        out[0] = Record::COLON;
        let head = write_bytes(out, 1, &self.header(), 0);
        let sum = write_bytes(out, 9, data, head);
        write_bytes(out, 9 + 2 * data.len(), &[sum_byte(sum)], sum);
        Ok(length)
    }
}

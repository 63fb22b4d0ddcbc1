// Cases of records.

ghost use Rattle.std.specs.Prelude.{◌≡◌, IfOk, Some, string_bytes};
ghost use Rattle.ihex.specs.Meaning.{content};
ghost use Rattle.ihex.specs.Reading.{reading, data_record};
ghost use Rattle.cases.specs.Records.{record_words, read_words, data_written, buffer_written};
ghost use Rattle.cases.specs.Words.{write_words};

use crate::words::{Word, describe_written};
use ihex::{DataRecord, Record};
use refusal::Refusal;
use std::alloc::{AllocError, Global};
use std::fmt;

// A record in words. As in `frames`, and not one type for both: `From` tells what a fault turns into by a relation, and a printed
// text has to be a function of what is printed.
#[derive(Clone, Copy)]
struct Told(Record);

impl fmt::Display for Told {
    ghost output = { λ t. Some (record_words (content t.0)) };

    fn fmt<W: fmt::Write>(&self, f: &mut fmt::Formatter<W>) -> fmt::Result {
        match &self.0 {
            Record::End => write!(f, "end"),
            Record::Data(data) => write!(f, "data {} {}", data.offset(), Word(data.data())),
        }
    }
}

// The record that a text is.
pub fn read(heap: Global, text: &[u8]) -> Result<String, AllocError>
    ensures { IfOk result (λ line. string_bytes line ≡ read_words (reading text.now)) }
{
    match Record::read(text) {
        Ok(record) => format!(in heap; "{}", Told(record)),
        Err(fault) => format!(in heap; "refused {}", Refusal::from(fault)),
    }
}

// The length that is written of a data record, or the refusal.
fn write_data(offset: u16, data: &[u8], out: &mut [u8]) -> Result<usize, Refusal>
    ensures answer { result ≡ data_written (data_record offset «data».now) out.old }
    ensures buffer { out.new ≡ buffer_written (data_record offset «data».now) out.old }
{
    let record = Record::Data(DataRecord::new(offset, data)?);
    Ok(record.write(out)?)
}

// A data record written to a buffer.
pub fn write(heap: Global, offset: u16, data: &[u8], out: &mut [u8]) -> Result<String, AllocError>
    ensures { IfOk result (λ line. string_bytes line ≡ write_words (data_written (data_record offset «data».now) out.old) (buffer_written (data_record offset «data».now) out.old)) }
{
    let answer = write_data(offset, data, out);
    describe_written(heap, answer, out)
}

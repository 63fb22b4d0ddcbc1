use crate::data_record::DataRecord;
use crate::fault::RecordFault;

// One line of the format.
#[derive(Clone, Copy)]
pub enum Record {
    Data(DataRecord),
    End,
}

impl Record {
    // The first character of every record.
    pub(crate) const COLON: u8 = b':';
    // The characters of a record with no data.
    pub(crate) const SHORTEST: usize = 11;
    // What all bytes of a record total, modulo 256.
    pub(crate) const TOTAL: u8 = 0;
    // The bytes of a record with the most data: count, offset, type, data and sum.
    pub(crate) const MAX_BYTES: usize = 133;
}

// The types of the two records, as a line has them.
#[derive(Clone, Copy)]
pub(crate) enum RecordType {
    Data = 0,
    EndOfFile = 1,
}

impl TryFrom<u8> for RecordType {
    ghost use Rattle.std.specs.Prelude.{◌≡◌};
    ghost use Rattle.ihex.specs.Meaning.{type_of};

    type Error = RecordFault;

    ghost try_from_gives = { λ code r. r ≡ type_of code };

    fn try_from(code: u8) -> Result<Self, RecordFault> {
        match code {
            0 => Ok(RecordType::Data),
            1 => Ok(RecordType::EndOfFile),
            _ => Err(RecordFault::Unknown),
        }
    }
}

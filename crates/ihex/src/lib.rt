// Intel's hexadecimal object format, a line at a time.
// A line is a colon and upper-case digit pairs: count, offset, type, data and sum.
#![tactic(auto)]

mod data_record;
mod digits;
mod fault;
mod reader;
mod record;
mod writer;

pub use data_record::DataRecord;
pub use digits::digits_of;
pub use fault::RecordFault;
pub use record::Record;

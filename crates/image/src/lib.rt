// Image files: lines closed by CR LF, each of them one record.
#![tactic(auto)]

mod entry;
mod fault;
mod line;
mod offsets;
mod page;
mod records;
mod refused;
mod survey;

pub use entry::Entry;
pub use fault::ImageFault;
pub use line::{Line, next_line};
pub use offsets::Offsets;
pub use page::report;
pub use records::next_record;
pub use refused::Refused;
pub use survey::Survey;

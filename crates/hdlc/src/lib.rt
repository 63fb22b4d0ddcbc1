// HDLC frames (ISO/IEC 13239), their flags and check octets left out: the address FFh, a control octet, information.
#![tactic(auto)]

mod control;
mod decoder;
mod encoder;
mod fault;
mod frame;
mod number;

pub use fault::EncodeFault;
pub use frame::Frame;
pub use number::SequenceNumber;

// Messages of OSC 1.0: read from a packet, and written into a buffer.
#![tactic(auto)]

mod entries;
mod fields;
mod message;
mod put;
mod stream;
mod write;

pub use entries::{Entry, Place};
pub use fields::{Argument, MAX_PACKET};
pub use message::{Message, read_message};
pub use stream::packet_size;
pub use write::write_message;

//! The event loop of a thread that serves one socket at a time.
#![tactic(auto)]

mod accepted;
mod counter;
mod passed;
mod reader;
mod ready;
mod socket_loop;
mod unused;
mod writer;

pub use accepted::Accepted;
pub use passed::Passed;
pub use reader::Reader;
pub use socket_loop::{Interrupted, SocketLoop};
pub use unused::Unused;
pub use writer::Writer;

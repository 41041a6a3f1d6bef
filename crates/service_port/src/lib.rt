//! Whose port a port of the service is: one type for all that ask; and the ports that are listed, in addition to those
//! of a configuration, because handlers answer all their requests.
#![tactic(auto)]

mod handled;
mod port;

pub use handled::HandledPorts;
pub use port::Port;

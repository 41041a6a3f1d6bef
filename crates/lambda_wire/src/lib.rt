//! The bodies and headers of this service: their readers and writers.
//!
//! The groups of modules stand in the order in which to read them.
#![tactic(auto)]

// A configuration as JSON: the contents of one, its reader, its writer, which is the reader's inverse, and why bytes
// could not be read.
mod config_reader;
mod config_writer;
mod fault;
mod setup;

// The bodies of requests: the other readers, and the members of an object, each of its type, from which all of them are
// made.
mod members;
mod request_reader;

// A payload is tested, not read: it is JSON or it is not. The memory of the test is kept from one payload to the next,
// and that of long ones is shared.
mod json_check;
mod long_scratches;
mod payload_scratch;

// Replies: their bodies, which are objects written member by member; their headers, whose names are one of few sets;
// and the whole of status, headers and body.
mod body_writer;
mod header_map;
mod header_set;
mod header_writer;
mod object_writer;
mod reply;

pub use body_writer::{
    InvokeFault, status_body, write_fault, write_invoke_event, write_invoke_fault,
    write_registered, write_reservation, write_shutdown_event, write_throttle,
};
pub use config_reader::read_config;
pub use config_writer::write_config;
pub use fault::WireFault;
pub use header_map::HeaderMaps;
pub use header_writer::{
    Headers, NO_TRACE, error_headers, event_headers, invoke_headers, json_headers, method_headers,
    next_headers, no_headers, registered_headers, text_headers,
};
pub use long_scratches::LongScratches;
pub use payload_scratch::PayloadScratch;
pub use reply::{Reply, fault_reply, invoke_fault_reply};
pub use request_reader::{Events, read_invoke_body, read_register, read_reservation};
pub use setup::Setup;

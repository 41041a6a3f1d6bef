//! The places of the open connections, up to a limit: each has a tally and a thread, which serves
//! one connection after another. They know neither what is counted nor how a connection is served.
//!
//! The groups of modules stand in the order in which to read them.
#![tactic(auto)]

// A place and its thread: the mailbox from which the thread takes what it does next, and the post, which is the place
// as the thread sees it.
mod mailbox;
mod post;

// What is known of a connection outside its thread, and what was seen of it when it was last looked at.
mod observation;
mod running;

// All places together, and the choice of the connection that makes room for a new one.
mod choice;
mod slots;

pub use mailbox::Mailbox;
pub use post::{Post, WorkerThread};
pub use running::Running;
pub use slots::{Slots, StillShared};

//! The server: a listener for each port, a thread for each connection, which then waits for the
//! next one, a ticker, and shutdown; and `hyper` services over the exchanges of `long_poll`.
//!
//! A fault is passed on by `Err(fault) => Err(fault)` if `?` would add a conversion that the prover
//! does not see through.
//!
//! The groups of modules stand in the order in which to read them.
#![tactic(auto)]

// How a request is answered. A `Front` is the `hyper` service of a connection: its guard comes first, and then a request
// takes one of three courses: the exchange of `long_poll`, by which the service answers it itself; to a handler, who
// gets it at the desk; or it is a handler's own, who asks for a request or posts an answer.
mod at_desk;
mod course;
mod front;

// The ports that are listened on, each with the function and the environment that it is for.
mod ports;

// The threads, and what they have in common. The acceptor gives each new connection a place, a worker serves the
// connections of its place, one after the other, and the ticker lets time pass in the account.
mod acceptor;
mod common;
mod ticker;
mod worker;

// The whole: a plan is checked, a host is opened with it, runs, and stops; what it has to say while it runs are notices.
mod host;
mod notices;

pub use at_desk::{AtDesk, Handed, OfHandler, PassedBody, PassedFault};
pub use course::{Course, Responding, ResponseFault, SentBody};
pub use front::Front;
pub use host::{Host, HostFault, Hosted, Plan};
pub use http_connection::Machine;
pub use http_routes::{Decision, Shown, Side, laws};
pub use long_poll::{Alarm, Cause, Kind, Rejections, Told};
pub use notices::{Notices, Room};
pub use request_guard::{KnownHosts, Refusal};
pub use service_port::Port;

//! The decision on an HTTP request, by its head and its body, and the routes of each port.
//!
//! The groups of modules stand in the order in which to read them.
#![tactic(auto)]

// The two kinds of ports, their routes, and the methods of each route.
mod methods;
mod routes;
mod side;

// The parts of a request that a decision reads: its path and query, its headers, the function and the identifiers that
// it names.
mod heads;
mod identifiers;
mod names;
mod path;

// The decision on a request, by its port; the replies that refuse it; and which requests a handler may have instead.
mod account_port;
mod environment_port;
mod handing;
mod refusals;

// What follows for the tables of routes: a path leads to each route.
pub mod laws;

pub use decisions::{ClockRequest, Decision, Received, Shown, TraceQuery};
pub use refusals::TOO_LONG;
pub use side::Side;

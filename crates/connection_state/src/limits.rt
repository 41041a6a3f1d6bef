//! How long a connection may stay open.

ghost use Rattle.std.specs.Prelude.{◌≡◌};
ghost use Rattle.connection_state.specs.Limits as spec;

use crate::pulse::{Awaited, Told};
use service_port::Port;

/// Returns how many seconds a connection may stay without a byte between two requests. A handler
/// may run for 900 seconds, during which its runtime keeps the connection of its Next open. An hour
/// is far above that, and a forgotten connection still gives its place back.
fn idle_limit(port: Port) -> u64
    ensures { result ≡ spec.idle_limit port }
{
    match port {
        Port::Account | Port::Handled(_) => 300,
        Port::Environment(_) => 3_600,
    }
}

/// Returns how many seconds a connection that waits for this may stay without a byte; `None` if
/// there is no limit.
fn still_limit_of(port: Port, awaited: Awaited) -> Option<u64>
    ensures { result ≡ spec.still_limit port awaited }
{
    match awaited {
        Awaited::Answer | Awaited::Taking => None,
        Awaited::First | Awaited::Head | Awaited::Body => Some(20),
        Awaited::Next => Some(idle_limit(port)),
        Awaited::End => Some(2),
    }
}

/// Returns how many seconds a connection may stay in its stage; `None` if there is no limit.
fn whole_limit_of(told: Told) -> Option<u64>
    ensures { result ≡ spec.whole_limit told }
{
    match told.awaited {
        Awaited::Answer | Awaited::First | Awaited::Next => None,
        Awaited::Head => Some(60),
        Awaited::Body => Some(20 + u64::from(told.moved) * 60 / 65_536),
        Awaited::Taking => Some(300),
        Awaited::End => Some(30),
    }
}

/// Returns whether a number of seconds has reached the limit, if there is one.
fn is_reached(seconds: u32, limit: Option<u64>) -> bool
    ensures { result ≡ spec.is_reached seconds limit }
{
    match limit {
        Some(limit) => u64::from(seconds) >= limit,
        None => false,
    }
}

/// Returns whether a connection at a port has reached one of its limits, given that it
/// published this state, has since been without a byte for `still` seconds, and has been in the
/// same stage of its exchange for `whole` seconds.
pub fn has_outstayed(port: Port, told: Told, still: u32, whole: u32) -> bool
    ensures { result ≡ spec.has_outstayed port told still whole }
{
    is_reached(still, still_limit_of(port, told.awaited)) || is_reached(whole, whole_limit_of(told))
}

//! The least ticket at which something fails.

ghost use Rattle.std.specs.Prelude.{◌≡◌};
ghost use Rattle.account_lock.specs.Failing.{lesser};

use call_model::Ticket;

/// Returns the lesser of two tickets, either of which may be missing.
pub(crate) fn lesser(one: Option<Ticket>, other: Option<Ticket>) -> Option<Ticket>
    ensures { result ≡ lesser one other }
{
    match (one, other) {
        (None, other) => other,
        (one, None) => one,
        (Some(one), Some(other)) => Some(one.min(other)),
    }
}

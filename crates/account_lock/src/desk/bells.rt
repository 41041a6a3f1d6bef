//! The bells of the callers that wait for an answer, in increasing order of their tickets.

ghost use Rattle.std.specs.Prelude.{◌≡◌, ◌+◌, ◌<◌, ◌≤◌, ◌++◌, true, false, nat_lt, length, vec_len};
ghost use Rattle.std.specs.Prelude.{vec_capacity};
ghost use Rattle.std.specs.List.Sorted.{IsPartitionPoint};
ghost use Rattle.account_lock.specs.Bells.{of_ticket, other_bells, own_bell, are_rising};

use call_model::Ticket;

/// Rings when a ticket is answered, so that the caller that waits for it looks again. A bell rings at most
/// once.
pub trait Bell: Drop {
    /// Rings the bell.
    fn ring(self);
}

/// Stores the bell that a caller brings, at the ticket of the call.
pub(crate) fn store<B>(bells: &mut Vec<(Ticket, B)>, ticket: Ticket, bell: Option<B>)
    requires { vec_len bells.old < vec_capacity bells.old }
    ensures items { bells.new.items ≡ bells.old.items ++ own_bell ticket bell }
    ensures few { vec_len bells.new ≤ vec_len bells.old + 1 }
{
    if let Some(bell) = bell {
        bells.push_reserved((ticket, bell));
    }
}

/// Returns the index of a ticket's bell, if it has one: the number of bells of lower tickets.
fn find_bell<B>(bells: &[(Ticket, B)], ticket: Ticket) -> usize
    requires { are_rising bells.now ≡ true }
    ensures within { result ≤ length bells.now }
    ensures between { IsPartitionPoint (λ bell. nat_lt bell.0 ticket ≡ true)
        (λ bell. nat_lt bell.0 ticket ≡ false) bells.now result }
{
    bells.partition_point(|bell| bell.0 < ticket)
}

/// Moves the bell of a ticket, if it has one, to those that will ring.
pub(crate) fn take_bell<B>(bells: &mut Vec<(Ticket, B)>, ticket: Ticket, rings: &mut Vec<B>)
    requires rising { are_rising bells.old.items ≡ true }
    requires room { vec_len rings.old < vec_capacity rings.old }
    ensures rings { rings.new.items ≡ rings.old.items ++ of_ticket ticket bells.old.items }
    ensures bells { bells.new.items ≡ other_bells ticket bells.old.items }
    ensures rising { are_rising bells.new.items ≡ true }
    ensures room { (vec_len rings.new ≤ vec_len rings.old + 1)
        × (vec_capacity rings.new ≡ vec_capacity rings.old) }
{
    let place = find_bell(bells, ticket);
    if place < bells.len() && bells[place].0 == ticket {
        let (_, bell) = bells.remove(place);
        rings.push_reserved(bell);
    }
}

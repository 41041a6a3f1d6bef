//! The room that a step needs, made before its first change.

ghost use Rattle.std.specs.Prelude.{◌≡◌, ◌+◌, ◌≤◌, ℕ, length, vec_len, vec_capacity, OnOk};
ghost use Rattle.arn_ids.specs.Limits.{most_environments};
ghost use Rattle.call_model.specs.Next.{due, moment_at};
ghost use Rattle.call_types.specs.Within.{IsWithin};
ghost use Rattle.account_lock.specs.Bells.{given};
ghost use Rattle.account_lock.specs.Desks.{added_to};

use account_book::Book;
use call_model::{Call, Ticket};
use std::alloc::AllocError;
use usage_ledger::{Keep, Ledgers, Tally};

/// Returns for how many answers a step needs room, if `expiries` environments are due at its moment.
pub(crate) fn most_given(book: &Book, expiries: usize, call: &Call) -> usize
    requires within { IsWithin book.now.config call.now }
    requires few_due { expiries ≤ most_environments }
    ensures { (now : ℕ) →
        expiries ≡ length (due book.now.config book.now.history (moment_at book.now.history now)) →
        length (given (added_to book.now now call.now)) ≤ result }
{
    book.most_given(expiries, call)
}

/// Makes room for one more waiting bell, for `most` answers and one call in the tally, and for the bells
/// that `most` answers ring. What bells, rings and tally hold does not change, not even on an error.
pub(crate) fn make_room<B, K: Keep, L: Ledgers>(
    bells: &mut Vec<(Ticket, B)>,
    rings: &mut Vec<B>,
    tally: &mut Tally<K, L>,
    most: usize,
) -> Result<(), AllocError>
    ensures same { (bells.new.items ≡ bells.old.items) × (rings.new.items ≡ rings.old.items)
        × (tally.new.held ≡ tally.old.held) }
    ensures rings { OnOk result (vec_len rings.new + most ≤ vec_capacity rings.new) }
    ensures bells { OnOk result (vec_len bells.new + 1 ≤ vec_capacity bells.new) }
    ensures tally { OnOk result ((most ≤ tally.new.spare_notes) × (1 ≤ tally.new.spare_calls)) }
{
    bells.reserve(1)?;
    rings.reserve(most)?;
    tally.room(most.max(1))
}

//! A mark for each ticket of a history, set if the tallies keep something of it.

ghost use Rattle.std.specs.Prelude.{◌≡◌, ℕ, ◌+◌, ◌<◌, ◌≤◌, min, vec_len, IfOk};
ghost use Rattle.account_lock.specs.Gathered.{occurrences};
ghost use Rattle.account_lock.specs.Failing.{FirstFailure};
ghost use Rattle.account_lock.specs.Marking.{marked, is_at};

use super::least::lesser;
use call_model::Ticket;
use std::alloc::{AllocError, Global};

/// Returns blank marks, one for each of `count` tickets.
pub(crate) fn blank_marks(alloc: Global, count: usize) -> Result<Vec<bool>, AllocError>
    ensures { IfOk result (λ marks. (vec_len marks ≡ count) × ((t : ℕ) → marked t marks.items ≡ 0)) }
{
    let mut marks = Vec::with_capacity(alloc, count)?;
    for _ in 0..count {
        marks.push_reserved(false);
    }
    Ok(marks)
}

/// Sets the mark of a ticket, and returns the ticket if it was set before. A ticket past the marks has none.
fn mark(marks: &mut Vec<bool>, ticket: Ticket) -> Option<Ticket>
    ensures len { vec_len marks.new ≡ vec_len marks.old }
    ensures marks { (t : ℕ) → t < vec_len marks.old →
        marked t marks.new.items ≡ min 1 (marked t marks.old.items + is_at t ticket) }
    ensures twice { FirstFailure (λ t. t < vec_len marks.old →
        marked t marks.old.items + is_at t ticket ≤ 1) result }
{
    let at = ticket as usize;
    if at >= marks.len() {
        return None;
    }
    if marks[at] {
        return Some(ticket);
    }
    marks[at] = true;
    None
}

/// Sets the marks of the pairs' tickets, and returns the least ticket that was marked before or occurs twice.
pub(crate) fn mark_pairs<X>(marks: &mut Vec<bool>, pairs: &[(Ticket, X)]) -> Option<Ticket>
    ensures len { vec_len marks.new ≡ vec_len marks.old }
    ensures marks { (t : ℕ) → t < vec_len marks.old →
        marked t marks.new.items ≡ min 1 (marked t marks.old.items + occurrences t pairs.now) }
    ensures twice { FirstFailure (λ t. t < vec_len marks.old →
        marked t marks.old.items + occurrences t pairs.now ≤ 1) result }
{
    let mut twice = None;
    for pair in pairs {
        twice = lesser(twice, mark(marks, pair.0));
    }
    twice
}

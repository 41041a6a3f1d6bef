//! The receipts of tallies, which must be the answers of the history.

ghost use Rattle.std.specs.Prelude.{◌≡◌, ℕ, true, length, vec_len, IfSome, IfNone};
ghost use Rattle.account_lock.specs.Failing.{FailsFirstAt, FirstFailure};
ghost use Rattle.account_lock.specs.Marking.{marked};
ghost use Rattle.account_lock.specs.Settlement.{HasReceipt};

use super::claims::{Claim, mark_claims, unmarked};
use account_book::Book;
use call_model::{Answer, Ticket};
use usage_ledger::{Keep, Ledgers, Tally};

impl Claim for Answer {
    ghost use Rattle.call_model.specs.History.{answer_of};

    ghost wanted = { answer_of };

    ghost part = { λ kept. kept.receipts };

    fn stands(&self, book: &Book, ticket: Ticket) -> bool {
        match book.answer(ticket) {
            Some(given) => given == *self,
            None => false,
        }
    }

    fn is_wanted(book: &Book, ticket: Ticket) -> bool {
        book.answer(ticket).is_some()
    }

    fn kept<K: Keep, L: Ledgers>(tally: &Tally<K, L>) -> &[(Ticket, Answer)] {
        tally.kept()
    }
}

/// Returns the least ticket that was answered and has no receipt. The marks are blank.
fn first_missing<K: Keep, L: Ledgers>(
    book: &Book,
    marks: Vec<bool>,
    tallies: &[Tally<K, L>],
) -> Option<Ticket>
    requires len { vec_len marks ≡ length book.now.history }
    requires blank { (t : ℕ) → marked t marks.items ≡ 0 }
    ensures { FirstFailure (HasReceipt book.now.history tallies.now) result }
{
    book.facts();
    let mut marks = marks;
    let _ = mark_claims::<Answer, K, L>(&mut marks, tallies);
    unmarked::<Answer>(book, &marks)
}

/// Returns the least ticket that was answered and has no receipt, if all receipts should be kept. The marks
/// are blank.
pub(crate) fn receipt_missing<K: Keep, L: Ledgers>(
    book: &Book,
    marks: Vec<bool>,
    tallies: &[Tally<K, L>],
    all: bool,
) -> Option<Ticket>
    requires len { vec_len marks ≡ length book.now.history }
    requires blank { (t : ℕ) → marked t marks.items ≡ 0 }
    ensures none { IfNone result (all ≡ true → (t : ℕ) → HasReceipt book.now.history tallies.now t) }
    ensures some { IfSome result (λ t. (all ≡ true)
        × FailsFirstAt (HasReceipt book.now.history tallies.now) t) }
{
    if !all {
        return None;
    }
    first_missing(book, marks, tallies)
}

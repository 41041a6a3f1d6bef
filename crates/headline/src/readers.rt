//! The calls that state the headline of the history of what they read.

ghost use Rattle.std.specs.Prelude.{◌≡◌, ◌≢◌, ◌^◌, [], true, false, IfOk, IfErr};
ghost use Rattle.std.specs.List.{list_all};
ghost use Rattle.account_lock.specs.Counting.{counts_of};
ghost use Rattle.account_lock.specs.Gathered.{counts_in, keeps_nothing};
ghost use Rattle.account_lock.specs.Settlement.{IsSettled, IsFault};
ghost use Rattle.account_lock.specs.Shown.{Sees};
ghost use Rattle.account_lock.specs.declared.settle.fault.SettleFault.TheVariants.{TallyMissing};
ghost use Rattle.headline.specs.Headline.{Headline};

use crate::laws;
use account_book::Book;
use account_lock::{Account, Bell, Desk, Identity, Settled, Unsettled};
use call_model::Stats;
use std::sync::Wait;
use usage_ledger::{Keep, Ledgers, Tally, Token};

/// Returns the counts of a book; the headline holds of its history with them.
pub fn of_book(book: &Book) -> Stats
    ensures { Headline book.now.config book.now.history result }
{
    book.facts();
    laws::headline();
    book.stats()
}

/// Returns the counts of a desk; the headline holds of its history with them. An account's lock protects
/// such a desk.
pub fn of_desk<B: Bell, L: Ledgers>(desk: &Desk<B, L>) -> Stats
    ensures { Headline desk.now.book.config desk.now.book.history result }
{
    desk.facts();
    laws::headline();
    desk.book().stats()
}

/// Returns the counts of a running account, in its history as it is, which the token has then seen. This
/// history extends the one that the token had seen before, and the headline holds of it with the counts.
pub fn of_account<S: Identity, B: Bell>(
    account: &Account<S, B>,
    rt: &impl Wait,
    token: &mut Token<S>,
) -> Stats
    ensures seen { Sees S.config S.most token.old token.new }
    ensures headline { Headline S.config token.new result }
{
    laws::seen();
    account.stats(rt, token)
}

/// Settles an account that threads no longer share: the headline holds of its history, which the token that
/// is returned has seen, and all tallies together have counted what that history counts.
///
/// # Errors
/// The first `SettleFault` that holds, in the order in which they are declared, with a token that has seen
/// the whole history in which it is found; account and tallies are consumed. If no tally was missing, the
/// tallies have counted what that history counts. If nothing is kept, and nothing has to be, a missing tally
/// is the only fault, and no memory is allocated.
pub fn settle<S: Identity, B: Bell, K: Keep>(
    account: Account<S, B>,
    tallies: Vec<Tally<K, S>>,
) -> Result<(Settled<K, S>, Token<S>), Unsettled<S>>
    ensures configured { IfOk result (λ done. done.0.book.config ≡ S.config) }
    ensures headline { IfOk result (λ done. Headline S.config done.1 done.0.stats) }
    ensures settled { IfOk result (λ done. IsSettled K.ALL done.0.book.history tallies.items) }
    ensures tally { IfOk result (λ done. (done.0.tally.held.parts ≡ 2 ^ 32)
        × (done.0.tally.held.counts ≡ counts_of done.1)) }
    ensures whole { IfOk result (λ done. (done.1 ≡ done.0.book.history) × Sees S.config S.most [] done.1) }
    ensures seen { IfErr result (λ back. Sees S.config S.most [] back.token) }
    ensures fault { IfErr result (λ back. IsFault K.ALL back.fault back.token tallies.items) }
    ensures counted { IfErr result
        (λ back. back.fault ≢ TallyMissing → counts_in tallies.items ≡ counts_of back.token) }
    ensures nothing { IfErr result (λ back.
        K.ALL ≡ false → list_all keeps_nothing tallies.items ≡ true → back.fault ≡ TallyMissing) }
{
    let done = account.settle(tallies)?;
    done.0.book.facts();
    laws::headline();
    Ok(done)
}

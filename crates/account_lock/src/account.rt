//! The account: a desk that threads share.

mod locked;

ghost use Rattle.std.specs.Prelude.{◌≡◌, ◌≢◌, ◌⊎◌, [], ◌+◌, ◌<◌, ◌≤◌, ◌^◌, ◌↔◌, true, false, is_some};
ghost use Rattle.std.specs.Prelude.{length, IfOk, IfErr, IfSome, IfNone, IsErrOf};
ghost use Rattle.std.specs.Arc.{arc_value};
ghost use Rattle.std.specs.List.{list_all};
ghost use Rattle.arn_ids.specs.Environments.{owners};
ghost use Rattle.account_book.specs.declared.book.OpenFault.TheVariants.{EntriesOutOfRange};
ghost use Rattle.call_model.specs.Counts.{stats};
ghost use Rattle.call_model.specs.History.{answer_of};
ghost use Rattle.call_model.specs.Limits.{reservation};
ghost use Rattle.call_model.specs.Next.{due, first};
ghost use Rattle.call_types.specs.Within.{IsWithin};
ghost use Rattle.call_types.specs.declared.call.Call.TheVariants.{Tick};
ghost use Rattle.account_book.specs.Books.{life};
ghost use Rattle.account_book.specs.HistoryText.{opening_text};
ghost use Rattle.account_book.specs.Premature.{premature};
ghost use Rattle.account_book.specs.ReplyText.{reply_text};
ghost use Rattle.shared_history.specs.Sharing.{Extends};
ghost use Rattle.usage_ledger.specs.Tallies.{fresh};
ghost use Rattle.account_lock.specs.Counting.{counts_of};
ghost use Rattle.account_lock.specs.Desks.{at_rest};
ghost use Rattle.account_lock.specs.Gathered.{counts_in, keeps_nothing};
ghost use Rattle.account_lock.specs.Looks.{look_of};
ghost use Rattle.account_lock.specs.Settlement.{IsSettled, IsFault};
ghost use Rattle.account_lock.specs.Shown.{IsTextOf, Sees, book_of};
ghost use Rattle.account_lock.specs.Submits.{IsNotTaken, IsTurnedAway, Took};
ghost use Rattle.account_lock.specs.declared.settle.fault.SettleFault.TheVariants.{TallyMissing};

use crate::{Bell, Desk, Look, NotTaken, Refused, Ringer, Settled, Step, Unsettled};
use account_book::{Book, Life, OpenFault};
use arn_ids::{Checked, FnNo};
use call_model::{Call, Stats, Ticket};
use lambda_wire::Reply;
use locked::Locked;
use script::Draft;
use std::alloc::{AllocError, Global};
use std::marker::Brand;
use std::sync::{Arc, Mutex, Wait};
use usage_ledger::{Anchor, Blanks, Keep, Ledgers, Pen, Spine, Start, Tally, Token, root};

/// Names an account's ledgers, history, configuration, salt and limit in its type, so that callers know
/// them without taking the lock.
pub trait Identity: Ledgers {
    ghost use Rattle.std.specs.Prelude.{ℕ};
    ghost use Rattle.arn_ids.specs.declared.config.Config.{Config};

    /// The configuration.
    ghost config: { Config };

    /// The salt of its identifiers.
    ghost salt: { ℕ };

    /// The greatest number of entries of its history.
    ghost most: { ℕ };
}

/// If a caller names `Brand`, it chooses configuration, salt and limit in its proof; these are the defaults.
impl Identity for Brand {
    ghost use Rattle.call_model.specs.Sample.{one};

    ghost config = { one };

    ghost salt = { 0 };

    ghost most = { 0 };
}

/// One account that threads share: a desk on which one thread at a time makes a step or reads. All threads
/// see one history: what each has seen is a beginning of it.
#[derive(Drop)]
pub struct Account<S: Identity, B> {
    pub(crate) locked: Mutex<Locked<S, B>>,
    pub(crate) spine: Spine<S>,
}

/// Hands out the bells of a step after the lock is released, and returns the call's ticket.
fn ring_out<B: Bell>(rt: &impl Wait, step: Step<B>, ringer: &impl Ringer<B>) -> Ticket
    ensures { result ≡ step.ticket }
{
    let Step { ticket, rings } = step;
    if !rings.is_empty() {
        ringer.take(rt, rings);
    }
    ticket
}

impl<S: Identity, B: Bell> Account<S, B> {
    /// Opens an account of up to `max_entries` entries: at least one more than the number of its
    /// environments, and at most 2^32. Its history is empty, and the tally has all parts of its four ledgers.
    /// The blanks become the ledgers and the history that `S` names. The configuration is shared with its
    /// other readers.
    ///
    /// # Errors
    /// As `Book::open`: `EntriesOutOfRange`, otherwise `OutOfMemory`.
    pub fn open<K: Keep>(
        alloc: Global,
        config: Arc<Checked>,
        salt: u64,
        max_entries: u64,
        blanks: Blanks,
    ) -> Result<(Account<S, B>, Tally<K, S>), OpenFault>
        requires configured { arc_value config ≡ S.config }
        requires salted { salt ≡ S.salt }
        requires limited { max_entries ≡ S.most }
        requires named { blanks ≡ S.names }
        ensures range { IsErrOf result EntriesOutOfRange
            ↔ ((length (owners (arc_value config)) + 1 ≤ max_entries) × (max_entries ≤ 2 ^ 32) → ⊥) }
        ensures tally { IfOk result (λ opened. opened.1.held ≡ fresh (2 ^ 32)) }
    {
        let book = match Book::open(alloc, config, salt, max_entries) {
            Ok(book) => book,
            Err(fault) => return Err(fault),
        };
        let Start {
            totals,
            tally,
            spine,
            pen,
        } = root(alloc, blanks);
        let desk = Desk::open(alloc, book, totals);
        Ok((Account::share(desk, spine, pen), tally))
    }

    /// Puts a desk behind a lock, with the pen that has written its history.
    pub fn share(desk: Desk<B, S>, spine: Spine<S>, pen: Pen<S>) -> Account<S, B>
        requires configured { desk.book.config ≡ S.config }
        requires salted { desk.book.salt ≡ S.salt }
        requires limited { desk.book.max_entries ≡ S.most }
        requires written { pen ≡ desk.book.history }
    {
        Account {
            locked: Mutex::new(Locked { desk, pen }),
            spine,
        }
    }

    /// Submits a call: one step of the desk under the lock. After the lock is released, the ringer gets the bells of
    /// the step.
    /// The tally counts the call, and notes its head at the ticket that is returned. Both the caller's
    /// token and the one that comes with the ticket have then seen the history up to this call.
    ///
    /// # Errors
    /// As `Desk::apply`, for the history that the token has then seen. The tally is unchanged, and the bell
    /// is returned.
    pub fn submit<K: Keep>(
        &self,
        rt: &impl Wait,
        tally: &mut Tally<K, S>,
        token: &mut Token<S>,
        now: u64,
        call: Call,
        bell: Option<B>,
        ringer: &impl Ringer<B>,
    ) -> Result<(Ticket, Token<S>), Refused<B>>
        requires moment { now < 2 ^ 53 }
        requires within { IsWithin S.config call }
        ensures taken { IfOk result (λ taken. Took S.config S.most K.notes K.makes
            token.old tally.old.held now call taken.0 taken.1 tally.new.held) }
        ensures seen { IfOk result (λ taken. token.new ≡ taken.1) }
        ensures refused { IfErr result (λ back. (back.bell ≡ bell) × (tally.new.held ≡ tally.old.held)
            × IsTurnedAway S.config S.most token.old call back.refusal token.new) }
    {
        let step = self
            .locked
            .lock(rt)
            .apply(&self.spine, tally, token, now, call, bell);
        match step {
            Ok((step, token)) => Ok((ring_out(rt, step, ringer), token)),
            Err(refused) => Err(refused),
        }
    }

    /// Submits a call unless it is premature ([`account_book::Book::is_premature`]). The test and the step
    /// happen under one lock.
    ///
    /// # Errors
    /// As `Desk::apply_unless_premature`, for the history that the token has then seen. The tally is unchanged,
    /// and the bell is returned, with the call if that is premature.
    pub fn submit_unless_premature<K: Keep>(
        &self,
        rt: &impl Wait,
        tally: &mut Tally<K, S>,
        token: &mut Token<S>,
        now: u64,
        call: Call,
        bell: Option<B>,
        ringer: &impl Ringer<B>,
    ) -> Result<(Ticket, Token<S>), NotTaken<B>>
        requires moment { now < 2 ^ 53 }
        requires within { IsWithin S.config call }
        ensures taken { IfOk result (λ taken. (took : Took S.config S.most K.notes K.makes
            token.old tally.old.held now call taken.0 taken.1 tally.new.held)
            × (premature S.config took.taken.before now call ≡ false)) }
        ensures seen { IfOk result (λ taken. token.new ≡ taken.1) }
        ensures not_taken { IfErr result (λ back. (tally.new.held ≡ tally.old.held)
            × IsNotTaken S.config S.most token.old now call bell back token.new) }
    {
        let step = self
            .locked
            .lock(rt)
            .submit_unless_premature(&self.spine, tally, token, now, call, bell);
        match step {
            Ok((step, token)) => Ok((ring_out(rt, step, ringer), token)),
            Err(not_taken) => Err(not_taken),
        }
    }

    /// Submits a Tick at a moment in milliseconds, below 2^53, if no deadline is running, so that nothing
    /// expires, however far ahead the moment is. The test and the step happen under one lock. Returns `None`
    /// if a deadline is running; nothing has then changed.
    ///
    /// # Errors
    /// As [`Desk::apply`], for the history that the token has then seen. The tally is unchanged.
    pub fn tick_at_rest<K: Keep>(
        &self,
        rt: &impl Wait,
        tally: &mut Tally<K, S>,
        token: &mut Token<S>,
        now: u64,
        ringer: &impl Ringer<B>,
    ) -> Result<Option<Ticket>, Refused<B>>
        requires moment { now < 2 ^ 53 }
        ensures taken { IfOk result (λ made. IfSome made (λ ticket. (took : Took S.config S.most K.notes K.makes
            token.old tally.old.held now Tick ticket token.new tally.new.held)
            × (at_rest S.config took.taken.before ≡ true))) }
        ensures none { IfOk result (λ made. IfNone made ((tally.new.held ≡ tally.old.held)
            × Sees S.config S.most token.old token.new × (at_rest S.config token.new ≡ false))) }
        ensures refused { IfErr result (λ back. (tally.new.held ≡ tally.old.held)
            × IsTurnedAway S.config S.most token.old Tick back.refusal token.new
            × (at_rest S.config token.new ≡ true)) }
    {
        let made = self
            .locked
            .lock(rt)
            .tick_at_rest(&self.spine, tally, token, now);
        match made {
            Ok(Some(step)) => Ok(Some(ring_out(rt, step, ringer))),
            Ok(None) => Ok(None),
            Err(refused) => Err(refused),
        }
    }

    /// Returns a token of the account's history. The contract does not say how much it has seen.
    pub fn token(&self, rt: &impl Wait) -> Token<S>
        ensures { Sees S.config S.most [] result }
    {
        self.locked.lock(rt).token(&self.spine)
    }

    /// Returns another token that has seen as much. It takes no lock.
    pub fn again(&self, token: &mut Token<S>) -> Token<S>
        ensures { (result ≡ token.old) × (token.new ≡ token.old) }
    {
        token.again(&self.spine)
    }

    /// Returns an anchor at what a token has seen. It takes no lock.
    pub fn anchor(&self, token: &mut Token<S>) -> Anchor<S>
        ensures { (result ≡ token.old) × (token.new ≡ token.old) }
    {
        Anchor::new(&self.spine, token)
    }

    /// Returns a token that has seen what an anchor is at. It takes no lock of the account's, and waits while another
    /// thread is in such a call with the same anchor.
    pub fn from_anchor(&self, rt: &impl Wait, anchor: &Anchor<S>) -> Token<S>
        ensures { result ≡ anchor.now }
    {
        anchor.token(rt, &self.spine)
    }

    /// States that of what two tokens have seen, one is a beginning of the other: the account has one
    /// history.
    pub fn agree(&self, one: &mut Token<S>, other: &mut Token<S>)
        ensures agree { Extends one.old other.old ⊎ Extends other.old one.old }
        ensures same { (one.new ≡ one.old) × (other.new ≡ other.old) }
    {
        one.agree(&self.spine, other);
    }

    /// Returns what a ticket was answered, in the history as it is, which the token has then seen.
    pub fn look(&self, rt: &impl Wait, token: &mut Token<S>, ticket: Ticket) -> Look
        ensures seen { Sees S.config S.most token.old token.new }
        ensures value { result ≡ look_of (answer_of token.new ticket) }
    {
        Look::of(self.locked.lock(rt).read(&self.spine, token).answer(ticket))
    }

    /// Returns whether an environment is due at a moment in milliseconds, so that a `Tick` expires it, in the
    /// history as it is, which the token has then seen.
    pub fn due(&self, rt: &impl Wait, token: &mut Token<S>, now: u64) -> bool
        ensures seen { Sees S.config S.most token.old token.new }
        ensures value { result ≡ is_some (first (due S.config token.new now)) }
    {
        self.locked.lock(rt).read(&self.spine, token).due(now)
    }

    /// Returns the counts of the history as it is, which the token has then seen.
    pub fn stats(&self, rt: &impl Wait, token: &mut Token<S>) -> Stats
        ensures seen { Sees S.config S.most token.old token.new }
        ensures value { result ≡ stats S.config token.new }
    {
        self.locked.lock(rt).read(&self.spine, token).stats()
    }

    /// Returns how far the service's shutdown has come, in the history as it is, which the token has then
    /// seen.
    pub fn life(&self, rt: &impl Wait, token: &mut Token<S>) -> Life
        ensures seen { Sees S.config S.most token.old token.new }
        ensures value { result ≡ life S.config token.new }
    {
        self.locked.lock(rt).read(&self.spine, token).life()
    }

    /// Returns a function's reservation in force, if it has one, in the history as it is, which the token has
    /// then seen. (GetFunctionConcurrency)
    pub fn reservation(&self, rt: &impl Wait, token: &mut Token<S>, function: FnNo) -> Option<u32>
        requires from_one { 1 ≤ function }
        requires there { function ≤ length S.config.functions }
        ensures seen { Sees S.config S.most token.old token.new }
        ensures value { result ≡ reservation S.config token.new function }
    {
        self.locked
            .lock(rt)
            .read(&self.spine, token)
            .reservation(function)
    }

    /// Returns the reply to the call with a ticket, in the history as it is, which the token has then seen:
    /// the status, the headers and the body of its answer; `None` while the call has no answer.
    ///
    /// It fails only if an allocation fails.
    pub fn render(
        &self,
        rt: &impl Wait,
        token: &mut Token<S>,
        ticket: Ticket,
    ) -> Result<Option<Reply>, AllocError>
        ensures seen { Sees S.config S.most token.old token.new }
        ensures text { IfOk result (λ reply. reply ≡ reply_text S.config S.salt token.new ticket) }
    {
        self.locked.lock(rt).read(&self.spine, token).render(ticket)
    }

    /// Returns the text of the history before its first entry.
    ///
    /// It fails only if an allocation fails.
    pub fn opening(&self, rt: &impl Wait) -> Result<Vec<u8>, AllocError>
        ensures { IfOk result (λ text. text.items ≡ opening_text S.config S.salt S.most) }
    {
        self.locked.lock(rt).opening()
    }

    /// Returns the text of the entry with a ticket, in the history as it is, which the token has then seen;
    /// `None` past the end. The entry's bodies are escaped as the text is taken, after the lock is released.
    ///
    /// It fails only if an allocation fails.
    pub fn history(
        &self,
        rt: &impl Wait,
        token: &mut Token<S>,
        ticket: Ticket,
    ) -> Result<Option<Draft>, AllocError>
        ensures seen { Sees S.config S.most token.old token.new }
        ensures text { IfOk result (λ text. IsTextOf S.config S.salt ticket text token.new) }
    {
        self.locked
            .lock(rt)
            .read(&self.spine, token)
            .history(ticket)
    }

    /// Adds up the shares of all tallies, and compares what they keep with the history. It needs the account
    /// to itself. What is settled comes with a token that has seen the whole history of its book.
    ///
    /// # Errors
    /// As `Desk::settle`; account and tallies are consumed. The fault comes with a token that has seen the
    /// whole history in which it is found. If no tally was missing, the tallies have counted what that
    /// history counts. If nothing is kept, and nothing has to be, a missing tally is the only fault.
    pub fn settle<K: Keep>(
        self,
        tallies: Vec<Tally<K, S>>,
    ) -> Result<(Settled<K, S>, Token<S>), Unsettled<S>>
        ensures book { IfOk result (λ done. (done.0.book.config ≡ S.config)
            × (done.0.stats ≡ stats S.config done.0.book.history)) }
        ensures settled { IfOk result (λ done. IsSettled K.ALL done.0.book.history tallies.items) }
        ensures tally { IfOk result (λ done. (done.0.tally.held.parts ≡ 2 ^ 32)
            × (done.0.tally.held.counts ≡ counts_of done.0.book.history)) }
        ensures whole { IfOk result (λ done. (done.1 ≡ done.0.book.history) × Sees S.config S.most [] done.1) }
        ensures seen { IfErr result (λ back. Sees S.config S.most [] back.token) }
        ensures fault { IfErr result (λ back. IsFault K.ALL back.fault back.token tallies.items) }
        ensures counted { IfErr result
            (λ back. back.fault ≢ TallyMissing → counts_in tallies.items ≡ counts_of back.token) }
        ensures nothing { IfErr result (λ back.
            K.ALL ≡ false → list_all keeps_nothing tallies.items ≡ true → back.fault ≡ TallyMissing) }
    {
        let Account { locked, spine } = self;
        let Locked { desk, mut pen } = locked.into_inner();
        desk.facts();
        let token = pen.token(&spine);
        match desk.settle(tallies) {
            Ok(settled) => Ok((settled, token)),
            Err(fault) => Err(Unsettled { fault, token }),
        }
    }

    /// Returns the desk, and a token that has seen the whole history of its book.
    pub fn into_desk(self) -> (Desk<B, S>, Token<S>)
        ensures book { result.0.book ≡ book_of S.config S.salt S.most result.1 }
        ensures seen { Sees S.config S.most [] result.1 }
    {
        let Account { locked, spine } = self;
        let Locked { desk, mut pen } = locked.into_inner();
        desk.facts();
        let token = pen.token(&spine);
        (desk, token)
    }
}

//! What lies under an account's lock.

ghost use Rattle.std.specs.Prelude.{◌≡◌, ◌<◌, ◌^◌, [], true, false, is_some, IfOk, IfErr, IfSome, IfNone, OnErr};
ghost use Rattle.account_book.specs.HistoryText.{opening_text};
ghost use Rattle.account_book.specs.Premature.{premature};
ghost use Rattle.call_types.specs.Within.{IsWithin};
ghost use Rattle.call_types.specs.declared.call.Call.TheVariants.{Tick};
ghost use Rattle.account_lock.specs.Desks.{at_rest};
ghost use Rattle.account_lock.specs.Shown.{Sees, book_of};
ghost use Rattle.account_lock.specs.Submits.{IsNotTaken, IsTurnedAway, Took};
ghost use Rattle.account_book.specs.Books.{life};
ghost use Rattle.account_lock.specs.Trails.{GoesOn, IsObjectOf, is_off};
ghost use Rattle.trace.specs.EnvironmentObject.{environments_object};

use crate::tracing::draft_environments;
use crate::{Bell, Desk, Identity, NotTaken, Refused, Step, Trail};
use account_book::{Book, Life};
use call_model::{Call, Entry};
use shared_history::Source;
use std::alloc::{AllocError, Global};
use std::marker::Model;
use trace::Draft;
use usage_ledger::{Keep, Ledgers, Pen, Spine, Tally, Token};
/// What the lock protects: a desk with the configuration, salt and limit that its type names, and the pen
/// that has written the desk's history. Contracts see the history.
#[derive(Drop)]
pub(crate) struct Locked<S: Identity, B> {
    pub(crate) desk: Desk<B, S>,
    pub(crate) pen: Pen<S>,
}

impl<S: Identity, B> Model for Locked<S, B> {
    ghost use Rattle.std.specs.Prelude.{◌≡◌, List};
    ghost use Rattle.call_types.specs.declared.call.Entry.{Entry};

    ghost Value = { List Entry };

    ghost view = { λ l. l.pen };

    ghost invariant = { λ l.
        (l.desk.book.config ≡ S.config) × (l.desk.book.salt ≡ S.salt) × (l.desk.book.history ≡ l.pen)
        × (l.desk.book.max_entries ≡ S.most) };
}

/// Lets the pen write the history of the desk's book.
struct OfDesk;

impl<B, L: Ledgers> Source<Desk<B, L>, Entry> for OfDesk {
    ghost history = { λ desk. desk.book.history };
}

impl<S: Identity, B: Bell> Locked<S, B> {
    /// Makes one step of the desk, which the pen writes, and returns it with another token that has seen it.
    pub(crate) fn apply<K: Keep>(
        &mut self,
        spine: &Spine<S>,
        tally: &mut Tally<K, S>,
        token: &mut Token<S>,
        now: u64,
        call: Call,
        bell: Option<B>,
    ) -> Result<(Step<B>, Token<S>), Refused<B>>
        requires moment { now < 2 ^ 53 }
        requires within { IsWithin S.config call }
        ensures taken { IfOk result (λ step. Took S.config S.most K.notes K.makes
            token.old tally.old.held now call step.0.ticket step.1 tally.new.held) }
        ensures seen { IfOk result (λ step. token.new ≡ step.1) }
        ensures refused { IfErr result (λ back. (back.bell ≡ bell) × (tally.new.held ≡ tally.old.held)
            × IsTurnedAway S.config S.most token.old call back.refusal token.new) }
    {
        self.desk.facts();
        self.pen.show(spine, token);
        let step = match self.desk.apply(tally, now, call, bell) {
            Ok(step) => step,
            Err(refused) => return Err(refused),
        };
        self.pen.write::<Desk<B, S>, OfDesk>(spine, &self.desk);
        *token = self.pen.token(spine);
        Ok((step, self.pen.token(spine)))
    }

    /// Does the same with a call that is taken unless it is premature.
    pub(crate) fn submit_unless_premature<K: Keep>(
        &mut self,
        spine: &Spine<S>,
        tally: &mut Tally<K, S>,
        token: &mut Token<S>,
        now: u64,
        call: Call,
        bell: Option<B>,
    ) -> Result<(Step<B>, Token<S>), NotTaken<B>>
        requires moment { now < 2 ^ 53 }
        requires within { IsWithin S.config call }
        ensures taken { IfOk result (λ step. (took : Took S.config S.most K.notes K.makes
            token.old tally.old.held now call step.0.ticket step.1 tally.new.held)
            × (premature S.config took.taken.before now call ≡ false)) }
        ensures seen { IfOk result (λ step. token.new ≡ step.1) }
        ensures not_taken { IfErr result (λ back. (tally.new.held ≡ tally.old.held)
            × IsNotTaken S.config S.most token.old now call bell back token.new) }
    {
        self.desk.facts();
        self.pen.show(spine, token);
        let step = match self.desk.apply_unless_premature(tally, now, call, bell) {
            Ok(step) => step,
            Err(not_taken) => return Err(not_taken),
        };
        self.pen.write::<Desk<B, S>, OfDesk>(spine, &self.desk);
        *token = self.pen.token(spine);
        Ok((step, self.pen.token(spine)))
    }

    /// Takes a Tick, but only if no deadline is running.
    pub(crate) fn tick_at_rest<K: Keep>(
        &mut self,
        spine: &Spine<S>,
        tally: &mut Tally<K, S>,
        token: &mut Token<S>,
        now: u64,
    ) -> Result<Option<Step<B>>, Refused<B>>
        requires moment { now < 2 ^ 53 }
        ensures taken { IfOk result (λ made. IfSome made (λ step. (took : Took S.config S.most K.notes K.makes
            token.old tally.old.held now Tick step.ticket token.new tally.new.held)
            × (at_rest S.config took.taken.before ≡ true))) }
        ensures none { IfOk result (λ made. IfNone made ((tally.new.held ≡ tally.old.held)
            × Sees S.config S.most token.old token.new × (at_rest S.config token.new ≡ false))) }
        ensures refused { IfErr result (λ back. (tally.new.held ≡ tally.old.held)
            × IsTurnedAway S.config S.most token.old Tick back.refusal token.new
            × (at_rest S.config token.new ≡ true)) }
    {
        self.desk.facts();
        self.pen.show(spine, token);
        let step = match self.desk.tick_at_rest(tally, now) {
            Ok(Some(step)) => step,
            Ok(None) => return Ok(None),
            Err(refused) => return Err(refused),
        };
        self.pen.write::<Desk<B, S>, OfDesk>(spine, &self.desk);
        *token = self.pen.token(spine);
        Ok(Some(step))
    }

    /// Returns a token that has seen the history as it is.
    pub(crate) fn token(&mut self, spine: &Spine<S>) -> Token<S>
        ensures { Sees S.config S.most [] result }
    {
        self.desk.facts();
        self.pen.token(spine)
    }

    /// Shows a token the history as it is, and returns the book that has it.
    pub(crate) fn read(&mut self, spine: &Spine<S>, token: &mut Token<S>) -> &Book
        ensures seen { Sees S.config S.most token.old token.new }
        ensures book { result.now ≡ book_of S.config S.salt S.most token.new }
    {
        self.desk.facts();
        self.pen.show(spine, token);
        self.desk.book()
    }

    /// Drafts the object of the environments in the history as it is, which the token has then seen.
    ///
    /// It fails only if an allocation fails.
    pub(crate) fn environments(
        &mut self,
        spine: &Spine<S>,
        token: &mut Token<S>,
    ) -> Result<Draft, AllocError>
        ensures seen { Sees S.config S.most token.old token.new }
        ensures object { IfOk result (λ object. object ≡ environments_object S.config S.salt token.new) }
    {
        let alloc = self.desk.alloc;
        draft_environments(alloc, self.read(spine, token))
    }

    /// Returns a trail that has followed no entry of the history as it is, which continues what the token has seen.
    ///
    /// It fails only if an allocation fails.
    pub(crate) fn trail(
        &mut self,
        spine: &Spine<S>,
        alloc: Global,
        mut token: Token<S>,
    ) -> Result<Trail<S>, AllocError>
        ensures { IfOk result (λ trail. (trail.next ≡ 0) × Sees S.config S.most token trail.seen) }
    {
        self.desk.facts();
        self.pen.show(spine, &mut token);
        Trail::open(alloc, self.desk.book().config(), token)
    }

    /// Lets a trail follow the entry that comes next in the history as it is; returns whether there is one.
    pub(crate) fn pass(&mut self, spine: &Spine<S>, trail: &mut Trail<S>) -> bool
        ensures seen { Sees S.config S.most trail.old.seen trail.new.seen }
        ensures next { GoesOn result trail.old trail.new }
        ensures whole { self.new ≡ trail.new.seen }
    {
        self.desk.facts();
        trail.see(spine, &mut self.pen);
        trail.follow(self.desk.book())
    }

    /// Returns whether the service is off in the history as it is, which the trail has then seen.
    pub(crate) fn is_off(&mut self, spine: &Spine<S>, trail: &mut Trail<S>) -> bool
        ensures seen { Sees S.config S.most trail.old.seen trail.new.seen }
        ensures value { result ≡ is_off (life S.config trail.new.seen) }
        ensures next { trail.new.next ≡ trail.old.next }
        ensures whole { self.new ≡ trail.new.seen }
    {
        self.desk.facts();
        let pen = &mut self.pen;
        trail.see(spine, pen);
        matches!(self.desk.book().life(), Life::Off)
    }

    /// Lets a trail follow the entry that comes next, and returns the object of the entry.
    ///
    /// It fails only if an allocation fails.
    pub(crate) fn trace(
        &mut self,
        spine: &Spine<S>,
        trail: &mut Trail<S>,
        bodies: bool,
    ) -> Result<Option<Draft>, AllocError>
        ensures seen { Sees S.config S.most trail.old.seen trail.new.seen }
        ensures object { IfOk result (λ object.
            IsObjectOf S.config S.salt bodies trail.old.next object trail.new.seen) }
        ensures next { IfOk result (λ object. GoesOn (is_some object) trail.old trail.new) }
        ensures passed { OnErr result (GoesOn true trail.old trail.new) }
    {
        let ticket = trail.next();
        if !self.pass(spine, trail) {
            return Ok(None);
        }
        Ok(Some(trail.draft(self.desk.book(), bodies, ticket)?))
    }

    /// Returns the text of the history before its first entry.
    ///
    /// It fails only if an allocation fails.
    pub(crate) fn opening(&self) -> Result<Vec<u8>, AllocError>
        ensures { IfOk result (λ text. text.items ≡ opening_text S.config S.salt S.most) }
    {
        self.desk.book().opening()
    }
}

//! The history of an account, with what is kept beside it.

ghost use Rattle.std.specs.Prelude.{◌≡◌, ◌+◌, ◌++◌, ◌-◌, ◌<◌, ◌≤◌, ◌^◌, [], length, reverse, Some, None, IfOk, OnOk};
ghost use Rattle.std.specs.Prelude.{All, false, if◌then◌else◌};
ghost use Rattle.std.specs.Arc.{arc_value};
ghost use Rattle.std.specs.List.{list_all};
ghost use Rattle.arn_ids.specs.Environments.{owners, environments};
ghost use Rattle.arn_ids.specs.Faults.{first_fault};
ghost use Rattle.arn_ids.specs.Limits.{most_environments, most_extensions};
ghost use Rattle.call_types.specs.declared.answer.Answer.TheVariants.{Stopped};
ghost use Rattle.call_types.specs.declared.call.Call.TheVariants.{Expire};
ghost use Rattle.call_model.specs.Answers.{reserve_answer, verdict_answer};
ghost use Rattle.call_model.specs.Counts.{stats};
ghost use Rattle.call_model.specs.History.{answer_of, is_expiry, stopped};
ghost use Rattle.call_model.specs.Life.{phase};
ghost use Rattle.call_model.specs.Limits.{place_for, reservation, verdict, admitted_to, Admits};
ghost use Rattle.call_model.specs.Next.{IsLegal, Follows, entry_of, entered, due, last_moment, expiries_at, first};
ghost use Rattle.env_phase.specs.Meeting.{known_at};
ghost use Rattle.env_phase.specs.Taking.{registered_name, is_off};
ghost use Rattle.call_model.specs.CallCounts.{call_counts};
ghost use Rattle.call_types.specs.Within.{IsWithin};
ghost use Rattle.account_book.specs.Answering.{most_answers};
ghost use Rattle.account_book.specs.Room.{first_or_zero, IsRoom, IsNarrow};
ghost use Rattle.account_book.specs.Premature.{would_be_premature};
ghost use Rattle.account_book.specs.OwnAnswers.{book_answer};
ghost use Rattle.account_book.specs.Taking.{IsKnown, AllKnown};

use crate::answering::{answer_call, count_call};
use crate::crew::{Arrival, Fleet};
use crate::ledger::Ledger;
use crate::opening::open_counts;
use crate::premature::is_unstarted;
use crate::room::Roomy;
use arn_ids::{Checked, EnvNo, FnNo};
use call_model::{Answer, Call, Entry, Rejection, Stats, Throttle, Ticket};
use entry_blocks::Blocks;
use env_phase::Environment;
use std::alloc::{AllocError, Global};
use std::marker::Model;
use std::sync::Arc;

/// The history with what is kept beside it. Room for an entry is made beforehand.
#[derive(Drop)]
pub struct Journal {
    config: Arc<Checked>,
    fleet: Fleet,
    /// How many Invokes each function has had.
    requests: Vec<u64>,
    ledger: Ledger,
}

impl Model for Journal {
    ghost use Rattle.account_book.specs.Pages.{Pages};
    ghost use Rattle.account_book.specs.Journals.{pages, IsJournal};

    ghost Value = { Pages };

    ghost view = { pages };

    ghost invariant = { IsJournal };
}

/// What an account decides on a call: where it is placed, and the account's own answer if the call names
/// no environment.
#[derive(Clone, Copy)]
pub struct Verdict {
    /// The environment that an admitted Invoke goes to.
    pub place: Option<EnvNo>,
    /// The answer to the call itself.
    pub own: Option<Answer>,
}

impl Verdict {
    /// A call that is placed nowhere, with its own answer.
    fn own(answer: Answer) -> Verdict
        ensures { result ≡ record { place = None; own = Some answer } }
    {
        Verdict {
            place: None,
            own: Some(answer),
        }
    }
}

impl Journal {
    /// An empty journal.
    pub fn open(alloc: Global, config: Arc<Checked>) -> Result<Journal, AllocError>
        ensures { IfOk result (λ j. j ≡ record { config = arc_value config; history = []; room = 0; widest = 0 }) }
    {
        let requests = open_counts(alloc, config.functions())?;
        let fleet = Fleet::open(alloc, &config)?;
        Ok(Journal {
            config,
            fleet,
            requests,
            ledger: Ledger::new(alloc),
        })
    }

    /// The configuration.
    pub fn config(&self) -> &Checked
        ensures { result.now ≡ self.now.config }
    {
        &self.config
    }

    /// The entries, the oldest first.
    pub fn entries(&self) -> &Blocks<Entry>
        ensures value { result.now.0 ≡ reverse self.now.history }
        ensures few { length self.now.history ≤ 2 ^ 32 }
    {
        self.ledger.entries()
    }

    /// For each entry, the count in its request identifier: 0 unless its call is an Invoke.
    pub fn counts(&self) -> &Blocks<u64>
        ensures { reverse result.now.0 ≡ call_counts self.now.history }
    {
        self.ledger.counts()
    }

    /// The answer to a ticket, if it was answered.
    pub fn answer(&self, ticket: Ticket) -> Option<Answer>
        ensures { result ≡ answer_of self.now.history ticket }
    {
        self.ledger.answer(ticket)
    }

    /// The counts of the account.
    pub fn stats(&self) -> Stats
        ensures { result ≡ stats self.now.config self.now.history }
    {
        let totals = self.ledger.totals();
        Stats {
            entries: self.ledger.entries().len() as u64,
            admitted: totals.admitted,
            throttled: totals.throttled,
            failed: totals.failed,
            in_flight: self.fleet.in_flight(),
        }
    }

    /// Whether the service was stopped.
    pub fn is_stopped(&self) -> bool
        ensures { result ≡ stopped self.now.history }
    {
        self.ledger.is_stopped()
    }

    /// Whether every environment is shut down for good.
    pub fn is_off(&self) -> bool
        ensures { result ≡ list_all
            (λ e. is_off (phase self.now.config self.now.history e)) (environments self.now.config) }
    {
        self.fleet.is_off()
    }

    /// A function's reservation in force.
    pub fn reservation(&self, function: FnNo) -> Option<u32>
        requires from_one { 1 ≤ function }
        requires there { function ≤ length self.now.config.functions }
        ensures { result ≡ reservation self.now.config self.now.history function }
    {
        self.fleet.reservation(function)
    }

    /// The greatest moment so far, in milliseconds.
    pub fn last_moment(&self) -> u64
        ensures value { result ≡ last_moment self.now.history }
        ensures early { result < 2 ^ 53 }
    {
        match self.ledger.entries().last() {
            None => 0,
            Some(entry) => entry.moment,
        }
    }

    /// How many environments there are.
    pub fn environments(&self) -> u64
        ensures value { result ≡ length (owners self.now.config) }
        ensures few { result ≤ most_environments }
    {
        u64::from(self.fleet.environments())
    }

    /// The environment with a number.
    pub fn environment(&self, env: EnvNo) -> &Environment
        requires from_one { 1 ≤ env }
        requires there { env ≤ length (owners self.now.config) }
        ensures { result.now ≡ known_at self.now.config self.now.history env }
    {
        self.fleet.environment(env)
    }

    /// The most extensions that any environment has had at once.
    pub fn widest(&self) -> usize
        ensures value { result ≡ self.now.widest }
        ensures ten { result ≤ most_extensions }
    {
        self.fleet.widest()
    }

    /// What holds of every journal's history.
    pub fn facts(&self)
        ensures sound { first_fault self.now.config ≡ None }
        ensures legal { IsLegal self.now.config self.now.history }
        ensures all_known { AllKnown self.now.config self.now.history }
        ensures narrow { IsNarrow self.now.config self.now.history self.now.widest }
    {
        self.fleet.facts();
        let _known = &self.requests;
    }

    /// Makes room for this many entries. If it fails, the history is unchanged.
    pub fn make_room(&mut self, entries: usize) -> Result<(), AllocError>
        requires { length self.old.history + entries ≤ 2 ^ 32 }
        ensures same { (self.new.config ≡ self.old.config) × (self.new.history ≡ self.old.history)
            × (self.new.widest ≡ self.old.widest) }
        ensures made { OnOk result (self.new.room ≡ entries) }
    {
        self.ledger.make_room(entries)
    }

    /// How many environments are due.
    pub fn count_due(&self, moment: u64) -> usize
        ensures value { result ≡ length (due self.now.config self.now.history moment) }
        ensures few { result ≤ most_environments }
    {
        self.fleet.count_due(moment)
    }

    /// The environment that is due first, by deadline and number.
    pub fn first_due(&self, moment: u64) -> Option<EnvNo>
        ensures { result ≡ first (due self.now.config self.now.history moment) }
    {
        self.fleet.first_due(moment)
    }

    /// Takes a call at a moment at which nothing is due, with room for its answers.
    pub fn take(&mut self, moment: u64, call: Call, answers: &mut Roomy<(Ticket, Answer)>)
        requires moment { moment < 2 ^ 53 }
        requires later { last_moment self.old.history ≤ moment }
        requires none_due { due self.old.config self.old.history moment ≡ [] }
        requires called { is_expiry call ≡ false }
        requires within { IsWithin self.old.config call }
        requires room { 0 < self.old.room }
        requires answers { most_answers self.old.widest (length (owners self.old.config)) call ≤ answers.old.1 }
        requires empty { answers.old.0 ≡ [] }
        ensures config { self.new.config ≡ self.old.config }
        ensures history { self.new.history ≡ entered self.old.config self.old.history moment call }
    {
        let verdict = self.verdict(&call);
        self.enter(moment, call, verdict, answers);
    }

    /// What the account decides on a call.
    #[tactic(auto, unfolding(call_model::specs::Answers::own_first))]
    fn verdict(&self, call: &Call) -> Verdict
        requires called { is_expiry call.now ≡ false }
        requires within { IsWithin self.now.config call.now }
        ensures placed { result.place ≡ place_for self.now.config self.now.history call.now }
        ensures own { result.own ≡ book_answer self.now.config self.now.history call.now }
    {
        match call {
            Call::Invoke { function, .. } => self.admit(*function),
            Call::Tick | Call::Withdraw { ticket: _ } => Verdict::own(Answer::Done),
            Call::Stop => Verdict::own(Answer::Accepted),
            Call::Reserve { function, count } => Verdict::own(self.reserve(*function, *count)),
            _ => Verdict {
                place: None,
                own: None,
            },
        }
    }

    /// Whether an Invoke is admitted, and where it goes; else why it is not.
    /// (Invoke: TooManyRequestsException, ServiceException)
    fn admit(&self, function: FnNo) -> Verdict
        requires from_one { 1 ≤ function }
        requires there { function ≤ length self.now.config.functions }
        ensures placed { result.place ≡ admitted_to (verdict self.now.config self.now.history function) }
        ensures own { result.own ≡ verdict_answer (verdict self.now.config self.now.history function) }
    {
        if self.ledger.is_stopped() {
            return Verdict::own(Answer::Stopped);
        }
        match self.fleet.admit(function) {
            Ok(env) => Verdict {
                place: Some(env),
                own: None,
            },
            Err(reason) => Verdict::own(Answer::Throttled(reason)),
        }
    }

    /// Whether an Invoke of a function that is admitted to this environment would start it, while another
    /// one of the function has answered its invocation and is not ready again.
    fn would_start_beside(&self, function: FnNo, env: EnvNo) -> bool
        requires from_one { 1 ≤ env }
        requires there { env ≤ length (owners self.now.config) }
        ensures { result ≡ would_be_premature self.now.config self.now.history function (Admits env) }
    {
        is_unstarted(self.environment(env).phase())
            && self
                .fleet
                .has_answered_in_way(Throttle::Environments, function)
    }

    /// Whether an Invoke of a function would be throttled, or would start an environment, while an
    /// environment in its way has answered its invocation and is not ready again.
    pub fn would_be_premature(&self, function: FnNo) -> bool
        requires from_one { 1 ≤ function }
        requires there { function ≤ length self.now.config.functions }
        ensures { result
            ≡ would_be_premature self.now.config self.now.history function (verdict self.now.config self.now.history function) }
    {
        if self.ledger.is_stopped() {
            return false;
        }
        match self.fleet.admit(function) {
            Ok(env) => self.would_start_beside(function, env),
            Err(reason) => self.fleet.has_answered_in_way(reason, function),
        }
    }

    /// The answer to a Reserve. (PutFunctionConcurrency, DeleteFunctionConcurrency)
    fn reserve(&self, function: FnNo, count: Option<u32>) -> Answer
        requires from_one { 1 ≤ function }
        requires there { function ≤ length self.now.config.functions }
        ensures { result
            ≡ if stopped self.now.history then Stopped
            else reserve_answer self.now.config self.now.history function count }
    {
        if self.ledger.is_stopped() {
            return Answer::Stopped;
        }
        if !self.fleet.may_reserve(function, count) {
            return Answer::Refused(Rejection::BadReservation);
        }
        match count {
            None => Answer::Unreserved,
            Some(count) => Answer::Reserved { count },
        }
    }

    /// Takes a call, on which the account has decided, as the next entry.
    fn enter(
        &mut self,
        moment: u64,
        call: Call,
        verdict: Verdict,
        answers: &mut Roomy<(Ticket, Answer)>,
    )
        requires moment { moment < 2 ^ 53 }
        requires follows { Follows self.old.config self.old.history
            (entry_of self.old.config self.old.history moment call) }
        requires known { IsKnown self.old.config call }
        requires placed { verdict.place ≡ place_for self.old.config self.old.history call }
        requires own { verdict.own ≡ book_answer self.old.config self.old.history call }
        requires room { 0 < self.old.room }
        requires answers { most_answers self.old.widest (length (owners self.old.config)) call ≤ answers.old.1 }
        requires empty { answers.old.0 ≡ [] }
        ensures config { self.new.config ≡ self.old.config }
        ensures history { self.new.history ≡ entered self.old.config self.old.history moment call }
        ensures room { self.new.room ≡ self.old.room - 1 }
        ensures widest { registered_name call ≡ None → self.new.widest ≡ self.old.widest }
    {
        let entries = self.ledger.entries();
        let count = count_call(&self.config, entries, &mut self.requests, moment, &call);
        let arrival = Arrival {
            ticket: entries.len() as u64,
            moment,
            requests: &self.requests,
            call: &call,
        };
        answer_call(
            &self.config,
            entries,
            &mut self.fleet,
            &arrival,
            verdict.place,
            verdict.own,
            answers,
        );
        self.ledger
            .add(moment, call, answers.copy_out(), verdict.place, count);
    }

    /// Expires the environments that are due, in the order of deadlines and numbers, with one entry each.
    pub fn expire_due(&mut self, moment: u64, rooms: Vec<Roomy<(Ticket, Answer)>>)
        requires moment { moment < 2 ^ 53 }
        requires later { last_moment self.old.history ≤ moment }
        requires as_many { length rooms.items ≡ length (due self.old.config self.old.history moment) }
        requires enough { All (IsRoom self.old.widest) rooms.items }
        requires room { length rooms.items ≤ self.old.room }
        ensures { self.new
            ≡ record self.old {
              history = expiries_at self.old.config self.old.history moment ++ self.old.history;
              room = self.old.room - length rooms.items;
            } }
    {
        self.facts();
        let mut rooms = rooms;
        while let Some(room) = rooms.pop() {
            self.expire_first(moment, room);
        }
    }

    /// Expires the environment that is due first.
    fn expire_first(&mut self, moment: u64, answers: Roomy<(Ticket, Answer)>)
        requires moment { moment < 2 ^ 53 }
        requires later { last_moment self.old.history ≤ moment }
        requires some_due { 0 < length (due self.old.config self.old.history moment) }
        requires room { 0 < self.old.room }
        requires enough { IsRoom self.old.widest answers }
        ensures expired { self.new
            ≡ record self.old {
              history = entered self.old.config self.old.history moment
                  (Expire (first_or_zero (due self.old.config self.old.history moment)));
              room = self.old.room - 1;
            } }
        ensures legal { IsLegal self.new.config self.new.history }
    {
        match self.first_due(moment) {
            None => unreachable!(),
            Some(env) => {
                let verdict = Verdict {
                    place: None,
                    own: None,
                };
                let mut answers = answers;
                self.enter(moment, Call::Expire { env }, verdict, &mut answers);
                self.facts();
            }
        }
    }
}
